// What is read of a register: by a host that prints it, and where a default is placed.
ghost use Rattle.std.specs.Prelude.{◌≡◌};
ghost use Rattle.waterfall.specs.Register.{GivenBack};
ghost use Rattle.waterfall.specs.View.{figures_of, tranches_of};

use crate::Register;
use figures::{Status, figure_of, status_at};
use layers::Figures;

/// A member's figures, absent and all 0 for a number that is not in the register.
#[derive(Clone, Copy, Debug, PartialEq, Eq)]
pub struct MemberView {
    pub status: Status,
    pub margin: u64,
    pub contribution: u64,
    pub requirement: u64,
    pub cap: u64,
    pub outstanding: u64,
    // since the last close
    pub called: u64,
}

/// The tranches of the own contribution.
#[derive(Clone, Copy, Debug, PartialEq, Eq)]
pub struct TranchesView {
    pub tranche1: u64,
    pub tranche2: u64,
}

impl Register {
    /// What a caller's proof may rest on of every register. It does nothing.
    pub fn given_back(&self)
        ensures { GivenBack self.now }
    {
        let _ = &self.status;
    }

    /// The figures that a default is placed by, as they stand: nothing can be changed by them.
    pub fn figures(&self) -> Figures<'_>
        ensures members { (result.status.now ≡ self.now.status) × (result.margin.now ≡ self.now.margin) × (result.contribution.now ≡ self.now.contribution)
            × (result.outstanding.now ≡ self.now.outstanding) × (result.cap.now ≡ self.now.cap) × (result.called.now ≡ self.now.called) }
        ensures tranches { (result.tranche1 ≡ self.now.tranche1) × (result.tranche2 ≡ self.now.tranche2) }
    {
        Figures {
            status: &self.status,
            margin: &self.margin,
            contribution: &self.contribution,
            outstanding: &self.outstanding,
            cap: &self.cap,
            called: &self.called,
            tranche1: self.tranche1,
            tranche2: self.tranche2,
        }
    }

    pub fn member(&self, member: u64) -> MemberView
        ensures { result ≡ figures_of self.now member }
    {
        MemberView {
            status: status_at(&self.status, member),
            margin: figure_of(&self.margin, member),
            contribution: figure_of(&self.contribution, member),
            requirement: figure_of(&self.requirement, member),
            cap: figure_of(&self.cap, member),
            outstanding: figure_of(&self.outstanding, member),
            called: figure_of(&self.called, member),
        }
    }

    pub fn tranches(&self) -> TranchesView
        ensures { result ≡ tranches_of self.now }
    {
        TranchesView {
            tranche1: self.tranche1,
            tranche2: self.tranche2,
        }
    }
}
