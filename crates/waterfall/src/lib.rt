// The register and the calls of a drill by value: document 01, "The opening register" and "Declaring a default".
#![tactic(auto)]

pub mod close;
pub mod declaration;
pub mod opening;
pub mod payment;
pub mod replenishment;
pub mod view;

use figures::Status;
pub use layers::Allocation;
use refusal::Refusal;
use std::marker::Model;

/// The register. Its fields are private: hosts can make none. A member's figures stand at its number less 1: one list for each figure, since a layer takes
/// a figure of every member, and a sheet gives one.
#[derive(Clone, Copy, PartialEq, Eq)]
pub struct Register {
    status: [Status; 64],
    margin: [u32; 64],
    contribution: [u32; 64],
    requirement: [u32; 64],
    cap: [u32; 64],
    outstanding: [u32; 64],
    // what was called since the last close
    called: [u32; 64],
    // of our own contribution: two fields, since each is drawn on in a layer of its own
    tranche1: u64,
    tranche2: u64,
}

impl Model for Register {
    ghost use Rattle.waterfall.specs.Register.{Register};

    ghost Value = { Register };

    ghost use Rattle.waterfall.specs.Inside.{seen, held, Given};

    ghost view = { seen };

    ghost invariant = { Given };

    ghost inverse = { held };
}

/// What an opening hands back. Both fields, and no Result: "A refused opening hands back a register with no members" (document 01).
#[derive(Clone, Copy, PartialEq, Eq)]
pub struct Opened {
    pub refusal: Option<Refusal>,
    pub register: Register,
}

/// What a drill call answers: its refusal, or that it is accepted; an accepted default answers its allocation.
pub type Reply = Result<Option<Allocation>, Refusal>;

/// What a drill call hands back. A method that takes the register by `&mut` hands back a reply alone, and so promises reply and register in a clause each.
// The four calls by value have a body each: as one function over a closure, which proved, a default took 4,544 instructions, where it then took 4,219.
#[derive(Clone, Copy, PartialEq, Eq)]
pub struct Outcome {
    pub reply: Reply,
    pub register: Register,
}
