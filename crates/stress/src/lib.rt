// Records of a stress sheet, read and refused: document 01, "Stress sheet and sizing", refusals 4 to 8.
#![tactic(auto)]

pub mod losses;

use std::marker::Model;

// What stands before a record of a stress sheet: the record before it, and the weak flags of that record's block so far. Day, scenario and
// flags are within their limits.
#[derive(Clone, Copy)]
pub struct Before {
    pub day: u16,
    pub scenario: u16,
    pub member: u8,
    pub flags: u8,
}

impl Model for Before {
    ghost use Rattle.stress.specs.Figures.{BeforeFigures, BlockWithin};

    ghost Value = { BeforeFigures };

    ghost view = { λ b. record { day = b.day; scenario = b.scenario; member = b.member; flags = b.flags } };

    ghost inverse = { λ v. record { day = v.day; scenario = v.scenario; member = v.member; flags = v.flags } };

    ghost invariant = { λ b. BlockWithin b.day b.scenario b.flags };
}

/// What stands before a record of a stress sheet, in numbers of a caller's own: `Before` without its limits. No record need be of these numbers.
#[derive(Clone, Copy)]
pub struct Preceding {
    /// The day of the record before.
    pub day: u64,
    /// Its scenario.
    pub scenario: u64,
    /// Its member.
    pub member: u64,
    /// The weak flags of its block so far, its own included.
    pub flags: u64,
}

// A record in order: its loss, whether it is flagged as weak, its group (0 for a member alone), and what stands before the next record.
#[derive(Clone, Copy)]
pub struct Loss {
    pub amount: u32,
    pub weak: bool,
    pub group: u8,
    pub next: Before,
}
