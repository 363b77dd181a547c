// 16-byte records; registers and shares sheets read and refused: document 01, "The opening register", refusals 1 and 4 to 7.
#![tactic(auto)]

pub mod bytes;
pub mod columns;
pub mod members;

ghost use Rattle.std.specs.Prelude.{◌≡◌, ◌≤◌};
ghost use Rattle.lists.specs.Limits.{stress_limit};
ghost use Rattle.sheets.specs.Sheet.{missized};

// A record of a register or a shares sheet.
#[derive(Clone, Copy, Debug, PartialEq, Eq)]
pub struct Record {
    pub member: u8,
    pub first: u32,
    pub second: u32,
    pub third: u32,
}

// 1. "A sheet is empty, overlong or not whole records.": `most` is how many records the sheet may have.
#[tactic(auto, unfolding(crate::specs::Sheet::missized))]
pub fn missized(most: usize, sheet: &[u8]) -> bool
    requires { most ≤ stress_limit }
    ensures { result ≡ missized most sheet.now }
{
    let size = sheet.len();
    size == 0 || most * 16 < size || size % 16 != 0
}
