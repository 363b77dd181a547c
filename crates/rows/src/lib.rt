// A line of a sheet as a record of 16 bytes.
#![tactic(auto)]

ghost use Rattle.std.specs.Prelude.{◌≡◌};
ghost use Rattle.cells.specs.Cells.{cells_of};
ghost use Rattle.rows.specs.Rows.{named_of, member_of, stress_of, row_of, bytes_of};

use cells::{Cells, content, read_amount, read_byte, read_half, trim};
use words::Unreadable;

/// The kinds of sheets.
#[derive(Clone, Copy, Debug, PartialEq, Eq)]
pub enum Kind {
    Register,
    Shares,
    Stress,
}

/// A record of a sheet: of a register or a shares sheet, or of a stress sheet.
// It holds whatever is typed, its amounts side by side as callers have them; a `sheets::Record` was read, and is within the limits.
#[derive(Clone, Copy, Debug, PartialEq, Eq)]
pub enum Record {
    Member {
        member: u8,
        amounts: [u32; 3],
    },
    Stress {
        day: u16,
        scenario: u16,
        member: u8,
        weak: u8,
        loss: u32,
        group: u8,
    },
}

/// A kind by its name. (A `TryFrom` would want an error that says nothing, and a relation beside `named_of`.)
// The tests are no `match` on byte strings: an arm of one tells a proof how long the word is, and not its bytes (tried, with a lemma for a word).
#[tactic(auto, unfolding(crate::specs::Rows::named_of, lists::specs::Checks::check))]
pub fn kind_named(word: &[u8]) -> Option<Kind>
    ensures { result ≡ named_of word.now }
{
    if word == b"register".as_slice() {
        Some(Kind::Register)
    } else if word == b"shares".as_slice() {
        Some(Kind::Shares)
    } else if word == b"stress".as_slice() {
        Some(Kind::Stress)
    } else {
        None
    }
}

// A line of a register or a shares sheet.
fn read_member(line: &[u8]) -> Option<Record>
    ensures { result ≡ member_of (cells_of line.now) }
{
    let mut cells = Cells::of_line(line);
    let member = cells.next()?;
    let one = cells.next()?;
    let two = cells.next()?;
    let three = cells.next()?;
    if cells.next().is_some() {
        return None;
    }
    Some(Record::Member {
        member: read_byte(member)?,
        amounts: [read_amount(one)?, read_amount(two)?, read_amount(three)?],
    })
}

// A line of a stress sheet. Without a sixth cell, the group, a member is alone.
fn read_stress(line: &[u8]) -> Option<Record>
    ensures { result ≡ stress_of (cells_of line.now) }
{
    let mut cells = Cells::of_line(line);
    let day = cells.next()?;
    let scenario = cells.next()?;
    let member = cells.next()?;
    let weak = cells.next()?;
    let loss = cells.next()?;
    let group = match cells.next() {
        Some(cell) => read_byte(cell)?,
        None => 0,
    };
    if cells.next().is_some() {
        return None;
    }
    Some(Record::Stress {
        day: read_half(day)?,
        scenario: read_half(scenario)?,
        member: read_byte(member)?,
        weak: read_byte(weak)?,
        loss: read_amount(loss)?,
        group,
    })
}

/// The record that a line of a sheet holds, and None where the line has no word.
#[tactic(auto, unfolding(crate::specs::Rows::row_of, lists::specs::Checks::check))]
pub fn read_row(kind: Kind, line: &[u8]) -> Result<Option<Record>, Unreadable>
    ensures { result ≡ row_of kind line.now }
{
    let line = content(line);
    if trim(line).is_empty() {
        return Ok(None);
    }
    let record = match kind {
        Kind::Register | Kind::Shares => read_member(line),
        Kind::Stress => read_stress(line),
    };
    record.map(Some).ok_or(Unreadable)
}

impl Record {
    /// Its bytes in a sheet. (Named as std's `to_le_bytes` is, and no `From`, which would not say which bytes.)
    pub fn bytes(self) -> [u8; 16]
        ensures { result ≡ bytes_of self }
    {
        let mut bytes = [0; 16];
        match self {
            Record::Member { member, amounts } => {
                bytes[0] = member;
                let [one, two, three] = amounts;
                bytes[4..8].copy_from_slice(&one.to_le_bytes());
                bytes[8..12].copy_from_slice(&two.to_le_bytes());
                bytes[12..].copy_from_slice(&three.to_le_bytes());
            }
            Record::Stress {
                day,
                scenario,
                member,
                weak,
                loss,
                group,
            } => {
                bytes[..2].copy_from_slice(&day.to_le_bytes());
                bytes[2..4].copy_from_slice(&scenario.to_le_bytes());
                bytes[4] = member;
                bytes[5] = weak;
                bytes[6] = group;
                bytes[8..12].copy_from_slice(&loss.to_le_bytes());
            }
        }
        bytes
    }
}
