// A register or a shares sheet, read into columns by member number: document 01 gives both the same records, and each its own meaning.
ghost use Rattle.std.specs.Prelude.{◌≡◌};
ghost use Rattle.refusal.specs.Refusal.{answered};
ghost use Rattle.sheets.specs.Columns.{no_columns, entered, columns_of};
ghost use Rattle.sheets.specs.Sheet.{member_refusal};
ghost use Rattle.sheets.specs.Parts.{WithinLimits};

use crate::Record;
use crate::members::read_record;
use refusal::{Refusal, located};
use std::marker::Model;

// A member sheet by member number, member 1 first; 0 where the sheet has no such member. Every amount is at most 400,000,000.
// A list for each column, and not one list of structs: a column is shared over, added up and put into a register as a whole.
#[derive(Clone, Copy)]
pub struct Columns {
    pub present: [bool; 64],
    pub first: [u32; 64],
    pub second: [u32; 64],
    pub third: [u32; 64],
}

impl Model for Columns {
    ghost use Rattle.sheets.specs.Lists.{ColumnLists};

    ghost Value = { ColumnLists };

    ghost use Rattle.sheets.specs.Parts.{AmountsFit};

    ghost view = { λ c. record { present = c.present; first = c.first; second = c.second; third = c.third } };

    ghost inverse = { λ v. record { present = v.present; first = v.first; second = v.second; third = v.third } };

    ghost invariant = { λ c. AmountsFit c.first c.second c.third };
}

// The columns of a sheet of no records.
#[tactic(auto, using(crate::proofs::Laws::amounts_none))]
pub fn no_columns() -> Columns
    ensures { result ≡ no_columns }
{
    Columns {
        present: [false; 64],
        first: [0; 64],
        second: [0; 64],
        third: [0; 64],
    }
}

impl Columns {
    // A member's three amounts, put at its place.
    fn enter(&mut self, found: Record)
        requires { WithinLimits found }
        ensures { self.new ≡ entered self.old found }
    {
        let place = usize::from(found.member - 1);
        self.present[place] = true;
        self.first[place] = found.first;
        self.second[place] = found.second;
        self.third[place] = found.third;
    }
}

// 4 to 7 record by record, and the columns of a sheet in order. `floor` is the least second amount; `last` is 0 before the first record, as
// `read_record` has it. No `try_fold`: its closure would take and hand back `(columns, last)` at each record, and is no plainer. Nor one
// function with `cover::read`: each turn differs, and what is carried from record to record.
pub fn read(floor: u64, sheet: &[u8]) -> Result<Columns, Refusal>
    ensures { result ≡ answered (member_refusal floor sheet.now) (columns_of sheet.now) }
{
    let (records, _) = sheet.as_chunks::<16>();
    let mut columns = no_columns();
    let mut last = 0;
    for (i, bytes) in records.iter().enumerate() {
        let found = located(read_record(floor, last, bytes), i + 1)?;
        columns.enter(found);
        last = found.member;
    }
    Ok(columns)
}
