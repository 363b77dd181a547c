// Document 01, "The opening register": a register opened from its sheet and our own contribution G.
ghost use Rattle.std.specs.Prelude.{◌≡◌, ◌≤◌};
ghost use Rattle.lists.specs.Limits.{sum_limit};
ghost use Rattle.refusal.specs.Refusal.{answered};
ghost use Rattle.waterfall.specs.Opening.{entered_of, opening_register, opening_refusal, opened_of};

use crate::{Opened, Register};
use figures::statuses;
use lists::{CONTRIBUTION_FLOOR, MEMBER_LIMIT, SUM_LIMIT};
use refusal::Refusal;
use sheets::columns::{Columns, no_columns, read};
use sheets::missized;

// The register with the members of the sheet.
fn entered(columns: Columns, own: u64) -> Register
    requires { own ≤ sum_limit }
    ensures { result ≡ entered_of columns own }
{
    let present = columns.present;
    let margin = columns.first;
    let contribution = columns.second;
    let cap = columns.third;
    let tranche1 = 60 * own / 100;
    Register {
        status: statuses(present),
        margin,
        contribution,
        requirement: contribution,
        cap,
        outstanding: [0; 64],
        called: [0; 64],
        tranche1,
        tranche2: own - tranche1,
    }
}

// The register of an opening that nothing refuses.
#[tactic(auto, unfolding(lists::specs::Checks::check, crate::specs::Opening::opening_refusal, crate::specs::Opening::opening_register))]
fn unrefused(sheet: &[u8], own: u64) -> Result<Register, Refusal>
    ensures { result ≡ answered (opening_refusal sheet.now own) (opening_register sheet.now own) }
{
    if missized(MEMBER_LIMIT, sheet) {
        return Err(Refusal::Missized);
    }
    if SUM_LIMIT < own {
        return Err(Refusal::ExcessiveSum);
    }
    let columns = read(CONTRIBUTION_FLOOR, sheet)?;
    Ok(entered(columns, own))
}

// After a refusal the register is that of a sheet of no records and of nothing of our own: it has no members, and both its tranches are 0.
pub fn open(sheet: &[u8], own: u64) -> Opened
    ensures { result ≡ opened_of sheet.now own }
{
    match unrefused(sheet, own) {
        Ok(register) => Opened {
            refusal: None,
            register,
        },
        Err(refusal) => Opened {
            refusal: Some(refusal),
            register: entered(no_columns(), 0),
        },
    }
}
