// A record of a register or a shares sheet: one function for each of document 01's refusals 4 to 6, and the record by them.
ghost use Rattle.std.specs.Prelude.{◌≡◌, ◌≤◌, length};
ghost use Rattle.refusal.specs.Refusal.{answered};
ghost use Rattle.sheets.specs.Members.{outside, missing, excessive, member_fault, record_of};

use crate::Record;
use crate::bytes::le32;
use lists::{AMOUNT_LIMIT, LAST_MEMBER, MISSING_AMOUNT};
use refusal::Fault;

// The member and the three zero bytes after it are one number here.
#[tactic(auto, unfolding(crate::specs::Bytes::le32, crate::specs::Members::outside))]
fn outside(bytes: &[u8]) -> bool
    requires { 16 ≤ length bytes.now }
    ensures { result ≡ outside bytes.now }
{
    !(1..=LAST_MEMBER).contains(&u64::from(le32(bytes, 0)))
}

#[tactic(auto, unfolding(crate::specs::Members::missing))]
fn missing(found: Record) -> bool
    ensures { result ≡ missing found }
{
    [found.first, found.second, found.third].contains(&MISSING_AMOUNT)
}

#[tactic(auto, unfolding(crate::specs::Members::excessive))]
fn excessive(floor: u64, found: Record) -> bool
    ensures { result ≡ excessive floor found }
{
    let second = u64::from(found.second);
    AMOUNT_LIMIT < u64::from(found.first)
        || AMOUNT_LIMIT < second
        || AMOUNT_LIMIT < u64::from(found.third)
        || second < floor
}

// The record at the start of these bytes: `floor` is the least second amount, `last` the member of the record before, 0 where there is none. No Option: 0
// is below every member, so that one comparison serves the first record too.
#[tactic(auto, unfolding(lists::specs::Checks::check, crate::specs::Members::member_fault))]
pub fn read_record(floor: u64, last: u8, bytes: &[u8]) -> Result<Record, Fault>
    requires { 16 ≤ length bytes.now }
    ensures { result ≡ answered (member_fault floor last bytes.now) (record_of bytes.now) }
{
    if outside(bytes) {
        return Err(Fault::Outside);
    }
    let found = Record {
        member: bytes[0],
        first: le32(bytes, 4),
        second: le32(bytes, 8),
        third: le32(bytes, 12),
    };
    if missing(found) {
        return Err(Fault::Missing);
    }
    if excessive(floor, found) {
        return Err(Fault::Excessive);
    }
    if found.member <= last {
        return Err(Fault::NotRising);
    }
    Ok(found)
}
