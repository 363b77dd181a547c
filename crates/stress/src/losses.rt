// A record of a stress sheet: document 01's refusals 4 to 8, and the record by them. 4, 5 and 6 are tried together first, and one by one
// where a record is refused. Within `placed`, `marked`, `outside` and `filled` tests are joined by `|` and `&`, which do not branch; the
// definitions have `||` and `&&`.
ghost use Rattle.std.specs.Prelude.{◌≡◌, ◌+◌, ◌≤◌, true, false, not, length, Option, Some};
ghost use Rattle.lists.specs.Limits.{weak_limit};
ghost use Rattle.refusal.specs.Refusal.{answered};
ghost use Rattle.stress.specs.Stress.{day_at, scenario_at, weak_at, same_block, flags_before, passed, stress_outside, stress_rises, stress_fault, loss_of};
ghost use Rattle.stress.specs.Parts.{le64, block_beyond, group_beyond, marks_beyond, stress_faulty};
ghost use Rattle.stress.specs.Preceding.{as_before};

use crate::{Before, Loss, Preceding};
use lists::{
    AMOUNT_LIMIT, DAY_LIMIT, GROUP_LIMIT, LAST_MEMBER, MISSING_AMOUNT, SCENARIO_LIMIT, WEAK_LIMIT,
};
use refusal::Fault;
use sheets::bytes::{le16, le32};

// The day and the scenario of a record: they name its block, and rise as a pair.
fn block(bytes: &[u8]) -> (u16, u16)
    requires { 16 ≤ length bytes.now }
    ensures { result ≡ (day_at bytes.now, scenario_at bytes.now) }
{
    (le16(bytes, 0), le16(bytes, 2))
}

// Whether day and scenario are within their values.
pub fn placed(bytes: &[u8]) -> bool
    requires { 16 ≤ length bytes.now }
    ensures { result ≡ not (block_beyond bytes.now) }
{
    let (day, scenario) = block(bytes);
    (1..=DAY_LIMIT).contains(&u64::from(day)) & (1..=SCENARIO_LIMIT).contains(&u64::from(scenario))
}

// Whether the group and the zero byte after it are within their values. As one number they are the group where that byte is zero, and above every group
// where it is not.
fn grouped(bytes: &[u8]) -> bool
    requires { 16 ≤ length bytes.now }
    ensures { result ≡ not (group_beyond bytes.now) }
{
    u64::from(le16(bytes, 6)) <= GROUP_LIMIT
}

// Whether the member, the flag, the group and the zero byte after it are within their values.
fn marked(bytes: &[u8]) -> bool
    requires { 16 ≤ length bytes.now }
    ensures { result ≡ not (marks_beyond bytes.now) }
{
    (1..=LAST_MEMBER).contains(&u64::from(bytes[4])) & (bytes[5] <= 1) & grouped(bytes)
}

#[tactic(auto, unfolding(crate::specs::Stress::stress_outside, sheets::specs::Bytes::le32))]
fn outside(bytes: &[u8]) -> bool
    requires { 16 ≤ length bytes.now }
    ensures { result ≡ stress_outside bytes.now }
{
    !placed(bytes) | !marked(bytes) | (le32(bytes, 12) != 0)
}

// Bytes 8 to 15 as one number: a third size beside `le16` and `le32` of `sheets`, each by a method of its own type.
#[tactic(auto, unfolding(crate::specs::Parts::le64, sheets::specs::Bytes::le32))]
fn loss_to_end(bytes: &[u8]) -> u64
    requires { 16 ≤ length bytes.now }
    ensures { result ≡ le64 bytes.now 8 }
{
    u64::from_le_bytes([
        bytes[8], bytes[9], bytes[10], bytes[11], bytes[12], bytes[13], bytes[14], bytes[15],
    ])
}

// Whether none of 4, 5 and 6 refuses a record whose day and scenario are within their values. Bytes 8 to 15 as one number are the
// loss where the last four are zero, and above every limit where they are not.
#[tactic(auto, unfolding(crate::specs::Stress::stress_outside, crate::specs::Parts::stress_faulty, crate::specs::Parts::le64, sheets::specs::Bytes::le32))]
fn filled(bytes: &[u8]) -> bool
    requires { 16 ≤ length bytes.now }
    ensures { block_beyond bytes.now ≡ false → result ≡ not (stress_faulty bytes.now) }
{
    marked(bytes) & (loss_to_end(bytes) <= AMOUNT_LIMIT)
}

// Whether the record is of the block of the record before. (What stands before and the bytes are in no struct, here and below: the one is kept from record
// to record, and the other lent by the sheet. What was tried of both is what each step asks.)
pub fn same_block(before: &Option<Before>, bytes: &[u8; 16]) -> bool
    ensures same { result ≡ same_block before.now bytes.now }
    ensures tried { result ≡ true → block_beyond bytes.now ≡ false }
{
    let Some(before) = before else {
        return false;
    };
    // By parts: as two pairs, which proved, a sizing of 4,096 records took 40,573 instructions more.
    let (day, scenario) = block(bytes);
    day == before.day && scenario == before.scenario
}

// The first of 4, 5 and 6 that refuses the record, where one does.
#[tactic(auto, unfolding(lists::specs::Checks::check, crate::specs::Stress::stress_fault, crate::specs::Parts::stress_faulty))]
fn fault(bytes: &[u8]) -> Fault
    requires { (16 ≤ length bytes.now) × (stress_faulty bytes.now ≡ true) }
    ensures { (before : Option Before) → stress_fault before bytes.now ≡ Some result }
{
    if outside(bytes) {
        return Fault::Outside;
    }
    if le32(bytes, 8) == MISSING_AMOUNT {
        return Fault::Missing;
    }
    Fault::Excessive
}

// Whether the record's block follows that of the record before.
#[tactic(auto, unfolding(crate::specs::Stress::stress_rises))]
fn opens_later(before: &Option<Before>, bytes: &[u8; 16]) -> bool
    requires { same_block before.now bytes.now ≡ false }
    ensures { result ≡ stress_rises before.now bytes.now }
{
    let Some(last) = before else {
        return true;
    };
    (last.day, last.scenario) < block(bytes)
}

// Whether the record's member rises above that of the record before, which is of the same block.
#[tactic(auto, unfolding(crate::specs::Stress::stress_rises))]
fn rises_within(last: Before, bytes: &[u8; 16]) -> bool
    requires { same_block (Some last) bytes.now ≡ true }
    ensures { result ≡ stress_rises (Some last) bytes.now }
{
    last.member < bytes[4]
}

// What stands before the next record: this one, and the weak flags of its block up to it.
#[tactic(auto, unfolding(crate::specs::Stress::stress_outside, crate::specs::Parts::stress_faulty))]
fn passed(flags: u8, bytes: &[u8]) -> Before
    requires { (16 ≤ length bytes.now) × (stress_faulty bytes.now ≡ false) × (flags ≤ weak_limit) }
    ensures { (before : Option Before) → flags ≡ flags_before before bytes.now + weak_at bytes.now → result ≡ passed before bytes.now }
{
    let (day, scenario) = block(bytes);
    Before {
        day,
        scenario,
        member: bytes[4],
        flags,
    }
}

// A record that rises, and that none of 4, 5 and 6 refuses: 8 is left. `flags` are those of its block before it.
#[tactic(auto, unfolding(lists::specs::Checks::check, crate::specs::Stress::stress_outside, crate::specs::Stress::stress_fault, crate::specs::Parts::stress_faulty))]
fn counted(flags: u8, bytes: &[u8]) -> Result<Loss, Fault>
    requires long { 16 ≤ length bytes.now }
    requires sound { stress_faulty bytes.now ≡ false }
    requires few { flags ≤ weak_limit }
    ensures { (before : Option Before) → stress_rises before bytes.now ≡ true → flags ≡ flags_before before bytes.now
        → result ≡ answered (stress_fault before bytes.now) (loss_of before bytes.now) }
{
    let flags = flags + bytes[5];
    if WEAK_LIMIT < u64::from(flags) {
        return Err(Fault::SixthWeak);
    }
    Ok(Loss {
        amount: le32(bytes, 8),
        weak: bytes[5] != 0,
        group: bytes[6],
        next: passed(flags, bytes),
    })
}

// A record that opens a block.
#[tactic(auto, unfolding(lists::specs::Checks::check, crate::specs::Stress::stress_outside, crate::specs::Stress::stress_fault, crate::specs::Parts::stress_faulty))]
fn first_of_block(before: &Option<Before>, bytes: &[u8; 16]) -> Result<Loss, Fault>
    requires { same_block before.now bytes.now ≡ false }
    ensures { result ≡ answered (stress_fault before.now bytes.now) (loss_of before.now bytes.now) }
{
    if !placed(bytes) || !filled(bytes) {
        return Err(fault(bytes));
    }
    if !opens_later(before, bytes) {
        return Err(Fault::NotRising);
    }
    counted(0, bytes)
}

// A further record of the block of the record before. Day and scenario were tried with that one.
#[tactic(auto, unfolding(lists::specs::Checks::check, crate::specs::Stress::stress_fault, crate::specs::Parts::stress_faulty))]
fn next_of_block(last: Before, bytes: &[u8; 16]) -> Result<Loss, Fault>
    requires { same_block (Some last) bytes.now ≡ true }
    ensures { result ≡ answered (stress_fault (Some last) bytes.now) (loss_of (Some last) bytes.now) }
{
    if !filled(bytes) {
        return Err(fault(bytes));
    }
    if !rises_within(last, bytes) {
        return Err(Fault::NotRising);
    }
    counted(last.flags, bytes)
}

// The record of these bytes, after what stands before it.
pub fn read_loss(before: &Option<Before>, bytes: &[u8; 16]) -> Result<Loss, Fault>
    ensures { result ≡ answered (stress_fault before.now bytes.now) (loss_of before.now bytes.now) }
{
    match before {
        Some(last) if same_block(before, bytes) => next_of_block(*last, bytes),
        _ => first_of_block(before, bytes),
    }
}

// Whether none of 4, 5 and 6 refuses the record.
#[tactic(auto, unfolding(crate::specs::Stress::stress_outside, crate::specs::Parts::stress_faulty))]
fn sound(bytes: &[u8]) -> bool
    requires { 16 ≤ length bytes.now }
    ensures { result ≡ not (stress_faulty bytes.now) }
{
    placed(bytes) && filled(bytes)
}

// Whether the record rises above what stands before it in numbers of a caller's own.
#[tactic(auto, unfolding(crate::specs::Stress::stress_rises))]
fn rises_after(before: Preceding, bytes: &[u8]) -> bool
    requires { 16 ≤ length bytes.now }
    ensures { result ≡ stress_rises (Some (as_before before)) bytes.now }
{
    let (day, scenario) = block(bytes);
    (before.day, before.scenario, before.member)
        < (u64::from(day), u64::from(scenario), u64::from(bytes[4]))
}

// The weak flags of the record's block that stand before it, of such numbers.
fn flags_before(before: Preceding, bytes: &[u8]) -> u8
    requires { (16 ≤ length bytes.now) × (before.flags ≤ weak_limit) }
    ensures { result ≡ flags_before (Some (as_before before)) bytes.now }
{
    let (day, scenario) = block(bytes);
    if u64::from(day) == before.day && u64::from(scenario) == before.scenario {
        before.flags as u8
    } else {
        0
    }
}

/// The record at the start of these bytes, after what stands before it, as `read_loss` reads it: for a caller that keeps what stands before a record in numbers
/// of its own. These may be any but for the flags, which are at most five. Day and scenario of the record are tried always, since numbers say of no record that
/// it was tried.
#[tactic(auto, unfolding(lists::specs::Checks::check, crate::specs::Stress::stress_fault, crate::specs::Parts::stress_faulty))]
pub fn read_loss_after(before: Preceding, bytes: &[u8]) -> Result<Loss, Fault>
    requires { (16 ≤ length bytes.now) × (before.flags ≤ weak_limit) }
    ensures { result ≡ answered (stress_fault (Some (as_before before)) bytes.now) (loss_of (Some (as_before before)) bytes.now) }
{
    if !sound(bytes) {
        return Err(fault(bytes));
    }
    if !rises_after(before, bytes) {
        return Err(Fault::NotRising);
    }
    counted(flags_before(before, bytes), bytes)
}
