// Figures by member number: read, replaced, added and taken place by place, written to a lent buffer; and the members' statuses. An amount is at most
// 400,000,000, so a register holds it in 32 bits; sums, and what hosts hand over and receive, have 64.
#![tactic(auto)]

ghost use Rattle.std.specs.Prelude.{◌≡◌, ◌||◌, ◌++◌, map, ℕ, ◌+◌, ◌-◌, ◌^◌, ◌≤◌, ◌<◌, eqb, ltb, length, get_or, take, drop, cond};
ghost use Rattle.lists.specs.Limits.{member_limit, amount_limit};
ghost use Rattle.lists.specs.Sums.{total, plus, minus};
ghost use Rattle.figures.specs.Figures.{of_member, figure, status_at, replace, status_of, is_live, of_live};

use lists::{LAST_MEMBER, MEMBER_LIMIT};
use std::array;

/// How a member stands: not in the register, live, or in default.
#[derive(Clone, Copy, Debug, PartialEq, Eq)]
pub enum Status {
    Absent,
    Live,
    InDefault,
}

impl Status {
    // A value of a live member; of everyone else, `nothing`.
    pub fn if_live<T: Copy>(self, value: T, nothing: T) -> T
        ensures { result ≡ cond (is_live self) value nothing }
    {
        if self == Status::Live { value } else { nothing }
    }
}

// Who is present in a register of which nobody is in default is live.
impl From<bool> for Status {
    ghost from_gives = { λ present status. status ≡ status_of present };

    fn from(present: bool) -> Status {
        if present {
            Status::Live
        } else {
            Status::Absent
        }
    }
}

// A number that is no member's: "Members are numbered 1 to 64."
pub fn outside(member: u64) -> bool
    ensures { result ≡ (eqb member 0 || ltb member_limit member) }
{
    (member == 0) | (LAST_MEMBER < member)
}

// What stands at the number of a member, `nobody` of every other number.
fn of_member<T: Copy>(items: &[T; 64], member: u64, nobody: T) -> T
    ensures { result ≡ of_member nobody items.now member }
{
    if outside(member) {
        return nobody;
    }
    items[(member - 1) as usize]
}

// The figure of a member, 0 of every other number.
pub fn figure_of(figures: &[u32; 64], member: u64) -> u64
    ensures { result ≡ figure figures.now member }
{
    u64::from(of_member(figures, member, 0))
}

// The status of a member; every other number is absent.
pub fn status_at(status: &[Status; 64], member: u64) -> Status
    ensures { result ≡ status_at status.now member }
{
    of_member(status, member, Status::Absent)
}

// What stands at a member's number, replaced. That the number is 1 to 64 is a clause, and no type: a call's number may be any, and refusal 11 answers it, so
// that a type made of it would test it once more.
fn put<T: Copy>(items: &mut [T; 64], member: u64, item: T)
    requires { (0 < member) × (member ≤ member_limit) }
    ensures { items.new ≡ replace items.old member item }
{
    items[(member - 1) as usize] = item;
}

// The statuses once a member is in default: those that are live are the others.
pub fn defaulted(mut status: [Status; 64], member: u64) -> [Status; 64]
    requires { (0 < member) × (member ≤ member_limit) }
    ensures { result ≡ replace status member Status.InDefault }
{
    put(&mut status, member, Status::InDefault);
    status
}

// The figures with that of a member replaced.
pub fn replace(figures: &mut [u32; 64], member: u64, figure: u64)
    requires { (0 < member) × (member ≤ member_limit) × (figure ≤ amount_limit) }
    ensures { figures.new ≡ replace figures.old member figure }
{
    put(figures, member, figure as u32);
}

// The figures with an amount taken from that of a member.
pub fn lower(figures: &mut [u32; 64], member: u64, amount: u64)
    requires { (0 < member) × (member ≤ member_limit) × (amount ≤ figure figures.old member) }
    ensures { figures.new ≡ replace figures.old member (figure figures.old member - amount) }
{
    let left = figure_of(figures, member) - amount;
    put(figures, member, left as u32);
}

// The figures with the amounts taken from them, place by place. No one function for this and `add_to`: they differ in the operation and in what it asks,
// and `add_to` does nothing where there is nothing.
pub fn take_from(figures: &mut [u32; 64], amounts: &[u64; 64])
    requires { (k : ℕ) → get_or amounts.now k 0 ≤ get_or figures.old k 0 }
    ensures { figures.new ≡ minus figures.old amounts.now }
{
    *figures = array::from_fn(|i| (u64::from(figures[i]) - amounts[i]) as u32);
}

// The figures with the amounts, `whole` together, added to them, place by place. Where there is nothing to add, nothing is done.
pub fn add_to(figures: &mut [u32; 64], amounts: &[u64; 64], whole: u64)
    requires total_is { whole ≡ total amounts.now }
    requires fits { (k : ℕ) → get_or figures.old k 0 + get_or amounts.now k 0 ≤ amount_limit }
    ensures { figures.new ≡ plus figures.old amounts.now }
{
    if whole == 0 {
        return;
    }
    *figures = array::from_fn(|i| figures[i] + amounts[i] as u32);
}

// The amounts, added up.
#[tactic(auto, using(crate::proofs::Figures::total_sum))]
pub fn total(amounts: &[u64]) -> u64
    requires { total amounts.now < 2 ^ 64 }
    ensures { result ≡ total amounts.now }
{
    amounts.iter().sum()
}

// Amounts in the size of sums. By index: see `pools::portions_of`.
pub fn widened(amounts: &[u32; 64]) -> [u64; 64]
    ensures { result ≡ amounts.now }
{
    array::from_fn(|i| u64::from(amounts[i]))
}

// The figures put into a lent buffer from `start` on.
pub fn write(lent: &mut [u64], start: usize, figures: &[u64; 64])
    requires { start + member_limit ≤ length lent.old }
    ensures { lent.new ≡ take start lent.old ++ figures.now ++ drop (start + member_limit) lent.old }
{
    lent[start..start + MEMBER_LIMIT].copy_from_slice(figures);
}

// The statuses of a register of which nobody is in default: who is present is live.
pub fn statuses(present: [bool; 64]) -> [Status; 64]
    ensures { result ≡ map status_of present }
{
    present.map(Status::from)
}

// What a list has of each live member; of everyone else, `nothing`. The list is a slice, for the ranks of one pool are read as they are lent, and no array
// is made of them.
pub fn of_live<T: Copy>(status: &[Status; 64], values: &[T], nothing: T) -> [T; 64]
    requires { length values.now ≡ member_limit }
    ensures { result ≡ of_live nothing status.now values.now }
{
    array::from_fn(|i| status[i].if_live(values[i], nothing))
}
