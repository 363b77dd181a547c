// Refusals 11 to 18 of the drill calls, and 21 and 22 of document 02, request 3, each its test, on the figures that they read: document 01, "When
// the console says no".
#![tactic(auto)]

ghost use Rattle.std.specs.Prelude.{◌≡◌, false, ◌||◌, ◌&&◌, ◌+◌, ◌*◌, ◌/◌, ◌≤◌, ◌<◌, eqb, ltb, length, None};
ghost use Rattle.lists.specs.Checks.{check};
ghost use Rattle.lists.specs.Limits.{member_limit, rank_limit, pool_limit, sum_limit};
ghost use Rattle.lists.specs.Sums.{total};
ghost use Rattle.refusal.specs.Refusal.{answered};
ghost use Rattle.figures.specs.Figures.{is_live, live_in};
ghost use Rattle.admission.specs.Admission.{standing, misranked, losses_of, miscounted, excessive_losses, pools_unready, pools_misranked};
ghost use Rattle.admission.specs.Admission.{losses_admission, pools_admission, unfit, amount_admission, owing};

use figures::{Status, defaulted, status_at, total};
use lists::{MEMBER_LIMIT, POOL_LIMIT, RANK_LIMIT, SUM_LIMIT};
use refusal::Refusal;

/// What a default names: how many pools, and the loss of each. Of the four losses as many are read as it counts.
// A count above 4 must be told, by 21, and there is no heap: so a count stands beside the four losses, and what reads them asks that it is 4 at most.
// `get(..count)` would answer an Option, and what tries 13, 22 and 14 would ask of its losses what is now asked of the count.
#[derive(Clone, Copy, Debug, PartialEq, Eq)]
pub struct Pools {
    pub count: usize,
    pub losses: [u64; 4],
}

impl Pools {
    /// The losses of the pools that are named.
    #[tactic(auto, using(crate::proofs::EachPool::counted))]
    pub fn losses(&self) -> &[u64]
        requires { self.now.count ≤ pool_limit }
        ensures value { result.now ≡ losses_of self.now }
        ensures len { length result.now ≡ self.now.count }
    {
        &self.losses[..self.count]
    }

    /// The losses together: none is above its limit, so that their sum has 64 bits.
    #[tactic(auto, using(crate::proofs::EachPool::total_fits))]
    pub fn together(&self) -> u64
        requires few { self.now.count ≤ pool_limit }
        requires each_fits { excessive_losses (losses_of self.now) ≡ false }
        ensures { result ≡ total (losses_of self.now) }
    {
        total(self.losses())
    }
}

// 11 and 12
#[tactic(auto, unfolding(lists::specs::Checks::check))]
pub fn standing(status: &[Status; 64], member: u64) -> Result<(), Refusal>
    ensures { result ≡ answered (standing status.now member None) tt }
{
    match status_at(status, member) {
        Status::Absent => Err(Refusal::Unregistered),
        Status::InDefault => Err(Refusal::InDefault),
        Status::Live => Ok(()),
    }
}

// 21
fn miscounted(count: usize) -> bool
    ensures { result ≡ miscounted count }
{
    (count < 1) | (POOL_LIMIT < count)
}

// 13, tried on each pool.
fn excessive(losses: &[u64]) -> bool
    ensures { result ≡ excessive_losses losses.now }
{
    losses.iter().any(|loss| SUM_LIMIT < *loss)
}

// 13 and 22
#[tactic(auto, using(crate::proofs::EachPool::total_fits), unfolding(lists::specs::Checks::check))]
fn losses_admission(losses: &[u64]) -> Result<(), Refusal>
    requires { length losses.now ≤ pool_limit }
    ensures { result ≡ answered (losses_admission losses.now None) tt }
{
    if excessive(losses) {
        return Err(Refusal::ExcessiveLoss);
    }
    if SUM_LIMIT < total(losses) {
        return Err(Refusal::ExcessiveLosses);
    }
    Ok(())
}

// 14
fn unready(pools: usize, ranks: usize, slip: usize) -> bool
    requires { pools ≤ pool_limit }
    ensures { result ≡ pools_unready pools ranks slip }
{
    (ranks != MEMBER_LIMIT * pools) | (slip < MEMBER_LIMIT + MEMBER_LIMIT)
}

fn unranked(status: Status, rank: u8) -> bool
    ensures { result ≡ (is_live status && (ltb rank 1 || ltb rank_limit rank)) }
{
    (status == Status::Live) & ((rank < 1) | (RANK_LIMIT < rank))
}

// 15 in one pool: only the ranks of the live members are read.
pub fn misranked(status: &[Status; 64], ranks: &[u8; 64]) -> bool
    ensures { result ≡ misranked (live_in status.now) ranks.now }
{
    // To the end, and no `any`: so many ranks are tested at once.
    let mut found = false;
    for (&status, &rank) in status.iter().zip(ranks) {
        found |= unranked(status, rank);
    }
    found
}

// 15, tried on each pool, which has 64 of the ranks.
fn pools_misranked(status: &[Status; 64], ranks: &[u8]) -> bool
    ensures { result ≡ pools_misranked (live_in status.now) ranks.now (length ranks.now / member_limit) }
{
    let (pools, _) = ranks.as_chunks::<64>();
    pools.iter().any(|pool| misranked(status, pool))
}

// 11, 12, 21, 13, 22, 14 and 15 of a default: the first that holds. Member, pools, ranks and slip are no struct: ranks and slip are slices that are lent
// beside a call (document 01, "Form by location").
#[tactic(auto, using(crate::proofs::EachPool::pools_counted), unfolding(lists::specs::Checks::check))]
pub fn default_admission(
    status: [Status; 64],
    member: u64,
    pools: Pools,
    ranks: &[u8],
    slip: usize,
) -> Result<(), Refusal>
    ensures { result ≡ answered (pools_admission status member pools ranks.now slip) tt }
{
    standing(&status, member)?;
    if miscounted(pools.count) {
        return Err(Refusal::Miscounted);
    }
    losses_admission(pools.losses())?;
    if unready(pools.count, ranks.len(), slip) {
        return Err(Refusal::Unready);
    }
    if pools_misranked(&defaulted(status, member), ranks) {
        return Err(Refusal::Misranked);
    }
    Ok(())
}

fn unfit(amount: u64, most: u64) -> bool
    ensures { result ≡ unfit amount most }
{
    (amount == 0) | (most < amount)
}

// 11, 12, and the refusal of an unfit amount, 16 or 17: the first that holds. The amount, its most and its refusal are no struct: each call has its own,
// and it would be taken apart at once.
#[tactic(auto, unfolding(lists::specs::Checks::check))]
pub fn amount_admission(
    status: &[Status; 64],
    member: u64,
    amount: u64,
    most: u64,
    refusal: Refusal,
) -> Result<(), Refusal>
    ensures { result ≡ answered (amount_admission status.now member amount most refusal None) tt }
{
    standing(status, member)?;
    if unfit(amount, most) {
        return Err(refusal);
    }
    Ok(())
}

// 18
pub fn owing(outstanding: &[u32; 64]) -> bool
    ensures { result ≡ owing outstanding.now }
{
    outstanding.iter().any(|due| 0 < *due)
}
