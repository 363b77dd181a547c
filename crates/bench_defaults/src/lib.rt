// Repeated defaults of member 17 of one register of 64 members. Each case answers a checksum of its answers, which tests/bench_checksums.test
// holds to the implementation in Rust; without a turn it is 0.
#![tactic(auto)]

pub mod fold;
pub mod range;

ghost use Rattle.std.specs.Prelude.{◌≡◌, ◌∷◌, []};

use crate::fold::fold;
use admission::Pools;
use lists::RANKS;
use rows::Record;
use waterfall::opening::open;
use waterfall::{Allocation, Outcome, Register, Reply};

const OWN: u64 = 1_000_003;

const DEFAULTER: u64 = 17;

// 777,777 less than what layers 1 to 4 have.
const IN_LAYER_4: u64 = 64_411_573;

// What layers 1 to 5 have, and half of the caps.
const IN_LAYER_6: u64 = 82_012_632;

// The record of the member at a place, with odd amounts.
fn record(place: usize) -> [u8; 16] {
    let number = place % 64 + 1;
    let odd = 37 * number as u32;
    Record::Member {
        member: number as u8,
        amounts: [50_000 + odd, 1_000_000 + 7 * odd, 500_000 + 11 * odd],
    }
    .bytes()
}

fn records() -> [[u8; 16]; 64] {
    std::array::from_fn(record)
}

fn fold_allocation(sum: u64, a: Allocation) -> u64 {
    let numbers = [
        a.margin,
        a.contribution,
        a.tranche1,
        a.members,
        a.tranche2,
        a.calls,
        a.fallen,
        a.short,
    ];
    numbers.iter().fold(sum, |sum, number| fold(sum, *number))
}

fn fold_reply(sum: u64, reply: Reply) -> u64 {
    match reply {
        Ok(Some(allocation)) => fold_allocation(sum, allocation),
        Ok(None) | Err(_) => 0,
    }
}

// One member's charge and call stand for the slip, another's each turn.
fn fold_slip(sum: u64, slip: &[u64; 128], turn: u64) -> u64 {
    let place = (turn % 64) as usize;
    fold(fold(sum, slip[place]), slip[place + 64])
}

// The first pool's loss rises a little with the turn, so that no turn is like the one before. Register, pools and ranks one by one, as `declare` takes them.
fn once(
    register: Register,
    pools: Pools,
    turn: u64,
    ranks: &[u8],
    slip: &mut [u64; 128],
) -> Outcome {
    let mut risen = pools;
    risen.losses[0] = pools.losses[0].saturating_add(turn % 8);
    register.declare(DEFAULTER, risen, ranks, slip)
}

// A loop of its own here, in `range`, `bench_splits`, pages and sizings, and no function over a closure for the five: a closure clears room for its answer
// each turn (119 of a default's 3,575 instructions).
fn repeat(register: Register, pools: Pools, ranks: &[u8], turns: u64) -> u64
    ensures { (turns ≡ 0) → (result ≡ 0) }
{
    let mut slip = [0; 128];
    let mut sum = 0;
    for turn in 0..turns {
        let outcome = once(register, pools, turn, ranks, &mut slip);
        sum = fold_slip(fold_reply(sum, outcome.reply), &slip, turn);
    }
    sum
}

// A default that is refused is worth no repetition.
fn accepted(register: Register, pools: Pools, ranks: &[u8]) -> bool {
    once(register, pools, 0, ranks, &mut [0; 128]).reply.is_ok()
}

/// A case that is measured.
#[derive(Clone, Copy)]
pub enum Case {
    /// One pool, which layer 4 meets, with the members over all ranks.
    Ranked,
    /// The same with all members at one rank.
    Tied,
    /// One pool that leaves a part for layer 6.
    Calls,
    /// The loss of `Ranked` in four pools.
    Pools,
}

fn one_pool(loss: u64) -> Pools
    ensures { result ≡ record { count = 1; losses = loss ∷ 0 ∷ 0 ∷ 0 ∷ [] } }
{
    Pools {
        count: 1,
        losses: [loss, 0, 0, 0],
    }
}

// A half, a quarter and an eighth of the loss, rounded down, and the rest.
fn four_pools(loss: u64) -> Pools {
    let half = loss / 2;
    let quarter = loss / 4;
    let eighth = loss / 8;
    Pools {
        count: 4,
        losses: [half, quarter, eighth, loss - half - quarter - eighth],
    }
}

// The rank that a number falls on, counted round and round.
fn rank(number: usize) -> u8 {
    (number % RANKS) as u8 + 1
}

// The members over all the ranks, two or three of each.
fn all_ranks() -> [u8; 64] {
    std::array::from_fn(|place| rank(29 * place))
}

// In each of four pools by the member's number times the pool's.
fn ranks_of_four() -> [u8; 256] {
    std::array::from_fn(|place| rank((place / 64 + 1) * (place % 64 + 1)))
}

// 0, and no Option, where the default is refused: the clause of `measured` has that number for no turn, and the test of checksums tells it.
fn run(pools: Pools, ranks: &[u8], turns: u64) -> u64
    ensures { (turns ≡ 0) → (result ≡ 0) }
{
    let register = open(records().as_flattened(), OWN).register;
    if accepted(register, pools, ranks) {
        return repeat(register, pools, ranks, turns);
    }
    0
}

/// The checksum of a case repeated.
pub fn measured(case: Case, turns: u64) -> u64
    ensures { (turns ≡ 0) → (result ≡ 0) }
{
    match case {
        Case::Ranked => run(one_pool(IN_LAYER_4), &all_ranks(), turns),
        Case::Tied => run(one_pool(IN_LAYER_4), &[9; 64], turns),
        Case::Calls => run(one_pool(IN_LAYER_6), &all_ranks(), turns),
        Case::Pools => run(four_pools(IN_LAYER_4), &ranks_of_four(), turns),
    }
}
