// Repeated splits of a sum over 64 weights, by the engine's split and by the old one, which divides wherever a weight is above zero. Each case answers
// a checksum of its shares, which tests/bench_checksums.test holds to the implementation in Rust; without a turn it is 0.
#![tactic(auto)]

pub mod old;

ghost use Rattle.std.specs.Prelude.{◌≡◌, ◌<◌, ◌≤◌};
ghost use Rattle.lists.specs.Limits.{member_limit, amount_limit, sum_limit};
ghost use Rattle.lists.specs.Sums.{AtMost};

use bench_defaults::fold::fold;
use figures::total;

/// Whose split is repeated.
#[derive(Clone, Copy)]
pub enum Side {
    Engine,
    Old,
}

/// What is split.
#[derive(Clone, Copy)]
pub enum Case {
    /// 64 positive weights that add to the sum.
    Whole,
    /// One positive weight among 64, and less than it.
    Alone,
    /// 64 positive weights, and less than they add to.
    Ordinary,
}

// The place of the weight that is alone.
const ALONE: usize = 40;

// Amounts that all differ, and 0 beside the weight that is alone.
fn weight(case: Case, place: usize) -> u64
    requires { place < member_limit }
    ensures { result ≤ amount_limit }
{
    let amount = 1_000_000 + 37 * place as u64;
    match case {
        Case::Alone => if place == ALONE { amount } else { 0 },
        Case::Whole | Case::Ordinary => amount,
    }
}

fn weights(case: Case) -> [u64; 64]
    ensures { AtMost result amount_limit }
{
    let mut weights = [0; 64];
    // By index: of `array::from_fn` the bound would have to be proved call by call.
    for place in 0..64 {
        weights[place] = weight(case, place);
    }
    weights
}

// The whole, or else half of it and a little more from turn to turn, so that no turn is like the one before. (Those of the whole are alike: a sum that
// is all the weights can be no other.)
fn sum(case: Case, whole: u64, turn: u64) -> u64
    requires { whole ≤ sum_limit }
    ensures { result ≤ sum_limit }
{
    match case {
        Case::Whole => whole,
        Case::Alone | Case::Ordinary => whole / 2 + turn % 8,
    }
}

// The share of one place and of another one each turn.
fn fold_shares(checksum: u64, shares: &[u64; 64], turn: u64) -> u64 {
    let place = (turn % 64) as usize;
    fold(fold(checksum, shares[ALONE]), shares[place])
}

/// The checksum of a case repeated.
pub fn measured(side: Side, case: Case, turns: u64) -> u64
    ensures { (turns ≡ 0) → (result ≡ 0) }
{
    let weights = weights(case);
    let whole = total(&weights);
    let mut shares = [0; 64];
    let mut checksum = 0;
    for turn in 0..turns {
        let sum = sum(case, whole, turn);
        match side {
            Side::Engine => split::split(sum, whole, &weights, &mut shares),
            Side::Old => old::split(sum, whole, &weights, &mut shares),
        }
        checksum = fold_shares(checksum, &shares, turn);
    }
    checksum
}
