// Repeated ranges of losses of member 17, on the register and with the ranks of `Case::Ranked`.
ghost use Rattle.std.specs.Prelude.{◌≡◌};

use crate::fold::fold;
use crate::{DEFAULTER, IN_LAYER_4, OWN, all_ranks, fold_allocation, records};
use ranges::{Losses, Ranges, range};
use refusal::Refusal;
use waterfall::Register;
use waterfall::opening::open;

// How far the ends are apart.
const APART: u64 = 1_000_000;

// Both ends rise a little with the turn, so that no turn is like the one before.
fn once(
    register: &Register,
    turn: u64,
    ranks: &[u8],
    slip: &mut [u64; 256],
) -> Result<Ranges, Refusal> {
    let risen = turn % 8;
    let losses = Losses {
        low: IN_LAYER_4 - APART + risen,
        high: IN_LAYER_4 + risen,
    };
    range(register, DEFAULTER, losses, ranks, slip)
}

// One member's numbers stand for the slip, another's each turn.
fn fold_range(sum: u64, ranges: Ranges, slip: &[u64; 256], turn: u64) -> u64 {
    let place = (turn % 64) as usize;
    let ends = fold_allocation(fold_allocation(sum, ranges.low), ranges.high);
    let numbers = [
        slip[place],
        slip[place + 64],
        slip[place + 128],
        slip[place + 192],
    ];
    numbers.iter().fold(ends, |sum, number| fold(sum, *number))
}

/// The checksum of a range repeated, 0 where it is refused.
pub fn measured(turns: u64) -> u64
    ensures { (turns ≡ 0) → (result ≡ 0) }
{
    let register = open(records().as_flattened(), OWN).register;
    let ranks = all_ranks();
    let mut slip = [0; 256];
    let mut sum = 0;
    for turn in 0..turns {
        match once(&register, turn, &ranks, &mut slip) {
            Ok(ranges) => sum = fold_range(sum, ranges, &slip, turn),
            Err(_) => return 0,
        }
    }
    sum
}
