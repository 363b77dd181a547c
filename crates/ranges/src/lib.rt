// A loss that is known only as a range: document 02, request 7.
#![tactic(auto)]

ghost use Rattle.std.specs.Prelude.{◌≡◌};
ghost use Rattle.refusal.specs.Refusal.{answered};
ghost use Rattle.waterfall.specs.Reply.{Says};
ghost use Rattle.ranges.specs.Ranges.{range_checks, range_refusal, with_loss, range_of, range_slip, lows, highs};
ghost use Rattle.ranges.specs.Parts.{Placeable, PlacedAt};

use admission::{Pools, misranked, standing};
use figures::{Status, defaulted};
use layers::{Allocation, Placed, allocate, tell};
use lists::{MEMBER_LIMIT, SUM_LIMIT};
use refusal::Refusal;
use waterfall::Register;

/// The lowest and the highest loss: two numbers with names, since nobody sees which of two bare ones is which.
#[derive(Clone, Copy, Debug, PartialEq, Eq)]
pub struct Losses {
    pub low: u64,
    pub high: u64,
}

/// The least and the most that each layer gives and that is short. The fallen call is the same in both.
#[derive(Clone, Copy, Debug, PartialEq, Eq)]
pub struct Ranges {
    pub low: Allocation,
    pub high: Allocation,
}

// "each half laid out as a default slip"
const HALF: usize = MEMBER_LIMIT + MEMBER_LIMIT;

const RANGE_SLIP: usize = HALF + HALF;

// 11, 12, 23, 13, 14 of the ranks, 24 and 15: the first that holds. The parameters are those of `range`, save that of the slip it reads only how many
// numbers are lent.
#[tactic(auto, unfolding(lists::specs::Checks::check, crate::specs::Ranges::range_checks))]
fn range_admission(
    status: &[Status; 64],
    member: u64,
    losses: Losses,
    ranks: &[u8],
    slip: usize,
) -> Result<(), Refusal>
    ensures { result ≡ answered (range_checks status.now member losses ranks.now slip) tt }
{
    standing(status, member)?;
    if losses.high < losses.low {
        return Err(Refusal::ReversedLosses);
    }
    if SUM_LIMIT < losses.high {
        return Err(Refusal::ExcessiveLoss);
    }
    let Some(ranks) = ranks.as_array::<64>() else {
        return Err(Refusal::Unready);
    };
    if slip < RANGE_SLIP {
        return Err(Refusal::ShortRangeSlip);
    }
    if misranked(&defaulted(*status, member), ranks) {
        return Err(Refusal::Misranked);
    }
    Ok(())
}

// A default with one pool, placed: the register stays as it is.
fn placed(register: &Register, member: u64, loss: u64, ranks: &[u8]) -> Placed
    requires { Placeable register.now member loss ranks.now }
    ensures { PlacedAt register.now member loss ranks.now result }
{
    register.given_back();
    let pools = Pools {
        count: 1,
        losses: [loss, 0, 0, 0],
    };
    allocate(register.figures(), member, pools, ranks)
}

/// What a default with one pool would draw on each layer, charge and call each member for, and leave short, at the lowest loss and at the highest. The
/// slip's first 128 numbers receive the members' lows, the next 128 their highs.
pub fn range(
    register: &Register,
    member: u64,
    losses: Losses,
    ranks: &[u8],
    slip: &mut [u64],
) -> Result<Ranges, Refusal>
    ensures value { result ≡ range_of register.now member losses ranks.now slip.old }
    ensures slip_after { slip.new ≡ range_slip register.now member losses ranks.now slip.old }
    ensures low_says { Says (lows result) (range_refusal register.now member losses ranks.now slip.old) (with_loss register.now member ranks.now losses.low) }
    ensures high_says { Says (highs result) (range_refusal register.now member losses ranks.now slip.old) (with_loss register.now member ranks.now losses.high) }
{
    let status = register.figures().status;
    range_admission(status, member, losses, ranks, slip.len())?;
    let low = placed(register, member, losses.low, ranks);
    let high = placed(register, member, losses.high, ranks);
    let (lows, highs) = slip.split_at_mut(HALF);
    tell(&low, lows);
    tell(&high, highs);
    Ok(Ranges {
        low: low.allocation,
        high: high.allocation,
    })
}
