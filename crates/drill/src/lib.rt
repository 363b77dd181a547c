// The calls of a drill: document 01, "Declaring a default" and "What statement 3 counts".
#![tactic(auto)]

pub mod in_place;

ghost use Rattle.std.specs.Prelude.{◌≡◌};
ghost use Rattle.waterfall.specs.Reply.{Says};
ghost use Rattle.drill.specs.Drill.{applied_of, slip_left, refusal_of, allocated_by};

use admission::Pools;
use waterfall::{Outcome, Register};

/// "A drill call is one of four, each with its own figures." Of a default these are its member and its pools' count and losses; the ranks, 64 bytes a pool
/// in one slice, and the slip stand beside it.
#[derive(Clone, Copy, Debug, PartialEq, Eq)]
pub enum DrillCall {
    Default { member: u64, pools: Pools },
    Payment { member: u64, amount: u64 },
    Replenishment { member: u64, amount: u64 },
    Close,
}

/// One call on a register. Ranks and slip are a default's; the other calls neither read nor write them.
pub fn apply(register: Register, call: DrillCall, ranks: &[u8], slip: &mut [u64]) -> Outcome
    ensures value { result ≡ applied_of register call ranks.now slip.old }
    ensures slip_after { slip.new ≡ slip_left register call ranks.now slip.old }
    ensures says { Says result.reply (refusal_of register call ranks.now slip.old) (allocated_by register call ranks.now) }
{
    match call {
        DrillCall::Default { member, pools } => register.declare(member, pools, ranks, slip),
        DrillCall::Payment { member, amount } => register.pay(member, amount),
        DrillCall::Replenishment { member, amount } => register.replenish(member, amount),
        DrillCall::Close => register.close(),
    }
}
