// "The console keeps one register through the whole drill": document 01, "Form by location", asks for these wrappers, one for each call, which take the
// register by &mut and store what the call by value hands back.
ghost use Rattle.std.specs.Prelude.{◌≡◌};
ghost use Rattle.waterfall.specs.Pools.{pooled_allocation, pooled_refusal, pooled_of, pooled_slip};
ghost use Rattle.waterfall.specs.Calls.{payment_refusal, payment_of, replenishment_refusal, replenishment_of, close_refusal, close_of};
ghost use Rattle.waterfall.specs.Reply.{Says, nothing};

use admission::Pools;
use waterfall::{Outcome, Register, Reply};

fn store(register: &mut Register, outcome: Outcome) -> Reply
    ensures answer { result ≡ outcome.reply }
    ensures register_after { register.new ≡ outcome.register }
{
    *register = outcome.register;
    outcome.reply
}

pub fn declare(
    register: &mut Register,
    member: u64,
    pools: Pools,
    ranks: &[u8],
    slip: &mut [u64],
) -> Reply
    ensures answer { result ≡ (pooled_of register.old member pools ranks.now slip.old).reply }
    ensures register_after { register.new ≡ (pooled_of register.old member pools ranks.now slip.old).register }
    ensures slip_after { slip.new ≡ pooled_slip register.old member pools ranks.now slip.old }
    ensures says { Says result (pooled_refusal register.old member pools ranks.now slip.old) (pooled_allocation register.old member pools ranks.now) }
{
    let outcome = register.declare(member, pools, ranks, slip);
    store(register, outcome)
}

pub fn pay(register: &mut Register, member: u64, amount: u64) -> Reply
    ensures answer { result ≡ (payment_of register.old member amount).reply }
    ensures register_after { register.new ≡ (payment_of register.old member amount).register }
    ensures says { Says result (payment_refusal register.old member amount) nothing }
{
    let outcome = register.pay(member, amount);
    store(register, outcome)
}

pub fn replenish(register: &mut Register, member: u64, amount: u64) -> Reply
    ensures answer { result ≡ (replenishment_of register.old member amount).reply }
    ensures register_after { register.new ≡ (replenishment_of register.old member amount).register }
    ensures says { Says result (replenishment_refusal register.old member amount) nothing }
{
    let outcome = register.replenish(member, amount);
    store(register, outcome)
}

pub fn close(register: &mut Register) -> Reply
    ensures answer { result ≡ (close_of register.old).reply }
    ensures register_after { register.new ≡ (close_of register.old).register }
    ensures says { Says result (close_refusal register.old) nothing }
{
    let outcome = register.close();
    store(register, outcome)
}
