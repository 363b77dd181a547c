// "A payment lowers the outstanding call; it does not reopen the cap."
ghost use Rattle.std.specs.Prelude.{◌≡◌};
ghost use Rattle.waterfall.specs.Calls.{payment_refusal, payment_of};
ghost use Rattle.waterfall.specs.Reply.{Says, nothing};

use crate::{Outcome, Register, Reply};
use admission::amount_admission;
use figures::{figure_of, replace};
use refusal::Refusal;

impl Register {
    // What was called since the last close stands. A replenishment is a function of its own: it differs in column, direction and test.
    fn lower_outstanding(&mut self, member: u64, amount: u64) -> Reply
        ensures answer { result ≡ (payment_of self.old member amount).reply }
        ensures register_after { self.new ≡ (payment_of self.old member amount).register }
    {
        let due = figure_of(&self.outstanding, member);
        amount_admission(&self.status, member, amount, due, Refusal::UnfitPayment)?;
        replace(&mut self.outstanding, member, due - amount);
        Ok(None)
    }

    pub fn pay(mut self, member: u64, amount: u64) -> Outcome
        ensures value { result ≡ payment_of self member amount }
        ensures says { Says result.reply (payment_refusal self member amount) nothing }
    {
        let reply = self.lower_outstanding(member, amount);
        Outcome {
            reply,
            register: self,
        }
    }
}
