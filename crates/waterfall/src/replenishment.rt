// "A replenishment raises the contribution, never above the requirement."
ghost use Rattle.std.specs.Prelude.{◌≡◌};
ghost use Rattle.waterfall.specs.Calls.{replenishment_refusal, replenishment_of};
ghost use Rattle.waterfall.specs.Reply.{Says, nothing};

use crate::{Outcome, Register, Reply};
use admission::amount_admission;
use figures::{figure_of, replace};
use refusal::Refusal;

impl Register {
    fn raise_contribution(&mut self, member: u64, amount: u64) -> Reply
        ensures answer { result ≡ (replenishment_of self.old member amount).reply }
        ensures register_after { self.new ≡ (replenishment_of self.old member amount).register }
    {
        let standing = figure_of(&self.contribution, member);
        let room = figure_of(&self.requirement, member) - standing;
        amount_admission(
            &self.status,
            member,
            amount,
            room,
            Refusal::UnfitReplenishment,
        )?;
        replace(&mut self.contribution, member, standing + amount);
        Ok(None)
    }

    pub fn replenish(mut self, member: u64, amount: u64) -> Outcome
        ensures value { result ≡ replenishment_of self member amount }
        ensures says { Says result.reply (replenishment_refusal self member amount) nothing }
    {
        let reply = self.raise_contribution(member, amount);
        Outcome {
            reply,
            register: self,
        }
    }
}
