// "A close starts the caps afresh."
ghost use Rattle.std.specs.Prelude.{◌≡◌};
ghost use Rattle.waterfall.specs.Calls.{close_refusal, close_of};
ghost use Rattle.waterfall.specs.Reply.{Says, nothing};

use crate::{Outcome, Register, Reply};
use admission::owing;
use refusal::Refusal;

impl Register {
    fn start_afresh(&mut self) -> Reply
        ensures answer { result ≡ (close_of self.old).reply }
        ensures register_after { self.new ≡ (close_of self.old).register }
    {
        if owing(&self.outstanding) {
            return Err(Refusal::CallOutstanding);
        }
        self.called = [0; 64];
        Ok(None)
    }

    pub fn close(mut self) -> Outcome
        ensures value { result ≡ close_of self }
        ensures says { Says result.reply (close_refusal self) nothing }
    {
        let reply = self.start_afresh();
        Outcome {
            reply,
            register: self,
        }
    }
}
