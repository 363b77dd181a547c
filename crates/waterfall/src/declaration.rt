// Document 01, "Declaring a default", and document 02, request 3: with its pools.
ghost use Rattle.std.specs.Prelude.{◌≡◌};
ghost use Rattle.waterfall.specs.Reply.{Says};
ghost use Rattle.waterfall.specs.Pools.{pooled_allocation, pooled_refusal, pooled_of, pooled_slip};
ghost use Rattle.waterfall.specs.Parts.{Settles, settled_as};

use crate::{Outcome, Register, Reply};
use admission::{Pools, default_admission};
use figures::{add_to, defaulted, lower, take_from};
use layers::{Placed, allocate, tell};

impl Register {
    // "Each charge leaves its pocket", and the defaulter is in default for good.
    fn settle(&mut self, member: u64, placed: &Placed)
        requires { Settles self.old member placed.now }
        ensures { self.new ≡ settled_as self.old member placed.now }
    {
        self.status = defaulted(self.status, member);
        let gives = &placed.allocation;
        lower(&mut self.margin, member, gives.margin);
        lower(&mut self.contribution, member, gives.contribution);
        lower(&mut self.outstanding, member, gives.fallen);
        self.tranche1 -= gives.tranche1;
        self.tranche2 -= gives.tranche2;
        take_from(&mut self.contribution, &placed.charges);
        add_to(&mut self.outstanding, &placed.called, gives.calls);
        add_to(&mut self.called, &placed.called, gives.calls);
    }

    // Nothing is changed until all six layers are placed: each is placed by the register as it was. Not inlined where the calls of a drill are applied: the
    // others would bear the room that a default needs.
    #[inline(never)]
    fn place(&mut self, member: u64, pools: Pools, ranks: &[u8], slip: &mut [u64]) -> Reply
        ensures answer { result ≡ (pooled_of self.old member pools ranks.now slip.old).reply }
        ensures register_after { self.new ≡ (pooled_of self.old member pools ranks.now slip.old).register }
        ensures slip_after { slip.new ≡ pooled_slip self.old member pools ranks.now slip.old }
    {
        default_admission(self.status, member, pools, ranks, slip.len())?;
        let placed = allocate(self.figures(), member, pools, ranks);
        self.settle(member, &placed);
        tell(&placed, slip);
        Ok(Some(placed.allocation))
    }

    // Ranks and slip are in no struct with member and pools: document 01 lends them beside the call.
    pub fn declare(mut self, member: u64, pools: Pools, ranks: &[u8], slip: &mut [u64]) -> Outcome
        ensures value { result ≡ pooled_of self member pools ranks.now slip.old }
        ensures slip_after { slip.new ≡ pooled_slip self member pools ranks.now slip.old }
        ensures says { Says result.reply (pooled_refusal self member pools ranks.now slip.old) (pooled_allocation self member pools ranks.now) }
    {
        let reply = self.place(member, pools, ranks, slip);
        Outcome {
            reply,
            register: self,
        }
    }
}
