// A sum charged to members by rank, from the highest rank down: document 01, layer 4. It knows nothing of registers.
//
// At most one rank, the marginal one, is charged in part. So the totals by rank find it, one split shares what it gives, and no rank that is
// charged whole or not at all costs a division.
#![tactic(auto)]

ghost use Rattle.std.specs.Prelude.{◌≡◌, ℕ, Bool, ◌≤◌, ◌-◌, length, MatchOption};
ghost use Rattle.lists.specs.Limits.{member_limit, rank_limit, allocation_limit};
ghost use Rattle.lists.specs.Sums.{total, plus, AtMost};
ghost use Rattle.split.specs.Split.{split_of};
ghost use Rattle.ranks.specs.Ranks.{at_rank, charges_of};
ghost use Rattle.ranks.specs.Parts.{Weighed, Totals, Passed, Next, Marginal, Shared, Answers, chosen_by, above_rank};

use lists::{RANK_LIMIT, RANKS};

// A place for each rank. Place 0 takes what has no rank, so that no loop tests for it.
const PLACES: usize = RANKS + 1;

// Each member's weight and rank. Rank 0 is none, and nobody of it is charged: the ranks are bytes as they were lent, and no list of options is made.
#[derive(Drop)]
struct Ranked<'a> {
    weights: &'a [u32; 64],
    ranks: &'a [u8; 64],
    ghost weighed: { Weighed weights.now ranks.now },
    ghost long: { length weights.now ≡ member_limit },
    ghost as_many: { length ranks.now ≡ member_limit },
}

// The ranks above the marginal one are charged whole, it gives `part` of the `whole` that it has, and those below it give nothing: `total`
// together. Where every rank is charged whole, all are above rank 0, which has nobody and gives nothing: an Option would be one more case of each
// charge.
#[derive(Clone, Copy)]
struct Margin {
    rank: u8,
    part: u64,
    whole: u64,
    total: u64,
}

// The highest rank, `from` at most, whose total is above 0. Document 01's "Form by location" asks for this loop that yields it by break.
fn next_rank(totals: &[u64; PLACES], from: u8) -> Option<u8>
    requires { from ≤ rank_limit }
    ensures { MatchOption result (Passed totals.now 0 from) (Next totals.now from) }
{
    let mut rank = from;
    loop {
        if rank == 0 {
            break None;
        }
        if totals[usize::from(rank)] > 0 {
            break Some(rank);
        }
        rank -= 1;
    }
}

impl Ranked<'_> {
    // The weights added up by rank. What has no rank, 0, adds to place 0, which nobody reads.
    fn totals(&self) -> [u64; PLACES]
        ensures { Totals result self.now.weights.now self.now.ranks.now }
    {
        // Both are copied first: the checker follows no slice that is lent through a field which is a reference.
        let weights = self.weights;
        let ranks = self.ranks;
        let mut totals = [0u64; PLACES];
        for (&weight, &rank) in weights.iter().zip(ranks) {
            totals[usize::from(rank)] += u64::from(weight);
        }
        totals
    }

    // Ranks are charged whole from the highest down, while enough is left. The first with more than is left is the marginal one.
    fn margin(&self, sum: u64) -> Margin
        ensures { Marginal sum self.now.weights.now self.now.ranks.now result }
    {
        let totals = self.totals();
        let mut left = sum;
        let mut from = RANK_LIMIT;
        while let Some(rank) = next_rank(&totals, from) {
            let whole = totals[usize::from(rank)];
            if left < whole {
                return Margin {
                    rank,
                    part: left,
                    whole,
                    total: sum,
                };
            }
            left -= whole;
            from = rank - 1;
        }
        Margin {
            rank: 0,
            part: 0,
            whole: 0,
            total: sum - left,
        }
    }

    // The weights of the ranks that are chosen, added to the charges.
    fn add_chosen<F: Fn(u8) -> bool>(&self, chosen: F, charges: &mut [u64; 64])
        requires callable { F.IsAlwaysCallable chosen }
        requires charges_fit { AtMost charges.old allocation_limit }
        ensures { (test : ℕ → Bool) → Answers (F.post chosen) test
            → charges.new ≡ plus (chosen_by test self.now.weights.now self.now.ranks.now) charges.old }
    {
        let ranks = self.ranks;
        // By place: tried by a zip with `iter_mut`, which tells a proof as little here as in `split::share_each`.
        for (i, &rank) in ranks.iter().enumerate() {
            let weight = u64::from(self.weights[i]);
            charges[i] += if chosen(rank) { weight } else { 0 };
        }
    }

    // The weights of one rank, and 0 for the others.
    fn weights_at(&self, rank: u8) -> [u64; 64]
        ensures { result ≡ at_rank rank self.now.weights.now self.now.ranks.now }
    {
        let mut tied = [0u64; 64];
        self.add_chosen(|each| rank == each, &mut tied);
        tied
    }
}

impl Margin {
    // What the rank gives, shared over its members' weights: the charges are the shares. Where the rank gives nothing, nothing is split.
    #[tactic(auto, using(split::proofs::Laws::none_shared, crate::proofs::Parts::shares_asked, crate::proofs::Laws::length_at))]
    fn share(self, ranked: &Ranked, charges: &mut [u64; 64])
        requires { Shared self (at_rank self.rank ranked.now.weights.now ranked.now.ranks.now) }
        ensures { charges.new ≡ split_of self.part (at_rank self.rank ranked.now.weights.now ranked.now.ranks.now) }
    {
        if self.part == 0 {
            *charges = [0; 64];
            return;
        }
        let tied = ranked.weights_at(self.rank);
        split::split(self.part, self.whole, &tied, charges);
    }

    // The ranks above are charged whole: their weights are added to the charges. Where they have nothing, nothing is added.
    #[tactic(auto, using(lists::proofs::Sums::plus_none, crate::proofs::Parts::length_above))]
    fn charge_above(self, ranked: &Ranked, charges: &mut [u64; 64])
        requires above_is { self.total - self.part ≡ total (above_rank self.rank ranked.now.weights.now ranked.now.ranks.now) }
        requires charges_fit { AtMost charges.old allocation_limit }
        ensures { charges.new ≡ plus (above_rank self.rank ranked.now.weights.now ranked.now.ranks.now) charges.old }
    {
        if self.total == self.part {
            return;
        }
        ranked.add_chosen(|rank| rank > self.rank, charges);
    }
}

// `sum` charged to `weights` by rank, into charges that are lent, and written whole: with the charges handed back by value, which proved, a default
// took 4,219 instructions, where it took 3,844. The answer is their total, which needs no second addition: it is the sum, less what no rank could give.
#[tactic(auto, using(crate::proofs::Parts::charging))]
pub fn charge_by_rank(
    sum: u64,
    weights: &[u32; 64],
    ranks: &[u8; 64],
    charges: &mut [u64; 64],
) -> u64
    requires moderate { sum ≤ allocation_limit }
    requires weighed { Weighed weights.now ranks.now }
    ensures charges_after { charges.new ≡ charges_of sum weights.now ranks.now }
    ensures total_is { result ≡ total (charges_of sum weights.now ranks.now) }
{
    if sum == 0 {
        *charges = [0; 64];
        return 0;
    }
    let ranked = Ranked { weights, ranks };
    let margin = ranked.margin(sum);
    margin.share(&ranked, charges);
    margin.charge_above(&ranked, charges);
    margin.total
}
