// Layer 4 by pools: document 02, request 3, "Several auction pools in one default". It knows nothing of registers.
// `status` is that of the members once the defaulter is in default, so that the live ones are the others.
#![tactic(auto)]

ghost use Rattle.std.specs.Prelude.{◌≡◌, ◌≤◌, ◌<◌, length};
ghost use Rattle.lists.specs.Limits.{amount_limit, allocation_limit};
ghost use Rattle.lists.specs.Sums.{AtMost, total, keep};
ghost use Rattle.split.specs.Split.{share_of};
ghost use Rattle.ranks.specs.Ranks.{charges_of};
ghost use Rattle.figures.specs.Figures.{live_in};
ghost use Rattle.rooms.specs.Rooms.{rooms};
ghost use Rattle.pools.specs.Pools.{losses_after, joined_pool, sums_of, charges_by_pools};
ghost use Rattle.pools.specs.Parts.{Charges, Chargeable, Poolable, Divided, Divisible, PoolCharged, Tiable, Tied, shares};

use figures::{Status, add_to, of_live, take_from, total, widened};
use ranks::charge_by_rank;
use rooms::share_rooms;
use split::share;
use std::array;

// What is left of the contributions and of the pools' sums once some pools have their portions, what these charge, and its total.
// Lists by member: each is taken from, added to and shared over as a whole.
#[derive(Drop)]
struct Division {
    left: [u32; 64],
    rest: u64,
    charges: [u32; 64],
    total: u64,
}

// What is left of the losses, where layers 1 to 3 have `given` left for them.
fn meet(mut given: u64, losses: &mut [u64])
    ensures { losses.new ≡ losses_after given losses.old }
{
    for loss in losses.iter_mut() {
        let met = given.min(*loss);
        *loss -= met;
        given -= met;
    }
}

// "the first pool with loss left, or pool 1 if none has"
fn joined_pool(lefts: &[u64]) -> usize
    ensures { result ≡ joined_pool lefts.now }
{
    lefts.iter().position(|left| 0 < *left).unwrap_or(0)
}

// What each pool has to place, where layers 1 to 3 give `given`: the losses become the sums.
pub fn sums_of(given: u64, fallen: u64, losses: &mut [u64])
    requires some { 0 < length losses.old }
    requires moderate { total (sums_of given fallen losses.old) ≤ allocation_limit }
    ensures { losses.new ≡ sums_of given fallen losses.old }
{
    let met = given.min(fallen);
    meet(given - met, losses);
    let p = joined_pool(losses);
    losses[p] += fallen - met;
}

// One pool: a sum charged to the live members by its ranks, over their contributions or their portions of them. The answer is the total of the charges.
// These are no one struct with the status, which `Division::charge` pairs with its own portions.
fn charge_others(
    status: &[Status; 64],
    contribution: &[u32; 64],
    sum: u64,
    ranks: &[u8],
    charges: &mut [u64; 64],
) -> u64
    requires moderate { sum ≤ allocation_limit }
    requires chargeable { Chargeable status.now contribution.now ranks.now }
    ensures { Charges (charges_of sum (keep (live_in status.now) contribution.now) ranks.now) charges.new result }
{
    // "Only ranks of live members other than the defaulter are read": the others' count as 0, which is no rank. (Bytes, and no
    // options, as in `ranks::Ranked`.)
    let read = of_live(status, ranks, 0);
    charge_by_rank(sum, contribution, &read, charges)
}

// A pool's turn of the split of one contribution. Where nothing is left of it, or just as much as the sums of this pool and those to come, nothing
// is divided.
fn portion(left: u32, sum: u64, rest: u64) -> u32
    requires { (left ≤ amount_limit) × (0 < sum) × (sum < rest) × (rest ≤ allocation_limit) }
    ensures { result ≡ share_of left sum rest }
{
    if left == 0 {
        return 0;
    }
    let left = u64::from(left);
    if left == rest {
        return sum as u32;
    }
    share(left, sum, rest) as u32
}

// A pool's portions of what is left of the contributions. The last pool with a sum has all of it, without a division.
fn portions_of(left: [u32; 64], sum: u64, rest: u64) -> [u32; 64]
    requires { AtMost left amount_limit × (0 < sum) × (sum ≤ rest) × (rest ≤ allocation_limit) }
    ensures { result ≡ shares sum rest left }
{
    if sum == rest {
        return left;
    }
    // By index here and in `figures::widened`: by `map`, which proved, a default of four pools took 27,617 instructions, where it took 18,256.
    array::from_fn(|i| portion(left[i], sum, rest))
}

impl Division {
    // The next pool is charged. One without a sum takes no portion, and charges nobody.
    fn charge(&mut self, sum: u64, status: &[Status; 64], ranks: &[u8])
        requires { Divisible sum status.now ranks.now self.old }
        ensures { PoolCharged sum (live_in status.now) ranks.now self.old self.new }
    {
        if sum == 0 {
            return;
        }
        let portions = portions_of(self.left, sum, self.rest);
        let mut charges = [0; 64];
        let charged = charge_others(status, &portions, sum, ranks, &mut charges);
        take_from(&mut self.left, &widened(&portions));
        add_to(&mut self.charges, &charges, charged);
        self.rest -= sum;
        self.total += charged;
    }

    // "What the pools cannot meet falls in one sum, after the last pool, on all contributions still standing as one tie." The answer is the total of all
    // charges, the pools' and the tie's.
    fn tie(
        mut self,
        whole: u64,
        status: &[Status; 64],
        contribution: &[u32; 64],
        charges: &mut [u64; 64],
    ) -> u64
        requires { Tiable whole contribution.now self }
        ensures { Tied (rooms (live_in status.now) contribution.now self.charges) whole self charges.new result }
    {
        let tie = share_rooms(status, contribution, &self.charges, whole - self.total);
        add_to(&mut self.charges, &tie.shares, tie.total);
        *charges = widened(&self.charges);
        self.total + tie.total
    }
}

// Every pool is charged, in order.
fn charge_pools(
    sums: &[u64],
    whole: u64,
    status: &[Status; 64],
    contribution: [u32; 64],
    ranks: &[u8],
) -> Division
    requires whole_is { whole ≡ total sums.now }
    requires poolable { Poolable sums.now status.now contribution ranks.now }
    ensures { Divided (length sums.now) sums.now status.now contribution ranks.now result }
{
    let mut division = Division {
        left: contribution,
        rest: whole,
        charges: [0; 64],
        total: 0,
    };
    let (of_pools, _) = ranks.as_chunks::<64>();
    for (&sum, own) in sums.iter().zip(of_pools) {
        division.charge(sum, status, own);
    }
    division
}

// Layer 4: the sums of the pools charged to the live members. With one pool the portions are the contributions themselves, and nothing is left for a
// tie. The charges are lent, and written whole; the answer is their total, as in `charge_by_rank`.
pub fn charge_by_pools(
    sums: &[u64],
    status: &[Status; 64],
    contribution: &[u32; 64],
    ranks: &[u8],
    charges: &mut [u64; 64],
) -> u64
    requires { Poolable sums.now status.now contribution.now ranks.now }
    ensures { Charges (charges_by_pools sums.now (keep (live_in status.now) contribution.now) ranks.now) charges.new result }
{
    let whole = total(sums);
    if sums.len() == 1 {
        return charge_others(status, contribution, whole, ranks, charges);
    }
    // "Each other live member's contribution is divided": nobody else's is, and it counts as 0.
    let standing = of_live(status, contribution, 0);
    let division = charge_pools(sums, whole, status, standing, ranks);
    division.tie(whole, status, &standing, charges)
}
