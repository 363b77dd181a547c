// A sum shared over weights in rising order, each share rounded down: document 01, "The split". Where the shares are plain already nothing is
// divided: document 02, request 4, "Spare the division".
#![tactic(auto)]

ghost use Rattle.std.specs.Prelude.{◌≡◌, ◌≢◌, ◌*◌, ◌≤◌, ◌<◌};
ghost use Rattle.lists.specs.Sums.{total};
ghost use Rattle.split.specs.Split.{share_of, split_of};
ghost use Rattle.split.specs.Parts.{Splits, product_limit};

// One weight's share of what is left of the sum: a turn of the split, and its only division. Nobody asks for a share of nothing, for that of a weight of
// 0, or for that of the only weight left.
#[tactic(auto, unfolding(crate::specs::Split::share_of))]
pub fn share(left: u64, weight: u64, rest: u64) -> u64
    requires fits { weight * left ≤ product_limit }
    requires divisible { (0 < left) × (0 < weight) × (weight < rest) }
    ensures { result ≡ share_of left weight rest }
{
    weight * left / rest
}

// The shares of a sum that is neither nothing nor the whole, one by one, put among shares of 0: a weight of 0 is passed, and once one weight alone is left
// above zero it takes what is left. A turn tells that by one comparison, so that no pass looks for it. Before that weight something is always left.
fn share_each(sum: u64, whole: u64, weights: &[u64], shares: &mut [u64])
    requires asked { Splits sum whole weights.now shares.old }
    requires divisible { (0 < sum) × (0 < whole) × (sum ≢ whole) }
    requires cleared { total shares.old ≡ 0 }
    ensures { shares.new ≡ split_of sum weights.now }
{
    let mut left = sum;
    let mut rest = whole;
    // By place: tried by a zip with `iter_mut`, of which a proof knows the slice's length afterwards, and not its elements.
    for (i, &weight) in weights.iter().enumerate() {
        if weight == rest {
            shares[i] = left;
            return;
        }
        if weight > 0 {
            let part = share(left, weight, rest);
            shares[i] = part;
            left -= part;
        }
        rest -= weight;
    }
}

// `sum` shared over `weights`, whose total is `whole`: callers have it, so it is not added up again.
#[tactic(auto, using(crate::proofs::Laws::nothing_shared))]
pub fn split(sum: u64, whole: u64, weights: &[u64], shares: &mut [u64])
    requires { Splits sum whole weights.now shares.old }
    ensures { shares.new ≡ split_of sum weights.now }
{
    // A sum of all the weights gives each its weight.
    if sum == whole {
        shares.copy_from_slice(weights);
        return;
    }
    shares.fill(0);
    // Nothing to share, or nobody to share it among.
    if sum == 0 || whole == 0 {
        return;
    }
    share_each(sum, whole, weights, shares);
}
