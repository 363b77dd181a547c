// The split that divides for each weight above zero, as it was before document 02's request 4, "Spare the division": kept for the benchmark alone. It has
// the contract of `split::split`.
ghost use Rattle.std.specs.Prelude.{◌≡◌, ◌*◌, ◌≤◌};
ghost use Rattle.split.specs.Split.{share_of, split_of};
ghost use Rattle.split.specs.Parts.{Splits, product_limit};

#[tactic(auto, unfolding(split::specs::Split::share_of))]
fn share(left: u64, weight: u64, rest: u64) -> u64
    requires { (weight * left ≤ product_limit) × (weight ≤ rest) }
    ensures { result ≡ share_of left weight rest }
{
    if weight == 0 {
        return 0;
    }
    weight * left / rest
}

pub fn split(sum: u64, whole: u64, weights: &[u64], shares: &mut [u64])
    requires { Splits sum whole weights.now shares.old }
    ensures { shares.new ≡ split_of sum weights.now }
{
    let mut left = sum;
    let mut rest = whole;
    for (i, &weight) in weights.iter().enumerate() {
        let part = share(left, weight, rest);
        shares[i] = part;
        left -= part;
        rest -= weight;
    }
}
