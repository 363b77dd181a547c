// The figures of the fund, from C + W, P, V and b1.
ghost use Rattle.std.specs.Prelude.{◌≡◌, ◌-◌, ◌≤◌, min, max};
ghost use Rattle.lists.specs.Limits.{sum_limit, exposure_limit};
ghost use Rattle.sizing.specs.Fund.{percent_up, target_of, minimum_of};

// A percentage of an amount, rounded up.
fn percent_up(percent: u64, x: u64) -> u64
    requires { (percent ≤ 125) × (x ≤ exposure_limit) }
    ensures { result ≡ percent_up percent x }
{
    (percent * x).div_ceil(100)
}

pub fn target(exposure: u64) -> u64
    requires { exposure ≤ exposure_limit }
    ensures { result ≡ target_of exposure }
{
    percent_up(125, exposure)
}

pub fn minimum(exposure: u64, prevailing: u64) -> u64
    requires { (exposure ≤ exposure_limit) × (prevailing ≤ sum_limit) }
    ensures { result ≡ minimum_of exposure prevailing }
{
    exposure.max(percent_up(85, prevailing))
}

// Our own contribution, from the minimum.
pub fn own(minimum: u64, available: u64, highest: u64) -> u64
    requires { minimum ≤ exposure_limit }
    ensures { result ≡ min available (max (percent_up 25 minimum) highest) }
{
    available.min(percent_up(25, minimum).max(highest))
}

// The quantum, from the minimum, the target and our own contribution.
pub fn quantum(minimum: u64, target: u64, own: u64) -> u64
    ensures { result ≡ max minimum (target - own) }
{
    minimum.max(target.saturating_sub(own))
}
