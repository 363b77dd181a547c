// Month-end fund sizing: document 01, "Stress sheet and sizing".
#![tactic(auto)]

mod fund;

ghost use Rattle.std.specs.Prelude.{◌≡◌, ◌≤◌, length, OnOk};
ghost use Rattle.lists.specs.Limits.{member_limit, sum_limit};
ghost use Rattle.sheets.specs.Columns.{columns_of};
ghost use Rattle.cover.specs.Cover.{covered_of};
ghost use Rattle.sizing.specs.Parts.{funded, judged};
ghost use Rattle.sizing.specs.Sizing.{fund_figures, sizing_refusal, sized_of, requirements_after, Says};
ghost use Rattle.sizing.specs.Review.{review_due};

use cover::Covered;
use lists::{MEMBER_LIMIT, STRESS_LIMIT, SUM_LIMIT};
use refusal::Refusal;
use requirements::SharesSheet;
use sheets::missized;

// What sizing answers: cover C, weak losses W, target A, minimum B, highest requirement b1, own contribution, quantum D.
#[derive(Clone, Copy, Debug, PartialEq, Eq)]
pub struct Sized {
    pub cover: u64,
    pub weak: u64,
    pub target: u64,
    pub minimum: u64,
    pub highest: u64,
    pub own: u64,
    pub quantum: u64,
}

// What sizing answers, and the requirements that it writes.
#[derive(Drop)]
struct Funded {
    sized: Sized,
    requirements: [u64; 64],
}

// Whether 100C is more than 80A.
#[tactic(auto, unfolding(crate::specs::Review::review_due))]
pub fn review_due(cover: u64, target: u64) -> bool
    ensures { result ≡ review_due cover target }
{
    80 * u128::from(target) < 100 * u128::from(cover)
}

// The figures from C, W and the shares sheet on, with 9 and 10 for the minimum and then for the quantum. Where they are the same, it is
// shared once.
#[tactic(auto, using(refusal::proofs::Laws::answered_cases), unfolding(crate::specs::Sizing::fund_refusal, crate::specs::Sizing::fund_figures, crate::specs::Sizing::quantum_for))]
fn fund_from(
    covered: Covered,
    shares: &SharesSheet,
    prevailing: u64,
    available: u64,
) -> Result<Funded, Refusal>
    requires { prevailing ≤ sum_limit }
    ensures { result ≡ funded covered shares.now prevailing available }
{
    let exposure = covered.cover + covered.weak;
    let minimum = fund::minimum(exposure, prevailing);
    let mut shared = shares.share(minimum)?;
    let highest = shared.highest;
    let target = fund::target(exposure);
    let own = fund::own(minimum, available, highest);
    let quantum = fund::quantum(minimum, target, own);
    if quantum != minimum {
        shared = shares.share(quantum)?;
    }
    // A local: the language does not take an array of one struct straight into the literal of another.
    let requirements = shared.requirements;
    Ok(Funded {
        sized: Sized {
            cover: covered.cover,
            weak: covered.weak,
            target,
            minimum,
            highest,
            own,
            quantum,
        },
        requirements,
    })
}

// 1 to 8 in the paper's order, then the figures. Of the lent numbers it reads only how many they are; the other parameters are those of `size`.
#[tactic(auto, using(refusal::proofs::Laws::answered_cases), unfolding(lists::specs::Checks::check, crate::specs::Sizing::sizing_refusal))]
fn judge(
    stress: &[u8],
    shares: &[u8],
    prevailing: u64,
    available: u64,
    places: usize,
) -> Result<Funded, Refusal>
    ensures answer { result ≡ judged stress.now shares.now prevailing available places }
    ensures room { OnOk result (member_limit ≤ places) }
{
    if missized(STRESS_LIMIT, stress) || missized(MEMBER_LIMIT, shares) {
        return Err(Refusal::Missized);
    }
    if SUM_LIMIT < prevailing || SUM_LIMIT < available {
        return Err(Refusal::ExcessiveSum);
    }
    if places < MEMBER_LIMIT {
        return Err(Refusal::ShortSlip);
    }
    let covered = cover::read(stress)?;
    let columns = sheets::columns::read(0, shares)?;
    fund_from(covered, &SharesSheet::new(columns), prevailing, available)
}

// Month-end fund sizing of any bytes and numbers. At a refusal the lent numbers stay as they are. Its five parameters are those of the paper's
// call: a struct of the sheets or of the sums would be filled by each host for this call alone.
#[tactic(auto, using(refusal::proofs::Laws::answered_cases), unfolding(lists::specs::Checks::check, crate::specs::Sizing::sized_of, crate::specs::Sizing::requirements_after))]
pub fn size(
    stress: &[u8],
    shares: &[u8],
    prevailing: u64,
    available: u64,
    requirements: &mut [u64],
) -> Result<Sized, Refusal>
    ensures answer { result ≡ sized_of stress.now shares.now prevailing available (length requirements.old) }
    ensures says { Says result (sizing_refusal stress.now shares.now prevailing available (length requirements.old))
        (fund_figures (covered_of stress.now) (columns_of shares.now) prevailing available) }
    ensures requirements { requirements.new ≡ requirements_after stress.now shares.now prevailing available requirements.old }
{
    let funded = judge(stress, shares, prevailing, available, requirements.len())?;
    figures::write(requirements, 0, &funded.requirements);
    Ok(funded.sized)
}
