// A quantum shared over the columns of a shares sheet: document 01, "Stress sheet and sizing", refusals 9 and 10.
#![tactic(auto)]

ghost use Rattle.std.specs.Prelude.{◌≡◌, cond, ◌&&◌, ◌+◌, ◌^◌, ◌≤◌, ◌<◌, max, eqb, map};
ghost use Rattle.lists.specs.Highest.{highest as highest_of_all};
ghost use Rattle.lists.specs.Limits.{amount_limit, allocation_limit, quantum_limit, contribution_floor};
ghost use Rattle.lists.specs.Sums.{total, plus, keep, AtMost};
ghost use Rattle.refusal.specs.Refusal.{answered};
ghost use Rattle.sheets.specs.Bytes.{nonzero};
ghost use Rattle.split.specs.Split.{split_of};
ghost use Rattle.requirements.specs.Requirements.{requirements_of, shared_of, any_unshared, sharing_refusal};
ghost use Rattle.requirements.specs.Parts.{parts_of_quantum};

use lists::{AMOUNT_LIMIT, CONTRIBUTION_FLOOR};
use refusal::Refusal;
use sheets::columns::Columns;
use std::array;
use std::marker::Model;

// Something for each column of a shares sheet: what it adds to, the part of a quantum that goes by it, or that part shared out. Lists, as in `Columns`.
#[derive(Clone, Copy)]
struct ByColumn<T> {
    volume: T,
    margin: T,
    stress: T,
}

// The columns of a shares sheet, with what they add to.
#[derive(Clone, Copy)]
pub struct SharesSheet {
    columns: Columns,
    totals: ByColumn<u64>,
}

impl Model for SharesSheet {
    ghost use Rattle.sheets.specs.declared.columns.Columns.{Columns};
    ghost use Rattle.std.proofs.Common.{sym};
    ghost use Rattle.requirements.specs.Parts.{Totalled, totals_of};

    ghost Value = { Columns };

    ghost view = { λ s. s.columns };

    ghost inverse = { λ columns. record { columns = columns; totals = totals_of columns } };

    ghost invariant = { λ s. Totalled s.columns s.totals };

    ghost inverse_ok = { λ s added i. record {
      columns = s.columns;
      totals = record { volume = sym added.volumes_add i; margin = sym added.margins_add i; stress = sym added.stresses_add i };
    } };
}

// A quantum shared: the requirements by member number, and the highest of them.
#[derive(Drop)]
pub struct Shared {
    pub highest: u64,
    pub requirements: [u64; 64],
}

// A column in the size of sums, as `split` and `total` take it; what it adds to fits that size too, which is said once, here.
fn wide(column: &[u32; 64]) -> [u64; 64]
    ensures same { result ≡ column.now }
    ensures small { total result < 2 ^ 64 }
{
    figures::widened(column)
}

fn highest(numbers: &[u64; 64]) -> u64
    ensures { result ≡ highest_of_all numbers.now }
{
    numbers.iter().copied().max().unwrap_or(0)
}

// "Q/4 rounded down goes by initial margin, as much by stress loss, the remainder by volume"
fn parts_of(quantum: u64) -> ByColumn<u64>
    ensures { result ≡ parts_of_quantum quantum }
{
    let quarter = quantum / 4;
    ByColumn {
        volume: quantum - (quarter + quarter),
        margin: quarter,
        stress: quarter,
    }
}

fn unshared(part: u64, whole: u64) -> bool
    ensures { result ≡ (nonzero part && eqb whole 0) }
{
    0 < part && whole == 0
}

// A part of a quantum by its column. It is within the split's bound where the quantum itself may not be: at most half of that, and 2 more, goes by volume. Bounds are
// clauses, here and in the layers: each sum has its own, and a type made for one would be taken apart again by what splits, adds or lowers it.
fn part(sum: u64, whole: u64, weights: &[u32; 64]) -> [u64; 64]
    requires moderate { sum ≤ allocation_limit }
    requires whole_is { whole ≡ total weights.now }
    requires weights_fit { AtMost weights.now amount_limit }
    ensures shared { result ≡ split_of sum weights.now }
    ensures within { AtMost result sum }
{
    let mut shares = [0u64; 64];
    split::split(sum, whole, &wide(weights), &mut shares);
    shares
}

// "a requirement is the three parts added, at least 10,000"; 0 where the member is absent
fn requirement(present: bool, margin: u64, stress: u64, volume: u64) -> u64
    requires { (margin ≤ allocation_limit) × (stress ≤ allocation_limit) × (volume ≤ allocation_limit) }
    ensures { result ≡ cond present (max contribution_floor (margin + (stress + volume))) 0 }
{
    if !present {
        return 0;
    }
    CONTRIBUTION_FLOOR.max(margin + (stress + volume))
}

// The requirements by member number.
fn joined(present: &[bool; 64], shares: &ByColumn<[u64; 64]>) -> [u64; 64]
    requires volume_fits { AtMost shares.now.volume allocation_limit }
    requires margin_fits { AtMost shares.now.margin allocation_limit }
    requires stress_fits { AtMost shares.now.stress allocation_limit }
    ensures { result ≡ keep present.now (map (max contribution_floor) (plus shares.now.margin (plus shares.now.stress shares.now.volume))) }
{
    array::from_fn(|i| requirement(
        present[i],
        shares.margin[i],
        shares.stress[i],
        shares.volume[i],
    ))
}

impl SharesSheet {
    // The columns, each added up.
    pub fn new(columns: Columns) -> Self
        ensures { result ≡ columns }
    {
        let totals = ByColumn {
            volume: figures::total(&wide(&columns.first)),
            margin: figures::total(&wide(&columns.second)),
            stress: figures::total(&wide(&columns.third)),
        };
        SharesSheet { columns, totals }
    }

    // Refusal 9.
    #[tactic(auto, unfolding(crate::specs::Requirements::any_unshared))]
    fn any_unshared(&self, quantum: u64) -> bool
        ensures { result ≡ any_unshared quantum self.now }
    {
        let parts = parts_of(quantum);
        unshared(parts.margin, self.totals.margin)
            || unshared(parts.stress, self.totals.stress)
            || unshared(parts.volume, self.totals.volume)
    }

    #[tactic(auto, unfolding(crate::specs::Requirements::requirements_of, crate::specs::Requirements::parts_of))]
    fn requirements(&self, quantum: u64) -> [u64; 64]
        requires { quantum ≤ quantum_limit }
        ensures { result ≡ requirements_of quantum self.now }
    {
        let parts = parts_of(quantum);
        let shares = ByColumn {
            volume: part(parts.volume, self.totals.volume, &self.columns.first),
            margin: part(parts.margin, self.totals.margin, &self.columns.second),
            stress: part(parts.stress, self.totals.stress, &self.columns.third),
        };
        joined(&self.columns.present, &shares)
    }

    // A quantum shared, refused or not.
    pub fn shared(&self, quantum: u64) -> Shared
        requires { quantum ≤ quantum_limit }
        ensures { result ≡ shared_of quantum self.now }
    {
        let requirements = self.requirements(quantum);
        Shared {
            highest: highest(&requirements),
            requirements,
        }
    }

    // A quantum shared, or refusal 9, or 10.
    #[tactic(auto, unfolding(lists::specs::Checks::check, crate::specs::Requirements::sharing_refusal))]
    pub fn share(&self, quantum: u64) -> Result<Shared, Refusal>
        requires { quantum ≤ quantum_limit }
        ensures { result ≡ answered (sharing_refusal quantum self.now) (shared_of quantum self.now) }
    {
        if self.any_unshared(quantum) {
            return Err(Refusal::Unshared);
        }
        let shared = self.shared(quantum);
        if AMOUNT_LIMIT < shared.highest {
            return Err(Refusal::ExcessiveRequirement);
        }
        Ok(shared)
    }
}
