// The cover C and the weak losses W of a stress sheet: document 01, "Stress sheet and sizing", and document 02, request 5. One pass, with what it needs
// of the open block and of the worst block so far.
#![tactic(auto)]

ghost use Rattle.std.specs.Prelude.{◌≡◌, false, cond, List, ◌∷◌, ◌≤◌};
ghost use Rattle.lists.specs.Limits.{amount_limit, stress_limit, group_limit};
ghost use Rattle.lists.specs.Sums.{AtMost};
ghost use Rattle.refusal.specs.Refusal.{answered};
ghost use Rattle.sheets.specs.Bytes.{nonzero};
ghost use Rattle.sheets.specs.Sheet.{missized};
ghost use Rattle.stress.specs.Stress.{stress_refusal};
ghost use Rattle.cover.specs.Cover.{StressLoss, covered_of};
ghost use Rattle.cover.specs.Parts.{Kept, opened, placed, grown, cover_in, worse_of, Slight};

use refusal::{Refusal, located};
use std::marker::Model;
use stress::losses::{read_loss, same_block};

// What is kept of a block: the two highest sums, and the flagged losses added. Sums are counted from a floor, which is 0 in the first block and then the
// highest that the block before came to. What earlier blocks left in the list of the groups' sums is no higher, and counts as nothing: so the list, which lies
// beside, is not cleared for each block.
#[derive(Clone, Copy)]
struct Block {
    floor: u64,
    top: u64,
    second: u64,
    flagged: u64,
}

// The cover sum of a block, and its flagged losses added. No block has more than 64 losses, and five flagged ones.
#[derive(Clone, Copy)]
pub struct Covered {
    pub cover: u64,
    pub weak: u64,
}

impl Model for Covered {
    ghost use Rattle.cover.specs.Figures.{CoveredFigures, Bounded};

    ghost Value = { CoveredFigures };

    ghost view = { λ c. record { cover = c.cover; weak = c.weak } };

    ghost inverse = { λ v. record { cover = v.cover; weak = v.weak } };

    ghost invariant = { λ c. Bounded c.cover c.weak };
}

// A block of no records.
fn opened(floor: u64) -> Block
    ensures { result ≡ opened floor }
{
    Block {
        floor,
        top: floor,
        second: floor,
        flagged: 0,
    }
}

fn flagged_loss(amount: u32, weak: bool) -> u64
    ensures { result ≡ cond weak amount 0 }
{
    if weak { u64::from(amount) } else { 0 }
}

// A sum that comes to those of a block takes its place among the two highest.
#[tactic(auto, unfolding(lists::specs::Checks::check))]
fn placed(block: Block, sum: u64) -> Block
    ensures { result ≡ placed sum block }
{
    if block.top < sum {
        return Block {
            top: sum,
            second: block.top,
            ..block
        };
    }
    Block {
        second: block.second.max(sum),
        ..block
    }
}

// A sum of the block grows. Where it was the highest it stays so, and the second highest, which is another's, stays what it is; where it was not, the highest
// is another's, and the sum is placed like one that comes: what it was is no more than the second highest, and gives way.
#[tactic(auto, unfolding(lists::specs::Checks::check))]
fn grown(block: Block, before: u64, sum: u64) -> Block
    ensures { result ≡ grown before sum block }
{
    if before == block.top {
        return Block { top: sum, ..block };
    }
    placed(block, sum)
}

// A record joins the block and the groups' sums. (Its fields come one by one: what stands before the next record is no concern of the block.) `Slight` is asked here
// and at `worse`, and is no invariant of `Block`: that no sixth flag joins is known of the record before, and not of a block.
#[tactic(auto, unfolding(lists::specs::Checks::check))]
fn joined(block: Block, sums: &mut [u64; 64], group: u8, amount: u32, weak: bool) -> Block
    requires slight { Slight block }
    requires moderate { AtMost sums.old block.top × (group ≤ group_limit) × (amount ≤ amount_limit) }
    ensures floor { result.floor ≡ block.floor }
    ensures joined { (xs : List StressLoss) (x : StressLoss) → Kept xs sums.old block → x.loss ≡ amount → x.group ≡ group → nonzero x.weak ≡ weak
        → Kept (x ∷ xs) sums.new result }
{
    let flagged = block.flagged + flagged_loss(amount, weak);
    let block = Block { flagged, ..block };
    if group == 0 {
        return placed(block, block.floor + u64::from(amount));
    }
    let place = usize::from(group) - 1;
    let before = sums[place].max(block.floor);
    let sum = before + u64::from(amount);
    sums[place] = sum;
    grown(block, before, sum)
}

// The worse of two blocks, the earlier one of equals.
#[tactic(auto, unfolding(lists::specs::Checks::check))]
fn worse(worst: Covered, block: Block) -> Covered
    requires { Slight block }
    ensures { result ≡ worse_of worst (cover_in block) block.flagged }
{
    let cover = (block.top - block.floor) + (block.second - block.floor);
    if worst.cover < cover {
        return Covered {
            cover,
            weak: block.flagged,
        };
    }
    worst
}

// 4 to 8 record by record, and C and W of a sheet in order. No `try_fold`: its closure would take and hand back `(before, block, sums, worst)` at
// each record, and is no plainer. Nor one function with `sheets::columns::read`: each turn differs, and what is carried.
#[tactic(auto, unfolding(sheets::specs::Sheet::missized))]
pub fn read(sheet: &[u8]) -> Result<Covered, Refusal>
    requires { missized stress_limit sheet.now ≡ false }
    ensures { result ≡ answered (stress_refusal sheet.now) (covered_of sheet.now) }
{
    let (records, _) = sheet.as_chunks::<16>();
    let mut before = None;
    let mut block = opened(0);
    let mut sums = [0; 64];
    let mut worst = Covered { cover: 0, weak: 0 };
    for (i, bytes) in records.iter().enumerate() {
        let loss = located(read_loss(&before, bytes), i + 1)?;
        if !same_block(&before, bytes) {
            worst = worse(worst, block);
            block = opened(block.top);
        }
        block = joined(block, &mut sums, loss.group, loss.amount, loss.weak);
        before = Some(loss.next);
    }
    Ok(worse(worst, block))
}
