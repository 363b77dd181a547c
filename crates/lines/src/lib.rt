// A line of a drill: what is called, and the ranks beside it.
#![tactic(auto)]

ghost use Rattle.std.specs.Prelude.{◌≡◌, ◌<◌, ◌≤◌, ◌+◌, ◌^◌, length};
ghost use Rattle.std.specs.Option.{IfSome, is_some};
ghost use Rattle.typed_ranks.specs.Pools.{to_slash, further_pools, pools_from, pools_of};
ghost use Rattle.lines.specs.Defaults.{number_in, behind, is_readable, all_readable};
ghost use Rattle.lines.specs.Defaults.{no_ranks, default_line, default_ranks, handed_of};
ghost use Rattle.lines.specs.RangeLines.{range_line, range_ranks, first_ranks};
ghost use Rattle.lines.specs.Lines.{pair_of, alone, other_line, said_of, ranks_for, line_of, ranks_of};
ghost use Rattle.lines.specs.Parts.{PoolRead, added, typed_in};

use admission::Pools;
use drill::DrillCall;
use lists::{MISSING_RANK, POOL_LIMIT};
use numbers::read_number;
use ranges::Losses;
use typed_ranks::read_ranks;
use words::{Unreadable, Words};

/// What a line asks for.
#[derive(Clone, Copy)]
pub enum Line {
    Register,
    Page,
    Range { member: u64, losses: Losses },
    Call(DrillCall),
}

/// Ranks where none is given.
pub const NO_RANKS: [[u8; 64]; 4] = [[MISSING_RANK; 64]; 4];

// The next word as a number. A word that is not there is no number.
fn number(words: &mut Words) -> Option<u64>
    ensures value { result ≡ number_in words.old }
    ensures words_left { words.new ≡ behind words.old }
    ensures countable { length words.old < 2 ^ 64 }
{
    read_number(words.next()?)
}

// The two numbers that the words say, and nothing else.
fn pair(words: &mut Words) -> Option<(u64, u64)>
    ensures { result ≡ pair_of words.old }
{
    let member = words.next()?;
    let amount = words.next()?;
    if words.next().is_some() {
        return None;
    }
    Some((read_number(member)?, read_number(amount)?))
}

// A pool as it is typed, and whether a further one follows, which says nothing of its loss and ranks.
#[derive(Clone, Copy)]
struct Pool {
    loss: u64,
    ranks: [u8; 64],
    more: bool,
}

// The words of a pool.
#[tactic(auto, using(crate::proofs::Pooling::number_none, crate::proofs::Pooling::number_some))]
fn read_pool(words: &mut Words) -> Option<Pool>
    ensures readable { is_some result ≡ is_readable (to_slash words.old) }
    ensures pool { IfSome result (λ pool. PoolRead words.old pool words.new) }
{
    let loss = number(words)?;
    let mut ranks = [MISSING_RANK; 64];
    let more = read_ranks(words, &mut ranks, &mut [false; 64])?;
    Some(Pool { loss, ranks, more })
}

// The pools that are read, and the ranks of the first four: losses and ranks apart, since a call has the losses, and its ranks are lent beside it.
#[derive(Clone, Copy)]
struct Typed {
    pools: Pools,
    ranks: [[u8; 64]; 4],
}

// One pool more. A fifth pool and more have no places. (A method that changes `self` is not proved: it learns no array's length where it writes none.)
fn added(mut typed: Typed, pool: Pool) -> Typed
    requires { typed.pools.count + 1 < 2 ^ 64 }
    ensures { result ≡ added typed pool.loss pool.ranks }
{
    let count = typed.pools.count;
    if count < POOL_LIMIT {
        typed.pools.losses[count] = pool.loss;
        let ranks = pool.ranks;
        typed.ranks[count] = ranks;
    }
    typed.pools.count = count + 1;
    typed
}

// What follows the member of a default: one pool behind the other.
#[tactic(auto, using(crate::proofs::Pooling::reading), unfolding(typed_ranks::specs::Pools::pools_of))]
fn read_pools(words: &mut Words) -> Option<Typed>
    ensures readable { is_some result ≡ all_readable (pools_of words.old) }
    ensures typed { IfSome result (λ typed. typed ≡ typed_in (pools_of words.old)) }
{
    let mut typed = Typed {
        pools: Pools {
            count: 0,
            losses: [0; 4],
        },
        ranks: NO_RANKS,
    };
    loop {
        let pool = read_pool(words)?;
        typed = added(typed, pool);
        if !pool.more {
            return Some(typed);
        }
    }
}

// What follows `default`.
#[tactic(auto, unfolding(lists::specs::Checks::check, crate::specs::Defaults::default_line, crate::specs::Defaults::default_ranks))]
fn default_line(words: &mut Words, ranks: &mut [[u8; 64]; 4]) -> Option<DrillCall>
    requires { ranks.old ≡ no_ranks }
    ensures value { result ≡ default_line words.old }
    ensures ranks_after { ranks.new ≡ default_ranks words.old }
{
    let member = number(words)?;
    let Typed {
        pools,
        ranks: typed,
    } = read_pools(words)?;
    *ranks = typed;
    Some(DrillCall::Default { member, pools })
}

// What follows `range`. The high loss and the ranks stand as those of a default's one pool do.
#[tactic(auto, unfolding(lists::specs::Checks::check, crate::specs::RangeLines::range_line, crate::specs::RangeLines::range_ranks, typed_ranks::specs::Pools::pools_of))]
fn range_line(words: &mut Words, ranks: &mut [[u8; 64]; 4]) -> Option<Line>
    requires { ranks.old ≡ no_ranks }
    ensures value { result ≡ range_line words.old }
    ensures ranks_after { ranks.new ≡ range_ranks words.old }
{
    let member = number(words)?;
    let low = number(words)?;
    let pool = read_pool(words)?;
    if pool.more {
        return None;
    }
    let typed = pool.ranks;
    ranks[0] = typed;
    Some(Line::Range {
        member,
        losses: Losses {
            low,
            high: pool.loss,
        },
    })
}

// A line that says the same thing as its first word.
fn alone(says: Line, words: &mut Words) -> Option<Line>
    ensures { result ≡ alone says words.old }
{
    match words.next() {
        Some(_) => None,
        None => Some(says),
    }
}

// A line that begins with a word other than `default` and `range`. (Tests and no `match` on byte strings, as in `rows::kind_named`.)
#[tactic(auto, unfolding(lists::specs::Checks::check, crate::specs::Lines::other_line))]
fn other_line(word: &[u8], words: &mut Words) -> Option<Line>
    ensures { result ≡ other_line word.now words.old }
{
    if word == b"payment".as_slice() {
        let (member, amount) = pair(words)?;
        return Some(Line::Call(DrillCall::Payment { member, amount }));
    }
    if word == b"replenishment".as_slice() {
        let (member, amount) = pair(words)?;
        return Some(Line::Call(DrillCall::Replenishment { member, amount }));
    }
    if word == b"close".as_slice() {
        return alone(Line::Call(DrillCall::Close), words);
    }
    if word == b"register".as_slice() {
        return alone(Line::Register, words);
    }
    if word == b"page".as_slice() {
        return alone(Line::Page, words);
    }
    None
}

// What a line says that has a word.
#[tactic(auto, unfolding(lists::specs::Checks::check, crate::specs::Lines::said_of, crate::specs::Lines::ranks_for))]
fn said(word: &[u8], words: &mut Words, ranks: &mut [[u8; 64]; 4]) -> Option<Line>
    requires { ranks.old ≡ no_ranks }
    ensures value { result ≡ said_of word.now words.old }
    ensures ranks_after { ranks.new ≡ ranks_for word.now words.old }
{
    if word == b"default".as_slice() {
        let call = default_line(words, ranks)?;
        return Some(Line::Call(call));
    }
    if word == b"range".as_slice() {
        return range_line(words, ranks);
    }
    other_line(word, words)
}

/// What a line says, and None where it has no word, with the ranks of a default, 64 for each of four pools, or of a range, which are the first 64.
pub fn read_line(line: &[u8], ranks: &mut [[u8; 64]; 4]) -> Result<Option<Line>, Unreadable>
    ensures value { result ≡ line_of line.now }
    ensures ranks_after { ranks.new ≡ ranks_of line.now }
{
    *ranks = NO_RANKS;
    let mut words = Words::of_line(line);
    let Some(word) = words.next() else {
        return Ok(None);
    };
    said(word, &mut words, ranks).map(Some).ok_or(Unreadable)
}

/// The ranks that go with a range: those where a first pool's are.
pub fn first_ranks(ranks: &[[u8; 64]; 4]) -> &[u8; 64]
    ensures { result.now ≡ first_ranks ranks.now }
{
    &ranks[0]
}

/// The ranks that go with a call: a default's pools have 64 each, and the other calls read none.
pub fn handed<'a>(call: DrillCall, ranks: &'a [[u8; 64]; 4]) -> &'a [u8]
    ensures { result.now ≡ handed_of call ranks.now }
{
    match call {
        DrillCall::Default { pools, .. } => ranks[..pools.count.min(POOL_LIMIT)].as_flattened(),
        DrillCall::Payment { .. } | DrillCall::Replenishment { .. } | DrillCall::Close => &[],
    }
}
