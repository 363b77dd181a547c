// Ranks as they are typed: `M:R`, or `M:` where the rank is missing.
#![tactic(auto)]

ghost use Rattle.std.specs.Prelude.{◌≡◌, ◌==◌, true, false, ◌<◌, ◌≤◌, OnSome, length};
ghost use Rattle.std.specs.List.{position};
ghost use Rattle.std.specs.Option.{IfSome, is_some};
ghost use Rattle.typed_ranks.specs.TypedRanks.{rank_of, is_good, marked, given, all_good, ranks_in};
ghost use Rattle.typed_ranks.specs.Pools.{is_slash, to_slash, further_pools, pools_from};

use cells::read_byte;
use lists::LAST_MEMBER;
use numbers::read_number;
use words::{Words, find};

// A rank, and the member, 1 to 64, that has it.
#[derive(Clone, Copy)]
struct Rank {
    member: u64,
    rank: u8,
}

#[tactic(auto, unfolding(crate::specs::TypedRanks::rank_of, lists::specs::Checks::check))]
fn read_rank(word: &[u8]) -> Option<Rank>
    ensures value { result ≡ rank_of word.now }
    ensures of_a_member { IfSome result (λ r. (0 < r.member) × (r.member ≤ 64)) }
{
    let colon = find(word, b':')?;
    let member = read_number(&word[..colon])?;
    let rank = read_byte(&word[colon + 1..])?;
    if !(1..=LAST_MEMBER).contains(&member) {
        return None;
    }
    Some(Rank { member, rank })
}

// Gives a member the rank that a word says, where it has none yet. (Who is named stands beside the ranks: one typed as missing is 255, as is one not
// typed, and the ranks are handed on as bytes.)
fn take_rank(word: &[u8], ranks: &mut [u8; 64], named: &mut [bool; 64]) -> Option<()>
    ensures value { is_some result ≡ is_good named.old (rank_of word.now) }
    ensures ranks_after { OnSome result (ranks.new ≡ given ranks.old (rank_of word.now)) }
    ensures named_after { OnSome result (named.new ≡ marked named.old (rank_of word.now)) }
{
    let Rank { member, rank } = read_rank(word)?;
    let place = (member - 1) as usize;
    if named[place] {
        return None;
    }
    named[place] = true;
    ranks[place] = rank;
    Some(())
}

/// Reads the ranks of a pool, up to the next `/` or the end. Answers whether a further pool follows, and None where a word gives no rank that can be used, as
/// one for a member who is named already.
// (A flag, since that a pool follows says nothing of the ranks; this one's are good either way.)
#[tactic(auto, unfolding(lists::specs::Checks::check, crate::specs::Pools::pools_of))]
pub fn read_ranks(words: &mut Words, ranks: &mut [u8; 64], named: &mut [bool; 64]) -> Option<bool>
    ensures readable { is_some result ≡ all_good named.old (to_slash words.old) }
    ensures ranks_after { OnSome result (ranks.new ≡ ranks_in ranks.old (to_slash words.old)) }
    ensures pools_behind { IfSome result (λ more. further_pools words.old ≡ pools_from more words.new) }
    ensures words_taken { length words.new ≤ length words.old }
{
    while let Some(word) = words.next() {
        if word == b"/".as_slice() {
            return Some(true);
        }
        take_rank(word, ranks, named)?;
    }
    Some(false)
}
