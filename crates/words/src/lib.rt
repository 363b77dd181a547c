// The bytes of a line: a part of them, and its words.
#![tactic(auto)]

ghost use Rattle.std.specs.Prelude.{◌≡◌, ◌==◌, ◌<◌, ◌^◌, ℕ, List, [], ◌∷◌, length, take, drop};
ghost use Rattle.std.specs.List.{prefix_len, position};
ghost use Rattle.std.specs.Iterator.{YieldsFirstRef, item_count};
ghost use Rattle.std.specs.Option.{IfSome};
ghost use Rattle.words.specs.Bytes.{part as Bytes·part};
ghost use Rattle.words.specs.Words.{is_space, in_word, words_of};

use std::marker::Model;

/// A line that does not say what it should.
#[derive(Clone, Copy, Debug, PartialEq, Eq)]
pub struct Unreadable;

/// The bytes from start to end, as far as there are any.
pub fn part(s: &[u8], start: usize, end: usize) -> &[u8]
    ensures { result.now ≡ Bytes·part s.now start end }
{
    let to = end.min(s.len());
    let from = start.min(to);
    &s[from..to]
}

/// The first place of a byte.
pub fn find(s: &[u8], byte: u8) -> Option<usize>
    ensures value { result ≡ position (λ b. b == byte) s.now }
    ensures within { IfSome result (λ place. place < length s.now) }
{
    s.iter().position(|b| *b == byte)
}

fn spaces(line: &[u8]) -> usize
    ensures value { result ≡ prefix_len is_space line.now }
    ensures countable { length line.now < 2 ^ 64 }
{
    line.iter().take_while(|b| **b == b' ').count()
}

// A word runs to the next space, '#' or the end.
fn word_length(line: &[u8]) -> usize
    ensures { result ≡ prefix_len in_word line.now }
{
    line.iter()
        .take_while(|b| **b != b' ' && **b != b'#')
        .count()
}

/// The line without the spaces in front.
#[tactic(auto, using(crate::proofs::Cutting::prefix_within))]
pub fn trim_start(line: &[u8]) -> &[u8]
    ensures value { result.now ≡ drop (prefix_len is_space line.now) line.now }
    ensures countable { length line.now < 2 ^ 64 }
{
    &line[spaces(line)..]
}

// The word that the line begins with, and the rest.
#[tactic(auto, using(crate::proofs::Cutting::prefix_within))]
fn split_word(line: &[u8]) -> (&[u8], &[u8])
    ensures word { result.0.now ≡ take (prefix_len in_word line.now) line.now }
    ensures rest { result.1.now ≡ drop (prefix_len in_word line.now) line.now }
{
    line.split_at(word_length(line))
}

/// The words of a line that are left.
#[derive(Drop)]
pub struct Words<'a> {
    rest: &'a [u8],
}

impl<'a> Model for Words<'a> {
    ghost Value = { List (List ℕ) };

    ghost view = { λ w. words_of w.rest.now };

    ghost invariant = { λ w. length w.rest.now < 2 ^ 64 };
}

impl<'a> Words<'a> {
    pub fn of_line(line: &'a [u8]) -> Self
        ensures { result ≡ words_of line.now }
    {
        Words { rest: line }
    }
}

// That they are countable stands in `next_gives`: as a clause of `next` beside the trait's own, it leaves the proofs of callers' loops open.
impl<'a> Iterator for Words<'a> {
    type Item = &'a [u8];

    ghost next_gives = { λ old word new. YieldsFirstRef (λ words. words) old word new × (length old < 2 ^ 64) };

    ghost remaining = { item_count (λ words. words) };

    #[tactic(auto, using(crate::proofs::Cutting::no_word, crate::proofs::Cutting::next_word, crate::proofs::Cutting::words_within))]
    fn next(&mut self) -> Option<&'a [u8]> {
        let (word, rest) = split_word(trim_start(self.rest));
        self.rest = rest;
        if word.is_empty() {
            return None;
        }
        Some(word)
    }
}
