// A line of a sheet: its content, its cells, and what a cell says.
#![tactic(auto)]

ghost use Rattle.std.specs.Prelude.{◌≡◌, ◌==◌, ◌<◌, ◌⊎◌, ℕ, List, [], ◌∷◌, length, take};
ghost use Rattle.std.specs.Iterator.{YieldsFirstRef, item_count};
ghost use Rattle.std.specs.Option.{IfSome};
ghost use Rattle.std.specs.List.{position, position_or_len, suffix_len};
ghost use Rattle.words.specs.Words.{is_space};
ghost use Rattle.cells.specs.Cells.{without_return, content_of, trim_end, trimmed, field_of, byte_of, half_of, amount_of, cells_of, cells_left};

use lists::MISSING_AMOUNT;
use numbers::read_number;
use std::marker::Model;
use words::{find, trim_start};

// The line without its CR.
#[tactic(auto, using(lists::proofs::Checks::checks, crate::proofs::Cutting::no_return), unfolding(crate::specs::Cells::without_return))]
fn without_return(line: &[u8]) -> &[u8]
    ensures { result.now ≡ without_return line.now }
{
    match line {
        [front @ .., b'\r'] => front,
        _ => line,
    }
}

// How long the line is before its comment.
fn comment_start(line: &[u8]) -> usize
    ensures { result ≡ position_or_len (λ b. b == 35) line.now }
{
    line.iter().take_while(|b| **b != b'#').count()
}

/// The line without its CR and without its comment.
#[tactic(auto, using(words::proofs::Cutting::prefix_within), unfolding(crate::specs::Cells::content_of))]
pub fn content(line: &[u8]) -> &[u8]
    ensures { result.now ≡ content_of line.now }
{
    let line = without_return(line);
    &line[..comment_start(line)]
}

fn spaces_behind(s: &[u8]) -> usize
    ensures { result ≡ suffix_len is_space s.now }
{
    s.iter().rev().take_while(|b| **b == b' ').count()
}

// What is left without the spaces behind.
#[tactic(auto, using(crate::proofs::Cutting::suffix_within))]
fn trim_end(s: &[u8]) -> &[u8]
    ensures { result.now ≡ trim_end s.now }
{
    &s[..s.len() - spaces_behind(s)]
}

/// What is left without the spaces around it.
#[tactic(auto, unfolding(crate::specs::Cells::trimmed))]
pub fn trim(s: &[u8]) -> &[u8]
    ensures { result.now ≡ trimmed s.now }
{
    trim_end(trim_start(s))
}

/// What a cell says: `blank` where it is blank, its number where that is below the limit.
#[tactic(auto, unfolding(crate::specs::Cells::field_of, lists::specs::Checks::check))]
pub fn read_field(cell: &[u8], blank: u64, limit: u64) -> Option<u64>
    ensures value { result ≡ field_of blank limit cell.now }
    ensures within { IfSome result (λ v. (v ≡ blank) ⊎ (v < limit)) }
{
    let word = trim(cell);
    if word.is_empty() {
        return Some(blank);
    }
    read_number(word).filter(|value| *value < limit)
}

// Three functions, since each has a type, a blank and a limit of its own: a generic one would be handed all three.

/// What a cell of one byte says.
pub fn read_byte(cell: &[u8]) -> Option<u8>
    ensures { result ≡ byte_of cell.now }
{
    let value = read_field(cell, 255, 256)?;
    Some(value as u8)
}

/// What a cell of two bytes says.
pub fn read_half(cell: &[u8]) -> Option<u16>
    ensures { result ≡ half_of cell.now }
{
    let value = read_field(cell, 65535, 65536)?;
    Some(value as u16)
}

/// What a cell with an amount says.
pub fn read_amount(cell: &[u8]) -> Option<u32>
    ensures { result ≡ amount_of cell.now }
{
    let missing = u64::from(MISSING_AMOUNT);
    let value = read_field(cell, missing, missing)?;
    Some(value as u32)
}

/// The cells of a line that are left.
// (Tried: cells taken one by one from std's `split`. Nine goals of `rows::read_member` stay open.)
#[derive(Drop)]
pub struct Cells<'a> {
    rest: Option<&'a [u8]>,
}

impl<'a> Model for Cells<'a> {
    ghost Value = { List (List ℕ) };

    ghost view = { λ cells. cells_left cells.rest };
}

impl<'a> Cells<'a> {
    pub fn of_line(line: &'a [u8]) -> Self
        ensures { result ≡ cells_of line.now }
    {
        Cells { rest: Some(line) }
    }
}

impl<'a> Iterator for Cells<'a> {
    type Item = &'a [u8];

    ghost next_gives = { YieldsFirstRef (λ cells. cells) };

    ghost remaining = { item_count (λ cells. cells) };

    #[tactic(auto, using(crate::proofs::Cutting::first_part, crate::proofs::Cutting::last_part))]
    fn next(&mut self) -> Option<&'a [u8]> {
        let rest = self.rest?;
        match find(rest, b',') {
            Some(length) => {
                self.rest = Some(&rest[length + 1..]);
                Some(&rest[..length])
            }
            None => {
                self.rest = None;
                Some(rest)
            }
        }
    }
}
