// The lines of standard input, taken one by one.
#![tactic(auto)]

ghost use Rattle.std.specs.Prelude.{◌≡◌, ◌==◌, ◌+◌, ◌-◌, ◌<◌, ◌≤◌, [], false, Option, None, min, length, take, drop};
ghost use Rattle.std.specs.Result.{IfOk};
ghost use Rattle.std.specs.Io.{StartsWith};
ghost use Rattle.std.specs.Io.BufRead.{Rests};
ghost use Rattle.std.specs.Borrow.{sem};
ghost use Rattle.std.specs.List.{position};
ghost use Rattle.words.specs.Bytes.{part as Bytes·part};
ghost use Rattle.input.specs.Lines.{length_of, IsNext, Searched};
ghost use Rattle.input.specs.Reading.{has_ended, kept_of, IsBehind};
ghost use Rattle.std.specs.Option.{IfSome};

use std::io::{self, Eprint, Input, Read};
use std::marker::Model;
use words::{Unreadable, find, part};

/// A line may be so many bytes long. A longer one is unreadable as a whole.
pub const LINE_LIMIT: usize = 4096;

const ROOM: usize = 65536;

/// How far an input is read.
#[derive(Clone, Copy, Debug, PartialEq, Eq)]
pub enum State {
    Open,
    Ended,
    Failed,
}

impl State {
    // Whether there is no more to read.
    fn has_ended(self) -> bool
        ensures { result ≡ has_ended self }
    {
        self != State::Open
    }
}

// The place of the first newline. The first `searched` bytes hold none, and are not looked at again.
fn find_newline(bytes: &[u8], searched: usize) -> Option<usize>
    requires { Searched searched bytes.now }
    ensures value { result ≡ position (λ b. b == 10) bytes.now }
    ensures within { IfSome result (λ place. place < length bytes.now) }
{
    let rest = part(bytes, searched, bytes.len());
    let place = find(rest, b'\n')?;
    Some(searched + place)
}

// How long the line is that begins at `from`, where its end is read. A last line may have no newline. (Bytes, from, searched and have in no struct: `Lines`
// has them among its fields.)
#[tactic(auto, using(crate::proofs::Taking::all_searched))]
fn line_length(
    bytes: &[u8],
    from: usize,
    searched: usize,
    have: usize,
    ended: bool,
) -> Option<usize>
    requires range { (from ≤ have) × (have ≤ length bytes.now) }
    requires searched { Searched searched (Bytes·part bytes.now from have) }
    ensures value { result ≡ length_of ended (Bytes·part bytes.now from have) }
    ensures within { IfSome result (λ n. from + n ≤ have) }
    ensures all_searched { result ≡ None → Searched (have - from) (Bytes·part bytes.now from have) }
{
    let bytes = part(bytes, from, have);
    match find_newline(bytes, searched) {
        None if ended && !bytes.is_empty() => Some(bytes.len()),
        found => found,
    }
}

// Moves the `count` bytes that begin at `from` to the front, where they are not there already.
fn close_up(bytes: &mut [u8], from: usize, count: usize)
    requires { from + count ≤ length bytes.old }
    ensures { take count bytes.new ≡ take count (drop from bytes.old) }
{
    if from == 0 {
        return;
    }
    bytes.copy_within(from..from + count, 0);
}

// Moves the line that begins at `from` to the front, and gives how much of it is kept: of a line that is too long already, one byte more than it may have.
#[tactic(auto, using(crate::proofs::Taking::kept_front))]
fn keep(bytes: &mut [u8], from: usize, have: usize) -> usize
    requires { (from ≤ have) × (have ≤ length bytes.old) }
    ensures count { result ≡ min (have - from) 4097 }
    ensures front { take result bytes.new ≡ take 4097 (Bytes·part bytes.old from have) }
{
    let kept = (have - from).min(LINE_LIMIT + 1);
    close_up(bytes, from, kept);
    kept
}

// Reads behind the bytes that are kept.
fn read_behind(input: &mut impl Read, bytes: &mut [u8], kept: usize) -> io::Result<usize>
    requires { kept ≤ length bytes.old }
    ensures front { take kept bytes.new ≡ take kept bytes.old }
    ensures within { IfOk result (λ n. kept + n ≤ length bytes.old) }
{
    input.read(&mut bytes[kept..])
}

// The `count` bytes that begin at `from`.
fn part_at(bytes: &[u8], from: usize, count: usize) -> &[u8]
    requires { from + count ≤ length bytes.now }
    ensures { result.now ≡ take count (drop from bytes.now) }
{
    &bytes[from..from + count]
}

/// The lines of an input: the bytes from `from` to `have` are read and still to be taken, and begin a line. (std's `lines` asks for memory; and no
/// Iterator, since what `next` gives borrows from the lines.)
// (Two places, since a struct cannot hold a slice of its own bytes. The first `searched` of these bytes hold no newline: a line may come in small pieces,
// and none of its bytes is searched twice.)
#[derive(Drop)]
pub struct Lines {
    bytes: [u8; ROOM],
    from: usize,
    searched: usize,
    have: usize,
    number: u64,
    state: State,
}

impl Model for Lines {
    ghost use Rattle.std.specs.Prelude.{◌≤◌};
    ghost use Rattle.input.specs.Reading.{Reading};

    ghost Value = { Reading };

    ghost use Rattle.input.specs.Rest.{reading_of};

    ghost view = { reading_of };

    ghost use Rattle.words.specs.Bytes.{part as Bytes·part};
    ghost use Rattle.input.specs.Lines.{Searched};

    ghost invariant = { λ lines. (lines.from ≤ lines.have) × (lines.have ≤ 65536)
        × Searched lines.searched (Bytes·part lines.bytes lines.from lines.have) };
}

impl Lines {
    ghost use Rattle.input.specs.contracts.Lines.{the_row};

    /// An input of which nothing is read yet.
    pub fn new() -> Self
        ensures nothing_read { result.rest ≡ [] }
        ensures first_line { result.number ≡ 1 }
    {
        Lines {
            bytes: [0; ROOM],
            from: 0,
            searched: 0,
            have: 0,
            number: 1,
            state: State::Open,
        }
    }

    /// The number of the line that is taken next, from 1 on.
    pub fn number(&self) -> u64
        ensures { result ≡ self.now.number }
    {
        self.number
    }

    /// How far the input is read.
    pub fn state(&self) -> State
        ensures { result ≡ self.now.state }
    {
        self.state
    }

    /// Takes the next line, where its end is there.
    #[tactic(auto, using(crate::proofs::Taking::taking))]
    pub fn next(&mut self) -> Option<Result<&[u8], Unreadable>>
        ensures line { IsNext (length_of (has_ended self.old.state) self.old.rest) self.old.rest result }
        ensures* leaves { sem 𝓛 (Rests the_row self.entry (λ new. IsBehind (length_of (has_ended self.old.state) self.old.rest) self.old new)) }
    {
        let from = self.from;
        let ended = self.state.has_ended();
        let Some(length) = line_length(&self.bytes, from, self.searched, self.have, ended) else {
            self.searched = self.have - from;
            return None;
        };
        self.from = self.have.min(self.from + length + 1);
        self.searched = 0;
        self.number = self.number.saturating_add(1);
        if LINE_LIMIT < length {
            return Some(Err(Unreadable));
        }
        Some(Ok(part_at(&self.bytes, from, length)))
    }

    /// Reads on behind the bytes that are there. Of a line that is too long already, one byte more than it may have stands for the whole.
    #[tactic(auto, using(crate::proofs::Taking::stays))]
    pub fn read_on(&mut self, rt: &(impl Input + Eprint))
        ensures same_line { self.new.number ≡ self.old.number }
        ensures kept { StartsWith self.new.rest (kept_of self.old) }
        ensures more_or_ended { has_ended self.new.state ≡ false → min (length self.old.rest) 4097 < length self.new.rest }
    {
        let kept = keep(&mut self.bytes, self.from, self.have);
        self.from = 0;
        self.searched = self.searched.min(kept);
        self.have = kept;
        match read_behind(&mut rt.reader(), &mut self.bytes, kept) {
            Ok(0) => self.state = State::Ended,
            Ok(n) => self.have += n,
            Err(why) => {
                let _ = eprintln!(rt; "standard input: {why}");
                self.state = State::Failed;
            }
        }
    }
}
