// Reads the lines of the test program `refusals`: what a line calls, with its numbers, and bytes in hexadecimal.
#![tactic(auto)]

ghost use Rattle.std.specs.Prelude.{◌≡◌, ◌==◌, ◌<◌, ◌≤◌, IfSome, drop, length};
ghost use Rattle.std.specs.List.{before_first, position_or_len};
ghost use Rattle.cases.specs.Handed.{ranks_handed, slip_handed};

use admission::Pools;
use drill::DrillCall;
use ranges::Losses;
use words::find;

// The ranks of five pools, 64 each: as many as a case hands over at most.
const RANKS: u64 = 320;

// The numbers of a slip that a case hands over at most.
const SLIP: u64 = 258;

/// What a line calls.
#[derive(Clone, Copy)]
pub enum Called {
    /// A sizing with the prevailing minimum, our own money available, and how many numbers the slip has.
    Size {
        prevailing: u64,
        available: u64,
        slip: usize,
    },
    /// An opening with our own contribution.
    Open {
        own: u64,
    },
    /// A drill call, how many ranks are handed over, and how many numbers the slip has.
    Drill {
        call: DrillCall,
        ranks: usize,
        slip: usize,
    },
    /// A range of losses of a member's default, with the same.
    Range {
        member: u64,
        losses: Losses,
        ranks: usize,
        slip: usize,
    },
}

/// A line: its label, what it calls, and its bytes in hexadecimal.
#[derive(Clone, Copy)]
pub struct Case<'a> {
    pub label: &'a [u8],
    pub called: Called,
    pub digits: &'a [u8],
}

/// What stands before a byte, and what stands from it on.
pub fn cut(s: &[u8], byte: u8) -> (&[u8], &[u8])
    ensures front { result.0.now ≡ before_first (λ b. b == byte) s.now }
    ensures rest { result.1.now ≡ drop (position_or_len (λ b. b == byte) s.now) s.now }
{
    let at = find(s, byte).unwrap_or(s.len());
    s.split_at(at)
}

// The number with one digit more, if the byte is a digit with which it fits.
fn grown(number: u64, byte: u8) -> Option<u64> {
    let digit = char::from(byte).to_digit(10)?;
    number.checked_mul(10)?.checked_add(u64::from(digit))
}

// The number that a word's digits make. Every other byte of the word is passed over, and so is a digit with which the number would not fit.
fn number(word: &[u8]) -> u64 {
    word.iter()
        .fold(0, |number, byte| grown(number, *byte).unwrap_or(number))
}

// The numbers of a line behind what is called, each behind a space.
fn numbers(words: &[u8]) -> [u64; 8] {
    let mut numbers = [0; 8];
    for (place, word) in numbers.iter_mut().zip(words.split(|b| *b == b' ').skip(2)) {
        *place = number(word);
    }
    numbers
}

fn drill_call(call: DrillCall) -> Called
    ensures { (ranks_handed result ≡ 0) × (slip_handed result ≡ 0) }
{
    Called::Drill {
        call,
        ranks: 0,
        slip: 0,
    }
}

// Whether a range is called: by its whole name behind one space, since its first letter is a replenishment's too.
fn is_range(words: &[u8]) -> bool {
    let [_, b' ', words @ ..] = words else {
        return false;
    };
    matches!(cut(words, b' '), (b"range", _))
}

// What a line calls, by the letter behind its label, the colon and a space. Every other byte there calls a close, and a line that ends before it nothing.
fn read_called(words: &[u8]) -> Option<Called>
    ensures ranks { IfSome result (λ called. ranks_handed called ≤ 320) }
    ensures slip { IfSome result (λ called. slip_handed called ≤ 258) }
{
    let letter = *words.get(2)?;
    Some(match (letter, numbers(words)) {
        (b's', [prevailing, available, slip, ..]) => Called::Size {
            prevailing,
            available,
            slip: slip.min(SLIP) as usize,
        },
        (b'o', [own, ..]) => Called::Open { own },
        (b'd', [member, count, first, second, third, fourth, ranks, slip]) => Called::Drill {
            call: DrillCall::Default {
                member,
                pools: Pools {
                    count: count as usize,
                    losses: [first, second, third, fourth],
                },
            },
            ranks: ranks.min(RANKS) as usize,
            slip: slip.min(SLIP) as usize,
        },
        (b'p', [member, amount, ..]) => drill_call(DrillCall::Payment { member, amount }),
        (b'r', [member, low, high, ranks, slip, ..]) if is_range(words) => Called::Range {
            member,
            losses: Losses { low, high },
            ranks: ranks.min(RANKS) as usize,
            slip: slip.min(SLIP) as usize,
        },
        (b'r', [member, amount, ..]) => drill_call(DrillCall::Replenishment { member, amount }),
        _ => drill_call(DrillCall::Close),
    })
}

/// The case of a line, if it is one.
pub fn read_case(line: &[u8]) -> Option<Case<'_>>
    ensures label { IfSome result (λ case. case.label.now ≡ before_first (λ b. b == 58) line.now) }
    ensures ranks { IfSome result (λ case. ranks_handed case.called ≤ 320) }
    ensures slip { IfSome result (λ case. slip_handed case.called ≤ 258) }
{
    let (label, words) = cut(line, b':');
    let (_, digits) = cut(words, b'/');
    Some(Case {
        label,
        called: read_called(words)?,
        digits,
    })
}

// The value of a hexadecimal digit. (No `to_digit`, which takes capitals too.)
fn digit(byte: &u8) -> Option<u8>
    ensures { IfSome result (λ value. value < 16) }
{
    match *byte {
        b'0'..=b'9' => Some(*byte - b'0'),
        b'a'..=b'f' => Some(*byte - b'a' + 10),
        _ => None,
    }
}

/// The bytes that pairs of hexadecimal digits say, in the front of the room. A semicolon goes on to the next 64 bytes, and the room keeps what it held
/// where bytes are left out. A digit alone is put into the room too, behind the lower half of what stood there: at the end no byte of the answer is made of it.
pub fn bytes<'a>(room: &'a mut [u8], digits: &[u8]) -> &'a [u8]
    ensures { length result.now ≤ length room.old }
{
    let mut taken: usize = 0;
    for byte in digits {
        let Some(place) = room.get_mut(taken / 2) else {
            break;
        };
        if let Some(digit) = digit(byte) {
            *place = *place % 16 * 16 + digit;
            taken += 1;
        } else if *byte == b';' {
            taken = (taken / 128 + 1).saturating_mul(128);
        }
    }
    let filled = room.len().min(taken / 2);
    &room[..filled]
}
