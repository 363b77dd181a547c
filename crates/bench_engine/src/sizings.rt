// Repeated sizings of the fund.
use bench_defaults::fold::fold;
use files::read_sheet;
use lists::{MEMBER_ROOM, STRESS_ROOM};
use refusal::Refusal;
use sizing::{Sized, size};
use std::io::Eprint;
use std::rt::{Env, Files};

const PREVAILING: u64 = 70_000_000;

const AVAILABLE: u64 = 5_000_000;

// The figures of a sizing, and its requirements.
fn fold_sized(sum: u64, s: Sized, slip: &[u64; 64]) -> u64 {
    let figures = [
        s.cover, s.weak, s.target, s.minimum, s.highest, s.own, s.quantum,
    ];
    figures
        .iter()
        .chain(slip)
        .fold(sum, |sum, number| fold(sum, *number))
}

// The sheets one by one, as `size` takes them.
fn once(turn: u64, stress: &[u8], shares: &[u8], slip: &mut [u64; 64]) -> Result<Sized, Refusal> {
    size(stress, shares, PREVAILING + turn % 8, AVAILABLE, slip)
}

fn repeat(turns: u64, stress: &[u8], shares: &[u8]) -> u64 {
    let mut slip = [0; 64];
    let mut sum = 0;
    for turn in 0..turns {
        if let Ok(sized) = once(turn, stress, shares, &mut slip) {
            sum = fold_sized(sum, sized, &slip);
        }
    }
    sum
}

// Refused sheets are worth no repetition: 0, as in `bench_defaults::run`.
fn accepted(stress: &[u8], shares: &[u8]) -> bool {
    once(0, stress, shares, &mut [0; 64]).is_ok()
}

pub fn run(rt: &(impl Env + Files + Eprint), turns: u64) -> u64 {
    let mut stress_room = [0; STRESS_ROOM];
    let mut shares_room = [0; MEMBER_ROOM];
    let stress = read_sheet(rt, 3, &mut stress_room).unwrap_or(b"");
    let shares = read_sheet(rt, 4, &mut shares_room).unwrap_or(b"");
    if accepted(stress, shares) {
        repeat(turns, stress, shares)
    } else {
        0
    }
}
