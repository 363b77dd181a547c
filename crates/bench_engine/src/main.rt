// Runs one case of the benchmarks so many times and prints a checksum of the answers, which must equal the Rust implementation's.
// The cases: ranked, tied, calls, pools, range and page REPS; whole, alone and ordinary REPS, the engine's split, and with `old_` before them the old one; and
// sizing REPS STRESS SHARES.
#![tactic(auto)]

mod pages;
mod sizings;

use bench_defaults::{Case, measured, range};
use bench_splits::{Case as Split, Side, measured as measured_split};
use files::{arg_count, argument};
use numbers::read_number;
use std::io::Eprint;
use std::rt::{Env, Files};

// The checksum of a case, where there is one of that name with so many arguments.
fn checksum(rt: &(impl Env + Files + Eprint), case: &[u8], turns: u64) -> Option<u64> {
    match (case, arg_count(rt)) {
        (b"ranked", 3) => Some(measured(Case::Ranked, turns)),
        (b"tied", 3) => Some(measured(Case::Tied, turns)),
        (b"calls", 3) => Some(measured(Case::Calls, turns)),
        (b"pools", 3) => Some(measured(Case::Pools, turns)),
        (b"range", 3) => Some(range::measured(turns)),
        (b"page", 3) => Some(pages::run(turns)),
        (b"whole", 3) => Some(measured_split(Side::Engine, Split::Whole, turns)),
        (b"alone", 3) => Some(measured_split(Side::Engine, Split::Alone, turns)),
        (b"ordinary", 3) => Some(measured_split(Side::Engine, Split::Ordinary, turns)),
        (b"old_whole", 3) => Some(measured_split(Side::Old, Split::Whole, turns)),
        (b"old_alone", 3) => Some(measured_split(Side::Old, Split::Alone, turns)),
        (b"old_ordinary", 3) => Some(measured_split(Side::Old, Split::Ordinary, turns)),
        (b"sizing", 5) => Some(sizings::run(rt, turns)),
        _ => None,
    }
}

fn asked(rt: &(impl Env + Files + Eprint)) -> Option<u64> {
    let mut case = [0; 16];
    let case = argument(rt, 1, &mut case)?;
    let mut word = [0; 32];
    let turns = read_number(argument(rt, 2, &mut word)?)?;
    checksum(rt, case, turns)
}

fn main(rt: HostRuntime) {
    match asked(&rt) {
        Some(sum) => {
            let _ = println!(rt; "{sum}");
        }
        None => {
            let _ = eprintln!(rt;
                "usage: bench_engine ranked|tied|calls|pools|range|page REPS\n       bench_engine [old_](whole|alone|ordinary) REPS\n       bench_engine sizing REPS STRESS SHARES"
            );
        }
    }
}
