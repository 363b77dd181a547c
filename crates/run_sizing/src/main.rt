// Sizes the fund from a stress sheet and a shares sheet.
#![tactic(auto)]

use files::{numbers, read_sheet};
use lists::{MEMBER_ROOM, STRESS_ROOM};
use std::io;
use std::io::{Eprint, Print};
use std::rt::{Env, Files};
use text::Text;

fn size(
    rt: &impl Print,
    stress: &[u8],
    shares: &[u8],
    prevailing: u64,
    available: u64,
) -> io::Result<()> {
    let mut slip = [0; 64];
    let sized = sizing::size(stress, shares, prevailing, available, &mut slip);
    let mut text = Text::<8192>::new();
    print_sizing::put_sized(&mut text, sized, &slip);
    output::write_out(rt, &mut text)
}

fn read_and_size(rt: &(impl Env + Files + Print + Eprint), prevailing: u64, available: u64) {
    let mut stress = [0; STRESS_ROOM];
    let Some(stress) = read_sheet(rt, 1, &mut stress) else {
        return;
    };
    let mut shares = [0; MEMBER_ROOM];
    let Some(shares) = read_sheet(rt, 2, &mut shares) else {
        return;
    };
    output::tell(rt, size(rt, stress, shares, prevailing, available));
}

fn main(rt: HostRuntime) {
    let Some(numbers) = numbers::<2>(&rt, 5) else {
        let _ = eprintln!(&rt; "usage: run_sizing STRESS SHARES P V");
        return;
    };
    let [prevailing, available] = numbers;
    read_and_size(&rt, prevailing, available);
}
