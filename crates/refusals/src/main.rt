// Every refusal of sizing, of the drill calls and of ranges, obtained from compiled code, also where two apply: a test that prints each number and position.
// The cases are the lines of the file stdin; `rt ci` holds what is printed to the file stdout, which was written from documents 01 and 02. A line
// has a label, what is called, the numbers that it is called with, and bytes in hexadecimal:
//
//     LABEL: size P V SLIP / STRESS SHEET | SHARES SHEET    the slip has SLIP numbers
//     LABEL: open G / REGISTER SHEET
//     LABEL: default MEMBER POOLS LOSS1 LOSS2 LOSS3 LOSS4 COUNT SLIP / RANKS; RANKS; ..
//                                                           COUNT ranks are handed over, 255 where a pool's RANKS say nothing
//     LABEL: range MEMBER LOW HIGH COUNT SLIP / RANKS
//     LABEL: payment MEMBER AMOUNT
//     LABEL: replenishment MEMBER AMOUNT
//     LABEL: close
//
// A line without a label prints nothing: it makes the register that the calls below it are tried on. A call with a label hands nothing on. A refusal
// that altered a slip or a register is told, and so is a refused opening that handed back a member or a tranche.
#![tactic(auto)]

ghost use Rattle.std.specs.Prelude.{◌≤◌, length};
ghost use Rattle.cases.specs.Handed.{ranks_handed, slip_handed};

use cases::{Called, Case, bytes, cut, read_case};
use drill::{DrillCall, apply};
use lists::MISSING_RANK;
use ranges::{Losses, range};
use refusal::Refusal;
use std::io::{Print, Read};
use waterfall::Register;
use waterfall::opening::open;

// A slip as it is lent, of which a case hands over as many numbers as it says.
const LENT: [u64; 258] = [7; 258];

// Says what was answered, and where a refusal altered what it was lent.
fn say(rt: &impl Print, label: &[u8], refusal: Option<Refusal>, kept: bool) {
    let (number, position) = refusal.map_or(
        (0, 0),
        |refusal| (refusal.number(), refusal.position()),
    );
    if !label.is_empty() {
        let _ = rt.write_all(label);
        let _ = println!(rt; ": {number} {position}");
    }
    if refusal.is_some() && !kept {
        let _ = println!(rt; "a refusal altered a slip or a register");
    }
}

fn size(rt: &impl Print, case: Case<'_>, prevailing: u64, available: u64, lent: usize)
    requires { lent ≤ 258 }
{
    let (stress, shares) = cut(case.digits, b'|');
    let mut stress_room = [0; 320];
    let mut shares_room = [0; 320];
    let mut slip = LENT;
    let sized = sizing::size(
        bytes(&mut stress_room, stress),
        bytes(&mut shares_room, shares),
        prevailing,
        available,
        &mut slip[..lent],
    );
    say(rt, case.label, sized.err(), slip == LENT);
}

// A refused opening hands back what the opening of nothing does.
fn opening(rt: &impl Print, case: Case<'_>, own: u64) -> Register {
    let mut room = [0; 320];
    let opened = open(bytes(&mut room, case.digits), own);
    let nothing = open(b"", 0);
    say(
        rt,
        case.label,
        opened.refusal,
        opened.register == nothing.register,
    );
    opened.register
}

// The ranks of up to five pools, 64 bytes each; 255 where a pool's say nothing.
fn ranks_of(digits: &[u8]) -> [u8; 320] {
    let mut ranks = [MISSING_RANK; 320];
    bytes(&mut ranks, digits);
    ranks
}

// A call of a drill. The register that is kept is the new one where there is no label.
fn drill(
    rt: &impl Print,
    case: Case<'_>,
    call: DrillCall,
    count: usize,
    lent: usize,
    register: Register,
) -> Register
    requires { (count ≤ 320) × (lent ≤ 258) }
{
    let ranks = ranks_of(case.digits);
    let mut slip = LENT;
    let outcome = apply(register, call, &ranks[..count], &mut slip[..lent]);
    let kept = slip == LENT && outcome.register == register;
    say(rt, case.label, outcome.reply.err(), kept);
    if case.label.is_empty() {
        outcome.register
    } else {
        register
    }
}

// A range of losses, on a register that it cannot alter.
fn ranged(
    rt: &impl Print,
    case: Case<'_>,
    member: u64,
    losses: Losses,
    count: usize,
    lent: usize,
    register: &Register,
)
    requires { (count ≤ 320) × (lent ≤ 258) }
{
    let ranks = ranks_of(case.digits);
    let mut slip = LENT;
    let answer = range(register, member, losses, &ranks[..count], &mut slip[..lent]);
    say(rt, case.label, answer.err(), slip == LENT);
}

fn run(rt: &impl Print, case: Case<'_>, register: Register) -> Register
    requires { (ranks_handed case.called ≤ 320) × (slip_handed case.called ≤ 258) }
{
    match case.called {
        Called::Size {
            prevailing,
            available,
            slip,
        } => {
            size(rt, case, prevailing, available, slip);
            register
        }
        Called::Open { own } => opening(rt, case, own),
        Called::Drill { call, ranks, slip } => drill(rt, case, call, ranks, slip, register),
        Called::Range {
            member,
            losses,
            ranks,
            slip,
        } => {
            ranged(rt, case, member, losses, ranks, slip, &register);
            register
        }
    }
}

fn run_all(rt: &impl Print, cases: &[u8]) {
    let mut register = open(b"", 0).register;
    for line in cases.split(|byte| *byte == b'\n') {
        if let Some(case) = read_case(line) {
            register = run(rt, case, register);
        }
    }
}

// Reads the cases to their end, to a read that fails, or until the room is used up. Answers the part of the room that is filled, also where a read
// failed. (`read_all` of `files` says nothing then of what it read.)
fn read_cases<'a>(input: &mut impl Read, room: &'a mut [u8]) -> &'a [u8]
    ensures { length result.now ≤ length room.old }
{
    let mut done = 0;
    while done < room.len() {
        match input.read(&mut room[done..]) {
            Ok(0) | Err(_) => break,
            Ok(n) => done += n,
        }
    }
    &room[..done]
}

fn main(rt: HostRuntime) {
    let mut room = [0; 65536];
    run_all(&rt, read_cases(&mut rt.reader(), &mut room));
}
