// Turns comma-separated lines on standard input into a sheet of 16-byte records on standard output. KIND says which sheet.
//
// A sheet has at most 4,096 records. Where the lines have more, 4,097 are written: such a sheet is overlong, as it would be with all of them.
#![tactic(auto)]

use input::{Lines, State};
use lists::STRESS_ROOM;
use rows::{Kind, Record, kind_named, read_row};
use std::io::{Eprint, Input, Print};
use std::rt::Env;
use text::Text;
use words::Unreadable;

// Puts a record behind the others, while there is room.
fn add(sheet: &mut Text<STRESS_ROOM>, record: Record) {
    if sheet.len() + 16 <= STRESS_ROOM {
        sheet.put(&record.bytes());
    }
}

// Adds what a line says. Where it is unreadable there is a word on standard error.
fn take(
    rt: &impl Eprint,
    kind: Kind,
    number: u64,
    line: Result<&[u8], Unreadable>,
    sheet: &mut Text<STRESS_ROOM>,
) -> Option<()> {
    match line.and_then(|line| read_row(kind, line)) {
        Ok(Some(record)) => add(sheet, record),
        Ok(None) => {}
        Err(Unreadable) => {
            let _ = eprintln!(rt; "unreadable line {number}");
            return None;
        }
    }
    Some(())
}

// Puts the records of the lines into a sheet. None where not all are read. Turns are counted, since a loop has to be shown to end: no input has so many lines
// and reads. (run_drill has a loop like it, and writes before each read; one function for both would be handed what is done with a line and what before a
// read.)
fn read_lines(rt: &(impl Input + Eprint), kind: Kind, sheet: &mut Text<STRESS_ROOM>) -> Option<()> {
    let mut lines = Lines::new();
    for _turn in 0..u64::MAX {
        let number = lines.number();
        match lines.next() {
            Some(line) => take(rt, kind, number, line, sheet)?,
            None => {
                if lines.state() == State::Ended {
                    return Some(());
                }
                lines.read_on(rt);
                if lines.state() == State::Failed {
                    return None;
                }
            }
        }
    }
    None
}

fn make(rt: &(impl Input + Print + Eprint), kind: Kind) {
    let mut sheet = Text::new();
    if read_lines(rt, kind, &mut sheet).is_some() {
        output::tell(rt, rt.write_all(sheet.as_bytes()));
    }
}

// The kind of sheet that the only argument names.
fn kind(rt: &impl Env) -> Option<Kind> {
    if files::arg_count(rt) != 2 {
        return None;
    }
    let mut word = [0u8; 16];
    kind_named(files::argument(rt, 1, &mut word)?)
}

fn main(rt: HostRuntime) {
    match kind(&rt) {
        Some(kind) => make(&rt, kind),
        None => {
            let _ = eprintln!(rt; "usage: make_sheet register|shares|stress");
        }
    }
}
