// The arguments and the sheet files of the console programs.
#![tactic(auto)]

ghost use Rattle.std.specs.Prelude.{◌<◌, ◌≤◌, ◌^◌, length, IfOk, OnSome};
ghost use Rattle.std.specs.Option.{IfSome};

use std::env::FillError;
use std::io::{Eprint, Read};
use std::rt::{Env, Files};
use std::{fs, io};

// The system's number for a name that is too long. The kind of error of that name would be told in other words than the system's.
const NAME_TOO_LONG: i32 = 36;

// Writes a line to standard error: what failed, a colon and the reason. (std's `from_utf8_lossy` asks for memory.)
fn fail(rt: &impl Eprint, what: &[u8], why: io::Error) {
    for part in what.utf8_chunks() {
        let _ = rt.eprint(part.valid());
        if !part.invalid().is_empty() {
            let _ = rt.eprint(char::REPLACEMENT_CHARACTER);
        }
    }
    let _ = eprintln!(rt; ": {why}");
}

/// How many arguments the program was started with, its own name among them. No contract can say which they are. They are counted, since `args` of std
/// asks for memory.
pub fn arg_count(rt: &impl Env) -> usize
    ensures { result < 2 ^ 64 }
{
    for i in 0..usize::MAX {
        if let Err(FillError::NotPresent) = rt.arg(i, &mut []) {
            return i;
        }
    }
    usize::MAX
}

/// An argument, where there is one and room for it. What it says fits the room, here and below: that is all that a caller can know of it.
pub fn argument<'a>(rt: &impl Env, i: usize, room: &'a mut [u8]) -> Option<&'a [u8]>
    ensures { IfSome result (λ word. length word.now ≤ length room.old) }
{
    let n = rt.arg(i, room).ok()?;
    Some(&room[..n])
}

/// An argument as a number. Linux takes no longer argument than there is room for.
pub fn number_at(rt: &impl Env, i: usize) -> Option<u64>
    ensures { IfSome result (λ v. v < 2 ^ 64) }
{
    let mut word = [0u8; 131072];
    numbers::read_number(argument(rt, i, &mut word)?)
}

/// The last `N` of the program's arguments as numbers, where it was started with `count`, its own name among them, and each of these is a number. No
/// contract can say which they are.
pub fn numbers<const N: usize>(rt: &impl Env, count: usize) -> Option<[u64; N]>
    ensures { OnSome result (N ≤ count) }
{
    if arg_count(rt) != count {
        return None;
    }
    let first = count.checked_sub(N)?;
    let mut numbers = [0; N];
    for (place, number) in numbers.iter_mut().enumerate() {
        *number = number_at(rt, first + place)?;
    }
    Some(numbers)
}

/// Reads to the end, or until the room is used up. Answers the part of the room that is filled. (`read_exact` fails at the end, and `read_to_end` asks
/// for memory.)
pub fn read_all<'a>(file: &mut impl Read, room: &'a mut [u8]) -> io::Result<&'a [u8]>
    ensures { IfOk result (λ filled. length filled.now ≤ length room.old) }
{
    let mut done = 0;
    while done < room.len() {
        let n = file.read(&mut room[done..])?;
        if n == 0 {
            break;
        }
        done += n;
    }
    Ok(&room[..done])
}

// A name that is no text names no file.
fn read_named<'a>(rt: &impl Files, name: &[u8], room: &'a mut [u8]) -> io::Result<&'a [u8]>
    ensures { IfOk result (λ filled. length filled.now ≤ length room.old) }
{
    let Ok(path) = str::from_utf8(name) else {
        return Err(io::Error::from(io::ErrorKind::InvalidFilename));
    };
    let mut file = fs::open(rt, path)?;
    read_all(&mut file, room)
}

/// The file that an argument names, as far as there is room: a sheet with a record more than it may have is overlong, as it would be with all of them.
/// Where it cannot be read there is a word on standard error.
pub fn read_sheet<'a>(
    rt: &(impl Env + Files + Eprint),
    i: usize,
    room: &'a mut [u8],
) -> Option<&'a [u8]>
    ensures { IfSome result (λ sheet. length sheet.now ≤ length room.old) }
{
    let mut name = [0u8; 4096];
    let Ok(n) = rt.arg(i, &mut name) else {
        fail(rt, &name, io::Error::from_raw_os_error(NAME_TOO_LONG));
        return None;
    };
    match read_named(rt, &name[..n], room) {
        Ok(sheet) => Some(sheet),
        Err(why) => {
            fail(rt, &name[..n], why);
            None
        }
    }
}
