// Answers kept one behind the other and written to standard output.
#![tactic(auto)]

ghost use Rattle.std.specs.Prelude.{◌≡◌, ◌+◌, ◌≤◌, [], length, is_ok};

use std::io;
use std::io::{Eprint, Print};
use text::Text;

/// Writes the text, and starts again with nothing, also where writing failed.
pub fn write_out<const N: usize>(rt: &impl Print, text: &mut Text<N>) -> io::Result<()>
    ensures { text.new ≡ [] }
{
    let written = rt.write_all(text.as_bytes());
    text.clear();
    written
}

/// Whether standard output was written. Where it was not, standard error says why. (A bool, for its contract: a printed line is no promise.)
pub fn tell(rt: &impl Eprint, written: io::Result<()>) -> bool
    ensures { result ≡ is_ok written }
{
    match written {
        Ok(()) => true,
        Err(why) => {
            let _ = eprintln!(rt; "standard output: {why}");
            false
        }
    }
}

/// Writes the text where there is no room behind it for so many bytes.
pub fn make_room<const N: usize>(rt: &impl Print, text: &mut Text<N>, room: usize) -> io::Result<()>
    ensures { room ≤ N → length text.new + room ≤ N }
{
    if N - text.len() < room {
        return write_out(rt, text);
    }
    Ok(())
}
