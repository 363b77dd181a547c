// A refusal as text, and what became of an opening.
#![tactic(auto)]

ghost use Rattle.std.specs.Prelude.{◌≡◌, ◌+◌, ◌≤◌, ◌++◌, length};
ghost use Rattle.print_refusal.specs.Texts.{record_text, refusal_text, opening_text};

use refusal::Refusal;
use text::Text;

// The record of a refusal, where it has one.
#[tactic(auto, unfolding(crate::specs::Texts::record_text))]
fn put_record<const N: usize>(out: &mut Text<N>, refusal: Refusal)
    requires { length out.old + 28 ≤ N }
    ensures bytes { out.new ≡ out.old ++ record_text refusal }
    ensures len { length out.new ≤ length out.old + 28 }
{
    if let Refusal::Record { position, .. } = refusal {
        out.put_labelled(b" record ", position as u64);
    }
}

/// Puts a refusal, a line of its own.
#[tactic(auto, unfolding(crate::specs::Texts::refusal_text))]
pub fn put_refusal<const N: usize>(out: &mut Text<N>, refusal: Refusal)
    requires { length out.old + 57 ≤ N }
    ensures bytes { out.new ≡ out.old ++ refusal_text refusal }
    ensures len { length out.new ≤ length out.old + 57 }
{
    out.put_labelled(b"refused ", u64::from(refusal.number()));
    put_record(out, refusal);
    out.put(b"\n");
}

/// Puts the opening's answer.
#[tactic(auto, unfolding(crate::specs::Texts::opening_text))]
pub fn put_opening<const N: usize>(out: &mut Text<N>, refusal: Option<Refusal>)
    requires { length out.old + 65 ≤ N }
    ensures bytes { out.new ≡ out.old ++ opening_text refusal }
    ensures len { length out.new ≤ length out.old + 65 }
{
    match refusal {
        Some(refusal) => {
            out.put(b"opening ");
            put_refusal(out, refusal);
        }
        None => out.put(b"opening accepted\n"),
    }
}
