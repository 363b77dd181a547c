// What a range of losses would take, as text.
#![tactic(auto)]

ghost use Rattle.std.specs.Prelude.{◌≡◌, ◌+◌, ◌*◌, ◌≤◌, ◌++◌, length};
ghost use Rattle.print_ranges.specs.Texts.{ends_text, member_text, members_text, range_text};

use lists::MEMBER_LIMIT;
use print_answers::{put_layers, put_refused};
use ranges::Ranges;
use refusal::Refusal;
use text::Text;

#[tactic(auto, unfolding(crate::specs::Texts::ends_text))]
fn put_ends<const N: usize>(out: &mut Text<N>, ranges: Ranges)
    requires { length out.old + 338 ≤ N }
    ensures bytes { out.new ≡ out.old ++ ends_text ranges }
    ensures len { length out.new ≤ length out.old + 338 }
{
    out.put(b"accepted low");
    put_layers(out, ranges.low);
    out.put(b" high");
    put_layers(out, ranges.high);
    out.put(b"\n");
}

// The low and the high of a member's charge and of its call, each a pair, where a high is above zero.
#[tactic(auto, unfolding(crate::specs::Texts::member_text, lists::specs::Checks::check))]
fn put_member<const N: usize>(
    out: &mut Text<N>,
    member: u64,
    charges: (u64, u64),
    calls: (u64, u64),
)
    requires { length out.old + 135 ≤ N }
    ensures bytes { out.new ≡ out.old ++ member_text member charges calls }
    ensures len { length out.new ≤ length out.old + 135 }
{
    if (charges.1 == 0) & (calls.1 == 0) {
        return;
    }
    out.put_labelled(b"  member ", member);
    out.put_labelled(b" charged ", charges.0);
    out.put_labelled(b" to ", charges.1);
    out.put_labelled(b" called ", calls.0);
    out.put_labelled(b" to ", calls.1);
    out.put(b"\n");
}

// What a slip says of each member.
#[tactic(auto, unfolding(crate::specs::Texts::members_text))]
fn put_members<const N: usize>(out: &mut Text<N>, slip: &[u64; 256])
    requires { length out.old + 64 * 135 ≤ N }
    ensures bytes { out.new ≡ out.old ++ members_text slip.now 64 }
    ensures len { length out.new ≤ length out.old + 64 * 135 }
{
    for place in 0..MEMBER_LIMIT {
        let charges = (slip[place], slip[place + 128]);
        let calls = (slip[place + 64], slip[place + 192]);
        put_member(out, place as u64 + 1, charges, calls);
    }
}

/// Puts the answer to a range, with the slip that it left.
pub fn put_range<const N: usize>(
    out: &mut Text<N>,
    answer: Result<Ranges, Refusal>,
    slip: &[u64; 256],
)
    requires { length out.old + 9216 ≤ N }
    ensures bytes { out.new ≡ out.old ++ range_text answer slip.now }
    ensures len { length out.new ≤ length out.old + 9216 }
{
    match answer {
        Err(refusal) => put_refused(out, refusal),
        Ok(ranges) => {
            put_ends(out, ranges);
            put_members(out, slip);
        }
    }
}
