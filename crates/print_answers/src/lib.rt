// The answers of a drill as text.
#![tactic(auto)]

ghost use Rattle.std.specs.Prelude.{◌≡◌, ◌+◌, ◌*◌, ◌≤◌, ◌++◌, length};
ghost use Rattle.print_answers.specs.Texts.{unreadable_text, layers_text, allocation_text, charge_text, charges_text, refused_text, reply_text};

use lists::MEMBER_LIMIT;
use refusal::Refusal;
use text::Text;
use waterfall::{Allocation, Reply};

/// Puts that a line of the drill is unreadable.
#[tactic(auto, unfolding(crate::specs::Texts::unreadable_text))]
pub fn put_unreadable<const N: usize>(out: &mut Text<N>, line: u64)
    requires { length out.old + 37 ≤ N }
    ensures bytes { out.new ≡ out.old ++ unreadable_text line }
    ensures len { length out.new ≤ length out.old + 37 }
{
    out.put_labelled(b"unreadable line ", line);
    out.put(b"\n");
}

/// Puts the six layers and the shortfall.
#[tactic(auto, unfolding(crate::specs::Texts::layers_text))]
pub fn put_layers<const N: usize>(out: &mut Text<N>, a: Allocation)
    requires { length out.old + 160 ≤ N }
    ensures bytes { out.new ≡ out.old ++ layers_text a }
    ensures len { length out.new ≤ length out.old + 160 }
{
    // A list of labels and numbers to put in a loop would be as long.
    out.put_labelled(b" layers ", a.margin);
    out.put_labelled(b" ", a.contribution);
    out.put_labelled(b" ", a.tranche1);
    out.put_labelled(b" ", a.members);
    out.put_labelled(b" ", a.tranche2);
    out.put_labelled(b" ", a.calls);
    out.put_labelled(b" short ", a.short);
}

#[tactic(auto, unfolding(crate::specs::Texts::allocation_text))]
fn put_allocation<const N: usize>(out: &mut Text<N>, a: Allocation)
    requires { length out.old + 200 ≤ N }
    ensures bytes { out.new ≡ out.old ++ allocation_text a }
    ensures len { length out.new ≤ length out.old + 200 }
{
    out.put_labelled(b"accepted fallen ", a.fallen);
    put_layers(out, a);
    out.put(b"\n");
}

// A member's charge and call, where it has one.
#[tactic(auto, unfolding(crate::specs::Texts::charge_text, lists::specs::Checks::check))]
fn put_charge<const N: usize>(out: &mut Text<N>, member: u64, charge: u64, call: u64)
    requires { length out.old + 87 ≤ N }
    ensures bytes { out.new ≡ out.old ++ charge_text member charge call }
    ensures len { length out.new ≤ length out.old + 87 }
{
    if (charge == 0) & (call == 0) {
        return;
    }
    out.put_labelled(b"  member ", member);
    out.put_labelled(b" charged ", charge);
    out.put_labelled(b" called ", call);
    out.put(b"\n");
}

// What a slip says of each member.
#[tactic(auto, unfolding(crate::specs::Texts::charges_text))]
fn put_charges<const N: usize>(out: &mut Text<N>, slip: &[u64])
    requires { (length out.old + 64 * 87 ≤ N) × (128 ≤ length slip.now) }
    ensures bytes { out.new ≡ out.old ++ charges_text slip.now 64 }
    ensures len { length out.new ≤ length out.old + 64 * 87 }
{
    let (charges, calls) = slip.split_at(MEMBER_LIMIT);
    for (place, (charge, call)) in charges.iter().zip(calls).enumerate() {
        put_charge(out, place as u64 + 1, *charge, *call);
    }
}

/// Puts the number of a refusal, none of which is of a record here: `print_refusal` puts the record as well.
pub fn put_refused<const N: usize>(out: &mut Text<N>, refusal: Refusal)
    requires { length out.old + 40 ≤ N }
    ensures bytes { out.new ≡ out.old ++ refused_text refusal }
    ensures len { length out.new ≤ length out.old + 40 }
{
    out.put_labelled(b"refused ", u64::from(refusal.number()));
    out.put(b"\n");
}

/// Puts a call's answer, with the slip that the call left.
pub fn put_reply<const N: usize>(out: &mut Text<N>, reply: Reply, slip: &[u64])
    requires { (length out.old + 8192 ≤ N) × (128 ≤ length slip.now) }
    ensures bytes { out.new ≡ out.old ++ reply_text reply slip.now }
    ensures len { length out.new ≤ length out.old + 8192 }
{
    match reply {
        Err(refusal) => put_refused(out, refusal),
        Ok(None) => out.put(b"accepted\n"),
        Ok(Some(allocation)) => {
            put_allocation(out, allocation);
            put_charges(out, slip);
        }
    }
}
