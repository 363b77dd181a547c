// A register as text.
#![tactic(auto)]

ghost use Rattle.std.specs.Prelude.{◌≡◌, ◌+◌, ◌*◌, ◌≤◌, ◌++◌, length};
ghost use Rattle.print_register.specs.Texts.{figures_text, row_text, members_text, register_text};

use figures::Status;
use lists::LAST_MEMBER;
use text::Text;
use waterfall::Register;
use waterfall::view::MemberView;

// A member's figures, to the end of its row.
#[tactic(auto, using(text::proofs::Putting::put_more), unfolding(crate::specs::Texts::figures_text))]
fn put_figures<const N: usize>(out: &mut Text<N>, v: MemberView)
    requires { length out.old + 182 ≤ N }
    ensures bytes { out.new ≡ out.old ++ figures_text v }
    ensures len { length out.new ≤ length out.old + 182 }
{
    // A list of labels and numbers to put in a loop would be as long.
    out.put_labelled(b" margin ", v.margin);
    out.put_labelled(b" contribution ", v.contribution);
    out.put_labelled(b" requirement ", v.requirement);
    out.put_labelled(b" cap ", v.cap);
    out.put_labelled(b" outstanding ", v.outstanding);
    out.put_labelled(b" called ", v.called);
    out.put(b"\n");
}

// The row of a member, where it is in the register.
#[tactic(auto, unfolding(crate::specs::Texts::row_text))]
fn put_row<const N: usize>(out: &mut Text<N>, number: u64, v: MemberView)
    requires { length out.old + 219 ≤ N }
    ensures bytes { out.new ≡ out.old ++ row_text v.status number v }
    ensures len { length out.new ≤ length out.old + 219 }
{
    let standing: &[u8] = match v.status {
        Status::Absent => return,
        Status::Live => b" live",
        Status::InDefault => b" default",
    };
    out.put_labelled(b"  member ", number);
    out.put(standing);
    put_figures(out, v);
}

// The members of the sheet.
#[tactic(auto, unfolding(crate::specs::Texts::members_text))]
fn put_members<const N: usize>(out: &mut Text<N>, register: &Register)
    requires { length out.old + 64 * 219 ≤ N }
    ensures bytes { out.new ≡ out.old ++ members_text register.now 64 }
    ensures len { length out.new ≤ length out.old + 64 * 219 }
{
    for number in 1..=LAST_MEMBER {
        put_row(out, number, register.member(number));
    }
}

/// Puts a register.
pub fn put_register<const N: usize>(out: &mut Text<N>, register: &Register)
    requires { length out.old + 16384 ≤ N }
    ensures bytes { out.new ≡ out.old ++ register_text register.now }
    ensures len { length out.new ≤ length out.old + 16384 }
{
    let own = register.tranches();
    out.put_labelled(b"register tranche1 ", own.tranche1);
    out.put_labelled(b" tranche2 ", own.tranche2);
    out.put(b"\n");
    put_members(out, register);
}
