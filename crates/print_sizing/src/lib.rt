// A sizing's answer as text.
#![tactic(auto)]

ghost use Rattle.std.specs.Prelude.{◌≡◌, ◌+◌, ◌*◌, ◌≤◌, ◌++◌, length};
ghost use Rattle.print_sizing.specs.Texts.{figures_text, requirement_text, requirements_text, sized_text};

use lists::MEMBER_LIMIT;
use print_refusal::put_refusal;
use refusal::Refusal;
use sizing::Sized;
use text::Text;

#[tactic(auto, unfolding(crate::specs::Texts::figures_text))]
fn put_figures<const N: usize>(out: &mut Text<N>, s: Sized)
    requires { length out.old + 200 ≤ N }
    ensures bytes { out.new ≡ out.old ++ figures_text s }
    ensures len { length out.new ≤ length out.old + 200 }
{
    // A list of labels and numbers to put in a loop would be as long.
    out.put_labelled(b"accepted C ", s.cover);
    out.put_labelled(b" W ", s.weak);
    out.put_labelled(b" A ", s.target);
    out.put_labelled(b" B ", s.minimum);
    out.put_labelled(b" b1 ", s.highest);
    out.put_labelled(b" own ", s.own);
    out.put_labelled(b" D ", s.quantum);
    out.put(b"\n");
}

// A member's requirement, where it has one.
#[tactic(auto, unfolding(crate::specs::Texts::requirement_text, lists::specs::Checks::check))]
fn put_requirement<const N: usize>(out: &mut Text<N>, member: u64, requirement: u64)
    requires { length out.old + 63 ≤ N }
    ensures bytes { out.new ≡ out.old ++ requirement_text member requirement }
    ensures len { length out.new ≤ length out.old + 63 }
{
    if requirement == 0 {
        return;
    }
    out.put_labelled(b"  member ", member);
    out.put_labelled(b" requirement ", requirement);
    out.put(b"\n");
}

// What a slip says of each member.
#[tactic(auto, unfolding(crate::specs::Texts::requirements_text))]
fn put_requirements<const N: usize>(out: &mut Text<N>, slip: &[u64])
    requires { (length out.old + 64 * 63 ≤ N) × (64 ≤ length slip.now) }
    ensures bytes { out.new ≡ out.old ++ requirements_text slip.now 64 }
    ensures len { length out.new ≤ length out.old + 64 * 63 }
{
    for (place, requirement) in slip[..MEMBER_LIMIT].iter().enumerate() {
        put_requirement(out, place as u64 + 1, *requirement);
    }
}

/// Puts a sizing's answer, with the slip that the sizing left.
#[tactic(auto, unfolding(crate::specs::Texts::sized_text))]
pub fn put_sized<const N: usize>(out: &mut Text<N>, sized: Result<Sized, Refusal>, slip: &[u64])
    requires { (length out.old + 8192 ≤ N) × (64 ≤ length slip.now) }
    ensures bytes { out.new ≡ out.old ++ sized_text sized slip.now }
    ensures len { length out.new ≤ length out.old + 8192 }
{
    match sized {
        Err(refusal) => put_refusal(out, refusal),
        Ok(figures) => {
            put_figures(out, figures);
            put_requirements(out, slip);
        }
    }
}
