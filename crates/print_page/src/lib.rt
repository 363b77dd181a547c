// The page of the latest accepted default as run_drill prints it.
#![tactic(auto)]

ghost use Rattle.std.specs.Prelude.{◌≡◌, ◌+◌, ◌≤◌, ◌++◌, length};
ghost use Rattle.page.specs.Page.{page_length, page_of};
ghost use Rattle.print_page.specs.Texts.{latest_of, page_text};
ghost use Rattle.print_page.specs.Parts.{Printable};

use page::lines;
use text::Text;
use waterfall::{Allocation, Reply};

/// What the latest accepted default answered, if there has been one, once one more call has been answered.
pub fn latest_of(latest: Option<Allocation>, reply: Reply) -> Option<Allocation>
    ensures { result ≡ latest_of latest reply }
{
    reply.ok().flatten().or(latest)
}

fn put_allocation<const N: usize>(out: &mut Text<N>, allocation: Allocation)
    requires { (length out.old + page_length ≤ N) × Printable (Some allocation) }
    ensures bytes { out.new ≡ out.old ++ page_of allocation }
    ensures len { length out.new ≡ length out.old + page_length }
{
    out.put(lines(allocation).as_flattened());
}

/// Puts the page of the latest default.
pub fn put_page<const N: usize>(out: &mut Text<N>, latest: Option<Allocation>)
    requires { (length out.old + 328 ≤ N) × Printable latest }
    ensures bytes { out.new ≡ out.old ++ page_text latest }
    ensures len { length out.new ≤ length out.old + 328 }
{
    match latest {
        None => out.put(b"no page\n"),
        Some(allocation) => put_allocation(out, allocation),
    }
}
