// What a console host in C calls: see crates/host/host.h. Each export calls the function of its name in `host`, and promises the same: a crate is a
// library or a static library, not both.
#![tactic(auto)]

ghost use Rattle.std.specs.Prelude.{◌≡◌, length};
ghost use Rattle.sizing.specs.Review.{review_due};
ghost use Rattle.waterfall.specs.Opening.{opened_of};
ghost use Rattle.refusal.specs.Refusal.{refused_number};
ghost use Rattle.page.specs.Page.{page_refusal, page_left};
ghost use Rattle.host.specs.Host.{answer_of};

use host::DefaultAnswer;

// Whether a review is triggered.
#[unsafe(no_mangle)]
pub extern "C" fn review_due(cover: u64, target: u64) -> bool
    ensures { result ≡ review_due cover target }
{
    host::review_due(cover, target)
}

// The refusal number of a register sheet. C may hand over a null with length 0.
#[unsafe(no_mangle)]
pub extern "C" fn register_refusal(sheet: &[u8], own: u64) -> u8
    ensures { result ≡ refused_number (opened_of sheet.now own).refusal }
{
    host::register_refusal(sheet, own)
}

// The page of a default's answer. C may hand over a null with length 0.
#[unsafe(no_mangle)]
pub extern "C" fn print_page(answer: DefaultAnswer, page: &mut [u8]) -> u8
    ensures value { result ≡ refused_number (page_refusal (answer_of answer) (length page.old)) }
    ensures page_after { page.new ≡ page_left (answer_of answer) page.old }
{
    host::print_page(answer, page)
}
