// What a console host calls. host_c exports it to C: see host.h.
#![tactic(auto)]

ghost use Rattle.std.specs.Prelude.{◌≡◌, length};
ghost use Rattle.sizing.specs.Review.{review_due};
ghost use Rattle.waterfall.specs.Opening.{opened_of};
ghost use Rattle.refusal.specs.Refusal.{refused_number};
ghost use Rattle.page.specs.Page.{page_refusal, page_left};
ghost use Rattle.host.specs.Host.{answer_of};

use refusal::Refusal;
use waterfall::Allocation;

// Whether a review is triggered: 100C is more than 80A, for any two numbers.
pub fn review_due(cover: u64, target: u64) -> bool
    ensures { result ≡ review_due cover target }
{
    sizing::review_due(cover, target)
}

// 0 stands in C where nothing is refused.
fn number_of(refusal: Option<Refusal>) -> u8
    ensures { result ≡ refused_number refusal }
{
    refusal.map_or(0, Refusal::number)
}

// "For a register sheet and G it is given the refusal number alone, 0 if accepted." An empty sheet is refused with 1 before a byte of it is read: C may
// hand over a null with length 0.
pub fn register_refusal(sheet: &[u8], own: u64) -> u8
    ensures { result ≡ refused_number (opened_of sheet.now own).refusal }
{
    let opened = waterfall::opening::open(sheet, own);
    number_of(opened.refusal)
}

// The six layers of a default's answer and its shortfall, in thousands of rupees.
#[repr(C)]
#[derive(Clone, Copy)]
pub struct DefaultAnswer {
    pub margin: u64,
    pub contribution: u64,
    pub tranche1: u64,
    pub members: u64,
    pub tranche2: u64,
    pub calls: u64,
    pub short: u64,
}

// The fallen call is not on a page.
impl From<DefaultAnswer> for Allocation {
    ghost from_gives = { λ answer allocation. allocation ≡ answer_of answer };

    fn from(answer: DefaultAnswer) -> Allocation {
        Allocation {
            fallen: 0,
            margin: answer.margin,
            contribution: answer.contribution,
            tranche1: answer.tranche1,
            members: answer.members,
            tranche2: answer.tranche2,
            calls: answer.calls,
            short: answer.short,
        }
    }
}

// The page of a default's answer, put into the front of the lent one: 0, or 20 where it is refused and nothing is written. C may hand over a null with
// length 0.
pub fn print_page(answer: DefaultAnswer, page: &mut [u8]) -> u8
    ensures value { result ≡ refused_number (page_refusal (answer_of answer) (length page.old)) }
    ensures page_after { page.new ≡ page_left (answer_of answer) page.old }
{
    number_of(page::print(answer.into(), page).err())
}
