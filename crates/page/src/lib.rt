// A default's answer as a page for the wall: document 02, request 1.
#![tactic(auto)]

ghost use Rattle.std.specs.Prelude.{◌≡◌, ◌-◌, ◌≤◌, ◌++◌, length, take, drop, flat_map};
ghost use Rattle.lists.specs.Limits.{printed_limit};
ghost use Rattle.indian_digits.specs.IndianDigits.{indian_of};
ghost use Rattle.refusal.specs.Refusal.{answered};
ghost use Rattle.page.specs.Page.{amounts_of, any_above, heading, line, row_of, page_length, page_of, page_refusal, page_left};
ghost use Rattle.page.specs.Parts.{Within};

use indian_digits::put_amount;
use lists::PRINTED_LIMIT;
use refusal::Refusal;
use waterfall::Allocation;

/// A row of 40 bytes, and byte 10 behind it.
pub const LINE_LENGTH: usize = 41;

pub const PAGE_LENGTH: usize = 8 * LINE_LENGTH;

// Whether an amount is above what a page prints.
fn excessive(a: Allocation) -> bool
    ensures { result ≡ any_above printed_limit (amounts_of a) }
{
    let amounts = [
        a.margin,
        a.contribution,
        a.tranche1,
        a.members,
        a.tranche2,
        a.calls,
        a.short,
    ];
    amounts.iter().any(|amount| PRINTED_LIMIT < *amount)
}

// Whether an answer is printed on so many bytes.
#[tactic(auto, unfolding(lists::specs::Checks::check, crate::specs::Page::page_refusal))]
fn printable(a: Allocation, size: usize) -> Result<(), Refusal>
    ensures { result ≡ answered (page_refusal a size) tt }
{
    if size < PAGE_LENGTH || excessive(a) {
        return Err(Refusal::Unprintable);
    }
    Ok(())
}

// The page's lines with spaces where the amounts go.
const LINES: [[u8; LINE_LENGTH]; 8] = [
    *b"LAYER                        Rs THOUSAND\n",
    *b"MARGIN                                  \n",
    *b"OWN FUND                                \n",
    *b"TRANCHE 1                               \n",
    *b"MEMBERS                                 \n",
    *b"TRANCHE 2                               \n",
    *b"CALLS                                   \n",
    *b"SHORT                                   \n",
];

// Puts an amount at the right of its layer's line.
#[tactic(auto, using(indian_digits::proofs::Theorems::amount_fits))]
fn put_in_line(blank: &mut [u8; LINE_LENGTH], amount: u64)
    requires { amount ≤ printed_limit }
    ensures { blank.new ≡ take (40 - length (indian_of amount)) blank.old ++ indian_of amount ++ drop 40 blank.old }
{
    put_amount(&mut blank[..40], amount);
}

/// The page's lines, for who puts them behind other text.
pub fn lines(a: Allocation) -> [[u8; LINE_LENGTH]; 8]
    requires { Within a }
    ensures { flat_map (λ line. line) result ≡ page_of a }
{
    // The amounts are put in place: to move a line whose bytes have just been put one by one, the processor waits for them.
    let mut lines = LINES;
    put_in_line(&mut lines[1], a.margin);
    put_in_line(&mut lines[2], a.contribution);
    put_in_line(&mut lines[3], a.tranche1);
    put_in_line(&mut lines[4], a.members);
    put_in_line(&mut lines[5], a.tranche2);
    put_in_line(&mut lines[6], a.calls);
    put_in_line(&mut lines[7], a.short);
    lines
}

// A layer's line: its name at the left, its amount at the right. Inlined, since the names are constants.
#[inline(always)]
fn row(name: &[u8], amount: u64) -> [u8; LINE_LENGTH]
    requires { (length name.now ≤ 20) × (amount ≤ printed_limit) }
    ensures { result ≡ line (row_of name.now amount) }
{
    let mut row = [b' '; LINE_LENGTH];
    row[..name.len()].copy_from_slice(name);
    put_amount(&mut row[..40], amount);
    row[40] = b'\n';
    row
}

// The first line: a fixed text of 40 bytes.
#[tactic(auto, unfolding(crate::specs::Page::heading, crate::specs::Page::line))]
fn heading() -> [u8; LINE_LENGTH]
    ensures { result ≡ line heading }
{
    let mut row = [b'\n'; LINE_LENGTH];
    row[..40].copy_from_slice(b"LAYER                        Rs THOUSAND");
    row
}

// The page's lines, built one by one: a copy of blank ones would make the archive for C ask for memcpy.
fn page_rows(a: Allocation) -> [[u8; LINE_LENGTH]; 8]
    requires { Within a }
    ensures { flat_map (λ line. line) result ≡ page_of a }
{
    [
        heading(),
        row(b"MARGIN", a.margin),
        row(b"OWN FUND", a.contribution),
        row(b"TRANCHE 1", a.tranche1),
        row(b"MEMBERS", a.members),
        row(b"TRANCHE 2", a.tranche2),
        row(b"CALLS", a.calls),
        row(b"SHORT", a.short),
    ]
}

// The page in front of what a lent one holds behind it.
fn put_page(page: &mut [u8], a: Allocation)
    requires { (page_length ≤ length page.old) × Within a }
    ensures { page.new ≡ page_of a ++ drop page_length page.old }
{
    page[..PAGE_LENGTH].copy_from_slice(page_rows(a).as_flattened());
}

/// The page of an answer, put into the front of a lent one, or refused before anything is written.
pub fn print(answer: Allocation, page: &mut [u8]) -> Result<(), Refusal>
    ensures answers { result ≡ answered (page_refusal answer (length page.old)) tt }
    ensures page_after { page.new ≡ page_left answer page.old }
{
    printable(answer, page.len())?;
    put_page(page, answer);
    Ok(())
}
