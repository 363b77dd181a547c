// "The console keeps one register through the whole drill": document 01's register of four members stands in one place, and each call takes it by `&mut`.
#![tactic(auto)]

use admission::Pools;
use drill::in_place::{close, declare, pay, replenish};
use lists::MISSING_RANK;
use output::write_out;
use print_answers::put_reply;
use rows::Record;
use std::io::Print;
use text::Text;
use waterfall::opening::open;
use waterfall::{Register, Reply};

// What a call answered, without the charges and calls of a slip.
fn tell(rt: &impl Print, reply: Reply) {
    let mut text = Text::<8192>::new();
    put_reply(&mut text, reply, &[0; 128]);
    let _ = write_out(rt, &mut text);
}

// What the register shows of a member.
fn show(rt: &impl Print, register: Register, number: u64) {
    let figures = register.member(number);
    let _ = println!(rt;
        "member {number} contribution {} outstanding {} called {}",
        figures.contribution, figures.outstanding, figures.called
    );
}

// Margin, contributions and tranches hold 152,000 in all: of a loss of 152,001, in one pool, one thousand is called, of member 3. It is asked for two,
// which is refused, and pays it; member 2 puts money back, and the close finds nothing outstanding.
fn calls(rt: &impl Print, mut register: Register, pools: Pools, ranks: &[u8], slip: &mut [u64]) {
    tell(rt, declare(&mut register, 1, pools, ranks, slip));
    tell(rt, pay(&mut register, 3, 2));
    tell(rt, pay(&mut register, 3, 1));
    tell(rt, replenish(&mut register, 2, 100));
    tell(rt, close(&mut register));
    show(rt, register, 2);
}

fn main(rt: HostRuntime) {
    let records = [
        (1, [50_000, 20_000, 10_000]),
        (2, [0, 30_000, 15_000]),
        (3, [0, 10_000, 5_000]),
        (4, [0, 20_000, 0]),
    ]
    .map(|(member, amounts)| Record::Member { member, amounts }.bytes());
    let opened = open(records.as_flattened(), 22_000);
    let mut ranks = [MISSING_RANK; 64];
    ranks[1] = 1;
    ranks[2] = 2;
    ranks[3] = 2;
    let mut slip = [0; 128];
    let pools = Pools {
        count: 1,
        losses: [152_001, 0, 0, 0],
    };
    calls(&rt, opened.register, pools, &ranks, &mut slip);
}
