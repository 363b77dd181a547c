// Says whether a review is due: whether 100C is more than 80A.
#![tactic(auto)]

use std::io;
use std::io::Print;

fn answer(rt: &impl Print, due: bool) -> io::Result<()> {
    if due {
        return println!(rt; "review");
    }
    println!(rt; "no review")
}

fn main(rt: HostRuntime) {
    let Some(numbers) = files::numbers::<2>(&rt, 3) else {
        let _ = eprintln!(&rt; "usage: review C A");
        return;
    };
    let [cover, target] = numbers;
    output::tell(&rt, answer(&rt, sizing::review_due(cover, target)));
}
