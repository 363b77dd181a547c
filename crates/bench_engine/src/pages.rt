// Repeated pages for the wall.
use bench_defaults::fold::fold;
use page::PAGE_LENGTH;
use waterfall::Allocation;

// The amounts rise a little with the turn, so that no turn is like the one before.
fn once(turn: u64, page: &mut [u8; PAGE_LENGTH]) {
    let more = turn % 8;
    let _ = page::print(
        Allocation {
            fallen: 0,
            margin: 50_629 + more,
            contribution: 1_004_403 + more,
            tranche1: 600_001 + more,
            members: 62_756_540 + more,
            tranche2: 400_002 + more,
            calls: 17_601_059 + more,
            short: 25_518_000_000 + more,
        },
        page,
    );
}

// One byte stands for the page, another one each turn, so that all have to be there.
fn fold_page(sum: u64, page: &[u8; PAGE_LENGTH], turn: u64) -> u64 {
    fold(sum, u64::from(page[turn as usize % PAGE_LENGTH]))
}

pub fn run(turns: u64) -> u64 {
    let mut page = [0; PAGE_LENGTH];
    let mut sum = 0;
    for turn in 0..turns {
        once(turn, &mut page);
        sum = fold_page(sum, &page, turn);
    }
    sum
}
