// What a default takes, layer by layer, from lists of figures: document 01, "Declaring a default". It knows nothing of registers.
#![tactic(auto)]

ghost use Rattle.std.specs.Prelude.{◌≡◌, ◌++◌, ◌+◌, ◌≤◌, length, drop};
ghost use Rattle.lists.specs.Limits.{member_limit, allocation_limit};
ghost use Rattle.lists.specs.Sums.{total};
ghost use Rattle.figures.specs.Figures.{live_in, others};
ghost use Rattle.admission.specs.Admission.{losses_of};
ghost use Rattle.rooms.specs.Rooms.{rooms};
ghost use Rattle.rooms.specs.Parts.{Roomy};
ghost use Rattle.layers.specs.Parts.{Pooled, GoesDown, Allocatable, estate_of};

use admission::Pools;
use figures::{Status, defaulted, figure_of, write};
use lists::MEMBER_LIMIT;
use pools::{charge_by_pools, sums_of};
use rooms::{layer, share_rooms};

/// The figures of a register that a default is placed by, each list by member number, and the tranches of our own contribution. Lists, since a layer reads one
/// figure of every member; and no register, whose fields are private and which layers know nothing of.
#[derive(Clone, Copy)]
pub struct Figures<'a> {
    pub status: &'a [Status; 64],
    pub margin: &'a [u32; 64],
    pub contribution: &'a [u32; 64],
    pub outstanding: &'a [u32; 64],
    pub cap: &'a [u32; 64],
    // what was called since the last close
    pub called: &'a [u32; 64],
    pub tranche1: u64,
    pub tranche2: u64,
}

// What the defaulter leaves: its fallen call is to be placed, its margin and its contribution go first.
#[derive(Clone, Copy)]
struct Estate {
    fallen: u64,
    margin: u64,
    contribution: u64,
}

/// What an accepted default answers: the fallen (lapsed) call, the six layers and the shortfall.
#[derive(Clone, Copy, Debug, PartialEq, Eq)]
pub struct Allocation {
    pub fallen: u64,
    pub margin: u64,
    pub contribution: u64,
    pub tranche1: u64,
    pub members: u64,
    pub tranche2: u64,
    pub calls: u64,
    pub short: u64,
}

/// A default as it is placed: its answer, what each member is charged in layer 4 and called in layer 6.
#[derive(Clone, Copy)]
pub struct Placed {
    pub allocation: Allocation,
    // two lists: each is settled and told as a whole
    pub charges: [u64; 64],
    pub called: [u64; 64],
}

// The six layers, one after the other: the losses and the fallen call go down them. `figures` has the members as they stand once the defaulter is in
// default, so that the live ones are the others.
#[inline(always)]
fn place(figures: Figures, estate: Estate, pools: Pools, ranks: &[u8]) -> Placed
    requires moderate { total (losses_of pools) + estate.fallen ≤ allocation_limit }
    requires pooled { Pooled pools figures.status.now figures.contribution.now ranks.now }
    requires roomy { Roomy figures.cap.now figures.called.now }
    ensures { let read = figures.entry in let marks = live_in read.status.now in let rooms = rooms marks read.cap.now read.called.now in
        GoesDown (losses_of pools) estate read.tranche1 read.tranche2 marks read.contribution.now rooms ranks.now result }
{
    let first = layer(pools.together() + estate.fallen, estate.margin);
    let second = layer(first.left, estate.contribution);
    let third = layer(second.left, figures.tranche1);
    let mut losses = pools.losses;
    let sums = &mut losses[..pools.count];
    sums_of(
        first.gives + second.gives + third.gives,
        estate.fallen,
        sums,
    );
    let mut charges = [0; 64];
    let members = charge_by_pools(
        sums,
        figures.status,
        figures.contribution,
        ranks,
        &mut charges,
    );
    let fifth = layer(third.left - members, figures.tranche2);
    let sixth = share_rooms(figures.status, figures.cap, figures.called, fifth.left);
    // A local: the language does not take an array of one struct straight into the literal of another.
    let called = sixth.shares;
    Placed {
        allocation: Allocation {
            fallen: estate.fallen,
            margin: first.gives,
            contribution: second.gives,
            tranche1: third.gives,
            members,
            tranche2: fifth.gives,
            calls: sixth.total,
            short: sixth.left,
        },
        charges,
        called,
    }
}

// A default that 11 to 15, 21 and 22 do not refuse, by the figures of the register that it is declared in. Nothing is changed yet. Inlined with `place`
// where a default and a range's ends are placed: as a call it hands what it placed over by value, a kilobyte of it.
#[inline(always)]
pub fn allocate(figures: Figures, member: u64, pools: Pools, ranks: &[u8]) -> Placed
    requires { Allocatable figures.status.now figures.contribution.now figures.outstanding.now figures.cap.now figures.called.now member pools ranks.now }
    ensures { let read = figures.entry in let marks = others read.status.now member in let rooms = rooms marks read.cap.now read.called.now in
        let estate = estate_of read.outstanding.now read.margin.now read.contribution.now member in
        GoesDown (losses_of pools) estate read.tranche1 read.tranche2 marks read.contribution.now rooms ranks.now result }
{
    let estate = Estate {
        fallen: figure_of(figures.outstanding, member),
        margin: figure_of(figures.margin, member),
        contribution: figure_of(figures.contribution, member),
    };
    let others = defaulted(*figures.status, member);
    place(
        Figures {
            status: &others,
            ..figures
        },
        estate,
        pools,
        ranks,
    )
}

// "The slip's first 64 numbers receive each member's layer 4 charge, the next 64 its call": the slip is a lent buffer.
pub fn tell(placed: &Placed, slip: &mut [u64])
    requires { member_limit + member_limit ≤ length slip.old }
    ensures { slip.new ≡ placed.now.charges ++ placed.now.called ++ drop (member_limit + member_limit) slip.old }
{
    write(slip, 0, &placed.charges);
    write(slip, MEMBER_LIMIT, &placed.called);
}
