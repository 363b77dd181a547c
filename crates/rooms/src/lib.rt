// What a layer gives, and a sum shared over what the live members may still give: layer 6 of document 01, and the last tie of layer 4 of document
// 02, request 3. It knows nothing of registers. `status` is that of the members once the defaulter is in default, so that the live ones are the others.
#![tactic(auto)]

ghost use Rattle.std.specs.Prelude.{◌≡◌, ◌-◌, ◌≤◌};
ghost use Rattle.lists.specs.Limits.{allocation_limit};
ghost use Rattle.figures.specs.Figures.{live_in};
ghost use Rattle.rooms.specs.Rooms.{gives, rooms};
ghost use Rattle.rooms.specs.Parts.{Roomy, Shares};

use figures::{Status, total};
use split::split;
use std::array;

/// What a layer gives, and what is left after it.
#[derive(Drop)]
pub struct Given {
    pub gives: u64,
    pub left: u64,
}

/// The shares, their total, and what is left after them.
#[derive(Drop)]
pub struct Shared {
    pub shares: [u64; 64],
    pub total: u64,
    pub left: u64,
}

// "each giving all it has or all that is left to place"
pub fn layer(left: u64, has: u64) -> Given
    ensures gives { result.gives ≡ gives left has }
    ensures leaves { result.left ≡ left - gives left has }
{
    let gives = left.min(has);
    Given {
        gives,
        left: left - gives,
    }
}

// What is left of the figures of the live members, and 0 for the others.
fn rooms_of(status: &[Status; 64], most: &[u32; 64], taken: &[u32; 64]) -> [u64; 64]
    requires { Roomy most.now taken.now }
    ensures { result ≡ rooms (live_in status.now) most.now taken.now }
{
    array::from_fn(|i| status[i].if_live(u64::from(most[i] - taken[i]), 0))
}

// A sum shared over the rooms: all that is left, or all that they have. Where nothing is left, no room is looked at.
pub fn share_rooms(status: &[Status; 64], most: &[u32; 64], taken: &[u32; 64], left: u64) -> Shared
    requires roomy { Roomy most.now taken.now }
    requires moderate { left ≤ allocation_limit }
    ensures { Shares (rooms (live_in status.now) most.now taken.now) left result.shares result.total result.left }
{
    if left == 0 {
        return Shared {
            shares: [0; 64],
            total: 0,
            left: 0,
        };
    }
    let rooms = rooms_of(status, most, taken);
    let whole = total(&rooms);
    let step = layer(left, whole);
    let mut shares = [0; 64];
    split(step.gives, whole, &rooms, &mut shares);
    Shared {
        shares,
        total: step.gives,
        left: step.left,
    }
}
