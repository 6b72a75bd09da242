//! How many bytes segments take on the nodes.
ghost use Rattle.std.specs.Prelude.{◌≡◌, ◌+◌, ◌<◌, ◌≤◌, ◌^◌, length, true};
ghost use Rattle.cod_scenario.specs.Lines.{holds, shape_of};
ghost use Rattle.cod_scenario.specs.Reading.{Takes};
ghost use Rattle.cod_script.specs.Room;
ghost use Rattle.cod_types.specs.Columns.{column_size};

use crate::said::Header;

/// How many bytes column `i` takes.
fn bytes_of_column(h: &Header, i: u8) -> u64
    ensures value { result ≡ column_size (shape_of h.now) i }
    ensures bound { result < 2 ^ 33 }
{
    if i < h.k {
        u64::from(h.block)
    } else {
        u64::from(h.block) + u64::from(h.reserve)
    }
}

/// How many bytes column `i` of segment `s` takes on node `x`.
#[tactic(auto, unfolding(cod_script::specs::Room::column_on))]
fn column_on(h: &Header, x: u8, s: u32, i: u8) -> u64
    requires { 0 < h.now.nodes }
    ensures value { result ≡ Room.column_on (shape_of h.now) h.now.nodes x s i }
    ensures bound { result < 2 ^ 33 }
{
    if (u64::from(s) + u64::from(i)) % u64::from(h.nodes) == u64::from(x) {
        bytes_of_column(h, i)
    } else {
        0
    }
}

/// How many bytes segment `s` takes on node `x`.
#[tactic(auto, using(cod_script::proofs::RoomSums::sum_more), unfolding(cod_script::specs::Room::taken_by))]
fn taken_by(h: &Header, x: u8, s: u32) -> u64
    requires { 0 < h.now.nodes }
    ensures value { result ≡ Room.taken_by (shape_of h.now) h.now.nodes x s }
    ensures bound { result < 2 ^ 41 }
{
    let mut sum = 0u64;
    for i in 0..h.n {
        sum += column_on(h, x, s, i);
    }
    sum
}

/// Whether each node has room for segment `s` too.
pub fn fits(taken: &[u64], h: &Header, s: u32) -> bool
    requires nodes { h.now.nodes ≤ length taken.now }
    requires so_far { Takes taken.now h.now s }
    ensures { result ≡ holds h.now (s + 1) }
{
    for x in 0..h.nodes {
        let total = taken[x as usize].saturating_add(taken_by(h, x, s));
        if u64::from(h.capacity) < total {
            return false;
        }
    }
    true
}

/// Adds segment `s`, for which there is room, to what is taken.
pub fn take_room(taken: &mut [u64], h: &Header, s: u32)
    requires nodes { h.now.nodes ≤ length taken.old }
    requires so_far { Takes taken.old h.now s }
    requires room { holds h.now (s + 1) ≡ true }
    ensures takes { Takes taken.new h.now (s + 1) }
    ensures len { length taken.new ≡ length taken.old }
{
    for x in 0..h.nodes {
        taken[x as usize] = taken[x as usize].saturating_add(taken_by(h, x, s));
    }
}
