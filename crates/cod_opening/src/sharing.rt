//! Rooms and turns of new segments.
ghost use Rattle.std.specs.Prelude.{◌≡◌, ◌≤◌, ℕ, IfOk, Some, length, map};
ghost use Rattle.cod_homes.specs.Building.{all_rooms};
ghost use Rattle.cod_place.specs.Free.{at_node};
ghost use Rattle.cod_place.specs.Rooms.{bytes_on};
ghost use Rattle.cod_seg.specs.Pools.{owned};
ghost use Rattle.cod_stripe.specs.Sharing.{Without};
ghost use Rattle.cod_opening.specs.Opening.{AreEmpty, ArePlain, AreSeats, left_from};

use cod_place::{PoolSeat, SharedPools};
use cod_region::Region;
use cod_stripe::Stripe;
use cod_turn::{Turn, TurnSeat};
use cod_types::OutOfMemory;
use std::alloc::Global;

/// The rooms of all segments get seats of their own.
pub(crate) fn adopt<R: Region>(
    stripes: &mut Vec<Stripe<R>>,
    pools: &SharedPools,
    seat: &mut PoolSeat,
)
    requires pools { seat.old.of ≡ pools.now.of }
    requires plain { ArePlain pools.now.of.words stripes.old.items }
    requires bytes { (node : ℕ) → bytes_on node (all_rooms stripes.old.items) ≤ at_node node seat.old.bytes }
    ensures stripes { stripes.new.items ≡ map (owned (Some pools.now.of)) stripes.old.items }
    ensures seat { Without (all_rooms stripes.old.items) seat.old seat.new }
{
    let count = stripes.len();
    'stripes: for at in 0..count {
        stripes[at].adopt(pools, seat);
    }
}

/// Turns and their seats, one of each turn.
pub(crate) type Turns<R> = (Vec<Turn<Stripe<R>>>, Vec<TurnSeat<Stripe<R>>>);

/// A turn for each segment, and its first seat, which has all callers' numbers.
pub(crate) fn turns<R: Region>(
    alloc: Global,
    stripes: Vec<Stripe<R>>,
) -> Result<Turns<R>, OutOfMemory>
    requires { AreEmpty stripes.items }
    ensures { IfOk result (λ r. (length r.0.items ≡ length stripes.items) × AreSeats r.0.items stripes.items (left_from 0) r.1.items) }
{
    let mut turns = Vec::with_capacity(alloc, stripes.len())?;
    let mut seats = Vec::with_capacity(alloc, stripes.len())?;
    'stripes: for stripe in stripes {
        let (turn, seat) = Turn::new(alloc, stripe)?;
        turns.push(turn)?;
        seats.push(seat)?;
    }
    Ok((turns, seats))
}
