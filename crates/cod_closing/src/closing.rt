//! Segments, a board and pools after all calls.
ghost use Rattle.std.specs.Prelude.{◌≡◌, ◌≤◌, ℕ, [], Some, length, vec_len, vec_capacity, slice_get};
ghost use Rattle.cod_seg.specs.Seg.{Seg};
ghost use Rattle.cod_script.specs.Script.{Script};
ghost use Rattle.cod_stripe.specs.Sharing.{Without};
ghost use Rattle.cod_segment.specs.Events.{rooms_of};
ghost use Rattle.cod_turn.specs.Seats.{Seated};
ghost use Rattle.cod_homes.specs.Building.{all_rooms};
ghost use Rattle.cod_pass.specs.States.{Common};
ghost use Rattle.cod_closing.specs.Closing.{AreLast, AreReleased, IsClosedOf, IsLast, IsReleased, IsWhole};

use crate::joining::join_passes;
use cod_board::PlainBoard;
use cod_pass::{Pass, Rest, Shared};
use cod_place::{PlainPools, PoolSeat, SharedPools};
use cod_region::{Region, Shelf};
use cod_stripe::Stripe;
use cod_turn::{Turn, TurnSeat};

/// What a cluster leaves.
#[derive(Drop)]
pub struct Closed<R: Region> {
    /// The segments, in order, with plain rooms.
    pub stripes: Vec<Stripe<R>>,
    pub board: PlainBoard,
    pub pools: PlainPools,
}

/// Ends a cluster, by all its passes and the first seats that are left. The segments come into the room, so that it takes no
/// memory.
pub fn close<R: Region, H: Shelf<Region = R> + Drop>(
    turns: Vec<Turn<Stripe<R>>>,
    shared: Shared<H>,
    mut rest: Rest<R>,
    passes: Vec<Pass<R>>,
    room: Vec<Stripe<R>>,
) -> Closed<R>
    requires empty { room.items ≡ [] }
    requires room { vec_len turns ≤ vec_capacity room }
    requires whole { let c : Common = record { turns = turns.items; board = shared.board; pools = shared.pools; regions = H.regions shared.shelf } in
        (x : Script) × IsWhole x c rest passes.items }
    ensures { let c : Common = record { turns = turns.items; board = shared.board; pools = shared.pools; regions = H.regions shared.shelf } in
        (x : Script) → IsWhole x c rest passes.items → IsClosedOf x c passes.items result.stripes.items result.board result.pools }
{
    join_passes(turns.as_slice(), &shared, &mut rest, passes);
    let Rest {
        seats,
        board: board_seat,
        pools: mut pool_seat,
    } = rest;
    let Shared {
        alloc: _,
        board,
        pools,
        shelf: _,
    } = shared;
    let stripes = close_turns(turns, seats, &pools, &mut pool_seat, room);
    Closed {
        stripes,
        board: board.close(board_seat),
        pools: pools.close(pool_seat),
    }
}

/// Ends all turns, in order. The bytes of the segments' rooms go to the seat of the pools.
fn close_turns<R: Region>(
    turns: Vec<Turn<Stripe<R>>>,
    seats: Vec<TurnSeat<Stripe<R>>>,
    pools: &SharedPools,
    pool_seat: &mut PoolSeat,
    mut closed: Vec<Stripe<R>>,
) -> Vec<Stripe<R>>
    requires empty { closed.items ≡ [] }
    requires room { vec_len turns ≤ vec_capacity closed }
    requires pools { pool_seat.old.of ≡ pools.now.of }
    requires last { AreLast pools.now.of turns.items seats.items }
    ensures count { length result.items ≡ length turns.items }
    ensures released { AreReleased seats.items result.items }
    ensures rooms { Without (all_rooms result.items) pool_seat.new pool_seat.old }
{
    'turns: for (turn, seat) in turns.into_iter().zip(seats) {
        closed.push_reserved(close_turn(turn, seat, pools, pool_seat));
    }
    closed
}

/// Ends a turn, by its only seat. The bytes of the segment's rooms go to the seat of the pools.
fn close_turn<R: Region>(
    turn: Turn<Stripe<R>>,
    seat: TurnSeat<Stripe<R>>,
    pools: &SharedPools,
    pool_seat: &mut PoolSeat,
) -> Stripe<R>
    requires pools { pool_seat.old.of ≡ pools.now.of }
    requires last { IsLast pools.now.of turn seat }
    ensures released { IsReleased seat.knows result }
    ensures rooms { Without (rooms_of result) pool_seat.new pool_seat.old }
{
    let mut stripe = turn.close(seat);
    stripe.sound();
    stripe.release(pools, pool_seat);
    stripe
}
