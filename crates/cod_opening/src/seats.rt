//! Passes, each with the least number that is left.
ghost use Rattle.std.specs.Prelude.{◌≡◌, ◌+◌, ◌<◌, ◌≤◌, ℕ, List, [], ◌∷◌, IfOk, length};
ghost use Rattle.cod_seg.specs.Seg.{Seg};
ghost use Rattle.cod_opening.specs.Opening.{ArePasses, AreSeats, IsFresh, IsLeft, left_from};

use cod_board::SharedBoard;
use cod_client::Client;
use cod_pass::{Desk, Pass, Rest};
use cod_place::SharedPools;
use cod_region::Region;
use cod_repair::Bench;
use cod_stripe::Stripe;
use cod_turn::{Turn, TurnSeat};
use cod_types::{Caller, Geometry, OutOfMemory};
use std::alloc::Global;

/// A seat of each turn, with the least number that is left.
fn split<R: Region>(
    alloc: Global,
    turns: &[Turn<Stripe<R>>],
    firsts: &mut Vec<TurnSeat<Stripe<R>>>,
) -> Result<Vec<TurnSeat<Stripe<R>>>, OutOfMemory>
    requires { (segs : List Seg) × (n : ℕ) × (n + 1 < 65536) × AreSeats turns.now segs (left_from n) firsts.old.items }
    ensures { IfOk result (λ seats. (segs : List Seg) (n : ℕ) → n + 1 < 65536 → AreSeats turns.now segs (left_from n) firsts.old.items
        → AreSeats turns.now segs (left_from (n + 1)) firsts.new.items × AreSeats turns.now segs (n ∷ []) seats.items) }
{
    let count = turns.len();
    let mut seats = Vec::with_capacity(alloc, count)?;
    'turns: for at in 0..count {
        let seat = turns[at].split(&mut firsts[at]);
        seats.push(seat)?;
    }
    Ok(seats)
}

/// The pass of the least number that is left, which is the caller's.
fn pass<R: Region>(
    alloc: Global,
    g: &Geometry,
    caller: Caller,
    turns: &[Turn<Stripe<R>>],
    board: &SharedBoard,
    pools: &SharedPools,
    rest: &mut Rest<R>,
) -> Result<Pass<R>, OutOfMemory>
    requires few { caller.0 + 1 < 65536 }
    requires left { (segs : List Seg) × IsLeft turns.now segs board.now pools.now.of caller.0 rest.old }
    ensures pass { IfOk result (λ pass. (segs : List Seg) → IsLeft turns.now segs board.now pools.now.of caller.0 rest.old
        → IsFresh turns.now segs g.now board.now pools.now.of caller.0 pass) }
    ensures left { IfOk result (λ _. (segs : List Seg) → IsLeft turns.now segs board.now pools.now.of caller.0 rest.old
        → IsLeft turns.now segs board.now pools.now.of (caller.0 + 1) rest.new) }
{
    let seats = split(alloc, turns, &mut rest.seats)?;
    let bench = Bench::new(alloc, g)?;
    Ok(Pass {
        seats,
        desk: Desk {
            client: Client::new(caller),
            clock: 0,
            bench,
            board: board.split(&mut rest.board),
            pools: pools.split(&mut rest.pools),
        },
    })
}

/// A pass for each of so many callers, in order.
pub(crate) fn passes<R: Region>(
    alloc: Global,
    g: &Geometry,
    callers: u32,
    turns: &[Turn<Stripe<R>>],
    board: &SharedBoard,
    pools: &SharedPools,
    rest: &mut Rest<R>,
) -> Result<Vec<Pass<R>>, OutOfMemory>
    requires few { callers < 65536 }
    requires left { (segs : List Seg) × IsLeft turns.now segs board.now pools.now.of 0 rest.old }
    ensures passes { IfOk result (λ list. (segs : List Seg) → IsLeft turns.now segs board.now pools.now.of 0 rest.old
        → ArePasses turns.now segs g.now board.now pools.now.of callers list.items) }
    ensures left { IfOk result (λ _. (segs : List Seg) → IsLeft turns.now segs board.now pools.now.of 0 rest.old
        → IsLeft turns.now segs board.now pools.now.of callers rest.new) }
{
    let mut list = Vec::with_capacity(alloc, callers as usize)?;
    'callers: for caller in 0..callers {
        list.push(pass(alloc, g, Caller(caller), turns, board, pools, rest)?)?;
    }
    Ok(list)
}
