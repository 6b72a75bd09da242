//! All that a cluster starts with.
ghost use Rattle.std.specs.Prelude.{◌≡◌, ◌<◌, IfOk};
ghost use Rattle.cod_opening.specs.Opening.{IsOpened};

use crate::seats::passes;
use crate::sharing::{adopt, turns};
use cod_board::SharedBoard;
use cod_homes::stripes;
use cod_pass::{Pass, Rest, Shared};
use cod_place::{PlainPools, SharedPools};
use cod_region::{Region, Shelf};
use cod_script::Scenario;
use cod_stripe::Stripe;
use cod_turn::Turn;
use cod_types::OutOfMemory;
use std::alloc::Global;

/// What a cluster starts with: a turn of each segment, what callers share beside them, the first seats, and a pass for each
/// caller, in order.
#[derive(Drop)]
pub struct Opened<R: Region, H: Drop> {
    pub turns: Vec<Turn<Stripe<R>>>,
    pub shared: Shared<H>,
    pub rest: Rest<R>,
    pub passes: Vec<Pass<R>>,
}

/// Opens a cluster of the scenario's segments, each with its columns at home, for so many callers, fewer than 65536. It takes
/// all memory that the callers need but that of targets, of decoding rows and of their calls.
pub fn open<R: Region, H: Shelf<Region = R> + Drop>(
    alloc: Global,
    scenario: &Scenario,
    callers: u32,
    shelf: H,
) -> Result<Opened<R, H>, OutOfMemory>
    requires { callers < 65536 }
    ensures shelf { IfOk result (λ o. o.shared.shelf ≡ shelf) }
    ensures opened { IfOk result (λ o. IsOpened scenario.now callers
        (record { turns = o.turns.items; board = o.shared.board; pools = o.shared.pools; regions = H.regions shelf }) o.rest o.passes.items) }
{
    let _sound = scenario.segments();
    let mut plain = PlainPools::new(alloc, scenario.nodes(), scenario.capacity())?;
    let mut stripes = stripes(alloc, scenario, &shelf, &mut plain)?;
    let (pools, mut pool_seat) = SharedPools::open(alloc, plain)?;
    adopt(&mut stripes, &pools, &mut pool_seat);
    let (turns, seats) = turns(alloc, stripes)?;
    let (board, board_seat) = SharedBoard::new(alloc, scenario.nodes())?;
    let mut rest = Rest {
        seats,
        board: board_seat,
        pools: pool_seat,
    };
    let passes = passes(
        alloc,
        scenario.geometry(),
        callers,
        turns.as_slice(),
        &board,
        &pools,
        &mut rest,
    )?;
    Ok(Opened {
        turns,
        shared: Shared {
            alloc,
            board,
            pools,
            shelf,
        },
        rest,
        passes,
    })
}
