//! All passes' seats come to the first ones.
ghost use Rattle.std.specs.Prelude.{◌≡◌, ℕ, Some, slice_get};
ghost use Rattle.cod_pass.specs.States.{PassState};
ghost use Rattle.cod_closing.specs.Joining.{AreSeatsOf, both_turns, IsTheirs, IsOurs, with_pass, with_passes};

use cod_pass::{Desk, Pass, Rest, Shared};
use cod_region::Region;
use cod_stripe::Stripe;
use cod_turn::{Turn, TurnSeat};

/// Unites all passes' seats with the first ones, pass by pass.
pub(crate) fn join_passes<R: Region, H>(
    turns: &[Turn<Stripe<R>>],
    shared: &Shared<H>,
    rest: &mut Rest<R>,
    passes: Vec<Pass<R>>,
)
    requires first { IsOurs turns.now shared.now.board shared.now.pools.of rest.old }
    requires passes { (i : ℕ) (p : PassState) → slice_get passes.items i ≡ Some p → IsTheirs turns.now shared.now.board shared.now.pools.of p }
    ensures { rest.new ≡ with_passes rest.old passes.items }
{
    'passes: for pass in passes {
        join_pass(turns, shared, rest, pass);
    }
}

/// Unites a pass's seats with the first ones.
fn join_pass<R: Region, H>(
    turns: &[Turn<Stripe<R>>],
    shared: &Shared<H>,
    rest: &mut Rest<R>,
    pass: Pass<R>,
)
    requires first { IsOurs turns.now shared.now.board shared.now.pools.of rest.old }
    requires pass { IsTheirs turns.now shared.now.board shared.now.pools.of pass }
    ensures { rest.new ≡ with_pass rest.old pass }
{
    let Pass { seats, desk } = pass;
    let Desk {
        client: _,
        clock: _,
        bench: _,
        board,
        pools,
    } = desk;
    join_turns(turns, &mut rest.seats, seats);
    shared.board.join(&mut rest.board, board);
    shared.pools.join(&mut rest.pools, pools);
}

/// Unites seats of the turns with the first ones, turn by turn, from the last on.
fn join_turns<R: Region>(
    turns: &[Turn<Stripe<R>>],
    firsts: &mut Vec<TurnSeat<Stripe<R>>>,
    mut others: Vec<TurnSeat<Stripe<R>>>,
)
    requires firsts { AreSeatsOf turns.now firsts.old.items }
    requires others { AreSeatsOf turns.now others.items }
    ensures { firsts.new.items ≡ both_turns firsts.old.items others.items }
{
    'seats: while let Some(other) = others.pop() {
        let at = others.len();
        turns[at].join(&mut firsts[at], other);
    }
}
