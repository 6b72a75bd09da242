//! Passes, by which callers use the segments.
ghost use Rattle.std.specs.Prelude.{◌≡◌};

use crate::desk::Desk;
use cod_board::BoardSeat;
use cod_place::PoolSeat;
use cod_region::Region;
use cod_stripe::Stripe;
use cod_turn::TurnSeat;
use cod_types::Caller;
use std::marker::Model;

/// What a caller needs for its calls: a seat of each segment's turn, in order, and what it has to itself.
#[derive(Drop)]
pub struct Pass<R: Region> {
    pub seats: Vec<TurnSeat<Stripe<R>>>,
    pub desk: Desk,
}

impl<R: Region> Model for Pass<R> {
    ghost use Rattle.cod_pass.specs.States.{PassState};

    ghost Value = { PassState };

    ghost view = { λ p. record {
      caller = p.desk.client.caller.0;
      number = p.desk.client.number;
      clock = p.desk.clock;
      seats = p.seats.items;
      bench = p.desk.bench;
      board = p.desk.board;
      pools = p.desk.pools;
    } };
}

impl<R: Region> Pass<R> {
    /// Whose it is.
    pub fn caller(&self) -> Caller
        ensures { result ≡ record { 0 = self.now.caller } }
    {
        self.desk.client.caller()
    }

    /// The number of its next call.
    pub fn number(&self) -> u32
        ensures { result ≡ self.now.number }
    {
        self.desk.client.number()
    }

    /// Its clock: its later entries have greater stamps.
    pub fn clock(&self) -> u64
        ensures { result ≡ self.now.clock }
    {
        self.desk.clock
    }
}

/// The first seats of the turns, of the board and of the pools, with the numbers that no pass has.
#[derive(Drop)]
pub struct Rest<R: Region> {
    pub seats: Vec<TurnSeat<Stripe<R>>>,
    pub board: BoardSeat,
    pub pools: PoolSeat,
}

impl<R: Region> Model for Rest<R> {
    ghost use Rattle.cod_pass.specs.States.{RestState};

    ghost Value = { RestState };

    ghost view = { λ r. record { seats = r.seats.items; board = r.board; pools = r.pools } };
}
