//! What an event is lent.

ghost use Rattle.std.specs.Prelude.{◌≡◌};

use cod_board::Board;
use cod_place::Pools;
use cod_predict::{Policy, Rule};
use cod_region::Shelf;
use cod_repair::Bench;
use cod_segment::Asker;
use cod_types::Caller;
use std::alloc::Global;

/// What an event of a segment works with: the board, the pools and the shelf of its nodes, the rule of its reserved space, a
/// bench that was made for its geometry, and the caller with the number of its call and its clock.
#[derive(Drop)]
pub struct Around<'a, B: Board, P: Pools, H: Shelf, W: Rule> {
    pub alloc: Global,
    pub board: &'a mut B,
    pub pools: &'a mut P,
    pub shelf: &'a H,
    pub policy: &'a Policy<W>,
    pub bench: &'a mut Bench,
    pub caller: Caller,
    pub number: u32,
    pub clock: &'a mut u64,
}

impl<'a, B: Board, P: Pools, H: Shelf, W: Rule> Around<'a, B, P, H, W> {
    /// Who asks.
    pub(crate) fn asker(&self) -> Asker
        ensures { result ≡ record { caller = self.now.caller; number = self.now.number } }
    {
        Asker {
            caller: self.caller,
            number: self.number,
        }
    }
}
