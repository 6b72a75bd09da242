//! A board and a seat of it, borrowed.
ghost use Rattle.std.specs.Prelude.{◌≡◌};

use crate::{Board, BoardSeat, Kill, SharedBoard};
use cod_types::NodeId;

/// A board and a seat of it, borrowed.
#[derive(Drop)]
pub struct BoardPass<'a> {
    board: &'a SharedBoard,
    seat: &'a mut BoardSeat,
}

impl<'a> BoardPass<'a> {
    /// A board by this seat, without memory.
    pub fn new(board: &'a SharedBoard, seat: &'a mut BoardSeat) -> BoardPass<'a>
        ensures same { result.seat.ghost_name ≡ seat.entry.ghost_name }
        ensures parts { (result.board.now ≡ board.now) × (result.seat.now ≡ seat.old) }
    {
        BoardPass { board, seat }
    }
}

impl<'a> Board for BoardPass<'a> {
    ghost use Rattle.std.specs.Prelude.{◌≡◌, false};
    ghost use Rattle.std.proofs.Common.{refl, ◌∙◌};
    ghost use Rattle.cod_board.specs.Seats.{kills_in, Asked, asked_self_lem, asked_later_lem};

    ghost kills = { λ s. kills_in s.board.now.words s.seat.now.knows.seen };

    ghost is_alone = { false };

    ghost ready = { λ s. s.seat.now.of ≡ s.board.now };

    ghost same = { λ s t. (t.seat.ghost_name ≡ s.seat.ghost_name) × (t.board.now ≡ s.board.now) × Asked s.seat.now t.seat.now };

    fn down(&mut self, node: NodeId) -> Option<Kill> {
        self.board.down(self.seat, node)
    }

    fn kill(&mut self, node: NodeId, kill: Kill) {
        self.board.kill(self.seat, node, kill);
    }

    ghost same_self = { λ s. (refl, refl, asked_self_lem s.seat.now) };

    ghost same_later = { λ a b c first then_. (then_.0 ∙ first.0, then_.1 ∙ first.1, asked_later_lem a.seat.now b.seat.now c.seat.now first.2 then_.2) };
}
