//! A room is let go.

ghost use Rattle.std.specs.Prelude.{◌≡◌, ◌∷◌, [], List};
ghost use Rattle.cod_place.specs.Room.{Room as Taken};
ghost use Rattle.cod_segment.specs.Events.{Balances};

use cod_place::{Pools, Room};

/// Gives a room back to the pools that it came from.
pub(crate) fn let_go<P: Pools>(room: Room, pools: &mut P)
    requires came { P.Came pools.old (room ∷ []) }
    requires ready { P.ready pools.old }
    ensures came { (rest : List Taken) → P.Came pools.old (room ∷ rest) → P.Came pools.new rest }
    ensures balance { Balances (P.free pools.old) (P.free pools.new) (room ∷ []) [] }
    ensures pools { (P.nodes pools.new ≡ P.nodes pools.old) × P.ready pools.new × P.same pools.old pools.new }
{
    pools.give(room);
}
