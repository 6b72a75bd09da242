//! A place for a column on a spare node.

ghost use Rattle.std.specs.Prelude.{◌≡◌, ◌<◌, ◌≤◌, ◌++◌, ◌∷◌, ℕ, List, [], All, IfErr, IfOk, false, length, true};
ghost use Rattle.cod_types.specs.Columns.{column_size};
ghost use Rattle.cod_chronicle.specs.Legal.{node_id};
ghost use Rattle.cod_board.specs.Kills.{Keeps};
ghost use Rattle.cod_place.specs.Room.{Room};
ghost use Rattle.cod_seg.specs.Sound.{AreBroken, is_frail, Sound};
ghost use Rattle.cod_segment.specs.Events.{Balances, rooms_of};
ghost use Rattle.cod_segment.specs.Looks.{IsLooked};
ghost use Rattle.cod_placing.specs.Places.{HasNoSpare, HasSpare, IsFirst, IsFresh, rooms_in};
ghost use Rattle.cod_placing.specs.declared.placing.Missing.TheVariants.{Memory, Spare};

use cod_board::Board;
use cod_place::{Broken, Pools, Room, spare};
use cod_region::{Region, Shelf};
use cod_repair::Target;
use cod_segment::Segment;
use cod_types::Reasons;
use std::alloc::Global;

/// What a place was not found for.
#[derive(Clone, Copy, Debug, PartialEq, Eq)]
pub enum Missing {
    /// No node can be a spare, each for its reason.
    Spare,
    /// There was a spare, but no memory for its region.
    Memory,
}

/// A region of so many bytes on the spare node of a column, all zeros. Where no node is a spare, `reasons` says of each why.
/// Where the region's memory is refused, the room has been given back.
pub fn place_for<R: Region, B: Board, P: Pools, H: Shelf<Region = R>>(
    segment: &Segment<R>,
    alloc: Global,
    col: u8,
    bytes: u32,
    broken: &Broken,
    board: &mut B,
    pools: &mut P,
    shelf: &H,
    reasons: &mut Reasons,
) -> Result<Target<R>, Missing>
    requires sound { Sound segment.now }
    requires col { col < segment.now.site.shape.n }
    requires bytes { bytes ≤ column_size segment.now.site.shape col }
    requires broken { AreBroken segment.now.frail broken.now }
    requires board { (length (B.kills board.old) ≡ segment.now.site.nodes) × B.ready board.old }
    requires pools { (P.nodes pools.old ≡ segment.now.site.nodes) × P.ready pools.old × P.Came pools.old (rooms_of segment.now) }
    requires shelf { (node : ℕ) → node < segment.now.site.nodes → is_frail segment.now.frail node ≡ false → (H.regions shelf.now).never_fail (node_id node) ≡ true }
    ensures found { IfOk result (λ t. IsFresh segment.now bytes broken.now (B.kills board.new) t) }
    ensures first { IfOk result (λ t. IsFirst segment.now col reasons.new t.room.node.0) }
    ensures missing { IfErr result (λ e. e ≡ Spare → HasNoSpare segment.now col (B.kills board.new) reasons.new) }
    ensures looked { IfErr result (λ e. e ≡ Spare → All (λ r. IsLooked (P.Seen pools.old pools.new) r.node.0 r.why) reasons.new) }
    ensures memory { IfErr result (λ e. e ≡ Memory → HasSpare segment.now col broken.now (B.kills board.new) reasons.new) }
    ensures rooms { (rest : List Room) → P.Came pools.old rest → P.Came pools.new (rooms_in result ++ rest) }
    ensures balance { Balances (P.free pools.old) (P.free pools.new) [] (rooms_in result) }
    ensures pools { (P.nodes pools.new ≡ P.nodes pools.old) × P.ready pools.new × P.same pools.old pools.new }
    ensures board { (length (B.kills board.new) ≡ length (B.kills board.old)) × Keeps (B.kills board.old) (B.kills board.new)
        × B.ready board.new × B.same board.old board.new }
{
    let after = segment.columns.node(col);
    let taken = segment.columns.taken();
    match spare(
        after,
        taken,
        segment.nodes,
        bytes,
        broken,
        board,
        pools,
        reasons,
    ) {
        None => Err(Missing::Spare),
        Some(room) => match shelf.region(alloc, room.node(), bytes) {
            Ok(region) => {
                segment.columns.tells_as(&region);
                Ok(Target::new(region, room))
            }
            Err(_) => {
                give_back(room, pools);
                Err(Missing::Memory)
            }
        },
    }
}

/// A room that nothing stands on goes back.
fn give_back<P: Pools>(room: Room, pools: &mut P)
    requires came { P.Came pools.old (room ∷ []) }
    requires ready { P.ready pools.old }
    ensures came { (rest : List Room) → P.Came pools.old (room ∷ rest) → P.Came pools.new rest }
    ensures balance { Balances (P.free pools.old) (P.free pools.new) (room ∷ []) [] }
    ensures pools { (P.nodes pools.new ≡ P.nodes pools.old) × P.ready pools.new × P.same pools.old pools.new }
{
    pools.give(room);
}
