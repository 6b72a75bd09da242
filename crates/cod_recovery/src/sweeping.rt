//! Killed nodes, and what they take with them.

ghost use Rattle.std.specs.Prelude.{◌≡◌, ◌+◌, ◌<◌, ◌≤◌, ◌^◌, ◌++◌, ℕ, List, None, Some, Option, length, false};
ghost use Rattle.cod_board.specs.declared.kill.Kill.{Kill};
ghost use Rattle.cod_board.specs.Kills.{Keeps, kill_of};
ghost use Rattle.cod_chronicle.specs.Event.{Request, Setting};
ghost use Rattle.cod_chronicle.specs.Said.{numbers_by};
ghost use Rattle.cod_place.specs.Room.{Room};
ghost use Rattle.cod_recovery.specs.Sweeping.{IsSwept, IsTargetSwept, Rounds};
ghost use Rattle.cod_seg.specs.Next.{open_in};
ghost use Rattle.cod_seg.specs.Runs.{Runs};
ghost use Rattle.cod_seg.specs.Seg.{col_at, Rebuilding, Target};
ghost use Rattle.cod_seg.specs.Sound.{Sound};
ghost use Rattle.cod_segment.specs.Events.{Balances, HasRoom, IsSettingOf, kills_at, Makes, rebuild_rooms, rooms_of, Swept};
ghost use Rattle.cod_segment.specs.Exact.{SweepsExactly};

use cod_board::Board;
use cod_place::Pools;
use cod_region::Region;
use cod_segment::{Rebuild, Segment};

/// Each live column, in order, whose node is down on the board goes down. Where the node of the rebuild's target is down, the target is let go and its room given back.
pub fn sweep<R: Region, B: Board, P: Pools>(
    segment: &mut Segment<R>,
    board: &mut B,
    pools: &mut P,
    clock: &mut u64,
)
    requires sound { Sound segment.old }
    requires board { (length (B.kills board.old) ≡ segment.old.site.nodes) × B.ready board.old }
    requires pools { (P.nodes pools.old ≡ segment.old.site.nodes) × P.ready pools.old × P.Came pools.old (rooms_of segment.old) }
    requires room { HasRoom 0 segment.old }
    ensures sound { Sound segment.new }
    ensures makes { (w : Setting) (r : Request) → IsSettingOf w segment.old
        → ((x : ℕ) → w.known x ≡ kills_at (B.kills board.old) x) → ((x : ℕ) → w.seen x ≡ kills_at (B.kills board.new) x)
        → Makes w r clock.old clock.new false segment.old segment.new × Swept w segment.old clock.old clock.new segment.new × SweepsExactly w segment.old segment.new }
    ensures same { (segment.new.site ≡ segment.old.site) × (segment.new.frail ≡ segment.old.frail) × (segment.new.pools ≡ segment.old.pools)
        × (segment.new.cuts ≡ segment.old.cuts) × (segment.new.claims ≡ segment.old.claims) × (segment.new.version ≡ segment.old.version) }
    ensures numbers { (caller : ℕ) → numbers_by caller segment.new.log ≡ numbers_by caller segment.old.log }
    ensures open { (caller : ℕ) → open_in segment.new caller ≡ open_in segment.old caller }
    ensures long { length segment.new.log ≤ length segment.old.log + segment.old.site.shape.n }
    ensures target { (r : Rebuilding) (t : Target) → segment.new.rebuild ≡ Some r → r.target ≡ Some t → kill_of (B.kills board.new) t.room.node.0 ≡ None }
    ensures rooms { (rest : List Room) → P.Came pools.old (rooms_of segment.old ++ rest) → P.Came pools.new (rooms_of segment.new ++ rest) }
    ensures balance { Balances (P.free pools.old) (P.free pools.new) (rooms_of segment.old) (rooms_of segment.new) }
    ensures pools { (P.nodes pools.new ≡ P.nodes pools.old) × P.ready pools.new × P.same pools.old pools.new }
    ensures board { (length (B.kills board.new) ≡ length (B.kills board.old)) × Keeps (B.kills board.old) (B.kills board.new)
        × B.ready board.new × B.same board.old board.new }
{
    sweep_columns(segment, board, clock);
    sweep_target(&mut segment.rebuild, board, pools);
}

/// Each live column, in order, whose node is down on the board goes down.
fn sweep_columns<R: Region, B: Board>(segment: &mut Segment<R>, board: &mut B, clock: &mut u64)
    requires sound { Sound segment.old }
    requires board { (length (B.kills board.old) ≡ segment.old.site.nodes) × B.ready board.old }
    requires room { HasRoom 0 segment.old }
    ensures swept { (later : List (Option Kill)) (w : Setting) (r : Request) → Keeps (B.kills board.new) later → IsSettingOf w segment.old
        → ((x : ℕ) → w.known x ≡ kills_at (B.kills board.old) x) → ((x : ℕ) → w.seen x ≡ kills_at later x)
        → Rounds w r segment.old.site.shape.n clock.old clock.new segment.old segment.new }
    ensures runs { Runs 0 segment.old.site.shape.n segment.old segment.new }
    ensures rooms { rooms_of segment.new ≡ rooms_of segment.old }
    ensures board { (length (B.kills board.new) ≡ length (B.kills board.old)) × Keeps (B.kills board.old) (B.kills board.new)
        × B.ready board.new × B.same board.old board.new }
{
    for col in 0..segment.shape.n() {
        sweep_column(segment, col, board, clock);
    }
}

/// A live column whose node is down on the board goes down.
fn sweep_column<R: Region, B: Board>(
    segment: &mut Segment<R>,
    col: u8,
    board: &mut B,
    clock: &mut u64,
)
    requires col { col < length segment.old.cols }
    requires node { (col_at segment.old.cols col).room.node.0 < length (B.kills board.old) }
    requires ready { B.ready board.old }
    requires room { length segment.old.log + 1 < 2 ^ 63 }
    ensures swept { IsSwept (B.kills board.old) (B.kills board.new) col clock.old clock.new segment.old segment.new }
    ensures board { (length (B.kills board.new) ≡ length (B.kills board.old)) × Keeps (B.kills board.old) (B.kills board.new)
        × B.ready board.new × B.same board.old board.new }
{
    if segment.columns.live(col) {
        if let Some(kill) = board.down(segment.columns.node(col)) {
            segment.mark_killed(col, kill, clock);
        }
    }
}

/// A target whose node is down on the board is let go.
fn sweep_target<R: Region, B: Board, P: Pools>(
    rebuild: &mut Option<Rebuild<R>>,
    board: &mut B,
    pools: &mut P,
)
    requires node { (r : Rebuilding) (t : Target) → rebuild.old ≡ Some r → r.target ≡ Some t → t.room.node.0 < length (B.kills board.old) }
    requires board { B.ready board.old }
    requires came { P.Came pools.old (rebuild_rooms rebuild.old) }
    requires ready { P.ready pools.old }
    ensures swept { IsTargetSwept (B.kills board.old) (B.kills board.new) rebuild.old rebuild.new }
    ensures came { (rest : List Room) → P.Came pools.old (rebuild_rooms rebuild.old ++ rest) → P.Came pools.new (rebuild_rooms rebuild.new ++ rest) }
    ensures balance { Balances (P.free pools.old) (P.free pools.new) (rebuild_rooms rebuild.old) (rebuild_rooms rebuild.new) }
    ensures pools { (P.nodes pools.new ≡ P.nodes pools.old) × P.ready pools.new × P.same pools.old pools.new }
    ensures board { (length (B.kills board.new) ≡ length (B.kills board.old)) × Keeps (B.kills board.old) (B.kills board.new)
        × B.ready board.new × B.same board.old board.new }
{
    if let Some(rebuild) = rebuild {
        if let Some(node) = rebuild.target_node() {
            if board.down(node).is_some() {
                rebuild.drop_target(pools);
            }
        }
    }
}
