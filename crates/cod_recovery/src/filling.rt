//! A rebuild by pieces.

ghost use Rattle.std.specs.Prelude.{◌≡◌, ◌⊎◌, ◌+◌, ◌-◌, ◌<◌, ◌≤◌, ◌^◌, ◌++◌, IfErr, IsSome, List, MatchResult, OnOk, Some, length, true, false};
ghost use Rattle.cod_chronicle.specs.Event.{Setting};
ghost use Rattle.cod_chronicle.specs.Said.{is_over};
ghost use Rattle.cod_place.specs.Room.{Room};
ghost use Rattle.cod_repair.specs.Columns.{state_at};
ghost use Rattle.cod_seg.specs.Next.{next_step};
ghost use Rattle.cod_seg.specs.Seg.{Rebuilding, Target};
ghost use Rattle.cod_seg.specs.Sound.{Sound};
ghost use Rattle.cod_seg.specs.declared.next.Step.TheVariants as step;
ghost use Rattle.cod_segment.specs.Events.{Balances, call_in, Costs, goal_rooms, HasRoom, is_answered, IsAsked, IsOutcome, IsSettingOf, Makes, NoneFails, rebuild_rooms, request_of, rooms_of};
ghost use Rattle.cod_segment.specs.Exact.{Exactly};
ghost use Rattle.cod_recovery.specs.Filling.{AreBytesOf, IsBrokenOff, IsFailing, IsFetched, IsFilledBy, source_failed, sources_read, target_in};

use cod_claims::Slip;
use cod_place::Pools;
use cod_region::Region;
use cod_repair::{Bench, ColumnFailed, Columns, piece};
use cod_segment::{Asker, Outcome, Rebuild, Segment};

/// The most bytes of a piece.
const PIECE: usize = 4096;

/// Brings the next bytes of the column to the target. A column whose region fails goes down. A target whose region fails is
/// dropped.
pub fn rebuild_piece<R: Region, P: Pools>(
    segment: &mut Segment<R>,
    _slip: &Slip,
    asker: Asker,
    pools: &mut P,
    bench: &mut Bench,
    clock: &mut u64,
) -> Outcome
    requires sound { Sound segment.old }
    requires next { next_step segment.old asker.caller.0 (call_in _slip.now) ≡ step.RebuildPiece }
    requires asked { IsAsked segment.old asker.caller.0 asker.number _slip.now (call_in _slip.now) }
    requires pools { (P.nodes pools.old ≡ segment.old.site.nodes) × P.ready pools.old × P.Came pools.old (rooms_of segment.old) }
    requires bench { bench.old ≡ segment.old.site.shape }
    requires room { HasRoom 2 segment.old }
    ensures sound { Sound segment.new }
    ensures makes { (w : Setting) → IsSettingOf w segment.old
        → Makes w (request_of asker.caller.0 asker.number (call_in _slip.now)) clock.old clock.new (is_answered result) segment.old segment.new }
    ensures exact { (w : Setting) → Exactly w step.RebuildPiece result segment.old segment.new }
    ensures outcome { IsOutcome result (request_of asker.caller.0 asker.number (call_in _slip.now)) clock.new segment.new _slip.now }
    ensures costs { NoneFails segment.old segment.new → Costs segment.old asker.caller.0 (call_in _slip.now) step.RebuildPiece segment.new }
    ensures rooms { (rest : List Room) → P.Came pools.old (rooms_of segment.old ++ rest) → P.Came pools.new (rooms_of segment.new ++ rest) }
    ensures balance { Balances (P.free pools.old) (P.free pools.new) (rooms_of segment.old) (rooms_of segment.new) }
    ensures pools { (P.nodes pools.new ≡ P.nodes pools.old) × P.ready pools.new × P.same pools.old pools.new }
    ensures bench { bench.new ≡ bench.old }
{
    let (col, done) = aim(&segment.rebuild);
    let len = PIECE.min((segment.shape.block() - done) as usize);
    let mut bytes = [0; PIECE];
    bring(segment, col, done, &mut bytes[..len], pools, bench, clock);
    Outcome::Moved
}

/// The column of the rebuild in progress, and how many bytes of its target are there.
fn aim<R: Region>(rebuild: &Option<Rebuild<R>>) -> (u8, u32)
    requires { IsSome (target_in rebuild.now) }
    ensures { (r : Rebuilding) (t : Target) → rebuild.now ≡ Some r → r.target ≡ Some t → (result.0 ≡ r.col) × (result.1 ≡ t.filled) }
{
    match rebuild {
        Some(rebuild) => (rebuild.col, rebuild.done()),
        None => unreachable!(),
    }
}

/// Makes the next bytes of the column, as many as `into` has, and writes them on the target.
fn bring<R: Region, P: Pools>(
    segment: &mut Segment<R>,
    col: u8,
    done: u32,
    into: &mut [u8],
    pools: &mut P,
    bench: &mut Bench,
    clock: &mut u64,
)
    requires sound { Sound segment.old }
    requires few { is_over segment.old.site segment.old.log ≡ false }
    requires goal { IsSome (target_in segment.old.rebuild) }
    requires aim { (r : Rebuilding) (t : Target) → segment.old.rebuild ≡ Some r → r.target ≡ Some t → (col ≡ r.col) × (done ≡ t.filled) }
    requires inside { done + length into.old ≤ segment.old.site.shape.block }
    requires bench { bench.old ≡ segment.old.site.shape }
    requires came { P.Came pools.old (rebuild_rooms segment.old.rebuild) }
    requires ready { P.ready pools.old }
    requires room { length segment.old.log + 1 < 2 ^ 63 }
    ensures fetched { (r : Rebuilding) (t : Target) → segment.old.rebuild ≡ Some r → r.target ≡ Some t
        → IsFetched into.new r t clock.old clock.new segment.old segment.new }
    ensures came { (rest : List Room) → P.Came pools.old (rebuild_rooms segment.old.rebuild ++ rest) → P.Came pools.new (rebuild_rooms segment.new.rebuild ++ rest) }
    ensures balance { Balances (P.free pools.old) (P.free pools.new) (rebuild_rooms segment.old.rebuild) (rebuild_rooms segment.new.rebuild) }
    ensures pools { (P.nodes pools.new ≡ P.nodes pools.old) × P.ready pools.new × P.same pools.old pools.new }
    ensures bench { bench.new ≡ bench.old }
{
    match fetch(segment, col, done, into, bench) {
        Ok(()) => fill(&mut segment.rebuild, into, pools),
        Err(failed) => {
            reliable(&segment.columns, failed.col);
            segment.mark_fault(failed, clock);
        }
    }
}

/// Makes the next bytes of a column, as many as `into` has.
fn fetch<R: Region>(
    segment: &mut Segment<R>,
    col: u8,
    done: u32,
    into: &mut [u8],
    bench: &mut Bench,
) -> Result<(), ColumnFailed>
    requires sound { Sound segment.old }
    requires few { is_over segment.old.site segment.old.log ≡ false }
    requires col { col < segment.old.site.shape.n }
    requires inside { done + length into.old ≤ segment.old.site.shape.block }
    requires bench { bench.old ≡ segment.old.site.shape }
    ensures bytes { segment.old.site.told ≡ true → OnOk result (AreBytesOf segment.old col done into.new) }
    ensures reads { MatchResult result (λ _. segment.new ≡ record segment.old { cols = sources_read segment.old })
        (λ e. segment.new ≡ record segment.old { cols = source_failed segment.old e.col e.count }) }
    ensures cause { IfErr result (λ e. IsFailing segment.old e.col e.count) }
    ensures bench { bench.new ≡ bench.old }
{
    let (claims, cuts) = (&segment.claims, &segment.cuts);
    piece(&mut segment.columns, claims, cuts, col, done, into, bench)
}

/// A column's region that never fails has had no fault. This does nothing.
fn reliable<R: Region>(columns: &Columns<R>, col: u8)
    requires { col < length columns.now }
    ensures { (state_at columns.now col).device.never_fails ≡ true → (state_at columns.now col).device.faults ≡ 0 }
{
    let _region = columns.region(col);
}

/// Writes the next bytes on the target, by one write. One whose region fails is let go.
fn fill<R: Region, P: Pools>(rebuild: &mut Option<Rebuild<R>>, bytes: &[u8], pools: &mut P)
    requires goal { IsSome (target_in rebuild.old) }
    requires fits { (t : Target) → target_in rebuild.old ≡ Some t → (t.filled + length bytes.now ≤ t.device.size) × (t.room.node.0 < 64) }
    requires came { P.Came pools.old (rebuild_rooms rebuild.old) }
    requires ready { P.ready pools.old }
    ensures fills { (r : Rebuilding) (t : Target) → rebuild.old ≡ Some r → r.target ≡ Some t
        → (q : Rebuilding) × (rebuild.new ≡ Some q) × (IsFilledBy bytes.now t r q ⊎ IsBrokenOff t r q) }
    ensures came { (rest : List Room) → P.Came pools.old (rebuild_rooms rebuild.old ++ rest) → P.Came pools.new (rebuild_rooms rebuild.new ++ rest) }
    ensures balance { Balances (P.free pools.old) (P.free pools.new) (rebuild_rooms rebuild.old) (rebuild_rooms rebuild.new) }
    ensures pools { (P.nodes pools.new ≡ P.nodes pools.old) × P.ready pools.new × P.same pools.old pools.new }
{
    if let Some(rebuild) = rebuild {
        fill_target(rebuild, bytes, pools);
    }
}

/// The same for a rebuild.
fn fill_target<R: Region, P: Pools>(rebuild: &mut Rebuild<R>, bytes: &[u8], pools: &mut P)
    requires goal { IsSome rebuild.old.target }
    requires fits { (t : Target) → rebuild.old.target ≡ Some t → (t.filled + length bytes.now ≤ t.device.size) × (t.room.node.0 < 64) }
    requires came { P.Came pools.old (goal_rooms rebuild.old.target) }
    requires ready { P.ready pools.old }
    ensures fills { (t : Target) → rebuild.old.target ≡ Some t → IsFilledBy bytes.now t rebuild.old rebuild.new ⊎ IsBrokenOff t rebuild.old rebuild.new }
    ensures came { (rest : List Room) → P.Came pools.old (goal_rooms rebuild.old.target ++ rest) → P.Came pools.new (goal_rooms rebuild.new.target ++ rest) }
    ensures balance { Balances (P.free pools.old) (P.free pools.new) (goal_rooms rebuild.old.target) (goal_rooms rebuild.new.target) }
    ensures pools { (P.nodes pools.new ≡ P.nodes pools.old) × P.ready pools.new × P.same pools.old pools.new }
{
    if let Some(target) = &mut rebuild.target {
        let written = target.fill(bytes);
        if written.is_err() {
            rebuild.break_target(pools);
        }
    }
}
