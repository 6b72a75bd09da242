//! The begin of a rebuild, and its end in vain.

ghost use Rattle.std.specs.Prelude.{◌≡◌, ◌+◌, ◌-◌, ◌<◌, ◌≤◌, ◌^◌, ◌++◌, ◌∷◌, [], All, ℕ, IfErr, IfOk, IsSome, List, None, Some, false, length, true};
ghost use Rattle.cod_types.specs.Columns.{column_size};
ghost use Rattle.cod_chronicle.specs.Event.{Setting};
ghost use Rattle.cod_chronicle.specs.Legal.{node_id};
ghost use Rattle.cod_chronicle.specs.Said.{clock_of, next_stamp, numbers_by, StampFollows};
ghost use Rattle.cod_chronicle.specs.declared.entry.Entry.TheVariants.{Call};
ghost use Rattle.cod_board.specs.Kills.{Keeps};
ghost use Rattle.cod_place.specs.Room.{Room};
ghost use Rattle.cod_repair.specs.Columns.{first_down};
ghost use Rattle.cod_seg.specs.Next.{next_step};
ghost use Rattle.cod_seg.specs.Seg.{Rebuilding};
ghost use Rattle.cod_seg.specs.Sound.{is_frail, Sound};
ghost use Rattle.cod_seg.specs.declared.next.Step.TheVariants as step;
ghost use Rattle.cod_segment.specs.Events.{Balances, call_in, Costs, HasRoom, is_answered, IsAsked, IsOutcome, IsSettingOf, kills_at, Makes, NoneFails, request_of, rooms_of};
ghost use Rattle.cod_segment.specs.Exact.{Exactly};
ghost use Rattle.cod_segment.specs.Looks.{HasLooked, IsLooked};
ghost use Rattle.cod_segment.specs.declared.asking.Outcome.TheVariants.{Answered};
ghost use Rattle.cod_placing.specs.Places.{HasNoSpare, IsFresh, rooms_in};
ghost use Rattle.cod_placing.specs.Starts.{chosen, slip_for, vain};
ghost use Rattle.cod_placing.specs.declared.placing.Missing.TheVariants.{Spare};

use crate::placing::{Missing, place_for};
use cod_board::Board;
use cod_claims::Slip;
use cod_place::{Broken, Pools};
use cod_region::{Region, Shelf};
use cod_repair::Target;
use cod_segment::{Asker, Outcome, Rebuild, Segment};
use cod_step::copy_reasons;
use cod_types::{Reasons, Reply};
use std::alloc::Global;

/// Aims a caller's rebuild, which begins with the lowest column that is down unless it is in progress: its target is a region of
/// zeros on a spare node. Where there is none, or no memory for it, the rebuild ends, and the call is answered.
pub fn rebuild_start<R: Region, B: Board, P: Pools, H: Shelf<Region = R>>(
    segment: &mut Segment<R>,
    slip: &mut Slip,
    asker: Asker,
    alloc: Global,
    board: &mut B,
    pools: &mut P,
    shelf: &H,
    clock: &mut u64,
) -> Outcome
    requires sound { Sound segment.old }
    requires next { next_step segment.old asker.caller.0 (call_in slip.old) ≡ step.RebuildStart }
    requires asked { IsAsked segment.old asker.caller.0 asker.number slip.old (call_in slip.old) }
    requires board { (length (B.kills board.old) ≡ segment.old.site.nodes) × B.ready board.old }
    requires pools { (P.nodes pools.old ≡ segment.old.site.nodes) × P.ready pools.old × P.Came pools.old (rooms_of segment.old) }
    requires shelf { (node : ℕ) → node < segment.old.site.nodes → is_frail segment.old.frail node ≡ false → (H.regions shelf.now).never_fail (node_id node) ≡ true }
    requires room { HasRoom 2 segment.old }
    ensures sound { Sound segment.new }
    ensures makes { (w : Setting) → IsSettingOf w segment.old → ((x : ℕ) → w.seen x ≡ kills_at (B.kills board.new) x)
        → Makes w (request_of asker.caller.0 asker.number (call_in slip.old)) clock.old clock.new (is_answered result) segment.old segment.new }
    ensures exact { (w : Setting) → ((x : ℕ) → w.known x ≡ kills_at (B.kills board.old) x) → Exactly w step.RebuildStart result segment.old segment.new }
    ensures outcome { IsOutcome result (request_of asker.caller.0 asker.number (call_in slip.old)) clock.new segment.new slip.new }
    ensures looked { HasLooked (P.Seen pools.old pools.new) slip.new.reply }
    ensures costs { NoneFails segment.old segment.new → Costs segment.old asker.caller.0 (call_in slip.old) step.RebuildStart segment.new }
    ensures rooms { (rest : List Room) → P.Came pools.old (rooms_of segment.old ++ rest) → P.Came pools.new (rooms_of segment.new ++ rest) }
    ensures balance { Balances (P.free pools.old) (P.free pools.new) (rooms_of segment.old) (rooms_of segment.new) }
    ensures pools { (P.nodes pools.new ≡ P.nodes pools.old) × P.ready pools.new × P.same pools.old pools.new }
    ensures board { (length (B.kills board.new) ≡ length (B.kills board.old)) × Keeps (B.kills board.old) (B.kills board.new)
        × B.ready board.new × B.same board.old board.new }
{
    choose_column(segment, slip, asker);
    let (first, second) = slip.take_reasons();
    let mut reasons = first;
    match place_for_rebuild(segment, alloc, board, pools, shelf, &mut reasons) {
        Ok(target) => {
            aim(segment, target);
            slip.put_reasons((reasons, second));
            Outcome::Moved
        }
        Err(missing) => give_up(segment, slip, asker, clock, missing, reasons, second),
    }
}

/// The lowest column that is down is that of a rebuild from now on, unless one is in progress.
fn choose_column<R: Region>(segment: &mut Segment<R>, slip: &mut Slip, asker: Asker)
    requires some { segment.old.rebuild ≡ None → IsSome (first_down segment.old.cols) }
    requires links { segment.old.rebuild ≡ None → 2 ≤ slip.old.links }
    ensures becomes { segment.new ≡ record segment.old { rebuild = Some (chosen asker.caller.0 asker.number segment.old.cols segment.old.rebuild) } }
    ensures slip { slip.new ≡ slip_for segment.old.rebuild slip.old }
{
    if segment.rebuild.is_none() {
        let Some(col) = segment.columns.lowest_down() else {
            unreachable!()
        };
        segment.rebuild = Some(Rebuild {
            asker,
            col,
            broken: Broken::new(),
            up: slip.take_link(),
            mark: slip.take_link(),
            target: None,
        });
    }
}

/// A place for the column of the rebuild in progress.
fn place_for_rebuild<R: Region, B: Board, P: Pools, H: Shelf<Region = R>>(
    segment: &Segment<R>,
    alloc: Global,
    board: &mut B,
    pools: &mut P,
    shelf: &H,
    reasons: &mut Reasons,
) -> Result<Target<R>, Missing>
    requires sound { Sound segment.now }
    requires progress { IsSome segment.now.rebuild }
    requires board { (length (B.kills board.old) ≡ segment.now.site.nodes) × B.ready board.old }
    requires pools { (P.nodes pools.old ≡ segment.now.site.nodes) × P.ready pools.old × P.Came pools.old (rooms_of segment.now) }
    requires shelf { (node : ℕ) → node < segment.now.site.nodes → is_frail segment.now.frail node ≡ false → (H.regions shelf.now).never_fail (node_id node) ≡ true }
    ensures found { (r : Rebuilding) → segment.now.rebuild ≡ Some r
        → IfOk result (λ t. IsFresh segment.now (column_size segment.now.site.shape r.col) r.broken (B.kills board.new) t) }
    ensures missing { (r : Rebuilding) → segment.now.rebuild ≡ Some r
        → IfErr result (λ e. e ≡ Spare → HasNoSpare segment.now r.col (B.kills board.new) reasons.new) }
    ensures looked { IfErr result (λ e. e ≡ Spare → All (λ r. IsLooked (P.Seen pools.old pools.new) r.node.0 r.why) reasons.new) }
    ensures rooms { (rest : List Room) → P.Came pools.old rest → P.Came pools.new (rooms_in result ++ rest) }
    ensures balance { Balances (P.free pools.old) (P.free pools.new) [] (rooms_in result) }
    ensures pools { (P.nodes pools.new ≡ P.nodes pools.old) × P.ready pools.new × P.same pools.old pools.new }
    ensures board { (length (B.kills board.new) ≡ length (B.kills board.old)) × Keeps (B.kills board.old) (B.kills board.new)
        × B.ready board.new × B.same board.old board.new }
{
    match &segment.rebuild {
        Some(rebuild) => {
            let (col, broken) = (rebuild.col, &rebuild.broken);
            let bytes = segment.shape.column_size(col);
            place_for(
                segment, alloc, col, bytes, broken, board, pools, shelf, reasons,
            )
        }
        None => unreachable!(),
    }
}

/// The rebuild in progress has this target from now on.
fn aim<R: Region>(segment: &mut Segment<R>, target: Target<R>)
    requires progress { IsSome segment.old.rebuild }
    ensures { (r : Rebuilding) → segment.old.rebuild ≡ Some r → segment.new ≡ record segment.old { rebuild = Some (record r { target = Some target }) } }
{
    if let Some(rebuild) = &mut segment.rebuild {
        rebuild.target = Some(target);
    }
}

/// The rebuild ends without a place, and its call is answered.
fn give_up<R: Region>(
    segment: &mut Segment<R>,
    slip: &mut Slip,
    asker: Asker,
    clock: &mut u64,
    missing: Missing,
    reasons: Reasons,
    second: Reasons,
) -> Outcome
    requires call { IsSome slip.old.call }
    requires link { 0 < slip.old.links }
    requires unanswered { slip.old.reply ≡ None }
    requires newest { All (λ m. m < asker.number) (numbers_by asker.caller.0 segment.old.log) }
    requires room { length segment.old.log + 1 < 2 ^ 63 }
    ensures becomes { segment.new ≡ record segment.old {
      rebuild = None;
      log = segment.old.log ++ Call asker.caller asker.number clock.new (call_in slip.old) (vain missing reasons) ∷ [];
    } }
    ensures clock { clock.new ≡ next_stamp (clock_of segment.old.log) clock.old }
    ensures slip { slip.new ≡ record slip.old { call = None; links = slip.old.links - 1; reply = Some (vain missing reasons) } }
    ensures outcome { result ≡ Answered (length segment.old.log) clock.new }
    ensures follows { StampFollows segment.old.log clock.new }
{
    segment.rebuild = None;
    match missing {
        Missing::Spare => {
            let told = Reply::NoSpare(copy_reasons(&reasons, second));
            segment.answer(slip, asker, clock, Reply::NoSpare(reasons), told)
        }
        Missing::Memory => segment.answer(slip, asker, clock, Reply::NoMem, Reply::NoMem),
    }
}
