//! A put of all bytes.

ghost use Rattle.std.specs.Prelude.{◌≡◌, ◌⊎◌, ◌<◌, ◌≤◌, ◌++◌, ◌∷◌, [], ℕ, List, IsSome, Some, None, false, true, length};
ghost use Rattle.cod_types.specs.Limits.{segment_length};
ghost use Rattle.cod_types.specs.declared.call.Call.TheVariants.{Put};
ghost use Rattle.cod_code.specs.Codewords.{AreBytes};
ghost use Rattle.cod_chronicle.specs.Event.{Setting};
ghost use Rattle.cod_place.specs.Room.{Room};
ghost use Rattle.cod_seg.specs.Next.{next_step};
ghost use Rattle.cod_seg.specs.Seg.{Target as Goal};
ghost use Rattle.cod_seg.specs.Sound.{MayRebuild, Sound};
ghost use Rattle.cod_seg.specs.declared.next.Step.TheVariants as step;
ghost use Rattle.cod_segment.specs.Events.{Balances, call_in, Costs, goal_rooms, HasRoom, is_answered, IsAsked, IsOutcome, IsSettingOf, Makes, NoneFails, request_of, rooms_of};
ghost use Rattle.cod_segment.specs.Exact.{Exactly};
ghost use Rattle.cod_rounds.specs.Rounds.{BreaksOn, Given, GivesGoal, MayGet, PutsOn};
ghost use Rattle.cod_rounds.specs.Turns.{IsGiven, MayTurn, Turned};

use cod_claims::Slip;
use cod_place::Pools;
use cod_region::Region;
use cod_repair::Bench;
use cod_segment::{Asker, Outcome, Rebuild, Segment};
use cod_step::is_lost;
use cod_types::{Call, Reply};

/// A column gets its bytes of the segment, where it is live. It goes down where its region fails.
fn put_column<R: Region>(
    segment: &mut Segment<R>,
    col: u8,
    bytes: &[u8],
    bench: &mut Bench,
    clock: &mut u64,
)
    requires turn { MayTurn col segment.old }
    requires long { length bytes.now ≡ segment_length segment.old.site.shape }
    requires plain { AreBytes bytes.now }
    requires bench { bench.old ≡ segment.old.site.shape }
    ensures turned { Turned (IsGiven segment.old.site.shape segment.old.frail bytes.now segment.old.cuts col) col segment.old clock.old segment.new clock.new }
    ensures bench { bench.new ≡ bench.old }
{
    if !segment.columns.live(col) {
        return;
    }
    let Err(failed) = segment.columns.put(col, bytes, bench) else {
        return;
    };
    segment.mark_fault(failed, clock);
}

/// Each live column, in order, gets its bytes of the segment.
fn put_columns<R: Region>(
    segment: &mut Segment<R>,
    bytes: &[u8],
    bench: &mut Bench,
    clock: &mut u64,
)
    requires sound { Sound segment.old }
    requires long { length bytes.now ≡ segment_length segment.old.site.shape }
    requires plain { AreBytes bytes.now }
    requires bench { bench.old ≡ segment.old.site.shape }
    requires room { HasRoom 2 segment.old }
    ensures given { Given bytes.now segment.old.site.shape.n segment.old clock.old segment.new clock.new }
    ensures bench { bench.new ≡ bench.old }
{
    for col in 0..segment.shape.n() {
        put_column(segment, col, bytes, bench, clock);
    }
}

/// The bytes that are on the target of a rebuild become those of the segment. Where its region fails it is let go.
fn put_target<R: Region, P: Pools>(
    rebuild: &mut Rebuild<R>,
    bytes: &[u8],
    pools: &mut P,
    bench: &mut Bench,
)
    requires may { (t : Goal) → rebuild.old.target ≡ Some t → MayGet bench.old t }
    requires col { rebuild.old.col < bench.old.n }
    requires long { length bytes.now ≡ segment_length bench.old }
    requires plain { AreBytes bytes.now }
    requires pools { P.ready pools.old × P.Came pools.old (goal_rooms rebuild.old.target) }
    ensures puts { PutsOn bench.old bytes.now rebuild.old rebuild.new ⊎ BreaksOn rebuild.old rebuild.new }
    ensures rooms { (rest : List Room) → P.Came pools.old (goal_rooms rebuild.old.target ++ rest) → P.Came pools.new (goal_rooms rebuild.new.target ++ rest) }
    ensures balance { Balances (P.free pools.old) (P.free pools.new) (goal_rooms rebuild.old.target) (goal_rooms rebuild.new.target) }
    ensures pools { (P.nodes pools.new ≡ P.nodes pools.old) × P.ready pools.new × P.same pools.old pools.new }
    ensures bench { bench.new ≡ bench.old }
{
    let Some(target) = &mut rebuild.target else {
        return;
    };
    if target.put(rebuild.col, bytes, bench).is_ok() {
        return;
    }
    rebuild.break_target(pools);
}

/// The same for the rebuild that is in progress, if one is.
fn put_goal<R: Region, P: Pools>(
    segment: &mut Segment<R>,
    bytes: &[u8],
    pools: &mut P,
    bench: &mut Bench,
)
    requires rebuilt { MayRebuild segment.old.site segment.old.frail segment.old.pools segment.old.log segment.old.rebuild }
    requires nodes { segment.old.site.nodes ≤ 64 }
    requires long { length bytes.now ≡ segment_length segment.old.site.shape }
    requires plain { AreBytes bytes.now }
    requires pools { P.ready pools.old × P.Came pools.old (rooms_of segment.old) }
    requires bench { bench.old ≡ segment.old.site.shape }
    ensures becomes { segment.new ≡ record segment.old { rebuild = segment.new.rebuild } }
    ensures gives { GivesGoal segment.old.site.shape bytes.now segment.old.rebuild segment.new.rebuild }
    ensures rooms { (rest : List Room) → P.Came pools.old (rooms_of segment.old ++ rest) → P.Came pools.new (rooms_of segment.new ++ rest) }
    ensures balance { Balances (P.free pools.old) (P.free pools.new) (rooms_of segment.old) (rooms_of segment.new) }
    ensures pools { (P.nodes pools.new ≡ P.nodes pools.old) × P.ready pools.new × P.same pools.old pools.new }
    ensures bench { bench.new ≡ bench.old }
{
    let Some(rebuild) = &mut segment.rebuild else {
        return;
    };
    put_target(rebuild, bytes, pools, bench);
}

/// The bytes of a put.
fn put_bytes(call: &Call) -> &[u8]
    requires put { (bytes : List ℕ) × (call.now ≡ Put bytes) }
    ensures same { call.now ≡ Put result.now }
    ensures plain { AreBytes result.now }
{
    match call {
        Call::Put { bytes } => bytes.as_slice(),
        _ => unreachable!(),
    }
}

/// Each live column, in order, gets its bytes, and so does the target of a rebuild in progress; the call is answered. Where too many
/// columns are down by then, it is lost, and the target gets none.
pub fn put<R: Region, P: Pools>(
    segment: &mut Segment<R>,
    slip: &mut Slip,
    asker: Asker,
    pools: &mut P,
    bench: &mut Bench,
    clock: &mut u64,
) -> Outcome
    requires sound { Sound segment.old }
    requires next { next_step segment.old asker.caller.0 (call_in slip.old) ≡ step.Put }
    requires asked { IsAsked segment.old asker.caller.0 asker.number slip.old (call_in slip.old) }
    requires pools { (P.nodes pools.old ≡ segment.old.site.nodes) × P.ready pools.old × P.Came pools.old (rooms_of segment.old) }
    requires bench { bench.old ≡ segment.old.site.shape }
    requires room { HasRoom 2 segment.old }
    ensures sound { Sound segment.new }
    ensures makes { (w : Setting) → IsSettingOf w segment.old
        → Makes w (request_of asker.caller.0 asker.number (call_in slip.old)) clock.old clock.new (is_answered result) segment.old segment.new }
    ensures exact { (w : Setting) → Exactly w step.Put result segment.old segment.new }
    ensures outcome { IsOutcome result (request_of asker.caller.0 asker.number (call_in slip.old)) clock.new segment.new slip.new }
    ensures costs { NoneFails segment.old segment.new → Costs segment.old asker.caller.0 (call_in slip.old) step.Put segment.new }
    ensures rooms { (rest : List Room) → P.Came pools.old (rooms_of segment.old ++ rest) → P.Came pools.new (rooms_of segment.new ++ rest) }
    ensures balance { Balances (P.free pools.old) (P.free pools.new) (rooms_of segment.old) (rooms_of segment.new) }
    ensures pools { (P.nodes pools.new ≡ P.nodes pools.old) × P.ready pools.new × P.same pools.old pools.new }
    ensures bench { bench.new ≡ bench.old }
{
    let bytes = put_bytes(slip.call());
    put_columns(segment, bytes, bench, clock);
    if is_lost(&segment.shape, &segment.columns.live_nodes()) {
        return segment.answer_lost(slip, asker, clock);
    }
    put_goal(segment, bytes, pools, bench);
    segment.answer(slip, asker, clock, Reply::Done, Reply::Done)
}
