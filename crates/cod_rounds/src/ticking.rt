//! Ticks.

ghost use Rattle.std.specs.Prelude.{◌≡◌, ◌≤◌, ◌++◌, ◌∷◌, [], ℕ, List, length, true, false};
ghost use Rattle.std.specs.List.{filter, flat_map};
ghost use Rattle.cod_types.specs.Limits.{floor};
ghost use Rattle.cod_chronicle.specs.Event.{Setting};
ghost use Rattle.cod_parity.specs.Log.{is_past, Logged, text};
ghost use Rattle.cod_parity.specs.State.{Means};
ghost use Rattle.cod_place.specs.Room.{Room};
ghost use Rattle.cod_repair.specs.Columns.{state_at};
ghost use Rattle.cod_seg.specs.Next.{next_step};
ghost use Rattle.cod_seg.specs.Seg.{col_at};
ghost use Rattle.cod_seg.specs.Sound.{Sound};
ghost use Rattle.cod_seg.specs.declared.next.Step.TheVariants as step;
ghost use Rattle.cod_segment.specs.Events.{Balances, call_in, Costs, HasRoom, is_answered, IsAsked, IsOutcome, IsSettingOf, Makes, NoneFails, request_of, rooms_of};
ghost use Rattle.cod_segment.specs.Exact.{Exactly};
ghost use Rattle.cod_chronicle.specs.Said.{is_over};
ghost use Rattle.cod_rounds.specs.Rounds.{Tended};
ghost use Rattle.cod_rounds.specs.Turns.{IsTended, MayTurn, Turned};

use cod_claims::Slip;
use cod_place::Pools;
use cod_predict::{Policy, Rule};
use cod_region::Region;
use cod_repair::Bench;
use cod_segment::{Asker, Outcome, Segment};

/// A tick of a parity column, where it is live. What it cuts off is given back. The column goes down where its region fails.
fn tick_column<R: Region, P: Pools, W: Rule>(
    segment: &mut Segment<R>,
    col: u8,
    pools: &mut P,
    policy: &Policy<W>,
    bench: &mut Bench,
    clock: &mut u64,
)
    requires turn { MayTurn col segment.old }
    requires parity { segment.old.site.shape.k ≤ col }
    requires floor { (col_at segment.old.cols col).is_up ≡ true → (base : List ℕ) (records : List Logged) → Means (state_at segment.old.cols col) base records
        → length (flat_map text (filter (is_past segment.old.cuts) records)) ≤ floor segment.old.site.shape }
    requires pools { P.ready pools.old × P.Came pools.old (rooms_of segment.old) }
    requires bench { bench.old ≡ segment.old.site.shape }
    ensures turned { Turned (IsTended segment.old.site.shape segment.old.frail segment.old.cuts col) col segment.old clock.old segment.new clock.new }
    ensures rooms { (rest : List Room) → P.Came pools.old (rooms_of segment.old ++ rest) → P.Came pools.new (rooms_of segment.new ++ rest) }
    ensures balance { Balances (P.free pools.old) (P.free pools.new) (rooms_of segment.old) (rooms_of segment.new) }
    ensures pools { (P.nodes pools.new ≡ P.nodes pools.old) × P.ready pools.new × P.same pools.old pools.new }
    ensures bench { bench.new ≡ bench.old }
{
    if !segment.columns.live(col) {
        return;
    }
    let cut = match segment.columns.tick(col, policy, &segment.cuts, bench) {
        Ok(cut) => cut,
        Err(failed) => {
            segment.mark_fault(failed, clock);
            return;
        }
    };
    segment.columns.trim(col, cut, pools);
}

/// A tick of each live parity column, in order.
fn tick_columns<R: Region, P: Pools, W: Rule>(
    segment: &mut Segment<R>,
    pools: &mut P,
    policy: &Policy<W>,
    bench: &mut Bench,
    clock: &mut u64,
)
    requires sound { Sound segment.old }
    requires few { is_over segment.old.site segment.old.log ≡ false }
    requires pools { P.ready pools.old × P.Came pools.old (rooms_of segment.old) }
    requires bench { bench.old ≡ segment.old.site.shape }
    requires room { HasRoom 2 segment.old }
    ensures tended { Tended segment.old.site.shape.n segment.old clock.old segment.new clock.new }
    ensures rooms { (rest : List Room) → P.Came pools.old (rooms_of segment.old ++ rest) → P.Came pools.new (rooms_of segment.new ++ rest) }
    ensures balance { Balances (P.free pools.old) (P.free pools.new) (rooms_of segment.old) (rooms_of segment.new) }
    ensures pools { (P.nodes pools.new ≡ P.nodes pools.old) × P.ready pools.new × P.same pools.old pools.new }
    ensures bench { bench.new ≡ bench.old }
{
    for col in segment.shape.k()..segment.shape.n() {
        tick_column(segment, col, pools, policy, bench, clock);
    }
}

/// A tick of each live parity column, in order, and the call is answered. What the ticks cut off is given back.
pub fn tick<R: Region, P: Pools, W: Rule>(
    segment: &mut Segment<R>,
    slip: &mut Slip,
    asker: Asker,
    pools: &mut P,
    policy: &Policy<W>,
    bench: &mut Bench,
    clock: &mut u64,
) -> Outcome
    requires sound { Sound segment.old }
    requires next { next_step segment.old asker.caller.0 (call_in slip.old) ≡ step.Tick }
    requires asked { IsAsked segment.old asker.caller.0 asker.number slip.old (call_in slip.old) }
    requires pools { (P.nodes pools.old ≡ segment.old.site.nodes) × P.ready pools.old × P.Came pools.old (rooms_of segment.old) }
    requires bench { bench.old ≡ segment.old.site.shape }
    requires room { HasRoom 2 segment.old }
    ensures sound { Sound segment.new }
    ensures makes { (w : Setting) → IsSettingOf w segment.old
        → Makes w (request_of asker.caller.0 asker.number (call_in slip.old)) clock.old clock.new (is_answered result) segment.old segment.new }
    ensures exact { (w : Setting) → Exactly w step.Tick result segment.old segment.new }
    ensures outcome { IsOutcome result (request_of asker.caller.0 asker.number (call_in slip.old)) clock.new segment.new slip.new }
    ensures costs { NoneFails segment.old segment.new → Costs segment.old asker.caller.0 (call_in slip.old) step.Tick segment.new }
    ensures rooms { (rest : List Room) → P.Came pools.old (rooms_of segment.old ++ rest) → P.Came pools.new (rooms_of segment.new ++ rest) }
    ensures balance { Balances (P.free pools.old) (P.free pools.new) (rooms_of segment.old) (rooms_of segment.new) }
    ensures pools { (P.nodes pools.new ≡ P.nodes pools.old) × P.ready pools.new × P.same pools.old pools.new }
    ensures bench { bench.new ≡ bench.old }
{
    tick_columns(segment, pools, policy, bench, clock);
    segment.answer_done(slip, asker, clock)
}
