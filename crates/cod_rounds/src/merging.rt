//! Merges.

ghost use Rattle.std.specs.Prelude.{◌≡◌, ◌≤◌};
ghost use Rattle.cod_chronicle.specs.Event.{Setting};
ghost use Rattle.cod_seg.specs.Next.{next_step};
ghost use Rattle.cod_seg.specs.Sound.{Sound};
ghost use Rattle.cod_seg.specs.declared.next.Step.TheVariants as step;
ghost use Rattle.cod_segment.specs.Events.{call_in, Costs, HasRoom, is_answered, IsAsked, IsOutcome, IsSettingOf, Makes, NoneFails, request_of, rooms_of};
ghost use Rattle.cod_segment.specs.Exact.{Exactly};
ghost use Rattle.cod_rounds.specs.Rounds.{Tended};
ghost use Rattle.cod_rounds.specs.Turns.{IsMerged, MayTurn, Turned};

use cod_claims::Slip;
use cod_region::Region;
use cod_repair::Bench;
use cod_segment::{Asker, Outcome, Segment};

/// The log of a parity column is merged, where it is live. It goes down where its region fails.
fn merge_column<R: Region>(segment: &mut Segment<R>, col: u8, bench: &mut Bench, clock: &mut u64)
    requires turn { MayTurn col segment.old }
    requires parity { segment.old.site.shape.k ≤ col }
    requires bench { bench.old ≡ segment.old.site.shape }
    ensures turned { Turned (IsMerged segment.old.site.shape segment.old.frail segment.old.cuts col) col segment.old clock.old segment.new clock.new }
    ensures bench { bench.new ≡ bench.old }
{
    if !segment.columns.live(col) {
        return;
    }
    let Err(failed) = segment.columns.merge(col, &segment.cuts, bench) else {
        return;
    };
    segment.mark_fault(failed, clock);
}

/// The logs of the live parity columns are merged, in order.
fn merge_columns<R: Region>(segment: &mut Segment<R>, bench: &mut Bench, clock: &mut u64)
    requires sound { Sound segment.old }
    requires bench { bench.old ≡ segment.old.site.shape }
    requires room { HasRoom 2 segment.old }
    ensures tended { Tended segment.old.site.shape.n segment.old clock.old segment.new clock.new }
    ensures rooms { rooms_of segment.new ≡ rooms_of segment.old }
    ensures bench { bench.new ≡ bench.old }
{
    for col in segment.shape.k()..segment.shape.n() {
        merge_column(segment, col, bench, clock);
    }
}

/// The logs of the live parity columns are merged, in order, and the call is answered.
pub fn merge<R: Region>(
    segment: &mut Segment<R>,
    slip: &mut Slip,
    asker: Asker,
    bench: &mut Bench,
    clock: &mut u64,
) -> Outcome
    requires sound { Sound segment.old }
    requires next { next_step segment.old asker.caller.0 (call_in slip.old) ≡ step.Merge }
    requires asked { IsAsked segment.old asker.caller.0 asker.number slip.old (call_in slip.old) }
    requires bench { bench.old ≡ segment.old.site.shape }
    requires room { HasRoom 2 segment.old }
    ensures sound { Sound segment.new }
    ensures makes { (w : Setting) → IsSettingOf w segment.old
        → Makes w (request_of asker.caller.0 asker.number (call_in slip.old)) clock.old clock.new (is_answered result) segment.old segment.new }
    ensures exact { (w : Setting) → Exactly w step.Merge result segment.old segment.new }
    ensures outcome { IsOutcome result (request_of asker.caller.0 asker.number (call_in slip.old)) clock.new segment.new slip.new }
    ensures costs { NoneFails segment.old segment.new → Costs segment.old asker.caller.0 (call_in slip.old) step.Merge segment.new }
    ensures rooms { rooms_of segment.new ≡ rooms_of segment.old }
    ensures bench { bench.new ≡ bench.old }
{
    merge_columns(segment, bench, clock);
    segment.answer_done(slip, asker, clock)
}
