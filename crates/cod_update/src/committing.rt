//! The commit of an update.

ghost use Rattle.std.specs.Prelude.{◌≡◌, ◌+◌, ◌-◌, ◌<◌, ◌≤◌, ◌^◌, ◌++◌, ◌∷◌, [], ℕ, List, All, IsSome, Some, None, length, slice_index};
ghost use Rattle.cod_types.specs.declared.call.Reply.TheVariants.{Done};
ghost use Rattle.cod_chronicle.specs.Event.{Setting};
ghost use Rattle.cod_chronicle.specs.Said.{clock_of, next_stamp, numbers_by, StampFollows};
ghost use Rattle.cod_chronicle.specs.declared.entry.Entry.TheVariants.{Call};
ghost use Rattle.cod_claims.specs.Claimed.{without_claims};
ghost use Rattle.cod_place.specs.Room.{Room};
ghost use Rattle.cod_seg.specs.Next.{next_step};
ghost use Rattle.cod_seg.specs.Sound.{Sound};
ghost use Rattle.cod_seg.specs.Steps.{raised_to};
ghost use Rattle.cod_seg.specs.declared.next.Step.TheVariants as step;
ghost use Rattle.cod_segment.specs.declared.asking.Outcome.TheVariants.{Answered};
ghost use Rattle.cod_segment.specs.Events.{Balances, call_in, Costs, HasRoom, is_answered, IsAsked, IsOutcome, IsSettingOf, Makes, NoneFails, request_of, rooms_of};
ghost use Rattle.cod_segment.specs.Exact.{Exactly};

use crate::correcting::correct;
use cod_claims::Slip;
use cod_place::Pools;
use cod_region::Region;
use cod_repair::Bench;
use cod_segment::{Asker, Outcome, Segment};
use cod_step::raise_cuts;
use cod_types::Reply;

/// Makes the caller's update a part of the segment, and answers it. The target of a rebuild in progress is corrected before.
pub fn commit<R: Region, P: Pools>(
    segment: &mut Segment<R>,
    slip: &mut Slip,
    asker: Asker,
    pools: &mut P,
    bench: &mut Bench,
    clock: &mut u64,
) -> Outcome
    requires sound { Sound segment.old }
    requires next { next_step segment.old asker.caller.0 (call_in slip.old) ≡ step.Commit }
    requires asked { IsAsked segment.old asker.caller.0 asker.number slip.old (call_in slip.old) }
    requires pools { (P.nodes pools.old ≡ segment.old.site.nodes) × P.ready pools.old × P.Came pools.old (rooms_of segment.old) }
    requires bench { bench.old ≡ segment.old.site.shape }
    requires room { HasRoom 2 segment.old }
    ensures sound { Sound segment.new }
    ensures makes { (w : Setting) → IsSettingOf w segment.old
        → Makes w (request_of asker.caller.0 asker.number (call_in slip.old)) clock.old clock.new (is_answered result) segment.old segment.new }
    ensures exact { (w : Setting) → Exactly w step.Commit result segment.old segment.new }
    ensures outcome { IsOutcome result (request_of asker.caller.0 asker.number (call_in slip.old)) clock.new segment.new slip.new }
    ensures costs { NoneFails segment.old segment.new → Costs segment.old asker.caller.0 (call_in slip.old) step.Commit segment.new }
    ensures rooms { (rest : List Room) → P.Came pools.old (rooms_of segment.old ++ rest) → P.Came pools.new (rooms_of segment.new ++ rest) }
    ensures balance { Balances (P.free pools.old) (P.free pools.new) (rooms_of segment.old) (rooms_of segment.new) }
    ensures pools { (P.nodes pools.new ≡ P.nodes pools.old) × P.ready pools.new × P.same pools.old pools.new }
    ensures bench { bench.new ≡ bench.old }
{
    correct(segment, asker.caller, pools, bench);
    close(segment, slip, asker, clock)
}

/// The cuts of the caller's blocks rise, its claims end, and its call is answered.
fn close<R: Region>(
    segment: &mut Segment<R>,
    slip: &mut Slip,
    asker: Asker,
    clock: &mut u64,
) -> Outcome
    requires few { segment.old.site.shape.k ≤ 16 }
    requires small { (j : ℕ) → slice_index segment.old.cuts j < 2 ^ 63 }
    requires sixteen { length segment.old.cuts ≡ 16 }
    requires call { IsSome slip.old.call }
    requires link { 0 < slip.old.links }
    requires unanswered { slip.old.reply ≡ None }
    requires newest { All (λ m. m < asker.number) (numbers_by asker.caller.0 segment.old.log) }
    requires room { length segment.old.log + 1 < 2 ^ 63 }
    ensures becomes { segment.new ≡ record segment.old {
      cuts = raised_to segment.old.site.shape.k asker.caller.0 segment.old.claims segment.old.cuts;
      claims = without_claims asker.caller.0 segment.old.claims;
      log = segment.old.log ++ Call asker.caller asker.number clock.new (call_in slip.old) Done ∷ [];
    } }
    ensures clock { clock.new ≡ next_stamp (clock_of segment.old.log) clock.old }
    ensures slip { slip.new ≡ record slip.old { call = None; links = slip.old.links - 1; reply = Some Done } }
    ensures outcome { result ≡ Answered (length segment.old.log) clock.new }
    ensures follows { StampFollows segment.old.log clock.new }
{
    raise_cuts(
        &mut segment.cuts,
        &segment.claims,
        asker.caller,
        segment.shape.k(),
    );
    segment.claims.release(asker.caller);
    segment.answer(slip, asker, clock, Reply::Done, Reply::Done)
}
