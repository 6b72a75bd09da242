//! Calls that are lost.

ghost use Rattle.std.specs.Prelude.{◌≡◌, ◌++◌, List, Some};
ghost use Rattle.cod_chronicle.specs.Event.{Setting};
ghost use Rattle.cod_place.specs.Room.{Room};
ghost use Rattle.cod_recovery.specs.Leaving.{left_by};
ghost use Rattle.cod_seg.specs.Next.{next_step};
ghost use Rattle.cod_seg.specs.Sound.{Sound};
ghost use Rattle.cod_seg.specs.declared.next.Step.TheVariants as step;
ghost use Rattle.cod_segment.specs.Events.{Balances, call_in, Costs, HasRoom, is_answered, IsAsked, IsOutcome, IsSettingOf, Makes, NoneFails, rebuild_rooms, request_of, rooms_of};
ghost use Rattle.cod_segment.specs.Exact.{Exactly};
ghost use Rattle.cod_types.specs.declared.call.Reply.TheVariants.{Lost};

use cod_claims::Slip;
use cod_place::Pools;
use cod_region::Region;
use cod_segment::{Asker, Outcome, Rebuild, Segment};
use cod_types::Caller;

/// Too many columns are down: the caller's claims end, and its rebuild.
pub fn lost<R: Region, P: Pools>(
    segment: &mut Segment<R>,
    slip: &mut Slip,
    asker: Asker,
    pools: &mut P,
    clock: &mut u64,
) -> Outcome
    requires sound { Sound segment.old }
    requires next { next_step segment.old asker.caller.0 (call_in slip.old) ≡ step.Lost }
    requires asked { IsAsked segment.old asker.caller.0 asker.number slip.old (call_in slip.old) }
    requires pools { (P.nodes pools.old ≡ segment.old.site.nodes) × P.ready pools.old × P.Came pools.old (rooms_of segment.old) }
    requires room { HasRoom 2 segment.old }
    ensures sound { Sound segment.new }
    ensures makes { (w : Setting) → IsSettingOf w segment.old
        → Makes w (request_of asker.caller.0 asker.number (call_in slip.old)) clock.old clock.new (is_answered result) segment.old segment.new }
    ensures exact { (w : Setting) → Exactly w step.Lost result segment.old segment.new }
    ensures outcome { IsOutcome result (request_of asker.caller.0 asker.number (call_in slip.old)) clock.new segment.new slip.new }
    ensures told { slip.new.reply ≡ Some Lost }
    ensures costs { NoneFails segment.old segment.new → Costs segment.old asker.caller.0 (call_in slip.old) step.Lost segment.new }
    ensures rooms { (rest : List Room) → P.Came pools.old (rooms_of segment.old ++ rest) → P.Came pools.new (rooms_of segment.new ++ rest) }
    ensures balance { Balances (P.free pools.old) (P.free pools.new) (rooms_of segment.old) (rooms_of segment.new) }
    ensures pools { (P.nodes pools.new ≡ P.nodes pools.old) × P.ready pools.new × P.same pools.old pools.new }
{
    segment.claims.release(asker.caller);
    leave(&mut segment.rebuild, asker.caller, pools);
    segment.answer_lost(slip, asker, clock)
}

/// The caller's rebuild is given up, and the room of its target given back.
fn leave<R: Region, P: Pools>(rebuild: &mut Option<Rebuild<R>>, caller: Caller, pools: &mut P)
    requires came { P.Came pools.old (rebuild_rooms rebuild.old) }
    requires ready { P.ready pools.old }
    ensures left { rebuild.new ≡ left_by caller.0 rebuild.old }
    ensures came { (rest : List Room) → P.Came pools.old (rebuild_rooms rebuild.old ++ rest) → P.Came pools.new (rebuild_rooms rebuild.new ++ rest) }
    ensures balance { Balances (P.free pools.old) (P.free pools.new) (rebuild_rooms rebuild.old) (rebuild_rooms rebuild.new) }
    ensures pools { (P.nodes pools.new ≡ P.nodes pools.old) × P.ready pools.new × P.same pools.old pools.new }
{
    if let Some(mine) = rebuild {
        if mine.asker.caller.0 == caller.0 {
            mine.drop_target(pools);
            *rebuild = None;
        }
    }
}
