//! How a drain ends.

ghost use Rattle.std.specs.Prelude.{◌≡◌, ℕ, ◌+◌, ◌-◌, ◌<◌, ◌^◌, ◌++◌, ◌∷◌, [], All, IsSome, List, None, Option, Some, length, true, if◌then◌else◌};
ghost use Rattle.cod_board.specs.Kills.{Keeps};
ghost use Rattle.cod_board.specs.declared.kill.Kill.{Kill as Killed};
ghost use Rattle.cod_chronicle.specs.Said.{clock_of, is_over, next_stamp, numbers_by, StampFollows};
ghost use Rattle.cod_chronicle.specs.declared.entry.Entry.TheVariants.{Call, Move};
ghost use Rattle.cod_claims.specs.Claimed.{without_marks};
ghost use Rattle.cod_place.specs.Room.{Room as Stay};
ghost use Rattle.cod_seg.specs.Seg.{col_at, with_col};
ghost use Rattle.cod_seg.specs.Sound.{Sound};
ghost use Rattle.cod_seg.specs.Steps.{IsPlace, placed_col};
ghost use Rattle.cod_segment.specs.Events.{Balances, call_in, request_of, rooms_of};
ghost use Rattle.cod_segment.specs.Looks.{HasLooked};
ghost use Rattle.cod_segment.specs.declared.asking.Outcome.TheVariants.{Answered};
ghost use Rattle.cod_types.specs.declared.call.Reply.TheVariants.{Clear, Lost};
ghost use Rattle.cod_drain.specs.Copies.{HasSought, place_of, rooms_at};
ghost use Rattle.cod_drain.specs.Ends.{Ends, Enters, IsDraining, IsServed, MayEnd};
ghost use Rattle.cod_drain.specs.Plans.{IsPlan};

use crate::giving::let_go;
use crate::plan::Plan;
use crate::trying::Tried;
use cod_chronicle::Entry;
use cod_claims::Slip;
use cod_place::{Pools, Room};
use cod_region::Region;
use cod_repair::Target;
use cod_segment::{Asker, Outcome, Segment};
use cod_step::copy_reasons;
use cod_types::{NodeId, Reasons, Reply};

/// The column is on this region from now on. Updates in progress are done on it anew. The old room is handed out.
fn replace<R: Region>(segment: &mut Segment<R>, plan: Plan, region: R, room: Room) -> Room
    requires sound { Sound segment.old }
    requires served { IsServed segment.old plan.col }
    requires plan { IsPlan segment.old.site.shape plan }
    requires place { IsPlace segment.old.site segment.old.frail segment.old.pools segment.old.log plan.col
        record { room = room; size = plan.size; average = plan.average; device = R.device region } }
    ensures becomes { segment.new ≡ record segment.old {
      cols = with_col segment.old.cols plan.col (placed_col segment.old.site.shape record { room = room; size = plan.size; average = plan.average; device = R.device region });
      claims = without_marks plan.col segment.old.claims;
    } }
    ensures room { result ≡ (col_at segment.old.cols plan.col).room }
{
    let old = segment.columns.shift(
        plan.col,
        room,
        segment.shape,
        region,
        plan.size,
        plan.average,
    );
    segment.claims.forget(plan.col);
    old
}

/// The column stands on the target from now on, and its old room is given back.
fn settle<R: Region, P: Pools>(
    segment: &mut Segment<R>,
    plan: Plan,
    target: Target<R>,
    pools: &mut P,
) -> NodeId
    requires sound { Sound segment.old }
    requires served { IsServed segment.old plan.col }
    requires plan { IsPlan segment.old.site.shape plan }
    requires place { IsPlace segment.old.site segment.old.frail segment.old.pools segment.old.log plan.col (place_of plan target) }
    requires came { P.Came pools.old (target.room ∷ rooms_of segment.old) }
    requires ready { P.ready pools.old }
    ensures becomes { segment.new ≡ record segment.old {
      cols = with_col segment.old.cols plan.col (placed_col segment.old.site.shape (place_of plan target));
      claims = without_marks plan.col segment.old.claims;
    } }
    ensures node { result ≡ target.room.node }
    ensures came { (rest : List Stay) → P.Came pools.old (target.room ∷ (rooms_of segment.old ++ rest)) → P.Came pools.new (rooms_of segment.new ++ rest) }
    ensures balance { Balances (P.free pools.old) (P.free pools.new) (target.room ∷ rooms_of segment.old) (rooms_of segment.new) }
    ensures pools { (P.nodes pools.new ≡ P.nodes pools.old) × P.ready pools.new × P.same pools.old pools.new }
{
    let node = target.node();
    let (region, room) = target.into_parts();
    let old = replace(segment, plan, region, room);
    let_go(old, pools);
    node
}

/// Enters that the column has come to the node.
fn enter<R: Region>(
    segment: &mut Segment<R>,
    slip: &mut Slip,
    col: u8,
    node: NodeId,
    clock: &mut u64,
)
    requires link { 0 < slip.old.links }
    requires room { length segment.old.log + 1 < 2 ^ 63 }
    ensures becomes { segment.new ≡ record segment.old { log = segment.old.log ++ Move clock.new col node ∷ [] } }
    ensures slip { slip.new ≡ record slip.old { links = slip.old.links - 1 } }
    ensures clock { clock.new ≡ next_stamp (clock_of segment.old.log) clock.old }
    ensures follows { StampFollows segment.old.log clock.new }
{
    let link = slip.take_link();
    let stamp = segment.next_stamp(clock);
    segment
        .chronicle
        .push_link(link, Entry::Move { stamp, col, node });
}

/// The column stands at its new place from now on, and the call is answered.
fn arrive<R: Region, P: Pools>(
    segment: &mut Segment<R>,
    slip: &mut Slip,
    asker: Asker,
    clock: &mut u64,
    plan: Plan,
    target: Target<R>,
    pools: &mut P,
) -> Outcome
    requires sound { Sound segment.old }
    requires served { IsServed segment.old plan.col }
    requires plan { IsPlan segment.old.site.shape plan }
    requires place { IsPlace segment.old.site segment.old.frail segment.old.pools segment.old.log plan.col (place_of plan target) }
    requires slip { IsDraining segment.old plan.col asker.caller.0 asker.number slip.old }
    requires room { length segment.old.log + 2 < 2 ^ 63 }
    requires came { P.Came pools.old (target.room ∷ rooms_of segment.old) }
    requires ready { P.ready pools.old }
    ensures enters { Enters plan target asker.caller asker.number clock.old clock.new segment.old segment.new slip.new }
    ensures outcome { result ≡ Answered (length segment.old.log + 1) clock.new }
    ensures came { (rest : List Stay) → P.Came pools.old (target.room ∷ (rooms_of segment.old ++ rest)) → P.Came pools.new (rooms_of segment.new ++ rest) }
    ensures balance { Balances (P.free pools.old) (P.free pools.new) (target.room ∷ rooms_of segment.old) (rooms_of segment.new) }
    ensures pools { (P.nodes pools.new ≡ P.nodes pools.old) × P.ready pools.new × P.same pools.old pools.new }
{
    let col = plan.col;
    let node = settle(segment, plan, target, pools);
    enter(segment, slip, col, node, clock);
    let reply = Reply::Shifted { col, node };
    let told = Reply::Shifted { col, node };
    segment.answer(slip, asker, clock, reply, told)
}

/// Answers that no live column is on the node, or lost where too many columns are down by now.
fn answer_clear<R: Region>(
    segment: &mut Segment<R>,
    slip: &mut Slip,
    asker: Asker,
    clock: &mut u64,
) -> Outcome
    requires sound { Sound segment.old }
    requires call { IsSome slip.old.call }
    requires link { 0 < slip.old.links }
    requires unanswered { slip.old.reply ≡ None }
    requires newest { All (λ m. m < asker.number) (numbers_by asker.caller.0 segment.old.log) }
    requires room { length segment.old.log + 1 < 2 ^ 63 }
    ensures becomes { segment.new ≡ record segment.old { log = segment.old.log ++ Call asker.caller asker.number clock.new (call_in slip.old) (if is_over segment.old.site segment.old.log then Lost else Clear) ∷ [] } }
    ensures clock { clock.new ≡ next_stamp (clock_of segment.old.log) clock.old }
    ensures told { slip.new.reply ≡ Some (if is_over segment.old.site segment.old.log then Lost else Clear) }
    ensures outcome { result ≡ Answered (length segment.old.log) clock.new }
    ensures follows { StampFollows segment.old.log clock.new }
{
    if segment.is_lost() {
        return segment.answer_lost(slip, asker, clock);
    }
    segment.answer(slip, asker, clock, Reply::Clear, Reply::Clear)
}

/// Answers the drain by what came of the try.
pub(crate) fn finish<R: Region, P: Pools>(
    segment: &mut Segment<R>,
    slip: &mut Slip,
    asker: Asker,
    clock: &mut u64,
    plan: Plan,
    tried: Tried<R>,
    reasons: Reasons,
    second: Reasons,
    pools: &mut P,
) -> Outcome
    requires sound { Sound segment.old }
    requires plan { IsPlan segment.old.site.shape plan }
    requires may { (now : List (Option Killed)) × MayEnd plan now reasons segment.old tried }
    requires slip { IsDraining segment.old plan.col asker.caller.0 asker.number slip.old }
    requires room { length segment.old.log + 2 < 2 ^ 63 }
    requires came { P.Came pools.old (rooms_at tried ++ rooms_of segment.old) }
    requires ready { P.ready pools.old }
    ensures ends { (before now : List (Option Killed)) → Keeps before now → MayEnd plan now reasons segment.old tried
        → Ends plan.col before now (request_of asker.caller.0 asker.number (call_in slip.old)) clock.old clock.new result segment.old segment.new slip.new }
    ensures looked { (since : _) → HasSought (P.Seen since pools.old) reasons tried → HasLooked (P.Seen since pools.new) slip.new.reply }
    ensures came { (rest : List Stay) → P.Came pools.old (rooms_at tried ++ (rooms_of segment.old ++ rest)) → P.Came pools.new (rooms_of segment.new ++ rest) }
    ensures balance { Balances (P.free pools.old) (P.free pools.new) (rooms_at tried ++ rooms_of segment.old) (rooms_of segment.new) }
    ensures pools { (P.nodes pools.new ≡ P.nodes pools.old) × P.ready pools.new × P.same pools.old pools.new }
{
    match tried {
        Tried::Copied(target) => arrive(segment, slip, asker, clock, plan, target, pools),
        Tried::Failed => answer_clear(segment, slip, asker, clock),
        Tried::NoSpare => {
            let told = Reply::NoSpare(copy_reasons(&reasons, second));
            segment.answer(slip, asker, clock, Reply::NoSpare(reasons), told)
        }
        Tried::NoMemory => segment.answer(slip, asker, clock, Reply::NoMem, Reply::NoMem),
    }
}
