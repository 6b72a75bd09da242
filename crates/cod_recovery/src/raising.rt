//! The end of a rebuild.

ghost use Rattle.std.specs.Prelude.{◌≡◌, ◌<◌, ◌++◌, ◌∷◌, [], List, Some, length};
ghost use Rattle.cod_types.specs.Columns.{column_size};
ghost use Rattle.cod_chronicle.specs.Event.{Setting};
ghost use Rattle.cod_place.specs.Room.{Room};
ghost use Rattle.cod_seg.specs.Next.{next_step};
ghost use Rattle.cod_seg.specs.Seg.{col_at, Rebuilding, Target as Goal, with_col};
ghost use Rattle.cod_seg.specs.Sound.{Sound};
ghost use Rattle.cod_seg.specs.Steps.{placed_col, risen};
ghost use Rattle.cod_seg.specs.declared.next.Step.TheVariants as step;
ghost use Rattle.cod_segment.specs.Events.{Balances, call_in, Costs, HasRoom, is_answered, IsAsked, IsOutcome, IsSettingOf, Makes, NoneFails, request_of, rooms_of};
ghost use Rattle.cod_segment.specs.Exact.{Exactly};
ghost use Rattle.cod_types.specs.declared.call.Reply.TheVariants.{Rebuilt};

use cod_chronicle::{Entry, Link};
use cod_claims::Slip;
use cod_place::Pools;
use cod_region::Region;
use cod_repair::{Column, Columns, Target};
use cod_segment::{Asker, Outcome, Rebuild, Segment};
use cod_types::{Geometry, Reply};

/// The target is whole: its column is live there, with no record, and the call is answered. The old region is dropped, and its
/// room given back. No update in progress counts as applied or noted there.
pub fn rebuild_end<R: Region, P: Pools>(
    segment: &mut Segment<R>,
    slip: &mut Slip,
    asker: Asker,
    pools: &mut P,
    clock: &mut u64,
) -> Outcome
    requires sound { Sound segment.old }
    requires next { next_step segment.old asker.caller.0 (call_in slip.old) ≡ step.RebuildEnd }
    requires asked { IsAsked segment.old asker.caller.0 asker.number slip.old (call_in slip.old) }
    requires pools { (P.nodes pools.old ≡ segment.old.site.nodes) × P.ready pools.old × P.Came pools.old (rooms_of segment.old) }
    requires room { HasRoom 2 segment.old }
    ensures sound { Sound segment.new }
    ensures makes { (w : Setting) → IsSettingOf w segment.old
        → Makes w (request_of asker.caller.0 asker.number (call_in slip.old)) clock.old clock.new (is_answered result) segment.old segment.new }
    ensures exact { (w : Setting) → Exactly w step.RebuildEnd result segment.old segment.new }
    ensures outcome { IsOutcome result (request_of asker.caller.0 asker.number (call_in slip.old)) clock.new segment.new slip.new }
    ensures told { (r : Rebuilding) × (t : Goal) × (segment.old.rebuild ≡ Some r) × (r.target ≡ Some t) × (slip.new.reply ≡ Some (Rebuilt r.col t.room.node)) }
    ensures costs { NoneFails segment.old segment.new → Costs segment.old asker.caller.0 (call_in slip.old) step.RebuildEnd segment.new }
    ensures rooms { (rest : List Room) → P.Came pools.old (rooms_of segment.old ++ rest) → P.Came pools.new (rooms_of segment.new ++ rest) }
    ensures balance { Balances (P.free pools.old) (P.free pools.new) (rooms_of segment.old) (rooms_of segment.new) }
    ensures pools { (P.nodes pools.new ≡ P.nodes pools.old) × P.ready pools.new × P.same pools.old pools.new }
{
    let Some(rebuild) = segment.rebuild.take() else {
        unreachable!()
    };
    let Rebuild {
        asker: _,
        col,
        broken: _,
        up,
        mark,
        target,
    } = rebuild;
    let Some(target) = target else { unreachable!() };
    let node = target.node();
    settle(
        &mut segment.columns,
        segment.shape,
        col,
        target,
        mark,
        pools,
    );
    segment.claims.forget(col);
    let stamp = segment.next_stamp(clock);
    segment
        .chronicle
        .push_link(up, Entry::Up { stamp, col, node });
    let reply = Reply::Rebuilt { col, node };
    let told = Reply::Rebuilt { col, node };
    segment.answer(slip, asker, clock, reply, told)
}

/// The column is what its target has become, and its old room is given back.
fn settle<R: Region, P: Pools>(
    columns: &mut Columns<R>,
    g: Geometry,
    col: u8,
    target: Target<R>,
    mark: Link,
    pools: &mut P,
)
    requires col { col < length columns.old }
    requires size { target.device.size ≡ column_size g col }
    requires came { P.Came pools.old ((col_at columns.old col).room ∷ []) }
    requires ready { P.ready pools.old }
    ensures columns { columns.new ≡ with_col columns.old col (placed_col g (risen g col target)) }
    ensures came { (rest : List Room) → P.Came pools.old ((col_at columns.old col).room ∷ rest) → P.Came pools.new rest }
    ensures balance { Balances (P.free pools.old) (P.free pools.new) ((col_at columns.old col).room ∷ []) [] }
    ensures pools { (P.nodes pools.new ≡ P.nodes pools.old) × P.ready pools.new × P.same pools.old pools.new }
{
    let room = columns.replace(col, become_live(g, col, target, mark));
    pools.give(room);
}

/// The column that a target has become.
fn become_live<R: Region>(g: Geometry, col: u8, target: Target<R>, mark: Link) -> Column<R>
    requires { target.device.size ≡ column_size g col }
    ensures { result ≡ placed_col g (risen g col target) }
{
    let (region, room) = target.into_parts();
    if col < g.k() {
        return Column::of_data(room, g, region, mark);
    }
    Column::of_parity(room, g, region, g.reserve(), 10_000, mark)
}
