//! The event of a drain.

ghost use Rattle.std.specs.Prelude.{◌≡◌, ℕ, ◌<◌, ◌++◌, IsSome, List, Some, length, false, true};
ghost use Rattle.cod_board.specs.Kills.{Keeps};
ghost use Rattle.cod_chronicle.specs.Event.{Setting};
ghost use Rattle.cod_chronicle.specs.Legal.{node_id};
ghost use Rattle.cod_place.specs.Room.{Room};
ghost use Rattle.cod_seg.specs.Next.{live_on, next_step};
ghost use Rattle.cod_seg.specs.Sound.{is_frail, Sound};
ghost use Rattle.cod_seg.specs.declared.next.Step.TheVariants as step;
ghost use Rattle.cod_segment.specs.Events.{Balances, call_in, Costs, HasRoom, is_answered, IsAsked, IsOutcome, IsSettingOf, kills_at, Makes, NoneFails, request_of, rooms_of};
ghost use Rattle.cod_segment.specs.Exact.{Exactly};
ghost use Rattle.cod_segment.specs.Looks.{HasLooked};
ghost use Rattle.cod_types.specs.declared.call.Call.TheVariants.{Drain};
ghost use Rattle.cod_types.specs.declared.call.NodeId.{NodeId as Node};

use crate::ending::finish;
use crate::plan::plan_for;
use crate::trying::copy_away;
use cod_board::Board;
use cod_claims::Slip;
use cod_place::Pools;
use cod_predict::{Policy, Rule};
use cod_region::{Region, Shelf};
use cod_repair::Bench;
use cod_segment::{Asker, Outcome, Segment};
use cod_step::column_on;
use cod_types::{Call, NodeId};
use std::alloc::Global;

/// The node of a drain.
fn drained_node(call: &Call) -> NodeId
    requires { (node : Node) × (call.now ≡ Drain node) }
    ensures { call.now ≡ Drain result }
{
    match call {
        Call::Drain { node } => *node,
        _ => unreachable!(),
    }
}

/// The live column on a node.
fn column_off<R: Region>(segment: &Segment<R>, node: NodeId) -> u8
    requires sound { Sound segment.now }
    requires live { IsSome (live_on segment.now.site segment.now.log node.0) }
    ensures { live_on segment.now.site segment.now.log node.0 ≡ Some result }
{
    match column_on(&segment.shape, &segment.columns.live_nodes(), node) {
        Some(col) => col,
        None => unreachable!(),
    }
}

/// Moves the live column off the node of the call, to the next spare node, and answers it. A column whose region fails goes down.
/// Where a region on a spare node fails, the next one is tried.
pub fn drain<R: Region, B: Board, P: Pools, H: Shelf<Region = R>, W: Rule>(
    segment: &mut Segment<R>,
    slip: &mut Slip,
    asker: Asker,
    alloc: Global,
    board: &mut B,
    pools: &mut P,
    shelf: &H,
    policy: &Policy<W>,
    bench: &mut Bench,
    clock: &mut u64,
) -> Outcome
    requires sound { Sound segment.old }
    requires next { next_step segment.old asker.caller.0 (call_in slip.old) ≡ step.Drain }
    requires asked { IsAsked segment.old asker.caller.0 asker.number slip.old (call_in slip.old) }
    requires board { (length (B.kills board.old) ≡ segment.old.site.nodes) × B.ready board.old }
    requires pools { (P.nodes pools.old ≡ segment.old.site.nodes) × P.ready pools.old × P.Came pools.old (rooms_of segment.old) }
    requires shelf { (node : ℕ) → node < segment.old.site.nodes → is_frail segment.old.frail node ≡ false → (H.regions shelf.now).never_fail (node_id node) ≡ true }
    requires bench { bench.old ≡ segment.old.site.shape }
    requires room { HasRoom 2 segment.old }
    ensures sound { Sound segment.new }
    ensures makes { (w : Setting) → IsSettingOf w segment.old → ((x : ℕ) → w.seen x ≡ kills_at (B.kills board.new) x)
        → Makes w (request_of asker.caller.0 asker.number (call_in slip.old)) clock.old clock.new (is_answered result) segment.old segment.new }
    ensures exact { (w : Setting) → ((x : ℕ) → w.known x ≡ kills_at (B.kills board.old) x) → Exactly w step.Drain result segment.old segment.new }
    ensures outcome { IsOutcome result (request_of asker.caller.0 asker.number (call_in slip.old)) clock.new segment.new slip.new }
    ensures looked { HasLooked (P.Seen pools.old pools.new) slip.new.reply }
    ensures costs { NoneFails segment.old segment.new → Costs segment.old asker.caller.0 (call_in slip.old) step.Drain segment.new }
    ensures rooms { (rest : List Room) → P.Came pools.old (rooms_of segment.old ++ rest) → P.Came pools.new (rooms_of segment.new ++ rest) }
    ensures balance { Balances (P.free pools.old) (P.free pools.new) (rooms_of segment.old) (rooms_of segment.new) }
    ensures pools { (P.nodes pools.new ≡ P.nodes pools.old) × P.ready pools.new × P.same pools.old pools.new }
    ensures board { (length (B.kills board.new) ≡ length (B.kills board.old)) × Keeps (B.kills board.old) (B.kills board.new)
        × B.ready board.new × B.same board.old board.new }
    ensures bench { bench.new ≡ bench.old }
{
    let node = drained_node(slip.call());
    let col = column_off(segment, node);
    let plan = plan_for(segment, col, policy);
    let (mut reasons, second) = slip.take_reasons();
    let tried = copy_away(
        segment,
        alloc,
        plan,
        board,
        pools,
        shelf,
        &mut reasons,
        bench,
        clock,
    );
    finish(
        segment, slip, asker, clock, plan, tried, reasons, second, pools,
    )
}
