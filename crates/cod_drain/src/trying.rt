//! A live column is copied to a spare node.

ghost use Rattle.std.specs.Prelude.{◌≡◌, ℕ, ◌+◌, ◌<◌, ◌^◌, ◌++◌, ◌∷◌, [], IfSome, List, MatchOption, Some, None, length, true, false};
ghost use Rattle.cod_board.specs.Kills.{Keeps};
ghost use Rattle.cod_chronicle.specs.Legal.{node_id};
ghost use Rattle.cod_place.specs.Room.{Room};
ghost use Rattle.cod_seg.specs.Sound.{AreBroken, is_frail, Sound};
ghost use Rattle.cod_segment.specs.Events.{Balances, rooms_of};
ghost use Rattle.cod_drain.specs.Copies.{HasSought, MayTryAgain, rooms_at, rooms_of_try, Tries};
ghost use Rattle.cod_drain.specs.Ends.{IsServed};
ghost use Rattle.cod_drain.specs.Plans.{IsPlan};

use crate::copying::{CopyFailed, copy_column};
use crate::giving::let_go;
use crate::plan::Plan;
use cod_board::Board;
use cod_place::{Broken, Pools};
use cod_placing::{Missing, place_for};
use cod_region::{Region, Shelf};
use cod_repair::{Bench, Target};
use cod_segment::Segment;
use cod_types::Reasons;
use std::alloc::Global;

/// What came of a try.
#[derive(Drop)]
pub(crate) enum Tried<R: Region> {
    /// The column's value is there.
    Copied(Target<R>),
    /// The column's region failed, and it has gone down.
    Failed,
    NoSpare,
    NoMemory,
}

/// A target is let go, and its room given back.
fn give_back<R: Region, P: Pools>(target: Target<R>, pools: &mut P)
    requires came { P.Came pools.old (target.room ∷ []) }
    requires ready { P.ready pools.old }
    ensures came { (rest : List Room) → P.Came pools.old (target.room ∷ rest) → P.Came pools.new rest }
    ensures balance { Balances (P.free pools.old) (P.free pools.new) (target.room ∷ []) [] }
    ensures pools { (P.nodes pools.new ≡ P.nodes pools.old) × P.ready pools.new × P.same pools.old pools.new }
{
    let (_, room) = target.into_parts();
    let_go(room, pools);
}

/// Copies a column to the next spare node. None where the region there failed: then its node is broken for this drain.
fn try_once<R: Region, B: Board, P: Pools, H: Shelf<Region = R>>(
    segment: &mut Segment<R>,
    alloc: Global,
    plan: Plan,
    broken: &mut Broken,
    board: &mut B,
    pools: &mut P,
    shelf: &H,
    reasons: &mut Reasons,
    bench: &mut Bench,
    clock: &mut u64,
) -> Option<Tried<R>>
    requires sound { Sound segment.old }
    requires served { IsServed segment.old plan.col }
    requires plan { IsPlan segment.old.site.shape plan }
    requires broken { AreBroken segment.old.frail broken.old }
    requires board { (length (B.kills board.old) ≡ segment.old.site.nodes) × B.ready board.old }
    requires pools { (P.nodes pools.old ≡ segment.old.site.nodes) × P.ready pools.old × P.Came pools.old (rooms_of segment.old) }
    requires shelf { (node : ℕ) → node < segment.old.site.nodes → is_frail segment.old.frail node ≡ false → (H.regions shelf.now).never_fail (node_id node) ≡ true }
    requires bench { bench.old ≡ segment.old.site.shape }
    requires room { length segment.old.log + 1 < 2 ^ 63 }
    ensures tried { MatchOption result (MayTryAgain plan.col broken.old broken.new clock.old clock.new segment.old segment.new)
        (λ t. Tries plan (B.kills board.new) reasons.new clock.old clock.new segment.old segment.new t) }
    ensures looked { IfSome result (λ t. HasSought (P.Seen pools.old pools.new) reasons.new t) }
    ensures rooms { (rest : List Room) → P.Came pools.old rest → P.Came pools.new (rooms_of_try result ++ rest) }
    ensures balance { Balances (P.free pools.old) (P.free pools.new) [] (rooms_of_try result) }
    ensures pools { (P.nodes pools.new ≡ P.nodes pools.old) × P.ready pools.new × P.same pools.old pools.new }
    ensures board { (length (B.kills board.new) ≡ length (B.kills board.old)) × Keeps (B.kills board.old) (B.kills board.new)
        × B.ready board.new × B.same board.old board.new }
    ensures bench { bench.new ≡ bench.old }
{
    let mut target = match place_for(
        segment, alloc, plan.col, plan.bytes, broken, board, pools, shelf, reasons,
    ) {
        Ok(target) => target,
        Err(Missing::Spare) => return Some(Tried::NoSpare),
        Err(Missing::Memory) => return Some(Tried::NoMemory),
    };
    match copy_column(segment, plan.col, &mut target, bench) {
        Ok(()) => Some(Tried::Copied(target)),
        Err(CopyFailed::Old(failed)) => {
            give_back(target, pools);
            segment.mark_fault(failed, clock);
            Some(Tried::Failed)
        }
        Err(CopyFailed::New) => {
            broken.set(target.node(), target.faults());
            give_back(target, pools);
            None
        }
    }
}

/// Copies a column to a spare node, to the next one where a region there fails.
pub(crate) fn copy_away<R: Region, B: Board, P: Pools, H: Shelf<Region = R>>(
    segment: &mut Segment<R>,
    alloc: Global,
    plan: Plan,
    board: &mut B,
    pools: &mut P,
    shelf: &H,
    reasons: &mut Reasons,
    bench: &mut Bench,
    clock: &mut u64,
) -> Tried<R>
    requires sound { Sound segment.old }
    requires served { IsServed segment.old plan.col }
    requires plan { IsPlan segment.old.site.shape plan }
    requires board { (length (B.kills board.old) ≡ segment.old.site.nodes) × B.ready board.old }
    requires pools { (P.nodes pools.old ≡ segment.old.site.nodes) × P.ready pools.old × P.Came pools.old (rooms_of segment.old) }
    requires shelf { (node : ℕ) → node < segment.old.site.nodes → is_frail segment.old.frail node ≡ false → (H.regions shelf.now).never_fail (node_id node) ≡ true }
    requires bench { bench.old ≡ segment.old.site.shape }
    requires room { length segment.old.log + 1 < 2 ^ 63 }
    ensures tried { Tries plan (B.kills board.new) reasons.new clock.old clock.new segment.old segment.new result }
    ensures looked { HasSought (P.Seen pools.old pools.new) reasons.new result }
    ensures rooms { (rest : List Room) → P.Came pools.old rest → P.Came pools.new (rooms_at result ++ rest) }
    ensures balance { Balances (P.free pools.old) (P.free pools.new) [] (rooms_at result) }
    ensures pools { (P.nodes pools.new ≡ P.nodes pools.old) × P.ready pools.new × P.same pools.old pools.new }
    ensures board { (length (B.kills board.new) ≡ length (B.kills board.old)) × Keeps (B.kills board.old) (B.kills board.new)
        × B.ready board.new × B.same board.old board.new }
    ensures bench { bench.new ≡ bench.old }
{
    let mut broken = Broken::new();
    'places: loop {
        match try_once(
            segment,
            alloc,
            plan,
            &mut broken,
            board,
            pools,
            shelf,
            reasons,
            bench,
            clock,
        ) {
            Some(tried) => return tried,
            None => {}
        }
    }
}
