//! What a commit brings to the target of a rebuild in progress.

ghost use Rattle.std.specs.Prelude.{◌≡◌, ◌<◌, ◌++◌, List, IsOk, IsSome, OnErr, OnOk, Some, false, true};
ghost use Rattle.cod_chronicle.specs.Said.{is_over};
ghost use Rattle.cod_claims.specs.Claimed.{claim_at};
ghost use Rattle.cod_claims.specs.declared.claim.Claim.{Claim};
ghost use Rattle.cod_place.specs.Room.{Room};
ghost use Rattle.cod_seg.specs.Seg.{Target as Aimed};
ghost use Rattle.cod_seg.specs.Sound.{Sound};
ghost use Rattle.cod_segment.specs.Events.{Balances, goal_rooms, rooms_of};
ghost use Rattle.cod_update.specs.Correcting.{CanCorrect, Changes, HasFailed, IsCorrectedBy, IsCorrectedTo, IsWhole, Settles, SettlesEach};
ghost use Rattle.cod_update.specs.Placing.{IsPlaced};

use cod_claims::Claims;
use cod_place::Pools;
use cod_region::Region;
use cod_repair::{Bench, Target};
use cod_segment::{Rebuild, Segment};
use cod_types::{Caller, Failed};

/// Brings the update that has claimed a block to the bytes of column `col` that are on a target: those of a data column are
/// replaced, to those of a parity column its change is added.
fn correct_block<R: Region>(
    target: &mut Target<R>,
    col: u8,
    k: u8,
    block: u8,
    claims: &Claims,
    bench: &mut Bench,
) -> Result<(), Failed>
    requires shape { k ≡ bench.old.k }
    requires col { col < bench.old.n }
    requires block { block < k }
    requires claim { IsSome (claim_at claims.now block) }
    requires placed { (c : Claim) → claim_at claims.now block ≡ Some c → IsPlaced bench.old.block c }
    requires whole { IsWhole bench.old.block target.old }
    requires changes { (c : Claim) → col ≡ block → claim_at claims.now block ≡ Some c → Changes c target.old }
    ensures corrected { (c : Claim) → claim_at claims.now block ≡ Some c → OnOk result (IsCorrectedBy k col block c target.old target.new) }
    ensures failed { OnErr result (HasFailed target.old target.new) }
    ensures bench { bench.new ≡ bench.old }
{
    let (Some((off, delta)), Some(bytes)) = (claims.delta(block), claims.brings(block)) else {
        unreachable!()
    };
    if k <= col {
        target.correct_parity(col, block, off, delta, bench)
    } else if col == block {
        target.correct_data(off, bytes)
    } else {
        Ok(())
    }
}

/// Brings the caller's update to the bytes of column `col` that are on a target, block by block. It ends where a call fails.
fn correct_target<R: Region>(
    target: &mut Target<R>,
    col: u8,
    k: u8,
    caller: Caller,
    claims: &Claims,
    bench: &mut Bench,
) -> Result<(), Failed>
    requires shape { k ≡ bench.old.k }
    requires can { CanCorrect bench.old col claims.now target.old }
    ensures corrected { OnOk result (IsCorrectedTo k k col caller.0 claims.now target.old target.new) }
    ensures failed { OnErr result (HasFailed target.old target.new) }
    ensures bench { bench.new ≡ bench.old }
{
    for block in 0..k {
        if claims.is_of(block, caller) {
            correct_block(target, col, k, block, claims, bench)?;
        }
    }
    Ok(())
}

/// Brings the caller's update to the target of a rebuild, if it has one. A target whose region fails is let go.
fn correct_rebuild<R: Region, P: Pools>(
    rebuild: &mut Rebuild<R>,
    k: u8,
    caller: Caller,
    claims: &Claims,
    pools: &mut P,
    bench: &mut Bench,
)
    requires shape { k ≡ bench.old.k }
    requires can { (t : Aimed) → rebuild.old.target ≡ Some t → CanCorrect bench.old rebuild.old.col claims.now t }
    requires node { (t : Aimed) → rebuild.old.target ≡ Some t → t.room.node.0 < 64 }
    requires came { P.Came pools.old (goal_rooms rebuild.old.target) }
    requires ready { P.ready pools.old }
    ensures settles { Settles k caller.0 claims.now rebuild.old rebuild.new }
    ensures came { (rest : List Room) → P.Came pools.old (goal_rooms rebuild.old.target ++ rest) → P.Came pools.new (goal_rooms rebuild.new.target ++ rest) }
    ensures balance { Balances (P.free pools.old) (P.free pools.new) (goal_rooms rebuild.old.target) (goal_rooms rebuild.new.target) }
    ensures nodes { P.nodes pools.new ≡ P.nodes pools.old }
    ensures ready { P.ready pools.new }
    ensures same { P.same pools.old pools.new }
    ensures bench { bench.new ≡ bench.old }
{
    if let Some(target) = &mut rebuild.target {
        if correct_target(target, rebuild.col, k, caller, claims, bench).is_err() {
            rebuild.break_target(pools);
        }
    }
}

/// Brings the caller's update to the target of the rebuild in progress, if there is one.
pub(crate) fn correct<R: Region, P: Pools>(
    segment: &mut Segment<R>,
    caller: Caller,
    pools: &mut P,
    bench: &mut Bench,
)
    requires sound { Sound segment.old }
    requires few { is_over segment.old.site segment.old.log ≡ false }
    requires bench { bench.old ≡ segment.old.site.shape }
    requires came { P.Came pools.old (rooms_of segment.old) }
    requires ready { P.ready pools.old }
    ensures settles { SettlesEach segment.old.site.shape.k caller.0 segment.old.claims segment.old.rebuild segment.new.rebuild }
    ensures becomes { segment.new ≡ record segment.old { rebuild = segment.new.rebuild } }
    ensures rooms { (rest : List Room) → P.Came pools.old (rooms_of segment.old ++ rest) → P.Came pools.new (rooms_of segment.new ++ rest) }
    ensures balance { Balances (P.free pools.old) (P.free pools.new) (rooms_of segment.old) (rooms_of segment.new) }
    ensures nodes { P.nodes pools.new ≡ P.nodes pools.old }
    ensures ready { P.ready pools.new }
    ensures same { P.same pools.old pools.new }
    ensures bench { bench.new ≡ bench.old }
{
    let k = segment.shape.k();
    if let Some(rebuild) = &mut segment.rebuild {
        correct_rebuild(rebuild, k, caller, &segment.claims, pools, bench);
    }
}
