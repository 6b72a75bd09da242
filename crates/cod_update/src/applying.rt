//! An update on a data column.

ghost use Rattle.std.specs.Prelude.{◌≡◌, ◌<◌, ◌≤◌, ◌+◌, IsSome, IfErr, IsOk, OnErr, OnOk, Some, length, true};
ghost use Rattle.cod_types.specs.Faults.{bump};
ghost use Rattle.cod_chronicle.specs.Event.{Setting};
ghost use Rattle.cod_claims.specs.Changes.{new_in};
ghost use Rattle.cod_claims.specs.Claimed.{claim_at, with_applied};
ghost use Rattle.cod_claims.specs.declared.claim.Claim.{Claim};
ghost use Rattle.cod_repair.specs.Columns.{faults_at, state_at};
ghost use Rattle.cod_seg.specs.Next.{next_step};
ghost use Rattle.cod_seg.specs.Seg.{col_at, with_col};
ghost use Rattle.cod_seg.specs.Sound.{Sound};
ghost use Rattle.cod_seg.specs.Steps.{applied_to};
ghost use Rattle.cod_seg.specs.declared.next.Step.TheVariants as step;
ghost use Rattle.cod_segment.specs.Events.{call_in, Costs, HasRoom, is_answered, IsAsked, IsOutcome, IsSettingOf, Makes, NoneFails, request_of, rooms_of};
ghost use Rattle.cod_segment.specs.Exact.{Exactly};
ghost use Rattle.cod_update.specs.Failing.{FailsAt};

use cod_claims::Slip;
use cod_region::Region;
use cod_repair::ColumnFailed;
use cod_segment::{Asker, Outcome, Segment};

/// Writes the new bytes of the block's claim in place, by one write on its data column, which then has the update. A column
/// whose region fails goes down.
pub fn data_step<R: Region>(
    segment: &mut Segment<R>,
    _slip: &Slip,
    asker: Asker,
    block: u8,
    clock: &mut u64,
) -> Outcome
    requires sound { Sound segment.old }
    requires next { next_step segment.old asker.caller.0 (call_in _slip.now) ≡ (step.Data block) }
    requires asked { IsAsked segment.old asker.caller.0 asker.number _slip.now (call_in _slip.now) }
    requires room { HasRoom 2 segment.old }
    ensures sound { Sound segment.new }
    ensures makes { (w : Setting) → IsSettingOf w segment.old
        → Makes w (request_of asker.caller.0 asker.number (call_in _slip.now)) clock.old clock.new (is_answered result) segment.old segment.new }
    ensures exact { (w : Setting) → Exactly w (step.Data block) result segment.old segment.new }
    ensures outcome { IsOutcome result (request_of asker.caller.0 asker.number (call_in _slip.now)) clock.new segment.new _slip.now }
    ensures costs { NoneFails segment.old segment.new → Costs segment.old asker.caller.0 (call_in _slip.now) (step.Data block) segment.new }
    ensures rooms { rooms_of segment.new ≡ rooms_of segment.old }
{
    if let Err(failed) = apply(segment, block) {
        segment.mark_fault(failed, clock);
    }
    Outcome::Moved
}

/// The write, and the mark that the column has the update.
fn apply<R: Region>(segment: &mut Segment<R>, block: u8) -> Result<(), ColumnFailed>
    requires col { block < length segment.old.cols }
    requires low { block < segment.old.site.shape.k }
    requires claim { IsSome (claim_at segment.old.claims block) }
    requires data { (state_at segment.old.cols block).size ≡ 0 }
    requires inside { (c : Claim) → claim_at segment.old.claims block ≡ Some c
        → c.delta.part.off + length (new_in c.delta) ≤ (state_at segment.old.cols block).device.size }
    ensures applied { (c : Claim) → claim_at segment.old.claims block ≡ Some c → OnOk result (segment.new ≡ record segment.old {
      cols = with_col segment.old.cols block (applied_to c (bump (state_at segment.old.cols block).device.writes) (col_at segment.old.cols block));
      claims = with_applied block segment.old.claims;
    }) }
    ensures failed { OnErr result (FailsAt block segment.old segment.new) }
    ensures named { IfErr result (λ e. (e.col ≡ block) × (e.count ≡ faults_at segment.new.cols block)) }
    ensures sure { (state_at segment.old.cols block).device.never_fails ≡ true → IsOk result }
{
    let (Some((off, _)), Some(bytes)) = (segment.claims.delta(block), segment.claims.brings(block))
    else {
        unreachable!()
    };
    match segment.columns.apply(block, off, bytes) {
        Ok(()) => segment.claims.mark_applied(block),
        Err(failed) => return Err(failed),
    }
    Ok(())
}
