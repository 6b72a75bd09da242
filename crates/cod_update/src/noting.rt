//! An update on a parity column.

ghost use Rattle.std.specs.Prelude.{◌≡◌, IfErr, IsOk, OnErr, OnOk, true};
ghost use Rattle.cod_chronicle.specs.Event.{Setting};
ghost use Rattle.cod_repair.specs.Columns.{faults_at, state_at};
ghost use Rattle.cod_seg.specs.Next.{next_step};
ghost use Rattle.cod_seg.specs.Sound.{Sound};
ghost use Rattle.cod_seg.specs.declared.next.Step.TheVariants as step;
ghost use Rattle.cod_segment.specs.Events.{call_in, Costs, HasRoom, is_answered, IsAsked, IsOutcome, IsSettingOf, Makes, NoneFails, request_of, rooms_of};
ghost use Rattle.cod_segment.specs.Exact.{Exactly};
ghost use Rattle.cod_update.specs.Failing.{FailsAt};
ghost use Rattle.cod_update.specs.Noting.{HasRecord, LacksRecord};

use cod_claims::Slip;
use cod_record::Head;
use cod_region::Region;
use cod_repair::{Bench, ColumnFailed};
use cod_segment::{Asker, Outcome, Segment};

/// Appends the record of the block's claim to a parity column's log, and notes how long it is there. A column whose region
/// fails goes down.
pub fn parity_step<R: Region>(
    segment: &mut Segment<R>,
    _slip: &Slip,
    asker: Asker,
    block: u8,
    col: u8,
    bench: &mut Bench,
    clock: &mut u64,
) -> Outcome
    requires sound { Sound segment.old }
    requires next { next_step segment.old asker.caller.0 (call_in _slip.now) ≡ (step.Parity block col) }
    requires asked { IsAsked segment.old asker.caller.0 asker.number _slip.now (call_in _slip.now) }
    requires bench { bench.old ≡ segment.old.site.shape }
    requires room { HasRoom 2 segment.old }
    ensures sound { Sound segment.new }
    ensures makes { (w : Setting) → IsSettingOf w segment.old
        → Makes w (request_of asker.caller.0 asker.number (call_in _slip.now)) clock.old clock.new (is_answered result) segment.old segment.new }
    ensures exact { (w : Setting) → Exactly w (step.Parity block col) result segment.old segment.new }
    ensures outcome { IsOutcome result (request_of asker.caller.0 asker.number (call_in _slip.now)) clock.new segment.new _slip.now }
    ensures costs { NoneFails segment.old segment.new → Costs segment.old asker.caller.0 (call_in _slip.now) (step.Parity block col) segment.new }
    ensures rooms { rooms_of segment.new ≡ rooms_of segment.old }
    ensures bench { bench.new ≡ bench.old }
{
    if let Err(failed) = note(segment, block, col, bench) {
        segment.mark_fault(failed, clock);
    }
    Outcome::Moved
}

/// The record, and its length in the claim.
fn note<R: Region>(
    segment: &mut Segment<R>,
    block: u8,
    col: u8,
    bench: &mut Bench,
) -> Result<(), ColumnFailed>
    requires lacks { LacksRecord segment.old block col }
    requires bench { bench.old ≡ segment.old.site.shape }
    ensures noted { OnOk result (HasRecord block col segment.old segment.new) }
    ensures failed { OnErr result (FailsAt col segment.old segment.new) }
    ensures named { IfErr result (λ e. (e.col ≡ col) × (e.count ≡ faults_at segment.new.cols col)) }
    ensures sure { (state_at segment.old.cols col).device.never_fails ≡ true → IsOk result }
    ensures bench { bench.new ≡ bench.old }
{
    let Some((off, delta)) = segment.claims.delta(block) else {
        unreachable!()
    };
    let head = Head {
        block: block as u16,
        number: segment.cuts.get(block) + 1,
        off,
        len: delta.len() as u32,
    };
    let len = segment
        .columns
        .append(col, head, segment.version, delta, &segment.cuts, bench)?;
    segment.claims.note(block, col, len);
    Ok(())
}
