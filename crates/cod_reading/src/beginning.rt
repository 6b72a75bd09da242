//! The begin of a write or a swap.
ghost use Rattle.std.specs.Prelude.{◌≡◌, ◌<◌, ◌≤◌, ℕ, List, length, Some, None, IsSome, IfSome, IfNone, true, false, bytes_eq};
ghost use Rattle.cod_types.specs.declared.call.Call.TheVariants.{Swap};
ghost use Rattle.cod_code.specs.Codewords.{AreBytes};
ghost use Rattle.cod_chronicle.specs.Event.{Setting};
ghost use Rattle.cod_chronicle.specs.Said.{is_over};
ghost use Rattle.cod_claims.specs.Changes.{joined, new_bytes};
ghost use Rattle.cod_claims.specs.Slips.{change_at, changes_of, with_bytes};
ghost use Rattle.cod_seg.specs.Calls.{block_reads};
ghost use Rattle.cod_seg.specs.Next.{next_step};
ghost use Rattle.cod_seg.specs.Sound.{Sound};
ghost use Rattle.cod_seg.specs.declared.next.Step.TheVariants as step;
ghost use Rattle.cod_segment.specs.Events.{call_in, Costs, HasRoom, is_answered, IsAsked, IsOutcome, IsSettingOf, Makes, NoneFails, request_of, rooms_of};
ghost use Rattle.cod_segment.specs.Exact.{Exactly};
ghost use Rattle.cod_reading.specs.Filling.{IsFilling, parts_in};
ghost use Rattle.cod_reading.specs.Reads.{Brings, MayRead, MayReadAll, part_bytes, part_reads, Reads};

use crate::parts::read_part;
use cod_claims::Slip;
use cod_region::Region;
use cod_repair::Bench;
use cod_segment::{Asker, Outcome, Segment};
use cod_types::{Bytes, Call, Reply};

/// Brings the old bytes of the update's part `i` into its delta.
fn read_delta<R: Region>(
    segment: &mut Segment<R>,
    slip: &mut Slip,
    i: usize,
    clock: &mut u64,
    bench: &mut Bench,
) -> bool
    requires there { i < length (changes_of slip.old) }
    requires early { slip.old.are_made ≡ false }
    requires sized { length (change_at (changes_of slip.old) i).bytes ≡ (change_at (changes_of slip.old) i).part.len }
    requires may { MayRead segment.old (change_at (changes_of slip.old) i).part.block (change_at (changes_of slip.old) i).part.off
        (change_at (changes_of slip.old) i).part.len }
    requires bench { bench.old ≡ segment.old.site.shape }
    ensures slip { (bytes : List ℕ) × (length bytes ≡ (change_at (changes_of slip.old) i).part.len) × (slip.new ≡ with_bytes i bytes slip.old)
        × (result ≡ true → Brings segment.old (change_at (changes_of slip.old) i).part.block (change_at (changes_of slip.old) i).part.off bytes) }
    ensures brought { result ≡ true
        → Reads (block_reads segment.old.site.shape.k segment.old.cols (change_at (changes_of slip.old) i).part.block) clock.old clock.new segment.old segment.new
        × (is_over segment.new.site segment.new.log ≡ false) }
    ensures lost { result ≡ false → Reads (λ i. 0) clock.old clock.new segment.old segment.new × (is_over segment.new.site segment.new.log ≡ true) }
    ensures bench { bench.new ≡ bench.old }
{
    let part = slip.part(i);
    let mut bytes = slip.take_bytes(i);
    let is_read = read_part(segment, part.block, part.off, &mut bytes, clock, bench);
    slip.put_bytes(i, bytes);
    is_read
}

/// Brings the old bytes of all parts into their deltas. It answers false where too many columns are down by now.
fn read_deltas<R: Region>(
    segment: &mut Segment<R>,
    slip: &mut Slip,
    clock: &mut u64,
    bench: &mut Bench,
) -> bool
    requires filling { IsFilling segment.old 0 slip.old }
    requires may { MayReadAll segment.old (parts_in (changes_of slip.old)) (part_bytes (parts_in (changes_of slip.old))) }
    requires bench { bench.old ≡ segment.old.site.shape }
    ensures brought { result ≡ true
        → Reads (part_reads segment.old.site.shape.k segment.old.cols (parts_in (changes_of slip.old))) clock.old clock.new segment.old segment.new
        × (is_over segment.new.site segment.new.log ≡ false) × IsFilling segment.old (length (changes_of slip.old)) slip.new }
    ensures lost { result ≡ false → Reads (λ i. 0) clock.old clock.new segment.old segment.new × (is_over segment.new.site segment.new.log ≡ true) }
    ensures slip { (slip.new ≡ record slip.old { changes = slip.new.changes }) × (parts_in (changes_of slip.new) ≡ parts_in (changes_of slip.old)) }
    ensures bench { bench.new ≡ bench.old }
{
    for i in 0..slip.deltas() {
        if !read_delta(segment, slip, i, clock, bench) {
            return false;
        }
    }
    true
}

/// The bytes that a swap found, twice, where they aren't the old ones that it asks for.
fn differing(slip: &mut Slip) -> Option<(Bytes, Bytes)>
    requires call { IsSome slip.old.call }
    requires early { slip.old.are_made ≡ false }
    requires swap { (off : ℕ) (old new : List ℕ) → call_in slip.old ≡ Swap off old new
        → IsSome slip.old.buffers × IfSome slip.old.buffers (λ bs. (length bs.0 ≡ length (joined (changes_of slip.old))) × (length bs.1 ≡ length (joined (changes_of slip.old)))) }
    ensures same { IfNone result ((off : ℕ) (old new : List ℕ) → call_in slip.old ≡ Swap off old new → joined (changes_of slip.old) ≡ old) }
    ensures other { IfSome result (λ found. (off : ℕ) × (old : List ℕ) × (new : List ℕ) × (call_in slip.old ≡ Swap off old new)
        × (found.0 ≡ joined (changes_of slip.old)) × (found.1 ≡ joined (changes_of slip.old)) × (bytes_eq (joined (changes_of slip.old)) old ≡ false)) }
    ensures slip { slip.new ≡ record slip.old { buffers = slip.new.buffers } }
{
    match slip.call() {
        Call::Swap { .. } => {}
        _ => return None,
    }
    let (first, second) = slip.take_found();
    match slip.call() {
        Call::Swap { old, .. } if first.as_slice() == old.as_slice() => None,
        _ => Some((first, second)),
    }
}

/// An update's bytes are bytes. This does nothing.
fn are_bytes(slip: &Slip)
    requires { IsSome slip.now.call }
    ensures { AreBytes (new_bytes (call_in slip.now)) }
{
    match slip.call() {
        Call::Write { bytes, .. } => {
            let _bytes = bytes.as_slice();
        }
        Call::Swap { new, .. } => {
            let _bytes = new.as_slice();
        }
        _ => {}
    }
}

/// Reads the old bytes of an update, keeps what it will change, and claims its blocks. An update of no bytes is done at once,
/// and a swap that finds other bytes is answered with them.
pub fn begin<R: Region>(
    segment: &mut Segment<R>,
    slip: &mut Slip,
    asker: Asker,
    bench: &mut Bench,
    clock: &mut u64,
) -> Outcome
    requires sound { Sound segment.old }
    requires next { next_step segment.old asker.caller.0 (call_in slip.old) ≡ step.Begin }
    requires asked { IsAsked segment.old asker.caller.0 asker.number slip.old (call_in slip.old) }
    requires bench { bench.old ≡ segment.old.site.shape }
    requires room { HasRoom 2 segment.old }
    ensures sound { Sound segment.new }
    ensures makes { (w : Setting) → IsSettingOf w segment.old
        → Makes w (request_of asker.caller.0 asker.number (call_in slip.old)) clock.old clock.new (is_answered result) segment.old segment.new }
    ensures exact { (w : Setting) → Exactly w step.Begin result segment.old segment.new }
    ensures outcome { IsOutcome result (request_of asker.caller.0 asker.number (call_in slip.old)) clock.new segment.new slip.new }
    ensures costs { NoneFails segment.old segment.new → Costs segment.old asker.caller.0 (call_in slip.old) step.Begin segment.new }
    ensures rooms { rooms_of segment.new ≡ rooms_of segment.old }
    ensures bench { bench.new ≡ bench.old }
{
    if slip.deltas() == 0 {
        return segment.answer(slip, asker, clock, Reply::Done, Reply::Done);
    }
    if !read_deltas(segment, slip, clock, bench) {
        return segment.answer_lost(slip, asker, clock);
    }
    are_bytes(slip);
    match differing(slip) {
        Some((entered, told)) => {
            let (entered, told) = (Reply::Differs(entered), Reply::Differs(told));
            segment.answer(slip, asker, clock, entered, told)
        }
        None => {
            slip.make_deltas();
            segment.claims.claim(asker.caller, asker.number, slip);
            Outcome::Moved
        }
    }
}
