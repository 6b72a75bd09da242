//! The bytes of parts, brought from the columns that are up.
ghost use Rattle.std.specs.Prelude.{◌≡◌, ◌+◌, ◌-◌, ◌*◌, ◌<◌, ◌≤◌, ◌^◌, ℕ, length, List, true, false, MatchResult, IfErr, OnOk, All};
ghost use Rattle.std.specs.List.{flat_map, sum_by};
ghost use Rattle.cod_types.specs.Overwritten.{overwritten};
ghost use Rattle.cod_types.specs.Plain.{bytes_at};
ghost use Rattle.cod_code.specs.Codewords.{AreBytes};
ghost use Rattle.cod_code.specs.Segments.{column};
ghost use Rattle.cod_layout.specs.Blocks.{block_of, blocks_of, bytes_in};
ghost use Rattle.cod_layout.specs.Parts.{IsInside};
ghost use Rattle.cod_chronicle.specs.Said.{bytes_of, is_over};
ghost use Rattle.cod_seg.specs.Calls.{block_reads};
ghost use Rattle.cod_seg.specs.Laws.{up_below};
ghost use Rattle.cod_seg.specs.Seg.{col_at};
ghost use Rattle.cod_seg.specs.Sound.{Sound};
ghost use Rattle.cod_repair.specs.Columns.{failed_at, faults_at, IsMadeFor, state_at, were_read};
ghost use Rattle.cod_reading.specs.Reads.{Brings, BringsAll, HaveValues, is_read_for, MayRead, MayReadAll, part_reads, Reads};

use cod_claims::Claims;
use cod_layout::Part;
use cod_region::Region;
use cod_repair::{Bench, ColumnFailed, Columns, piece};
use cod_segment::Segment;
use cod_types::Cuts;

/// Brings bytes of a data block at the cut into `into`: from its column where that is live, else from the k lowest live ones.
fn bring<R: Region>(
    columns: &mut Columns<R>,
    claims: &Claims,
    cuts: &Cuts,
    block: u8,
    off: u32,
    into: &mut [u8],
    bench: &mut Bench,
) -> Result<(), ColumnFailed>
    requires count { length columns.old ≡ bench.old.n }
    requires among { block < bench.old.k }
    requires data { bench.old.k ≤ bench.old.n }
    requires live { bench.old.k ≤ up_below bench.old.n columns.old }
    requires made { (i : ℕ) → i < bench.old.n → IsMadeFor bench.old i (col_at columns.old i) }
    requires inside { off + length into.old ≤ bench.old.block }
    ensures reads { MatchResult result (λ _. columns.new ≡ were_read (is_read_for bench.old.k columns.old block) columns.old bench.old.n)
        (λ e. columns.new ≡ failed_at (is_read_for bench.old.k columns.old block) columns.old e.col e.count) }
    ensures cause { IfErr result (λ e. (e.col < bench.old.n) × (is_read_for bench.old.k columns.old block e.col ≡ true) × (1 ≤ e.count)) }
    ensures bytes { (b : List ℕ) → AreBytes b → HaveValues bench.old b claims.now cuts.now columns.old
        → OnOk result (into.new ≡ bytes_at (column bench.old.k bench.old.block block b) off (length into.old)) }
    ensures bench { bench.new ≡ bench.old }
{
    if columns.live(block) {
        columns.read(block, off, into, claims, cuts, bench)
    } else {
        piece(columns, claims, cuts, block, off, into, bench)
    }
}

/// The same for a segment.
fn fetch<R: Region>(
    segment: &mut Segment<R>,
    block: u8,
    off: u32,
    into: &mut [u8],
    bench: &mut Bench,
) -> Result<(), ColumnFailed>
    requires may { MayRead segment.old block off (length into.old) }
    requires bench { bench.old ≡ segment.old.site.shape }
    ensures reads { MatchResult result
        (λ _. segment.new ≡ record segment.old { cols = were_read (is_read_for segment.old.site.shape.k segment.old.cols block) segment.old.cols segment.old.site.shape.n })
        (λ e. segment.new ≡ record segment.old { cols = failed_at (is_read_for segment.old.site.shape.k segment.old.cols block) segment.old.cols e.col e.count }) }
    ensures cause { IfErr result (λ e. (e.col < segment.old.site.shape.n) × (is_read_for segment.old.site.shape.k segment.old.cols block e.col ≡ true) × (1 ≤ e.count)) }
    ensures bytes { OnOk result (Brings segment.old block off into.new) }
    ensures bench { bench.new ≡ bench.old }
{
    let (claims, cuts) = (&segment.claims, &segment.cuts);
    bring(&mut segment.columns, claims, cuts, block, off, into, bench)?;
    Ok(())
}

/// A column whose region has failed may fail. This does nothing.
fn may_fail<R: Region>(columns: &Columns<R>, col: u8)
    requires col { col < length columns.now }
    requires some { 1 ≤ faults_at columns.now col }
    ensures { (state_at columns.now col).device.never_fails ≡ false }
{
    let _region = columns.region(col);
}

/// Tries to bring bytes of a data block. Where a column's region fails, it goes down.
fn try_part<R: Region>(
    segment: &mut Segment<R>,
    block: u8,
    off: u32,
    into: &mut [u8],
    clock: &mut u64,
    bench: &mut Bench,
) -> bool
    requires may { MayRead segment.old block off (length into.old) }
    requires bench { bench.old ≡ segment.old.site.shape }
    ensures brought { result ≡ true → Reads (block_reads segment.old.site.shape.k segment.old.cols block) clock.old clock.new segment.old segment.new
        × (segment.new.log ≡ segment.old.log) × Brings segment.old block off into.new }
    ensures failed { result ≡ false → Reads (λ i. 0) clock.old clock.new segment.old segment.new
        × (up_below segment.old.site.shape.n segment.new.cols < up_below segment.old.site.shape.n segment.old.cols) }
    ensures bench { bench.new ≡ bench.old }
{
    match fetch(segment, block, off, into, bench) {
        Ok(()) => true,
        Err(failed) => {
            may_fail(&segment.columns, failed.col);
            segment.mark_fault(failed, clock);
            false
        }
    }
}

/// Brings bytes of a data block at the cut into `into`. A column whose region fails goes down, and the bytes are brought
/// anew from those that are left. It answers false where too many are down by now.
pub(crate) fn read_part<R: Region>(
    segment: &mut Segment<R>,
    block: u8,
    off: u32,
    into: &mut [u8],
    clock: &mut u64,
    bench: &mut Bench,
) -> bool
    requires may { MayRead segment.old block off (length into.old) }
    requires bench { bench.old ≡ segment.old.site.shape }
    ensures brought { result ≡ true → Reads (block_reads segment.old.site.shape.k segment.old.cols block) clock.old clock.new segment.old segment.new
        × (is_over segment.new.site segment.new.log ≡ false) × Brings segment.old block off into.new }
    ensures lost { result ≡ false → Reads (λ i. 0) clock.old clock.new segment.old segment.new × (is_over segment.new.site segment.new.log ≡ true) }
    ensures bench { bench.new ≡ bench.old }
{
    'tries: while !segment.is_lost() {
        if try_part(segment, block, off, into, clock, bench) {
            return true;
        }
    }
    false
}

/// Brings a part's bytes to their place in `into`.
#[tactic(auto, using(cod_types::proofs::Replaced::put_mid_is))]
fn read_to<R: Region>(
    segment: &mut Segment<R>,
    part: Part,
    at: usize,
    into: &mut [u8],
    clock: &mut u64,
    bench: &mut Bench,
) -> bool
    requires may { MayRead segment.old part.block part.off part.len }
    requires fits { at + part.len ≤ length into.old }
    requires bench { bench.old ≡ segment.old.site.shape }
    ensures brought { result ≡ true → Reads (block_reads segment.old.site.shape.k segment.old.cols part.block) clock.old clock.new segment.old segment.new
        × (is_over segment.new.site segment.new.log ≡ false)
        × ((piece : List ℕ) × (length piece ≡ part.len) × (into.new ≡ overwritten at piece into.old) × Brings segment.old part.block part.off piece) }
    ensures lost { result ≡ false → Reads (λ i. 0) clock.old clock.new segment.old segment.new × (is_over segment.new.site segment.new.log ≡ true) }
    ensures bench { bench.new ≡ bench.old }
{
    let end = at + part.len as usize;
    read_part(
        segment,
        part.block,
        part.off,
        &mut into[at..end],
        clock,
        bench,
    )
}

/// Brings the parts of a range into `into`, one behind the other. It answers false where too many columns are down by now.
pub(crate) fn read_parts<R: Region>(
    segment: &mut Segment<R>,
    parts: &[Part],
    into: &mut [u8],
    clock: &mut u64,
    bench: &mut Bench,
) -> bool
    requires may { MayReadAll segment.old parts.now (length into.old) }
    requires bench { bench.old ≡ segment.old.site.shape }
    ensures brought { result ≡ true → Reads (part_reads segment.old.site.shape.k segment.old.cols parts.now) clock.old clock.new segment.old segment.new
        × (is_over segment.new.site segment.new.log ≡ false) × BringsAll segment.old parts.now into.new }
    ensures lost { result ≡ false → Reads (λ i. 0) clock.old clock.new segment.old segment.new × (is_over segment.new.site segment.new.log ≡ true) }
    ensures bench { bench.new ≡ bench.old }
{
    let mut at = 0;
    for part in parts {
        if !read_to(segment, *part, at, into, clock, bench) {
            return false;
        }
        at += part.len as usize;
    }
    true
}
