//! The bytes of a live column are brought to another region.

ghost use Rattle.std.specs.Prelude.{◌≡◌, ℕ, ◌+◌, ◌<◌, ◌≤◌, IfErr, IsOk, OnOk, length, slice_index, true};
ghost use Rattle.cod_types.specs.Faults.{bump, grown};
ghost use Rattle.cod_repair.specs.Columns.{faults_at, HasValue, IsFull, IsMadeFor, IsTold, state_at};
ghost use Rattle.cod_repair.specs.Pieces.{kept_byte};
ghost use Rattle.cod_seg.specs.Calls.{piece_count};
ghost use Rattle.cod_seg.specs.Seg.{col_at, with_col};
ghost use Rattle.cod_drain.specs.Copies.{FailsCopy, HasBytes, KeepsGoal, read_times, WasRead, with_faults};

use cod_region::Region;
use cod_repair::{Bench, ColumnFailed, Target};
use cod_segment::Segment;

/// The most bytes of a piece.
const PIECE: usize = 4096;

/// Which region failed.
#[derive(Clone, Copy)]
pub(crate) enum CopyFailed {
    /// The column's own.
    Old(ColumnFailed),
    /// The target's.
    New,
}

/// Reads a live column's bytes at the cut, from place `off` on.
fn read_column<R: Region>(
    segment: &mut Segment<R>,
    col: u8,
    off: u32,
    into: &mut [u8],
    bench: &mut Bench,
) -> Result<(), ColumnFailed>
    requires col { col < length segment.old.cols }
    requires among { col < bench.old.n }
    requires made { IsMadeFor bench.old col (col_at segment.old.cols col) }
    requires inside { off + length into.old ≤ bench.old.block }
    ensures becomes { segment.new ≡ record segment.old {
      cols = with_col segment.old.cols col (with_faults (faults_at segment.new.cols col) (read_times 1 (col_at segment.old.cols col)));
    } }
    ensures told { IsTold col segment.old.cols segment.new.cols result }
    ensures sure { (state_at segment.old.cols col).device.never_fails ≡ true → IsOk result }
    ensures value { (v : ℕ → ℕ) → HasValue (col_at segment.old.cols col) segment.old.cuts (kept_byte segment.old.claims col) v
        → OnOk result ((x : ℕ) → x < length into.old → slice_index into.new x ≡ v (off + x)) }
    ensures bench { bench.new ≡ bench.old }
{
    let (claims, cuts) = (&segment.claims, &segment.cuts);
    segment.columns.read(col, off, into, claims, cuts, bench)
}

/// Brings the next bytes of a live column, as many as `into` has, to another region.
fn copy_piece<R: Region>(
    segment: &mut Segment<R>,
    col: u8,
    into: &mut [u8],
    target: &mut Target<R>,
    bench: &mut Bench,
) -> Result<(), CopyFailed>
    requires col { col < length segment.old.cols }
    requires among { col < bench.old.n }
    requires made { IsMadeFor bench.old col (col_at segment.old.cols col) }
    requires inside { target.old.filled + length into.old ≤ bench.old.block }
    requires size { bench.old.block ≤ target.old.device.size }
    requires full { IsFull target.old.device }
    ensures copied { OnOk result (WasRead col 1 segment.old segment.new × KeepsGoal target.old target.new
        × (target.new.filled ≡ target.old.filled + length into.old) × (target.new.device.writes ≡ bump target.old.device.writes)) }
    ensures value { (v : ℕ → ℕ) → HasValue (col_at segment.old.cols col) segment.old.cuts (kept_byte segment.old.claims col) v
        → OnOk result (HasBytes v target.old → HasBytes v target.new) }
    ensures failed { IfErr result (λ e. FailsCopy col e segment.old segment.new target.old target.new) }
    ensures bench { bench.new ≡ bench.old }
{
    match read_column(segment, col, target.done(), into, bench) {
        Ok(()) => {}
        Err(failed) => return Err(CopyFailed::Old(failed)),
    }
    match target.fill(into) {
        Ok(()) => Ok(()),
        Err(_) => Err(CopyFailed::New),
    }
}

/// Brings the value of a live column to another region, piece by piece.
pub(crate) fn copy_column<R: Region>(
    segment: &mut Segment<R>,
    col: u8,
    target: &mut Target<R>,
    bench: &mut Bench,
) -> Result<(), CopyFailed>
    requires col { col < length segment.old.cols }
    requires among { col < bench.old.n }
    requires made { IsMadeFor bench.old col (col_at segment.old.cols col) }
    requires shape { segment.old.site.shape ≡ bench.old }
    requires fresh { target.old.filled ≡ 0 }
    requires size { bench.old.block ≤ target.old.device.size }
    requires full { IsFull target.old.device }
    ensures copied { OnOk result (WasRead col (piece_count bench.old) segment.old segment.new × KeepsGoal target.old target.new
        × (target.new.filled ≡ bench.old.block) × (target.new.device.writes ≡ grown (piece_count bench.old) target.old.device.writes)) }
    ensures value { (v : ℕ → ℕ) → HasValue (col_at segment.old.cols col) segment.old.cuts (kept_byte segment.old.claims col) v
        → OnOk result (HasBytes v target.new) }
    ensures failed { IfErr result (λ e. FailsCopy col e segment.old segment.new target.old target.new) }
    ensures bench { bench.new ≡ bench.old }
{
    let mut bytes = [0; PIECE];
    let block = segment.shape.block();
    'pieces: while target.done() < block {
        let len = PIECE.min((block - target.done()) as usize);
        match copy_piece(segment, col, &mut bytes[..len], target, bench) {
            Ok(()) => {}
            Err(failed) => return Err(failed),
        }
    }
    Ok(())
}
