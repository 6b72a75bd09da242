//! A window of a column, made from the k lowest live columns.
ghost use Rattle.std.specs.Prelude.{◌≡◌, ◌+◌, ◌*◌, ◌<◌, ◌≤◌, ℕ, List, length, slice_index, true, false, OnOk, IfErr, IsOk, MatchResult};
ghost use Rattle.cod_types.specs.Faults.{HasCause, Rose};
ghost use Rattle.cod_types.specs.Plain.{bytes_at};
ghost use Rattle.cod_code.specs.Codewords.{AreBytes};
ghost use Rattle.cod_code.specs.Columns.{has_column};
ghost use Rattle.cod_code.specs.Segments.{column};
ghost use Rattle.cod_seg.specs.Laws.{up_below};
ghost use Rattle.cod_seg.specs.Seg.{col_at};
ghost use Rattle.cod_repair.specs.Columns.{AreMadeFor, failed_at, faults_at, HasValue, IsReadable, is_source, state_at, was_read, were_read};
ghost use Rattle.cod_repair.specs.Pieces.{AreOf, kept_byte, sum_of, with_windows};

use crate::calls::failed;
use crate::lending::{are_plain, fetch_sources, sum_lent};
use crate::sources::{has, lowest_live};
use crate::{Bench, Column, ColumnFailed, Columns};
use cod_claims::Claims;
use cod_kernel::{add_all_scaled, set_all_scaled};
use cod_region::Region;
use cod_types::Cuts;

/// Brings the bytes of the wanted column at the cut, from `off` on, into `into`. They are made from the k lowest live
/// columns, by exactly one read on each, whether or not the wanted one is among them. Where a region fails, its column
/// is answered, no further column is read, and `into` may have any bytes.
pub fn piece<R: Region>(
    columns: &mut Columns<R>,
    claims: &Claims,
    cuts: &Cuts,
    wanted: u8,
    off: u32,
    into: &mut [u8],
    bench: &mut Bench,
) -> Result<(), ColumnFailed>
    requires count { length columns.old ≡ bench.old.n }
    requires wanted { wanted < bench.old.n }
    requires live { bench.old.k ≤ up_below bench.old.n columns.old }
    requires made { AreMadeFor bench.old columns.old }
    requires inside { off + length into.old ≤ bench.old.block }
    ensures bytes { (segment : List ℕ) → AreBytes segment → AreOf bench.old.k bench.old.block segment claims.now cuts.now columns.old
        → OnOk result (into.new ≡ bytes_at (column bench.old.k bench.old.block wanted segment) off (length into.old)) }
    ensures reads { MatchResult result (λ _. columns.new ≡ were_read (is_source bench.old.k columns.old) columns.old bench.old.n)
        (λ e. columns.new ≡ failed_at (is_source bench.old.k columns.old) columns.old e.col e.count) }
    ensures cause { IfErr result (λ e. (e.col < bench.old.n) × (is_source bench.old.k columns.old e.col ≡ true) × Rose (faults_at columns.old e.col) e.count) }
    ensures sure { ((i : ℕ) → is_source bench.old.k columns.old i ≡ true → (state_at columns.old i).device.never_fails ≡ true) → IsOk result }
    ensures bench { bench.new ≡ bench.old }
{
    let sources = lowest_live(&columns.slots, bench.shape.k());
    let row = bench.rows.row(sources, wanted);
    sum_sources(
        &mut columns.slots,
        claims,
        cuts,
        sources,
        &row,
        off,
        into,
        &mut bench.windows,
        &mut bench.scratch,
    )
}

/// How many sources are added at once.
pub(crate) const WAYS: usize = 4;

/// Brings the sum of the source columns, each times its coefficient, by one read on each.
fn sum_sources<R: Region>(
    columns: &mut [Column<R>],
    claims: &Claims,
    cuts: &Cuts,
    sources: u16,
    row: &[u8; 16],
    off: u32,
    into: &mut [u8],
    windows: &mut [u8],
    scratch: &mut [u8],
) -> Result<(), ColumnFailed>
    requires most { length columns.old ≤ 16 }
    requires elsewhere { (j : ℕ) → j < 16 → has_column sources j ≡ false → slice_index row.now j ≡ 0 }
    requires range { (i : ℕ) → i < length columns.old → has_column sources i ≡ true
        → IsReadable off (length into.old) (length scratch.old) (col_at columns.old i) }
    requires room { length into.old ≤ length windows.old }
    ensures sum { (v : ℕ → ℕ → ℕ) → ((i : ℕ) → i < length columns.old → has_column sources i ≡ true
        → HasValue (col_at columns.old i) cuts.now (kept_byte claims.now i) (v i))
        → OnOk result ((x : ℕ) → x < length into.old
        → slice_index into.new x ≡ sum_of row.now (λ i. v i (off + x)) (length columns.old)) }
    ensures reads { MatchResult result (λ _. columns.new ≡ were_read (has_column sources) columns.old (length columns.old))
        (λ e. columns.new ≡ failed_at (has_column sources) columns.old e.col e.count) }
    ensures cause { IfErr result (λ e. (e.col < length columns.old) × (has_column sources e.col ≡ true) × Rose (faults_at columns.old e.col) e.count) }
    ensures sure { ((i : ℕ) → i < length columns.old → has_column sources i ≡ true → (state_at columns.old i).device.never_fails ≡ true) → IsOk result }
{
    if !are_plain(columns, claims, sources) {
        return sum_read(
            columns, claims, cuts, sources, row, off, into, windows, scratch,
        );
    }
    fetch_sources(columns, sources, off, into.len())?;
    sum_lent(columns, sources, row, off, into);
    Ok(())
}

/// Brings the sum of the source columns, each times its coefficient, by one read on each into a window.
fn sum_read<R: Region>(
    columns: &mut [Column<R>],
    claims: &Claims,
    cuts: &Cuts,
    sources: u16,
    row: &[u8; 16],
    off: u32,
    into: &mut [u8],
    windows: &mut [u8],
    scratch: &mut [u8],
) -> Result<(), ColumnFailed>
    requires most { length columns.old ≤ 16 }
    requires elsewhere { (j : ℕ) → j < 16 → has_column sources j ≡ false → slice_index row.now j ≡ 0 }
    requires range { (i : ℕ) → i < length columns.old → has_column sources i ≡ true
        → IsReadable off (length into.old) (length scratch.old) (col_at columns.old i) }
    requires room { length into.old ≤ length windows.old }
    ensures sum { (v : ℕ → ℕ → ℕ) → ((i : ℕ) → i < length columns.old → has_column sources i ≡ true
        → HasValue (col_at columns.old i) cuts.now (kept_byte claims.now i) (v i))
        → OnOk result ((x : ℕ) → x < length into.old
        → slice_index into.new x ≡ sum_of row.now (λ i. v i (off + x)) (length columns.old)) }
    ensures reads { MatchResult result (λ _. columns.new ≡ were_read (has_column sources) columns.old (length columns.old))
        (λ e. columns.new ≡ failed_at (has_column sources) columns.old e.col e.count) }
    ensures cause { IfErr result (λ e. (e.col < length columns.old) × (has_column sources e.col ≡ true) × Rose (faults_at columns.old e.col) e.count) }
    ensures sure { ((i : ℕ) → i < length columns.old → has_column sources i ≡ true → (state_at columns.old i).device.never_fails ≡ true) → IsOk result }
{
    let mut coefs = [0; WAYS];
    let mut held = 0;
    let mut fresh = true;
    for i in 0..columns.len() {
        if has(sources, i) {
            (held, fresh) = settled(fresh, into, &coefs, windows, held);
            read_source(
                &mut columns[i],
                claims,
                cuts,
                i as u8,
                off,
                windows,
                held * into.len(),
                into.len(),
                scratch,
            )?;
            coefs[held] = row[i];
            held += 1;
        }
    }
    add_windows(fresh, into, &coefs, windows, held);
    Ok(())
}

/// Adds the windows that are held where there is no room for one more. It answers how many are held then, and whether nothing
/// was added yet.
fn settled(
    fresh: bool,
    into: &mut [u8],
    coefs: &[u8; WAYS],
    windows: &[u8],
    held: usize,
) -> (usize, bool)
    requires few { held ≤ 4 }
    requires held { held * length into.old ≤ length windows.now }
    requires room { length into.old ≤ length windows.now }
    ensures few { result.0 < 4 }
    ensures fits { result.0 * length into.old + length into.old ≤ length windows.now }
    ensures same { (x : ℕ) → x < length into.old
        → with_windows result.1 into.new coefs.now windows.now (length into.old) result.0 x
        ≡ with_windows fresh into.old coefs.now windows.now (length into.old) held x }
{
    let len = into.len();
    if held < WAYS && len <= windows.len() - held * len {
        return (held, fresh);
    }
    add_windows(fresh, into, coefs, windows, held);
    (0, false)
}

/// Adds the windows that are held, each times its coefficient, in one pass. Fresh bytes are set.
fn add_windows(fresh: bool, into: &mut [u8], coefs: &[u8; WAYS], windows: &[u8], held: usize)
    requires few { held ≤ 4 }
    requires held { held * length into.old ≤ length windows.now }
    ensures { (x : ℕ) → x < length into.old
        → slice_index into.new x ≡ with_windows fresh into.old coefs.now windows.now (length into.old) held x }
{
    let len = into.len();
    let mut sources = [&windows[..0]; WAYS];
    for j in 0..held {
        sources[j] = &windows[j * len..j * len + len];
    }
    if fresh {
        set_all_scaled(into, &coefs[..held], &sources[..held])
    } else {
        add_all_scaled(into, &coefs[..held], &sources[..held])
    }
}

/// Reads a column's bytes at the cut into a window, by one read.
fn read_source<R: Region>(
    column: &mut Column<R>,
    claims: &Claims,
    cuts: &Cuts,
    col: u8,
    off: u32,
    windows: &mut [u8],
    at: usize,
    len: usize,
    scratch: &mut [u8],
) -> Result<(), ColumnFailed>
    requires range { IsReadable off len (length scratch.old) column.old }
    requires room { at + len ≤ length windows.old }
    ensures same { column.new ≡ was_read column.new.state.device.faults column.old }
    ensures before { (y : ℕ) → y < at → slice_index windows.new y ≡ slice_index windows.old y }
    ensures value { (v : ℕ → ℕ) → HasValue column.old cuts.now (kept_byte claims.now col) v
        → OnOk result ((x : ℕ) → x < len → slice_index windows.new (at + x) ≡ v (off + x)) }
    ensures cause { HasCause column.old.state.device.faults column.new.state.device.faults result }
    ensures failed { IfErr result (λ e. (e.col ≡ col) × (e.count ≡ column.new.state.device.faults)) }
    ensures sure { column.old.state.device.never_fails ≡ true → IsOk result }
{
    let window = &mut windows[at..at + len];
    match column.read_at_cut(claims.kept(col), off, window, cuts, scratch) {
        Ok(()) => Ok(()),
        Err(_) => Err(failed(column, col)),
    }
}
