//! The sum of columns whose bytes at the cut are those of their regions, which are fetched and added where they are held.
ghost use Rattle.std.specs.Prelude.{◌≡◌, ◌+◌, ◌<◌, ◌≤◌, ℕ, [], List, length, map, slice_index, slice_index_or, true, false, IfErr, IsOk, MatchResult};
ghost use Rattle.std.specs.Borrow.{Bor};
ghost use Rattle.cod_types.specs.Faults.{HasCause, Rose};
ghost use Rattle.cod_code.specs.Columns.{has_column};
ghost use Rattle.cod_seg.specs.Seg.{col_at};
ghost use Rattle.cod_repair.specs.Columns.{failed_at, faults_at, HasValue, IsInside, IsPlain, state_at, was_read, were_read};
ghost use Rattle.cod_repair.specs.Pieces.{kept_byte, sum_of, with_lent};

use crate::calls::failed;
use crate::sources::has;
use crate::window::WAYS;
use crate::{Column, ColumnFailed};
use cod_claims::Claims;
use cod_kernel::{add_all_scaled, set_all_scaled};
use cod_region::Region;

/// Whether the bytes at the cut of each source are those of its region.
pub(crate) fn are_plain<R: Region>(columns: &[Column<R>], claims: &Claims, sources: u16) -> bool
    requires most { length columns.now ≤ 16 }
    ensures plain { result ≡ true → (i : ℕ) → i < length columns.now → has_column sources i ≡ true
        → IsPlain (col_at columns.now i) (kept_byte claims.now i) }
{
    for i in 0..columns.len() {
        if has(sources, i) && !columns[i].is_plain(claims.kept(i as u8).is_none()) {
            return false;
        }
    }
    true
}

/// Fetches so many bytes of each source from `off` on, in the order of the columns, up to one that fails.
pub(crate) fn fetch_sources<R: Region>(
    columns: &mut [Column<R>],
    sources: u16,
    off: u32,
    len: usize,
) -> Result<(), ColumnFailed>
    requires most { length columns.old ≤ 16 }
    requires range { (i : ℕ) → i < length columns.old → has_column sources i ≡ true → IsInside off len (col_at columns.old i) }
    ensures reads { MatchResult result (λ _. columns.new ≡ were_read (has_column sources) columns.old (length columns.old))
        (λ e. columns.new ≡ failed_at (has_column sources) columns.old e.col e.count) }
    ensures cause { IfErr result (λ e. (e.col < length columns.old) × (has_column sources e.col ≡ true) × Rose (faults_at columns.old e.col) e.count) }
    ensures sure { ((i : ℕ) → i < length columns.old → has_column sources i ≡ true → (state_at columns.old i).device.never_fails ≡ true) → IsOk result }
{
    for i in 0..columns.len() {
        if has(sources, i) {
            fetch_source(&mut columns[i], i as u8, off, len)?;
        }
    }
    Ok(())
}

/// Fetches so many bytes of a column from `off` on.
fn fetch_source<R: Region>(
    column: &mut Column<R>,
    col: u8,
    off: u32,
    len: usize,
) -> Result<(), ColumnFailed>
    requires { IsInside off len column.old }
    ensures same { column.new ≡ was_read column.new.state.device.faults column.old }
    ensures cause { HasCause column.old.state.device.faults column.new.state.device.faults result }
    ensures failed { IfErr result (λ e. (e.col ≡ col) × (e.count ≡ column.new.state.device.faults)) }
    ensures sure { column.old.state.device.never_fails ≡ true → IsOk result }
{
    match column.fetch(off, len) {
        Ok(()) => Ok(()),
        Err(_) => Err(failed(column, col)),
    }
}

/// Brings the sum of the sources, each times its coefficient, from the bytes that their regions hold.
pub(crate) fn sum_lent<'a, R: Region>(
    columns: &'a [Column<R>],
    sources: u16,
    row: &'a [u8; 16],
    off: u32,
    into: &mut [u8],
)
    requires most { length columns.now ≤ 16 }
    requires elsewhere { (j : ℕ) → j < 16 → has_column sources j ≡ false → slice_index row.now j ≡ 0 }
    requires range { (i : ℕ) → i < length columns.now → has_column sources i ≡ true → IsInside off (length into.old) (col_at columns.now i) }
    ensures sum { (cuts : List ℕ) (kept v : ℕ → ℕ → ℕ)
        → ((i : ℕ) → i < length columns.now → has_column sources i ≡ true → HasValue (col_at columns.now i) cuts (kept i) (v i))
        → ((i : ℕ) → i < length columns.now → has_column sources i ≡ true → IsPlain (col_at columns.now i) (kept i))
        → (x : ℕ) → x < length into.old → slice_index into.new x ≡ sum_of row.now (λ i. v i (off + x)) (length columns.now) }
{
    let mut coefs = [0; WAYS];
    let mut lent = [&row[..0]; WAYS];
    let mut held = 0;
    let mut fresh = true;
    for i in 0..columns.len() {
        if has(sources, i) {
            (held, fresh) = settled(fresh, into, &coefs, &lent, held);
            lent[held] = columns[i].lent(off, into.len());
            coefs[held] = row[i];
            held += 1;
        }
    }
    add_lent(fresh, into, &coefs, &lent, held);
}

/// Adds the slices that are held where there is no place for one more. It answers how many are held then, and whether nothing was
/// added yet.
fn settled(
    fresh: bool,
    into: &mut [u8],
    coefs: &[u8; WAYS],
    lent: &[&[u8]; WAYS],
    held: usize,
) -> (usize, bool)
    requires few { held ≤ 4 }
    requires long { (j : ℕ) → j < held → length (slice_index_or (map (λ s. s.now) lent.now) j []) ≡ length into.old }
    ensures few { result.0 < 4 }
    ensures held { result.0 ≤ held }
    ensures same { (x : ℕ) → x < length into.old
        → with_lent result.1 into.new coefs.now (map (λ s. s.now) lent.now) result.0 x
        ≡ with_lent fresh into.old coefs.now (map (λ s. s.now) lent.now) held x }
{
    if held < WAYS {
        return (held, fresh);
    }
    add_lent(fresh, into, coefs, lent, held);
    (0, false)
}

/// Adds the slices that are held, each times its coefficient, in one pass. Fresh bytes are set.
fn add_lent(fresh: bool, into: &mut [u8], coefs: &[u8; WAYS], lent: &[&[u8]; WAYS], held: usize)
    requires few { held ≤ 4 }
    requires long { (j : ℕ) → j < held → length (slice_index_or (map (λ s. s.now) lent.now) j []) ≡ length into.old }
    ensures { (x : ℕ) → x < length into.old
        → slice_index into.new x ≡ with_lent fresh into.old coefs.now (map (λ s. s.now) lent.now) held x }
{
    if fresh {
        set_all_scaled(into, &coefs[..held], &lent[..held])
    } else {
        add_all_scaled(into, &coefs[..held], &lent[..held])
    }
}
