//! The log of records behind a parity block.
ghost use Rattle.std.specs.Prelude.{◌≡◌, ◌+◌, ◌-◌, ◌<◌, ◌≤◌, ◌↔◌, ◌^◌, ◌++◌, [], ◌∷◌, ℕ, List, Some, IfSome, IsTrue, length, take, drop, slice_index, bit_xor};
ghost use Rattle.std.specs.List.{flat_map, filter, AllByRecursion};
ghost use Rattle.cod_record.specs.Reading.{BeginsRecord, found_of, IsFound};
ghost use Rattle.cod_record.specs.Record.{IsRecord, range_byte};
ghost use Rattle.cod_types.specs.Limits.{Shape};
ghost use Rattle.cod_parity.specs.Log.{change, IsDue, IsIn, is_past, IsValue, Logged, lowest_from, no_lowest, share, text};

use cod_kernel::add_window;
use cod_record::{Found, read_any, record_spans};
use cod_types::Cuts;

/// Whether some block's least number is at or below its cut.
pub fn any_due(lowest: &[u64; 16], cuts: &Cuts) -> bool
    ensures { IsTrue result ↔ IsDue lowest.now cuts.now }
{
    for block in 0..16u8 {
        if lowest[block as usize] <= cuts.get(block) {
            return true;
        }
    }
    false
}

/// What is told of the record that the bytes begin with, and its length, where it is of one of 16 blocks.
fn next_record(bytes: &[u8]) -> Option<(Found, usize)>
    ensures found { IfSome result (λ found. IsFound found.0 found.1 bytes.now) }
    ensures some { IfSome result (λ found. (0 < found.1) × (found.1 ≤ length bytes.now)) }
    ensures block { IfSome result (λ found. found.0.block < 16) }
    ensures only { (l : Logged) (rest : List ℕ) → IsRecord l.version l.whole (text l) → l.whole.block < 16 → bytes.now ≡ text l ++ rest
        → result ≡ Some (found_of l.version l.whole, length (text l)) }
{
    match read_any(bytes) {
        Ok((found, len)) if found.block < 16 => Some((found, len as usize)),
        _ => None,
    }
}

/// Adds to a window, whose first byte stands at place `off`, what falls into it of the record that begins the text.
pub fn add_record(window: &mut [u8], off: usize, from: &[u8])
    requires begins { BeginsRecord from.now }
    requires fits { off + length window.old < 2 ^ 64 }
    ensures { (l : Logged) (rest : List ℕ) → IsRecord l.version l.whole (text l) → from.now ≡ text l ++ rest
        → (x : ℕ) → x < length window.old → slice_index window.new x ≡ bit_xor (slice_index window.old x) (range_byte l.whole.ranges (off + x)) }
{
    'spans: for span in record_spans(from) {
        let at = span.at as usize;
        add_window(
            window,
            off,
            span.off as usize,
            &from[at..at + span.len as usize],
        );
    }
}

/// Whether the record is at or below its block's cut.
fn is_included(found: Found, cuts: &Cuts) -> bool
    requires { found.block < 16 }
    ensures { IsTrue result ↔ (found.number ≤ slice_index cuts.now found.block) }
{
    found.number <= cuts.get(found.block as u8)
}

/// Adds the record at a place to the base where it is at or below the cut, and else moves it behind those that stay. It
/// answers where those end.
fn fold_one(
    base: &mut [u8],
    log: &mut [u8],
    cuts: &Cuts,
    found: Found,
    len: usize,
    at: usize,
    to: usize,
) -> usize
    requires down { to ≤ at }
    requires inside { at + len ≤ length log.old }
    requires block { found.block < 16 }
    requires found { IsFound found len (drop at log.old) }
    ensures behind { result ≤ at + len }
    ensures rest { drop (at + len) log.new ≡ drop (at + len) log.old }
    ensures kept { (l : Logged) (rest : List ℕ) → found ≡ found_of l.version l.whole → len ≡ length (text l) → drop at log.old ≡ text l ++ rest
        → take result log.new ≡ take to log.old ++ flat_map text (filter (is_past cuts.now) (l ∷ [])) }
    ensures sum { (l : Logged) (rest : List ℕ) → found ≡ found_of l.version l.whole → IsRecord l.version l.whole (text l) → drop at log.old ≡ text l ++ rest
        → (x : ℕ) → x < length base.old → slice_index base.new x ≡ bit_xor (slice_index base.old x) (share cuts.now l x) }
{
    if is_included(found, cuts) {
        add_record(base, 0, &log[at..]);
        return to;
    }
    move_down(log, to, at, len);
    to + len
}

/// Moves the bytes of a text that stands at `from` down to `to`.
fn move_down(log: &mut [u8], to: usize, from: usize, len: usize)
    requires down { to ≤ from }
    requires inside { from + len ≤ length log.old }
    ensures front { take (to + len) log.new ≡ take to log.old ++ take len (drop from log.old) }
    ensures rest { drop (from + len) log.new ≡ drop (from + len) log.old }
{
    for i in 0..len {
        log[to + i] = log[from + i];
    }
}

/// Notes the record's number where it is past the cut.
fn note_one(lowest: &mut [u64; 16], found: Found, cuts: &Cuts)
    requires { found.block < 16 }
    ensures noted { (l : Logged) → found ≡ found_of l.version l.whole → lowest.new ≡ lowest_from lowest.old (filter (is_past cuts.now) (l ∷ [])) }
    ensures due { IsDue lowest.new cuts.now → IsDue lowest.old cuts.now }
{
    if !is_included(found, cuts) {
        let block = found.block as usize;
        lowest[block] = lowest[block].min(found.number);
    }
}

/// Adds the records at or below the cut to the base, and moves the others to the front of the log. It answers their bytes
/// and the least number of each block's.
fn fold(base: &mut [u8], log: &mut [u8], cuts: &Cuts) -> (usize, [u64; 16])
    ensures least { result.0 ≤ length log.old }
    ensures due { IsDue result.1 cuts.now → IsDue no_lowest cuts.now }
    ensures lowest { (g : Shape) (records : List Logged) → g.k ≤ 16 → AllByRecursion (IsIn g) records → log.old ≡ flat_map text records
        → result.1 ≡ lowest_from no_lowest (filter (is_past cuts.now) records) }
    ensures kept { (g : Shape) (records : List Logged) → g.k ≤ 16 → AllByRecursion (IsIn g) records → log.old ≡ flat_map text records
        → take result.0 log.new ≡ flat_map text (filter (is_past cuts.now) records) }
    ensures sum { (g : Shape) (records : List Logged) → g.k ≤ 16 → AllByRecursion (IsIn g) records → log.old ≡ flat_map text records
        → (x : ℕ) → x < length base.old → slice_index base.new x ≡ bit_xor (slice_index base.old x) (change cuts.now records x) }
{
    let mut at = 0;
    let mut to = 0;
    let mut lowest = [u64::MAX; 16];
    'records: while let Some((found, len)) = next_record(&log[at..]) {
        note_one(&mut lowest, found, cuts);
        to = fold_one(base, log, cuts, found, len, at, to);
        at += len;
    }
    (to, lowest)
}

/// The same for a base of `block` bytes and a log that stand in one buffer.
pub fn fold_buffer(buffer: &mut [u8], block: usize, cuts: &Cuts) -> (usize, [u64; 16])
    requires { block ≤ length buffer.old }
    ensures most { block + result.0 ≤ length buffer.old }
    ensures due { IsDue result.1 cuts.now → IsDue no_lowest cuts.now }
    ensures lowest { (g : Shape) (base : List ℕ) (records : List Logged) → g.k ≤ 16 → g.block ≡ block → length base ≡ block → AllByRecursion (IsIn g) records
        → buffer.old ≡ base ++ flat_map text records
        → result.1 ≡ lowest_from no_lowest (filter (is_past cuts.now) records) }
    ensures meaning { (g : Shape) (base : List ℕ) (records : List Logged) → g.k ≤ 16 → g.block ≡ block → length base ≡ block → AllByRecursion (IsIn g) records
        → buffer.old ≡ base ++ flat_map text records
        → (next : List ℕ) × (take (block + result.0) buffer.new ≡ next ++ flat_map text (filter (is_past cuts.now) records))
        × IsValue cuts.now base records next }
{
    let (base, log) = buffer.split_at_mut(block);
    fold(base, log, cuts)
}

/// Adds to a window of the value, whose first byte stands at place `off`, what the records at or below the cut add to it.
pub fn add_log(window: &mut [u8], off: usize, log: &[u8], cuts: &Cuts)
    requires { off + length window.old < 2 ^ 64 }
    ensures { (g : Shape) (records : List Logged) → g.k ≤ 16 → AllByRecursion (IsIn g) records → log.now ≡ flat_map text records
        → (x : ℕ) → x < length window.old → slice_index window.new x ≡ bit_xor (slice_index window.old x) (change cuts.now records (off + x)) }
{
    let mut at = 0;
    'records: while let Some((found, len)) = next_record(&log[at..]) {
        add_one(window, off, &log[at..], found, cuts);
        at += len;
    }
}

/// The same for the record that begins the text.
fn add_one(window: &mut [u8], off: usize, from: &[u8], found: Found, cuts: &Cuts)
    requires begins { BeginsRecord from.now }
    requires fits { off + length window.old < 2 ^ 64 }
    requires block { found.block < 16 }
    ensures { (l : Logged) (rest : List ℕ) → found ≡ found_of l.version l.whole → IsRecord l.version l.whole (text l) → from.now ≡ text l ++ rest
        → (x : ℕ) → x < length window.old → slice_index window.new x ≡ bit_xor (slice_index window.old x) (share cuts.now l (off + x)) }
{
    if is_included(found, cuts) {
        add_record(window, off, from);
    }
}
