//! The text of a record that is to be appended.
ghost use Rattle.std.specs.Prelude.{◌≡◌, ◌+◌, ◌<◌, ◌≤◌, ◌^◌, ◌++◌, length, take};
ghost use Rattle.cod_record.specs.declared.parts.Head.{Head};
ghost use Rattle.cod_record.specs.Record.{IsRecord};
ghost use Rattle.cod_parity.specs.Log.{logged, logged_length, scaled, text};

use cod_record::{Head, sparse_len, write_head, write_sparse};

/// The bytes of a record of the second version that changes nothing.
const EMPTY_LEN: u32 = 13;

/// How many bytes the text has of a record of these bytes, whatever their place.
fn text_len(version: u8, bytes: &[u8]) -> u32
    requires most { length bytes.now ≤ 2 ^ 20 }
    requires short { version ≡ 2 → length bytes.now ≤ 65536 }
    ensures { (h : Head) → result ≡ logged_length version h bytes.now }
{
    if version == 2 {
        return sparse_len(bytes);
    }
    19 + bytes.len() as u32
}

/// How many bytes the text of the record of an update has, whose bytes are the coefficient times the delta. A coefficient
/// that isn't 0 leaves zeros where the delta has them, so nothing is scaled for it.
pub fn record_len(version: u8, coef: u8, delta: &[u8]) -> u32
    requires most { length delta.now ≤ 2 ^ 20 }
    requires short { version ≡ 2 → length delta.now ≤ 65536 }
    ensures { (h : Head) → result ≡ logged_length version h (scaled coef delta.now) }
{
    if version == 2 && coef == 0 {
        return EMPTY_LEN;
    }
    text_len(version, delta)
}

/// Writes the text of the record of these bytes to the front, and answers its length.
pub fn write_text(version: u8, head: Head, bytes: &[u8], into: &mut [u8]) -> u32
    requires first { 1 ≤ version }
    requires last { version ≤ 2 }
    requires len { head.len ≡ length bytes.now }
    requires fits { head.off + head.len ≤ 2 ^ 20 }
    requires short { version ≡ 2 → head.len ≤ 65536 }
    requires room { 19 + head.len ≤ length into.old }
    requires more { version ≡ 2 → 21 + head.len ≤ length into.old }
    ensures len { result ≡ length (text (logged version head bytes.now)) }
    ensures front { take result into.new ≡ text (logged version head bytes.now) }
    ensures within { result ≤ length into.old }
    ensures record { IsRecord version (logged version head bytes.now).whole (text (logged version head bytes.now)) }
{
    if version == 2 {
        return write_sparse(head.block, head.number, head.off, bytes, into);
    }
    write_head(head, into);
    into[19..19 + bytes.len()].copy_from_slice(bytes);
    19 + head.len
}
