//! The second version of a record: ranges of bytes, without the long runs of zeros between them.
ghost use Rattle.std.specs.Prelude.{◌≡◌, ◌+◌, ◌<◌, ◌≤◌, ◌^◌, ◌++◌, ℕ, length, drop};
ghost use Rattle.cod_record.specs.Record.{range, range_text, ranges_text, record_text, IsRecord};
ghost use Rattle.cod_record.specs.Sparse.{ranges_length, ranges_of, sparse_length, sparse_record};

use crate::runs::{range_end, zeros_end};
use byteorder::{BigEndian, ByteOrder};

/// How many bytes stand before the ranges.
pub const FRONT: usize = 13;

/// What was written of ranges.
#[derive(Clone, Copy)]
struct Ranges {
    /// How many bytes their texts have.
    len: u32,
    /// How many there are.
    count: u16,
}

/// Writes the record of the second version of these bytes at their place `off`, and answers its length; the bytes behind
/// it stay. Runs of at least eight zeros, and zeros at the ends, are left out.
pub fn write_sparse(block: u16, number: u64, off: u32, bytes: &[u8], into: &mut [u8]) -> u32
    requires short { length bytes.now ≤ 65536 }
    requires fits { off + length bytes.now < 2 ^ 32 }
    requires room { 21 + length bytes.now ≤ length into.old }
    ensures len { result ≡ sparse_length (ranges_of off bytes.now) }
    ensures text { into.new ≡ record_text 2 (sparse_record block number off bytes.now) ++ drop result into.old }
    ensures record { IsRecord 2 (sparse_record block number off bytes.now) (record_text 2 (sparse_record block number off bytes.now)) }
{
    let ranges = write_ranges(off, bytes, &mut into[FRONT..]);
    into[0] = 2;
    BigEndian::write_u16(&mut into[1..], block);
    BigEndian::write_u64(&mut into[3..], number);
    BigEndian::write_u16(&mut into[11..], ranges.count);
    FRONT as u32 + ranges.len
}

/// The length of the record of the second version of these bytes, whatever their place.
pub fn sparse_len(bytes: &[u8]) -> u32
    requires { length bytes.now ≤ 65536 }
    ensures len { (off : ℕ) → result ≡ sparse_length (ranges_of off bytes.now) }
    ensures most { result ≤ 21 + length bytes.now }
{
    let mut len = 0;
    let mut at = zeros_end(bytes, 0);
    'runs: while at < bytes.len() {
        let end = range_end(bytes, at);
        len += 8 + (end - at);
        at = zeros_end(bytes, end);
    }
    (FRONT + len) as u32
}

fn write_ranges(off: u32, bytes: &[u8], into: &mut [u8]) -> Ranges
    requires short { length bytes.now ≤ 65536 }
    requires fits { off + length bytes.now < 2 ^ 32 }
    requires room { 8 + length bytes.now ≤ length into.old }
    ensures text { into.new ≡ ranges_text (ranges_of off bytes.now) ++ drop result.len into.old }
    ensures len { result.len ≡ ranges_length (ranges_of off bytes.now) }
    ensures count { result.count ≡ length (ranges_of off bytes.now) }
{
    let mut len = 0;
    let mut count = 0;
    let mut at = zeros_end(bytes, 0);
    'parts: while at < bytes.len() {
        let end = range_end(bytes, at);
        write_range(off + at as u32, &bytes[at..end], &mut into[len..]);
        len += 8 + (end - at);
        count += 1;
        at = zeros_end(bytes, end);
    }
    Ranges {
        len: len as u32,
        count,
    }
}

fn write_range(off: u32, bytes: &[u8], into: &mut [u8])
    requires short { length bytes.now < 2 ^ 32 }
    requires room { 8 + length bytes.now ≤ length into.old }
    ensures { into.new ≡ range_text (range off bytes.now) ++ drop (8 + length bytes.now) into.old }
{
    BigEndian::write_u32(into, off);
    BigEndian::write_u32(&mut into[4..], bytes.len() as u32);
    into[8..8 + bytes.len()].copy_from_slice(bytes);
}
