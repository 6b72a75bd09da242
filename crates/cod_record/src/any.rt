//! Records of either version, as they stand at the front of a text.
ghost use Rattle.std.specs.Prelude.{◌≡◌, ◌+◌, ◌<◌, ◌≤◌, ◌^◌, ◌↔◌, ℕ, length, take, drop, slice_index, IfOk, IsTrue, Ok, OnErr};
ghost use Rattle.cod_record.specs.Reading.{BeginsRange, found_of, IsFound};
ghost use Rattle.cod_record.specs.Record.{IsRecord, IsSparseRange, range, Range, Record, record_text};

use crate::runs::{RUN, range_end};
use crate::sparse::FRONT;
use crate::{Found, NotARecord, read_record};
use byteorder::{BigEndian, ByteOrder};

/// Where a range stands, and how many bytes it has.
#[derive(Clone, Copy)]
struct RangeHead {
    off: u32,
    len: usize,
}

/// What there is to tell of the record of either version that begins the text, and the length of its text. It is refused
/// exactly where no record begins it.
pub fn read_any(from: &[u8]) -> Result<(Found, u32), NotARecord>
    ensures found { IfOk result (λ found. IsFound found.0 found.1 from.now) }
    // The record that begins the text is the one that is answered.
    ensures only { (version : ℕ) (r : Record) (n : ℕ) → IsRecord version r (take n from.now)
        → result ≡ Ok (found_of version r, length (record_text version r)) }
    ensures none { OnErr result ((version : ℕ) (r : Record) (n : ℕ) → IsRecord version r (take n from.now) → ⊥) }
{
    if !from.is_empty() && from[0] == 2 {
        return read_sparse(from);
    }
    match read_record(from) {
        Ok((head, size)) => {
            let found = Found {
                block: head.block,
                number: head.number,
                version: 1,
                ranges: 1,
            };
            Ok((found, size))
        }
        Err(none) => Err(none),
    }
}

fn read_sparse(from: &[u8]) -> Result<(Found, u32), NotARecord>
    requires some { 0 < length from.now }
    requires kind { slice_index from.now 0 ≡ 2 }
    ensures found { IfOk result (λ found. IsFound found.0 found.1 from.now) }
    ensures none { OnErr result ((r : Record) (n : ℕ) → IsRecord 2 r (take n from.now) → ⊥) }
{
    if from.len() < FRONT {
        return Err(NotARecord);
    }
    let count = BigEndian::read_u16(&from[11..]);
    let mut at = FRONT;
    let mut least = 0;
    let mut left = count;
    'spans: while 0 < left {
        match read_range(&from[at..], least) {
            Ok(range) => {
                at += 8 + range.len;
                least = range.off as u64 + range.len as u64 + RUN as u64;
                left -= 1;
            }
            Err(none) => return Err(none),
        }
    }
    if (u32::MAX as usize) < at {
        return Err(NotARecord);
    }
    let found = Found {
        block: BigEndian::read_u16(&from[1..]),
        number: BigEndian::read_u64(&from[3..]),
        version: 2,
        ranges: count,
    };
    Ok((found, at as u32))
}

fn read_range(from: &[u8], least: u64) -> Result<RangeHead, NotARecord>
    ensures size { IfOk result (λ g. 8 + g.len ≤ length from.now) }
    ensures found { IfOk result (λ g. BeginsRange from.now least (range g.off (take g.len (drop 8 from.now)))) }
    ensures none { OnErr result ((g : Range) → BeginsRange from.now least g → ⊥) }
{
    if from.len() < 8 {
        return Err(NotARecord);
    }
    let off = BigEndian::read_u32(from);
    let len = BigEndian::read_u32(&from[4..]) as usize;
    let bytes = &from[8..];
    if (off as u64) < least || bytes.len() < len {
        return Err(NotARecord);
    }
    if u32::MAX as u64 - (off as u64) < (len as u64) || !is_range(&bytes[..len]) {
        return Err(NotARecord);
    }
    Ok(RangeHead { off, len })
}

/// Whether neither the first byte nor the last is 0, and no eight zeros stand in the bytes.
fn is_range(bytes: &[u8]) -> bool
    ensures { (off : ℕ) → off + length bytes.now < 2 ^ 32 → (IsTrue result ↔ IsSparseRange (range off bytes.now)) }
{
    if bytes.is_empty() || bytes[0] == 0 {
        return false;
    }
    range_end(bytes, 0) == bytes.len()
}
