//! The first version of a record: 19 bytes, and one range of bytes behind them.
ghost use Rattle.std.specs.Prelude.{◌≡◌, ◌+◌, ◌<◌, ◌≤◌, ◌^◌, ◌++◌, List, ℕ, length, take, drop, IfOk, OnErr, slice_index};
ghost use Rattle.cod_record.specs.Head.{head_record, head_text, InRange};
ghost use Rattle.cod_record.specs.Record.{IsRecord, Record};

use crate::{Head, NotARecord};
use byteorder::{BigEndian, ByteOrder};

/// Writes what stands before the bytes of a record of the first version, 19 bytes; those behind them stay.
/// With as many bytes behind it as it tells, it is a record's text (`head_begins_record`).
pub fn write_head(head: Head, into: &mut [u8])
    requires room { 19 ≤ length into.old }
    requires fits { 19 + head.len < 2 ^ 32 }
    ensures text { into.new ≡ head_text head ++ drop 19 into.old }
    ensures range { InRange head }
{
    into[0] = 1;
    BigEndian::write_u16(&mut into[1..], head.block);
    BigEndian::write_u64(&mut into[3..], head.number);
    BigEndian::write_u32(&mut into[11..], head.off);
    BigEndian::write_u32(&mut into[15..], head.len);
}

fn read_head(from: &[u8]) -> Head
    requires long { 19 ≤ length from.now }
    requires kind { slice_index from.now 0 ≡ 1 }
    ensures text { take 19 from.now ≡ head_text result }
    ensures range { InRange result }
{
    Head {
        block: BigEndian::read_u16(&from[1..]),
        number: BigEndian::read_u64(&from[3..]),
        off: BigEndian::read_u32(&from[11..]),
        len: BigEndian::read_u32(&from[15..]),
    }
}

/// The head of the record of the first version that begins the text, and the length of the record's text. It is refused
/// exactly where no such record begins it.
pub fn read_record(from: &[u8]) -> Result<(Head, u32), NotARecord>
    ensures size { IfOk result (λ found. (found.1 ≡ 19 + found.0.len) × (found.1 ≤ length from.now)) }
    ensures found { IfOk result (λ found. IsRecord 1 (head_record found.0 (take found.0.len (drop 19 from.now))) (take found.1 from.now)) }
    ensures none { OnErr result ((r : Record) (n : ℕ) → IsRecord 1 r (take n from.now) → ⊥) }
{
    if from.len() < 19 || from[0] != 1 {
        return Err(NotARecord);
    }
    let head = read_head(from);
    match head.len.checked_add(19) {
        Some(whole) if whole as usize <= from.len() => Ok((head, whole)),
        _ => Err(NotARecord),
    }
}
