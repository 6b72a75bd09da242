//! Pieces of text, written to a sink.
ghost use Rattle.std.specs.Prelude.{◌≡◌, ◌==◌, decimal};
ghost use Rattle.std.specs.List.{flat_map, list_all};
ghost use Rattle.hex.specs.Hex.{encode_lower};
ghost use Rattle.cod_types.specs.Faults.{HasCause};
ghost use Rattle.cod_print.specs.Puts.{Puts};
ghost use Rattle.cod_print.specs.Pieces.{piece_text, hex_word, data_word, is_repeated};

use crate::fault::WriteFault;
use crate::piece::Piece;
use cod_io::Sink;
use itoa::Buffer;

/// Writes these bytes. It fails only where the sink does, and has then written a front of them.
pub fn text<W: Sink>(sink: &mut W, bytes: &[u8]) -> Result<(), WriteFault>
    ensures text { Puts result (W.taken sink.old) (W.taken sink.new) bytes.now }
    ensures cause { HasCause (W.fault_count sink.old) (W.fault_count sink.new) result }
{
    let mut rest = bytes;
    'rest: while !rest.is_empty() {
        let n = sink.write(rest)?;
        rest = &rest[n..];
    }
    Ok(())
}

/// Writes two digits for each byte, 32 bytes at a time.
fn digits<W: Sink>(sink: &mut W, bytes: &[u8]) -> Result<(), WriteFault>
    ensures text { Puts result (W.taken sink.old) (W.taken sink.new) (encode_lower bytes.now) }
    ensures cause { HasCause (W.fault_count sink.old) (W.fault_count sink.new) result }
{
    let mut rest = bytes;
    'rest: while !rest.is_empty() {
        let (few, more) = rest.split_at(rest.len().min(32));
        let mut buffer = [0u8; 64];
        let (written, _) = buffer.split_at_mut(2 * few.len());
        match hex::encode_to_slice(few, written) {
            Ok(()) => {}
            Err(_) => unreachable!(),
        }
        text(sink, written)?;
        rest = more;
    }
    Ok(())
}

fn number<W: Sink>(sink: &mut W, n: u64) -> Result<(), WriteFault>
    ensures text { Puts result (W.taken sink.old) (W.taken sink.new) (decimal n) }
    ensures cause { HasCause (W.fault_count sink.old) (W.fault_count sink.new) result }
{
    let mut buffer = Buffer::new();
    text(sink, buffer.format(n).as_bytes())
}

fn hex_digits<W: Sink>(sink: &mut W, bytes: &[u8]) -> Result<(), WriteFault>
    ensures text { Puts result (W.taken sink.old) (W.taken sink.new) (hex_word bytes.now) }
    ensures cause { HasCause (W.fault_count sink.old) (W.fault_count sink.new) result }
{
    match bytes {
        [] => text(sink, b"-"),
        bytes => digits(sink, bytes),
    }
}

fn are_all(bytes: &[u8], byte: u8) -> bool
    ensures { result ≡ list_all (λ b. b == byte) bytes.now }
{
    bytes.iter().all(|b| *b == byte)
}

/// Whether the bytes are at least two, and all equal.
fn is_same(bytes: &[u8]) -> bool
    ensures { result ≡ is_repeated bytes.now }
{
    2 <= bytes.len() && are_all(bytes, bytes[0])
}

fn data<W: Sink>(sink: &mut W, bytes: &[u8]) -> Result<(), WriteFault>
    ensures text { Puts result (W.taken sink.old) (W.taken sink.new) (data_word bytes.now) }
    ensures cause { HasCause (W.fault_count sink.old) (W.fault_count sink.new) result }
{
    if !is_same(bytes) {
        return hex_digits(sink, bytes);
    }
    digits(sink, &[bytes[0]])?;
    text(sink, b"*")?;
    number(sink, bytes.len() as u64)
}

fn piece<W: Sink>(sink: &mut W, piece: Piece<'_>) -> Result<(), WriteFault>
    ensures text { Puts result (W.taken sink.old) (W.taken sink.new) (piece_text piece.entry) }
    ensures cause { HasCause (W.fault_count sink.old) (W.fault_count sink.new) result }
{
    match piece {
        Piece::Text(bytes) => text(sink, bytes),
        Piece::Number(n) => number(sink, n),
        Piece::Hex(bytes) => hex_digits(sink, bytes),
        Piece::Data(bytes) => data(sink, bytes),
    }
}

/// Writes pieces, one behind the other. It fails only where the sink does, and has then written a front of them.
pub fn pieces<W: Sink>(sink: &mut W, pieces: &[Piece<'_>]) -> Result<(), WriteFault>
    ensures text { Puts result (W.taken sink.old) (W.taken sink.new) (flat_map piece_text pieces.now) }
    ensures cause { HasCause (W.fault_count sink.old) (W.fault_count sink.new) result }
{
    for p in pieces {
        piece(sink, *p)?;
    }
    Ok(())
}
