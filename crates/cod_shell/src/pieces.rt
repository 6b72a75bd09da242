//! Pieces of lines, written to a sink.
ghost use Rattle.std.specs.Prelude.{◌≡◌, ◌++◌, [], ◌∷◌, decimal};
ghost use Rattle.cod_types.specs.Faults.{HasCause};
ghost use Rattle.cod_print.specs.Puts.{Puts};

use cod_io::Sink;
use cod_print::{Piece, WriteFault, pieces, text};

/// A number, and what stands before it.
#[derive(Clone, Copy)]
pub struct Count<'a> {
    pub front: &'a [u8],
    pub number: u64,
}

/// Writes these bytes, and a number behind them.
pub fn numbered<W: Sink>(sink: &mut W, front: &[u8], number: u64) -> Result<(), WriteFault>
    ensures text { Puts result (W.taken sink.old) (W.taken sink.new) (front.now ++ decimal number) }
    ensures cause { HasCause (W.fault_count sink.old) (W.fault_count sink.new) result }
{
    pieces(sink, &[Piece::Text(front), Piece::Number(number)])
}

/// Writes a line of three numbers.
pub fn counts<W: Sink>(
    sink: &mut W,
    first: Count<'_>,
    second: Count<'_>,
    third: Count<'_>,
) -> Result<(), WriteFault>
    ensures text { Puts result (W.taken sink.old) (W.taken sink.new) ((first.entry.front.now ++ decimal first.entry.number)
        ++ ((second.entry.front.now ++ decimal second.entry.number) ++ ((third.entry.front.now ++ decimal third.entry.number) ++ 10 ∷ []))) }
    ensures cause { HasCause (W.fault_count sink.old) (W.fault_count sink.new) result }
{
    numbered(sink, first.front, first.number)?;
    numbered(sink, second.front, second.number)?;
    numbered(sink, third.front, third.number)?;
    text(sink, b"\n")
}
