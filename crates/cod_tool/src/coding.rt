//! The text of a code's coefficients.
ghost use Rattle.std.specs.Prelude.{◌≡◌, ◌++◌, ◌-◌, ◌<◌, [], ◌∷◌, codes, decimal};
ghost use Rattle.std.specs.List.{flat_map, range_with_len};
ghost use Rattle.cod_types.specs.Faults.{HasCause};
ghost use Rattle.cod_print.specs.Pieces.{hex_word};
ghost use Rattle.cod_text.specs.Printed.{line_of};
ghost use Rattle.cod_print.specs.Puts.{Puts};
ghost use Rattle.cod_tool.specs.Coefficients.{coefficient_word, coefficients_text, row_text};

use cod_code::Code;
use cod_io::Sink;
use cod_print::{WriteFault, text};
use cod_shell::pieces::numbered;

/// The two digits of a byte.
fn digits(byte: u8) -> [u8; 2]
    ensures { result ≡ hex_word (byte ∷ []) }
{
    let mut digits = [0; 2];
    match hex::encode_to_slice([byte], &mut digits) {
        Ok(()) => {}
        Err(_) => unreachable!(),
    }
    digits
}

/// Writes a space and a coefficient.
fn coefficient<W: Sink>(sink: &mut W, byte: u8) -> Result<(), WriteFault>
    ensures text { Puts result (W.taken sink.old) (W.taken sink.new) (32 ∷ hex_word (byte ∷ [])) }
    ensures cause { HasCause (W.fault_count sink.old) (W.fault_count sink.new) result }
{
    text(sink, b" ")?;
    text(sink, &digits(byte))
}

/// The coefficients of the data columns in a column, each behind a space.
fn coefficients<W: Sink>(sink: &mut W, code: &Code, column: u8) -> Result<(), WriteFault>
    requires { column < code.now.n }
    ensures text { Puts result (W.taken sink.old) (W.taken sink.new) (flat_map (λ j. 32 ∷ coefficient_word code.now.k column j) (range_with_len 0 code.now.k)) }
    ensures cause { HasCause (W.fault_count sink.old) (W.fault_count sink.new) result }
{
    let row = code.row(column);
    for j in 0..code.k {
        coefficient(sink, row[j as usize])?;
    }
    Ok(())
}

/// The line of a column.
fn row<W: Sink>(sink: &mut W, code: &Code, column: u8) -> Result<(), WriteFault>
    requires { column < code.now.n }
    ensures text { Puts result (W.taken sink.old) (W.taken sink.new) (row_text code.now.k column) }
    ensures cause { HasCause (W.fault_count sink.old) (W.fault_count sink.new) result }
{
    numbered(sink, b"", column as u64)?;
    coefficients(sink, code, column)?;
    text(sink, b"\n")
}

/// The line of the numbers of columns.
fn head<W: Sink>(sink: &mut W, code: &Code) -> Result<(), WriteFault>
    ensures text { Puts result (W.taken sink.old) (W.taken sink.new) (line_of (codes "code" ∷ decimal code.now.n ∷ decimal code.now.k ∷ [])) }
    ensures cause { HasCause (W.fault_count sink.old) (W.fault_count sink.new) result }
{
    numbered(sink, b"code ", code.n as u64)?;
    numbered(sink, b" ", code.k as u64)?;
    text(sink, b"\n")
}

/// The lines of the parity columns.
fn rows<W: Sink>(sink: &mut W, code: &Code) -> Result<(), WriteFault>
    ensures text { Puts result (W.taken sink.old) (W.taken sink.new) (flat_map (row_text code.now.k) (range_with_len code.now.k (code.now.n - code.now.k))) }
    ensures cause { HasCause (W.fault_count sink.old) (W.fault_count sink.new) result }
{
    for column in code.k..code.n {
        row(sink, code, column)?;
    }
    Ok(())
}

/// Writes the coefficients of a code: the line of its numbers, then a line for each parity column. It fails only where the
/// sink does, and has then written a front of the text.
pub fn print<W: Sink>(sink: &mut W, code: &Code) -> Result<(), WriteFault>
    ensures text { Puts result (W.taken sink.old) (W.taken sink.new) (coefficients_text code.now.n code.now.k) }
    ensures cause { HasCause (W.fault_count sink.old) (W.fault_count sink.new) result }
{
    head(sink, code)?;
    rows(sink, code)
}
