//! The line that says why nothing was done.
ghost use Rattle.std.specs.Prelude.{◌≡◌, ◌++◌, [], ◌∷◌, codes};
ghost use Rattle.cod_types.specs.Faults.{HasCause};
ghost use Rattle.cod_print.specs.Puts.{Puts};
ghost use Rattle.cod_shell.specs.Refused.{refusal_text, why_word};
ghost use Rattle.cod_shell.specs.Taking.{TakesLine};

use crate::pieces::numbered;
use cod_io::Sink;
use cod_print::{WriteFault, text};
use cod_scenario::Refusal;

/// What stands behind the number of the line.
fn reason(why: Refusal) -> &'static [u8]
    ensures { result.now ≡ codes ": " ++ (why_word why ++ 10 ∷ []) }
{
    match why {
        Refusal::BadByte => b": badbyte\n",
        Refusal::AfterEnd => b": afterend\n",
        Refusal::Word => b": word\n",
        Refusal::Order => b": order\n",
        Refusal::Count => b": count\n",
        Refusal::Number => b": number\n",
        Refusal::Field => b": field\n",
        Refusal::Name => b": name\n",
        Refusal::Twice => b": twice\n",
        Refusal::Unknown => b": unknown\n",
        Refusal::Node => b": node\n",
        Refusal::Data => b": data\n",
        Refusal::TooLarge => b": toolarge\n",
        Refusal::Room => b": room\n",
        Refusal::NoEnd => b": noend\n",
        Refusal::TooLong => b": toolong\n",
        Refusal::Beyond => b": beyond\n",
    }
}

/// Writes the line that is refused, and why. It fails only where the sink does, and has then written a front of the text.
pub fn print<W: Sink>(sink: &mut W, line: u32, why: Refusal) -> Result<(), WriteFault>
    ensures text { Puts result (W.taken sink.old) (W.taken sink.new) (refusal_text line why) }
    ensures cause { HasCause (W.fault_count sink.old) (W.fault_count sink.new) result }
{
    numbered(sink, b"line ", line as u64)?;
    text(sink, reason(why))
}

/// Prints a line that says why nothing was done. A sink that fails changes nothing.
pub fn refuse<W: Sink>(sink: &mut W, line: &[u8])
    ensures { TakesLine (W.taken sink.old) (W.taken sink.new) (W.fault_count sink.old) (W.fault_count sink.new) line.now }
{
    let _ = text(sink, line);
}

/// Prints why a text is no scenario. A sink that fails changes nothing.
pub fn refuse_text<W: Sink>(sink: &mut W, line: u32, why: Refusal)
    ensures { TakesLine (W.taken sink.old) (W.taken sink.new) (W.fault_count sink.old) (W.fault_count sink.new) (refusal_text line why) }
{
    let _ = print(sink, line, why);
}
