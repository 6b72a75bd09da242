//! The lines of columns.
ghost use Rattle.std.specs.Prelude.{◌≡◌, ◌<◌, All, length};
ghost use Rattle.std.specs.List.{flat_map};
ghost use Rattle.cod_types.specs.Faults.{HasCause};
ghost use Rattle.cod_print.specs.Puts.{Puts};
ghost use Rattle.cod_shell.specs.Lines.{column_text, columns_text, IsNamed};

use cod_io::Sink;
use cod_print::WriteFault;
use cod_region::Region;
use cod_script::Scenario;
use cod_stripe::Stripe;

/// The line of a column.
#[tactic(auto, unfolding(crate::specs::Lines::column_text))]
fn column<W: Sink, R: Region>(
    sink: &mut W,
    names: &Scenario,
    stripe: &Stripe<R>,
    col: u8,
) -> Result<(), WriteFault>
    requires named { IsNamed names.now stripe.now }
    requires col { col < names.now.shape.n }
    ensures text { Puts result (W.taken sink.old) (W.taken sink.new) (column_text names.now stripe.now col) }
    ensures cause { HasCause (W.fault_count sink.old) (W.fault_count sink.new) result }
{
    cod_text::layout(sink, names, stripe.layout(col))
}

/// The lines of a segment's columns.
fn columns<W: Sink, R: Region>(
    sink: &mut W,
    names: &Scenario,
    stripe: &Stripe<R>,
) -> Result<(), WriteFault>
    requires { IsNamed names.now stripe.now }
    ensures text { Puts result (W.taken sink.old) (W.taken sink.new) (columns_text names.now stripe.now) }
    ensures cause { HasCause (W.fault_count sink.old) (W.fault_count sink.new) result }
{
    for col in 0..names.geometry().n() {
        column(sink, names, stripe, col)?;
    }
    Ok(())
}

/// Writes the lines of the columns of all segments. It fails only where the sink does, and has then written a front of them.
pub fn layouts<W: Sink, R: Region>(
    sink: &mut W,
    names: &Scenario,
    stripes: &[Stripe<R>],
) -> Result<(), WriteFault>
    requires { All (IsNamed names.now) stripes.now }
    ensures text { Puts result (W.taken sink.old) (W.taken sink.new) (flat_map (columns_text names.now) stripes.now) }
    ensures cause { HasCause (W.fault_count sink.old) (W.fault_count sink.new) result }
{
    for stripe in stripes {
        columns(sink, names, stripe)?;
    }
    Ok(())
}
