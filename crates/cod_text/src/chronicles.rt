//! The text of the chronicles of all segments.
ghost use Rattle.std.specs.Prelude.{◌≡◌, length, map};
ghost use Rattle.cod_types.specs.Faults.{HasCause};
ghost use Rattle.cod_print.specs.Puts.{Puts};
ghost use Rattle.cod_text.specs.Printed.{chronicle_text};

use crate::lines::entry;
use cod_chronicle::{Stands, merge_order};
use cod_io::Sink;
use cod_print::WriteFault;
use cod_script::Scenario;
use cod_types::SegId;

/// Writes a line for each entry of all segments, by stamp, then by segment, then by place in the segment. The values in `all`
/// stand for the scenario's segments, in order. It takes no memory. It fails only where the sink does, and has then written a
/// front of the lines.
pub fn chronicle<W: Sink, T: Stands>(
    sink: &mut W,
    names: &Scenario,
    all: &[T],
) -> Result<(), WriteFault>
    requires { length all.now ≡ length names.now.segments }
    ensures text { Puts result (W.taken sink.old) (W.taken sink.new) (chronicle_text names.now (map T.entries all.now)) }
    ensures cause { HasCause (W.fault_count sink.old) (W.fault_count sink.new) result }
{
    let _segments = names.segments(); // a scenario has at most 1024 of them: that is told here
    for placed in merge_order(all) {
        entry(sink, names, SegId(placed.index), placed.entry)?;
    }
    Ok(())
}
