//! The lines of nodes.
ghost use Rattle.std.specs.Prelude.{◌≡◌, ◌+◌, ◌≤◌, ◌<◌, List, Option, is_some};
ghost use Rattle.cod_types.specs.Faults.{HasCause};
ghost use Rattle.cod_board.specs.Kills.{kill_of};
ghost use Rattle.cod_board.specs.declared.kill.Kill.{Kill};
ghost use Rattle.cod_print.specs.Puts.{Puts};
ghost use Rattle.cod_seg.specs.Seg.{Seg};
ghost use Rattle.cod_shell.specs.Lines;
ghost use Rattle.cod_shell.specs.Lines.{taken_on};

use cod_io::Sink;
use cod_print::WriteFault;
use cod_script::Scenario;
use cod_types::NodeId;

/// Writes the line of a node: whether it was killed, and its free bytes; what is taken there is the rest of its capacity. It fails
/// only where the sink does, and has then written a front of the line.
pub fn node_line<W: Sink>(
    sink: &mut W,
    names: &Scenario,
    node: NodeId,
    is_killed: bool,
    free: u32,
) -> Result<(), WriteFault>
    requires { free ≤ names.now.capacity }
    ensures text { (kills : List (Option Kill)) (segs : List Seg) → is_killed ≡ is_some (kill_of kills node.0) → free + taken_on segs node.0 ≡ names.now.capacity
        → Puts result (W.taken sink.old) (W.taken sink.new) (Lines.node_line names.now kills segs node.0) }
    ensures cause { HasCause (W.fault_count sink.old) (W.fault_count sink.new) result }
{
    let taken = names.capacity() - free;
    cod_text::node(sink, node, !is_killed, taken, free)
}
