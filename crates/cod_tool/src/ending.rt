//! The text of a replay that has come to its end.
ghost use Rattle.std.specs.Prelude.{◌≡◌, ◌<◌};
ghost use Rattle.cod_types.specs.Faults.{HasCause};
ghost use Rattle.cod_print.specs.Puts.{Puts};
ghost use Rattle.cod_shell.specs.Lines;
ghost use Rattle.cod_shell.specs.Lines.{end_lines};
ghost use Rattle.cod_tool.specs.Ends.{run_text};
ghost use Rattle.cod_replay.specs.State.{moment_of};

use cod_io::Sink;
use cod_print::WriteFault;
use cod_region::Shelf;
use cod_replay::Replay;
use cod_shell::nodes;
use cod_shell::printing::layouts;
use cod_types::NodeId;

/// The line of a node.
fn node_line<W: Sink, H: Shelf + Drop>(
    sink: &mut W,
    replay: &Replay<H>,
    node: u8,
) -> Result<(), WriteFault>
    requires { node < replay.now.script.nodes }
    ensures text { Puts result (W.taken sink.old) (W.taken sink.new) (Lines.node_line replay.now.script replay.now.kills replay.now.segs node) }
    ensures cause { HasCause (W.fault_count sink.old) (W.fault_count sink.new) result }
{
    let node = NodeId(node);
    let killed = replay.killed(node);
    nodes::node_line(sink, replay.scenario(), node, killed, replay.free(node))
}

/// The lines of the nodes.
fn node_lines<W: Sink, H: Shelf + Drop>(sink: &mut W, replay: &Replay<H>) -> Result<(), WriteFault>
    ensures text { Puts result (W.taken sink.old) (W.taken sink.new) (Lines.node_lines replay.now.script replay.now.kills replay.now.segs) }
    ensures cause { HasCause (W.fault_count sink.old) (W.fault_count sink.new) result }
{
    for node in 0..replay.scenario().nodes() {
        node_line(sink, replay, node)?;
    }
    Ok(())
}

/// The lines of the columns and of the nodes.
fn ends<W: Sink, H: Shelf + Drop>(sink: &mut W, replay: &Replay<H>) -> Result<(), WriteFault>
    ensures text { Puts result (W.taken sink.old) (W.taken sink.new) (end_lines replay.now.script replay.now.kills replay.now.segs) }
    ensures cause { HasCause (W.fault_count sink.old) (W.fault_count sink.new) result }
{
    layouts(sink, replay.scenario(), replay.stripes())?;
    node_lines(sink, replay)
}

/// Writes the whole text: the lines of the chronicles, of the columns and of the nodes. It fails only where the sink does, and has
/// then written a front of it.
pub fn print<W: Sink, H: Shelf + Drop>(sink: &mut W, replay: &Replay<H>) -> Result<(), WriteFault>
    ensures text { Puts result (W.taken sink.old) (W.taken sink.new) (run_text replay.now.script (moment_of replay.now)) }
    ensures cause { HasCause (W.fault_count sink.old) (W.fault_count sink.new) result }
{
    cod_text::chronicle(sink, replay.scenario(), replay.stripes())?;
    ends(sink, replay)
}
