//! The text of a run that has come to its end.
ghost use Rattle.std.specs.Prelude.{◌≡◌, ◌<◌, List, length};
ghost use Rattle.std.specs.List.{flat_map};
ghost use Rattle.cod_types.specs.Faults.{HasCause};
ghost use Rattle.cod_place.specs.Rooms.{AddUp};
ghost use Rattle.cod_print.specs.Puts.{Puts};
ghost use Rattle.cod_seg.specs.Seg.{Seg};
ghost use Rattle.cod_segment.specs.Events.{rooms_of};
ghost use Rattle.cod_shell.specs.Lines;
ghost use Rattle.cod_shell.specs.Lines.{end_lines, run_lines};
ghost use Rattle.cod_run.specs.Ends.{IsPrintable};

use cod_board::PlainBoard;
use cod_io::Sink;
use cod_place::PlainPools;
use cod_print::WriteFault;
use cod_region::Region;
use cod_script::Scenario;
use cod_shell::nodes;
use cod_shell::printing::layouts;
use cod_stripe::Stripe;
use cod_types::NodeId;

/// The line of a node.
fn node_line<W: Sink>(
    sink: &mut W,
    names: &Scenario,
    board: &PlainBoard,
    pools: &PlainPools,
    node: u8,
) -> Result<(), WriteFault>
    requires there { (node < length board.now) × (node < length pools.now.free) }
    requires capacity { pools.now.capacity ≡ names.now.capacity }
    requires sums { (segs : List Seg) × AddUp pools.now (flat_map rooms_of segs) }
    ensures text { (segs : List Seg) → AddUp pools.now (flat_map rooms_of segs)
        → Puts result (W.taken sink.old) (W.taken sink.new) (Lines.node_line names.now board.now segs node) }
    ensures cause { HasCause (W.fault_count sink.old) (W.fault_count sink.new) result }
{
    let node = NodeId(node);
    let is_killed = board.get(node).is_some();
    nodes::node_line(sink, names, node, is_killed, pools.free(node))
}

/// The lines of the nodes.
fn node_lines<W: Sink>(
    sink: &mut W,
    names: &Scenario,
    board: &PlainBoard,
    pools: &PlainPools,
) -> Result<(), WriteFault>
    requires there { (length board.now ≡ names.now.nodes) × (length pools.now.free ≡ names.now.nodes) }
    requires capacity { pools.now.capacity ≡ names.now.capacity }
    requires sums { (segs : List Seg) × AddUp pools.now (flat_map rooms_of segs) }
    ensures text { (segs : List Seg) → AddUp pools.now (flat_map rooms_of segs)
        → Puts result (W.taken sink.old) (W.taken sink.new) (Lines.node_lines names.now board.now segs) }
    ensures cause { HasCause (W.fault_count sink.old) (W.fault_count sink.new) result }
{
    for node in 0..names.nodes() {
        node_line(sink, names, board, pools, node)?;
    }
    Ok(())
}

/// The lines of the columns and of the nodes.
fn ends<W: Sink, R: Region>(
    sink: &mut W,
    names: &Scenario,
    stripes: &[Stripe<R>],
    board: &PlainBoard,
    pools: &PlainPools,
) -> Result<(), WriteFault>
    requires { IsPrintable names.now stripes.now board.now pools.now }
    ensures text { Puts result (W.taken sink.old) (W.taken sink.new) (end_lines names.now board.now stripes.now) }
    ensures cause { HasCause (W.fault_count sink.old) (W.fault_count sink.new) result }
{
    layouts(sink, names, stripes)?;
    node_lines(sink, names, board, pools)
}

/// Writes the whole text: the lines of the chronicles, of the columns and of the nodes. It fails only where the sink does, and has
/// then written a front of it.
pub fn print<W: Sink, R: Region>(
    sink: &mut W,
    names: &Scenario,
    stripes: &[Stripe<R>],
    board: &PlainBoard,
    pools: &PlainPools,
) -> Result<(), WriteFault>
    requires { IsPrintable names.now stripes.now board.now pools.now }
    ensures text { Puts result (W.taken sink.old) (W.taken sink.new) (run_lines names.now board.now stripes.now) }
    ensures cause { HasCause (W.fault_count sink.old) (W.fault_count sink.new) result }
{
    cod_text::chronicle(sink, names, stripes)?;
    ends(sink, names, stripes, board, pools)
}
