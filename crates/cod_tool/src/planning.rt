//! Where the columns of a scenario stand at first, and what they take on each node.
ghost use Rattle.std.specs.Prelude.{◌≡◌, ◌++◌, ◌≤◌, ◌<◌, ◌^◌, [], ◌∷◌, length, codes, decimal};
ghost use Rattle.std.specs.List.{flat_map, range_with_len};
ghost use Rattle.cod_types.specs.Faults.{HasCause};
ghost use Rattle.cod_types.specs.Columns.{home_of};
ghost use Rattle.cod_script.specs.Room.{column_on, taken_by};
ghost use Rattle.cod_text.specs.Printed.{segment_word};
ghost use Rattle.cod_print.specs.Puts.{Puts};
ghost use Rattle.cod_tool.specs.Planned;
ghost use Rattle.cod_tool.specs.Planned.{first_node_line, nodes_text, placement_text};

use cod_io::Sink;
use cod_place::home;
use cod_print::{WriteFault, text};
use cod_script::Scenario;
use cod_shell::pieces::{Count, counts, numbered};
use cod_types::SegId;

/// The bytes that a column takes on a node at first.
#[tactic(auto, unfolding(cod_script::specs::Room::column_on))]
fn column_takes(names: &Scenario, node: u8, seg: u32, col: u8) -> u64
    requires { 1 ≤ names.now.nodes }
    ensures size { result ≡ column_on names.now.shape names.now.nodes node seg col }
    ensures most { result < 2 ^ 23 }
{
    if home(SegId(seg), col, names.nodes()).0 == node {
        names.geometry().column_size(col) as u64
    } else {
        0
    }
}

/// The bytes that the columns of a segment take on a node at first.
#[tactic(auto, unfolding(cod_script::specs::Room::taken_by))]
fn columns_take(names: &Scenario, node: u8, seg: u32) -> u64
    requires { 1 ≤ names.now.nodes }
    ensures size { result ≡ taken_by names.now.shape names.now.nodes node seg }
    ensures most { result ≤ 2 ^ 31 }
{
    let mut size = 0;
    for col in 0..names.geometry().n() {
        size += column_takes(names, node, seg, col);
    }
    size
}

/// The bytes that the columns of all segments take on a node at first.
#[tactic(auto, unfolding(cod_script::specs::Room::taken_on))]
fn all_take(names: &Scenario, node: u8) -> u64
    requires { 1 ≤ names.now.nodes }
    ensures { result ≡ Planned.all_take names.now node }
{
    let mut size = 0;
    for seg in 0..names.segments() {
        size += columns_take(names, node, seg);
    }
    size
}

/// The nodes of a segment's columns, each behind a space.
fn homes<W: Sink>(sink: &mut W, names: &Scenario, seg: u32) -> Result<(), WriteFault>
    requires { 1 ≤ names.now.nodes }
    ensures text { Puts result (W.taken sink.old) (W.taken sink.new)
        (flat_map (λ i. 32 ∷ decimal (home_of seg i names.now.nodes)) (range_with_len 0 names.now.shape.n)) }
    ensures cause { HasCause (W.fault_count sink.old) (W.fault_count sink.new) result }
{
    for col in 0..names.geometry().n() {
        let node = home(SegId(seg), col, names.nodes());
        numbered(sink, b" ", node.0 as u64)?;
    }
    Ok(())
}

/// What a segment's line begins with.
fn title<W: Sink>(sink: &mut W, name: &[u8]) -> Result<(), WriteFault>
    ensures text { Puts result (W.taken sink.old) (W.taken sink.new) (codes "plan " ++ name.now) }
    ensures cause { HasCause (W.fault_count sink.old) (W.fault_count sink.new) result }
{
    text(sink, b"plan ")?;
    text(sink, name)
}

/// The line of a segment.
fn home_line<W: Sink>(sink: &mut W, names: &Scenario, seg: u32) -> Result<(), WriteFault>
    requires nodes { 1 ≤ names.now.nodes }
    requires there { seg < length names.now.segments }
    ensures text { Puts result (W.taken sink.old) (W.taken sink.new) (Planned.home_line names.now seg) }
    ensures cause { HasCause (W.fault_count sink.old) (W.fault_count sink.new) result }
{
    let name = names.segment_name(SegId(seg)).as_bytes();
    title(sink, name)?;
    homes(sink, names, seg)?;
    text(sink, b"\n")
}

/// The lines of the segments.
fn home_lines<W: Sink>(sink: &mut W, names: &Scenario) -> Result<(), WriteFault>
    requires { 1 ≤ names.now.nodes }
    ensures text { Puts result (W.taken sink.old) (W.taken sink.new) (flat_map (Planned.home_line names.now) (range_with_len 0 (length names.now.segments))) }
    ensures cause { HasCause (W.fault_count sink.old) (W.fault_count sink.new) result }
{
    for seg in 0..names.segments() {
        home_line(sink, names, seg)?;
    }
    Ok(())
}

/// The line of a node.
fn node_line<W: Sink>(sink: &mut W, names: &Scenario, node: u8) -> Result<(), WriteFault>
    requires { 1 ≤ names.now.nodes }
    ensures text { Puts result (W.taken sink.old) (W.taken sink.new) (first_node_line names.now node) }
    ensures cause { HasCause (W.fault_count sink.old) (W.fault_count sink.new) result }
{
    let size = all_take(names, node);
    let number = Count {
        front: b"node ",
        number: node as u64,
    };
    let taken = Count {
        front: b" up taken ",
        number: size,
    };
    let free = Count {
        front: b" free ",
        number: (names.capacity() as u64).saturating_sub(size),
    };
    counts(sink, number, taken, free)
}

/// Writes the lines of the nodes, where each column stands as at first.
pub fn node_lines<W: Sink>(sink: &mut W, names: &Scenario) -> Result<(), WriteFault>
    requires { 1 ≤ names.now.nodes }
    ensures text { Puts result (W.taken sink.old) (W.taken sink.new) (nodes_text names.now) }
    ensures cause { HasCause (W.fault_count sink.old) (W.fault_count sink.new) result }
{
    for node in 0..names.nodes() {
        node_line(sink, names, node)?;
    }
    Ok(())
}

/// Writes a line for each segment, with the nodes where its columns stand at first, and one for each node, with the bytes that
/// they take there. It fails only where the sink does, and has then written a front of the text.
pub fn print<W: Sink>(sink: &mut W, names: &Scenario) -> Result<(), WriteFault>
    requires { 1 ≤ names.now.nodes }
    ensures text { Puts result (W.taken sink.old) (W.taken sink.new) (placement_text names.now) }
    ensures cause { HasCause (W.fault_count sink.old) (W.fault_count sink.new) result }
{
    home_lines(sink, names)?;
    node_lines(sink, names)
}
