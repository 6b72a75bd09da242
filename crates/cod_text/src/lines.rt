//! The lines of entries, columns and nodes.
ghost use Rattle.std.specs.Prelude.{◌≡◌, ◌++◌, ◌<◌, [], ◌∷◌, length, map, codes, decimal};
ghost use Rattle.std.specs.List.{flat_map};
ghost use Rattle.cod_types.specs.Faults.{HasCause};
ghost use Rattle.cod_chronicle.specs.Order.{place};
ghost use Rattle.cod_print.specs.Puts.{Puts};
ghost use Rattle.cod_print.specs.Pieces.{piece_text, spaced};
ghost use Rattle.cod_text.specs.Printed.{call_words, caller_word, cause_words, layout_text, line_text, node_text, parity_words, reason_word, reply_words};
ghost use Rattle.cod_text.specs.Printed.{segment_word, state_word, why_text};

use cod_chronicle::{Cause, Chronicle, Entry};
use cod_io::Sink;
use cod_print::{Piece, WriteFault, pieces, text};
use cod_script::Scenario;
use cod_types::{Call, Caller, LayoutLine, NodeId, ParityLine, Reason, Reply, SegId, Why};

/// A client's name, or `+W` for the care worker W.
fn caller(names: &Scenario, caller: Caller) -> (Piece<'_>, Piece<'_>)
    ensures { piece_text result.0 ++ piece_text result.1 ≡ 32 ∷ caller_word names.now caller.0 }
{
    let clients = names.clients();
    if caller.0 < clients {
        let name = names.client_name(caller.0);
        (Piece::Text(b" "), Piece::Text(name.as_bytes()))
    } else {
        (
            Piece::Text(b" +"),
            Piece::Number((caller.0 - clients) as u64),
        )
    }
}

fn cause(cause: Cause) -> (Piece<'static>, Piece<'static>)
    ensures { piece_text result.0 ++ piece_text result.1 ≡ spaced (cause_words cause) }
{
    match cause {
        Cause::Killed(line) => (Piece::Text(b" killed "), Piece::Number(line as u64)),
        Cause::Fault(count) => (Piece::Text(b" fault "), Piece::Number(count)),
    }
}

fn why(why: Why) -> (Piece<'static>, Piece<'static>)
    ensures { piece_text result.0 ++ piece_text result.1 ≡ 58 ∷ why_text why }
{
    match why {
        Why::Down(line) => (Piece::Text(b":down:"), Piece::Number(line as u64)),
        Why::Free(bytes) => (Piece::Text(b":free:"), Piece::Number(bytes as u64)),
        Why::Fault(count) => (Piece::Text(b":fault:"), Piece::Number(count)),
    }
}

fn state(up: bool) -> &'static [u8]
    ensures { result.now ≡ state_word up }
{
    if up { b"up" } else { b"down" }
}

/// A word and two numbers.
fn numbered<W: Sink>(sink: &mut W, word: &[u8], first: u64, second: u64) -> Result<(), WriteFault>
    ensures text { Puts result (W.taken sink.old) (W.taken sink.new) (word.now ++ spaced (decimal first ∷ decimal second ∷ [])) }
    ensures cause { HasCause (W.fault_count sink.old) (W.fault_count sink.new) result }
{
    pieces(
        sink,
        &[
            Piece::Text(word),
            Piece::Text(b" "),
            Piece::Number(first),
            Piece::Text(b" "),
            Piece::Number(second),
        ],
    )
}

fn call<W: Sink>(sink: &mut W, call: &Call) -> Result<(), WriteFault>
    ensures text { Puts result (W.taken sink.old) (W.taken sink.new) (spaced (call_words call.now)) }
    ensures cause { HasCause (W.fault_count sink.old) (W.fault_count sink.new) result }
{
    match call {
        Call::Read { off, len } => numbered(sink, b" read", *off as u64, *len as u64),
        Call::Write { off, bytes } => pieces(
            sink,
            &[
                Piece::Text(b" write "),
                Piece::Number(*off as u64),
                Piece::Text(b" "),
                Piece::Hex(bytes.as_slice()),
            ],
        ),
        Call::Swap { off, old, new } => pieces(
            sink,
            &[
                Piece::Text(b" swap "),
                Piece::Number(*off as u64),
                Piece::Text(b" "),
                Piece::Hex(old.as_slice()),
                Piece::Text(b" "),
                Piece::Hex(new.as_slice()),
            ],
        ),
        Call::Put { bytes } => pieces(sink, &[Piece::Text(b" put "), Piece::Hex(bytes.as_slice())]),
        Call::Merge => text(sink, b" merge"),
        Call::Tick => text(sink, b" tick"),
        Call::Rebuild => text(sink, b" rebuild"),
        Call::Upgrade => text(sink, b" upgrade"),
        Call::Drain { node } => pieces(
            sink,
            &[Piece::Text(b" drain "), Piece::Number(node.0 as u64)],
        ),
    }
}

fn reason<W: Sink>(sink: &mut W, reason: Reason) -> Result<(), WriteFault>
    ensures text { Puts result (W.taken sink.old) (W.taken sink.new) (32 ∷ reason_word reason) }
    ensures cause { HasCause (W.fault_count sink.old) (W.fault_count sink.new) result }
{
    let (word, count) = why(reason.why);
    pieces(
        sink,
        &[
            Piece::Text(b" "),
            Piece::Number(reason.node.0 as u64),
            word,
            count,
        ],
    )
}

fn reasons<W: Sink>(sink: &mut W, reasons: &[Reason]) -> Result<(), WriteFault>
    ensures text { Puts result (W.taken sink.old) (W.taken sink.new) (flat_map (λ r. 32 ∷ reason_word r) reasons.now) }
    ensures cause { HasCause (W.fault_count sink.old) (W.fault_count sink.new) result }
{
    for r in reasons {
        reason(sink, *r)?;
    }
    Ok(())
}

fn reply<W: Sink>(sink: &mut W, reply: &Reply) -> Result<(), WriteFault>
    ensures text { Puts result (W.taken sink.old) (W.taken sink.new) (spaced (codes "->" ∷ reply_words reply.now)) }
    ensures cause { HasCause (W.fault_count sink.old) (W.fault_count sink.new) result }
{
    match reply {
        Reply::Bytes(bytes) => pieces(
            sink,
            &[Piece::Text(b" -> bytes "), Piece::Hex(bytes.as_slice())],
        ),
        Reply::Done => text(sink, b" -> done"),
        Reply::Range => text(sink, b" -> range"),
        Reply::Long => text(sink, b" -> long"),
        Reply::Lost => text(sink, b" -> lost"),
        Reply::Whole => text(sink, b" -> whole"),
        Reply::Rebuilt { col, node } => numbered(sink, b" -> rebuilt", *col as u64, node.0 as u64),
        Reply::NoSpare(why) => {
            text(sink, b" -> nospare")?;
            reasons(sink, why.as_slice())
        }
        Reply::NoMem => text(sink, b" -> nomem"),
        Reply::Differs(bytes) => pieces(
            sink,
            &[Piece::Text(b" -> differs "), Piece::Hex(bytes.as_slice())],
        ),
        Reply::Shifted { col, node } => numbered(sink, b" -> shifted", *col as u64, node.0 as u64),
        Reply::Clear => text(sink, b" -> clear"),
    }
}

/// What stands before the call.
fn head<W: Sink>(
    sink: &mut W,
    names: &Scenario,
    seg: SegId,
    stamp: u64,
    who: Caller,
    number: u32,
) -> Result<(), WriteFault>
    requires { seg.0 < length names.now.segments }
    ensures text { Puts result (W.taken sink.old) (W.taken sink.new) (decimal stamp ++ spaced
        (segment_word names.now seg.0 ∷ caller_word names.now who.0 ∷ decimal number ∷ [])) }
    ensures cause { HasCause (W.fault_count sink.old) (W.fault_count sink.new) result }
{
    let (sign, name) = caller(names, who);
    pieces(
        sink,
        &[
            Piece::Number(stamp),
            Piece::Text(b" "),
            Piece::Text(names.segment_name(seg).as_bytes()),
            sign,
            name,
            Piece::Text(b" "),
            Piece::Number(number as u64),
        ],
    )
}

/// The line of a column that came up or moved.
fn arrival<'a, W: Sink>(
    sink: &mut W,
    name: &'a [u8],
    stamp: u64,
    how: &'a [u8],
    col: u8,
    node: NodeId,
) -> Result<(), WriteFault>
    ensures text { Puts result (W.taken sink.old) (W.taken sink.new) (decimal stamp ++ (spaced
        (name.now ∷ codes "=" ∷ how.now ∷ decimal col ∷ decimal node.0 ∷ []) ++ codes "\n")) }
    ensures cause { HasCause (W.fault_count sink.old) (W.fault_count sink.new) result }
{
    pieces(
        sink,
        &[
            Piece::Number(stamp),
            Piece::Text(b" "),
            Piece::Text(name),
            Piece::Text(b" = "),
            Piece::Text(how),
            Piece::Text(b" "),
            Piece::Number(col as u64),
            Piece::Text(b" "),
            Piece::Number(node.0 as u64),
            Piece::Text(b"\n"),
        ],
    )
}

/// The line of a column that went down.
fn departure<W: Sink>(
    sink: &mut W,
    name: &[u8],
    stamp: u64,
    col: u8,
    node: NodeId,
    by: Cause,
) -> Result<(), WriteFault>
    ensures text { Puts result (W.taken sink.old) (W.taken sink.new) (decimal stamp ++ (spaced
        (name.now ∷ codes "=" ∷ codes "down" ∷ decimal col ∷ decimal node.0 ∷ cause_words by) ++ codes "\n")) }
    ensures cause { HasCause (W.fault_count sink.old) (W.fault_count sink.new) result }
{
    let (word, count) = cause(by);
    pieces(
        sink,
        &[
            Piece::Number(stamp),
            Piece::Text(b" "),
            Piece::Text(name),
            Piece::Text(b" = down "),
            Piece::Number(col as u64),
            Piece::Text(b" "),
            Piece::Number(node.0 as u64),
            word,
            count,
            Piece::Text(b"\n"),
        ],
    )
}

/// Writes the line of an entry of this segment, which is one of the scenario's. A caller that is no client is a care worker.
/// It fails only where the sink does, and has then written a front of the line.
pub fn entry<W: Sink>(
    sink: &mut W,
    names: &Scenario,
    seg: SegId,
    entry: &Entry,
) -> Result<(), WriteFault>
    requires { seg.0 < length names.now.segments }
    ensures text { Puts result (W.taken sink.old) (W.taken sink.new) (line_text names.now (place seg.0 entry.now)) }
    ensures cause { HasCause (W.fault_count sink.old) (W.fault_count sink.new) result }
{
    let name = names.segment_name(seg).as_bytes();
    match entry {
        Entry::Call {
            caller: who,
            number,
            stamp,
            call: asked,
            reply: told,
        } => {
            head(sink, names, seg, *stamp, *who, *number)?;
            call(sink, asked)?;
            reply(sink, told)?;
            text(sink, b"\n")
        }
        Entry::Down {
            stamp,
            col,
            node,
            cause: by,
        } => departure(sink, name, *stamp, *col, *node, *by),
        Entry::Up { stamp, col, node } => arrival(sink, name, *stamp, b"up", *col, *node),
        Entry::Move { stamp, col, node } => arrival(sink, name, *stamp, b"move", *col, *node),
    }
}

/// Writes the lines of a segment's entries, in their order. The segment is one of the scenario's. It fails only where the
/// sink does, and has then written a front of the lines.
pub fn segment<W: Sink>(
    sink: &mut W,
    names: &Scenario,
    seg: SegId,
    chronicle: &Chronicle,
) -> Result<(), WriteFault>
    requires { seg.0 < length names.now.segments }
    ensures text { Puts result (W.taken sink.old) (W.taken sink.new) (flat_map (λ e. line_text names.now (place seg.0 e)) chronicle.now) }
    ensures cause { HasCause (W.fault_count sink.old) (W.fault_count sink.new) result }
{
    for e in chronicle.iter() {
        entry(sink, names, seg, e)?;
    }
    Ok(())
}

/// What a parity column's line has besides.
fn parity<W: Sink>(sink: &mut W, line: Option<ParityLine>) -> Result<(), WriteFault>
    ensures text { Puts result (W.taken sink.old) (W.taken sink.new) (spaced (parity_words line)) }
    ensures cause { HasCause (W.fault_count sink.old) (W.fault_count sink.new) result }
{
    match line {
        None => Ok(()),
        Some(line) => pieces(
            sink,
            &[
                Piece::Text(b" used "),
                Piece::Number(line.used as u64),
                Piece::Text(b" avg "),
                Piece::Number(line.avg as u64),
            ],
        ),
    }
}

/// Writes the line of a column of one of the scenario's segments. It fails only where the sink does, and has then written
/// a front of the line.
pub fn layout<W: Sink>(sink: &mut W, names: &Scenario, line: LayoutLine) -> Result<(), WriteFault>
    requires { line.seg.0 < length names.now.segments }
    ensures text { Puts result (W.taken sink.old) (W.taken sink.new) (layout_text names.now line) }
    ensures cause { HasCause (W.fault_count sink.old) (W.fault_count sink.new) result }
{
    let name = names.segment_name(line.seg).as_bytes();
    let condition = Piece::Text(state(line.up));
    pieces(
        sink,
        &[
            Piece::Text(b"layout "),
            Piece::Text(name),
            Piece::Text(b" "),
            Piece::Number(line.col as u64),
            Piece::Text(b" "),
            Piece::Number(line.node.0 as u64),
            Piece::Text(b" "),
            condition,
            Piece::Text(b" len "),
            Piece::Number(line.len as u64),
        ],
    )?;
    parity(sink, line.parity)?;
    pieces(
        sink,
        &[
            Piece::Text(b" reads "),
            Piece::Number(line.reads),
            Piece::Text(b" writes "),
            Piece::Number(line.writes),
            Piece::Text(b"\n"),
        ],
    )
}

/// Writes the line of a node, with the bytes of it that are taken and those that are free. It fails only where the sink
/// does, and has then written a front of the line.
pub fn node<W: Sink>(
    sink: &mut W,
    node: NodeId,
    up: bool,
    taken: u32,
    free: u32,
) -> Result<(), WriteFault>
    ensures text { Puts result (W.taken sink.old) (W.taken sink.new) (node_text node.0 up taken free) }
    ensures cause { HasCause (W.fault_count sink.old) (W.fault_count sink.new) result }
{
    pieces(
        sink,
        &[
            Piece::Text(b"node "),
            Piece::Number(node.0 as u64),
            Piece::Text(b" "),
            Piece::Text(state(up)),
            Piece::Text(b" taken "),
            Piece::Number(taken as u64),
            Piece::Text(b" free "),
            Piece::Number(free as u64),
            Piece::Text(b"\n"),
        ],
    )
}
