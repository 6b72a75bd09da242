//! The canonical text of a scenario.
ghost use Rattle.std.specs.Prelude.{◌≡◌, ◌∷◌, slice_index_or, []};
ghost use Rattle.std.specs.List.{flat_map};
ghost use Rattle.cod_types.specs.Faults.{HasCause};
ghost use Rattle.cod_print.specs.Puts.{Puts};
ghost use Rattle.cod_script.specs.Text;
ghost use Rattle.cod_script.specs.Text.{name_at, canonical_text};

use crate::body::Client;
use crate::line::{Line, What};
use crate::name::Name;
use crate::scenario::Scenario;
use cod_io::Sink;
use cod_print::{Piece, WriteFault, pieces, text};
use cod_types::Call;

/// The name of a segment; none where there is no such segment.
fn segment_name(segments: &[Name], seg: u32) -> &[u8]
    ensures { result.now ≡ slice_index_or segments.now seg [] }
{
    match segments.get(seg as usize) {
        Some(name) => name.as_str().as_bytes(),
        None => b"",
    }
}

/// The name of a client; none where there is no such client.
fn client_name(clients: &[Client], client: u32) -> &[u8]
    ensures { result.now ≡ name_at clients.now client }
{
    match clients.get(client as usize) {
        Some(client) => client.name().as_bytes(),
        None => b"",
    }
}

/// A line of two words.
fn named<'a, W: Sink>(sink: &mut W, word: &'a [u8], name: &'a [u8]) -> Result<(), WriteFault>
    ensures text { Puts result (W.taken sink.old) (W.taken sink.new) (Text.line_text word.now (name.now ∷ [])) }
    ensures cause { HasCause (W.fault_count sink.old) (W.fault_count sink.new) result }
{
    pieces(
        sink,
        &[
            Piece::Text(word),
            Piece::Text(b" "),
            Piece::Text(name),
            Piece::Text(b"\n"),
        ],
    )
}

fn call<'a, W: Sink>(sink: &mut W, name: &'a [u8], call: &'a Call) -> Result<(), WriteFault>
    ensures text { Puts result (W.taken sink.old) (W.taken sink.new) (Text.call_text name.now call.now) }
    ensures cause { HasCause (W.fault_count sink.old) (W.fault_count sink.new) result }
{
    let name = Piece::Text(name);
    let space = Piece::Text(b" ");
    let end = Piece::Text(b"\n");
    match call {
        Call::Read { off, len } => {
            let off = Piece::Number(*off as u64);
            let len = Piece::Number(*len as u64);
            let word = Piece::Text(b"read ");
            pieces(sink, &[word, name, space, off, space, len, end])
        }
        Call::Write { off, bytes } => {
            let off = Piece::Number(*off as u64);
            let bytes = Piece::Data(bytes.as_slice());
            let word = Piece::Text(b"write ");
            pieces(sink, &[word, name, space, off, space, bytes, end])
        }
        Call::Swap { off, old, new } => {
            let off = Piece::Number(*off as u64);
            let old = Piece::Data(old.as_slice());
            let new = Piece::Data(new.as_slice());
            let word = Piece::Text(b"swap ");
            pieces(sink, &[word, name, space, off, space, old, space, new, end])
        }
        Call::Put { bytes } => {
            let bytes = Piece::Data(bytes.as_slice());
            pieces(sink, &[Piece::Text(b"put "), name, space, bytes, end])
        }
        Call::Merge => pieces(sink, &[Piece::Text(b"merge "), name, end]),
        Call::Tick => pieces(sink, &[Piece::Text(b"tick "), name, end]),
        Call::Rebuild => pieces(sink, &[Piece::Text(b"rebuild "), name, end]),
        Call::Upgrade => pieces(sink, &[Piece::Text(b"upgrade "), name, end]),
        Call::Drain { node } => {
            let node = Piece::Number(node.0 as u64);
            pieces(sink, &[Piece::Text(b"drain "), name, space, node, end])
        }
    }
}

fn what<'a, W: Sink>(sink: &mut W, segments: &'a [Name], what: &'a What) -> Result<(), WriteFault>
    ensures text { Puts result (W.taken sink.old) (W.taken sink.new) (Text.what_text segments.now what.now) }
    ensures cause { HasCause (W.fault_count sink.old) (W.fault_count sink.new) result }
{
    match what {
        What::Segment { seg, call: asked } => call(sink, segment_name(segments, seg.0), asked),
        What::Fail { node } => pieces(
            sink,
            &[
                Piece::Text(b"fail "),
                Piece::Number(node.0 as u64),
                Piece::Text(b"\n"),
            ],
        ),
    }
}

fn lines<'a, W: Sink>(
    sink: &mut W,
    segments: &'a [Name],
    lines: &'a [Line],
) -> Result<(), WriteFault>
    ensures text { Puts result (W.taken sink.old) (W.taken sink.new) (flat_map (λ l. Text.what_text segments.now l.what) lines.now) }
    ensures cause { HasCause (W.fault_count sink.old) (W.fault_count sink.new) result }
{
    for line in lines {
        what(sink, segments, &line.what)?;
    }
    Ok(())
}

fn client<'a, W: Sink>(
    sink: &mut W,
    segments: &'a [Name],
    client: &'a Client,
) -> Result<(), WriteFault>
    ensures text { Puts result (W.taken sink.old) (W.taken sink.new) (Text.client_text segments.now client.now) }
    ensures cause { HasCause (W.fault_count sink.old) (W.fault_count sink.new) result }
{
    named(sink, b"client", client.name().as_bytes())?;
    lines(sink, segments, client.lines())
}

fn clients<'a, W: Sink>(
    sink: &mut W,
    segments: &'a [Name],
    clients: &'a [Client],
) -> Result<(), WriteFault>
    ensures text { Puts result (W.taken sink.old) (W.taken sink.new) (flat_map (Text.client_text segments.now) clients.now) }
    ensures cause { HasCause (W.fault_count sink.old) (W.fault_count sink.new) result }
{
    for c in clients {
        client(sink, segments, c)?;
    }
    Ok(())
}

fn segment<W: Sink>(sink: &mut W, name: &Name) -> Result<(), WriteFault>
    ensures text { Puts result (W.taken sink.old) (W.taken sink.new) (Text.segment_text name.now) }
    ensures cause { HasCause (W.fault_count sink.old) (W.fault_count sink.new) result }
{
    named(sink, b"segment", name.as_str().as_bytes())
}

fn segments<W: Sink>(sink: &mut W, segments: &[Name]) -> Result<(), WriteFault>
    ensures text { Puts result (W.taken sink.old) (W.taken sink.new) (flat_map Text.segment_text segments.now) }
    ensures cause { HasCause (W.fault_count sink.old) (W.fault_count sink.new) result }
{
    for name in segments {
        segment(sink, name)?;
    }
    Ok(())
}

fn care<W: Sink>(sink: &mut W, workers: u32, rounds: u32) -> Result<(), WriteFault>
    ensures text { Puts result (W.taken sink.old) (W.taken sink.new) (Text.care_text workers rounds) }
    ensures cause { HasCause (W.fault_count sink.old) (W.fault_count sink.new) result }
{
    if workers == 0 && rounds == 0 {
        return Ok(());
    }
    pieces(
        sink,
        &[
            Piece::Text(b"care "),
            Piece::Number(workers as u64),
            Piece::Text(b" "),
            Piece::Number(rounds as u64),
            Piece::Text(b"\n"),
        ],
    )
}

/// A name with a space before it.
fn name<W: Sink>(sink: &mut W, name: &[u8]) -> Result<(), WriteFault>
    ensures text { Puts result (W.taken sink.old) (W.taken sink.new) (32 ∷ name.now) }
    ensures cause { HasCause (W.fault_count sink.old) (W.fault_count sink.new) result }
{
    pieces(sink, &[Piece::Text(b" "), Piece::Text(name)])
}

/// The names of clients, with a space before each.
fn turns<'a, W: Sink>(
    sink: &mut W,
    clients: &'a [Client],
    turns: &'a [u32],
) -> Result<(), WriteFault>
    ensures text { Puts result (W.taken sink.old) (W.taken sink.new) (flat_map (λ c. 32 ∷ name_at clients.now c) turns.now) }
    ensures cause { HasCause (W.fault_count sink.old) (W.fault_count sink.new) result }
{
    for turn in turns {
        name(sink, client_name(clients, *turn))?;
    }
    Ok(())
}

fn schedule<'a, W: Sink>(
    sink: &mut W,
    clients: &'a [Client],
    names: &'a [u32],
) -> Result<(), WriteFault>
    ensures text { Puts result (W.taken sink.old) (W.taken sink.new) (Text.schedule_text clients.now names.now) }
    ensures cause { HasCause (W.fault_count sink.old) (W.fault_count sink.new) result }
{
    if names.is_empty() {
        return Ok(());
    }
    text(sink, b"schedule")?;
    turns(sink, clients, names)?;
    text(sink, b"\n")
}

#[tactic(auto, unfolding(crate::specs::Text::header_text))]
fn header<W: Sink>(sink: &mut W, scenario: &Scenario) -> Result<(), WriteFault>
    ensures text { Puts result (W.taken sink.old) (W.taken sink.new) (Text.header_text scenario.now) }
    ensures cause { HasCause (W.fault_count sink.old) (W.fault_count sink.new) result }
{
    let geometry = scenario.geometry();
    pieces(
        sink,
        &[
            Piece::Text(b"codfs "),
            Piece::Number(geometry.version() as u64),
            Piece::Text(b"\nnodes "),
            Piece::Number(scenario.nodes() as u64),
            Piece::Text(b" "),
            Piece::Number(scenario.capacity() as u64),
            Piece::Text(b"\ncode "),
            Piece::Number(geometry.n() as u64),
            Piece::Text(b" "),
            Piece::Number(geometry.k() as u64),
            Piece::Text(b"\nblock "),
            Piece::Number(geometry.block() as u64),
            Piece::Text(b"\nupdate "),
            Piece::Number(geometry.update() as u64),
            Piece::Text(b"\nreserve "),
            Piece::Number(geometry.reserve() as u64),
            Piece::Text(b"\nunit "),
            Piece::Number(geometry.unit() as u64),
            Piece::Text(b"\nalpha "),
            Piece::Number(geometry.alpha() as u64),
            Piece::Text(b"\n"),
        ],
    )
}

impl Scenario {
    /// Writes the canonical text. It fails only where the sink does, and has then written a front of the text.
    pub fn write<W: Sink>(&self, sink: &mut W) -> Result<(), WriteFault>
        ensures text { Puts result (W.taken sink.old) (W.taken sink.new) (canonical_text self.now) }
        ensures cause { HasCause (W.fault_count sink.old) (W.fault_count sink.new) result }
    {
        let body = self.body();
        let (workers, rounds) = body.care();
        header(sink, self)?;
        segments(sink, body.segments())?;
        clients(sink, body.segments(), body.clients())?;
        care(sink, workers, rounds)?;
        schedule(sink, body.clients(), body.schedule())?;
        text(sink, b"end\n")
    }
}
