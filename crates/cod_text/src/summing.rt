//! The text of a run's summary.
ghost use Rattle.std.specs.Prelude.{◌≡◌, map};
ghost use Rattle.std.specs.List.{flat_map};
ghost use Rattle.cod_types.specs.Faults.{HasCause};
ghost use Rattle.cod_print.specs.Puts.{Puts};
ghost use Rattle.cod_text.specs.Summary as text;
ghost use Rattle.cod_text.specs.Summary.{count_text, counts_text, main_counts, tally_text, summary_text};

use crate::count::Count;
use crate::tally::Tally;
use cod_chronicle::Stands;
use cod_io::Sink;
use cod_print::{Piece, WriteFault, pieces, text};

fn number<W: Sink>(sink: &mut W, count: Count<'_>) -> Result<(), WriteFault>
    ensures text { Puts result (W.taken sink.old) (W.taken sink.new) (count_text (count.entry.0.now, count.entry.1)) }
    ensures cause { HasCause (W.fault_count sink.old) (W.fault_count sink.new) result }
{
    pieces(sink, &[Piece::Text(count.0), Piece::Number(count.1)])
}

/// Numbers, each behind its text.
fn numbers<W: Sink>(sink: &mut W, counts: &[Count<'_>]) -> Result<(), WriteFault>
    ensures text { Puts result (W.taken sink.old) (W.taken sink.new) (flat_map (λ c. count_text (c.0.now, c.1)) counts.now) }
    ensures cause { HasCause (W.fault_count sink.old) (W.fault_count sink.new) result }
{
    for count in counts {
        number(sink, *count)?;
    }
    Ok(())
}

/// The first five lines, but for the end of the last.
#[tactic(auto, unfolding(crate::specs::Summary::main_counts))]
fn main_lines<W: Sink>(sink: &mut W, segments: u64, t: &Tally) -> Result<(), WriteFault>
    ensures text { Puts result (W.taken sink.old) (W.taken sink.new) (counts_text (main_counts segments t.now)) }
    ensures cause { HasCause (W.fault_count sink.old) (W.fault_count sink.new) result }
{
    numbers(
        sink,
        &[
            Count(b"segments ", segments),
            Count(b"\ncalls ", t.calls),
            Count(b" read ", t.reads),
            Count(b" write ", t.writes),
            Count(b" put ", t.puts),
            Count(b" merge ", t.merges),
            Count(b" tick ", t.ticks),
            Count(b" rebuild ", t.rebuilds),
            Count(b"\nreplies bytes ", t.bytes),
            Count(b" done ", t.done),
            Count(b" range ", t.range),
            Count(b" long ", t.long),
            Count(b" lost ", t.lost),
            Count(b" whole ", t.whole),
            Count(b" rebuilt ", t.rebuilt),
            Count(b" nospare ", t.no_spare),
            Count(b" nomem ", t.no_memory),
            Count(b"\nmarks down ", t.downs),
            Count(b" up ", t.ups),
            Count(b"\nmoved read ", t.bytes_read),
            Count(b" written ", t.bytes_written),
        ],
    )
}

#[tactic(auto, unfolding(crate::specs::Summary::swap_counts))]
fn swaps<W: Sink>(sink: &mut W, t: &Tally) -> Result<(), WriteFault>
    ensures text { Puts result (W.taken sink.old) (W.taken sink.new) (counts_text (text.swap_counts t.now)) }
    ensures cause { HasCause (W.fault_count sink.old) (W.fault_count sink.new) result }
{
    if t.swaps == 0 {
        return Ok(());
    }
    numbers(
        sink,
        &[Count(b"\nswap ", t.swaps), Count(b" differs ", t.differs)],
    )
}

#[tactic(auto, unfolding(crate::specs::Summary::upgrade_counts))]
fn upgrades<W: Sink>(sink: &mut W, t: &Tally) -> Result<(), WriteFault>
    ensures text { Puts result (W.taken sink.old) (W.taken sink.new) (counts_text (text.upgrade_counts t.now)) }
    ensures cause { HasCause (W.fault_count sink.old) (W.fault_count sink.new) result }
{
    if t.upgrades == 0 {
        return Ok(());
    }
    numbers(sink, &[Count(b"\nupgrade ", t.upgrades)])
}

#[tactic(auto, unfolding(crate::specs::Summary::drain_counts))]
fn drains<W: Sink>(sink: &mut W, t: &Tally) -> Result<(), WriteFault>
    ensures text { Puts result (W.taken sink.old) (W.taken sink.new) (counts_text (text.drain_counts t.now)) }
    ensures cause { HasCause (W.fault_count sink.old) (W.fault_count sink.new) result }
{
    if t.drains == 0 {
        return Ok(());
    }
    numbers(
        sink,
        &[
            Count(b"\ndrain ", t.drains),
            Count(b" shifted ", t.shifted),
            Count(b" clear ", t.clear),
            Count(b" moves ", t.moves),
        ],
    )
}

/// The lines of a tally of so many segments.
fn lines<W: Sink>(sink: &mut W, segments: u64, t: &Tally) -> Result<(), WriteFault>
    ensures text { Puts result (W.taken sink.old) (W.taken sink.new) (tally_text segments t.now) }
    ensures cause { HasCause (W.fault_count sink.old) (W.fault_count sink.new) result }
{
    main_lines(sink, segments, t)?;
    swaps(sink, t)?;
    upgrades(sink, t)?;
    drains(sink, t)?;
    text(sink, b"\n")
}

/// Writes how many entries of each kind the chronicles have for which these values stand, and how many bytes were brought
/// by reads and replaced by calls that were done. A number stays at 2^64 - 1 once it is there. It takes no memory. It fails
/// only where the sink does, and has then written a front of the text.
pub fn summary<W: Sink, T: Stands>(sink: &mut W, all: &[T]) -> Result<(), WriteFault>
    ensures text { Puts result (W.taken sink.old) (W.taken sink.new) (summary_text (map T.entries all.now)) }
    ensures cause { HasCause (W.fault_count sink.old) (W.fault_count sink.new) result }
{
    let tally = Tally::of(all);
    lines(sink, all.len() as u64, &tally)
}
