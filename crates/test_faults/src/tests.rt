//! One call fails, each in turn.
use crate::history::Past;
use cod_io::{MemSink, MemSource};
use cod_region::FaultyShelf;
use cod_tool::tool;
use cod_types::NodeId;
use std::alloc::Global;
use std::process::Abort;
use std::test::Fail;

/// What a replay prints where one call of the regions on a node fails. Its status is 0.
fn printed(alloc: Global, text: &str, node: u8, call: u64) -> Result<String, Fail> {
    let words = [String::from_str(alloc, "replay")?];
    let mut source = MemSource::new(alloc, text.as_bytes(), 4096, &[])?;
    let mut sink = MemSink::new(alloc, 400_000, &[])?;
    let shelf = FaultyShelf::new(alloc, &[(NodeId(node), call)])?;
    let status = tool(alloc, &words, &mut source, &mut sink, shelf);
    let text = if status == 0 { sink.bytes() } else { b"" };
    Ok(String::from_utf8_lossy(alloc, text)?)
}

/// Whether a printed chronicle is a legal history of so many bytes, with two parity columns.
fn is_legal(alloc: Global, printed: &str, bytes: usize) -> Result<bool, Fail> {
    let mut past = Past::new(alloc, bytes, 2)?;
    for line in printed.lines() {
        if line.starts_with("layout ") {
            return Ok(true);
        }
        if !past.goes_on(line)? {
            return Ok(false);
        }
    }
    Ok(false)
}

/// A scenario over regions of which those on a node fail at one of their calls, at each in turn, and at one beyond. The history is
/// legal. The column is marked, but where its region was still being filled: then another node gets it.
fn fails_at_each(
    rt: &impl Abort,
    alloc: Global,
    scenario: &str,
    bytes: usize,
    node: u8,
    calls: u64,
    filling: u64,
) -> Result<(), Fail> {
    let whole = printed(alloc, scenario, 255, 0)?;
    for call in 0..=calls {
        let told = printed(alloc, scenario, node, call)?;
        assert!(rt; is_legal(alloc, &told, bytes)?, "node {node}, call {call}");
        assert!(rt;
            call < filling || told.contains(" fault 1\n") == (call < calls),
            "node {node}, call {call}"
        );
        assert!(rt;
            (told == whole) == (call == calls),
            "node {node}, call {call}"
        );
    }
    Ok(())
}

/// The header of the small scenarios: two data columns of one byte, and two parity columns.
const SMALL: &str =
    "code 4 2\nblock 1\nupdate 1\nreserve 40\nunit 1\nalpha 5000\nsegment s\nclient a\n";

/// Three nodes are killed, with reads between. Where a region has failed, too many columns are down sooner.
#[test]
fn kills(rt: HostRuntime) -> Result<(), Fail> {
    let alloc = rt.alloc();
    let text = format!(in alloc;
        "codfs 1\nnodes 5 1000\n{SMALL}put s 0102\nfail 2\nfail 3\nread s 0 2\nfail 1\nread s 0 2\nrebuild s\nend\n"
    )?;
    for (node, calls) in [(0u8, 2u64), (1, 2), (2, 1), (3, 1), (4, 0)] {
        fails_at_each(&rt, alloc, &text, 2, node, calls, 0)?;
    }
    Ok(())
}

/// Two rebuilds, and the node of the first target is killed.
#[test]
fn rebuilds(rt: HostRuntime) -> Result<(), Fail> {
    let alloc = rt.alloc();
    let text = format!(in alloc;
        "codfs 1\nnodes 8 1000\n{SMALL}put s 0102\nfail 0\nfail 1\nrebuild s\nrebuild s\nfail 4\nread s 0 2\nend\n"
    )?;
    for (node, calls) in [(0u8, 1u64), (1, 1), (2, 4), (3, 2), (4, 2), (5, 3), (6, 0)] {
        let filling = if node < 4 { 0 } else { 1 };
        fails_at_each(&rt, alloc, &text, 2, node, calls, filling)?;
    }
    Ok(())
}

/// Each event that calls a region: with room and without, beside an update in flight, with targets of a data and of a parity column
/// that a commit corrects and a put writes, ticks that cut and that don't, records of both versions.
const EVENTS: &str = "codfs 2
nodes 8 20000
code 4 2
block 4097
update 2
reserve 64
unit 1
alpha 5000
segment s
client a
put s 01*8194
write s 0 05
write s 4096 0607
write s 0 06
tick s
write s 4097 07
tick s
write s 1 08
merge s
upgrade s
write s 2 0900
swap s 2 0900 0a0b
swap s 2 0000 0c0d
fail 0
rebuild s
fail 2
rebuild s
drain s 1
write s 0 11
drain s 3
read s 4090 14
swap s 0 11 12
read s 0 3
client b
read s 0 2
read s 0 1
write s 0 0e
put s 02*8194
write s 4098 0f
put s 03*8194
schedule a a a a a a a a a a a a a a a a b a a a
schedule a a a a a a a a a a a a a a a a a a a a a a a a a
schedule a a b a a b b b b b a a a a a b b b b b a a
end
";

/// Each node, how many calls its regions get where none fails, and how many of these while they are filled.
const CALLS: [(u8, u64, u64); 8] = [
    (0, 15, 0),
    (1, 17, 0),
    (2, 26, 0),
    (3, 27, 0),
    (4, 13, 4),
    (5, 7, 5),
    (6, 3, 2),
    (7, 3, 2),
];

/// Whichever call of a region fails, of whichever event, the history is that of plain bytes.
#[test]
fn events(rt: HostRuntime) -> Result<(), Fail> {
    for (node, calls, filling) in CALLS {
        fails_at_each(&rt, rt.alloc(), EVENTS, 8194, node, calls, filling)?;
    }
    Ok(())
}
