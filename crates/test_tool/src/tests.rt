use cod_io::{MemSink, MemSource, Sink, Source};
use cod_region::{FaultyShelf, MemShelf};
use cod_tool::{over, tool};
use cod_types::NodeId;
use std::alloc::Global;
use std::test::Fail;

const FIRST: &str =
    "codfs 1\nnodes 2 100\ncode 2 2\nblock 4\nupdate 4\nreserve 46\nunit 1\nalpha 5000\nsegment s\nclient a\nput s 0102030405060708\nwrite s 2 aabb\nread s 0 8\nend\n";

const FIRST_PRINTED: &str =
    "1 s a 0 put 0102030405060708 -> done\n2 s a 1 write 2 aabb -> done\n3 s a 2 read 0 8 -> bytes 0102aabb05060708\nlayout s 0 0 up len 4 reads 2 writes 2\nlayout s 1 1 up len 4 reads 1 writes 1\nnode 0 up taken 4 free 96\nnode 1 up taken 4 free 96\n";

const PARITY: &str =
    "codfs 1\nnodes 5 1000\ncode 4 2\nblock 1\nupdate 1\nreserve 40\nunit 1\nalpha 5000\nsegment s\nclient a\nput s 0102\nwrite s 0 05\nread s 0 2\nend\n";

const PARITY_PRINTED: &str =
    "1 s a 0 put 0102 -> done\n2 s a 1 write 0 05 -> done\n3 s a 2 read 0 2 -> bytes 0502\nlayout s 0 0 up len 1 reads 2 writes 2\nlayout s 1 1 up len 1 reads 1 writes 1\nlayout s 2 2 up len 41 used 20 avg 10000 reads 0 writes 2\nlayout s 3 3 up len 41 used 20 avg 10000 reads 0 writes 2\nnode 0 up taken 1 free 999\nnode 1 up taken 1 free 999\nnode 2 up taken 41 free 959\nnode 3 up taken 41 free 959\nnode 4 up taken 0 free 1000\n";

/// More calls of the sink than a command of these tests makes.
const CALLS: u64 = 300;

/// The status of a command over the scenario with parity columns, where the sink fails at this call, or 100 where something else
/// than a front of `want` was printed.
fn with_fault(alloc: Global, words: &[String], call: u64, want: &str) -> Result<u8, Fail> {
    let mut source = MemSource::new(alloc, PARITY.as_bytes(), 4096, &[])?;
    let mut sink = MemSink::new(alloc, 1000, &[call])?;
    let status = tool(alloc, words, &mut source, &mut sink, MemShelf::new());
    let whole = sink.bytes() == want.as_bytes();
    let told = if sink.faults() == 0 { 0 } else { 5 };
    if status == told && (whole || told == 5) && want.as_bytes().starts_with(sink.bytes()) {
        Ok(status)
    } else {
        Ok(100)
    }
}

/// Whichever call of a source that hands out one byte at a time, or of the sink, fails, and wherever the sink is full, the status says
/// so, and a front was taken.
#[test]
fn streams_that_fail(rt: HostRuntime) -> Result<(), Fail> {
    let alloc = rt.alloc();
    let words = [String::from_str(alloc, "replay")?];
    let reads = PARITY.len() as u64 + 1;
    for call in 0..=reads {
        let mut source = MemSource::new(alloc, PARITY.as_bytes(), 1, &[call])?;
        let mut sink = MemSink::new(alloc, 1000, &[])?;
        let status = tool(alloc, &words, &mut source, &mut sink, MemShelf::new());
        assert!(rt; status == if call < reads { 4 } else { 0 });
        assert!(rt; sink.bytes().is_empty() == (status == 4));
    }
    let mut failing = 0;
    for call in 0..CALLS {
        let status = with_fault(alloc, &words, call, PARITY_PRINTED)?;
        assert!(rt; status == 0 || status == 5 && failing == call);
        if status == 5 {
            failing = call + 1;
        }
    }
    assert!(rt; 100 < failing && failing < CALLS);
    for room in [0u32, 37, 200] {
        let mut source = MemSource::new(alloc, FIRST.as_bytes(), 4096, &[])?;
        let mut sink = MemSink::new(alloc, room, &[])?;
        let status = tool(alloc, &words, &mut source, &mut sink, MemShelf::new());
        assert!(rt; status == 5 && sink.bytes().len() == room as usize);
        assert!(rt; FIRST_PRINTED.as_bytes().starts_with(sink.bytes()));
    }
    Ok(())
}

/// Of a text of 2^24 + 2 bytes one byte is left, and it is too long.
#[test]
fn long_text(rt: HostRuntime) -> Result<(), Fail> {
    let alloc = rt.alloc();
    let mut text: Vec<u8> = Vec::new(alloc);
    text.resize((1 << 24) + 2, b'\n')?;
    let words = [String::from_str(alloc, "replay")?];
    let mut source = MemSource::new(alloc, &text, 65536, &[])?;
    let mut sink = MemSink::new(alloc, 100, &[])?;
    let status = tool(alloc, &words, &mut source, &mut sink, MemShelf::new());
    assert!(rt; status == 3 && sink.bytes() == b"line 0: toolong\n".as_slice());
    let mut rest = [0u8; 8];
    assert!(rt; matches!(source.read(&mut rest), Ok(1)));
    Ok(())
}

/// Over a writer with this much room: the status, and whether what it took is a front of the first scenario's text.
fn into_room(alloc: Global, room: &mut [u8]) -> Result<(u8, bool), Fail> {
    let words = [String::from_str(alloc, "replay")?];
    let status = over(alloc, &words, FIRST.as_bytes(), &mut room[..])?;
    let most = room.len().min(FIRST_PRINTED.len());
    let front = &FIRST_PRINTED.as_bytes()[..most];
    Ok((status, room.starts_with(front)))
}

/// Over std's streams all bytes are out when the status is 0. A region that fails as its old bytes are read, or as it is written,
/// loses the segment.
#[test]
fn streams_of_std_and_regions(rt: HostRuntime) -> Result<(), Fail> {
    let alloc = rt.alloc();
    let mut room = vec![in alloc; 0u8; FIRST_PRINTED.len()]?;
    assert!(rt; into_room(alloc, &mut room)? == (0, true));
    let mut room = vec![in alloc; 0u8; FIRST_PRINTED.len() - 1]?;
    assert!(rt; into_room(alloc, &mut room)? == (5, true));
    let words = [String::from_str(alloc, "replay")?];
    for call in [1u64, 2] {
        let counts = if call == 1 {
            "reads 1 writes 1"
        } else {
            "reads 1 writes 2"
        };
        let mut source = MemSource::new(alloc, FIRST.as_bytes(), 4096, &[])?;
        let mut sink = MemSink::new(alloc, 1000, &[])?;
        let shelf = FaultyShelf::new(alloc, &[(NodeId(0), call)])?;
        assert!(rt; tool(alloc, &words, &mut source, &mut sink, shelf) == 0);
        let want = format!(in alloc;
            "1 s a 0 put 0102030405060708 -> done\n2 s = down 0 0 fault 1\n3 s a 1 write 2 aabb -> lost\n4 s a 2 read 0 8 -> lost\nlayout s 0 0 down len 4 {counts}\nlayout s 1 1 up len 4 reads 0 writes 1\nnode 0 up taken 4 free 96\nnode 1 up taken 4 free 96\n"
        )?;
        assert!(rt; sink.bytes() == want.as_bytes());
    }
    Ok(())
}
