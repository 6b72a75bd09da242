//! Runs by threads.
use crate::history::{has_all, is_legal};
use crate::meeting::Meeting;
use crate::scenario;
use cod_io::{MemSink, MemSource};
use cod_region::MemShelf;
use cod_run::{Gate, NoGate, run};
use std::alloc::Global;
use std::sync::Wait;
use std::test::Fail;
use std::thread::Threads;

/// What the run of a scenario prints, its status being 0.
fn printed<G: Gate + Sync, V: Threads + Wait + Sync>(
    rt: &V,
    alloc: Global,
    text: &str,
    gate: &G,
) -> Result<String, Fail> {
    let words = [String::from_str(alloc, "run")?];
    let mut source = MemSource::new(alloc, text.as_bytes(), 4096, &[])?;
    let mut sink = MemSink::new(alloc, 100_000, &[])?;
    let shelf = MemShelf::new();
    let status = run(rt, alloc, &words, &mut source, &mut sink, shelf, gate);
    let told = if status == 0 { sink.bytes() } else { b"" };
    Ok(String::from_utf8_lossy(alloc, told)?)
}

/// The header of the worked scenarios, behind the line of the nodes: two data columns of one byte, and two parity columns.
const HEADER: &str = "code 4 2\nblock 1\nupdate 1\nreserve 40\nunit 1\nalpha 5000\nsegment s\n";

/// Whether the run of these lines, over so many nodes, prints a text that begins so.
fn prints<V: Threads + Wait + Sync>(
    rt: &V,
    alloc: Global,
    nodes: u8,
    lines: &str,
    want: &str,
) -> Result<bool, Fail> {
    let text = format!(in alloc; "codfs 1\nnodes {nodes} 1000\n{HEADER}{lines}end\n")?;
    let told = printed(rt, alloc, &text, &NoGate)?;
    Ok(told.starts_with(want))
}

/// Two clients with a segment each, one client while too many nodes are killed, and one that rebuilds.
#[test]
fn known_texts(rt: HostRuntime) -> Result<(), Fail> {
    let alloc = rt.alloc();
    let apart =
        "segment t\nclient a\nput s 0102\nwrite s 0 05\nread s 0 2\nclient b\nput t 0304\nread t 0 2\n";
    let want =
        "1 s a 0 put 0102 -> done\n1 t b 0 put 0304 -> done\n2 s a 1 write 0 05 -> done\n2 t b 1 read 0 2 -> bytes 0304\n3 s a 2 read 0 2 -> bytes 0502\nlayout s 0 0 up len 1 reads 2 writes 2\nlayout s 1 1 up len 1 reads 1 writes 1\nlayout s 2 2 up len 41 used 20 avg 10000 reads 0 writes 2\nlayout s 3 3 up len 41 used 20 avg 10000 reads 0 writes 2\nlayout t 0 1 up len 1 reads 1 writes 1\nlayout t 1 2 up len 1 reads 1 writes 1\nlayout t 2 3 up len 41 used 0 avg 10000 reads 0 writes 1\nlayout t 3 4 up len 41 used 0 avg 10000 reads 0 writes 1\nnode 0 up taken 1 free 999\nnode 1 up taken 2 free 998\nnode 2 up taken 42 free 958\nnode 3 up taken 82 free 918\nnode 4 up taken 41 free 959\n";
    assert!(rt; prints(&rt, alloc, 5, apart, want)?);
    let lost = "client a\nput s 0102\nfail 2\nfail 3\nread s 0 2\nfail 1\nread s 0 2\nrebuild s\n";
    let want =
        "1 s a 0 put 0102 -> done\n2 s = down 2 2 killed 12\n3 s = down 3 3 killed 13\n4 s a 1 read 0 2 -> bytes 0102\n5 s = down 1 1 killed 15\n6 s a 2 read 0 2 -> lost\n7 s a 3 rebuild -> lost\nlayout ";
    assert!(rt; prints(&rt, alloc, 5, lost, want)?);
    let rebuilt =
        "client a\nput s 0102\nfail 0\nfail 1\nrebuild s\nrebuild s\nfail 4\nread s 0 2\n";
    let want =
        "1 s a 0 put 0102 -> done\n2 s = down 0 0 killed 12\n3 s = down 1 1 killed 13\n4 s = up 0 4\n5 s a 1 rebuild -> rebuilt 0 4\n6 s = up 1 5\n7 s a 2 rebuild -> rebuilt 1 5\n8 s = down 0 4 killed 16\n9 s a 3 read 0 2 -> bytes 0102\nlayout s 0 4 down len 1 reads 1 writes 1\nlayout s 1 5 up len 1 reads 2 writes 1\nlayout s 2 2 up len 41 used 0 avg 10000 reads 3 writes 1\nlayout s 3 3 up len 41 used 0 avg 10000 reads 1 writes 1\nnode 0 down taken 0 free 1000\nnode 1 down taken 0 free 1000\nnode 2 up taken 41 free 959\nnode 3 up taken 41 free 959\nnode 4 down taken 1 free 999\nnode 5 up taken 1 free 999\n";
    assert!(rt; prints(&rt, alloc, 8, rebuilt, want)?);
    Ok(())
}

/// A read is asked and answered between two events of another client's write. That shows that the calls of two clients run side
/// by side: where they come one after another, one of the two is held in vain.
#[test]
fn a_read_within_a_write(rt: HostRuntime) -> Result<(), Fail> {
    let alloc = rt.alloc();
    let text = format!(in alloc;
        "codfs 1\nnodes 5 1000\n{HEADER}client a\nput s 0102\nwrite s 0 05\nclient b\nread s 0 1\nread s 0 1\nread s 0 1\nend\n"
    )?;
    let gate = Meeting::new(&rt, alloc)?;
    let told = printed(&rt, alloc, &text, &gate)?;
    assert!(rt; gate.has_been(), "a call was held in vain");
    let first = "1 s a 0 put 0102 -> done\n2 s b 0 read 0 1 -> bytes 01\n";
    assert!(rt; told.starts_with(first), "{told}");
    Ok(())
}

/// Whether a printed text is that of a legal run of the scenario with every kind of call.
fn is_run(alloc: Global, told: &str) -> Result<bool, Fail> {
    let (chronicle, _) = told.split_once("\nlayout ").unwrap_or(("", ""));
    if !is_legal(alloc, chronicle, scenario::SEGMENTS, scenario::BYTES)? {
        return Ok(false);
    }
    for client in 0..scenario::CLIENTS {
        let name = format!(in alloc; "c{client}")?;
        if !has_all(chronicle, &name, &scenario::calls_of(alloc, client)?)? {
            return Ok(false);
        }
    }
    for worker in 0..scenario::WORKERS {
        let name = format!(in alloc; "+{worker}")?;
        if !has_all(chronicle, &name, &scenario::care_of(alloc, worker)?)? {
            return Ok(false);
        }
    }
    Ok(true)
}

/// Whichever way the threads go, the history is legal, and has all calls.
#[test]
fn every_kind_of_call(rt: HostRuntime) -> Result<(), Fail> {
    let alloc = rt.alloc();
    let text = scenario::text(alloc)?;
    for _ in 0..100u32 {
        let told = printed(&rt, alloc, &text, &NoGate)?;
        assert!(rt; is_run(alloc, &told)?, "{told}");
    }
    Ok(())
}
