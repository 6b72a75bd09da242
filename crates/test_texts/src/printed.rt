use cod_chronicle::{Cause, Chronicle, Entry, Link};
use cod_io::{MemSink, Sink};
use cod_scenario::read;
use cod_text::{chronicle, entry, layout, node, summary};
use cod_types::{
    Bytes, Call, Caller, LayoutLine, NodeId, OutOfMemory, ParityLine, Reason, Reasons, Reply,
    SegId, Why,
};
use std::alloc::Global;
use std::test::Fail;

/// One segment, `s`, and one client, `a`.
const SCENARIO: &[u8] =
    b"codfs 1\nnodes 2 100\ncode 2 2\nblock 4\nupdate 4\nreserve 46\nunit 1\nalpha 5000\nsegment s\nclient a\nread s 0 0\nend\n";

/// These bytes, or none where there is no memory.
fn bytes(alloc: Global, from: &[u8]) -> Bytes {
    match Bytes::copy(alloc, from) {
        Ok(bytes) => bytes,
        Err(_) => Bytes::from_vec(Vec::new(alloc)),
    }
}

/// A call of the client `a` that was answered.
fn answered(stamp: u64, number: u32, call: Call, reply: Reply) -> Entry {
    Entry::Call {
        caller: Caller(0),
        number,
        stamp,
        call,
        reply,
    }
}

/// Whether these are the lines of entries of the first segment.
fn prints(alloc: Global, said: &[Entry], want: &str) -> bool {
    let (Ok(names), Ok(mut sink)) = (read(alloc, SCENARIO), MemSink::new(alloc, 600, &[])) else {
        return false;
    };
    if names.segments() == 0 {
        return false;
    }
    let mut is_out = true;
    for said in said {
        is_out = is_out && entry(&mut sink, &names, SegId(0), said).is_ok();
    }
    is_out && sink.bytes() == want.as_bytes()
}

/// One reason more, where there is room for it.
fn add_reason(reasons: &mut Reasons, node: u8, why: Why) {
    if reasons.as_slice().len() < 64 {
        let node = NodeId(node);
        reasons.push(Reason { node, why });
    }
}

#[test]
fn calls(rt: HostRuntime) -> Result<(), Fail> {
    let alloc = rt.alloc();
    let put = Call::Put {
        bytes: bytes(alloc, &[1, 2]),
    };
    let write = Call::Write {
        off: 3,
        bytes: bytes(alloc, &[]),
    };
    let swap = Call::Swap {
        off: 0,
        old: bytes(alloc, &[1]),
        new: bytes(alloc, &[0xab]),
    };
    let mut reasons = Reasons::new(alloc)?;
    add_reason(&mut reasons, 4, Why::Down(11));
    add_reason(&mut reasons, 0, Why::Free(1));
    add_reason(&mut reasons, 63, Why::Fault(2));
    let (col, node) = (2, NodeId(4));
    let drain = Call::Drain { node: NodeId(2) };
    let said = [
        answered(1, 0, put, Reply::Done),
        answered(5, 4, write, Reply::Range),
        answered(
            3,
            2,
            Call::Read { off: 0, len: 2 },
            Reply::Bytes(bytes(alloc, &[5, 2])),
        ),
        answered(3, 2, swap, Reply::Differs(bytes(alloc, &[5]))),
        answered(2, 1, Call::Upgrade, Reply::Lost),
        answered(7, 3, Call::Tick, Reply::Long),
        answered(4, 2, drain, Reply::Shifted { col, node }),
        answered(7, 2, Call::Rebuild, Reply::Rebuilt { col, node }),
        answered(2, 0, Call::Rebuild, Reply::NoSpare(reasons)),
    ];
    let want =
        "1 s a 0 put 0102 -> done\n5 s a 4 write 3 - -> range\n3 s a 2 read 0 2 -> bytes 0502\n\
         3 s a 2 swap 0 01 ab -> differs 05\n2 s a 1 upgrade -> lost\n7 s a 3 tick -> long\n\
         4 s a 2 drain 2 -> shifted 2 4\n7 s a 2 rebuild -> rebuilt 2 4\n\
         2 s a 0 rebuild -> nospare 4:down:11 0:free:1 63:fault:2\n";
    assert!(rt; prints(alloc, &said, want));
    Ok(())
}

#[test]
fn marks_and_workers(rt: HostRuntime) {
    let (stamp, col, node) = (2, 0, NodeId(3));
    let worker = Entry::Call {
        caller: Caller(8),
        number: 4_294_967_295,
        stamp: 18_446_744_073_709_551_615,
        call: Call::Merge,
        reply: Reply::Whole,
    };
    let said = [
        Entry::Down {
            stamp,
            col,
            node,
            cause: Cause::Killed(14),
        },
        Entry::Down {
            stamp,
            col,
            node,
            cause: Cause::Fault(1),
        },
        Entry::Up { stamp, col, node },
        Entry::Move { stamp, col, node },
        worker,
    ];
    let want =
        "2 s = down 0 3 killed 14\n2 s = down 0 3 fault 1\n2 s = up 0 3\n2 s = move 0 3\n18446744073709551615 s +7 4294967295 merge -> whole\n";
    assert!(rt; prints(rt.alloc(), &said, want));
}

/// A column that was killed, and a swap.
fn two_entries(alloc: Global) -> Result<Chronicle, OutOfMemory> {
    let mut all = Chronicle::new(alloc);
    let down = Entry::Down {
        stamp: 1,
        col: 0,
        node: NodeId(0),
        cause: Cause::Killed(12),
    };
    all.push_link(Link::new(alloc)?, down);
    let swap = Call::Swap {
        off: 0,
        old: bytes(alloc, &[1]),
        new: bytes(alloc, &[7]),
    };
    let said = Entry::Call {
        caller: Caller(0),
        number: 0,
        stamp: 2,
        call: swap,
        reply: Reply::Done,
    };
    all.push_link(Link::new(alloc)?, said);
    Ok(all)
}

/// The chronicle and its summary, and the lines of columns and nodes.
#[test]
fn whole_run(rt: HostRuntime) -> Result<(), Fail> {
    let alloc = rt.alloc();
    let names = read(alloc, SCENARIO)?;
    let all = [two_entries(alloc)?];
    let mut sink = MemSink::new(alloc, 600, &[])?;
    let column = LayoutLine {
        seg: SegId(0),
        col: 2,
        node: NodeId(2),
        up: true,
        len: 41,
        parity: Some(ParityLine {
            used: 20,
            avg: 10_000,
        }),
        reads: 0,
        writes: 2,
    };
    if names.segments() == 1 {
        assert!(rt; chronicle(&mut sink, &names, &all).is_ok());
        assert!(rt; layout(&mut sink, &names, column).is_ok());
    }
    assert!(rt; node(&mut sink, NodeId(4), false, 0, 1000).is_ok());
    assert!(rt; summary(&mut sink, &all).is_ok());
    let want = "1 s = down 0 0 killed 12\n2 s a 0 swap 0 01 07 -> done\n\
         layout s 2 2 up len 41 used 20 avg 10000 reads 0 writes 2\nnode 4 down taken 0 free 1000\nsegments 1\n\
         calls 1 read 0 write 0 put 0 merge 0 tick 0 rebuild 0\n\
         replies bytes 0 done 1 range 0 long 0 lost 0 whole 0 rebuilt 0 nospare 0 nomem 0\nmarks down 1 up 0\n\
         moved read 0 written 1\nswap 1 differs 0\n";
    assert!(rt; sink.bytes() == want.as_bytes());
    Ok(())
}

/// A line is 11 calls of the sink. Whichever fails, a front of the line was taken.
#[test]
fn sink_that_fails(rt: HostRuntime) -> Result<(), Fail> {
    let alloc = rt.alloc();
    let names = read(alloc, SCENARIO)?;
    let put = Call::Put {
        bytes: bytes(alloc, &[1, 2]),
    };
    let said = answered(1, 0, put, Reply::Done);
    for call in 0..12u64 {
        let mut sink = MemSink::new(alloc, 100, &[call])?;
        if names.segments() == 1 {
            let written = entry(&mut sink, &names, SegId(0), &said);
            assert!(rt; written.is_ok() == (call == 11));
        }
        assert!(rt; b"1 s a 0 put 0102 -> done\n".starts_with(sink.bytes()));
        assert!(rt; (sink.faults() == 0) == (call == 11));
    }
    Ok(())
}
