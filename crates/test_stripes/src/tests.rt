use cod_io::{MemSink, MemSource};
use cod_region::FaultyShelf;
use cod_tool::tool;
use cod_types::NodeId;
use std::alloc::Global;
use std::test::Fail;

/// The header of all scenarios, behind the line of the nodes: two data columns of one byte, and two parity columns.
const HEADER: &str =
    "code 4 2\nblock 1\nupdate 1\nreserve 40\nunit 1\nalpha 5000\nsegment s\nclient a\n";

/// Whether a replay over regions that fail at these calls prints a text that begins so.
fn replays_as(
    alloc: Global,
    text: &str,
    faults: &[(NodeId, u64)],
    want: &str,
) -> Result<bool, Fail> {
    let words = [String::from_str(alloc, "replay")?];
    let mut source = MemSource::new(alloc, text.as_bytes(), 4096, &[])?;
    let mut sink = MemSink::new(alloc, 2000, &[])?;
    let shelf = FaultyShelf::new(alloc, faults)?;
    let status = tool(alloc, &words, &mut source, &mut sink, shelf);
    Ok(status == 0 && sink.bytes().starts_with(want.as_bytes()))
}

/// The same with these lines, as many nodes, and the header.
fn prints(
    alloc: Global,
    nodes: u8,
    lines: &str,
    faults: &[(NodeId, u64)],
    want: &str,
) -> Result<bool, Fail> {
    let text = format!(in alloc; "codfs 1\nnodes {nodes} 1000\n{HEADER}{lines}end\n")?;
    replays_as(alloc, &text, faults, want)
}

const UPDATE: &str = "put s 0102\nwrite s 0 05\nread s 0 2\n";

/// Whichever call of one data column's region fails, each reply is that of regions that don't.
#[test]
fn a_fault_at_each_call(rt: HostRuntime) -> Result<(), Fail> {
    let alloc = rt.alloc();
    let put = "= down 0 0 fault 1\n2 s a 0 put 0102 -> done\n3 s a 1 write 0 05 -> done\n";
    let begin = "a 0 put 0102 -> done\n2 s = down 0 0 fault 1\n3 s a 1 write 0 05 -> done\n";
    let read = "a 0 put 0102 -> done\n2 s a 1 write 0 05 -> done\n3 s = down 0 0 fault 1\n";
    for (call, first, counts) in [
        (0u64, put, "reads 0 writes 1"),
        (1, begin, "reads 1 writes 1"),
        (2, begin, "reads 1 writes 2"),
        (3, read, "reads 2 writes 2"),
    ] {
        let want = format!(in alloc;
            "1 s {first}4 s a 2 read 0 2 -> bytes 0502\nlayout s 0 0 down len 1 {counts}\n"
        )?;
        assert!(rt; prints(alloc, 5, UPDATE, &[(NodeId(0), call)], want.as_str())?);
    }
    let none =
        "1 s a 0 put 0102 -> done\n2 s a 1 write 0 05 -> done\n3 s a 2 read 0 2 -> bytes 0502\nlayout s 0 0 up len 1 reads 2 writes 2\n";
    for call in [4u64, 5] {
        assert!(rt; prints(alloc, 5, UPDATE, &[(NodeId(0), call)], none)?);
    }
    Ok(())
}

/// The update goes round the column that failed: its old bytes are made from the two lowest that are left.
#[test]
fn counts_behind_a_fault(rt: HostRuntime) -> Result<(), Fail> {
    let want =
        "1 s a 0 put 0102 -> done\n2 s = down 0 0 fault 1\n3 s a 1 write 0 05 -> done\n4 s a 2 read 0 2 -> bytes 0502\nlayout s 0 0 down len 1 reads 1 writes 1\nlayout s 1 1 up len 1 reads 3 writes 1\nlayout s 2 2 up len 41 used 20 avg 10000 reads 2 writes 2\nlayout s 3 3 up len 41 used 20 avg 10000 reads 0 writes 2\n";
    assert!(rt; prints(rt.alloc(), 5, UPDATE, &[(NodeId(0), 1)], want)?);
    Ok(())
}

/// A rebuild whose target fails goes to the next spare node, and its piece is made again; where all have failed, each is a reason.
#[test]
fn targets_that_fail(rt: HostRuntime) -> Result<(), Fail> {
    let alloc = rt.alloc();
    let lines = "put s 0102\nfail 0\nrebuild s\n";
    let one =
        "1 s a 0 put 0102 -> done\n2 s = down 0 0 killed 12\n3 s = up 0 5\n4 s a 1 rebuild -> rebuilt 0 5\nlayout s 0 5 up len 1 reads 0 writes 1\nlayout s 1 1 up len 1 reads 2 writes 1\nlayout s 2 2 up len 41 used 0 avg 10000 reads 2 writes 1\nlayout s 3 3 up len 41 used 0 avg 10000 reads 0 writes 1\n";
    assert!(rt; prints(alloc, 8, lines, &[(NodeId(4), 0)], one)?);
    let all = [
        (NodeId(4), 0),
        (NodeId(5), 0),
        (NodeId(6), 0),
        (NodeId(7), 0),
    ];
    let none =
        "1 s a 0 put 0102 -> done\n2 s = down 0 0 killed 12\n3 s a 1 rebuild -> nospare 4:fault:1 5:fault:1 6:fault:1 7:fault:1\nlayout s 0 0 down len 1 reads 0 writes 1\nlayout s 1 1 up len 1 reads 4 writes 1\n";
    assert!(rt; prints(alloc, 8, lines, &all, none)?);
    Ok(())
}

/// A column that fails as bytes of another are made from it goes down, and they are made again from the others: those of a rebuild,
/// of a read, and of a write.
#[test]
fn sources_that_fail(rt: HostRuntime) -> Result<(), Fail> {
    let alloc = rt.alloc();
    let before = "1 s a 0 put 0102 -> done\n2 s = down 0 0 killed 12\n3 s = down 1 1 fault 1\n";
    for (call, want) in [
        (
            "rebuild s\nread s 0 2",
            "4 s = up 0 4\n5 s a 1 rebuild -> rebuilt 0 4\n6 s a 2 read 0 2 -> bytes 0102\nlayout s 0 4 up len 1 reads 2 writes 1\nlayout s 1 1 down len 1 reads 1 writes 1\nlayout s 2 2 up len 41 used 0 avg 10000 reads 2 writes 1\nlayout s 3 3 up len 41 used 0 avg 10000 reads 1 writes 1\n",
        ),
        (
            "read s 0 1",
            "4 s a 1 read 0 1 -> bytes 01\nlayout s 0 0 down len 1 reads 0 writes 1\nlayout s 1 1 down len 1 reads 1 writes 1\nlayout s 2 2 up len 41 used 0 avg 10000 reads 1 writes 1\nlayout s 3 3 up len 41 used 0 avg 10000 reads 1 writes 1\n",
        ),
        (
            "write s 0 05",
            "4 s a 1 write 0 05 -> done\nlayout s 0 0 down len 1 reads 0 writes 1\nlayout s 1 1 down len 1 reads 1 writes 1\nlayout s 2 2 up len 41 used 20 avg 10000 reads 1 writes 2\nlayout s 3 3 up len 41 used 20 avg 10000 reads 1 writes 2\n",
        ),
    ] {
        let lines = format!(in alloc; "put s 0102\nfail 0\n{call}\n")?;
        let want = format!(in alloc; "{before}{want}")?;
        assert!(rt;
            prints(alloc, 8, &lines, &[(NodeId(1), 1)], &want)?,
            "{call}"
        );
    }
    Ok(())
}

/// A rebuild of two pieces, in the second of which the target or a source fails: it begins again elsewhere, or makes that piece again.
#[test]
fn second_pieces_that_fail(rt: HostRuntime) -> Result<(), Fail> {
    let alloc = rt.alloc();
    let text =
        "codfs 1\nnodes 8 20000\ncode 4 2\nblock 4097\nupdate 1\nreserve 40\nunit 1\nalpha 5000\nsegment s\nclient a\nfail 0\nrebuild s\nend\n";
    for (node, want) in [
        (
            4u8,
            "2 s = up 0 5\n3 s a 0 rebuild -> rebuilt 0 5\nlayout s 0 5 up len 4097 reads 0 writes 2\nlayout s 1 1 up len 4097 reads 4 writes 0\nlayout s 2 2 up len 4137 used 0 avg 10000 reads 4 writes 0\nlayout s 3 3 up len 4137 used 0 avg 10000 reads 0 writes 0\n",
        ),
        (
            1,
            "2 s = down 1 1 fault 1\n3 s = up 0 4\n4 s a 0 rebuild -> rebuilt 0 4\nlayout s 0 4 up len 4097 reads 0 writes 2\nlayout s 1 1 down len 4097 reads 2 writes 0\nlayout s 2 2 up len 4137 used 0 avg 10000 reads 2 writes 0\nlayout s 3 3 up len 4137 used 0 avg 10000 reads 1 writes 0\n",
        ),
    ] {
        let want = format!(in alloc; "1 s = down 0 0 killed 11\n{want}")?;
        assert!(rt;
            replays_as(alloc, text, &[(NodeId(node), 1)], &want)?,
            "node {node}"
        );
    }
    Ok(())
}

/// A drain goes to the next node where the new region fails; where the old one fails, its column goes down.
#[test]
fn drains_that_fail(rt: HostRuntime) -> Result<(), Fail> {
    let alloc = rt.alloc();
    let lines = "put s 0102\ndrain s 0\nread s 0 2\n";
    let new =
        "1 s a 0 put 0102 -> done\n2 s = move 0 5\n3 s a 1 drain 0 -> shifted 0 5\n4 s a 2 read 0 2 -> bytes 0102\nlayout s 0 5 up len 1 reads 1 writes 1\nlayout s 1 1 up len 1 reads 1 writes 1\n";
    assert!(rt; prints(alloc, 8, lines, &[(NodeId(4), 0)], new)?);
    let old =
        "1 s a 0 put 0102 -> done\n2 s = down 0 0 fault 1\n3 s a 1 drain 0 -> clear\n4 s a 2 read 0 2 -> bytes 0102\nlayout s 0 0 down len 1 reads 1 writes 1\nlayout s 1 1 up len 1 reads 2 writes 1\nlayout s 2 2 up len 41 used 0 avg 10000 reads 1 writes 1\n";
    assert!(rt; prints(alloc, 8, lines, &[(NodeId(0), 1)], old)?);
    Ok(())
}

/// Whichever call of a parity column's region fails, that of the put, of the append or of the merge, its column goes down in that
/// call, and each reply is that of regions that don't fail.
#[test]
fn a_fault_at_each_call_of_a_parity_column(rt: HostRuntime) -> Result<(), Fail> {
    let alloc = rt.alloc();
    let lines = "put s 0102\nwrite s 0 05\nmerge s\ntick s\nread s 0 2\n";
    let put =
        "1 s = down 2 2 fault 1\n2 s a 0 put 0102 -> done\n3 s a 1 write 0 05 -> done\n4 s a 2 merge -> done\n";
    let append =
        "1 s a 0 put 0102 -> done\n2 s = down 2 2 fault 1\n3 s a 1 write 0 05 -> done\n4 s a 2 merge -> done\n";
    let merge =
        "1 s a 0 put 0102 -> done\n2 s a 1 write 0 05 -> done\n3 s = down 2 2 fault 1\n4 s a 2 merge -> done\n";
    let columns =
        "5 s a 3 tick -> done\n6 s a 4 read 0 2 -> bytes 0502\nlayout s 0 0 up len 1 reads 2 writes 2\nlayout s 1 1 up len 1 reads 1 writes 1\nlayout s 2 2 down len 41 used";
    let cases = [
        (0u64, put, "0 avg 10000 reads 0 writes 1"),
        (1, append, "0 avg 10000 reads 0 writes 2"),
        (2, merge, "20 avg 10000 reads 1 writes 2"),
        (3, merge, "20 avg 10000 reads 1 writes 3"),
    ];
    for (call, first, counts) in cases {
        let want = format!(in alloc; "{first}{columns} {counts}\n")?;
        assert!(rt; prints(alloc, 5, lines, &[(NodeId(2), call)], want.as_str())?);
    }
    Ok(())
}

/// The third update finds no room for its record, so the column reads and writes its base before it writes the record: a fault at
/// each.
#[test]
fn appends_without_room(rt: HostRuntime) -> Result<(), Fail> {
    let alloc = rt.alloc();
    let lines = "put s 0102\nwrite s 0 05\nwrite s 0 06\nwrite s 0 07\n";
    for (call, counts) in [
        (3u64, "used 40 avg 10000 reads 1 writes 3"),
        (4, "used 40 avg 10000 reads 1 writes 4"),
        (5, "used 0 avg 10000 reads 1 writes 5"),
    ] {
        let want = format!(in alloc;
            "1 s a 0 put 0102 -> done\n2 s a 1 write 0 05 -> done\n3 s a 2 write 0 06 -> done\n4 s = down 2 2 fault 1\n5 s a 3 write 0 07 -> done\nlayout s 0 0 up len 1 reads 3 writes 4\nlayout s 1 1 up len 1 reads 0 writes 1\nlayout s 2 2 down len 41 {counts}\nlayout s 3 3 up len 41 used 20 avg 10000 reads 1 writes 5\n"
        )?;
        assert!(rt;
            prints(alloc, 5, lines, &[(NodeId(2), call)], &want)?,
            "call {call}"
        );
    }
    Ok(())
}

/// A target that fails as a commit corrects it or as a put writes it is let go, and the rebuild goes to the next spare node. The
/// update and the put are done all the same.
#[test]
fn targets_beside_writers(rt: HostRuntime) -> Result<(), Fail> {
    let alloc = rt.alloc();
    for (col, other, call, counts) in [
        (
            0u8,
            "write 0 07",
            1u64,
            "s 0 5 up len 1 reads 0 writes 1\nlayout s 1 1 up len 1 reads 3 writes 1\nlayout s 2 2 up len 41 used 20 avg 10000 reads 3 writes 2",
        ),
        (
            2,
            "write 0 07",
            1,
            "s 0 0 up len 1 reads 3 writes 2\nlayout s 1 1 up len 1 reads 2 writes 1\nlayout s 2 5 up len 41 used 0 avg 10000 reads 0 writes 1",
        ),
        (
            2,
            "write 0 07",
            2,
            "s 0 0 up len 1 reads 3 writes 2\nlayout s 1 1 up len 1 reads 2 writes 1\nlayout s 2 5 up len 41 used 0 avg 10000 reads 0 writes 1",
        ),
        (
            0,
            "put 0304",
            1,
            "s 0 5 up len 1 reads 0 writes 1\nlayout s 1 1 up len 1 reads 2 writes 2\nlayout s 2 2 up len 41 used 0 avg 10000 reads 2 writes 2",
        ),
        (
            2,
            "put 0304",
            1,
            "s 0 0 up len 1 reads 2 writes 2\nlayout s 1 1 up len 1 reads 2 writes 2\nlayout s 2 5 up len 41 used 0 avg 10000 reads 0 writes 1",
        ),
    ] {
        let (word, rest) = other.split_once(' ').unwrap_or(("", ""));
        let lines = format!(in alloc;
            "put s 0102\nfail {col}\nrebuild s\nclient b\n{word} s {rest}\nschedule a a a a b b b b\n"
        )?;
        let want = format!(in alloc;
            "1 s a 0 put 0102 -> done\n2 s = down {col} {col} killed 12\n3 s b 0 {other} -> done\n4 s = up {col} 5\n5 s a 1 rebuild -> rebuilt {col} 5\nlayout {counts}\n"
        )?;
        assert!(rt;
            prints(alloc, 8, &lines, &[(NodeId(4), call)], &want)?,
            "column {col}, call {call}"
        );
    }
    Ok(())
}

/// Bytes that are read beside an update in flight, and behind records of both versions: where a column fails as they are read, they
/// come from the others.
#[test]
fn bytes_at_the_cut(rt: HostRuntime) -> Result<(), Fail> {
    let alloc = rt.alloc();
    let beside = "put s 0102\nwrite s 0 05\nclient b\nread s 0 1\nschedule a a a b\n";
    let want =
        "1 s a 0 put 0102 -> done\n2 s = down 0 0 fault 1\n3 s b 0 read 0 1 -> bytes 01\n4 s a 1 write 0 05 -> done\nlayout s 0 0 down len 1 reads 2 writes 2\nlayout s 1 1 up len 1 reads 1 writes 1\nlayout s 2 2 up len 41 used 20 avg 10000 reads 1 writes 2\n";
    assert!(rt; prints(alloc, 5, beside, &[(NodeId(0), 3)], want)?);
    let versions =
        "codfs 2\nnodes 4 1000\ncode 4 2\nblock 4\nupdate 4\nreserve 74\nunit 1\nalpha 5000\nsegment s\nclient a\nwrite s 0 01000002\nupgrade s\nwrite s 0 01000003\nread s 0 4\nend\n";
    let want =
        "1 s a 0 write 0 01000002 -> done\n2 s a 1 upgrade -> done\n3 s a 2 write 0 01000003 -> done\n4 s = down 0 0 fault 1\n5 s a 3 read 0 4 -> bytes 01000003\nlayout s 0 0 down len 4 reads 3 writes 2\nlayout s 1 1 up len 4 reads 1 writes 0\nlayout s 2 2 up len 78 used 45 avg 10000 reads 1 writes 2\nlayout s 3 3 up len 78 used 45 avg 10000 reads 0 writes 2\n";
    assert!(rt; replays_as(alloc, versions, &[(NodeId(0), 4)], want)?);
    Ok(())
}

/// A tick reads and writes a column that has records to fold, and then cuts its reserved space. Whichever fails, the column goes down
/// with its new average, and the other one is cut.
#[test]
fn ticks_that_fail(rt: HostRuntime) -> Result<(), Fail> {
    let alloc = rt.alloc();
    let text =
        "codfs 1\nnodes 4 1000\ncode 4 2\nblock 4\nupdate 4\nreserve 100\nunit 8\nalpha 5000\nsegment s\nclient a\nwrite s 0 05\ntick s\nend\n";
    for (call, counts) in [
        (1u64, "used 20 avg 6000 reads 1 writes 1"),
        (2, "used 20 avg 6000 reads 1 writes 2"),
        (3, "used 0 avg 6000 reads 1 writes 2"),
    ] {
        let want = format!(in alloc;
            "1 s a 0 write 0 05 -> done\n2 s = down 2 2 fault 1\n3 s a 1 tick -> done\nlayout s 0 0 up len 4 reads 1 writes 1\nlayout s 1 1 up len 4 reads 0 writes 0\nlayout s 2 2 down len 104 {counts}\nlayout s 3 3 up len 64 used 0 avg 6000 reads 1 writes 2\nnode 0 up taken 4 free 996\nnode 1 up taken 4 free 996\nnode 2 up taken 104 free 896\nnode 3 up taken 64 free 936\n"
        )?;
        assert!(rt;
            replays_as(alloc, text, &[(NodeId(2), call)], &want)?,
            "call {call}"
        );
    }
    Ok(())
}
