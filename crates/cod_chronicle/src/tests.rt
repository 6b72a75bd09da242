//! Links and chronicles where memory is had.
use crate::{Cause, Chronicle, Entry, Link, Stands, merge_order};
use cod_types::{Call, Caller, NodeId, OutOfMemory, Reply};
use std::alloc::Global;
use std::test::Fail;

fn length_of<T: Stands>(value: &T) -> u64 {
    value.chronicle().len()
}

#[test]
fn entries_in_order(rt: HostRuntime) -> Result<(), Fail> {
    let alloc = rt.alloc();
    let mut chronicle = Chronicle::new(alloc);
    assert_eq!(rt; length_of(&chronicle), 0);
    assert_eq!(rt; chronicle.clock(), 0);
    let call = Entry::Call {
        caller: Caller(0),
        number: 0,
        stamp: 1,
        call: Call::Merge,
        reply: Reply::Done,
    };
    chronicle.push_link(Link::new(alloc)?, call);
    let down = Entry::Down {
        stamp: 5,
        col: 0,
        node: NodeId(3),
        cause: Cause::Killed(12),
    };
    chronicle.push_link(Link::new(alloc)?, down);
    let up = Entry::Up {
        stamp: u64::MAX,
        col: 0,
        node: NodeId(4),
    };
    chronicle.push_link(Link::new(alloc)?, up);
    let moved = Entry::Move {
        stamp: u64::MAX,
        col: 1,
        node: NodeId(5),
    };
    chronicle.push_link(Link::new(alloc)?, moved);
    assert_eq!(rt; length_of(&chronicle), 4);
    assert_eq!(rt; chronicle.clock(), u64::MAX);
    let mut entries = chronicle.iter();
    assert!(rt;
        matches!(
            entries.next(),
            Some(Entry::Call {
                number: 0,
                stamp: 1,
                ..
            })
        )
    );
    assert!(rt;
        matches!(
            entries.next(),
            Some(Entry::Down {
                stamp: 5,
                node: NodeId(3),
                ..
            })
        )
    );
    assert!(rt;
        matches!(
            entries.next(),
            Some(Entry::Up {
                col: 0,
                node: NodeId(4),
                ..
            })
        )
    );
    assert!(rt;
        matches!(
            entries.next(),
            Some(Entry::Move {
                col: 1,
                node: NodeId(5),
                ..
            })
        )
    );
    assert!(rt; entries.next().is_none());
    Ok(())
}

/// A chronicle of marks with these stamps.
fn marked(alloc: Global, stamps: &[u64]) -> Result<Chronicle, OutOfMemory> {
    let mut chronicle = Chronicle::new(alloc);
    for stamp in stamps {
        let stamp = *stamp;
        if chronicle.clock() < stamp && chronicle.len() < 1000 {
            let up = Entry::Up {
                stamp,
                col: 0,
                node: NodeId(0),
            };
            chronicle.push_link(Link::new(alloc)?, up);
        }
    }
    Ok(chronicle)
}

/// Whether these are the chronicles' entries in order, each by its chronicle and its stamp.
fn walks(all: &[Chronicle], want: &[(u32, u64)]) -> bool {
    if 1024 < all.len() {
        return false;
    }
    let mut merged = merge_order(all);
    for (index, stamp) in want {
        match merged.next() {
            Some(placed) if placed.index == *index && placed.entry.stamp() == *stamp => {}
            _ => return false,
        }
    }
    merged.next().is_none()
}

#[test]
fn all_entries_in_one_order(rt: HostRuntime) -> Result<(), Fail> {
    let alloc = rt.alloc();
    assert!(rt; walks(&[], &[]));
    // equal stamps stand by the chronicle's number, and those of number 40 lie in another group than the others
    let mut all = Vec::new(alloc);
    all.push(marked(alloc, &[2, 3, 9])?)?;
    for _ in 0..39 {
        all.push(marked(alloc, &[])?)?;
    }
    all.push(marked(alloc, &[1, 3, 4, 9])?)?;
    all.push(marked(alloc, &[3])?)?;
    let want = [
        (40, 1),
        (0, 2),
        (0, 3),
        (40, 3),
        (41, 3),
        (40, 4),
        (0, 9),
        (40, 9),
    ];
    assert!(rt; walks(&all, &want));
    Ok(())
}
