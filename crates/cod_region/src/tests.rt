use super::*;
use cod_types::NodeId;
use std::test::Fail;

/// Whether a write, a read, a write and a cut fail, in this order.
fn failed<R: Region>(region: &mut R) -> [bool; 4] {
    let mut into = [0u8; 2];
    if region.len() != 4 {
        return [true; 4];
    }
    [
        region.write_at(0, b"ab").is_err(),
        region.read_at(0, &mut into).is_err(),
        region.write_at(2, b"cd").is_err(),
        region.cut(4).is_err(),
    ]
}

#[test]
fn fails_at_the_listed_calls(rt: HostRuntime) -> Result<(), Fail> {
    // reads, writes and cuts are counted together, those that fail too, and a node's list is its own
    let shelf = FaultyShelf::new(
        rt.alloc(),
        &[(NodeId(1), 3), (NodeId(2), 1), (NodeId(1), 0)],
    )?;
    let mut none = shelf.region(rt.alloc(), NodeId(0), 4)?;
    assert!(rt; failed(&mut none) == [false; 4] && !shelf.may_fail(NodeId(0)));
    let mut ends = shelf.region(rt.alloc(), NodeId(1), 4)?;
    assert!(rt; failed(&mut ends) == [true, false, false, true] && shelf.may_fail(NodeId(1)));
    assert!(rt; ends.reads() == 1 && ends.writes() == 2 && ends.faults() == 2);
    let mut second = shelf.region(rt.alloc(), NodeId(2), 4)?;
    assert!(rt; failed(&mut second) == [false, true, false, false]);
    Ok(())
}

/// The two bytes from place 1 on, where they can be fetched.
fn fetched<R: Region>(region: &mut R) -> Option<&[u8]> {
    if region.len() != 4 || region.fetch(1, 2).is_err() {
        return None;
    }
    Some(region.lent(1, 2))
}

#[test]
fn lends_what_was_fetched(rt: HostRuntime) -> Result<(), Fail> {
    // a fetch is counted among the calls, and fails where it is the listed one
    let shelf = FaultyShelf::new(rt.alloc(), &[(NodeId(0), 5)])?;
    let mut region = shelf.region(rt.alloc(), NodeId(0), 4)?;
    assert!(rt; failed(&mut region) == [false; 4]);
    assert!(rt; fetched(&mut region) == Some(b"bc"));
    assert!(rt; fetched(&mut region).is_none());
    assert!(rt; region.reads() == 3 && region.faults() == 1);
    Ok(())
}

#[test]
fn in_memory(rt: HostRuntime) -> Result<(), Fail> {
    let shelf = MemShelf::new();
    let mut region = Untold::new(shelf.region(rt.alloc(), NodeId(0), 4)?);
    assert!(rt; failed(&mut region) == [false; 4] && !shelf.may_fail(NodeId(0)));
    assert!(rt; region.held().writes() == 2 && region.faults() == 0);
    Ok(())
}
