use super::*;
use std::test::Fail;

#[test]
fn floor_of_each_version(rt: HostRuntime) {
    let first = Geometry::new(4, 2, 16, 16, 70, 1, 5000);
    assert!(rt; first.is_ok_and(|g| g.version() == 1 && g.floor() == 70 && g.bytes() == 32));
    assert!(rt; Geometry::new2(4, 2, 16, 16, 73, 1, 5000).is_err());
    let second = Geometry::new2(4, 2, 16, 16, 74, 1, 5000);
    assert!(rt; second.is_ok_and(|g| g.version() == 2 && g.floor() == 74));
}

#[test]
fn memory_is_had(rt: HostRuntime) -> Result<(), Fail> {
    let alloc = rt.alloc();
    let call = Call::Swap {
        off: 1,
        old: Bytes::copy(alloc, b"ab")?,
        new: Bytes::fill(alloc, 7, 2)?,
    };
    let copy = call.clone()?;
    let same = match &copy {
        Call::Swap { off, old, new } => {
            *off == 1 && old.as_slice() == b"ab".as_slice() && new.as_slice() == [7, 7].as_slice()
        }
        _ => false,
    };
    assert!(rt; same);
    let bytes = Bytes::from_vec(Bytes::copy(alloc, b"ab")?.into_vec());
    assert!(rt; bytes.as_slice() == b"ab".as_slice());
    let mut reasons = Reasons::new(alloc)?;
    for node in 0..64u8 {
        if reasons.as_slice().len() < 64 {
            reasons.push(Reason {
                node: NodeId(node),
                why: Why::Free(3),
            });
        }
    }
    assert!(rt; reasons.as_slice().len() == 64);
    let mut cuts = Cuts::new();
    if cuts.get(15) < u64::MAX {
        cuts.raise(15);
    }
    assert!(rt; cuts.get(15) == 1 && cuts.get(0) == 0);
    Ok(())
}
