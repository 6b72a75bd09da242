//! Claims and slips where memory is had.
ghost use Rattle.std.specs.Prelude.{◌≡◌, false, IfOk, IsSome};
ghost use Rattle.cod_claims.specs.Slips.{AreWhole, changes_of};

use super::*;
use cod_types::{Bytes, Call, Caller, Geometry, OutOfMemory, Reply};
use std::alloc::Global;
use std::test::Fail;

/// Three blocks of four bytes, with updates of up to eight.
fn geometry() -> Option<Geometry> {
    Geometry::new2(5, 3, 4, 8, 87, 1, 5000).ok()
}

/// A write of these bytes, which is not refused.
fn write(alloc: Global, g: &Geometry, off: u32, bytes: &[u8]) -> Result<Slip, Fail>
    ensures call { IfOk result (λ s. IsSome s.call) }
    ensures changes { IfOk result (λ s. IsSome s.changes) }
    ensures early { IfOk result (λ s. s.are_made ≡ false) }
    ensures whole { IfOk result (λ s. AreWhole (changes_of s)) }
{
    let end = off as usize + bytes.len();
    if (g.bytes() as usize) < end || (g.update() as usize) < bytes.len() {
        return Err(Fail::from(OutOfMemory));
    }
    let call = Call::Write {
        off,
        bytes: Bytes::copy(alloc, bytes)?,
    };
    Ok(Slip::prepare(alloc, g, call)?)
}

#[test]
fn a_rebuild_has_its_memory(rt: HostRuntime) -> Result<(), Fail> {
    let Some(g) = geometry() else {
        return Ok(());
    };
    let mut slip = Slip::prepare(rt.alloc(), &g, Call::Rebuild)?;
    let _links = (slip.take_link(), slip.take_link(), slip.take_link());
    let reasons = slip.take_reasons();
    slip.put_reasons(reasons);
    slip.set_reply(Reply::Done);
    assert!(rt; matches!(slip.take_reply(), Some(Reply::Done)));
    Ok(())
}

#[test]
fn claims_blocks(rt: HostRuntime) -> Result<(), Fail> {
    let Some(g) = geometry() else {
        return Ok(());
    };
    let mut slip = write(rt.alloc(), &g, 3, b"abc")?;
    let mut claims = Claims::new();
    slip.make_deltas();
    claims.claim(Caller(4), 7, &mut slip);
    let held = claims.who(6, Caller(5));
    assert!(rt; held.is_some_and(|h| h.owner.0 == 4 && h.number == 7));
    assert!(rt; claims.who(12, Caller(5)).is_none());
    let brought = claims.brings(1);
    assert!(rt; brought.is_some_and(|bytes| bytes == b"bc".as_slice()));
    if claims.is_claimed(0) {
        claims.note(0, 3, 21);
        assert!(rt; claims.noted_length(0, 3) == Some(21));
    }
    claims.release(Caller(4));
    assert!(rt; !claims.is_claimed(0));
    Ok(())
}
