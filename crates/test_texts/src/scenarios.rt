use cod_io::MemSink;
use cod_scenario::{LineError, Reader, Refusal, Scenario, ScenarioError, What, read};
use cod_types::{Call, SegId};
use std::test::Fail;

/// A text has at most 2^24 bytes: with one more it is refused as a whole, else by its first line here.
#[test]
fn limit_of_size(rt: HostRuntime) -> Result<(), Fail> {
    let mut long = vec![in rt.alloc(); b'\n'; 1 << 24]?;
    long[0] = b'\t';
    let line = 1;
    let why = Refusal::BadByte;
    let is_read = read(rt.alloc(), long.as_slice());
    assert!(rt; is_read.is_err_and(|e| e == ScenarioError::Refused { line, why }));
    long.push(b'x')?;
    let line = 0;
    let why = Refusal::TooLong;
    let is_read = read(rt.alloc(), long.as_slice());
    assert!(rt; is_read.is_err_and(|e| e == ScenarioError::Refused { line, why }));
    let mut reader = Reader::new(rt.alloc());
    assert!(rt; reader.line(b"nodes 5 1000") == Err(LineError::Refused(Refusal::Order)));
    let line = 1;
    let why = Refusal::NoEnd;
    assert!(rt;
        reader
            .finish()
            .is_err_and(|e| e == ScenarioError::Refused { line, why })
    );
    Ok(())
}

/// All that can be written in another way.
const TEXT: &str =
    "# x\ncodfs 2\r\nnodes 5 1000\ncode 4 2\nblock 1\nupdate 1\nreserve 44\nunit 1\nalpha 5000\nsegment s\n\
         segment  t\nclient a\nread s 00 1\nwrite t 1 Ab\nput t aAAA\nswap t 1 - FF*0\ndrain s 1\nclient b\nfail 04\n\
         care 2 3\nschedule a a\nschedule b\nend";

/// Its canonical text.
const CANONICAL: &str =
    "codfs 2\nnodes 5 1000\ncode 4 2\nblock 1\nupdate 1\nreserve 44\nunit 1\nalpha 5000\nsegment s\nsegment t\n\
         client a\nread s 0 1\nwrite t 1 ab\nput t aa*2\nswap t 1 - -\ndrain s 1\nclient b\nfail 4\ncare 2 3\n\
         schedule a a b\nend\n";

/// Whether the scenario of this text is written as the canonical one.
fn is_canonical(rt: &HostRuntime, text: &str) -> Result<bool, Fail> {
    let scenario = read(rt.alloc(), text.as_bytes())?;
    let mut sink = MemSink::new(rt.alloc(), 1000, &[])?;
    Ok(scenario.write(&mut sink).is_ok() && sink.bytes() == CANONICAL.as_bytes())
}

/// The calls of the first client, moved out.
fn are_taken(scenario: &mut Scenario) -> bool {
    if scenario.clients() != 2 {
        return false;
    }
    let lines = scenario.take_lines(0);
    let put =
        matches!(&lines.as_slice(), [_, _, put, ..] if matches!(&put.what, What::Segment { call: Call::Put { .. }, .. }));
    put && lines.len() == 5 && scenario.clients() == 2 && scenario.lines(0).is_empty()
}

#[test]
fn whole_scenario(rt: HostRuntime) -> Result<(), Fail> {
    assert!(rt; is_canonical(&rt, TEXT)? && is_canonical(&rt, CANONICAL)?);
    let mut scenario = read(rt.alloc(), TEXT.as_bytes())?;
    assert!(rt; scenario.nodes() == 5 && scenario.capacity() == 1000);
    assert!(rt; scenario.geometry().reserve() == 44 && scenario.care() == (2, 3));
    assert!(rt; scenario.schedule() == [0, 0, 1].as_slice());
    if scenario.segments() == 2 && scenario.clients() == 2 {
        assert!(rt; scenario.segment_name(SegId(1)) == "t" && scenario.client_name(1) == "b");
        assert!(rt; matches!(scenario.lines(1), [fail] if fail.line == 19));
    }
    assert!(rt; are_taken(&mut scenario));
    Ok(())
}
