use super::*;
use std::test::Fail;

/// A reader that is interrupted, fails, and gives its byte, in turn.
#[derive(Drop)]
struct Stutter {
    byte: u8,
    calls: u8,
}

impl std::io::Read for Stutter {
    fn read(&mut self, buf: &mut [u8]) -> std::io::Result<usize> {
        self.calls = self.calls % 3 + 1;
        if self.calls == 1 {
            return Err(std::io::Error::from(std::io::ErrorKind::Interrupted));
        }
        if self.calls == 2 {
            return Err(std::io::Error::from(std::io::ErrorKind::Other));
        }
        if buf.is_empty() {
            return Ok(0);
        }
        buf[0] = self.byte;
        Ok(1)
    }
}

#[test]
fn in_memory(rt: HostRuntime) -> Result<(), Fail> {
    let mut source = MemSource::new(rt.alloc(), b"hello", 2, &[1])?;
    let mut into = [0u8; 8];
    assert!(rt; matches!(source.read(&mut into), Ok(2)));
    assert!(rt; source.read(&mut into).is_err() && source.faults() == 1);
    let mut sink = MemSink::new(rt.alloc(), 3, &[0, 2])?;
    assert!(rt; sink.write(b"he").is_err());
    assert!(rt; matches!(sink.write(b"hel"), Ok(3)));
    assert!(rt; sink.flush().is_err() && sink.flush().is_ok());
    assert!(rt; sink.write(b"lo").is_err());
    assert!(rt; sink.bytes() == b"hel".as_slice() && sink.faults() == 3);
    Ok(())
}

#[test]
fn standard_reader(rt: HostRuntime) {
    let mut into = [0u8; 4];
    let mut whole = StdSource::new(b"hi".as_slice());
    assert!(rt; matches!(whole.read(&mut into), Ok(2)));
    assert!(rt; into == *b"hi\0\0");
    assert!(rt; matches!(whole.read(&mut into), Ok(0)));
    assert!(rt; whole.faults() == 0);
    let mut source = StdSource::new(Stutter {
        byte: b'x',
        calls: 0,
    });
    assert!(rt; source.read(&mut into).is_err());
    assert!(rt; matches!(source.read(&mut into), Ok(1)));
    assert!(rt; into[0] == b'x' && source.faults() == 1);
}

#[test]
fn standard_writer(rt: HostRuntime) {
    let mut room = [0u8; 3];
    let mut sink = StdSink::new(&mut room[..]);
    assert!(rt; matches!(sink.write(b"he"), Ok(2)));
    assert!(rt; matches!(sink.write(b"llo"), Ok(1)));
    assert!(rt; sink.write(b"lo").is_err() && sink.flush().is_ok());
    assert!(rt; sink.faults() == 1);
    drop(sink);
    assert!(rt; room == *b"hel");
}
