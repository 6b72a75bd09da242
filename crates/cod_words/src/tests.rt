use super::*;
use std::test::Fail;

/// The words of all lines of a text, each with `|` behind it, and `/` behind each line.
fn shown(rt: &HostRuntime, text: &[u8]) -> Result<Vec<u8>, Fail> {
    let mut joined = Vec::new(rt.alloc());
    let mut rest = text;
    for _ in 0..4 {
        if let Some((line, behind)) = next_line(rest) {
            for word in words(rt.alloc(), trimmed(line))? {
                joined.extend_from_slice(word)?;
                joined.push(b'|')?;
            }
            joined.push(b'/')?;
            rest = behind;
        }
    }
    Ok(joined)
}

#[test]
fn lines_and_words(rt: HostRuntime) -> Result<(), Fail> {
    assert!(rt; shown(&rt, b"")?.as_slice() == b"".as_slice());
    assert!(rt; shown(&rt, b"\n   ")?.as_slice() == b"//".as_slice());
    assert!(rt; shown(&rt, b"a\n\n")?.as_slice() == b"a|//".as_slice());
    assert!(rt; shown(&rt, b" a  bc \nd")?.as_slice() == b"a|bc|/d|/".as_slice());
    assert!(rt; shown(&rt, b"ab\r\n\rc\r\r")?.as_slice() == b"ab|/\rc\r|/".as_slice());
    Ok(())
}

/// Numbers and names at their limits, and words behind them that are none.
#[test]
fn numbers_and_names(rt: HostRuntime) {
    assert!(rt; word_number(b"0000000007") == Some(7));
    assert!(rt; word_number(b"4294967295") == Some(4_294_967_295));
    for word in "4294967296 00000000007 9999999999 +1 1a".split(' ') {
        assert!(rt; word_number(word.as_bytes()).is_none());
    }
    for word in "a z_9 a234567890123456".split(' ') {
        assert!(rt; word_name(word.as_bytes()));
    }
    for word in "a2345678901234567 _a 9a aB".split(' ') {
        assert!(rt; !word_name(word.as_bytes()));
    }
}

#[test]
fn bytes(rt: HostRuntime) -> Result<(), Fail> {
    for word in "4141 41*2 41*0000000002".split(' ') {
        assert!(rt; word_data(rt.alloc(), word.as_bytes())?.as_slice() == b"AA".as_slice());
    }
    assert!(rt; word_data(rt.alloc(), b"-")?.as_slice().is_empty());
    assert!(rt; word_data(rt.alloc(), b"aFf0*0").is_err());
    assert!(rt; word_data(rt.alloc(), b"00*16777216").is_ok());
    for word in "0 0g 000 00* 0*1 00*4294967296 00*00000000001 zz*16777217".split(' ') {
        let read = word_data(rt.alloc(), word.as_bytes());
        assert!(rt; matches!(read, Err(DataError::Data)));
    }
    for word in "00*16777217 00*4294967295".split(' ') {
        let read = word_data(rt.alloc(), word.as_bytes());
        assert!(rt; matches!(read, Err(DataError::Field)));
    }
    Ok(())
}
