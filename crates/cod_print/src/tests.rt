use super::*;
use cod_io::{MemSink, Sink};
use std::test::Fail;

#[test]
fn each_piece(rt: HostRuntime) -> Result<(), Fail> {
    let long = [0xabu8; 70];
    let mut sink = MemSink::new(rt.alloc(), 300, &[])?;
    let written = pieces(
        &mut sink,
        &[
            Piece::Text(b"x "),
            Piece::Number(18_446_744_073_709_551_615),
            Piece::Hex(b""),
            Piece::Hex(&long[..33]),
            Piece::Data(b""),
            Piece::Data(&long[..1]),
            Piece::Data(&long),
            Piece::Data(b"\x00\x00\x01"),
        ],
    );
    assert!(rt; written.is_ok());
    let want =
        "x 18446744073709551615-ababababababababababababababababababababababababababababababababab-abab*70000001";
    assert_eq!(rt; sink.bytes(), want.as_bytes());
    Ok(())
}

/// Whichever call of the sink fails, a front of the text was taken.
#[test]
fn sink_that_fails(rt: HostRuntime) -> Result<(), Fail> {
    for call in 0..6u64 {
        let mut sink = MemSink::new(rt.alloc(), 20, &[call])?;
        let written = pieces(
            &mut sink,
            &[
                Piece::Text(b"put "),
                Piece::Data(b"\x05\x05\x05"),
                Piece::Text(b"\n"),
            ],
        );
        assert_eq!(rt; written.is_ok(), call == 5);
        assert!(rt; b"put 05*3\n".starts_with(sink.bytes()));
        assert_eq!(rt; sink.faults() == 0, call == 5);
    }
    Ok(())
}
