use super::Code;
use cod_field::mul;

/// The sum of the bytes, each times its coefficient.
fn sum(row: &[u8; 16], bytes: &[u8; 16]) -> u8 {
    let mut total = 0;
    for j in 0..16 {
        total ^= mul(row[j], bytes[j]);
    }
    total
}

/// A row or a word that begins with these bytes, and has zeros after them.
fn padded(bytes: [u8; 4]) -> [u8; 16] {
    let mut all = [0; 16];
    all[0] = bytes[0];
    all[1] = bytes[1];
    all[2] = bytes[2];
    all[3] = bytes[3];
    all
}

#[test]
fn coefficients(rt: HostRuntime) {
    let one = Code::new(3, 1);
    let two = Code::new(4, 2);
    let four = Code::new(6, 4);
    let rows: [([u8; 16], [u8; 4]); 8] = [
        (one.row(1), [0x01, 0, 0, 0]),
        (one.row(2), [0x01, 0, 0, 0]),
        (two.row(2), [0x03, 0x02, 0, 0]),
        (two.row(3), [0x02, 0x03, 0, 0]),
        (four.row(4), [0x1b, 0x1c, 0x12, 0x14]),
        (four.row(5), [0x1c, 0x1b, 0x14, 0x12]),
        (four.row(1), [0, 1, 0, 0]),
        (four.row(3), [0, 0, 0, 1]),
    ];
    for (row, want) in rows {
        assert_eq!(rt; row, padded(want));
    }
}

#[test]
fn decoding_rows(rt: HostRuntime) {
    let code = Code::new(4, 2);
    // Data 01 and 02 have the parities 07 and 04.
    let word = padded([0x01, 0x02, 0x07, 0x04]);
    let cases: [(u16, u8, [u8; 4]); 3] = [
        (0b0110, 0, [0, 0xf5, 0xf4, 0]),
        (0b1100, 0, [0, 0, 0x03, 0x02]),
        (0b1100, 1, [0, 0, 0x02, 0x03]),
    ];
    for (sources, wanted, want) in cases {
        if sources.count_ones() == 2 && sources < 16 && wanted < 4 {
            let row = code.decode_row(sources, wanted);
            assert_eq!(rt; row, padded(want));
            assert_eq!(rt; sum(&row, &word), word[wanted as usize]);
        } else {
            assert!(rt; false, "no case");
        }
    }
}

#[test]
fn parities(rt: HostRuntime) {
    let code = Code::new(4, 2);
    let cases: [([u8; 4], u8, u8); 2] = [
        ([0x01, 0x02, 0, 0], 0x07, 0x04),
        ([0x05, 0x06, 0, 0], 0x03, 0x00),
    ];
    for (data, first, second) in cases {
        assert_eq!(rt; sum(&code.row(2), &padded(data)), first);
        assert_eq!(rt; sum(&code.row(3), &padded(data)), second);
    }
}
