use crate::{
    add, add_all_scaled, add_scaled, add_scaled_to_both, set_all_scaled, set_all_scaled_to_both,
    set_scaled,
};
use cod_field::mul;

const SCALARS: [u8; 5] = [0, 1, 2, 0x1d, 0xff];

const OTHERS: [u8; 5] = [0x8e, 0, 0xb7, 1, 0x53];

/// Each place by `step` more than the one before, beginning at `from`.
fn filled(step: u8, from: u8) -> [u8; 200] {
    let mut bytes = [0; 200];
    let mut next = from;
    for byte in bytes.iter_mut() {
        *byte = next;
        next = next.wrapping_add(step);
    }
    bytes
}

#[test]
fn every_length(rt: HostRuntime) {
    let src = filled(7, 0);
    let start = filled(91, 5);
    let other = filled(57, 9);
    for len in 0..=200usize {
        let mut dst = start;
        add(&mut dst[..len], &src[..len]);
        for i in 0..200usize {
            let want = if i < len { start[i] ^ src[i] } else { start[i] };
            assert!(rt; dst[i] == want);
        }
        for j in 0..5usize {
            let c = SCALARS[j];
            let d = OTHERS[j];
            let mut dst = start;
            add_scaled(&mut dst[..len], c, &src[..len]);
            let mut set = start;
            set_scaled(&mut set[..len], c, &src[..len]);
            let mut first = start;
            let mut second = other;
            add_scaled_to_both(&mut first[..len], c, &mut second[..len], d, &src[..len]);
            for i in 0..200usize {
                let change = if i < len { mul(c, src[i]) } else { 0 };
                let further = if i < len { mul(d, src[i]) } else { 0 };
                let want = if i < len { change } else { start[i] };
                assert!(rt; dst[i] == start[i] ^ change);
                assert!(rt; set[i] == want);
                assert!(rt; first[i] == start[i] ^ change);
                assert!(rt; second[i] == other[i] ^ further);
            }
        }
    }
}

#[test]
fn every_count_of_sources(rt: HostRuntime) {
    let start = filled(91, 5);
    let other = filled(57, 9);
    let blocks = [
        filled(7, 0),
        filled(11, 1),
        filled(13, 2),
        filled(17, 3),
        filled(19, 4),
    ];
    for len in [
        0, 1, 15, 16, 17, 31, 32, 33, 47, 63, 64, 65, 95, 96, 100, 128, 150, 200usize,
    ] {
        let sources = [
            &blocks[0][..len],
            &blocks[1][..len],
            &blocks[2][..len],
            &blocks[3][..len],
            &blocks[4][..len],
        ];
        for count in 0..=5usize {
            let mut dst = start;
            add_all_scaled(&mut dst[..len], &SCALARS[..count], &sources[..count]);
            let mut set = start;
            set_all_scaled(&mut set[..len], &SCALARS[..count], &sources[..count]);
            let mut first = start;
            let mut second = other;
            set_all_scaled_to_both(
                &mut first[..len],
                &SCALARS[..count],
                &mut second[..len],
                &OTHERS[..count],
                &sources[..count],
            );
            for i in 0..200usize {
                let mut sum = 0;
                let mut further = 0;
                for j in 0..count {
                    if i < len {
                        sum ^= mul(SCALARS[j], blocks[j][i]);
                        further ^= mul(OTHERS[j], blocks[j][i]);
                    }
                }
                let want = if i < len { sum } else { start[i] };
                let want_second = if i < len { further } else { other[i] };
                assert!(rt; dst[i] == start[i] ^ sum);
                assert!(rt; set[i] == want);
                assert!(rt; first[i] == want);
                assert!(rt; second[i] == want_second);
            }
        }
    }
}
