use super::*;
use cod_types::Geometry;

// Three blocks of four bytes: the last byte of the first block, the second block, and the first byte of the third.
#[test]
fn cuts_at_the_ends_of_blocks(rt: HostRuntime) {
    if let Ok(g) = Geometry::new(5, 3, 4, 12, 93, 1, 5000) {
        if g.bytes() == 12 {
            let parts = split_range(&g, 3, 6);
            let all = parts.as_slice();
            assert!(rt; all.len() == 3);
            assert!(rt; all[0].block == 0 && all[0].off == 3 && all[0].len == 1);
            assert!(rt; all[1].block == 1 && all[1].off == 0 && all[1].len == 4);
            assert!(rt; all[2].block == 2 && all[2].off == 0 && all[2].len == 1);
            assert!(rt; split_range(&g, 4, 0).is_empty());
        }
    }
}

// A segment of sixteen blocks, each of one byte, has no more than sixteen parts.
#[test]
fn has_a_part_for_each_of_sixteen(rt: HostRuntime) {
    if let Ok(g) = Geometry::new(16, 16, 1, 16, 560, 1, 5000) {
        if g.bytes() == 16 {
            let parts = split_range(&g, 0, 16);
            assert!(rt; parts.len() == 16);
            assert!(rt; parts.iter().all(|part| part.off == 0 && part.len == 1));
        }
    }
}
