//! A range, cut at the ends of the blocks.
ghost use Rattle.std.specs.Prelude.{◌≡◌, ◌+◌, ◌≤◌};
ghost use Rattle.cod_types.specs.Limits.{segment_length};
ghost use Rattle.cod_layout.specs.Parts.{parts_of, IsSplit};

use crate::{Part, Parts};
use cod_types::Geometry;

/// The parts of the `len` bytes of a segment from `off` on: one for each block that they meet, in order, none of them empty.
/// A range of no bytes has no part. It takes no memory.
pub fn split_range(g: &Geometry, off: u32, len: u32) -> Parts
    requires { off + len ≤ segment_length g.now }
    ensures value { result ≡ parts_of g.now.k g.now.block off len }
    ensures split { IsSplit g.now.k g.now.block off len result }
{
    let bytes = g.bytes();
    prove!(off as u64 + len as u64 <= bytes as u64);
    let end = off + len;
    let size = g.block();
    let mut parts = Parts::new();
    for block in 0..g.k() {
        let base = block as u32 * size;
        let from = off.max(base);
        let to = end.min(base + size);
        if from < to {
            parts.push(Part {
                block,
                off: from - base,
                len: to - from,
            });
        }
    }
    parts
}
