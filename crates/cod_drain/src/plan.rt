//! What a column needs at its new place.

ghost use Rattle.std.specs.Prelude.{◌≡◌, ◌<◌, ◌≤◌};
ghost use Rattle.cod_seg.specs.Seg.{col_at};
ghost use Rattle.cod_seg.specs.Sound.{Sound};
ghost use Rattle.cod_drain.specs.Plans.{IsPlan, IsRuled};

use cod_predict::{Policy, Rule, target};
use cod_region::Region;
use cod_segment::Segment;

/// A column's new place: its bytes, and a parity column's size of reserved space and average.
#[derive(Clone, Copy)]
pub(crate) struct Plan {
    pub(crate) col: u8,
    pub(crate) bytes: u32,
    pub(crate) size: u32,
    pub(crate) average: u32,
}

/// What a column needs at its new place.
pub(crate) fn plan_for<R: Region, W: Rule>(
    segment: &Segment<R>,
    col: u8,
    policy: &Policy<W>,
) -> Plan
    requires sound { Sound segment.now }
    requires col { col < segment.now.site.shape.n }
    ensures col { result.col ≡ col }
    ensures plan { IsPlan segment.now.site.shape result }
    ensures ruled { segment.now.site.shape.k ≤ col → IsRuled segment.now.site.shape (W.answer policy.now.rule) (col_at segment.now.cols col).state result }
{
    let block = segment.shape.block();
    if col < segment.shape.k() {
        return Plan {
            col,
            bytes: block,
            size: 0,
            average: 10_000,
        };
    }
    let (appended, size, average) = segment.columns.space(col);
    let used = appended.min(size as u64) as u32;
    let average = policy.next(used, size, average);
    let size = target(&segment.shape, segment.shape.reserve(), average);
    Plan {
        col,
        bytes: block + size,
        size,
        average,
    }
}
