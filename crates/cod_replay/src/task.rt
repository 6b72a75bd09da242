//! What a line is to do.

use cod_claims::Slip;
use cod_types::{NodeId, SegId};

/// What a line is to do, with the memory for it, until it is done.
#[derive(Drop)]
pub(crate) enum Task {
    /// A call of a segment.
    Call { seg: SegId, slip: Slip },
    /// The failure of a node, with the line's number in the scenario.
    Fail { line: u32, node: NodeId },
    /// It is done.
    Done,
}

/// What a client is to do next.
#[derive(Clone, Copy, Debug)]
pub(crate) enum Due {
    /// It has no line left.
    Nothing,
    /// An event of its call of this segment.
    Call { seg: SegId },
    /// The failure of a node, by the line of this number.
    Fail { line: u32, node: NodeId },
}
