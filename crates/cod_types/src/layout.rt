//! What is printed of a column.
use crate::{NodeId, SegId};

/// What a parity column has besides.
#[derive(Clone, Copy, Debug, PartialEq, Eq)]
pub struct ParityLine {
    /// The bytes of its records.
    pub used: u32,
    /// The moving average of its use, in ten-thousandths.
    pub avg: u32,
}

/// A column of a segment, where it is and what its region has seen.
#[derive(Clone, Copy, Debug, PartialEq, Eq)]
pub struct LayoutLine {
    pub seg: SegId,
    pub col: u8,
    pub node: NodeId,
    pub up: bool,
    /// The bytes of its region.
    pub len: u32,
    /// None for a data column.
    pub parity: Option<ParityLine>,
    pub reads: u64,
    pub writes: u64,
}
