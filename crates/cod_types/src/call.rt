//! What a caller asks of a segment, and what it is told.
use crate::{Bytes, Reasons};

/// A segment, by its number from 0 on.
#[derive(Clone, Copy, Debug, PartialEq, Eq)]
pub struct SegId(pub u32);

/// A node, by its number from 0 on.
#[derive(Clone, Copy, Debug, PartialEq, Eq)]
pub struct NodeId(pub u8);

/// A caller, by its number from 0 on.
#[derive(Clone, Copy, Debug, PartialEq, Eq)]
pub struct Caller(pub u32);

/// A call of a segment.
#[derive(Clone, Debug, Drop)]
pub enum Call {
    /// The `len` bytes from `off` on.
    Read { off: u32, len: u32 },
    /// Replaces the bytes from `off` on.
    Write { off: u32, bytes: Bytes },
    /// Replaces the bytes from `off` on by `new` where they are `old`.
    Swap { off: u32, old: Bytes, new: Bytes },
    /// Replaces all bytes of the segment.
    Put { bytes: Bytes },
    /// Folds the records of committed updates into the parity blocks.
    Merge,
    /// Folds as `Merge` does, and then gives back reserved space that is seldom used.
    Tick,
    /// Brings the lowest column that is down to a spare node.
    Rebuild,
    /// From now on records are written in version 2.
    Upgrade,
    /// Moves the segment's live column off a node.
    Drain { node: NodeId },
}

/// What a call is answered.
#[derive(Debug, Drop)]
pub enum Reply {
    /// The bytes that a read asked for.
    Bytes(Bytes),
    /// The call was done.
    Done,
    /// The range passes the segment's end.
    Range,
    /// The bytes are more than an update may have, or not as many as they have to be.
    Long,
    /// More columns are down than the parity columns can stand for.
    Lost,
    /// A rebuild found no column down.
    Whole,
    /// A rebuild brought this column to this node.
    Rebuilt { col: u8, node: NodeId },
    /// No node can take the column, each for its reason.
    NoSpare(Reasons),
    /// There was no memory for the new region.
    NoMem,
    /// A swap found these bytes in the place of the old ones.
    Differs(Bytes),
    /// A drain moved this column to this node.
    Shifted { col: u8, node: NodeId },
    /// A drain found no live column on the node.
    Clear,
}
