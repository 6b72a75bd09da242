//! A line of a client.
use cod_types::{Call, NodeId, SegId};

/// What a line of a client is to do.
#[derive(Debug, Drop)]
pub enum What {
    /// A call of a segment.
    Segment { seg: SegId, call: Call },
    /// The failure of a node.
    Fail { node: NodeId },
}

/// A line of a client, with its number in the text, from 1 on.
#[derive(Debug, Drop)]
pub struct Line {
    pub line: u32,
    pub what: What,
}
