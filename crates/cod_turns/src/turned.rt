//! What a turn came to.
use cod_types::Caller;

/// What a turn of a client came to.
#[derive(Clone, Copy, Debug, PartialEq, Eq)]
pub enum Turned {
    /// The client had no line left.
    Ended,
    /// Its line was the failure of a node.
    Killed,
    /// Its call waits for the call of this number that this other caller has open.
    Held { owner: Caller, number: u32 },
    /// Its call goes on.
    Moved,
    /// Its call was answered: its entry has this place in the segment's chronicle, from 0 on, and this stamp.
    Answered { position: u64, stamp: u64 },
}
