//! What a chronicle is made of.
ghost use Rattle.std.specs.Prelude.{◌≡◌};
ghost use Rattle.cod_chronicle.specs.Said.{stamp_of};

use cod_types::{Call, Caller, NodeId, Reply};

/// Why a column went down.
#[derive(Clone, Copy, Debug, PartialEq, Eq)]
pub enum Cause {
    /// Its node was failed by this line of the scenario, from 1 on.
    Killed(u32),
    /// Its region failed, and had then failed this many times, 1 or more.
    Fault(u64),
}

/// What happened to a segment, and when: a call that was answered, or a mark on a column. Stamps are greater than those
/// of all that the entry's maker knew of, up to 2^64 - 1.
#[derive(Debug, Drop)]
pub enum Entry {
    /// A caller's call, by its number among that caller's, was answered.
    Call {
        caller: Caller,
        number: u32,
        stamp: u64,
        call: Call,
        reply: Reply,
    },
    /// A column went down on the node that it was on.
    Down {
        stamp: u64,
        col: u8,
        node: NodeId,
        cause: Cause,
    },
    /// A column that was down came up on another node.
    Up {
        stamp: u64,
        col: u8,
        node: NodeId,
    },
    /// A live column moved to another node.
    Move {
        stamp: u64,
        col: u8,
        node: NodeId,
    },
}

impl Entry {
    /// Its stamp.
    pub fn stamp(&self) -> u64
        ensures { result ≡ stamp_of self.now }
    {
        match self {
            Entry::Call { stamp, .. }
            | Entry::Down { stamp, .. }
            | Entry::Up { stamp, .. }
            | Entry::Move { stamp, .. } => *stamp,
        }
    }
}
