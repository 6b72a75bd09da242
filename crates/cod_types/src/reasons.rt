//! Why no node can be a spare.
ghost use Rattle.std.specs.Prelude.{◌≡◌, ◌<◌, ◌≤◌, [], ◌∷◌, ◌++◌, length, IfOk};

use crate::{NodeId, OutOfMemory};
use std::alloc::Global;
use std::marker::Model;

/// The most nodes that there are, and so the most reasons.
const MOST: usize = 64;

/// Why a node can't take a column.
#[derive(Clone, Copy, Debug, PartialEq, Eq)]
pub enum Why {
    /// It is down, by the failure of this line.
    Down(u32),
    /// It has so many free bytes, fewer than needed.
    Free(u32),
    /// A region that the call had there came to this count of faults.
    Fault(u64),
}

/// A node with its reason.
#[derive(Clone, Copy, Debug, PartialEq, Eq)]
pub struct Reason {
    pub node: NodeId,
    pub why: Why,
}

/// At most 64 reasons, seen as a list. All their memory is taken when they are made.
#[derive(Debug, Drop)]
pub struct Reasons {
    items: Vec<Reason>,
}

impl Model for Reasons {
    ghost use Rattle.std.specs.Prelude.{◌≤◌, List, vec_len, vec_capacity};
    ghost use Rattle.cod_types.specs.declared.reasons.Reason.{Reason};

    ghost Value = { List Reason };

    ghost view = { λ b. b.items.items };

    ghost invariant = { λ b. (vec_len b.items ≤ 64) × (64 ≤ vec_capacity b.items) };
}

impl Reasons {
    /// No reason yet, with room for 64.
    pub fn new(alloc: Global) -> Result<Reasons, OutOfMemory>
        ensures { IfOk result (λ r. r ≡ []) }
    {
        Ok(Reasons {
            items: Vec::with_capacity(alloc, MOST)?,
        })
    }

    /// One reason more, without memory.
    pub fn push(&mut self, reason: Reason)
        requires { length self.old < 64 }
        ensures { self.new ≡ self.old ++ reason ∷ [] }
    {
        match self.items.push(reason) {
            Ok(()) => {}
            Err(_) => unreachable!(),
        }
    }

    /// Lets all reasons go.
    pub fn clear(&mut self)
        ensures { self.new ≡ [] }
    {
        self.items.clear();
    }

    /// The reasons, to be read; at most 64.
    pub fn as_slice(&self) -> &[Reason]
        ensures same { result.now ≡ self.now }
        ensures most { length self.now ≤ 64 }
    {
        self.items.as_slice()
    }
}
