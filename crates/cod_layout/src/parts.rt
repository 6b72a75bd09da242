//! A few parts of a segment, in order.
ghost use Rattle.std.specs.Prelude.{◌≡◌, ◌<◌, ◌≤◌, ◌↔◌, IsTrue, [], ◌∷◌, ◌++◌, length};
ghost use Rattle.std.specs.Slice.Iter.{iter_rest};

use std::marker::Model;
use std::slice;

/// The most blocks that a segment has, and so the most parts.
const MOST: usize = 16;

/// A range of one block.
#[derive(Clone, Copy, Debug, PartialEq, Eq)]
pub struct Part {
    /// The number of the block, from 0.
    pub block: u8,
    /// The place in the block where the part begins.
    pub off: u32,
    /// The part's bytes.
    pub len: u32,
}

/// At most 16 parts, seen as a list. It takes no memory.
#[derive(Debug, Drop)]
pub struct Parts {
    slots: [Part; MOST],
    used: usize,
}

impl Model for Parts {
    ghost use Rattle.std.specs.Prelude.{◌≤◌, List, take};
    ghost use Rattle.cod_layout.specs.declared.parts.Part.{Part};

    ghost Value = { List Part };

    ghost view = { λ p. take p.used p.slots };

    ghost invariant = { λ p. p.used ≤ 16 };
}

impl Parts {
    /// No part.
    pub(crate) fn new() -> Parts
        ensures { result ≡ [] }
    {
        let none = Part {
            block: 0,
            off: 0,
            len: 0,
        };
        Parts {
            slots: [none; MOST],
            used: 0,
        }
    }

    /// One part more.
    pub(crate) fn push(&mut self, part: Part)
        requires { length self.old < 16 }
        ensures { self.new ≡ self.old ++ part ∷ [] }
    {
        self.slots[self.used] = part;
        self.used += 1;
    }

    /// How many parts there are, at most 16.
    pub fn len(&self) -> usize
        ensures value { result ≡ length self.now }
        ensures most { result ≤ 16 }
    {
        self.as_slice().len()
    }

    /// Whether there is no part.
    pub fn is_empty(&self) -> bool
        ensures { IsTrue result ↔ (self.now ≡ []) }
    {
        self.as_slice().is_empty()
    }

    /// The parts in order, to be read; at most 16.
    pub fn as_slice(&self) -> &[Part]
        ensures value { result.now ≡ self.now }
        ensures most { length self.now ≤ 16 }
    {
        &self.slots[..self.used]
    }

    /// Goes over the parts in order.
    pub fn iter(&self) -> slice::Iter<'_, Part>
        ensures { iter_rest result ≡ self.now }
    {
        self.as_slice().iter()
    }
}

impl<'a> IntoIterator for &'a Parts {
    type Item = &'a Part;

    type IntoIter = slice::Iter<'a, Part>;

    ghost into_iter_gives = { λ parts it. iter_rest it ≡ parts.now };

    fn into_iter(self) -> Self::IntoIter {
        self.iter()
    }
}
