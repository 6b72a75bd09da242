//! Names in the order of their lines.
ghost use Rattle.std.specs.Prelude.{◌≡◌, ◌<◌, ◌≤◌, ◌^◌, ◌++◌, ◌∷◌, [], map, length, OnOk, OnErr, false};
ghost use Rattle.std.specs.List.{position, list_any};
ghost use Rattle.std.specs.Str.{bytes_eq};

use indexmap::IndexSet;
use std::alloc::{AllocError, AllocFailed, Global};
use std::marker::Model;

#[derive(Drop)]
pub struct Names {
    set: IndexSet<Vec<u8>>,
}

impl Model for Names {
    ghost use Rattle.std.specs.Prelude.{List, ℕ, map, length, ◌≤◌};

    ghost Value = { List (List ℕ) };

    ghost view = { λ n. map (λ k. k.items) n.set.keys };

    ghost invariant = { λ n. length n.set.keys ≤ 1024 };
}

impl Names {
    pub fn new(alloc: Global) -> Names
        ensures { result ≡ [] }
    {
        Names {
            set: IndexSet::new(alloc),
        }
    }

    pub fn len(&self) -> usize
        ensures value { result ≡ length self.now }
        ensures most { result ≤ 1024 }
    {
        self.set.len()
    }

    /// The number of a name.
    pub fn find(&self, name: &[u8]) -> Option<u32>
        ensures { result ≡ position (bytes_eq name.now) self.now }
    {
        match self.set.get_index_of(name) {
            Some(i) => Some(i as u32),
            None => None,
        }
    }

    pub fn contains(&self, name: &[u8]) -> bool
        ensures { result ≡ list_any (bytes_eq name.now) self.now }
    {
        self.set.contains(name)
    }

    /// Adds a name that is not there.
    pub fn push(&mut self, alloc: Global, name: &[u8]) -> Result<(), AllocError>
        requires absent { list_any (bytes_eq name.now) self.old ≡ false }
        requires room { length self.old < 1024 }
        ensures added { OnOk result (self.new ≡ self.old ++ name.now ∷ []) }
        ensures kept { OnErr result (self.new ≡ self.old) }
    {
        let name = Vec::from_slice(alloc, name)?;
        self.set.insert(name)?;
        Ok(())
    }
}
