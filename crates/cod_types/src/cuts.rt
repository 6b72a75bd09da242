//! How many updates of each data block are committed.
ghost use Rattle.std.specs.Prelude.{◌≡◌, ◌+◌, ◌-◌, ◌<◌, ◌^◌, replicate, slice_index, slice_set};

use std::marker::Model;

/// The number of committed updates of each of sixteen data blocks, seen as a list.
#[derive(Clone, Copy, Debug)]
pub struct Cuts {
    counts: [u64; 16],
}

impl Model for Cuts {
    ghost use Rattle.std.specs.Prelude.{List, ℕ};

    ghost Value = { List ℕ };

    ghost view = { λ c. c.counts };

    ghost inverse = { λ c. record { counts = c } };
}

impl Cuts {
    /// No update is committed.
    pub fn new() -> Cuts
        ensures { result ≡ replicate 16 0 }
    {
        Cuts { counts: [0; 16] }
    }

    /// So many updates of each block are committed.
    pub fn from_counts(counts: [u64; 16]) -> Cuts
        ensures { result ≡ counts }
    {
        Cuts { counts }
    }

    /// The number of committed updates of the block.
    pub fn get(&self, block: u8) -> u64
        requires { block < 16 }
        ensures { result ≡ slice_index self.now block }
    {
        self.counts[block as usize]
    }

    /// One committed update more.
    pub fn raise(&mut self, block: u8)
        requires block { block < 16 }
        requires room { slice_index self.old block < 2 ^ 64 - 1 }
        ensures { self.new ≡ slice_set self.old block (slice_index self.old block + 1) }
    {
        self.counts[block as usize] += 1;
    }
}
