//! Regions in memory, which never fail.
ghost use Rattle.std.specs.Prelude.{◌≡◌, ◌≢◌, ◌+◌, ◌<◌, ◌≤◌, length, true, refl, replicate, IfOk};
ghost use Rattle.cod_types.specs.Faults.{bump};
ghost use Rattle.cod_region.specs.Memory.{memory_device};
ghost use Rattle.cod_region.specs.Laws.{same_length};
ghost use Rattle.std.proofs.Common.{rules};

use crate::{Region, Shelf};
use cod_types::{Failed, NodeId, OutOfMemory};
use std::alloc::Global;
use std::marker::Model;

/// A region in memory. It tells what it holds, and never fails.
#[derive(Debug, Drop)]
pub struct MemRegion {
    bytes: Vec<u8>,
    reads: u64,
    writes: u64,
}

impl Model for MemRegion {
    ghost use Rattle.std.specs.Prelude.{◌<◌, ◌^◌, vec_len};
    ghost use Rattle.cod_region.specs.Memory.{Held};

    ghost Value = { Held };

    ghost view = { λ r. record { bytes = r.bytes.items; reads = r.reads; writes = r.writes } };

    ghost invariant = { λ r. vec_len r.bytes < 2 ^ 32 };
}

impl MemRegion {
    /// So many zeros.
    pub(crate) fn zeros(alloc: Global, len: u32) -> Result<MemRegion, OutOfMemory>
        ensures { IfOk result (λ r. r ≡ record { bytes = replicate len 0; reads = 0; writes = 0 }) }
    {
        Ok(MemRegion {
            bytes: vec![in alloc; 0; len as usize]?,
            reads: 0,
            writes: 0,
        })
    }

    /// Counts a read.
    pub(crate) fn count_read(&mut self)
        ensures { self.new ≡ record self.old { reads = bump self.old.reads } }
    {
        self.reads = self.reads.saturating_add(1);
    }

    /// Counts a write.
    pub(crate) fn count_write(&mut self)
        ensures { self.new ≡ record self.old { writes = bump self.old.writes } }
    {
        self.writes = self.writes.saturating_add(1);
    }
}

impl Region for MemRegion {
    ghost device = { memory_device };

    ghost tells = { true };

    ghost whole = { λ r held is. same_length r.bytes held is };

    ghost telling = { λ r. refl };

    ghost reliable = { λ r sure. refl };

    fn len(&self) -> u32 {
        self.bytes.len() as u32
    }

    fn reads(&self) -> u64 {
        self.reads
    }

    fn writes(&self) -> u64 {
        self.writes
    }

    fn faults(&self) -> u64 {
        0
    }

    fn read_at(&mut self, off: u32, into: &mut [u8]) -> Result<(), Failed> {
        self.count_read();
        let off = off as usize;
        into.copy_from_slice(&self.bytes[off..off + into.len()]);
        Ok(())
    }

    fn fetch(&mut self, _off: u32, _len: usize) -> Result<(), Failed> {
        self.count_read();
        Ok(())
    }

    fn lent(&self, off: u32, len: usize) -> &[u8] {
        let off = off as usize;
        &self.bytes[off..off + len]
    }

    fn write_at(&mut self, off: u32, from: &[u8]) -> Result<(), Failed> {
        self.count_write();
        let off = off as usize;
        self.bytes[off..off + from.len()].copy_from_slice(from);
        Ok(())
    }

    fn cut(&mut self, len: u32) -> Result<(), Failed> {
        self.bytes.truncate(len as usize);
        Ok(())
    }
}

/// A shelf of regions in memory. It never fails.
#[derive(Clone, Copy, Debug)]
pub struct MemShelf {}

impl MemShelf {
    /// The shelf; there is but one.
    pub fn new() -> MemShelf {
        MemShelf {}
    }
}

impl Shelf for MemShelf {
    type Region = MemRegion;

    ghost regions = { λ _. record { tell = true; never_fail = λ _. true } };

    ghost telling = { λ _. refl };

    fn region(&self, alloc: Global, _node: NodeId, len: u32) -> Result<MemRegion, OutOfMemory> {
        MemRegion::zeros(alloc, len)
    }

    fn may_fail(&self, _node: NodeId) -> bool {
        false
    }
}
