//! Regions in memory that fail at the calls that they are told to.
ghost use Rattle.std.specs.Prelude.{◌≡◌, ◌==◌, ◌+◌, ◌<◌, ◌≤◌, ◌↔◌, length, take, drop, replicate, refl, true, nat_eq, IfOk, OnErr, OnOk, IsErr, IsTrue};
ghost use Rattle.std.specs.List.{list_any};
ghost use Rattle.cod_types.specs.Faults.{bump, HasCause};
ghost use Rattle.cod_types.specs.Overwritten.{overwritten};
ghost use Rattle.cod_region.specs.Memory.{called, calls_of, flawed_device, is_due};
ghost use Rattle.cod_region.specs.Laws.{same_length, no_fault};

use crate::{MemRegion, Region, Shelf};
use cod_types::{Failed, NodeId, OutOfMemory};
use std::alloc::Global;
use std::marker::Model;

/// A region in memory that tells what it holds, and fails exactly at the calls that are listed. A call that fails
/// changes no byte.
#[derive(Debug, Drop)]
pub struct FaultyRegion {
    held: MemRegion,
    fails: Vec<u64>,
    calls: u64,
    faults: u64,
}

impl Model for FaultyRegion {
    ghost use Rattle.cod_region.specs.Memory.{Flawed};

    ghost Value = { Flawed };

    ghost view = { λ r. record { held = r.held; fails = r.fails.items; calls = r.calls; faults = r.faults } };
}

impl FaultyRegion {
    /// Counts a call, and a fault where this call is to fail, which is the answer.
    fn fails_next(&mut self) -> bool
        ensures due { result ≡ is_due self.old }
        ensures later { self.old.faults ≤ self.new.faults }
        ensures counted { self.new ≡ called self.old }
    {
        let due = self.fails.contains(&self.calls);
        self.calls = self.calls.saturating_add(1);
        if due {
            self.faults = self.faults.saturating_add(1);
        }
        due
    }
}

impl Region for FaultyRegion {
    ghost device = { flawed_device };

    ghost tells = { true };

    ghost whole = { λ r held is. same_length r.held.bytes held is };

    ghost telling = { λ r. refl };

    ghost reliable = { λ r sure. no_fault (length r.fails == 0) r.faults sure };

    fn len(&self) -> u32 {
        self.held.len()
    }

    fn reads(&self) -> u64 {
        self.held.reads()
    }

    fn writes(&self) -> u64 {
        self.held.writes()
    }

    fn faults(&self) -> u64 {
        self.faults
    }

    fn read_at(&mut self, off: u32, into: &mut [u8]) -> Result<(), Failed>
        requires { off + length into.old ≤ length self.old.held.bytes }
        ensures bytes { OnOk result (into.new ≡ take (length into.new) (drop off self.old.held.bytes)) }
        ensures cause { HasCause self.old.faults self.new.faults result }

        ensures listed { IsErr result ↔ IsTrue (is_due self.old) }
        ensures state { self.new ≡ record (called self.old) { held = record self.old.held { reads = bump self.old.held.reads } } }
    {
        if self.fails_next() {
            self.held.count_read();
            return Err(Failed);
        }
        self.held.read_at(off, into)
    }

    fn fetch(&mut self, off: u32, len: usize) -> Result<(), Failed>
        requires { off + len ≤ length self.old.held.bytes }
        ensures cause { HasCause self.old.faults self.new.faults result }

        ensures listed { IsErr result ↔ IsTrue (is_due self.old) }
        ensures state { self.new ≡ record (called self.old) { held = record self.old.held { reads = bump self.old.held.reads } } }
    {
        if self.fails_next() {
            self.held.count_read();
            return Err(Failed);
        }
        self.held.fetch(off, len)
    }

    fn lent(&self, off: u32, len: usize) -> &[u8] {
        self.held.lent(off, len)
    }

    fn write_at(&mut self, off: u32, from: &[u8]) -> Result<(), Failed>
        requires { off + length from.now ≤ length self.old.held.bytes }
        ensures cause { HasCause self.old.faults self.new.faults result }

        ensures listed { IsErr result ↔ IsTrue (is_due self.old) }
        ensures done { OnOk result (self.new ≡ record
            (called self.old) { held = record self.old.held { bytes = overwritten off from.now self.old.held.bytes; writes = bump self.old.held.writes } }) }
        ensures failed { OnErr result (self.new ≡ record (called self.old) { held = record self.old.held { writes = bump self.old.held.writes } }) }
    {
        if self.fails_next() {
            self.held.count_write();
            return Err(Failed);
        }
        self.held.write_at(off, from)
    }

    fn cut(&mut self, len: u32) -> Result<(), Failed>
        requires { len ≤ length self.old.held.bytes }
        ensures cause { HasCause self.old.faults self.new.faults result }

        ensures listed { IsErr result ↔ IsTrue (is_due self.old) }
        ensures done { OnOk result (self.new ≡ record (called self.old) { held = record self.old.held { bytes = take len self.old.held.bytes } }) }
        ensures failed { OnErr result (self.new ≡ called self.old) }
    {
        if self.fails_next() {
            return Err(Failed);
        }
        self.held.cut(len)
    }
}

/// A shelf of regions in memory that fail at the calls that are listed with their nodes, and so never on any other.
#[derive(Debug, Drop)]
pub struct FaultyShelf {
    faults: Vec<(NodeId, u64)>,
}

impl Model for FaultyShelf {
    ghost use Rattle.std.specs.Prelude.{List, ℕ};
    ghost use Rattle.cod_types.specs.declared.call.NodeId.{NodeId};

    ghost Value = { List (NodeId × ℕ) };

    ghost view = { λ s. s.faults.items };
}

impl FaultyShelf {
    /// Each region on a node fails at those of its calls that are listed with it: its reads, writes and cuts, counted
    /// together from 0.
    pub fn new(alloc: Global, faults: &[(NodeId, u64)]) -> Result<FaultyShelf, OutOfMemory>
        ensures { IfOk result (λ s. s ≡ faults.now) }
    {
        Ok(FaultyShelf {
            faults: Vec::from_slice(alloc, faults)?,
        })
    }

    /// Whether some call is listed with a node.
    fn has_fault(&self, node: NodeId) -> bool
        ensures { result ≡ list_any (λ fault. nat_eq fault.0.0 node.0) self.now }
    {
        self.faults.iter().any(|fault| fault.0 == node)
    }

    /// The calls that are listed with a node.
    fn calls_of(&self, alloc: Global, node: NodeId) -> Result<Vec<u64>, OutOfMemory>
        ensures { IfOk result (λ calls. calls.items ≡ calls_of self.now node) }
    {
        let mut calls = Vec::new(alloc);
        'faults: for fault in &self.faults {
            if fault.0 == node {
                calls.push(fault.1)?;
            }
        }
        Ok(calls)
    }
}

impl Shelf for FaultyShelf {
    type Region = FaultyRegion;

    ghost regions = { λ s. record { tell = true; never_fail = λ node. length (calls_of s node) == 0 } };

    ghost telling = { λ _. refl };

    fn region(&self, alloc: Global, node: NodeId, len: u32) -> Result<FaultyRegion, OutOfMemory>
        ensures { IfOk result
            (λ r. r ≡ record { held = record { bytes = replicate len 0; reads = 0; writes = 0 }; fails = calls_of self.now node; calls = 0; faults = 0 }) }
    {
        Ok(FaultyRegion {
            held: MemRegion::zeros(alloc, len)?,
            fails: self.calls_of(alloc, node)?,
            calls: 0,
            faults: 0,
        })
    }

    fn may_fail(&self, node: NodeId) -> bool {
        self.has_fault(node)
    }
}
