//! A source and a sink in memory, which fail at the calls that they are told to.
ghost use Rattle.std.specs.Prelude.{◌≡◌, ◌-◌, ◌<◌, ◌≤◌, ◌↔◌, ◌⊎◌, ◌++◌, [], length, take, drop, min, Some, IfOk, OnOk, OnErr, IsErr, IsTrue, MatchResult};
ghost use Rattle.std.specs.Io.KnownBytes.{append_known, prepend_known, IsAtEnd};
ghost use Rattle.cod_types.specs.Faults.{bump, HasCause};
ghost use Rattle.cod_io.specs.Mem.{is_listed};

use crate::{Sink, Source};
use cod_types::{Failed, OutOfMemory};
use std::alloc::Global;
use std::marker::Model;

/// A source that hands out bytes of memory, a few in each call, and fails exactly at the calls that are listed.
#[derive(Debug, Drop)]
pub struct MemSource {
    bytes: Vec<u8>,
    at: usize,
    step: u32,
    fails: Vec<u64>,
    calls: u64,
    faults: u64,
}

impl Model for MemSource {
    ghost use Rattle.std.specs.Prelude.{◌≤◌, ◌<◌, drop, vec_len};
    ghost use Rattle.cod_io.specs.Mem.{Supply};

    ghost Value = { Supply };

    ghost view = { λ s. record { left = drop s.at s.bytes.items; step = s.step; fails = s.fails.items; calls = s.calls; faults = s.faults } };

    ghost invariant = { λ s. (s.at ≤ vec_len s.bytes) × (0 < s.step) };
}

impl MemSource {
    /// These bytes, at most `step` in each call; the calls that are listed in `fails`, counted from 0, fail.
    /// No later call takes memory.
    pub fn new(
        alloc: Global,
        bytes: &[u8],
        step: u32,
        fails: &[u64],
    ) -> Result<MemSource, OutOfMemory>
        requires { 1 ≤ step }
        ensures { IfOk result (λ s. s ≡ record { left = bytes.now; step = step; fails = fails.now; calls = 0; faults = 0 }) }
    {
        Ok(MemSource {
            bytes: Vec::from_slice(alloc, bytes)?,
            at: 0,
            step,
            fails: Vec::from_slice(alloc, fails)?,
            calls: 0,
            faults: 0,
        })
    }
}

impl Source for MemSource {
    ghost left = { λ s. Some s.left };

    ghost fault_count = { λ s. s.faults };

    /// As many bytes as are left, fit and the step allows.
    fn read(&mut self, into: &mut [u8]) -> Result<usize, Failed>
        requires { 0 < length into.old }
        ensures count { IfOk result (λ n. n ≤ length into.old) }
        ensures bytes { MatchResult result (λ n. Some self.old.left ≡ prepend_known (take n into.new) (Some self.new.left)) (λ _. self.new.left
            ≡ self.old.left) }
        ensures end { IfOk result (λ n. n ≡ 0 → self.old.left ≡ []) }
        ensures cause { HasCause self.old.faults self.new.faults result }

        ensures listed { IsErr result ↔ IsTrue (is_listed self.old.fails self.old.calls) }
        ensures handed { IfOk result (λ n. (n ≡ min (min (length self.old.left) (length into.old)) self.old.step)
            × (into.new ≡ take n self.old.left ++ drop n into.old)
            × (self.new ≡ record self.old { left = drop n self.old.left; calls = bump self.old.calls })) }
        ensures failed { OnErr result ((into.new ≡ into.old) × (self.new ≡ record self.old { calls = bump self.old.calls; faults = bump self.old.faults })) }
    {
        let listed = self.fails.contains(&self.calls);
        self.calls = self.calls.saturating_add(1);
        if listed {
            self.faults = self.faults.saturating_add(1);
            return Err(Failed);
        }
        let left = self.bytes.len() - self.at;
        let n = left.min(into.len()).min(self.step as usize);
        into[..n].copy_from_slice(&self.bytes[self.at..self.at + n]);
        self.at += n;
        Ok(n)
    }

    fn faults(&self) -> u64 {
        self.faults
    }
}

/// A sink that keeps bytes in memory. It fails exactly at the calls that are listed, writes and flushes together, and where its
/// room is full.
#[derive(Debug, Drop)]
pub struct MemSink {
    bytes: Vec<u8>,
    room: u32,
    fails: Vec<u64>,
    calls: u64,
    faults: u64,
}

impl Model for MemSink {
    ghost use Rattle.std.specs.Prelude.{◌≤◌, vec_len, vec_capacity};
    ghost use Rattle.cod_io.specs.Mem.{Store};

    ghost Value = { Store };

    ghost view = { λ s. record { taken = s.bytes.items; room = s.room; fails = s.fails.items; calls = s.calls; faults = s.faults } };

    ghost invariant = { λ s. (vec_len s.bytes ≤ s.room) × (s.room ≤ vec_capacity s.bytes) };
}

impl MemSink {
    /// No bytes yet, with room for `room`; the calls that are listed in `fails`, counted from 0, fail.
    /// No later call takes memory.
    pub fn new(alloc: Global, room: u32, fails: &[u64]) -> Result<MemSink, OutOfMemory>
        ensures { IfOk result (λ s. s ≡ record { taken = []; room = room; fails = fails.now; calls = 0; faults = 0 }) }
    {
        Ok(MemSink {
            bytes: Vec::with_capacity(alloc, room as usize)?,
            room,
            fails: Vec::from_slice(alloc, fails)?,
            calls: 0,
            faults: 0,
        })
    }

    /// The bytes that were taken, in their order; at most as many as there was room for.
    pub fn bytes(&self) -> &[u8]
        ensures taken { result.now ≡ self.now.taken }
        ensures most { length self.now.taken ≤ self.now.room }
    {
        self.bytes.as_slice()
    }
}

impl Sink for MemSink {
    ghost taken = { λ s. Some s.taken };

    ghost arrived = { λ s. Some s.taken };

    ghost fault_count = { λ s. s.faults };

    /// As many bytes as there is room for.
    fn write(&mut self, from: &[u8]) -> Result<usize, Failed>
        requires { 0 < length from.now }
        ensures count { IfOk result (λ n. (0 < n) × (n ≤ length from.now)) }
        ensures bytes { MatchResult result (λ n. self.new.taken ≡ self.old.taken ++ take n from.now) (λ _. self.new.taken ≡ self.old.taken) }
        ensures cause { HasCause self.old.faults self.new.faults result }

        ensures listed { IsErr result ↔ (IsTrue (is_listed self.old.fails self.old.calls) ⊎ (length self.old.taken ≡ self.old.room)) }
        ensures handed { IfOk result (λ n. (n ≡ min (self.old.room - length self.old.taken) (length from.now))
            × (self.new ≡ record self.old { taken = self.old.taken ++ take n from.now; calls = bump self.old.calls })) }
        ensures failed { OnErr result (self.new ≡ record self.old { calls = bump self.old.calls; faults = bump self.old.faults }) }
    {
        let listed = self.fails.contains(&self.calls);
        self.calls = self.calls.saturating_add(1);
        let n = (self.room as usize - self.bytes.len()).min(from.len());
        if listed || n == 0 {
            self.faults = self.faults.saturating_add(1);
            return Err(Failed);
        }
        match self.bytes.extend_from_slice(&from[..n]) {
            Ok(()) => Ok(n),
            Err(_) => unreachable!(),
        }
    }

    /// It keeps its bytes where they are, and fails only where the call is listed.
    fn flush(&mut self) -> Result<(), Failed>
        ensures same { self.new.taken ≡ self.old.taken }
        ensures out { OnOk result (Some self.new.taken ≡ Some self.new.taken) }
        ensures cause { HasCause self.old.faults self.new.faults result }

        ensures listed { IsErr result ↔ IsTrue (is_listed self.old.fails self.old.calls) }
        ensures kept { OnOk result (self.new ≡ record self.old { calls = bump self.old.calls }) }
        ensures failed { OnErr result (self.new ≡ record self.old { calls = bump self.old.calls; faults = bump self.old.faults }) }
    {
        let listed = self.fails.contains(&self.calls);
        self.calls = self.calls.saturating_add(1);
        if listed {
            self.faults = self.faults.saturating_add(1);
            return Err(Failed);
        }
        Ok(())
    }

    fn faults(&self) -> u64 {
        self.faults
    }
}
