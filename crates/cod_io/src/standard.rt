//! The standard library's readers and writers as a source and a sink. They tell nothing of their bytes.
ghost use Rattle.std.specs.Prelude.{◌≡◌, None};

use crate::{Sink, Source};
use cod_types::Failed;
use std::io::{ErrorKind, Read, Write};
use std::marker::Model;

/// A source over a reader of the standard library, seen as how many calls failed.
#[derive(Drop)]
pub struct StdSource<R> {
    from: R,
    faults: u64,
}

impl<R> Model for StdSource<R> {
    ghost use Rattle.std.specs.Prelude.{ℕ};

    ghost Value = { ℕ };

    ghost view = { λ s. s.faults };
}

impl<R: Read + Drop> StdSource<R> {
    /// The bytes that this reader will give. No call has failed yet.
    pub fn new(from: R) -> StdSource<R>
        ensures { result ≡ 0 }
    {
        StdSource { from, faults: 0 }
    }
}

impl<R: Read + Drop> Source for StdSource<R> {
    ghost left = { λ _. None };

    ghost fault_count = { λ faults. faults };

    /// A read that was interrupted is made again; every other error is a fault.
    fn read(&mut self, into: &mut [u8]) -> Result<usize, Failed> {
        for _ in 0..u64::MAX {
            match self.from.read(into) {
                Ok(n) => return Ok(n),
                Err(e) if e.kind() == ErrorKind::Interrupted => {}
                Err(_) => break,
            }
        }
        self.faults = self.faults.saturating_add(1);
        Err(Failed)
    }

    fn faults(&self) -> u64 {
        self.faults
    }
}

/// A sink over a writer of the standard library, seen as how many calls failed.
#[derive(Drop)]
pub struct StdSink<W> {
    to: W,
    faults: u64,
}

impl<W> Model for StdSink<W> {
    ghost use Rattle.std.specs.Prelude.{ℕ};

    ghost Value = { ℕ };

    ghost view = { λ s. s.faults };
}

impl<W: Write + Drop> StdSink<W> {
    /// Bytes go to this writer. No call has failed yet.
    pub fn new(to: W) -> StdSink<W>
        ensures { result ≡ 0 }
    {
        StdSink { to, faults: 0 }
    }
}

impl<W: Write + Drop> Sink for StdSink<W> {
    ghost taken = { λ _. None };

    ghost arrived = { λ _. None };

    ghost fault_count = { λ faults. faults };

    /// A write that takes nothing counts as a fault.
    fn write(&mut self, from: &[u8]) -> Result<usize, Failed> {
        match self.to.write(from) {
            Ok(n) if 0 < n => Ok(n),
            _ => {
                self.faults = self.faults.saturating_add(1);
                Err(Failed)
            }
        }
    }

    fn flush(&mut self) -> Result<(), Failed> {
        match self.to.flush() {
            Ok(()) => Ok(()),
            Err(_) => {
                self.faults = self.faults.saturating_add(1);
                Err(Failed)
            }
        }
    }

    fn faults(&self) -> u64 {
        self.faults
    }
}
