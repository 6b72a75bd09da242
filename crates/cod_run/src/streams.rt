//! The program over a reader and a writer of the standard library.
ghost use Rattle.std.specs.Prelude.{◌≡◌, ◌↔◌, None, map, string_bytes, IfOk, IfErr};
ghost use Rattle.std.specs.IoError.{error_kind};
ghost use Rattle.std.specs.declared.io.ErrorKind.TheVariants.{OutOfMemory};
ghost use Rattle.cod_run.specs.Commands.{command_of};

use crate::top::run;
use cod_cluster::NoGate;
use cod_io::{StdSink, StdSource};
use cod_region::MemShelf;
use std::alloc::Global;
use std::io;
use std::io::{BufWriter, Read, Write};
use std::sync::Wait;
use std::thread::Threads;

/// How many bytes are written at once.
const BUFFER: usize = 1 << 16;

/// The status of `run` for these words over these streams; an error is want of memory for the buffer. What is printed goes
/// through it, and is out when the status is 0.
pub fn over<V: Threads + Wait + Sync, F: Read + Drop, T: Write + Drop>(
    rt: &V,
    alloc: Global,
    words: &[String],
    from: F,
    to: T,
) -> io::Result<u8>
    ensures words { IfOk result (λ status. (status ≡ 2) ↔ (command_of (map (λ w. string_bytes w) words.now) ≡ None)) }
    ensures err { IfErr result (λ e. error_kind e ≡ OutOfMemory) }
{
    let mut source = StdSource::new(from);
    let mut sink = StdSink::new(BufWriter::with_capacity(alloc, BUFFER, to)?);
    Ok(run(
        rt,
        alloc,
        words,
        &mut source,
        &mut sink,
        MemShelf::new(),
        &NoGate,
    ))
}
