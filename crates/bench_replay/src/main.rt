//! Measures whole calls of a replay at n = 6, k = 4 and blocks of 64 KiB, and prints them to standard error: a write of 64 bytes,
//! from its claims to its commit, beside the kernel's part of it and beside copies; and a read of 64 KiB whose column is
//! down, beside the kernel's part of it.
//!
//! The one argument is the number of rounds of each measurement, of which the fastest counts.
#![tactic(auto)]

ghost use Rattle.std.specs.Prelude.{◌≡◌, ◌*◌, ◌+◌, ◌≤◌, All, length};

use cod_kernel::{add_scaled, set_all_scaled};
use cod_region::MemShelf;
use cod_replay::Replay;
use cod_scenario::read;
use cod_types::OutOfMemory;
use std::alloc::Global;
use std::time::{Clock, Instant};
use std::{env, io};

/// What stands before the calls. Each of their records has room behind its block, so that nothing is merged.
const HEAD: &[u8] =
    b"codfs 1\nnodes 8 20000000\ncode 6 4\nblock 65536\nupdate 64\nreserve 1048576\nunit 4096\nalpha 5000\nsegment s\nclient a\n";

const WRITE: &[u8] = b"write s 4096 5a*64\n";

const FAIL: &[u8] = b"fail 0\n";

const READ: &[u8] = b"read s 0 65536\n";

const END: &[u8] = b"end\n";

/// The calls of a round.
const WRITES: usize = 1_000;

const READS: usize = 100;

/// The bytes of a write, and of a read.
const UPDATE: usize = 64;

const BLOCK: u32 = 65_536;

/// The sources of a decoded block, and how far apart they lie besides their length, so that they don't share the cache's sets.
const SOURCES: usize = 4;

const APART: usize = 1472;

/// The rounds where no argument tells their number.
const ROUNDS: u32 = 3;

/// The text of a scenario with so many calls of one line.
fn text(alloc: Global, first: &[u8], line: &[u8], count: usize) -> Result<Vec<u8>, OutOfMemory> {
    let mut text = Vec::new(alloc);
    text.extend_from_slice(HEAD)?;
    text.extend_from_slice(first)?;
    for _ in 0..count {
        text.extend_from_slice(line)?;
    }
    text.extend_from_slice(END)?;
    Ok(text)
}

fn nanoseconds(clock: &impl Clock, since: Instant) -> io::Result<u32> {
    let spent = since.elapsed(clock)?;
    Ok(u32::try_from(spent.as_nanos()).unwrap_or(u32::MAX).max(1))
}

/// The nanoseconds of the run of a scenario, without its set-up.
fn time_run(rt: &HostRuntime, text: &[u8]) -> io::Result<u32> {
    let Ok(scenario) = read(rt.alloc(), text) else {
        return Err(io::Error::from(io::ErrorKind::InvalidData));
    };
    let Ok(mut replay) = Replay::build(rt.alloc(), scenario, MemShelf::new()) else {
        return Err(io::Error::from(io::ErrorKind::OutOfMemory));
    };
    let start = Instant::now(rt)?;
    replay.run();
    nanoseconds(rt, start)
}

/// The least nanoseconds of so many runs.
fn least_run(rt: &HostRuntime, rounds: u32, text: &[u8]) -> io::Result<u32> {
    let mut best = u32::MAX;
    for _ in 0..rounds {
        best = best.min(time_run(rt, text)?);
    }
    Ok(best)
}

/// What the kernel does for a write: a delta times a scalar for each parity column. The scalars vary, since the compiler would
/// fold constant ones.
#[inline(never)]
fn scale(c: u8, deltas: &mut [u8], bytes: &[u8])
    requires { length deltas.old ≡ length bytes.now }
{
    add_scaled(deltas, c, bytes);
    add_scaled(deltas, c ^ 1, bytes);
}

/// As many bytes as a write has, copied.
#[inline(never)]
fn copy(into: &mut [u8], bytes: &[u8])
    requires { length into.old ≡ length bytes.now }
{
    into.copy_from_slice(bytes);
}

/// The sources of a decoded block of so many bytes.
fn sources(bytes: &[u8], len: usize) -> [&[u8]; SOURCES]
    requires { SOURCES * (len + APART) ≤ length bytes.now }
    ensures { All (λ source. length source.now ≡ len) result }
{
    let step = len + APART;
    [
        &bytes[..len],
        &bytes[step..step + len],
        &bytes[2 * step..2 * step + len],
        &bytes[3 * step..3 * step + len],
    ]
}

/// What the kernel does for a read whose column is down.
#[inline(never)]
fn decode(c: u8, into: &mut [u8], sources: [&[u8]; SOURCES])
    requires { All (λ source. length source.now ≡ length into.old) sources }
{
    set_all_scaled(into, &[c, c ^ 1, c ^ 2, c ^ 4], &sources)
}

/// The nanoseconds of the kernel's part of a round of writes, and of copies.
fn time_writes(rt: &HostRuntime, into: &mut [u8], bytes: &[u8]) -> io::Result<(u32, u32)>
    requires { length into.old ≡ length bytes.now }
{
    let start = Instant::now(rt)?;
    for i in 0..WRITES {
        scale((i % 256) as u8, into, bytes);
    }
    let kernel = nanoseconds(rt, start)?;
    let start = Instant::now(rt)?;
    for _ in 0..WRITES {
        copy(into, bytes);
    }
    Ok((kernel, nanoseconds(rt, start)?))
}

/// The nanoseconds of the kernel's part of a round of reads.
fn time_reads(rt: &HostRuntime, into: &mut [u8], bytes: &[u8]) -> io::Result<u32>
    requires { SOURCES * (length into.old + APART) ≤ length bytes.now }
{
    let sources = sources(bytes, into.len());
    let start = Instant::now(rt)?;
    for i in 0..READS {
        decode((i % 256) as u8, into, sources);
    }
    nanoseconds(rt, start)
}

/// Measures writes of 64 bytes.
fn measure_writes(rt: &HostRuntime, rounds: u32) -> io::Result<()> {
    let alloc = rt.alloc();
    let Ok(text) = text(alloc, b"", WRITE, WRITES) else {
        return Err(io::Error::from(io::ErrorKind::OutOfMemory));
    };
    let writes = f64::from(least_run(rt, rounds, text.as_slice())?);
    let mut into = vec![in alloc; 0u8; UPDATE]?;
    let bytes = vec![in alloc; 90u8; UPDATE]?;
    let mut kernel = u32::MAX;
    let mut copies = u32::MAX;
    for _ in 0..rounds {
        let (one, other) = time_writes(rt, &mut into, &bytes)?;
        kernel = kernel.min(one);
        copies = copies.min(other);
    }
    let each = writes / WRITES as f64;
    let scaled = f64::from(kernel) / WRITES as f64;
    let copied = f64::from(copies) / WRITES as f64;
    let ratio = each / scaled;
    eprintln!(rt;
        "a write of 64 B: {each:>9.1} ns, {ratio:.1} times the kernel's part of {scaled:.1} ns; a copy of as many bytes: {copied:.1} ns"
    )
}

/// Measures reads of a block of `len` bytes whose column is down.
fn measure_reads(rt: &HostRuntime, rounds: u32, len: u32) -> io::Result<()> {
    let alloc = rt.alloc();
    let Ok(text) = text(alloc, FAIL, READ, READS) else {
        return Err(io::Error::from(io::ErrorKind::OutOfMemory));
    };
    let reads = f64::from(least_run(rt, rounds, text.as_slice())?);
    let mut into = vec![in alloc; 0u8; len as usize]?;
    let bytes = vec![in alloc; 90u8; SOURCES * (len as usize + APART)]?;
    let mut kernel = u32::MAX;
    for _ in 0..rounds {
        kernel = kernel.min(time_reads(rt, &mut into, &bytes)?);
    }
    let each = reads / READS as f64;
    let decoded = f64::from(kernel) / READS as f64;
    let ratio = each / decoded;
    eprintln!(rt;
        "a degraded read of 64 KiB: {each:>9.1} ns, {ratio:.3} times the kernel's part of {decoded:.1} ns"
    )
}

fn main(rt: HostRuntime) -> io::Result<()> {
    let mut words = env::args(&rt)?;
    words.next();
    let rounds = match words.next() {
        Some(word) => word.parse::<u32>().unwrap_or(ROUNDS),
        None => ROUNDS,
    };
    measure_writes(&rt, rounds)?;
    measure_reads(&rt, rounds, BLOCK)
}
