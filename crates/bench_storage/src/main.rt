//! Measures appends to a parity column's log, and merges of a full log, beside plain copies of the same bytes, and prints it
//! to standard error.
//!
//! The one argument is the number of rounds of each measurement, of which the fastest counts.
#![tactic(auto)]

ghost use Rattle.std.specs.Prelude.{◌≡◌, ◌+◌, ◌≤◌, false, IfOk, length};
ghost use Rattle.std.specs.Option.{is_some};

use cod_parity::{ParityColumn, record_len};
use cod_record::Head;
use cod_region::{MemRegion, MemShelf, Shelf, Untold};
use cod_types::{Cuts, Failed, Geometry, NodeId, OutOfMemory};
use std::alloc::Global;
use std::time::{Clock, Instant};
use std::{env, io};

/// The bytes of an update.
const UPDATE: usize = 64;

/// The bytes of a record of it.
const RECORD: usize = 19 + UPDATE;

/// The bytes of a block.
const BLOCK: usize = 65536;

/// The bytes of the log that is merged.
const LOGS: [u32; 4] = [8192, 16384, 32768, 65536];

/// The rounds where no argument tells their number.
const ROUNDS: u32 = 3;

/// The nanoseconds of appends, of copies of the same bytes, of a merge, and of a copy of the block and its log.
#[derive(Clone, Copy)]
struct Times {
    appends: u32,
    copies: u32,
    merge: u32,
    copy: u32,
}

/// A column with a block and reserved space in memory. Nothing is told of what it holds, since nothing is proved of it here.
fn column(alloc: Global, g: Geometry) -> Result<ParityColumn<Untold<MemRegion>>, OutOfMemory>
    ensures untold { IfOk result (λ c. is_some c.device.content ≡ false) }
    ensures shape { IfOk result (λ c. c.shape ≡ g) }
{
    let _columns = g.k(); // the limits of a geometry are told here
    let held = MemShelf::new().region(alloc, NodeId(0), g.block() + g.reserve())?;
    Ok(ParityColumn::new(g, Untold::new(held)))
}

/// Appends the record of an update of block 0, where it fits.
fn append(
    column: &mut ParityColumn<Untold<MemRegion>>,
    g: Geometry,
    number: u64,
    coef: u8,
    delta: &[u8],
    cuts: &Cuts,
    scratch: &mut [u8],
) -> Result<(), Failed>
    requires untold { is_some column.old.device.content ≡ false }
    requires shape { column.old.shape ≡ g }
    ensures untold { is_some column.new.device.content ≡ false }
    ensures shape { column.new.shape ≡ g }
{
    let _columns = g.k(); // the limits of a geometry are told here
    let len = delta.len();
    if (g.block() as usize) < len || column.size() < record_len(1, coef, delta) {
        return Ok(());
    }
    if scratch.len() < (g.block() + g.reserve()) as usize {
        return Ok(());
    }
    let off = (number % 512) as u32 * 64;
    let head = Head {
        block: 0,
        number,
        off: if off as usize + len <= g.block() as usize {
            off
        } else {
            0
        },
        len: len as u32,
    };
    column.append(head, 1, coef, delta, cuts, scratch)
}

/// Appends as many records as the log has room for, from number 1 on, and answers how many.
fn fill_log(
    column: &mut ParityColumn<Untold<MemRegion>>,
    g: Geometry,
    delta: &[u8],
    cuts: &Cuts,
    scratch: &mut [u8],
) -> u32
    requires untold { is_some column.old.device.content ≡ false }
    requires shape { column.old.shape ≡ g }
    ensures untold { is_some column.new.device.content ≡ false }
    ensures shape { column.new.shape ≡ g }
{
    let count = column.size() / RECORD as u32;
    for i in 0..count {
        let _ = append(
            column,
            g,
            i as u64 + 1,
            (i % 255) as u8 + 1,
            delta,
            cuts,
            scratch,
        );
    }
    count
}

/// Copies so many updates, one behind the other.
fn copy_updates(into: &mut [u8], delta: &[u8], count: u32) {
    if into.len() < delta.len() {
        return;
    }
    let places = (into.len() - delta.len()) / delta.len().max(1) + 1;
    for i in 0..count as usize {
        let at = (i % places) * delta.len();
        if at + delta.len() <= into.len() {
            into[at..at + delta.len()].copy_from_slice(delta);
        }
    }
}

fn nanoseconds(clock: &impl Clock, since: Instant) -> io::Result<u32> {
    let spent = since.elapsed(clock)?;
    Ok(u32::try_from(spent.as_nanos()).unwrap_or(u32::MAX).max(1))
}

/// One round: a log that is filled and merged, and the copies. All records are at or below the cut.
fn round(
    rt: &impl Clock,
    alloc: Global,
    g: Geometry,
    delta: &[u8],
    scratch: &mut [u8],
    other: &mut [u8],
) -> io::Result<(u32, Times)> {
    let mut column = match column(alloc, g) {
        Ok(column) => column,
        Err(_) => return Err(io::Error::from(io::ErrorKind::OutOfMemory)),
    };
    let mut cuts = Cuts::new();
    let start = Instant::now(rt)?;
    let count = fill_log(&mut column, g, delta, &cuts, scratch);
    let appends = nanoseconds(rt, start)?;
    let start = Instant::now(rt)?;
    copy_updates(other, delta, count);
    let copies = nanoseconds(rt, start)?;
    for _ in 0..count {
        if cuts.get(0) < 1 << 32 {
            cuts.raise(0);
        }
    }
    let start = Instant::now(rt)?;
    if (g.block() + g.reserve()) as usize <= scratch.len() {
        let _ = column.merge(&cuts, scratch);
    }
    let merge = nanoseconds(rt, start)?;
    let start = Instant::now(rt)?;
    if scratch.len() == other.len() {
        other.copy_from_slice(scratch);
    }
    let copy = nanoseconds(rt, start)?;
    Ok((
        count,
        Times {
            appends,
            copies,
            merge,
            copy,
        },
    ))
}

/// Prints the figures of a log of so many bytes.
fn measure(rt: &HostRuntime, rounds: u32, log: u32, delta: &[u8]) -> io::Result<()> {
    let g = match Geometry::new(4, 2, BLOCK as u32, 4096, log.max(8230), 4096, 5000) {
        Ok(g) => g,
        Err(_) => return Ok(()),
    };
    let _columns = g.k(); // the limits of a geometry are told here
    let size = (g.block() + g.reserve()) as usize;
    let mut scratch = vec![in rt.alloc(); 0u8; size]?;
    let mut other = vec![in rt.alloc(); 1u8; size]?;
    let mut best = Times {
        appends: u32::MAX,
        copies: u32::MAX,
        merge: u32::MAX,
        copy: u32::MAX,
    };
    let mut records = 0;
    for _ in 0..rounds {
        let (count, times) = round(rt, rt.alloc(), g, delta, &mut scratch, &mut other)?;
        records = count;
        best.appends = best.appends.min(times.appends);
        best.copies = best.copies.min(times.copies);
        best.merge = best.merge.min(times.merge);
        best.copy = best.copy.min(times.copy);
    }
    let each = f64::from(best.appends) / f64::from(records.max(1));
    let share = f64::from(best.appends) / f64::from(best.copies);
    eprintln!(rt;
        "{log:>6} B log  {records:>4} appends of 64 B: {each:>6.1} ns each, {share:.2} times a copy of the same bytes"
    )?;
    let merge = f64::from(best.merge) / 1000.0;
    let share = f64::from(best.merge) / f64::from(best.copy);
    eprintln!(rt;
        "{log:>6} B log  merge: {merge:>7.1} us, {share:.2} times a copy of the block and the log"
    )
}

fn main(rt: HostRuntime) -> io::Result<()> {
    let mut words = env::args(&rt)?;
    words.next();
    let rounds = match words.next() {
        Some(word) => word.parse::<u32>().unwrap_or(ROUNDS),
        None => ROUNDS,
    };
    let mut delta = [0u8; UPDATE];
    for (i, byte) in delta.iter_mut().enumerate() {
        *byte = (i % 251) as u8 + 1;
    }
    for log in LOGS {
        measure(&rt, rounds, log, &delta)?;
    }
    Ok(())
}
