//! Measures a piece of a column that is down, at n = 6 and k = 4, beside the kernel's fused call on as many bytes, beside copies
//! of them, and beside the reads alone, and prints it to standard error.
//!
//! The one argument is the number of rounds of each measurement, of which the fastest counts.
#![tactic(auto)]

ghost use Rattle.std.specs.Prelude.{◌≡◌, ◌+◌, ◌*◌, ◌<◌, ◌≤◌, ℕ, All, IfOk, length};
ghost use Rattle.cod_region.specs.Memory.{memory_device};
ghost use Rattle.cod_seg.specs.Seg.{col_at};
ghost use Rattle.cod_repair.specs.Columns.{IsMadeFor};

use cod_chronicle::Link;
use cod_claims::Claims;
use cod_kernel::set_all_scaled;
use cod_place::{PlainPools, Pools, Room};
use cod_region::{MemRegion, MemShelf, Region, Shelf};
use cod_repair::{Bench, Column, Columns, piece};
use cod_types::{Cuts, Geometry, NodeId, OutOfMemory};
use std::alloc::Global;
use std::time::{Clock, Instant};
use std::{env, io};

/// The lengths of the pieces, each of a whole block.
const LENGTHS: [u32; 3] = [4096, 65536, 1 << 20];

/// The number of columns, and of those with data. A piece is made from as many sources.
const COLUMNS: u8 = 6;

const DATA: u8 = 4;

const SOURCES: usize = 4;

/// The bytes of the pieces of one round.
const BYTES: usize = 1 << 20;

/// How far apart the kernel's sources lie besides their length, so that they don't share the cache's sets.
const APART: usize = 1472;

/// The rounds where no argument tells their number.
const ROUNDS: u32 = 3;

/// The nanoseconds of pieces, of the kernel, of copies, and of reads.
#[derive(Clone, Copy)]
struct Times {
    pieces: u32,
    kernel: u32,
    copies: u32,
    reads: u32,
}

/// Bytes that vary, as those of files do.
fn fill(bytes: &mut [u8], seed: u64) {
    let mut state = seed;
    for byte in bytes.iter_mut() {
        state = state
            .wrapping_mul(6364136223846793005)
            .wrapping_add(1442695040888963407);
        *byte = (state >> 56) as u8;
    }
}

/// A room of so many bytes.
fn room(alloc: Global, bytes: u32) -> Result<Room, OutOfMemory> {
    let mut pools = PlainPools::new(alloc, 1, bytes)?;
    match pools.take(NodeId(0), bytes) {
        Ok(room) => Ok(room),
        Err(_) => Err(OutOfMemory),
    }
}

/// A region in memory with so many bytes that vary.
fn region(alloc: Global, len: u32, seed: u64) -> Result<MemRegion, OutOfMemory>
    ensures { IfOk result (λ r. (memory_device r).size ≡ len) }
{
    let mut region = MemShelf::new().region(alloc, NodeId(0), len)?;
    let mut bytes = vec![in alloc; 0u8; len as usize]?;
    fill(&mut bytes, seed);
    let _ = region.write_at(0, &bytes);
    Ok(region)
}

/// A column with bytes that vary. A parity column has no record.
fn column(alloc: Global, g: Geometry, col: u8) -> Result<Column<MemRegion>, OutOfMemory>
    ensures { IfOk result (λ c. IsMadeFor g col c) }
{
    let block = g.block();
    let mark = Link::new(alloc)?;
    if col < g.k() {
        let region = region(alloc, block, col as u64)?;
        return Ok(Column::of_data(room(alloc, block)?, g, region, mark));
    }
    let size = block + g.reserve();
    let region = region(alloc, size, col as u64)?;
    let room = room(alloc, size)?;
    Ok(Column::of_parity(room, g, region, g.reserve(), 10_000, mark))
}

/// All columns of a segment, the first of them down.
fn columns(alloc: Global, g: Geometry) -> Result<Columns<MemRegion>, OutOfMemory>
    ensures count { IfOk result (λ cs. length cs ≡ g.n) }
    ensures made { IfOk result (λ cs. (i : ℕ) → i < g.n → IsMadeFor g i (col_at cs i)) }
{
    let mut columns = Columns::new(alloc)?;
    let _columns = g.k(); // the limits of a geometry are told here
    for col in 0..g.n() {
        let column = column(alloc, g, col)?;
        columns.push(column);
    }
    if columns.live(0) {
        let _mark = columns.mark_down(0);
    }
    Ok(columns)
}

/// A piece of the first column, as long as `into`. It answers whether it was made.
#[inline(never)]
fn made(
    g: Geometry,
    columns: &mut Columns<MemRegion>,
    claims: &Claims,
    cuts: &Cuts,
    into: &mut [u8],
    bench: &mut Bench,
) -> bool
    requires shape { bench.old ≡ g }
    requires count { length columns.old ≡ g.n }
    requires made { (i : ℕ) → i < g.n → IsMadeFor g i (col_at columns.old i) }
    requires inside { length into.old ≤ g.block }
    ensures shape { bench.new ≡ g }
    ensures count { length columns.new ≡ g.n }
    ensures made { (i : ℕ) → i < g.n → IsMadeFor g i (col_at columns.new i) }
{
    if columns.live_count() < g.k() {
        return false;
    }
    piece(columns, claims, cuts, 0, 0, into, bench).is_ok()
}

/// The sources, of `len` bytes each.
fn sources(bytes: &[u8], len: usize) -> [&[u8]; SOURCES]
    requires { SOURCES * (len + APART) ≤ length bytes.now }
    ensures { All (λ source. length source.now ≡ len) result }
{
    let step = len + APART;
    [
        &bytes[..len],
        &bytes[step..step + len],
        &bytes[2 * step..2 * step + len],
        &bytes[3 * step..3 * step + len],
    ]
}

/// The fused call. The scalars vary, since the compiler would fold constant ones.
#[inline(never)]
fn fused(c: u8, into: &mut [u8], sources: [&[u8]; SOURCES])
    requires { All (λ source. length source.now ≡ length into.old) sources }
{
    set_all_scaled(into, &[c, c ^ 1, c ^ 2, c ^ 4], &sources)
}

/// Copies each source into `into`.
#[inline(never)]
fn copied(into: &mut [u8], sources: [&[u8]; SOURCES])
    requires { All (λ source. length source.now ≡ length into.old) sources }
{
    for source in sources {
        into.copy_from_slice(source);
    }
}

/// Reads each region into a window of its own.
#[inline(never)]
fn read(regions: &mut [MemRegion; SOURCES], windows: &mut [u8], len: usize)
    requires { SOURCES * (len + APART) ≤ length windows.old }
{
    for j in 0..SOURCES {
        if regions[j].len() as usize >= len {
            let _ = regions[j].read_at(0, &mut windows[j * len..j * len + len]);
        }
    }
}

fn nanoseconds(clock: &impl Clock, since: Instant) -> io::Result<u32> {
    let spent = since.elapsed(clock)?;
    Ok(u32::try_from(spent.as_nanos()).unwrap_or(u32::MAX).max(1))
}

/// The nanoseconds of the pieces of one round.
fn time_pieces(
    rt: &impl Clock,
    g: Geometry,
    columns: &mut Columns<MemRegion>,
    into: &mut [u8],
    bench: &mut Bench,
    repeats: usize,
) -> io::Result<u32>
    requires shape { bench.old ≡ g }
    requires count { length columns.old ≡ g.n }
    requires made { (i : ℕ) → i < g.n → IsMadeFor g i (col_at columns.old i) }
    requires inside { length into.old ≤ g.block }
    ensures shape { bench.new ≡ g }
    ensures count { length columns.new ≡ g.n }
    ensures made { (i : ℕ) → i < g.n → IsMadeFor g i (col_at columns.new i) }
{
    let claims = Claims::new();
    let cuts = Cuts::new();
    let start = Instant::now(rt)?;
    for _ in 0..repeats {
        made(g, columns, &claims, &cuts, into, bench);
    }
    nanoseconds(rt, start)
}

/// The nanoseconds of what stands beside them.
fn time_others(
    rt: &impl Clock,
    regions: &mut [MemRegion; SOURCES],
    into: &mut [u8],
    bytes: &[u8],
    windows: &mut [u8],
    repeats: usize,
) -> io::Result<(u32, u32, u32)>
    requires bytes { SOURCES * (length into.old + APART) ≤ length bytes.now }
    requires windows { SOURCES * (length into.old + APART) ≤ length windows.old }
{
    let len = into.len();
    let sources = sources(bytes, len);
    let start = Instant::now(rt)?;
    for i in 0..repeats {
        fused((i % 256) as u8, into, sources);
    }
    let kernel = nanoseconds(rt, start)?;
    let start = Instant::now(rt)?;
    for _ in 0..repeats {
        copied(into, sources);
    }
    let copies = nanoseconds(rt, start)?;
    let start = Instant::now(rt)?;
    for _ in 0..repeats {
        read(regions, windows, len);
    }
    Ok((kernel, copies, nanoseconds(rt, start)?))
}

/// The least times of so many rounds.
fn least(
    rt: &impl Clock,
    rounds: u32,
    g: Geometry,
    columns: &mut Columns<MemRegion>,
    bench: &mut Bench,
    regions: &mut [MemRegion; SOURCES],
    into: &mut [u8],
    bytes: &[u8],
    windows: &mut [u8],
) -> io::Result<Times>
    requires shape { bench.old ≡ g }
    requires count { length columns.old ≡ g.n }
    requires made { (i : ℕ) → i < g.n → IsMadeFor g i (col_at columns.old i) }
    requires inside { length into.old ≤ g.block }
    requires bytes { SOURCES * (length into.old + APART) ≤ length bytes.now }
    requires windows { SOURCES * (length into.old + APART) ≤ length windows.old }
{
    let mut best = Times {
        pieces: u32::MAX,
        kernel: u32::MAX,
        copies: u32::MAX,
        reads: u32::MAX,
    };
    let repeats = BYTES / into.len().max(1);
    for _ in 0..rounds {
        let pieces = time_pieces(rt, g, columns, into, bench, repeats)?;
        let (kernel, copies, reads) = time_others(rt, regions, into, bytes, windows, repeats)?;
        best.pieces = best.pieces.min(pieces);
        best.kernel = best.kernel.min(kernel);
        best.copies = best.copies.min(copies);
        best.reads = best.reads.min(reads);
    }
    Ok(best)
}

/// Prints the figures of pieces of `len` bytes.
fn print(rt: &HostRuntime, len: u32, best: Times) -> io::Result<()> {
    let each = f64::from(best.pieces) * f64::from(len) / BYTES as f64;
    let pieces = f64::from(best.pieces);
    let kernel = f64::from(best.kernel);
    let reads = f64::from(best.reads);
    let of_kernel = pieces / kernel;
    let of_both = pieces / (kernel + reads);
    let of_copies = pieces / f64::from(best.copies);
    let share = reads / kernel;
    eprintln!(rt;
        "{len:>8} B  a piece: {each:>9.1} ns, {of_kernel:.3} of the kernel, {of_both:.3} of the kernel and the reads, {of_copies:.3} of four copies; the reads: {share:.3} of the kernel"
    )
}

/// Measures pieces of `len` bytes.
fn measure(rt: &HostRuntime, rounds: u32, len: u32) -> io::Result<()> {
    let alloc = rt.alloc();
    let g = match Geometry::new(COLUMNS, DATA, len, 64, 4096, 4096, 5000) {
        Ok(g) => g,
        Err(_) => return Ok(()),
    };
    let size = SOURCES * (len as usize + APART);
    let mut into = vec![in alloc; 0u8; len as usize]?;
    let mut windows = vec![in alloc; 0u8; size]?;
    let mut bytes = vec![in alloc; 0u8; size]?;
    fill(&mut bytes, 1);
    let (Ok(mut columns), Ok(mut bench), Ok(a), Ok(b), Ok(c), Ok(d)) = (
        columns(alloc, g),
        Bench::new(alloc, &g),
        region(alloc, len, 2),
        region(alloc, len, 3),
        region(alloc, len, 4),
        region(alloc, len, 5),
    ) else {
        return Err(io::Error::from(io::ErrorKind::OutOfMemory));
    };
    let mut regions = [a, b, c, d];
    let best = least(
        rt,
        rounds,
        g,
        &mut columns,
        &mut bench,
        &mut regions,
        &mut into,
        &bytes,
        &mut windows,
    )?;
    print(rt, len, best)
}

fn main(rt: HostRuntime) -> io::Result<()> {
    let mut words = env::args(&rt)?;
    words.next();
    let rounds = match words.next() {
        Some(word) => word.parse::<u32>().unwrap_or(ROUNDS),
        None => ROUNDS,
    };
    for len in LENGTHS {
        measure(&rt, rounds, len)?;
    }
    Ok(())
}
