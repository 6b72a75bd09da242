//! Measures the speed of the kernels beside that of a plain copy, and prints it to standard error.
//!
//! The one argument is the number of rounds of each measurement, of which the fastest counts.
#![tactic(auto)]

ghost use Rattle.std.specs.Prelude.{◌≡◌, ◌+◌, ◌*◌, ◌≤◌, length, All};

use cod_kernel::{add, add_all_scaled, add_scaled};
use std::time::{Clock, Instant};
use std::{env, io};

/// The lengths of the blocks, in bytes.
const LENGTHS: [usize; 4] = [64, 4096, 65536, 1 << 20];

/// The number of sources, that of the data columns of a common code.
const SOURCES: usize = 8;

/// The bytes that a measurement reads from each source, in a round.
const BYTES: usize = 1 << 20;

/// How far apart the sources lie besides their length, so that they don't share the cache's sets.
const APART: usize = 1472;

/// The rounds where no argument tells their number.
const ROUNDS: u32 = 3;

#[derive(Clone, Copy)]
enum Form {
    Copy,
    Add,
    AddScaled,
    AddAllScaled,
}

impl Form {
    const ALL: [Form; 4] = [Form::Copy, Form::Add, Form::AddScaled, Form::AddAllScaled];

    fn name(self) -> &'static str {
        match self {
            Form::Copy => "copy_from_slice",
            Form::Add => "add",
            Form::AddScaled => "add_scaled",
            Form::AddAllScaled => "add_all_scaled",
        }
    }

    /// Takes each source into `dst`.
    #[inline(never)]
    fn run(self, dst: &mut [u8], scalars: [u8; SOURCES], sources: [&[u8]; SOURCES])
        requires { All (λ source. length source.now ≡ length dst.old) sources }
    {
        match self {
            Form::Copy => {
                for source in sources {
                    dst.copy_from_slice(source);
                }
            }
            Form::Add => {
                for source in sources {
                    add(dst, source);
                }
            }
            Form::AddScaled => {
                for j in 0..SOURCES {
                    add_scaled(dst, scalars[j], sources[j]);
                }
            }
            Form::AddAllScaled => add_all_scaled(dst, &scalars, &sources),
        }
    }
}

/// The sources, of `len` bytes each.
fn sources(bytes: &[u8], len: usize) -> [&[u8]; SOURCES]
    requires { SOURCES * (len + APART) ≤ length bytes.now }
    ensures { All (λ source. length source.now ≡ len) result }
{
    let step = len + APART;
    [
        &bytes[..len],
        &bytes[step..step + len],
        &bytes[2 * step..2 * step + len],
        &bytes[3 * step..3 * step + len],
        &bytes[4 * step..4 * step + len],
        &bytes[5 * step..5 * step + len],
        &bytes[6 * step..6 * step + len],
        &bytes[7 * step..7 * step + len],
    ]
}

/// The nanoseconds of one round. The scalars vary, since the compiler would fold constant ones.
fn round(
    clock: &impl Clock,
    form: Form,
    dst: &mut [u8],
    sources: [&[u8]; SOURCES],
) -> io::Result<u32>
    requires { All (λ source. length source.now ≡ length dst.old) sources }
{
    let repeats = BYTES / dst.len().max(1);
    let start = Instant::now(clock)?;
    for i in 0..repeats {
        let c = (i % 256) as u8;
        form.run(
            dst,
            [c, c ^ 1, c ^ 2, c ^ 4, c ^ 8, c ^ 16, c ^ 32, c ^ 64],
            sources,
        );
    }
    let spent = start.elapsed(clock)?;
    Ok(u32::try_from(spent.as_nanos()).unwrap_or(u32::MAX).max(1))
}

/// Prints a line for each form, at blocks of `len` bytes.
fn measure(
    rt: &(impl Clock + Eprint),
    rounds: u32,
    len: usize,
    dst: &mut [u8],
    bytes: &[u8],
) -> io::Result<()>
    requires source_room { SOURCES * (len + APART) ≤ length bytes.now }
    requires same_length { length dst.old ≡ len }
{
    let sources = sources(bytes, len);
    let mut fastest = [u32::MAX; 4];
    for _ in 0..rounds {
        for k in 0..4usize {
            fastest[k] = fastest[k].min(round(rt, Form::ALL[k], dst, sources)?);
        }
    }
    for k in 0..4usize {
        let name = Form::ALL[k].name();
        let speed = (SOURCES * BYTES) as f64 / f64::from(fastest[k]);
        let share = f64::from(fastest[0]) / f64::from(fastest[k]);
        eprintln!(rt; "{len:>8} B  {name:<16} {speed:>7.2} GB/s  {share:.3} of a copy")?;
    }
    Ok(())
}

/// Bytes that vary, as those of files do.
fn fill(bytes: &mut [u8]) {
    let mut state: u64 = 1;
    for byte in bytes.iter_mut() {
        state = state
            .wrapping_mul(6364136223846793005)
            .wrapping_add(1442695040888963407);
        *byte = (state >> 56) as u8;
    }
}

fn main(rt: HostRuntime) -> io::Result<()> {
    let mut words = env::args(&rt)?;
    words.next();
    let rounds = match words.next() {
        Some(word) => word.parse::<u32>().unwrap_or(ROUNDS),
        None => ROUNDS,
    };
    for len in LENGTHS {
        let mut dst = vec![in rt.alloc(); 0u8; len]?;
        let mut bytes = vec![in rt.alloc(); 0u8; SOURCES * (len + APART)]?;
        fill(&mut bytes);
        measure(&rt, rounds, len, &mut dst, &bytes)?;
        let sum = dst.iter().fold(0, |sum, byte| sum ^ byte);
        eprintln!(rt; "{len:>8} B  the sum of all bytes is {sum}")?;
    }
    Ok(())
}
