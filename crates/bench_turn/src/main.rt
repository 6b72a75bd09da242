//! Measures holds of a value that threads take in turns, beside a `Mutex` of std round the same value, and prints nanoseconds a
//! hold to standard error.
//!
//! The one argument is the number of rounds of each measurement, of which the fastest counts.
#![tactic(auto)]

mod meter;

ghost use Rattle.std.specs.Prelude.{◌≡◌, ◌∷◌, [], ℕ, Some};
ghost use Rattle.cod_turn.specs.Seats.{IsIdle, Seated};
ghost use Rattle.cod_turn.specs.Turning.{callers};

use cod_chronicle::Chronicle;
use cod_turn::{Turn, TurnSeat};
use meter::Meter;
use std::alloc::Global;
use std::sync::{Mutex, Wait};
use std::thread::{Threads, join};
use std::time::{Clock, Instant};
use std::{env, io};

/// The holds of each thread in a round.
const HOLDS: u32 = 50_000;

/// The rounds where no argument tells their number.
const ROUNDS: u32 = 3;

/// The steps of work in a hold.
const WORK: [u32; 3] = [0, 50, 500];

/// Takes the value so many times, works on it and gives it back.
fn by_turn<R: Wait>(rt: &R, turn: &Turn<Meter>, mut seat: TurnSeat<Meter>, steps: u32)
    requires turn { seat.of ≡ turn.now }
    requires idle { IsIdle seat }
    requires one { (n : ℕ) × (callers seat.knows ≡ n ∷ []) }
{
    for _ in 0..HOLDS {
        let mut meter = turn.take(rt, &mut seat);
        meter.work(steps);
        turn.give(&mut seat, meter);
    }
}

/// The same by a lock.
fn by_lock<R: Wait>(rt: &R, lock: &Mutex<Meter>, steps: u32) {
    for _ in 0..HOLDS {
        lock.lock(rt).work(steps);
    }
}

/// Two threads take it in turns.
fn two_turns<R: Threads + Wait + Sync>(
    rt: &R,
    turn: &Turn<Meter>,
    one: TurnSeat<Meter>,
    other: TurnSeat<Meter>,
    steps: u32,
)
    requires turn { (one.of ≡ turn.now) × (other.of ≡ turn.now) }
    requires idle { IsIdle one × IsIdle other }
    requires one { (n : ℕ) × (callers one.knows ≡ n ∷ []) }
    requires other { (n : ℕ) × (callers other.knows ≡ n ∷ []) }
{
    join(
        rt,
        move || -> ()
            requires { (one.of ≡ turn.now) × IsIdle one × ((n : ℕ) × (callers one.knows ≡ n ∷ [])) }
        { by_turn(rt, turn, one, steps) },
        move || -> ()
            requires { (other.of ≡ turn.now) × IsIdle other × ((n : ℕ) × (callers other.knows ≡ n ∷ [])) }
        { by_turn(rt, turn, other, steps) },
    );
}

/// Two threads share the lock.
fn two_locks<R: Threads + Wait + Sync>(rt: &R, lock: &Mutex<Meter>, steps: u32) {
    join(
        rt,
        move || by_lock(rt, lock, steps),
        move || by_lock(rt, lock, steps),
    );
}

/// How long 1, 2 or 4 threads took with a turn.
fn time_turns<R: Threads + Wait + Clock + Sync>(
    rt: &R,
    alloc: Global,
    threads: u32,
    steps: u32,
) -> io::Result<u32> {
    let meter = Meter {
        chronicle: Chronicle::new(alloc),
        count: 1,
    };
    let Ok((turn, mut rest)) = Turn::new(alloc, meter) else {
        return Err(io::Error::from(io::ErrorKind::OutOfMemory));
    };
    let a = turn.split(&mut rest);
    let b = turn.split(&mut rest);
    let c = turn.split(&mut rest);
    let d = turn.split(&mut rest);
    let shared = &turn;
    let start = Instant::now(rt)?;
    if threads == 1 {
        by_turn(rt, shared, a, steps);
    } else if threads == 2 {
        two_turns(rt, shared, a, b, steps);
    } else {
        join(
            rt,
            move || -> ()
                requires { (a.of ≡ shared.now) × IsIdle a × ((n : ℕ) × (callers a.knows ≡ n ∷ [])) × (b.of ≡ shared.now) × IsIdle b
                    × ((n : ℕ) × (callers b.knows ≡ n ∷ [])) }
            { two_turns(rt, shared, a, b, steps) },
            move || -> ()
                requires { (c.of ≡ shared.now) × IsIdle c × ((n : ℕ) × (callers c.knows ≡ n ∷ [])) × (d.of ≡ shared.now) × IsIdle d
                    × ((n : ℕ) × (callers d.knows ≡ n ∷ [])) }
            { two_turns(rt, shared, c, d, steps) },
        );
    }
    Ok(u32::try_from(start.elapsed(rt)?.as_nanos()).unwrap_or(u32::MAX))
}

/// How long 1, 2 or 4 threads took with a lock.
fn time_locks<R: Threads + Wait + Clock + Sync>(
    rt: &R,
    alloc: Global,
    threads: u32,
    steps: u32,
) -> io::Result<u32> {
    let lock = Mutex::new(Meter {
        chronicle: Chronicle::new(alloc),
        count: 1,
    });
    let shared = &lock;
    let start = Instant::now(rt)?;
    if threads == 1 {
        by_lock(rt, shared, steps);
    } else if threads == 2 {
        two_locks(rt, shared, steps);
    } else {
        join(
            rt,
            move || two_locks(rt, shared, steps),
            move || two_locks(rt, shared, steps),
        );
    }
    Ok(u32::try_from(start.elapsed(rt)?.as_nanos()).unwrap_or(u32::MAX))
}

fn main(rt: HostRuntime) -> io::Result<()> {
    let mut words = env::args(&rt)?;
    words.next();
    let rounds = match words.next() {
        Some(word) => word.parse::<u32>().unwrap_or(ROUNDS),
        None => ROUNDS,
    };
    for steps in WORK {
        for threads in [1u32, 2, 4] {
            let mut turns = u32::MAX;
            let mut locks = u32::MAX;
            for _ in 0..rounds {
                turns = turns.min(time_turns(&rt, rt.alloc(), threads, steps)?);
                locks = locks.min(time_locks(&rt, rt.alloc(), threads, steps)?);
            }
            let holds = f64::from(HOLDS) * f64::from(threads);
            let turn = f64::from(turns) / holds;
            let lock = f64::from(locks) / holds;
            let share = turn / lock;
            eprintln!(rt;
                "{steps:>4} steps  {threads} threads  turn {turn:>8.1} ns a hold, lock {lock:>8.1} ns, {share:.2} times"
            )?;
        }
    }
    Ok(())
}
