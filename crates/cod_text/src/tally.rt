//! The counts of a run.

/// How many calls, replies and marks of each kind there are, and how many bytes were moved. Each number stays at 2^64 - 1
/// once it is there.
#[derive(Debug, Default, Drop)]
pub(crate) struct Tally {
    pub(crate) calls: u64,
    pub(crate) reads: u64,
    pub(crate) writes: u64,
    pub(crate) swaps: u64,
    pub(crate) puts: u64,
    pub(crate) merges: u64,
    pub(crate) ticks: u64,
    pub(crate) rebuilds: u64,
    pub(crate) upgrades: u64,
    pub(crate) drains: u64,
    pub(crate) bytes: u64,
    pub(crate) done: u64,
    pub(crate) range: u64,
    pub(crate) long: u64,
    pub(crate) lost: u64,
    pub(crate) whole: u64,
    pub(crate) rebuilt: u64,
    pub(crate) no_spare: u64,
    pub(crate) no_memory: u64,
    pub(crate) differs: u64,
    pub(crate) shifted: u64,
    pub(crate) clear: u64,
    pub(crate) downs: u64,
    pub(crate) ups: u64,
    pub(crate) moves: u64,
    pub(crate) bytes_read: u64,
    pub(crate) bytes_written: u64,
}
