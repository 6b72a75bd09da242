//! The rule of stamps.
ghost use Rattle.std.specs.Prelude.{◌≡◌};
ghost use Rattle.cod_chronicle.specs.Said.{next_stamp};

/// The stamp of a new entry, from the clock of its segment and that of its caller, both of which it then becomes: one more
/// than the greater of them, up to 2^64 - 1. Where the entry marks a column on a killed node, the caller's clock is first
/// raised to that of the kill.
pub fn next_stamp(segment: u64, caller: u64) -> u64
    ensures { result ≡ next_stamp segment caller }
{
    segment.max(caller).saturating_add(1)
}
