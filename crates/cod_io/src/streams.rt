//! A source and a sink of bytes, which may fail.
ghost use Rattle.std.specs.Prelude.{◌≡◌, ◌<◌, ◌≤◌, ℕ, List, length, take, Option, MatchResult, IfOk, OnOk};
ghost use Rattle.std.specs.Io.KnownBytes.{append_known, prepend_known, IsAtEnd};
ghost use Rattle.cod_types.specs.Faults.{HasCause};

use cod_types::Failed;

/// Where bytes come from.
pub trait Source {
    /// The bytes that are left, where they are told.
    ghost left: { Self → Option (List ℕ) };

    /// How many calls failed, up to the end of `u64`.
    ghost fault_count: { Self → ℕ };

    /// Brings the next bytes to the front of `into` and answers how many they are; 0 is the end. A call that fails
    /// takes none of them, and is counted.
    fn read(&mut self, into: &mut [u8]) -> Result<usize, Failed>
        requires { 0 < length into.old }
        ensures count { IfOk result (λ n. n ≤ length into.old) }
        ensures bytes { MatchResult result (λ n. left self.old ≡ prepend_known (take n into.new) (left self.new)) (λ _. left self.new ≡ left self.old) }
        ensures end { IfOk result (λ n. n ≡ 0 → IsAtEnd (left self.old)) }
        ensures cause { HasCause (fault_count self.old) (fault_count self.new) result };

    /// How many calls failed, up to the end of `u64`.
    fn faults(&self) -> u64
        ensures { result ≡ fault_count self.now };
}

/// Where bytes go.
pub trait Sink {
    /// The bytes that were taken, where they are told.
    ghost taken: { Self → Option (List ℕ) };

    /// Those of them that have come to where they go, where they are told. The others wait in a buffer.
    ghost arrived: { Self → Option (List ℕ) };

    /// How many calls failed, up to the end of `u64`.
    ghost fault_count: { Self → ℕ };

    /// Takes the first bytes of `from`, at least one, and answers how many. A call that fails takes none, and is counted.
    fn write(&mut self, from: &[u8]) -> Result<usize, Failed>
        requires { 0 < length from.now }
        ensures count { IfOk result (λ n. (0 < n) × (n ≤ length from.now)) }
        ensures bytes { MatchResult result (λ n. taken self.new ≡ append_known (taken self.old) (take n from.now)) (λ _. taken self.new ≡ taken self.old) }
        ensures cause { HasCause (fault_count self.old) (fault_count self.new) result };

    /// Brings all bytes that were taken to where they go. A call that fails is counted.
    fn flush(&mut self) -> Result<(), Failed>
        ensures same { taken self.new ≡ taken self.old }
        ensures out { OnOk result (arrived self.new ≡ taken self.new) }
        ensures cause { HasCause (fault_count self.old) (fault_count self.new) result };

    /// How many calls failed, up to the end of `u64`.
    fn faults(&self) -> u64
        ensures { result ≡ fault_count self.now };
}
