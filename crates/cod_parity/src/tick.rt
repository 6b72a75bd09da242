//! The tick, by which the reserved space of a parity column shrinks.
ghost use Rattle.std.specs.Prelude.{◌≡◌, ◌+◌, ◌≤◌, ℕ, List, Option, min, true, length, MatchResult, OnOk, IsOk};
ghost use Rattle.std.specs.List.{flat_map, filter};
ghost use Rattle.std.specs.Option.{is_some};
ghost use Rattle.cod_types.specs.Faults.{HasCause};
ghost use Rattle.cod_types.specs.Limits.{floor};
ghost use Rattle.cod_predict.specs.Average.{target_size};
ghost use Rattle.cod_parity.specs.Log.{is_past, IsValue, Logged, text};
ghost use Rattle.cod_parity.specs.State.{averaged, IsKept, Means};
ghost use Rattle.cod_parity.specs.Calls.{FailsShrink, Shrinks};
ghost use Rattle.cod_parity.specs.Held.{Holds, Piece};

use crate::ParityColumn;
use cod_predict::{Policy, Rule, target};
use cod_region::Region;
use cod_types::{Cuts, Failed};

impl<R: Region> ParityColumn<R> {
    /// The policy takes the bytes that were appended since the last tick, at most the whole size, for the use of the
    /// reserved space, and gives the next average. Then the log is merged, and the reserved space cut to the size that
    /// follows from the average, where that is less. It answers the bytes cut off. The average has changed also where the
    /// merge or the cut then fails.
    pub fn tick<P: Rule>(
        &mut self,
        policy: &Policy<P>,
        cuts: &Cuts,
        scratch: &mut [u8],
    ) -> Result<u32, Failed>
        requires room { (base : List ℕ) (records : List Logged) → Means self.old base records
            → length (flat_map text (filter (is_past cuts.now) records)) ≤ floor self.old.shape }
        requires scratch { self.old.shape.block + self.old.shape.reserve ≤ length scratch.old }
        ensures average { self.new.average ≡ P.answer policy.now.rule (min self.old.appended self.old.size) self.old.size self.old.average }
        ensures shrinks { MatchResult result
            (λ cut. (cut + self.new.size ≡ self.old.size)
            × Shrinks cuts.now (target_size self.old.shape self.old.size self.new.average) (averaged self.new.average self.old) self.new)
            (λ _. FailsShrink cuts.now (target_size self.old.shape self.old.size self.new.average) (averaged self.new.average self.old) self.new) }
        ensures means { (base : List ℕ) (records : List Logged) → Means self.old base records
            → OnOk result ((next : List ℕ) × Means self.new next (filter (is_past cuts.now) records) × IsValue cuts.now base records next) }
        ensures holds { (v : ℕ → ℕ) (p : ℕ → Option Piece) → Holds self.old cuts.now v p → OnOk result (Holds self.new cuts.now v p) }
        ensures kept { IsKept self.new }
        ensures shorter { self.new.device.size ≤ self.old.device.size }
        ensures same { (self.new.shape ≡ self.old.shape) × (self.new.device.never_fails ≡ self.old.device.never_fails)
            × (is_some self.new.device.content ≡ is_some self.old.device.content) }
        ensures cause { HasCause self.old.device.faults self.new.device.faults result }
        ensures sure { self.old.device.never_fails ≡ true → IsOk result }
    {
        self.average_use(policy);
        self.merge(cuts, scratch)?;
        let size = target(&self.shape, self.size, self.average);
        self.cut(size)
    }

    /// The next average, from what was appended.
    fn average_use<P: Rule>(&mut self, policy: &Policy<P>)
        ensures average { self.new.average ≡ P.answer policy.now.rule (min self.old.appended self.old.size) self.old.size self.old.average }
        ensures is { self.new ≡ averaged self.new.average self.old }
    {
        let _columns = self.shape.k(); // the limits of a geometry are told here
        let used = self.appended.min(self.size as u64) as u32;
        self.average = policy.next(used, self.size, self.average);
        self.appended = 0;
    }
}
