//! For which list of entries a value stands.
ghost use Rattle.std.specs.Prelude.{◌≡◌};

use crate::Chronicle;

/// A value that has a chronicle, as the columns of a segment have one. For contracts it has four things beside the
/// entries: which call each caller has open, a gauge of numbers, what one event may make of all these, and a name that no
/// event changes.
pub trait Stands: Drop {
    ghost use Rattle.std.specs.Prelude.{◌≡◌, List, ℕ};
    ghost use Rattle.cod_chronicle.specs.Standing.{OpenCalls};
    ghost use Rattle.cod_chronicle.specs.declared.entry.Entry.{Entry};

    ghost entries: { Self → List Entry };

    ghost name: { Self → List ℕ };

    ghost gauge: { Self → List ℕ };

    ghost open_calls: { Self → OpenCalls };

    // One event of a caller leads from entries, gauge and open calls to the next ones.
    ghost event: { ℕ → List Entry → List ℕ → OpenCalls → List Entry → List ℕ → OpenCalls → Type 0 };

    /// The chronicle, to be read.
    fn chronicle(&self) -> &Chronicle
        ensures { result.now ≡ entries self.now };
}

/// A chronicle stands for its own entries. It has no name, no gauge and no open call, and any event may be.
impl Stands for Chronicle {
    ghost use Rattle.std.specs.Prelude.{[], None};

    ghost entries = { λ s. s };

    ghost name = { λ _. [] };

    ghost gauge = { λ _. [] };

    ghost open_calls = { λ _ _. None };

    ghost event = { λ _ _ _ _ _ _ _. Unit {0} };

    fn chronicle(&self) -> &Chronicle {
        self
    }
}
