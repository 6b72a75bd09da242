//! Laws of whole runs, each the contract of a function that does nothing.
ghost use Rattle.cod_turns.specs.Whole_runs.{FailsAreKills, LinesAreApart, RunsAreHistories, RunsAreSmall};

/// Turns from the start until each client has ended leave one legal history.
pub fn runs_are_histories()
    ensures { RunsAreHistories }
{}

/// After them exactly those nodes are killed that a `fail` line names.
pub fn fails_are_kills()
    ensures { FailsAreKills }
{}

/// In a scenario a line's number tells where it stands.
pub fn lines_are_apart()
    ensures { LinesAreApart }
{}

/// At each moment of a run there are few entries, and no stamp is greater than their number.
pub fn runs_are_small()
    ensures { RunsAreSmall }
{}
