//! Laws of the runs of texts, each the contract of a function that does nothing.
ghost use Rattle.cod_turns.specs.Texts.{TextRunsAreHistories, TextRunsAreSmall};

/// What a run of a text's scenario leaves is one legal history.
pub fn text_runs_are_histories()
    ensures { TextRunsAreHistories }
{}

/// Its stamps are below 2^26.
pub fn text_runs_are_small()
    ensures { TextRunsAreSmall }
{}
