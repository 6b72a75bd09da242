//! The law of callers that share the segments, the contract of a function that does nothing.
ghost use Rattle.cod_turns.specs.Closed.{ClosedIsHistory};

/// What callers leave that share the segments is one legal history.
pub fn closed_is_history()
    ensures { ClosedIsHistory }
{}
