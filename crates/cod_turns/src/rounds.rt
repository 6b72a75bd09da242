//! Laws of rounds, each the contract of a function that does nothing.
ghost use Rattle.cod_turns.specs.Progress.{GoingOnIsLess, TotalFalls, TotalHasBound, WorkHasBound};
ghost use Rattle.cod_turns.specs.Rounds.{RoundsFall, RunLeavesHistory, TurnsNeverRaise};

/// A run leaves one legal history.
pub fn run_leaves_history()
    ensures { RunLeavesHistory }
{}

/// No turn raises the measure.
pub fn turns_never_raise()
    ensures { TurnsNeverRaise }
{}

/// A round in which a client has a line left lowers it.
pub fn rounds_fall()
    ensures { RoundsFall }
{}

/// An event that goes on with a call leaves less work at its segment.
pub fn going_on_is_less()
    ensures { GoingOnIsLess }
{}

/// The work at a segment has a bound.
pub fn work_has_bound()
    ensures { WorkHasBound }
{}

/// Less work at one segment is less work in all.
pub fn total_falls()
    ensures { TotalFalls }
{}

/// The work of all segments has a bound.
pub fn total_has_bound()
    ensures { TotalHasBound }
{}
