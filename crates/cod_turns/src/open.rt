//! Laws of turns and of what is open in a run, each the contract of a function that does nothing.
ghost use Rattle.cod_turns.specs.Open.{EndsWithNothingOpen, OpenIsOfItsLine, StartIsOfItsLines};
ghost use Rattle.cod_turns.specs.Rounds.{RunLeavesNothingOpen};
ghost use Rattle.cod_turns.specs.Turns.{TurnTellsOfLine};

/// A turn's outcome tells whether a line was left, and whether it was a node's failure.
pub fn turn_tells_of_line()
    ensures { TurnTellsOfLine }
{}

/// At first nothing is open.
pub fn start_is_of_its_lines()
    ensures { StartIsOfItsLines }
{}

/// What a client has open is the call of the line that it has come to.
pub fn open_is_of_its_line()
    ensures { OpenIsOfItsLine }
{}

/// Where each client has ended, nothing is open.
pub fn ends_with_nothing_open()
    ensures { EndsWithNothingOpen }
{}

/// After a run nothing is open.
pub fn run_leaves_nothing_open()
    ensures { RunLeavesNothingOpen }
{}
