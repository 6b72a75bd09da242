//! Laws of what passes leave at the end, each the contract of a function that does nothing.
ghost use Rattle.cod_accounts.specs.Closing.{ClientFulfils, EntriesAreCaused, JoinedBoardCloses, JoinedSeatsClose, OthersOweNothing, WorkedIsClosed};
ghost use Rattle.cod_accounts.specs.Closing.{WorkedIsHistory, WorkerFulfils};

use cod_chronicle::Stands;

/// A segment's turn that was closed by the joined seats of all passes has what each pass did there, and nothing else.
pub fn joined_seats_close<T: Stands>()
    ensures { JoinedSeatsClose T.name T.entries T.open_calls }
{}

/// A board that was closed by the joined seats of all passes has the kills that they made.
pub fn joined_board_closes<T: Stands>()
    ensures { JoinedBoardCloses T }
{}

/// A client's pass that has worked the client's lines has done what the client owes.
pub fn client_fulfils<T: Stands>()
    ensures { ClientFulfils T.entries T.open_calls }
{}

/// So has a care worker's that has worked its rounds.
pub fn worker_fulfils<T: Stands>()
    ensures { WorkerFulfils T.entries T.open_calls }
{}

/// Nobody else owes anything.
pub fn others_owe_nothing()
    ensures { OthersOweNothing }
{}

/// Each entry at the end was added by a pass, and has its cause on the board.
pub fn entries_are_caused<T: Stands>()
    ensures { EntriesAreCaused T.name T.entries T.open_calls }
{}

/// What passes have worked is what callers leave that share the segments.
pub fn worked_is_closed<T: Stands>()
    ensures { WorkedIsClosed T.name T.entries T.open_calls }
{}

/// So it is one legal history of the scenario.
pub fn worked_is_history<T: Stands>()
    ensures { WorkedIsHistory T.name T.entries T.open_calls }
{}
