//! Laws of what a pass has worked, each the contract of a function that does nothing.
ghost use Rattle.cod_accounts.specs.Working.{CallIsLine, CallLeavesReady, KillIsLine, MeetingKeeps, NewHasWorked};

use cod_chronicle::Stands;

/// A new pass has worked nothing.
pub fn new_has_worked<T: Stands>()
    ensures { NewHasWorked T.entries T.open_calls }
{}

/// A call that was answered is one line more.
pub fn call_is_line<T: Stands>()
    ensures { CallIsLine T.entries T.open_calls }
{}

/// So is the kill of a node.
pub fn kill_is_line<T: Stands>()
    ensures { KillIsLine T.entries T.open_calls }
{}

/// A pass that is told a stamp has worked the same lines.
pub fn meeting_keeps<T: Stands>()
    ensures { MeetingKeeps T.entries T.open_calls }
{}

/// A call leaves its pass's seats ready for the next one.
pub fn call_leaves_ready<T: Stands>()
    ensures { CallLeavesReady T.entries T.open_calls }
{}
