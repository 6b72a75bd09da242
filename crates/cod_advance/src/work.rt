//! What an event does to the work that is left at its segment. These functions do nothing: their clauses are laws.
ghost use Rattle.cod_advance.specs.Work.{EventIsProgress, HoldingAddsNone, MovingLessens, WorkIsBounded};

/// An event that goes on with a call leaves less to do at its segment.
pub fn moving_lessens()
    ensures { MovingLessens }
{}

/// Where a call is held there is no more to do than before.
pub fn holding_adds_none()
    ensures { HoldingAddsNone }
{}

/// What is left to do at a segment has a bound, whichever nodes are killed.
pub fn work_is_bounded()
    ensures { WorkIsBounded }
{}

/// So an event does to the work what makes rounds of turns end.
pub fn event_is_progress()
    ensures { EventIsProgress }
{}
