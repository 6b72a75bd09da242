//! A run's segments as a world of turns. These functions do nothing: their clauses are laws.
ghost use Rattle.cod_advance.specs.Worlds.{AllWorkIsBounded, EndingIsTurn, FailingIsTurn, ServingIsProgress, ServingIsTurn, ServingKeeps, SettingIsSegments};
ghost use Rattle.cod_advance.specs.Worlds.{NewAreSegments, StartIsStart};

/// A turn with a segment goes on at that segment's site.
pub fn setting_is_segments()
    ensures { SettingIsSegments }
{}

/// New segments at the course's sites are segments of the course.
pub fn new_are_segments()
    ensures { NewAreSegments }
{}

/// New segments, with no node killed and each client at its first line, are the start of a run.
pub fn start_is_start()
    ensures { StartIsStart }
{}

/// Where one segment has an event of a client's call, and the others stay, that is the client's turn.
pub fn serving_is_turn()
    ensures { ServingIsTurn }
{}

/// It leaves sound segments of the course.
pub fn serving_keeps()
    ensures { ServingKeeps }
{}

/// A node that is killed by a client's line is that client's turn.
pub fn failing_is_turn()
    ensures { FailingIsTurn }
{}

/// A client without a line has a turn in which nothing changes.
pub fn ending_is_turn()
    ensures { EndingIsTurn }
{}

/// The work of all segments has a bound.
pub fn all_work_is_bounded()
    ensures { AllWorkIsBounded }
{}

/// A turn with a segment does to it what makes rounds end: a call that goes on leaves less, one that waits no more.
pub fn serving_is_progress()
    ensures { ServingIsProgress }
{}
