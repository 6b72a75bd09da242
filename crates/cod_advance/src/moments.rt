//! What holds at each moment of a run. These functions do nothing: their clauses are laws.
ghost use Rattle.cod_advance.specs.Moments.{FailingKeepsSlips, FirstHasSlips, FirstIsMoment, LineIsThere, MomentHasRoom, NumberIsSmall, ServingKeepsSlips};
ghost use Rattle.cod_advance.specs.Moments.{SlipIsAsked, TurnLeadsOn};

/// A run begins with new segments.
pub fn first_is_moment()
    ensures { FirstIsMoment }
{}

/// Each turn leads on.
pub fn turn_leads_on()
    ensures { TurnLeadsOn }
{}

/// A client's line names what is there.
pub fn line_is_there()
    ensures { LineIsThere }
{}

/// Its call's number has 32 bits, also with one more.
pub fn number_is_small()
    ensures { NumberIsSmall }
{}

/// A segment's chronicle always has room for what a turn adds.
pub fn moment_has_room()
    ensures { MomentHasRoom }
{}

/// A client's slip is what an event of its call asks for.
pub fn slip_is_asked()
    ensures { SlipIsAsked }
{}

/// At first each client has its slip.
pub fn first_has_slips()
    ensures { FirstHasSlips }
{}

/// A turn with a segment keeps all slips as they have to be.
pub fn serving_keeps_slips()
    ensures { ServingKeepsSlips }
{}

/// So does a node's failure.
pub fn failing_keeps_slips()
    ensures { FailingKeepsSlips }
{}
