//! One event of a segment is a turn's. These functions do nothing: their clauses are laws.
ghost use Rattle.cod_advance.specs.Served.{EventIsStep, EventIsTurn, SteppedIsStep};

/// A caller's event of a segment is one event of its chronicle, on any board: it leaves open what came of it, and the segment sound.
pub fn event_is_step()
    ensures { EventIsStep }
{}

/// So the chronicle steps on, as others see it who take turns with it.
pub fn stepped_is_step()
    ensures { SteppedIsStep }
{}

/// While no node is killed it is what a turn of a run says: a sweep, and then a step that finds no killed node.
pub fn event_is_turn()
    ensures { EventIsTurn }
{}
