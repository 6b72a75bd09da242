//! Laws of printed texts, each the contract of a function that does nothing.
ghost use Rattle.cod_text.specs.Alone.{IsPrintedAlone, NeedsNoLines};
ghost use Rattle.cod_text.specs.Unique.{IsReadOneWay, ScenarioHasNames};

/// The text of one segment's chronicle has a line for each entry, in the chronicle's order.
#[tactic(auto, using(crate::proofs::One_segment::printed_alone))]
pub fn printed_alone()
    ensures { IsPrintedAlone }
{}

/// For one scenario, chronicles with equal text are equal.
#[tactic(auto, using(crate::proofs::Back::read_one_way))]
pub fn read_one_way()
    ensures { IsReadOneWay }
{}

/// Every scenario has the names by which `read_one_way` tells its segments and clients apart.
#[tactic(auto, using(crate::proofs::ScenarioNames::scenario_has_names))]
pub fn scenario_has_names()
    ensures { ScenarioHasNames }
{}

/// The text of a run's chronicles is the same where a client's lines were taken out of the scenario.
#[tactic(auto, using(crate::proofs::Taken::needs_no_lines))]
pub fn needs_no_lines()
    ensures { NeedsNoLines }
{}
