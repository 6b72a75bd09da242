//! Runs in their segments. These functions do nothing: their clauses are laws.
ghost use Rattle.cod_advance.specs.Histories.{LeadsAreTurns};

/// What turns do to segments is what turns of a run do.
pub fn leads_are_turns()
    ensures { LeadsAreTurns }
{}
