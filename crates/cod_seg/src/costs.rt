//! What an event costs in device calls. These functions do nothing: their clauses are laws.
ghost use Rattle.cod_seg.specs.Calls.{ReadsDirectly, SourcesAreEnough, TestsDue};

/// A block that is down is read from exactly k columns.
pub fn sources_are_enough()
    ensures { SourcesAreEnough }
{}

/// A range whose blocks are up is read by one read of each.
pub fn reads_directly()
    ensures { ReadsDirectly }
{}

/// Whether a merge is due is told by the least numbers.
pub fn tests_due()
    ensures { TestsDue }
{}
