//! What reading by parts means for the whole segment. These functions do nothing: their clauses are laws.
ghost use Rattle.cod_layout.specs.Blocks.{FillsByParts, ReadsByParts};

/// A range that is read from the blocks part after part is the range of the segment.
#[tactic(auto, using(crate::proofs::Blocks::reads_by_parts))]
pub fn reads_by_parts()
    ensures { ReadsByParts }
{}

/// A buffer into which the parts are brought, each to its place, has the range of the segment.
#[tactic(auto, using(crate::proofs::Blocks::fills_by_parts))]
pub fn fills_by_parts()
    ensures { FillsByParts }
{}
