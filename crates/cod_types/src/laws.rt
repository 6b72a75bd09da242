//! What follows from a call's and a segment's numbers. These functions do nothing: their clauses are laws.
ghost use Rattle.cod_types.specs.Accepted.{ReadsInside, WritesUpdate, SwapsUpdate, PutsWhole};
ghost use Rattle.cod_types.specs.Columns.{HomesDiffer};

/// A call that its own numbers don't refuse lies in the segment, and an update is no longer than updates may be.
pub fn accepted_lies_inside()
    ensures read { ReadsInside }
    ensures write { WritesUpdate }
    ensures swap { SwapsUpdate }
    ensures put { PutsWhole }
{}

/// Two columns of a segment stand on two nodes at first, where there are enough.
#[tactic(auto, using(crate::proofs::Homes::homes_differ))]
pub fn homes_differ()
    ensures { HomesDiffer }
{}
