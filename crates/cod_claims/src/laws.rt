//! What claims mean for the calls of their owners. These functions do nothing: their clauses are laws.
ghost use Rattle.cod_claims.specs.Changes.{MakesDelta};
ghost use Rattle.cod_claims.specs.Slips.{JoinsRange};
ghost use Rattle.cod_claims.specs.Claimed.{ClaimsLeaveOthers, ClaimsOpen, FreeOfOthers, KeepsApplied, OpensByClaim, OpensCall, OpensNone, ReleasesOne};
ghost use Rattle.cod_claims.specs.Left.{ClaimsLeave};

/// All claims of a caller are for one call, which is the one that the caller has open.
#[tactic(auto, using(crate::proofs::Opening::opens_call))]
pub fn opens_call()
    ensures { OpensCall }
{}

/// The call that a caller has open is that of a claim of its own.
pub fn opens_by_claim()
    ensures { OpensByClaim }
{}

/// A caller without a claim has no call open.
#[tactic(auto, using(crate::proofs::Opening::opens_none))]
pub fn opens_none()
    ensures { OpensNone }
{}

/// A caller that had no claim has the call open that it has made claims for.
pub fn claims_open()
    ensures { ClaimsOpen }
{}

/// Claims of unclaimed blocks leave what other callers have open.
#[tactic(auto, using(crate::proofs::Opening::claims_leave_others))]
pub fn claims_leave_others()
    ensures { ClaimsLeaveOthers }
{}

/// What claims for the parts of a range leave at each block.
pub fn claims_leave()
    ensures { ClaimsLeave }
{}

/// A claim's kept delta is its delta, where that was applied, and else adds nothing.
pub fn keeps_applied()
    ensures { KeepsApplied }
{}

/// A caller that is released has nothing open, and what others have open stays.
#[tactic(auto, using(crate::proofs::Opening::releases_one))]
pub fn releases_one()
    ensures { ReleasesOne }
{}

/// A delta that is made is, place by place, the old byte xor the new one.
pub fn makes_delta()
    ensures { MakesDelta }
{}

/// Where no wanted block is another caller's, and the caller has no claim, no wanted block is claimed.
pub fn free_of_others()
    ensures { FreeOfOthers }
{}

/// The bytes that the deltas of a range's parts hold are together as many as the range has.
pub fn joins_range()
    ensures { JoinsRange }
{}
