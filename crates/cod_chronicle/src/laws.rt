//! Laws of chronicles, each the contract of a function that does nothing.
ghost use Rattle.cod_chronicle.specs.Laws.{AnswersQuietly, EndsSettled, HasFewCalls, HasFewEntries, IsChronicleBehind, IsLegalBehind, IsLegalIfTold};
ghost use Rattle.cod_chronicle.specs.Laws.{IsLostForGood, KeepsEachOrder, KeepsLength, NodesAreApart, SaysEachNext, WasLegal};

/// Once too many columns are down no column comes up or moves, and each later call is refused.
#[tactic(auto, using(crate::proofs::Legality::lost_for_good))]
pub fn lost_for_good()
    ensures { IsLostForGood }
{}

/// A legal chronicle was legal all along, but between a column's coming to a node and the call that brought it.
#[tactic(auto, using(crate::proofs::Legality::was_legal))]
pub fn was_legal()
    ensures { WasLegal }
{}

/// A legal chronicle with more entries is legal exactly where these fit.
#[tactic(auto, using(crate::proofs::Legality::legal_behind))]
pub fn legal_behind()
    ensures { IsLegalBehind }
{}

/// A chronicle with one entry more is one exactly where that entry's stamp and number follow.
#[tactic(auto, using(crate::proofs::Growth::chronicle_behind))]
pub fn chronicle_behind()
    ensures { IsChronicleBehind }
{}

/// What a chronicle says with one entry more: its clock, its columns, their nodes and the bytes.
pub fn says_next()
    ensures { SaysEachNext }
{}

/// The bytes that a legal chronicle leaves are as many as a segment has.
#[tactic(auto, using(crate::proofs::Bytes_kept::keeps_length))]
pub fn keeps_length()
    ensures { KeepsLength }
{}

/// A chronicle that is legal over regions that tell what they hold is legal over others too.
#[tactic(auto, using(crate::proofs::Bytes_kept::legal_if_told))]
pub fn legal_if_told()
    ensures { IsLegalIfTold }
{}

/// A legal chronicle ends with no column's coming to a node.
#[tactic(auto, using(crate::proofs::Legality::ends_settled))]
pub fn ends_settled()
    ensures { EndsSettled }
{}

/// The columns of a legal chronicle are on different nodes.
#[tactic(auto, using(crate::proofs::Nodes::nodes_are_apart))]
pub fn nodes_are_apart()
    ensures { NodesAreApart }
{}

/// A merge, a tick, an upgrade and a write of no bytes are done or lost, and change no byte.
#[tactic(auto, using(crate::proofs::Answering::answers_quietly))]
pub fn answers_quietly()
    ensures { AnswersQuietly }
{}

/// A legal chronicle has at most three entries for each call, and one for each column.
#[tactic(auto, using(crate::proofs::Entry_count::has_few_entries))]
pub fn has_few_entries()
    ensures { HasFewEntries }
{}

/// A chronicle has at most as many calls as its callers have numbers.
#[tactic(auto, using(crate::proofs::Entry_count::has_few_calls))]
pub fn has_few_calls()
    ensures { HasFewCalls }
{}

/// In the order of all entries a caller's calls stand as it made them.
#[tactic(auto, using(crate::proofs::Shares::keeps_each_order))]
pub fn keeps_each_order()
    ensures { KeepsEachOrder }
{}
