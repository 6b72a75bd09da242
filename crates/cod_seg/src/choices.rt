//! What the choice of a call's next step means. These functions do nothing: their clauses are laws.
ghost use Rattle.cod_seg.specs.Choices.{AnswersAtOnce, BeginWhereFree, CommitWhereEverywhere, DataWhereDue, DrainWhereLive, EndWhereWhole};
ghost use Rattle.cod_seg.specs.Choices.{HeldByOpen, HeldExactly, HolderByBits, OpenIsFree, ParityWhereDue, PieceWhereNotWhole, PutWhereVacant};
ghost use Rattle.cod_seg.specs.Choices.{StartWhereNoTarget};

/// An update begins where its caller has no claim and its blocks are free.
pub fn begin_where_free()
    ensures { BeginWhereFree }
{}

/// A put is made where no other caller has a claim.
pub fn put_where_vacant()
    ensures { PutWhereVacant }
{}

/// A part is written in place where its column is up and doesn't have it.
pub fn data_where_due()
    ensures { DataWhereDue }
{}

/// It is noted on a parity column that is up and has no record of it, once all data columns that are up have their parts.
pub fn parity_where_due()
    ensures { ParityWhereDue }
{}

/// An update is committed where it has been done on each column that is up.
pub fn commit_where_everywhere()
    ensures { CommitWhereEverywhere }
{}

/// A call is held exactly where another caller has a block that it wants, or for a rebuild or a drain another rebuild in progress.
pub fn held_exactly()
    ensures { HeldExactly }
{}

/// Whoever holds a call is another caller, with a call of its own open.
pub fn held_by_open()
    ensures { HeldByOpen }
{}

/// A caller with a call open is never held with it.
pub fn open_is_free()
    ensures { OpenIsFree }
{}

/// A rebuild takes a target where a column is down, and it has none yet.
pub fn start_where_no_target()
    ensures { StartWhereNoTarget }
{}

/// It brings bytes where its target lacks some.
pub fn piece_where_not_whole()
    ensures { PieceWhereNotWhole }
{}

/// It ends where its target has all.
pub fn end_where_whole()
    ensures { EndWhereWhole }
{}

/// A drain moves the live column that is on its node, while no other caller's rebuild is in progress.
pub fn drain_where_live()
    ensures { DrainWhereLive }
{}

/// What a call is answered without a device call is right.
pub fn answers_at_once()
    ensures { AnswersAtOnce }
{}

/// Who holds a call is found by its wanted blocks as bits, as claims are asked.
pub fn holder_by_bits()
    ensures { HolderByBits }
{}
