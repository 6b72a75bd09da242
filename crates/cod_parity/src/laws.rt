//! The laws of what a parity column holds.
ghost use Rattle.cod_parity.specs.Laws.{AppendedLength, DueByLength, DueOrNot, DueWhenCommitted, DueWhereIncluded, HeldAgain, HeldElsewhere, HeldLength};
ghost use Rattle.cod_parity.specs.Laws.{MergedLength};
ghost use Rattle.cod_parity.specs.Laws.{OneMeaning, OneValue, PieceMost, PiecesFit, RaisedCut, RaisedCuts, RecordFits};

/// What a column's state means is one base and one list of records.
pub fn one_meaning()
    ensures { OneMeaning }
{}

/// A column has one value at a cut.
pub fn one_value()
    ensures { OneValue }
{}

/// The least numbers are due exactly where some record is at or below its cut.
pub fn due_where_included()
    ensures { DueWhereIncluded }
{}

/// What the records add at higher cuts is what they add now, and what those past the cut add then.
pub fn raised_cuts()
    ensures { RaisedCuts }
{}

/// One block's cut raised by one moves its update in flight into the value, and touches no region.
pub fn raised_cut()
    ensures { RaisedCut }
{}

/// Equal values and equal pieces are held alike.
pub fn held_again()
    ensures { HeldAgain }
{}

/// What is held is told by the geometry, the bytes in use, the least numbers and the region's content alone.
pub fn held_elsewhere()
    ensures { HeldElsewhere }
{}

/// The records past the cut have just the bytes that the pieces tell.
pub fn held_length()
    ensures { HeldLength }
{}

/// After a merge those are all the bytes in use.
pub fn merged_length()
    ensures { MergedLength }
{}

/// And after an append that merges they are, with the record's own.
pub fn appended_length()
    ensures { AppendedLength }
{}

/// A merge is due exactly where there are more bytes in use than the pieces tell.
pub fn due_by_length()
    ensures { DueByLength }
{}

/// So where nothing is in flight, it is due exactly where there is a record.
pub fn due_when_committed()
    ensures { DueWhenCommitted }
{}

/// Whether a number is due is decided.
pub fn due_or_not()
    ensures { DueOrNot }
{}

/// A piece's record isn't longer than a record of its bytes may be.
pub fn piece_most()
    ensures { PieceMost }
{}

/// One piece for each block at most, each of at most an update's bytes, take no more than the floor. So a tick keeps what
/// is in flight.
pub fn pieces_fit()
    ensures { PiecesFit }
{}

/// And one record more fits beside them, of a block that has none in flight. So an append fits after a merge.
pub fn record_fits()
    ensures { RecordFits }
{}
