//! The laws of records' texts.
ghost use Rattle.cod_record.specs.Laws.{HeadBeginsRecord, OneRecord, OneSparseText, SparseRanges};

/// No record's text begins another's. So the texts of records, one after another, can be read back.
#[tactic(auto, using(crate::proofs::Texts::same_record))]
pub fn one_record()
    ensures { OneRecord }
{}

/// What `write_head` writes and as many bytes as the head tells are a record's text.
pub fn head_begins_record()
    ensures { HeadBeginsRecord }
{}

/// Two lists of ranges of the second version that are the same bytes, written over zeros, are the same.
/// So bytes at a place have one text of the second version.
#[tactic(auto, using(crate::proofs::Ranges::same_ranges))]
pub fn one_sparse_text()
    ensures { OneSparseText }
{}

/// The ranges that are written for bytes at a place are the second version's, and have those bytes and zeros elsewhere.
pub fn sparse_ranges()
    ensures { SparseRanges }
{}
