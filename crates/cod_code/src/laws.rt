//! The laws of the code, each the clause of a function that does nothing.

ghost use Rattle.cod_code.specs.Laws.{QuotientIsTheOne, AnyPlacesDetermine, DataBeginOneCodeword, PlaceIsSum, CoefficientsAddUpToOne};
ghost use Rattle.cod_code.specs.Encoding.{CodedIsCodeword, CodedChanges};
ghost use Rattle.cod_code.specs.Decoding.{DecodedIsPlace, SourcesBeginOneCodeword};
ghost use Rattle.cod_code.specs.SegmentLaws.{ColumnHasCodewordBytes, ColumnsAreCodewords, DataColumnIsBlock, RowGivesColumn, DecodingGivesColumn};
ghost use Rattle.cod_code.specs.SegmentLaws.{BlockChangesColumn, BlocksChangeColumn, OtherPlacesStay, ZerosHaveZeroColumns};

/// The quotient of two bytes is the one byte whose product with the divisor is the dividend.
#[tactic(auto, using(crate::proofs::Quotients::quotient_is_the_one))]
pub fn quotient_is_the_one()
    ensures { QuotientIsTheOne }
{}

/// Two codewords that are equal at as many places as there are data columns are equal.
#[tactic(auto, using(crate::proofs::CodewordLaws::any_places_determine))]
pub fn any_places_determine()
    ensures { AnyPlacesDetermine }
{}

/// Data bytes begin exactly one codeword.
#[tactic(auto, using(crate::proofs::CodewordLaws::data_begin_one_codeword))]
pub fn data_begin_one_codeword()
    ensures { DataBeginOneCodeword }
{}

/// Each place of a codeword is the sum of the data bytes, each times its coefficient.
pub fn place_is_sum()
    ensures { PlaceIsSum }
{}

/// The coefficients of each column add up to 1.
#[tactic(auto, using(crate::proofs::CodewordLaws::coefficients_add_up_to_one))]
pub fn coefficients_add_up_to_one()
    ensures { CoefficientsAddUpToOne }
{}

/// The bytes of the columns are the codeword that begins with the data bytes.
pub fn coded_is_codeword()
    ensures { CodedIsCodeword }
{}

/// A change of one data byte changes each column by its coefficient times the change.
#[tactic(auto, using(crate::proofs::Encoding::coded_changes))]
pub fn coded_changes()
    ensures { CodedChanges }
{}

/// Each place of a codeword by those of the sources, whatever the other places hold.
pub fn decoded_is_place()
    ensures { DecodedIsPlace }
{}

/// Bytes at as many columns as there are data columns begin exactly one codeword.
pub fn sources_begin_one_codeword()
    ensures { SourcesBeginOneCodeword }
{}

/// A column of a segment is the one list that has the bytes of the codewords of its places.
pub fn column_has_codeword_bytes()
    ensures { ColumnHasCodewordBytes }
{}

/// The bytes of all columns at a place are a codeword.
pub fn columns_are_codewords()
    ensures { ColumnsAreCodewords }
{}

/// A data column is its block of the segment.
#[tactic(auto, using(crate::proofs::Segments::data_column_is_block))]
pub fn data_column_is_block()
    ensures { DataColumnIsBlock }
{}

/// Encoding place by place with the row of a column gives the column.
#[tactic(auto, using(crate::proofs::Segments::row_gives_column))]
pub fn row_gives_column()
    ensures { RowGivesColumn }
{}

/// Decoding place by place from as many columns as there are data columns gives each column.
pub fn decoding_gives_column()
    ensures { DecodingGivesColumn }
{}

/// A change of a block at a place changes each column there by its coefficient times the change.
#[tactic(auto, using(crate::proofs::Segments::block_changes_column))]
pub fn block_changes_column()
    ensures { BlockChangesColumn }
{}

/// A change of several blocks at a place changes each column there by the sum of the changes, each times its coefficient.
pub fn blocks_change_column()
    ensures { BlocksChangeColumn }
{}

/// Where no block changes, no column does.
#[tactic(auto, using(crate::proofs::Segments::other_places_stay))]
pub fn other_places_stay()
    ensures { OtherPlacesStay }
{}

/// A segment of zeros has columns of zeros.
#[tactic(auto, using(crate::proofs::Segments::zeros_have_zero_columns))]
pub fn zeros_have_zero_columns()
    ensures { ZerosHaveZeroColumns }
{}
