//! Laws of canonical texts, each the contract of a function that does nothing.
ghost use Rattle.cod_canonical.specs.Again.{IsReadAgain, IsWrittenAgain};

/// The canonical text of what a text gives is read as the same scenario, but for the numbers of the lines, wherever it isn't
/// longer than a text may be.
pub fn canonical_is_read_again()
    ensures { IsReadAgain }
{}

/// What is read from the canonical text of a scenario that a text gave is written as the same bytes.
pub fn canonical_is_written_again()
    ensures { IsWrittenAgain }
{}
