//! Why a text is no scenario.
ghost use Rattle.std.specs.Prelude.{◌≡◌};
ghost use Rattle.cod_scenario.specs.declared.refusal.LineError.TheVariants as line_errors;
ghost use Rattle.cod_scenario.specs.declared.refusal.ScenarioError.TheVariants as errors;

use std::alloc::{AllocError, AllocFailed};
use thiserror::Error;

/// Why a line is refused. Where several reasons hold, the first of this order is given.
#[derive(Clone, Copy, Debug, PartialEq, Eq)]
pub enum Refusal {
    /// A byte is outside 20 to 7e, but for one byte 0d at the line's end.
    BadByte,
    /// Words stand after the `end` line.
    AfterEnd,
    /// The first word begins no line.
    Word,
    /// A line with this first word may not stand here.
    Order,
    /// There are too few or too many words.
    Count,
    /// A word is no number.
    Number,
    /// A number is outside its limits, or there is one segment or client too many.
    Field,
    /// A word is no name.
    Name,
    /// A new name is there already.
    Twice,
    /// A name isn't there.
    Unknown,
    /// A number is no node's.
    Node,
    /// A word is no bytes.
    Data,
    /// A file call's range passes the file's end.
    Beyond,
    /// The run would move too many bytes.
    TooLarge,
    /// A column of the segment has no room on its node.
    Room,
    /// No `end` line came. The line is the one after the last.
    NoEnd,
    /// The text has more than 2^24 bytes. The line is 0.
    TooLong,
}

/// Why a line wasn't read.
#[derive(Clone, Copy, Debug, PartialEq, Eq, Error)]
#[error("the line was not read")]
pub enum LineError {
    /// It may not stand here, for this reason.
    Refused(Refusal),
    /// Memory could not be had.
    OutOfMemory,
}

impl From<Refusal> for LineError {
    ghost from_gives = { λ why e. e ≡ line_errors.Refused why };

    fn from(why: Refusal) -> LineError {
        LineError::Refused(why)
    }
}

impl From<AllocError> for LineError {
    ghost from_gives = { λ _ e. e ≡ line_errors.OutOfMemory };

    fn from(_refused: AllocError) -> LineError {
        LineError::OutOfMemory
    }
}

impl<T: Drop> From<AllocFailed<T>> for LineError {
    ghost from_gives = { λ _ e. e ≡ line_errors.OutOfMemory };

    fn from(_refused: AllocFailed<T>) -> LineError {
        LineError::OutOfMemory
    }
}

impl From<cod_types::OutOfMemory> for LineError {
    ghost from_gives = { λ _ e. e ≡ line_errors.OutOfMemory };

    fn from(_refused: cod_types::OutOfMemory) -> LineError {
        LineError::OutOfMemory
    }
}

/// Why a text wasn't read.
#[derive(Clone, Copy, Debug, PartialEq, Eq, Error)]
#[error("no scenario was read")]
pub enum ScenarioError {
    /// It is no scenario: the first line that is refused, and why. Line 0 is the whole text.
    Refused { line: u32, why: Refusal },
    /// Memory could not be had.
    OutOfMemory,
}

impl From<AllocError> for ScenarioError {
    ghost from_gives = { λ _ e. e ≡ errors.OutOfMemory };

    fn from(_refused: AllocError) -> ScenarioError {
        ScenarioError::OutOfMemory
    }
}

impl From<cod_types::OutOfMemory> for ScenarioError {
    ghost from_gives = { λ _ e. e ≡ errors.OutOfMemory };

    fn from(_refused: cod_types::OutOfMemory) -> ScenarioError {
        ScenarioError::OutOfMemory
    }
}
