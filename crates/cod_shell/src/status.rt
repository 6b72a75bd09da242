//! The statuses of the program.

/// The command was done, and its text was taken whole.
pub const DONE: u8 = 0;

/// The words are no command.
pub const BAD_WORDS: u8 = 2;

/// The source has no text of a scenario.
pub const REFUSED: u8 = 3;

/// The source failed.
pub const SOURCE_FAILED: u8 = 4;

/// The sink failed.
pub const SINK_FAILED: u8 = 5;

/// There was no memory.
pub const NO_MEMORY: u8 = 6;
