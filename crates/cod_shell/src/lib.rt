//! What stands round a run, whichever way it runs: the statuses, reading the source whole, the line of a refusal, the lines of
//! columns and nodes, and the last flush.
#![tactic(auto)]

pub mod finishing;
pub mod input;
pub mod nodes;
pub mod pieces;
pub mod printing;
pub mod refusing;
mod status;
pub mod within;

pub use status::{BAD_WORDS, DONE, NO_MEMORY, REFUSED, SINK_FAILED, SOURCE_FAILED};
