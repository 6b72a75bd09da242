//! A parity column: a parity block, and behind it a log of records in reserved space that shrinks with its use.
//!
//! An update isn't worked into the block where it comes. Its record is written behind the log by one write, and the log is
//! worked into the block where there is no more room or a tick comes. A record counts as a part of the block's value
//! where its number is at or below the cut of its data block, and is in flight where it is past it.
#![tactic(auto)]

mod column;
pub mod laws;
mod log;
mod spelling;
mod tick;

pub use column::ParityColumn;
pub use log::{add_log, add_record};
pub use spelling::record_len;
