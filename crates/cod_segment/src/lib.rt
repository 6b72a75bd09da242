//! One segment over regions that may fail, in any state: its columns, its claims, its chronicle, and the rebuild in progress.
//! The events of a segment are made of what is here.
#![tactic(auto)]

mod asking;
mod rebuild;
mod segment;
mod tending;

pub use asking::{Asker, Outcome};
pub use rebuild::Rebuild;
pub use segment::Segment;
