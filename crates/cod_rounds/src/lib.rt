//! The events of a segment that go round its columns: merges, ticks and puts. Each calls the regions of live columns in order, and a
//! column whose region fails is marked down; then the call is answered.
#![tactic(auto)]

mod merging;
mod putting;
mod ticking;

pub use merging::merge;
pub use putting::put;
pub use ticking::tick;
