//! The texts of a run's chronicles, columns and nodes, written to a sink. No call takes memory. A call that fails has
//! written a front of its text.
#![tactic(auto)]

mod chronicles;
mod count;
mod counting;
mod laws;
mod lines;
mod summing;
mod tally;

pub use chronicles::chronicle;
pub use laws::{needs_no_lines, printed_alone, read_one_way, scenario_has_names};
pub use lines::{entry, layout, node, segment};
pub use summing::summary;
