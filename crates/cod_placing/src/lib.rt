//! The place that a column of a segment is brought to, and the begin of a rebuild.
#![tactic(auto)]

mod placing;
mod starting;

pub use placing::{Missing, place_for};
pub use starting::rebuild_start;
