//! The set-up of a cluster: a scenario's segments, a board and pools that callers share, and a pass for each caller.
#![tactic(auto)]

mod opening;
mod seats;
mod sharing;

pub use opening::{Opened, open};
