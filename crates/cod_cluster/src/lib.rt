//! Segments that callers share: each call is one hold of a segment's turn after another.
#![tactic(auto)]

mod cluster;

pub use cluster::{Cluster, Ending, Receipt};
pub use cod_calls::{Gate, NoGate, Point};
pub use cod_closing::Closed;
pub use cod_pass::Pass;
