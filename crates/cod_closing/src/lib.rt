//! The end of a cluster: all passes' seats come together, and the segments, the board and the pools are closed.
#![tactic(auto)]

mod closing;
mod joining;

pub use closing::{Closed, close};
