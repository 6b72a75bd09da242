//! The drain of a segment: a live column moves off a node.
#![tactic(auto)]

mod copying;
mod draining;
mod ending;
mod giving;
mod plan;
mod trying;

pub use draining::drain;
