//! The claims of callers to the blocks of a segment, and the memory of a call, all of which is taken before the call begins.
#![tactic(auto)]

mod claim;
mod claims;
mod delta;
pub mod laws;
mod slip;

pub use claims::{Claims, Held};
pub use slip::Slip;

#[cfg(test)]
mod tests;
