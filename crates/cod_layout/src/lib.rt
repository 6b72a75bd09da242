//! Which part of a segment's range lies in which of its blocks.
#![tactic(auto)]

pub mod laws;
mod parts;
mod split;

pub use parts::{Part, Parts};
pub use split::split_range;

#[cfg(test)]
mod tests;
