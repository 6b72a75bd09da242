//! How the reserved space beside a parity block shrinks: a stored rule for the moving average of its use, and the size
//! that follows from an average.
#![tactic(auto)]

mod policy;
mod rules;
mod shrink;

pub use policy::{Policy, Rule};
pub use rules::{Newest, Weighted};
pub use shrink::target;
