//! What callers of one cluster work with: what they share, and what each has to itself.
#![tactic(auto)]

mod desk;
mod pass;

pub use desk::{Desk, Shared};
pub use pass::{Pass, Rest};
