//! The events of a write or a swap that has its claims: on the data columns, on the parity columns, and its commit.
#![tactic(auto)]

mod applying;
mod committing;
mod correcting;
mod noting;

pub use applying::data_step;
pub use committing::commit;
pub use noting::parity_step;
