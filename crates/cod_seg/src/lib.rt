//! A segment over plain data: its columns, cuts, claims and chronicle, what is true of them between two events, and that
//! each step of an event keeps it. There is no code here, only definitions and laws.
#![tactic(auto)]

pub mod choices;
pub mod costs;
pub mod happens;
pub mod laws;
mod next;

pub use next::Step;
