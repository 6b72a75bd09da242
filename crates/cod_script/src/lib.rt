//! A scenario: what the clients of a run are to do, its canonical text, and what the history of a run owes to it.
#![tactic(auto)]

mod body;
mod line;
mod name;
mod scenario;
mod writing;

pub use body::{Body, Client};
pub use line::{Line, What};
pub use name::Name;
pub use scenario::Scenario;
