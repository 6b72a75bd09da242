//! The segments of a scenario, each with its columns at home.
#![tactic(auto)]

mod building;

pub use building::stripes;
