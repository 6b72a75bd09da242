//! A scenario to load, made from a number.
#![tactic(auto)]

mod care;
mod draft;
mod draws;
mod laws;
mod scenario;

pub use laws::generated_is_scenario;
pub use scenario::generate;

#[cfg(test)]
mod tests;
