//! A value that threads take in turns: each sees it with all that it has seen before, and gives it back after one event.
#![tactic(auto)]

mod rule;
mod turn;
mod view;

pub use turn::{Turn, TurnSeat};
pub use view::View;

#[cfg(test)]
mod tests;
