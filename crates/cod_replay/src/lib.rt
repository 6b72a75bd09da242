//! A scenario, replayed turn by turn.
#![tactic(auto)]

mod building;
mod play;
mod replay;
mod task;

pub use cod_turns::{Machine, Turned};
pub use replay::Replay;
