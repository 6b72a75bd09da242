//! One call of a caller on a segment that callers take in turns, from its first hold of the turn to its answer.
#![tactic(auto)]

mod calling;
mod gate;
mod laws;

pub use calling::{Answer, call};
pub use gate::{Gate, NoGate, Point};
pub use laws::names_tell;
