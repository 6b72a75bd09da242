//! What a segment does after failures: calls that are lost, the pieces of a rebuild and its end, and killed nodes.
#![tactic(auto)]

mod filling;
mod losing;
mod raising;
mod sweeping;

pub use filling::rebuild_piece;
pub use losing::lost;
pub use raising::rebuild_end;
pub use sweeping::sweep;
