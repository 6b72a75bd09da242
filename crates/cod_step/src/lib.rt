//! What the next event of a call does.
#![tactic(auto)]

mod beside;
mod next;
mod scene;
mod updating;

pub use beside::{copy_bytes, copy_reasons, raise_cuts};
pub use cod_seg::Step;
pub use next::next_step;
pub use scene::{Job, Scene, column_on, is_lost};
