//! The columns of a segment, a window of any of them made from others, and the target of a rebuild.
#![tactic(auto)]

mod bench;
mod calls;
mod column;
mod columns;
pub mod laws;
mod lending;
mod sources;
mod target;
mod window;

pub use bench::Bench;
pub use column::Column;
pub use columns::{ColumnFailed, Columns};
pub use target::Target;
pub use window::piece;
