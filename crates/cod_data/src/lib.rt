//! A data column: one block of a segment, on a region.
#![tactic(auto)]

mod column;
pub mod laws;

pub use column::DataColumn;
