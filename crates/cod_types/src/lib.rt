//! The numbers, bytes, calls and replies that all crates speak of, and the meaning of a segment as plain bytes.
#![tactic(auto)]

mod bytes;
mod call;
mod cuts;
mod errors;
mod geometry;
pub mod laws;
mod layout;
mod reasons;
mod refusing;
mod shape;

pub use bytes::Bytes;
pub use call::{Call, Caller, NodeId, Reply, SegId};
pub use cuts::Cuts;
pub use errors::{Failed, OutOfMemory};
pub use geometry::{BadGeometry, Field};
pub use layout::{LayoutLine, ParityLine};
pub use reasons::{Reason, Reasons, Why};
pub use refusing::refusal;
pub use shape::Geometry;

#[cfg(test)]
mod tests;
