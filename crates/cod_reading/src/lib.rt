//! The events that bring bytes of a segment: a read, and the begin of an update.
#![tactic(auto)]

mod beginning;
mod parts;
mod reading;

pub use beginning::begin;
pub use reading::read;
