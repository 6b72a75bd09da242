//! Where bytes come from and where they go: a source and a sink, which may fail.
#![tactic(auto)]

mod mem;
mod standard;
mod streams;

pub use mem::{MemSink, MemSource};
pub use standard::{StdSink, StdSource};
pub use streams::{Sink, Source};

#[cfg(test)]
mod tests;
