//! Pieces of text, written to a sink without memory. A call that fails has written a front of its text.
#![tactic(auto)]

mod fault;
mod piece;
mod put;

pub use fault::WriteFault;
pub use piece::Piece;
pub use put::{pieces, text};

#[cfg(test)]
mod tests;
