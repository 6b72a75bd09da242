//! The law of the canonical text: what is read from a text is read again from its canonical text.
#![tactic(auto)]

mod laws;

pub use laws::{canonical_is_read_again, canonical_is_written_again};
