//! Lines of a text, their words, and the three kinds of words: numbers, names and bytes.
#![tactic(auto)]

mod data;
mod word;

pub use data::{DataError, word_data};
pub use word::{next_line, trimmed, word_name, word_number, words};

#[cfg(test)]
mod tests;
