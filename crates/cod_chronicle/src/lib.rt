//! The chronicle of a segment: what was called and answered there, and what happened to its columns.
#![tactic(auto)]

mod chronicle;
mod entry;
pub mod events;
mod laws;
mod stamp;
mod stands;
mod walk;

pub use chronicle::{Chronicle, Entries, Link};
pub use entry::{Cause, Entry};
pub use laws::{
    answers_quietly, chronicle_behind, ends_settled, has_few_calls, has_few_entries,
    keeps_each_order, keeps_length, legal_behind, legal_if_told, lost_for_good, nodes_are_apart,
    says_next, was_legal,
};
pub use stamp::next_stamp;
pub use stands::Stands;
pub use walk::{Merged, Placed, merge_order};

#[cfg(test)]
mod tests;
