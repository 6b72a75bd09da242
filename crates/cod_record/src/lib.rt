//! Records of the updates that wait in a parity column's log: their texts, in two versions, and how a text is read back.
#![tactic(auto)]

mod any;
mod first;
mod laws;
mod parts;
mod runs;
mod spans;
mod sparse;

pub use any::read_any;
pub use first::{read_record, write_head};
pub use laws::{head_begins_record, one_record, one_sparse_text, sparse_ranges};
pub use parts::{Found, Head, NotARecord, Span};
pub use spans::{Spans, record_spans};
pub use sparse::{sparse_len, write_sparse};
