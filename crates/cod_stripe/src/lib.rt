//! One segment over regions that may fail: its columns, its claims, and its chronicle.
#![tactic(auto)]

mod around;
mod building;
mod rebuilding;
mod serving;
mod sharing;
mod stripe;
mod updating;

pub use around::Around;
pub use cod_segment::Outcome;
pub use stripe::Stripe;
