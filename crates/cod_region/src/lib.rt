//! Regions of bytes on nodes, which may fail, and shelves that give them.
#![tactic(auto)]

mod faulty;
mod memory;
mod region;
mod untold;

pub use faulty::{FaultyRegion, FaultyShelf};
pub use memory::{MemRegion, MemShelf};
pub use region::{Region, Shelf};
pub use untold::Untold;

#[cfg(test)]
mod tests;
