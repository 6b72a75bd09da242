//! The claim of one block.
use crate::delta::Delta;
use cod_types::Caller;

/// The right of one call to update a block, with the delta of its part there and where it was noted already.
#[derive(Drop)]
pub struct Claim {
    pub owner: Caller,
    pub number: u32,
    pub delta: Delta,
    /// Whether the delta was added to the block in place.
    pub applied: bool,
    /// How long the record of the delta is on each parity column that has one.
    pub noted: [Option<u32>; 16],
}
