//! What a seat of a shared board knows.
use crate::Kill;
use std::collections::LinkedList;

/// What a seat of a shared board knows. It stands in proofs alone: no value of it is made.
pub struct View {
    /// The nodes that were seen killed, each with its kill.
    pub seen: LinkedList<(u64, Kill)>,
    /// The kills that the seat made, each with its node.
    pub made: LinkedList<(u64, Kill)>,
    /// The callers' numbers that the seat stands for.
    pub numbers: LinkedList<u64>,
    /// The nodes that a `down` of the seat found up, in order.
    pub looks: LinkedList<u64>,
}
