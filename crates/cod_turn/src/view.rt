//! What a seat of a turn knows.
use std::collections::LinkedList;

/// What a seat of a turn knows. It stands in proofs alone: no value of it is made.
pub struct View<T> {
    /// The callers' numbers that the seat stands for, each with the value after the last hold in which the caller had it. From
    /// these values follow the list that was seen, the callers' entries in it, and what they have open.
    pub own: LinkedList<(u64, T)>,
    /// The name of the value, which stays the same.
    pub name: LinkedList<u64>,
    /// The places of the list at which the seat added entries.
    pub places: LinkedList<u64>,
    /// The value that was taken and not yet given back.
    pub hold: Option<T>,
}
