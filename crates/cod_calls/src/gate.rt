//! Where a call pauses between its events.
use cod_types::Caller;

/// Before which event of a call it is.
#[derive(Clone, Copy, Debug, PartialEq, Eq)]
pub struct Point {
    pub caller: Caller,
    pub number: u32,
    /// The events that the call has had, those in which it had to wait too. It stays at 2^32 - 1.
    pub events: u32,
}

/// Pauses calls, each before each of its events, while it holds nothing. It tells nothing.
pub trait Gate {
    fn pause(&self, point: Point);
}

/// A gate at which no call pauses.
#[derive(Drop)]
pub struct NoGate;

impl Gate for NoGate {
    fn pause(&self, _point: Point) {}
}
