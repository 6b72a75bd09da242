//! Who asks, and what comes of an event.

use cod_claims::Held;
use cod_types::Caller;

/// A caller, with the number of its call.
#[derive(Clone, Copy, Debug, PartialEq, Eq)]
pub struct Asker {
    pub caller: Caller,
    pub number: u32,
}

/// What came of an event.
#[derive(Clone, Copy, Debug, PartialEq, Eq)]
pub enum Outcome {
    /// The call goes on with another event.
    Moved,
    /// The call was answered, by the entry at this place of the chronicle.
    Answered { position: u64, stamp: u64 },
    /// The call waits for this call of another caller.
    Held(Held),
}
