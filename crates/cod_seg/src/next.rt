//! What a call does next.
use cod_claims::Held;

/// A call's next event.
#[derive(Clone, Copy, Debug, PartialEq, Eq)]
pub enum Step {
    /// It is refused by its own numbers.
    Refuse,
    /// It is answered lost: more columns are down than the parity columns can stand for.
    Lost,
    /// A rebuild finds no column down.
    Whole,
    /// Nothing: another call has to end first.
    Held(Held),
    Read,
    Put,
    Merge,
    Tick,
    Upgrade,
    /// An update reads the old bytes of its parts and claims their blocks.
    Begin,
    /// The part in this block is written in place.
    Data(u8),
    /// The part in this block (the first number) is noted on this parity column.
    Parity(u8, u8),
    /// An update that has been done everywhere is committed.
    Commit,
    /// A rebuild takes a target.
    RebuildStart,
    /// It brings the next bytes there.
    RebuildPiece,
    /// It ends, and its column is up.
    RebuildEnd,
    /// A drain finds no live column on its node.
    Clear,
    /// It moves the column that is there.
    Drain,
}
