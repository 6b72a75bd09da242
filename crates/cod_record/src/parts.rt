//! What is told of a record.

/// What stands before the bytes of a record of the first version.
#[derive(Clone, Copy, Debug, PartialEq, Eq)]
pub struct Head {
    /// The data block that was changed.
    pub block: u16,
    /// The number of the update among those of its block.
    pub number: u64,
    /// The place of the first byte in the block.
    pub off: u32,
    /// How many bytes there are.
    pub len: u32,
}

/// What stands before the ranges of a record of either version.
#[derive(Clone, Copy, Debug, PartialEq, Eq)]
pub struct Found {
    /// The data block that was changed.
    pub block: u16,
    /// The number of the update among those of its block.
    pub number: u64,
    /// 1 or 2.
    pub version: u8,
    /// How many ranges of bytes there are.
    pub ranges: u16,
}

/// A range of bytes of a record.
#[derive(Clone, Copy, Debug, PartialEq, Eq)]
pub struct Span {
    /// The place of the first byte in the block.
    pub off: u32,
    /// How many bytes there are.
    pub len: u32,
    /// The place of the first byte in the text that the record begins.
    pub at: u32,
}

/// No record begins the text.
#[derive(Clone, Copy, Debug, PartialEq, Eq)]
pub struct NotARecord;
