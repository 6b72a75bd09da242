//! A piece of a line.

/// A part of a line, borrowed.
#[derive(Clone, Copy)]
pub enum Piece<'a> {
    /// These bytes.
    Text(&'a [u8]),
    /// A number in decimal digits.
    Number(u64),
    /// Two hexadecimal digits for each byte, or `-` for none.
    Hex(&'a [u8]),
    /// The same, but at least two equal bytes as one of them and how many they are.
    Data(&'a [u8]),
}
