//! A number on a line.

/// The text before a number, and the number.
#[derive(Clone, Copy)]
pub(crate) struct Count<'a>(pub(crate) &'a [u8], pub(crate) u64);
