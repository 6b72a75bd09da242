//! Bytes on the heap, seen as a list.
ghost use Rattle.std.specs.Prelude.{◌≡◌, ◌<◌, ℕ, replicate, slice_index, IfOk};

use crate::OutOfMemory;
use std::alloc::{AllocError, Global};
use std::marker::Model;

/// Bytes on the heap, seen as a list.
#[derive(Debug, Drop)]
pub struct Bytes {
    items: Vec<u8>,
}

impl Model for Bytes {
    ghost use Rattle.std.specs.Prelude.{List, ℕ};

    ghost Value = { List ℕ };

    ghost view = { λ b. b.items.items };
}

impl Bytes {
    /// The bytes of a `Vec`, without memory.
    pub fn from_vec(items: Vec<u8>) -> Bytes
        ensures { result ≡ items.items }
    {
        Bytes { items }
    }

    /// The bytes of a slice.
    pub fn copy(alloc: Global, from: &[u8]) -> Result<Bytes, OutOfMemory>
        ensures { IfOk result (λ b. b ≡ from.now) }
    {
        Ok(Bytes {
            items: Vec::from_slice(alloc, from)?,
        })
    }

    /// One byte, `len` times.
    pub fn fill(alloc: Global, byte: u8, len: u32) -> Result<Bytes, OutOfMemory>
        ensures { IfOk result (λ b. b ≡ replicate len byte) }
    {
        Ok(Bytes {
            items: vec![in alloc; byte; len as usize]?,
        })
    }

    /// The bytes, to be read.
    pub fn as_slice(&self) -> &[u8]
        ensures same { result.now ≡ self.now }
        ensures bytes { (i : ℕ) → slice_index self.now i < 256 }
    {
        as_bytes(self.items.as_slice())
    }

    /// The bytes as a `Vec`, without memory.
    pub fn into_vec(self) -> Vec<u8>
        ensures { result.items ≡ self }
    {
        self.items
    }
}

/// The same bytes, each of which is known to be below 256.
fn as_bytes(items: &[u8]) -> &[u8]
    ensures same { result.now ≡ items.now }
    ensures bytes { (i : ℕ) → slice_index items.now i < 256 }
{
    items
}

impl Clone for Bytes {
    ghost is_clone = { λ b c. c ≡ b };

    fn clone(&self) -> Result<Bytes, AllocError> {
        Ok(Bytes {
            items: Vec::from_slice(*self.items.allocator(), self.items.as_slice())?,
        })
    }
}
