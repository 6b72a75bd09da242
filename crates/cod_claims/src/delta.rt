//! The delta of one part of an update.
ghost use Rattle.std.specs.Prelude.{◌≡◌, ◌+◌, ◌*◌, ◌≤◌, ◌<◌, ℕ, [], length, slice_index, IfOk, replicate, map, All};
ghost use Rattle.cod_types.specs.Limits.{segment_length};
ghost use Rattle.cod_types.specs.Plain.{bytes_at};
ghost use Rattle.cod_claims.specs.Changes.{LiesInside, blank, made, new_bytes, new_in};
ghost use Rattle.cod_layout.specs.Parts.{parts_of};
ghost use Rattle.std.specs.Arc.{arc_value};

use cod_kernel::add;
use cod_layout::{Part, split_range};
use cod_types::{Call, Geometry, OutOfMemory};
use std::alloc::Global;
use std::marker::Model;
use std::mem;
use std::sync::Arc;

/// The bytes that bring a call's new bytes into one block, by addition. Until it is made it holds the block's old bytes.
#[derive(Drop)]
pub struct Delta {
    call: Arc<Call>,
    part: Part,
    at: u64,
    bytes: Vec<u8>,
}

impl Model for Delta {
    ghost use Rattle.cod_claims.specs.Changes.{Change};
    ghost use Rattle.std.specs.Arc.{arc_value};

    ghost Value = { Change };

    ghost view = { λ d. record { call = arc_value d.call; part = d.part; at = d.at; bytes = d.bytes.items } };
}

impl Delta {
    /// A delta of zeros.
    fn blank(
        alloc: Global,
        call: &Arc<Call>,
        block: u32,
        off: u32,
        part: Part,
    ) -> Result<Delta, OutOfMemory>
        ensures { IfOk result (λ d. d ≡ blank (arc_value call.now) block off part) }
    {
        let place = part.block as u64 * block as u64 + part.off as u64;
        Ok(Delta {
            call: Arc::try_clone(call)?,
            part,
            at: place.saturating_sub(off as u64),
            bytes: vec![in alloc; 0; part.len as usize]?,
        })
    }

    /// Where it lies.
    pub fn part(&self) -> Part
        ensures { result ≡ self.now.part }
    {
        self.part
    }

    /// Its bytes, to be read.
    pub fn bytes(&self) -> &[u8]
        ensures same { result.now ≡ self.now.bytes }
        ensures bytes { (i : ℕ) → slice_index self.now.bytes i < 256 }
    {
        as_bytes(self.bytes.as_slice())
    }

    /// The new bytes that its call brings to its part.
    pub fn brings(&self) -> &[u8]
        requires { LiesInside self.now }
        ensures same { result.now ≡ new_in self.now }
        ensures bytes { (i : ℕ) → slice_index (new_in self.now) i < 256 }
    {
        as_bytes(part_of(&self.call, self.at, self.part.len))
    }

    /// Takes its bytes out, to be filled.
    pub fn take(&mut self) -> Vec<u8>
        ensures bytes { result.items ≡ self.old.bytes }
        ensures rest { self.new ≡ record self.old { bytes = [] } }
    {
        let none = Vec::new(*self.bytes.allocator());
        mem::replace(&mut self.bytes, none)
    }

    /// Puts its bytes back.
    pub fn put(&mut self, bytes: Vec<u8>)
        ensures { self.new ≡ record self.old { bytes = bytes.items } }
    {
        self.bytes = bytes;
    }

    /// Adds the call's new bytes to the old ones that it holds.
    pub fn make(&mut self)
        requires whole { length self.old.bytes ≡ self.old.part.len }
        requires inside { LiesInside self.old }
        ensures { self.new ≡ made self.old }
    {
        let new = part_of(&self.call, self.at, self.part.len);
        add(&mut self.bytes, new);
    }
}

/// The same bytes, each of which is known to be below 256.
fn as_bytes(items: &[u8]) -> &[u8]
    ensures same { result.now ≡ items.now }
    ensures bytes { (i : ℕ) → slice_index items.now i < 256 }
{
    items
}

/// A part of the bytes that a call brings to its range.
fn part_of(call: &Call, at: u64, len: u32) -> &[u8]
    requires { at + len ≤ length (new_bytes call.now) }
    ensures { result.now ≡ bytes_at (new_bytes call.now) at len }
{
    let at = at as usize;
    let new = brings(call);
    &new[at..at + len as usize]
}

/// The bytes that a call brings to its range.
fn brings(call: &Call) -> &[u8]
    ensures { result.now ≡ new_bytes call.now }
{
    match call {
        Call::Write { bytes, .. } => bytes.as_slice(),
        Call::Swap { new, .. } => new.as_slice(),
        _ => &[],
    }
}

/// A delta of zeros for each part of a call whose range these are. The deltas share one copy of the call.
pub fn blank_deltas(
    alloc: Global,
    g: &Geometry,
    call: &Call,
    off: u32,
    len: u32,
) -> Result<Vec<Delta>, OutOfMemory>
    requires { off + len ≤ segment_length g.now }
    ensures { IfOk result (λ ds. ds.items ≡ map (blank call.now g.now.block off) (parts_of g.now.k g.now.block off len)) }
{
    let shared = Arc::new(alloc, call.clone()?)?;
    let mut deltas = Vec::new(alloc);
    let parts = split_range(g, off, len);
    let parts = parts.as_slice();
    for part in parts {
        deltas.push(Delta::blank(alloc, &shared, g.block(), off, *part)?)?;
    }
    Ok(deltas)
}
