//! A data column.
ghost use Rattle.std.specs.Prelude.{◌≡◌, ◌+◌, ◌<◌, ◌≤◌, ℕ, List, None, Some, true, IsOk, OnOk, MatchResult, length, slice_index, bit_xor};
ghost use Rattle.std.specs.Option.{option_map};
ghost use Rattle.cod_types.specs.Faults.{bump, HasCause};
ghost use Rattle.cod_types.specs.Overwritten.{byte_of, overwritten};
ghost use Rattle.cod_region.specs.Device.{Reads, Torn};
ghost use Rattle.cod_data.specs.Values.{HasValue, placed};

use cod_kernel::add_window;
use cod_region::Region;
use cod_types::Failed;
use std::marker::Model;

/// A block of a segment on a region, which has the block's bytes and no more. It is seen as its region is.
#[derive(Drop)]
pub struct DataColumn<R: Region> {
    region: R,
}

impl<R: Region> Model for DataColumn<R> {
    ghost use Rattle.cod_region.specs.Device.{Device};

    ghost Value = { Device };

    ghost view = { λ c. R.device c.region };
}

impl<R: Region> DataColumn<R> {
    /// The column on this region.
    pub fn new(region: R) -> DataColumn<R>
        ensures { result ≡ R.device region }
    {
        DataColumn { region }
    }

    /// Replaces the bytes from `off` on, by one write. A write that fails may leave any bytes in their place.
    pub fn apply(&mut self, off: u32, bytes: &[u8]) -> Result<(), Failed>
        requires { off + length bytes.now ≤ self.old.size }
        ensures content { MatchResult result (λ _. self.new.content ≡ option_map (overwritten off bytes.now) self.old.content) (λ _. Torn off
            (length bytes.now) self.old.content self.new.content) }
        ensures same { self.new ≡ record self.old { content = self.new.content; writes = bump self.old.writes; faults = self.new.faults } }
        ensures cause { HasCause self.old.faults self.new.faults result }
        ensures sure { self.old.never_fails ≡ true → IsOk result }
    {
        self.region.write_at(off, bytes)
    }

    /// Brings the bytes from `off` on into `into`, by one read, without what a kept delta added to them. A delta is kept
    /// by its place and its bytes. A read that fails may leave any bytes in `into`.
    pub fn read_at_cut(
        &mut self,
        kept: Option<(u32, &[u8])>,
        off: u32,
        into: &mut [u8],
    ) -> Result<(), Failed>
        requires { off + length into.old ≤ self.old.size }
        ensures value { (held : List ℕ) → self.old.content ≡ Some held
            → OnOk result ((x : ℕ) → x < length into.old
            → slice_index into.new x ≡ bit_xor (slice_index held (off + x)) (byte_of (placed kept.entry) (off + x))) }
        ensures value_held { (v : ℕ → ℕ) → HasValue self.old (byte_of (placed kept.entry)) v
            → OnOk result ((x : ℕ) → x < length into.old → slice_index into.new x ≡ v (off + x)) }
        ensures same { self.new ≡ record self.old { reads = bump self.old.reads; faults = self.new.faults } }
        ensures cause { HasCause self.old.faults self.new.faults result }
        ensures sure { self.old.never_fails ≡ true → IsOk result }
    {
        self.region.read_at(off, into)?;
        if let Some((place, bytes)) = kept {
            // added once more, it is taken off
            add_window(into, off as usize, place as usize, bytes);
        }
        Ok(())
    }

    /// Brings the bytes from `off` on into `into` as they are held, by one read. A read that fails may leave any bytes in `into`.
    pub fn copy_out(&mut self, off: u32, into: &mut [u8]) -> Result<(), Failed>
        requires { off + length into.old ≤ self.old.size }
        ensures bytes { OnOk result (Reads self.old.content off into.new) }
        ensures same { self.new ≡ record self.old { reads = bump self.old.reads; faults = self.new.faults } }
        ensures cause { HasCause self.old.faults self.new.faults result }
        ensures sure { self.old.never_fails ≡ true → IsOk result }
    {
        self.region.read_at(off, into)
    }

    /// Counts a read of so many bytes from `off` on, which `lent` then gives without a copy. It fails as a read does.
    pub fn fetch(&mut self, off: u32, len: usize) -> Result<(), Failed>
        requires { off + len ≤ self.old.size }
        ensures same { self.new ≡ record self.old { reads = bump self.old.reads; faults = self.new.faults } }
        ensures cause { HasCause self.old.faults self.new.faults result }
        ensures sure { self.old.never_fails ≡ true → IsOk result }
    {
        self.region.fetch(off, len)
    }

    /// The bytes from `off` on, as they are held; where no delta is kept, that is the value. It is no read: a caller has fetched
    /// them.
    pub fn lent(&self, off: u32, len: usize) -> &[u8]
        requires { off + len ≤ self.now.size }
        ensures length { length result.now ≡ len }
        ensures bytes { Reads self.now.content off result.now }
        ensures value { (v : ℕ → ℕ) → HasValue self.now (byte_of None) v → (x : ℕ) → x < len → slice_index result.now x ≡ v (off + x) }
    {
        self.region.lent(off, len)
    }

    /// Replaces all bytes, by one write. A write that fails may leave any bytes.
    pub fn put(&mut self, bytes: &[u8]) -> Result<(), Failed>
        requires { length bytes.now ≡ self.old.size }
        ensures content { MatchResult result (λ _. self.new.content ≡ option_map (λ _. bytes.now) self.old.content) (λ _. Torn 0
            (length bytes.now) self.old.content self.new.content) }
        ensures same { self.new ≡ record self.old { content = self.new.content; writes = bump self.old.writes; faults = self.new.faults } }
        ensures cause { HasCause self.old.faults self.new.faults result }
        ensures sure { self.old.never_fails ≡ true → IsOk result }
    {
        self.region.write_at(0, bytes)
    }

    /// The region, to be read.
    pub fn region(&self) -> &R
        ensures { R.device result.now ≡ self.now }
    {
        &self.region
    }
}
