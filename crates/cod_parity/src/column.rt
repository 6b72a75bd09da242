//! A parity column over a region.
ghost use Rattle.std.specs.Prelude.{◌≡◌, ◌+◌, ◌<◌, ◌≤◌, ◌^◌, ◌++◌, ◌∷◌, [], ℕ, List, Option, None, Some, MatchResult, OnOk, OnErr, IsOk, true, length, take};
ghost use Rattle.std.specs.Prelude.{slice_index, bit_xor};
ghost use Rattle.std.specs.List.{flat_map, filter};
ghost use Rattle.std.specs.Option.{is_some};
ghost use Rattle.cod_types.specs.Faults.{HasCause};
ghost use Rattle.cod_region.specs.Device.{Reads};
ghost use Rattle.cod_types.specs.Limits.{floor};
ghost use Rattle.cod_parity.specs.Log.{AreBelowEnd, change, IsDue, is_past, IsValue, Logged, logged, logged_length, scaled, text};
ghost use Rattle.cod_parity.specs.State.{cut_to, empty, IsKept, Means, with_base};
ghost use Rattle.cod_parity.specs.Calls.{Appends, AppendsMerged, FailsAppendMerged, FailsCut, FailsMerge, FailsRead, FailsWrite, Merges, MergesIfDue, Same};
ghost use Rattle.cod_parity.specs.Held.{HasValue, Holds, no_pieces, Piece, pieces_length, with_piece};

use crate::log::{add_log, any_due, fold_buffer};
use crate::spelling::{record_len, write_text};
use cod_kernel::set_scaled;
use cod_record::Head;
use cod_region::Region;
use cod_types::{Cuts, Failed, Geometry};
use std::marker::Model;

/// A parity block at the front of a region, and behind it a log of records in reserved space.
///
/// A call answers `Failed` only where the region's count of faults rose; then the column isn't to be used again. Each
/// call that takes a `scratch` needs as many bytes of it as the block and the geometry's reserved space have.
#[derive(Drop)]
pub struct ParityColumn<R: Region> {
    pub(crate) shape: Geometry,
    pub(crate) size: u32,
    pub(crate) used: u32,
    pub(crate) appended: u64,
    pub(crate) average: u32,
    lowest: [u64; 16],
    region: R,
}

impl<R: Region> Model for ParityColumn<R> {
    ghost use Rattle.cod_parity.specs.State.{IsKept, State};

    ghost Value = { State };

    ghost view = { λ c. record {
      shape = c.shape;
      size = c.size;
      used = c.used;
      appended = c.appended;
      average = c.average;
      lowest = c.lowest;
      device = R.device c.region;
    } };

    ghost invariant = { λ c. IsKept
        (record { shape = c.shape; size = c.size; used = c.used; appended = c.appended; average = c.average; lowest = c.lowest; device = R.device c.region }) };
}

impl<R: Region> ParityColumn<R> {
    /// A column whose block is the region's front and whose reserved space, as much as the geometry says, has no record.
    pub fn new(g: Geometry, region: R) -> ParityColumn<R>
        requires whole { (R.device region).size ≡ g.block + g.reserve }
        ensures is { result ≡ empty g g.reserve 10000 (R.device region) }
        ensures means { (held : List ℕ) → (R.device region).content ≡ Some held → Means result (take g.block held) [] }
        ensures holds { (held : List ℕ) → (R.device region).content ≡ Some held → (cuts : List ℕ) → Holds result cuts (slice_index held) no_pieces }
    {
        ParityColumn::moved(g, region, g.reserve(), 10_000)
    }

    /// A column that comes to this region from another one, with its size and average: the region's front is its value.
    #[tactic(auto, unfolding(crate::specs::Log::no_lowest))]
    pub fn moved(g: Geometry, region: R, size: u32, average: u32) -> ParityColumn<R>
        requires least { floor g ≤ size }
        requires most { size ≤ g.reserve }
        requires average { average ≤ 10000 }
        requires whole { (R.device region).size ≡ g.block + size }
        ensures is { result ≡ empty g size average (R.device region) }
        ensures means { (held : List ℕ) → (R.device region).content ≡ Some held → Means result (take g.block held) [] }
        ensures holds { (held : List ℕ) → (R.device region).content ≡ Some held → (cuts : List ℕ) → Holds result cuts (slice_index held) no_pieces }
    {
        let _columns = g.k(); // the limits of a geometry are told here
        ParityColumn {
            shape: g,
            size,
            used: 0,
            appended: 0,
            average,
            lowest: [u64::MAX; 16],
            region,
        }
    }

    /// The geometry. What holds of the column's numbers is told with it.
    pub fn geometry(&self) -> Geometry
        ensures value { result ≡ self.now.shape }
        ensures kept { IsKept self.now }
    {
        self.shape
    }

    /// The bytes of the reserved space.
    pub fn size(&self) -> u32
        ensures value { result ≡ self.now.size }
        ensures least { floor self.now.shape ≤ result }
        ensures most { result ≤ self.now.shape.reserve }
    {
        self.size
    }

    /// The bytes of the records in the log.
    pub fn used(&self) -> u32
        ensures value { result ≡ self.now.used }
        ensures most { result ≤ self.now.size }
    {
        self.used
    }

    /// The bytes of the records that were written since the last tick, up to the end of `u64`.
    pub fn appended(&self) -> u64
        ensures { result ≡ self.now.appended }
    {
        self.appended
    }

    /// The moving average of the use of the reserved space, in ten-thousandths.
    pub fn average(&self) -> u32
        ensures value { result ≡ self.now.average }
        ensures most { result ≤ 10000 }
    {
        self.average
    }

    /// The region that it stands on.
    pub fn region(&self) -> &R
        ensures { R.device result.now ≡ self.now.device }
    {
        &self.region
    }

    /// Writes the record of an update behind the log, by one write: its bytes are the coefficient times the delta, and its
    /// text is of the version. Where there is no room, a merge comes first.
    pub fn append(
        &mut self,
        head: Head,
        version: u8,
        coef: u8,
        delta: &[u8],
        cuts: &Cuts,
        scratch: &mut [u8],
    ) -> Result<(), Failed>
        requires first { 1 ≤ version }
        requires last { version ≤ 2 }
        requires second { version ≡ 2 → (self.old.shape.version ≡ 2) × (head.len ≤ self.old.shape.update) }
        requires len { head.len ≡ length delta.now }
        requires inside { head.off + head.len ≤ self.old.shape.block }
        requires block { head.block < self.old.shape.k }
        requires fits { logged_length version head (scaled coef delta.now) ≤ self.old.size }
        requires room { self.old.size < self.old.used + logged_length version head (scaled coef delta.now) → (base : List ℕ) (records : List Logged)
            → Means self.old base records
            → length (flat_map text (filter (is_past cuts.now) records)) + logged_length version head (scaled coef delta.now) ≤ self.old.size }
        requires scratch { self.old.shape.block + self.old.shape.reserve ≤ length scratch.old }
        ensures adds { self.old.used + logged_length version head (scaled coef delta.now) ≤ self.old.size
            → MatchResult result (λ _. Appends (logged version head (scaled coef delta.now)) self.old self.new)
            (λ _. FailsWrite (self.old.shape.block + self.old.used) (logged_length version head (scaled coef delta.now)) self.old self.new) }
        ensures merges { self.old.size < self.old.used + logged_length version head (scaled coef delta.now)
            → MatchResult result (λ _. AppendsMerged cuts.now (logged version head (scaled coef delta.now)) self.old self.new)
            (λ _. FailsAppendMerged cuts.now (logged_length version head (scaled coef delta.now)) self.old self.new) }
        ensures holds { (v : ℕ → ℕ) (p : ℕ → Option Piece) → Holds self.old cuts.now v p → p head.block ≡ None
            → head.number ≡ slice_index cuts.now head.block + 1
            → OnOk result (Holds self.new cuts.now v (with_piece p head.block
            (record { off = head.off; bytes = scaled coef delta.now; length = logged_length version head (scaled coef delta.now) }))) }
        ensures same { Same self.old self.new }
        ensures cause { HasCause self.old.device.faults self.new.device.faults result }
        ensures sure { self.old.device.never_fails ≡ true → IsOk result }
    {
        let room = self.size - self.used;
        let len = record_len(version, coef, delta);
        if len <= room {
            return self.write_record(head, version, coef, delta, scratch);
        }
        self.make_room(len, cuts, scratch)?;
        self.write_record(head, version, coef, delta, scratch)
    }

    /// Adds the records at or below the cut to the block, and moves the others to the front of the log in their order, by
    /// one read and one write. Where no record is at or below the cut it does nothing.
    pub fn merge(&mut self, cuts: &Cuts, scratch: &mut [u8]) -> Result<(), Failed>
        requires scratch { self.old.shape.block + self.old.shape.reserve ≤ length scratch.old }
        ensures merges { MatchResult result (λ _. MergesIfDue cuts.now self.old self.new) (λ _. IsDue self.old.lowest cuts.now × FailsMerge self.old self.new) }
        ensures means { (base : List ℕ) (records : List Logged) → Means self.old base records
            → OnOk result ((next : List ℕ) × Means self.new next (filter (is_past cuts.now) records) × IsValue cuts.now base records next) }
        ensures holds { (v : ℕ → ℕ) (p : ℕ → Option Piece) → Holds self.old cuts.now v p → OnOk result (Holds self.new cuts.now v p) }
        ensures used { (v : ℕ → ℕ) (p : ℕ → Option Piece) → Holds self.old cuts.now v p → OnOk result (self.new.used ≡ pieces_length p self.old.shape.k) }
        ensures none_due { AreBelowEnd cuts.now → OnOk result (IsDue self.new.lowest cuts.now → ⊥) }
        ensures kept { IsKept self.new }
        ensures same { Same self.old self.new }
        ensures cause { HasCause self.old.device.faults self.new.device.faults result }
        ensures sure { self.old.device.never_fails ≡ true → IsOk result }
    {
        if !any_due(&self.lowest, cuts) {
            return Ok(());
        }
        self.merge_now(cuts, scratch)
    }

    /// Brings the value at the cut into `into`, from place `off` on, by one read from there to the end of the log. Where
    /// there is no record, that reads no further than asked.
    pub fn read_from(
        &mut self,
        off: u32,
        into: &mut [u8],
        cuts: &Cuts,
        scratch: &mut [u8],
    ) -> Result<(), Failed>
        requires inside { off + length into.old ≤ self.old.shape.block }
        requires scratch { self.old.shape.block + self.old.shape.reserve ≤ length scratch.old }
        ensures value { (base : List ℕ) (records : List Logged) → Means self.old base records
            → OnOk result ((x : ℕ) → x < length into.old → slice_index into.new x ≡ bit_xor (slice_index base (off + x)) (change cuts.now records (off + x))) }
        ensures value_held { (v : ℕ → ℕ) → HasValue self.old cuts.now v → OnOk result ((x : ℕ) → x < length into.old → slice_index into.new x ≡ v (off + x)) }
        ensures holds { (v : ℕ → ℕ) (p : ℕ → Option Piece) → Holds self.old cuts.now v p → Holds self.new cuts.now v p }
        ensures same { FailsRead self.old self.new }
        ensures cause { HasCause self.old.device.faults self.new.device.faults result }
        ensures sure { self.old.device.never_fails ≡ true → IsOk result }
    {
        if self.used == 0 {
            return self.region.read_at(off, into);
        }
        let behind = (self.shape.block() - off) as usize;
        let end = behind + self.used as usize;
        self.region.read_at(off, &mut scratch[..end])?;
        into.copy_from_slice(&scratch[..into.len()]);
        add_log(into, off as usize, &scratch[behind..end], cuts);
        Ok(())
    }

    /// Counts a read of so many bytes of the block from `off` on, which `lent` then gives without a copy. It fails as a read
    /// does.
    pub fn fetch(&mut self, off: u32, len: usize) -> Result<(), Failed>
        requires inside { off + len ≤ self.old.shape.block }
        ensures holds { (cuts : List ℕ) (v : ℕ → ℕ) (p : ℕ → Option Piece) → Holds self.old cuts v p → Holds self.new cuts v p }
        ensures same { FailsRead self.old self.new }
        ensures cause { HasCause self.old.device.faults self.new.device.faults result }
        ensures sure { self.old.device.never_fails ≡ true → IsOk result }
    {
        self.region.fetch(off, len)
    }

    /// The bytes of the block from `off` on, as they are held; where there is no record, that is the value. It is no read: a
    /// caller has fetched them.
    pub fn lent(&self, off: u32, len: usize) -> &[u8]
        requires inside { off + len ≤ self.now.shape.block }
        ensures length { length result.now ≡ len }
        ensures bytes { Reads self.now.device.content off result.now }
        ensures value { self.now.used ≡ 0 → (cuts : List ℕ) (v : ℕ → ℕ) → HasValue self.now cuts v
            → (x : ℕ) → x < len → slice_index result.now x ≡ v (off + x) }
    {
        self.region.lent(off, len)
    }

    /// Brings the block and the log behind it into `into` as they are held, by one read. A read that fails may leave any bytes
    /// in `into`.
    pub fn copy_out(&mut self, into: &mut [u8]) -> Result<(), Failed>
        requires { length into.old ≡ self.old.shape.block + self.old.used }
        ensures bytes { OnOk result (Reads self.old.device.content 0 into.new) }
        ensures whole { (base : List ℕ) (records : List Logged) → Means self.old base records → OnOk result (into.new ≡ base ++ flat_map text records) }
        ensures holds { (cuts : List ℕ) (v : ℕ → ℕ) (p : ℕ → Option Piece) → Holds self.old cuts v p → Holds self.new cuts v p }
        ensures same { FailsRead self.old self.new }
        ensures cause { HasCause self.old.device.faults self.new.device.faults result }
        ensures sure { self.old.device.never_fails ≡ true → IsOk result }
    {
        self.region.read_at(0, into)
    }

    /// Replaces the block by these bytes, and with it all records, by one write. The bytes that were appended since the last
    /// tick stay counted.
    pub fn put(&mut self, base: &[u8]) -> Result<(), Failed>
        requires base { length base.now ≡ self.old.shape.block }
        ensures puts { MatchResult result (λ _. self.new ≡ with_base base.now self.old) (λ _. FailsWrite 0 (length base.now) self.old self.new) }
        ensures means { (was : List ℕ) (records : List Logged) → Means self.old was records → OnOk result (Means self.new base.now []) }
        ensures holds { (was : List ℕ) (records : List Logged) → Means self.old was records → (cuts : List ℕ)
            → OnOk result (Holds self.new cuts (slice_index base.now) no_pieces) }
        ensures same { Same self.old self.new }
        ensures cause { HasCause self.old.device.faults self.new.device.faults result }
        ensures sure { self.old.device.never_fails ≡ true → IsOk result }
    {
        self.region.write_at(0, base)?;
        self.used = 0;
        self.lowest = [u64::MAX; 16];
        Ok(())
    }

    /// Merges, and leaves room for so many bytes.
    fn make_room(&mut self, len: u32, cuts: &Cuts, scratch: &mut [u8]) -> Result<(), Failed>
        requires fits { len ≤ self.old.size }
        requires room { (base : List ℕ) (records : List Logged) → Means self.old base records
            → length (flat_map text (filter (is_past cuts.now) records)) + len ≤ self.old.size }
        requires scratch { self.old.shape.block + self.old.shape.reserve ≤ length scratch.old }
        ensures merges { MatchResult result (λ _. Merges cuts.now self.old self.new) (λ _. FailsMerge self.old self.new) }
        ensures room { OnOk result (self.new.used + len ≤ self.new.size) }
        ensures same { Same self.old self.new }
        ensures cause { HasCause self.old.device.faults self.new.device.faults result }
        ensures sure { self.old.device.never_fails ≡ true → IsOk result }
    {
        self.merge_now(cuts, scratch)?;
        // Where the region doesn't tell what it holds, more may be left.
        self.used = self.used.min(self.size - len);
        Ok(())
    }

    /// Merges, whether or not a record is at or below the cut.
    fn merge_now(&mut self, cuts: &Cuts, scratch: &mut [u8]) -> Result<(), Failed>
        requires scratch { self.old.shape.block + self.old.shape.reserve ≤ length scratch.old }
        ensures merges { MatchResult result (λ _. Merges cuts.now self.old self.new) (λ _. FailsMerge self.old self.new) }
        ensures kept { IsKept self.new }
        ensures same { Same self.old self.new }
        ensures cause { HasCause self.old.device.faults self.new.device.faults result }
        ensures sure { self.old.device.never_fails ≡ true → IsOk result }
    {
        let block = self.shape.block() as usize;
        let end = block + self.used as usize;
        self.region.read_at(0, &mut scratch[..end])?;
        let (kept, lowest) = fold_buffer(&mut scratch[..end], block, cuts);
        self.region.write_at(0, &scratch[..block + kept])?;
        self.used = kept as u32;
        self.lowest = lowest;
        Ok(())
    }

    /// Writes a record behind the log, where there is room.
    fn write_record(
        &mut self,
        head: Head,
        version: u8,
        coef: u8,
        delta: &[u8],
        scratch: &mut [u8],
    ) -> Result<(), Failed>
        requires first { 1 ≤ version }
        requires last { version ≤ 2 }
        requires second { version ≡ 2 → (self.old.shape.version ≡ 2) × (head.len ≤ self.old.shape.update) }
        requires len { head.len ≡ length delta.now }
        requires inside { head.off + head.len ≤ self.old.shape.block }
        requires block { head.block < self.old.shape.k }
        requires room { self.old.used + logged_length version head (scaled coef delta.now) ≤ self.old.size }
        requires scratch { self.old.shape.block + self.old.shape.reserve ≤ length scratch.old }
        ensures adds { MatchResult result (λ _. Appends (logged version head (scaled coef delta.now)) self.old self.new)
            (λ _. FailsWrite (self.old.shape.block + self.old.used) (logged_length version head (scaled coef delta.now)) self.old self.new) }
        ensures same { Same self.old self.new }
        ensures cause { HasCause self.old.device.faults self.new.device.faults result }
        ensures sure { self.old.device.never_fails ≡ true → IsOk result }
    {
        let place = self.shape.block() + self.used;
        let (bytes, into) = scratch.split_at_mut(delta.len());
        set_scaled(bytes, coef, delta);
        let len = write_text(version, head, bytes, into);
        self.region.write_at(place, &into[..len as usize])?;
        self.used += len;
        self.appended = self.appended.saturating_add(len as u64);
        let block = head.block as usize;
        self.lowest[block] = self.lowest[block].min(head.number);
        Ok(())
    }

    /// Makes the reserved space smaller, and answers the bytes cut off.
    pub(crate) fn cut(&mut self, size: u32) -> Result<u32, Failed>
        requires least { floor self.old.shape ≤ size }
        requires most { size ≤ self.old.size }
        ensures cuts { MatchResult result (λ cut. (cut + size ≡ self.old.size) × (self.new ≡ cut_to size self.old)) (λ _. FailsCut size self.old self.new) }
        ensures kept { IsKept self.new }
        ensures shorter { self.new.device.size ≤ self.old.device.size }
        ensures same { (self.new.shape ≡ self.old.shape) × (self.new.average ≡ self.old.average) × (self.new.device.never_fails ≡ self.old.device.never_fails)
            × (is_some self.new.device.content ≡ is_some self.old.device.content) }
        ensures cause { HasCause self.old.device.faults self.new.device.faults result }
        ensures sure { self.old.device.never_fails ≡ true → IsOk result }
    {
        let before = self.size;
        if size < before {
            self.size = size;
            // Where the region doesn't tell what it holds, more may be left.
            self.used = self.used.min(size);
            self.region.cut(self.shape.block() + size)?;
        }
        Ok(before - size)
    }
}
