//! The region that a column is brought to.
ghost use Rattle.std.specs.Prelude.{◌≡◌, ◌+◌, ◌-◌, ◌<◌, ◌≤◌, ◌++◌, ◌∷◌, [], min, ℕ, List, Some, None, IsOk, MatchResult, length, take, true};
ghost use Rattle.std.specs.Option.{option_map};
ghost use Rattle.cod_types.specs.Faults.{bump, HasCause};
ghost use Rattle.cod_types.specs.Limits.{segment_length};
ghost use Rattle.cod_types.specs.Overwritten.{overwritten};
ghost use Rattle.cod_region.specs.Device.{Torn};
ghost use Rattle.cod_code.specs.Codewords.{AreBytes};
ghost use Rattle.cod_code.specs.Columns.{gamma};
ghost use Rattle.cod_code.specs.Segments.{column};
ghost use Rattle.cod_place.specs.Free.{AreOf, at_node, less};
ghost use Rattle.cod_repair.specs.Columns.{IsFull};
ghost use Rattle.cod_repair.specs.Targets.{AddsTo, Overwrites, overlap};

use crate::Bench;
use crate::bench::encode;
use crate::calls::block_of;
use cod_kernel::add_scaled;
use cod_place::{PoolSeat, Room, SharedPools};
use cod_region::Region;
use cod_types::{Failed, NodeId};
use std::marker::Model;

/// The region that a column is brought to, its room, and how many of its first bytes are there. A call answers `Failed` only
/// where the region's count of faults rose; then the target isn't to be used again.
#[derive(Drop)]
pub struct Target<R: Region> {
    region: R,
    room: Room,
    done: u32,
}

impl<R: Region> Model for Target<R> {
    ghost use Rattle.cod_seg.specs.Seg as seg;

    ghost Value = { seg.Target };

    ghost view = { λ t. record { room = t.room; filled = t.done; device = R.device t.region } };
}

impl<R: Region> Target<R> {
    /// Nothing is there yet.
    pub fn new(region: R, room: Room) -> Target<R>
        ensures { result ≡ record { room = room; filled = 0; device = R.device region } }
    {
        Target {
            region,
            room,
            done: 0,
        }
    }

    /// The node that it is on.
    pub fn node(&self) -> NodeId
        ensures { result ≡ self.now.room.node }
    {
        self.room.node()
    }

    /// Its room.
    pub fn room(&self) -> &Room
        ensures { result.now ≡ self.now.room }
    {
        &self.room
    }

    /// How many of its column's first bytes are there.
    pub fn done(&self) -> u32
        ensures { result ≡ self.now.filled }
    {
        self.done
    }

    /// The count of faults of its region. One that never fails has none.
    pub fn faults(&self) -> u64
        ensures value { result ≡ self.now.device.faults }
        ensures sure { self.now.device.never_fails ≡ true → result ≡ 0 }
    {
        self.region.faults()
    }

    /// Its region, to be read.
    pub fn region(&self) -> &R
        ensures { R.device result.now ≡ self.now.device }
    {
        &self.region
    }

    /// Its region and its room.
    pub fn into_parts(self) -> (R, Room)
        ensures region { R.device result.0 ≡ self.device }
        ensures room { result.1 ≡ self.room }
    {
        let Target {
            region,
            room,
            done: _,
        } = self;
        (region, room)
    }

    /// The bytes of its plain room move from the seat to one of the room's own.
    pub fn adopt(&mut self, shared: &SharedPools, seat: &mut PoolSeat)
        requires pools { seat.old.of ≡ shared.now.of }
        requires node { self.old.room.node.0 < shared.now.of.words }
        requires plain { self.old.room.of ≡ None }
        requires bytes { self.old.room.bytes ≤ at_node self.old.room.node.0 seat.old.bytes }
        ensures seat { seat.new ≡ record seat.old { bytes = less self.old.room.node.0 self.old.room.bytes seat.old.bytes } }
        ensures room { self.new ≡ record self.old { room = record self.old.room { of = Some shared.now.of } } }
    {
        shared.adopt(seat, &mut self.room)
    }

    /// The bytes of its room go to the seat, and the room is a plain one.
    pub fn release(&mut self, shared: &SharedPools, seat: &mut PoolSeat)
        requires pools { seat.old.of ≡ shared.now.of }
        requires room { AreOf shared.now.of (self.old.room ∷ []) }
        ensures seat { seat.new ≡ record seat.old { bytes = seat.old.bytes ++ (self.old.room.node.0, self.old.room.bytes) ∷ [] } }
        ensures room { self.new ≡ record self.old { room = record self.old.room { of = None } } }
    {
        shared.release(seat, &mut self.room)
    }

    /// Writes the next bytes behind those that are there, by one write. A write that fails may leave any bytes in their place.
    pub fn fill(&mut self, bytes: &[u8]) -> Result<(), Failed>
        requires { self.old.filled + length bytes.now ≤ self.old.device.size }
        ensures content { MatchResult result (λ _. self.new.device.content ≡ option_map (overwritten self.old.filled bytes.now) self.old.device.content)
            (λ _. Torn self.old.filled (length bytes.now) self.old.device.content self.new.device.content) }
        ensures filled { MatchResult result (λ _. self.new.filled ≡ self.old.filled + length bytes.now) (λ _. self.new.filled ≡ self.old.filled) }
        ensures same { self.new ≡ record self.old {
          filled = self.new.filled;
          device = record self.old.device { content = self.new.device.content; writes = bump self.old.device.writes; faults = self.new.device.faults };
        } }
        ensures full { IsFull self.new.device }
        ensures cause { HasCause self.old.device.faults self.new.device.faults result }
        ensures sure { self.old.device.never_fails ≡ true → IsOk result }
    {
        let _size = self.region.len(); // it is a number of 32 bits
        let answer = self.region.write_at(self.done, bytes);
        if answer.is_ok() {
            self.done += bytes.len() as u32;
        }
        answer
    }

    /// Of new bytes from place `off` on, replaces those that are there, by one write. Where none is, there is no call.
    pub fn correct_data(&mut self, off: u32, bytes: &[u8]) -> Result<(), Failed>
        requires { off + length bytes.now ≤ self.old.device.size }
        ensures corrects { Overwrites off (take (overlap self.old.filled off (length bytes.now)) bytes.now) result self.old self.new }
        ensures full { IsFull self.new.device }
        ensures cause { HasCause self.old.device.faults self.new.device.faults result }
        ensures sure { self.old.device.never_fails ≡ true → IsOk result }
    {
        let len = self.overlap(off, bytes.len());
        self.overwrite(off, &bytes[..len])
    }

    /// Adds to the bytes that are there, of parity column `col`, what a delta of a data block from place `off` on adds to it, by
    /// one read and one write. Where none is there, there is no call.
    pub fn correct_parity(
        &mut self,
        col: u8,
        block: u8,
        off: u32,
        delta: &[u8],
        bench: &mut Bench,
    ) -> Result<(), Failed>
        requires col { col < bench.old.n }
        requires block { block < bench.old.k }
        requires long { length delta.now ≤ bench.old.block }
        requires inside { off + length delta.now ≤ self.old.device.size }
        ensures corrects { AddsTo off (gamma bench.old.k col block) (take (overlap self.old.filled off (length delta.now)) delta.now) result self.old self.new }
        ensures full { IsFull self.new.device }
        ensures cause { HasCause self.old.device.faults self.new.device.faults result }
        ensures sure { self.old.device.never_fails ≡ true → IsOk result }
        ensures bench { bench.new ≡ bench.old }
    {
        let len = self.overlap(off, delta.len());
        let coef = bench.coefficient(col, block);
        self.add(off, coef, &delta[..len], &mut bench.block)
    }

    /// Replaces the bytes that are there by those that the code gives column `col` for these bytes of the whole segment, by one
    /// write. Where none is there, there is no call.
    pub fn put(&mut self, col: u8, segment: &[u8], bench: &mut Bench) -> Result<(), Failed>
        requires col { col < bench.old.n }
        requires segment { length segment.now ≡ segment_length bench.old }
        requires bytes { AreBytes segment.now }
        requires filled { self.old.filled ≤ bench.old.block }
        requires size { bench.old.block ≤ self.old.device.size }
        ensures puts { Overwrites 0 (take self.old.filled (column bench.old.k bench.old.block col segment.now)) result self.old self.new }
        ensures full { IsFull self.new.device }
        ensures cause { HasCause self.old.device.faults self.new.device.faults result }
        ensures sure { self.old.device.never_fails ≡ true → IsOk result }
        ensures bench { bench.new ≡ bench.old }
    {
        let done = self.done as usize;
        if col < bench.shape.k() {
            let block = block_of(&bench.shape, col, segment);
            return self.overwrite(0, &block[..done]);
        }
        encode(
            &bench.shape,
            bench.rows.code(),
            col,
            segment,
            &mut bench.block,
        );
        self.overwrite(0, &bench.block[..done])
    }

    /// How many of so many bytes from place `off` on are there.
    fn overlap(&self, off: u32, len: usize) -> usize
        ensures { result ≡ overlap self.now.filled off len }
    {
        len.min(self.done.saturating_sub(off) as usize)
    }

    // Its region has as many bytes as it is long.
    fn full(&self)
        ensures { IsFull self.now.device }
    {
        let _len = self.region.len();
    }

    /// Replaces bytes in place; where there is none, there is no call.
    fn overwrite(&mut self, off: u32, bytes: &[u8]) -> Result<(), Failed>
        requires { off + length bytes.now ≤ self.old.device.size }
        ensures is { Overwrites off bytes.now result self.old self.new }
        ensures full { IsFull self.new.device }
        ensures cause { HasCause self.old.device.faults self.new.device.faults result }
        ensures sure { self.old.device.never_fails ≡ true → IsOk result }
    {
        if bytes.len() == 0 {
            self.full();
            return Ok(());
        }
        let answer = self.region.write_at(off, bytes);
        self.full();
        answer
    }

    /// Adds a coefficient times these bytes in place; where there is none, there is no call.
    fn add(&mut self, off: u32, coef: u8, delta: &[u8], block: &mut [u8]) -> Result<(), Failed>
        requires long { length delta.now ≤ length block.old }
        requires inside { off + length delta.now ≤ self.old.device.size }
        ensures is { AddsTo off coef delta.now result self.old self.new }
        ensures full { IsFull self.new.device }
        ensures cause { HasCause self.old.device.faults self.new.device.faults result }
        ensures sure { self.old.device.never_fails ≡ true → IsOk result }
    {
        self.full();
        if delta.len() == 0 {
            return Ok(());
        }
        let bytes = &mut block[..delta.len()];
        if self.region.read_at(off, bytes).is_err() {
            self.full();
            return Err(Failed);
        }
        add_scaled(bytes, coef, delta);
        let answer = self.region.write_at(off, bytes);
        self.full();
        answer
    }
}
