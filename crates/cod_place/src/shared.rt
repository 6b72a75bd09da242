//! Pools that threads share.
ghost use Rattle.std.specs.Prelude.{◌≡◌, ℕ, ◌+◌, ◌-◌, ◌<◌, ◌≤◌, ◌++◌, ◌∷◌, [], length, slice_index, Some, None, IfOk, IfErr};
ghost use Rattle.cod_place.specs.Free.{after_first, After, AreOf, HasSeen, at_node, less, taken_from, Counted};
ghost use Rattle.cod_place.specs.declared.view.View.{View};

use crate::rule::{AddsUp, Both, First, Fresh, Gives, Looks, Stages, Takes};
use crate::view::View;
use crate::{PlainPools, Room, Short};
use atomic_table::{Badge, Seat, Table};
use cod_types::{NodeId, OutOfMemory};
use std::alloc::Global;
use std::marker::Model;
use std::mem;
use std::sync::Wait;

/// A seat of shared pools, seen as whose it is, the bytes that it has on nodes, and what it has looked at.
#[derive(Drop)]
pub struct PoolSeat {
    seat: Seat<(), View>,
    counts: [u64; 64],
}

impl Model for PoolSeat {
    ghost use Rattle.std.specs.Prelude.{◌≡◌, []};
    ghost use Rattle.cod_place.specs.Free.{Seated, Counted};

    ghost Value = { Seated };

    ghost view = { λ s. record { of = s.seat.table_id; bytes = s.seat.me.0.bytes; looks = s.seat.me.0.looks } };

    ghost invariant = { λ s. (s.seat.me.1 ≡ []) × Counted s.counts s.seat.me.0.bytes };
}

/// Pools that threads share, with a word for each node: its free bytes. Seen as which they are, and the capacity of each node.
#[derive(Drop)]
pub struct SharedPools {
    table: Table<(), View, PlainPools, AddsUp, Global>,
    kept: PlainPools,
}

impl Model for SharedPools {
    ghost use Rattle.std.specs.Prelude.{◌≡◌, ◌<◌, ◌≤◌, length};
    ghost use Rattle.cod_place.specs.Free.{Pooled};

    ghost Value = { Pooled };

    ghost view = { λ p. record { of = p.table.shared.table_id; capacity = p.kept.capacity } };

    ghost invariant = { λ p. (p.table.shared.key.capacity ≡ p.kept.capacity) × (0 < p.table.shared.table_id.words) × (p.table.shared.table_id.words ≤ 64)
        × (p.table.shared.table_id.slots ≡ 0) × (length p.kept.free ≡ p.table.shared.table_id.words) };
}

impl SharedPools {
    /// Opens pools to threads. The first seat has what isn't free.
    pub fn open(alloc: Global, pools: PlainPools) -> Result<(SharedPools, PoolSeat), OutOfMemory>
        ensures pools { IfOk result (λ r. (r.0.of.words ≡ length pools.free) × (r.0.capacity ≡ pools.capacity)) }
        ensures seat { IfOk result (λ r. r.1 ≡ record { of = r.0.of; bytes = taken_from pools.capacity 0 pools.free; looks = [] }) }
    {
        let mut words = vec![in alloc; 0u64; pools.free.len()]?;
        let mut counts = [0u64; 64];
        for node in 0..pools.free.len() {
            words[node] = pools.free[node] as u64;
            counts[node] = (pools.capacity - pools.free[node]) as u64;
        }
        match Table::of_words(alloc, words.as_slice(), &pools) {
            Ok((table, seat)) => Ok((
                SharedPools { table, kept: pools },
                PoolSeat { seat, counts },
            )),
            Err(_) => Err(OutOfMemory),
        }
    }

    /// The bytes of a plain room move from the seat to one of the room's own.
    pub fn adopt(&self, seat: &mut PoolSeat, room: &mut Room)
        requires pools { seat.old.of ≡ self.now.of }
        requires node { room.old.node.0 < self.now.of.words }
        requires plain { room.old.of ≡ None }
        requires bytes { room.old.bytes ≤ at_node room.old.node.0 seat.old.bytes }
        ensures seat { seat.new ≡ record seat.old { bytes = less room.old.node.0 room.old.bytes seat.old.bytes } }
        ensures room { room.new ≡ record room.old { of = Some self.now.of } }
    {
        let at = room.node.0 as usize;
        let bytes = room.bytes as u64;
        let words = &self.table.shared;
        words.compare_exchange::<Stages>(&mut seat.seat, at, bytes, bytes);
        let own = words.split_seat::<First>(&mut seat.seat);
        seat.counts[at] = seat.counts[at].wrapping_sub(bytes);
        room.badge = own.into_badge();
    }

    /// The bytes of a room go to the seat, and the room is a plain one.
    pub fn release(&self, seat: &mut PoolSeat, room: &mut Room)
        requires pools { seat.old.of ≡ self.now.of }
        requires room { AreOf self.now.of (room.old ∷ []) }
        ensures seat { seat.new ≡ record seat.old { bytes = seat.old.bytes ++ (room.old.node.0, room.old.bytes) ∷ [] } }
        ensures room { room.new ≡ record room.old { of = None } }
    {
        let at = room.node.0 as usize;
        let badge = mem::replace(&mut room.badge, Badge::blank());
        self.table
            .shared
            .join_seat::<Both>(&mut seat.seat, badge.into_seat());
        seat.counts[at] = seat.counts[at].wrapping_add(room.bytes as u64);
    }

    /// A new seat, with no bytes and no looks.
    pub fn split(&self, seat: &mut PoolSeat) -> PoolSeat
        requires pools { seat.old.of ≡ self.now.of }
        ensures same { seat.new ≡ seat.old }
        ensures fresh { result ≡ record { of = seat.old.of; bytes = []; looks = [] } }
    {
        let fresh = self.table.shared.split_seat::<Fresh>(&mut seat.seat);
        PoolSeat {
            seat: fresh,
            counts: [0; 64],
        }
    }

    /// The bytes of the other seat come to this one. Its looks end.
    pub fn join(&self, seat: &mut PoolSeat, other: PoolSeat)
        requires pools { (seat.old.of ≡ self.now.of) × (other.of ≡ self.now.of) }
        ensures { seat.new ≡ record seat.old { bytes = seat.old.bytes ++ other.bytes } }
    {
        let PoolSeat {
            seat: others,
            counts,
        } = other;
        self.table.shared.join_seat::<Both>(&mut seat.seat, others);
        for node in 0..64 {
            seat.counts[node] = seat.counts[node].wrapping_add(counts[node]);
        }
    }

    /// The pools at the end, without memory. What isn't free is what the seat has.
    pub fn close(self, seat: PoolSeat) -> PlainPools
        requires pools { seat.of ≡ self.of }
        ensures capacity { (result.capacity ≡ self.capacity) × (length result.free ≡ self.of.words) }
        ensures sums { (node : ℕ) → node < self.of.words → slice_index result.free node + at_node node seat.bytes ≡ self.capacity }
    {
        let SharedPools { table, mut kept } = self;
        let PoolSeat { seat, counts } = seat;
        let closed = table.close_with(seat);
        for node in 0..kept.free.len() {
            kept.free[node] = kept.capacity - counts[node] as u32;
        }
        closed.free();
        kept
    }

    /// Takes so many bytes on a node. Short comes exactly where the load found fewer.
    pub fn take<R: Wait>(
        &self,
        rt: &R,
        seat: &mut PoolSeat,
        node: NodeId,
        bytes: u32,
    ) -> Result<Room, Short>
        requires pools { seat.old.of ≡ self.now.of }
        requires node { node.0 < self.now.of.words }
        ensures seat { After seat.old seat.new }
        ensures room { IfOk result (λ r. r ≡ record { node = node; bytes = bytes; of = Some self.now.of }) }
        ensures short { IfErr result (λ s. (s.free < bytes) × HasSeen seat.old seat.new node.0 s.free) }
    {
        let words = &self.table.shared;
        let at = node.0 as usize;
        let wanted = bytes as u64;
        for _ in rt.forever() {
            let found = words.load::<Looks>(&mut seat.seat, at);
            if found < wanted {
                return Err(Short { free: found as u32 });
            }
            let mut own = words.split_seat::<Fresh>(&mut seat.seat);
            if words.compare_exchange::<Takes>(&mut own, at, found, found - wanted) == found {
                return Ok(Room {
                    node,
                    bytes,
                    badge: own.into_badge(),
                });
            }
            words.join_seat::<Both>(&mut seat.seat, own);
        }
        unreachable!()
    }

    /// Gives so many bytes of a room back.
    pub fn trim(&self, room: &mut Room, bytes: u32)
        requires room { AreOf self.now.of (room.old ∷ []) }
        requires within { bytes ≤ room.old.bytes }
        ensures { room.new ≡ record room.old { bytes = room.old.bytes - bytes } }
    {
        let mut own = mem::replace(&mut room.badge, Badge::blank()).into_seat();
        self.table
            .shared
            .fetch_add::<Gives>(&mut own, room.node.0 as usize, bytes as u64);
        room.bytes -= bytes;
        room.badge = own.into_badge();
    }

    /// Gives all bytes of a room back. The room that is left has none.
    pub fn give(&self, mut room: Room) -> Room
        requires room { AreOf self.now.of (room ∷ []) }
        ensures { result ≡ record room { bytes = 0 } }
    {
        let bytes = room.bytes;
        self.trim(&mut room, bytes);
        room
    }
}
