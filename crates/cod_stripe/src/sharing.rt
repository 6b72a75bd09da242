//! The rooms of a segment, where the pools are shared.

ghost use Rattle.std.specs.Prelude.{◌≡◌, ◌≤◌, ℕ, List, None, Some, length, map, option_map};
ghost use Rattle.cod_place.specs.Free.{at_node};
ghost use Rattle.cod_place.specs.Rooms.{bytes_on};
ghost use Rattle.cod_seg.specs.Pools.{owned, owned_col, owned_rebuild};
ghost use Rattle.cod_segment.specs.Events.{rebuild_rooms, rooms_of};
ghost use Rattle.cod_stripe.specs.Sharing.{AreOwned, column_rooms, IsAimed, Without};

use crate::stripe::Stripe;
use cod_place::{PoolSeat, SharedPools};
use cod_region::Region;
use cod_repair::Columns;
use cod_segment::{Rebuild, Segment};

impl<R: Region> Stripe<R> {
    /// The bytes of its plain rooms move from the seat to the rooms' own, so that its events can go on with these shared pools.
    pub fn adopt(&mut self, shared: &SharedPools, seat: &mut PoolSeat)
        requires pools { seat.old.of ≡ shared.now.of }
        requires nodes { self.old.site.nodes ≤ shared.now.of.words }
        requires plain { self.old.pools ≡ None }
        requires bytes { (node : ℕ) → bytes_on node (rooms_of self.old) ≤ at_node node seat.old.bytes }
        ensures becomes { self.new ≡ owned (Some shared.now.of) self.old }
        ensures seat { Without (rooms_of self.old) seat.old seat.new }
    {
        adopt_rooms(&mut self.segment, shared, seat);
    }

    /// The bytes of its rooms, which are of these shared pools, go to the seat, and the rooms are plain ones.
    pub fn release(&mut self, shared: &SharedPools, seat: &mut PoolSeat)
        requires pools { seat.old.of ≡ shared.now.of }
        requires nodes { self.old.site.nodes ≤ shared.now.of.words }
        requires owner { self.old.pools ≡ Some shared.now.of }
        ensures becomes { self.new ≡ owned None self.old }
        ensures seat { Without (rooms_of self.old) seat.new seat.old }
    {
        release_rooms(&mut self.segment, shared, seat);
    }
}

/// The bytes of all rooms move from the seat to the rooms' own.
fn adopt_rooms<R: Region>(segment: &mut Segment<R>, shared: &SharedPools, seat: &mut PoolSeat)
    requires pools { seat.old.of ≡ shared.now.of }
    requires few { (1 ≤ length segment.old.cols) × (length segment.old.cols ≤ 16) }
    requires columns { AreOwned None shared.now.of.words segment.old.cols }
    requires target { IsAimed None shared.now.of.words segment.old.rebuild }
    requires bytes { (node : ℕ) → bytes_on node (rooms_of segment.old) ≤ at_node node seat.old.bytes }
    ensures becomes { segment.new ≡ owned (Some shared.now.of) segment.old }
    ensures seat { Without (rooms_of segment.old) seat.old seat.new }
{
    adopt_columns(&mut segment.columns, shared, seat);
    adopt_target(&mut segment.rebuild, shared, seat);
}

/// The bytes of all rooms go to the seat.
fn release_rooms<R: Region>(segment: &mut Segment<R>, shared: &SharedPools, seat: &mut PoolSeat)
    requires pools { seat.old.of ≡ shared.now.of }
    requires few { (1 ≤ length segment.old.cols) × (length segment.old.cols ≤ 16) }
    requires columns { AreOwned (Some shared.now.of) shared.now.of.words segment.old.cols }
    requires target { IsAimed (Some shared.now.of) shared.now.of.words segment.old.rebuild }
    ensures becomes { segment.new ≡ owned None segment.old }
    ensures seat { Without (rooms_of segment.old) seat.new seat.old }
{
    release_columns(&mut segment.columns, shared, seat);
    release_target(&mut segment.rebuild, shared, seat);
}

/// The bytes of the columns' rooms move from the seat to the rooms' own.
fn adopt_columns<R: Region>(columns: &mut Columns<R>, shared: &SharedPools, seat: &mut PoolSeat)
    requires pools { seat.old.of ≡ shared.now.of }
    requires few { length columns.old ≤ 16 }
    requires plain { AreOwned None shared.now.of.words columns.old }
    requires bytes { (node : ℕ) → bytes_on node (column_rooms columns.old) ≤ at_node node seat.old.bytes }
    ensures columns { columns.new ≡ map (owned_col (Some shared.now.of)) columns.old }
    ensures seat { Without (column_rooms columns.old) seat.old seat.new }
{
    let count = columns.len() as u8;
    'columns: for col in 0..count {
        columns.adopt(col, shared, seat);
    }
}

/// The bytes of the columns' rooms go to the seat.
fn release_columns<R: Region>(columns: &mut Columns<R>, shared: &SharedPools, seat: &mut PoolSeat)
    requires pools { seat.old.of ≡ shared.now.of }
    requires few { length columns.old ≤ 16 }
    requires owned { AreOwned (Some shared.now.of) shared.now.of.words columns.old }
    ensures columns { columns.new ≡ map (owned_col None) columns.old }
    ensures seat { Without (column_rooms columns.old) seat.new seat.old }
{
    let count = columns.len() as u8;
    'columns: for col in 0..count {
        columns.release(col, shared, seat);
    }
}

/// The bytes of the target's room, where there is a target, move from the seat to the room's own.
fn adopt_target<R: Region>(
    rebuild: &mut Option<Rebuild<R>>,
    shared: &SharedPools,
    seat: &mut PoolSeat,
)
    requires pools { seat.old.of ≡ shared.now.of }
    requires plain { IsAimed None shared.now.of.words rebuild.old }
    requires bytes { (node : ℕ) → bytes_on node (rebuild_rooms rebuild.old) ≤ at_node node seat.old.bytes }
    ensures rebuild { rebuild.new ≡ option_map (owned_rebuild (Some shared.now.of)) rebuild.old }
    ensures seat { Without (rebuild_rooms rebuild.old) seat.old seat.new }
{
    if let Some(rebuild) = rebuild
        && let Some(target) = &mut rebuild.target
    {
        target.adopt(shared, seat);
    }
}

/// The bytes of the target's room, where there is a target, go to the seat.
fn release_target<R: Region>(
    rebuild: &mut Option<Rebuild<R>>,
    shared: &SharedPools,
    seat: &mut PoolSeat,
)
    requires pools { seat.old.of ≡ shared.now.of }
    requires owned { IsAimed (Some shared.now.of) shared.now.of.words rebuild.old }
    ensures rebuild { rebuild.new ≡ option_map (owned_rebuild None) rebuild.old }
    ensures seat { Without (rebuild_rooms rebuild.old) seat.new seat.old }
{
    if let Some(rebuild) = rebuild
        && let Some(target) = &mut rebuild.target
    {
        target.release(shared, seat);
    }
}
