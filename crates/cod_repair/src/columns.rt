//! The columns of a segment, in order.
ghost use Rattle.std.specs.Prelude.{◌≡◌, ◌↔◌, ◌+◌, ◌-◌, ◌<◌, ◌≤◌, ◌++◌, ◌∷◌, [], ℕ, List, Some, None, IfOk, MatchOption, All, length, slice_index_or, nat_lt};
ghost use Rattle.std.specs.Prelude.{if◌then◌else◌, true, false, option_map};
ghost use Rattle.std.specs.Option.{is_some};
ghost use Rattle.cod_types.specs.Limits.{floor};
ghost use Rattle.cod_parity.specs.State.{empty};
ghost use Rattle.cod_place.specs.Free.{AreOf, at_node, less};
ghost use Rattle.cod_place.specs.Room.{Room};
ghost use Rattle.cod_place.specs.Rooms.{raised};
ghost use Rattle.cod_place.specs.Spares.{is_in};
ghost use Rattle.cod_seg.specs.Laws.{up_below};
ghost use Rattle.cod_seg.specs.Seg.{Col, col_at, with_col};
ghost use Rattle.cod_repair.specs.Columns.{first_down, is_taken, line_of, live_node, state_at};

use crate::Column;
use crate::sources::{count_live, live_nodes, lowest_down, taken};
use cod_chronicle::Link;
use cod_place::{PoolSeat, Pools, Room, SharedPools};
use cod_region::Region;
use cod_types::{Geometry, LayoutLine, NodeId, OutOfMemory, SegId};
use std::alloc::Global;
use std::marker::Model;
use std::mem;

/// How many columns there are at most.
const MOST: usize = 16;

/// The region of a column failed, and its count of faults is this now.
#[derive(Clone, Copy, Debug, PartialEq, Eq)]
pub struct ColumnFailed {
    pub col: u8,
    pub count: u64,
}

/// The columns of a segment in order, at most sixteen. They are seen as their list.
#[derive(Drop)]
pub struct Columns<R: Region> {
    pub(crate) slots: Vec<Column<R>>,
}

impl<R: Region> Model for Columns<R> {
    ghost use Rattle.std.specs.Prelude.{List, ◌≤◌, vec_len, vec_capacity};
    ghost use Rattle.cod_seg.specs.Seg.{Col};

    ghost Value = { List Col };

    ghost view = { λ c. c.slots.items };

    ghost invariant = { λ c. (vec_len c.slots ≤ 16) × (16 ≤ vec_capacity c.slots) };
}

impl<R: Region> Columns<R> {
    /// No column, and room for sixteen.
    pub fn new(alloc: Global) -> Result<Columns<R>, OutOfMemory>
        ensures { IfOk result (λ c. c ≡ []) }
    {
        Ok(Columns {
            slots: Vec::with_capacity(alloc, MOST)?,
        })
    }

    /// The next column.
    pub fn push(&mut self, column: Column<R>)
        requires { length self.old < 16 }
        ensures { self.new ≡ self.old ++ column ∷ [] }
    {
        match self.slots.push(column) {
            Ok(()) => {}
            Err(_) => unreachable!(),
        }
    }

    /// The last column out again. None exactly where there is none.
    pub fn pop(&mut self) -> Option<Column<R>>
        ensures { MatchOption result ((self.old ≡ []) × (self.new ≡ [])) (λ c. self.old ≡ self.new ++ c ∷ []) }
    {
        self.slots.pop()
    }

    /// How many columns there are.
    pub fn len(&self) -> usize
        ensures { result ≡ length self.now }
    {
        self.slots.len()
    }

    /// The node of a column.
    pub fn node(&self, col: u8) -> NodeId
        requires { col < length self.now }
        ensures { result ≡ (col_at self.now col).room.node }
    {
        self.slots[col as usize].node()
    }

    /// The room of a column.
    pub fn room(&self, col: u8) -> &Room
        requires { col < length self.now }
        ensures { result.now ≡ (col_at self.now col).room }
    {
        self.slots[col as usize].room()
    }

    /// Whether a column is live.
    pub fn live(&self, col: u8) -> bool
        requires { col < length self.now }
        ensures { result ≡ (col_at self.now col).is_up }
    {
        self.slots[col as usize].is_up()
    }

    /// The node of each live column, and None elsewhere.
    pub fn live_nodes(&self) -> [Option<NodeId>; 16]
        ensures { (i : ℕ) → slice_index_or result i None ≡ live_node (col_at self.now i) }
    {
        live_nodes(&self.slots)
    }

    /// How many columns are live.
    pub fn live_count(&self) -> u8
        ensures { result ≡ up_below (length self.now) self.now }
    {
        count_live(&self.slots)
    }

    /// The lowest column that is down. None exactly where none is.
    pub fn lowest_down(&self) -> Option<u8>
        ensures { result ≡ first_down self.now }
    {
        lowest_down(&self.slots)
    }

    /// The nodes of all columns, of those that are down too: bit x for node x.
    pub fn taken(&self) -> u64
        requires { All (λ (c : Col). c.room.node.0 < 64) self.now }
        ensures { (node : ℕ) → is_in result node ≡ is_taken self.now node }
    {
        taken(&self.slots)
    }

    /// What is printed of a column.
    pub fn line(&self, seg: SegId, col: u8) -> LayoutLine
        requires { col < length self.now }
        ensures { result ≡ line_of seg col (col_at self.now col) }
    {
        let column = &self.slots[col as usize];
        let region = column.region();
        LayoutLine {
            seg,
            col,
            node: column.node(),
            up: column.is_up(),
            len: region.len(),
            parity: column.parity_line(),
            reads: region.reads(),
            writes: region.writes(),
        }
    }

    /// What was appended to a parity column since its last tick, the size of its reserved space, and its average.
    pub fn space(&self, col: u8) -> (u64, u32, u32)
        requires col { col < length self.now }
        requires parity { 0 < (state_at self.now col).size }
        ensures appended { result.0 ≡ (state_at self.now col).appended }
        ensures size { result.1 ≡ (state_at self.now col).size }
        ensures average { result.2 ≡ (state_at self.now col).average }
    {
        self.slots[col as usize].space()
    }

    /// A column's region, to be read.
    pub fn region(&self, col: u8) -> &R
        requires { col < length self.now }
        ensures { R.device result.now ≡ (state_at self.now col).device }
    {
        self.slots[col as usize].region()
    }

    /// A region tells what it holds where the first column's does. This does nothing.
    pub fn tells_as(&self, region: &R)
        requires { 0 < length self.now }
        ensures { is_some (R.device region.now).content ≡ is_some (state_at self.now 0).device.content }
    {
        let _len = region.len();
        let _first = self.slots[0].region();
    }

    /// A live column is down from now on; the place of its mark is handed out.
    pub fn mark_down(&mut self, col: u8) -> Link
        requires col { col < length self.old }
        requires live { (col_at self.old col).is_up ≡ true }
        ensures { self.new ≡ with_col self.old col (record (col_at self.old col) { is_up = false }) }
    {
        self.slots[col as usize].mark_down()
    }

    /// A column takes the place of another, whose room is handed out.
    pub fn replace(&mut self, col: u8, column: Column<R>) -> Room
        requires { col < length self.old }
        ensures columns { self.new ≡ with_col self.old col column }
        ensures room { result ≡ (col_at self.old col).room }
    {
        mem::replace(&mut self.slots[col as usize], column).into_room()
    }

    /// A live column comes to another region, with its own mark. The old room is handed out. Size and average are those of a
    /// parity column's reserved space, 0 and 10000 for a data column.
    pub fn shift(
        &mut self,
        col: u8,
        room: Room,
        g: Geometry,
        region: R,
        size: u32,
        average: u32,
    ) -> Room
        requires col { col < length self.old }
        requires live { (col_at self.old col).is_up ≡ true }
        requires data { col < g.k → (size ≡ 0) × (average ≡ 10000) }
        requires least { g.k ≤ col → floor g ≤ size }
        requires most { size ≤ g.reserve }
        requires average { average ≤ 10000 }
        requires whole { (R.device region).size ≡ g.block + size }
        ensures columns { self.new ≡ with_col self.old col (record { room = room; is_up = true; state = empty g size average (R.device region) }) }
        ensures room { result ≡ (col_at self.old col).room }
    {
        let mark = self.mark_down(col);
        self.replace(col, placed(col, room, g, region, size, average, mark))
    }

    /// Gives so many bytes of a column's room back.
    pub fn trim<P: Pools>(&mut self, col: u8, bytes: u32, pools: &mut P)
        requires col { col < length self.old }
        requires within { bytes ≤ (col_at self.old col).room.bytes }
        requires came { P.Came pools.old ((col_at self.old col).room ∷ []) }
        requires ready { P.ready pools.old }
        ensures room { self.new ≡ with_col self.old col (record (col_at self.old col) {
          room = record (col_at self.old col).room { bytes = (col_at self.old col).room.bytes - bytes };
        }) }
        ensures free { P.free pools.new ≡ option_map (raised (col_at self.old col).room.node.0 bytes) (P.free pools.old) }
        ensures came { (rooms : List Room) → P.Came pools.old ((col_at self.old col).room ∷ rooms)
            → P.Came pools.new (record (col_at self.old col).room { bytes = (col_at self.old col).room.bytes - bytes } ∷ rooms) }
        ensures sizes { (P.nodes pools.new ≡ P.nodes pools.old) × (P.capacity pools.new ≡ P.capacity pools.old) }
        ensures ready { P.ready pools.new }
        ensures same { P.same pools.old pools.new }
    {
        self.slots[col as usize].trim(bytes, pools)
    }

    /// The bytes of a column's plain room move from the seat to one of the room's own.
    pub fn adopt(&mut self, col: u8, shared: &SharedPools, seat: &mut PoolSeat)
        requires col { col < length self.old }
        requires pools { seat.old.of ≡ shared.now.of }
        requires node { (col_at self.old col).room.node.0 < shared.now.of.words }
        requires plain { (col_at self.old col).room.of ≡ None }
        requires bytes { (col_at self.old col).room.bytes ≤ at_node (col_at self.old col).room.node.0 seat.old.bytes }
        ensures seat { seat.new ≡ record seat.old { bytes = less (col_at self.old col).room.node.0 (col_at self.old col).room.bytes seat.old.bytes } }
        ensures room { self.new
            ≡ with_col self.old col (record (col_at self.old col) { room = record (col_at self.old col).room { of = Some shared.now.of } }) }
    {
        self.slots[col as usize].adopt(shared, seat)
    }

    /// The bytes of a column's room go to the seat, and the room is a plain one.
    pub fn release(&mut self, col: u8, shared: &SharedPools, seat: &mut PoolSeat)
        requires col { col < length self.old }
        requires pools { seat.old.of ≡ shared.now.of }
        requires room { AreOf shared.now.of ((col_at self.old col).room ∷ []) }
        ensures seat { seat.new ≡ record seat.old { bytes = seat.old.bytes ++ ((col_at self.old col).room.node.0, (col_at self.old col).room.bytes) ∷ [] } }
        ensures room { self.new ≡ with_col self.old col (record (col_at self.old col) { room = record (col_at self.old col).room { of = None } }) }
    {
        self.slots[col as usize].release(shared, seat)
    }
}

/// A column on a region: data, or parity without records.
fn placed<R: Region>(
    col: u8,
    room: Room,
    g: Geometry,
    region: R,
    size: u32,
    average: u32,
    mark: Link,
) -> Column<R>
    requires plain { col < g.k → (size ≡ 0) × (average ≡ 10000) }
    requires least { g.k ≤ col → floor g ≤ size }
    requires most { size ≤ g.reserve }
    requires average { average ≤ 10000 }
    requires whole { (R.device region).size ≡ g.block + size }
    ensures { result ≡ record { room = room; is_up = true; state = empty g size average (R.device region) } }
{
    if col < g.k() {
        return Column::of_data(room, g, region, mark);
    }
    Column::of_parity(room, g, region, size, average, mark)
}
