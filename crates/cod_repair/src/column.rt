//! One column of a segment.
ghost use Rattle.std.specs.Prelude.{◌≡◌, ◌+◌, ◌-◌, ◌<◌, ◌≤◌, ◌++◌, ◌∷◌, [], min, ℕ, List, Option, Some, None, OnOk, IsOk, MatchResult, length, slice_index};
ghost use Rattle.std.specs.Prelude.{true, false, option_map};
ghost use Rattle.std.specs.List.{flat_map, filter};
ghost use Rattle.std.specs.Option.{is_some};
ghost use Rattle.cod_types.specs.Faults.{bump, HasCause};
ghost use Rattle.cod_types.specs.Limits.{floor};
ghost use Rattle.cod_types.specs.Overwritten.{byte_of, overwritten};
ghost use Rattle.cod_region.specs.Device.{Torn};
ghost use Rattle.cod_data.specs.Values.{placed};
ghost use Rattle.cod_predict.specs.Average.{target_size};
ghost use Rattle.cod_parity.specs.Log.{AreBelowEnd, IsDue, is_past, Logged, logged, logged_length, scaled, text};
ghost use Rattle.cod_parity.specs.State.{averaged, empty, IsKept, Means, with_base};
ghost use Rattle.cod_parity.specs.Calls.{Appends, AppendsMerged, FailsAppendMerged, FailsMerge, FailsShrink, FailsWrite, MergesIfDue, Same, Shrinks};
ghost use Rattle.cod_parity.specs.Held.{Holds, no_pieces, Piece, pieces_length, with_piece};
ghost use Rattle.cod_place.specs.Free.{AreOf, at_node, less};
ghost use Rattle.cod_place.specs.Room.{Room};
ghost use Rattle.cod_place.specs.Rooms.{raised};
ghost use Rattle.cod_repair.specs.Columns.{HasValue, IsFull, IsInside, IsPlain, IsReadable, parity_of, was_read};
ghost use Rattle.cod_repair.specs.Views.{state_in};

use cod_chronicle::Link;
use cod_data::DataColumn;
use cod_parity::ParityColumn;
use cod_place::{PoolSeat, Pools, Room, SharedPools};
use cod_predict::{Policy, Rule};
use cod_record::Head;
use cod_region::Region;
use cod_types::{Cuts, Failed, Geometry, NodeId, ParityLine};
use std::marker::Model;
use std::mem;

/// A column that is up has the place of the mark that will tell that it went down.
#[derive(Drop)]
pub enum Life {
    Up(Link),
    Down,
}

/// A block of data, with the geometry that it is of, or a parity block with its log.
#[derive(Drop)]
pub enum Kind<R: Region> {
    Data(Geometry, DataColumn<R>),
    Parity(ParityColumn<R>),
}

/// A column of a segment with its room, which has its node. While it is up it has the place of the mark that will tell that it
/// went down.
#[derive(Drop)]
pub struct Column<R: Region> {
    room: Room,
    life: Life,
    kind: Kind<R>,
}

impl<R: Region> Model for Column<R> {
    ghost use Rattle.cod_seg.specs.Seg.{Col};
    ghost use Rattle.cod_repair.specs.Views.{is_up, state_in};

    ghost Value = { Col };

    ghost view = { λ c. record { room = c.room; is_up = is_up c.life; state = state_in c.kind } };
}

impl<R: Region> Column<R> {
    /// A data column on a region, up.
    pub fn of_data(room: Room, g: Geometry, region: R, mark: Link) -> Column<R>
        ensures { result ≡ record { room = room; is_up = true; state = empty g 0 10000 (R.device region) } }
    {
        Column {
            room,
            life: Life::Up(mark),
            kind: Kind::Data(g, DataColumn::new(region)),
        }
    }

    /// A parity column on a region, up, with no record. The region's front is its value; behind it are `size` bytes of reserved
    /// space. The average is that of the use of the reserved space, in ten-thousandths.
    pub fn of_parity(
        room: Room,
        g: Geometry,
        region: R,
        size: u32,
        average: u32,
        mark: Link,
    ) -> Column<R>
        requires least { floor g ≤ size }
        requires most { size ≤ g.reserve }
        requires average { average ≤ 10000 }
        requires whole { (R.device region).size ≡ g.block + size }
        ensures { result ≡ record { room = room; is_up = true; state = empty g size average (R.device region) } }
    {
        Column {
            room,
            life: Life::Up(mark),
            kind: Kind::Parity(ParityColumn::moved(g, region, size, average)),
        }
    }

    /// Its room; the region is let go.
    pub fn into_room(self) -> Room
        ensures { result ≡ self.room }
    {
        let Column {
            room,
            life: _,
            kind: _,
        } = self;
        room
    }

    pub(crate) fn is_up(&self) -> bool
        ensures { result ≡ self.now.is_up }
    {
        matches!(self.life, Life::Up(_))
    }

    pub(crate) fn node(&self) -> NodeId
        ensures { result ≡ self.now.room.node }
    {
        self.room.node()
    }

    pub(crate) fn room(&self) -> &Room
        ensures { result.now ≡ self.now.room }
    {
        &self.room
    }

    pub(crate) fn region(&self) -> &R
        ensures { R.device result.now ≡ self.now.state.device }
    {
        match &self.kind {
            Kind::Data(_, column) => column.region(),
            Kind::Parity(column) => column.region(),
        }
    }

    /// What is printed of a parity column besides.
    pub(crate) fn parity_line(&self) -> Option<ParityLine>
        ensures { result ≡ parity_of self.now.state }
    {
        match &self.kind {
            Kind::Data(_, _) => None,
            Kind::Parity(column) => {
                let _shape = column.geometry(); // its reserved space isn't empty
                Some(ParityLine {
                    used: column.used(),
                    avg: column.average(),
                })
            }
        }
    }

    /// What was appended to a parity column since its last tick, the size of its reserved space, and its average.
    pub(crate) fn space(&self) -> (u64, u32, u32)
        requires { 0 < self.now.state.size }
        ensures appended { result.0 ≡ self.now.state.appended }
        ensures size { result.1 ≡ self.now.state.size }
        ensures average { result.2 ≡ self.now.state.average }
    {
        match &self.kind {
            Kind::Data(_, _) => unreachable!(),
            Kind::Parity(column) => (column.appended(), column.size(), column.average()),
        }
    }

    /// The column is down from now on; the place of its mark is handed out.
    pub(crate) fn mark_down(&mut self) -> Link
        requires { self.old.is_up ≡ true }
        ensures { self.new ≡ record self.old { is_up = false } }
    {
        match mem::replace(&mut self.life, Life::Down) {
            Life::Up(mark) => mark,
            Life::Down => unreachable!(),
        }
    }

    /// Gives so many bytes of its room back.
    pub(crate) fn trim<P: Pools>(&mut self, bytes: u32, pools: &mut P)
        requires within { bytes ≤ self.old.room.bytes }
        requires came { P.Came pools.old (self.old.room ∷ []) }
        requires ready { P.ready pools.old }
        ensures room { self.new ≡ record self.old { room = record self.old.room { bytes = self.old.room.bytes - bytes } } }
        ensures free { P.free pools.new ≡ option_map (raised self.old.room.node.0 bytes) (P.free pools.old) }
        ensures came { (rooms : List Room) → P.Came pools.old (self.old.room ∷ rooms) → P.Came pools.new (self.new.room ∷ rooms) }
        ensures sizes { (P.nodes pools.new ≡ P.nodes pools.old) × (P.capacity pools.new ≡ P.capacity pools.old) }
        ensures ready { P.ready pools.new }
        ensures same { P.same pools.old pools.new }
    {
        pools.trim(&mut self.room, bytes)
    }

    /// The bytes of its plain room move from the seat to one of the room's own.
    pub(crate) fn adopt(&mut self, shared: &SharedPools, seat: &mut PoolSeat)
        requires pools { seat.old.of ≡ shared.now.of }
        requires node { self.old.room.node.0 < shared.now.of.words }
        requires plain { self.old.room.of ≡ None }
        requires bytes { self.old.room.bytes ≤ at_node self.old.room.node.0 seat.old.bytes }
        ensures seat { seat.new ≡ record seat.old { bytes = less self.old.room.node.0 self.old.room.bytes seat.old.bytes } }
        ensures room { self.new ≡ record self.old { room = record self.old.room { of = Some shared.now.of } } }
    {
        shared.adopt(seat, &mut self.room)
    }

    /// The bytes of its room go to the seat, and the room is a plain one.
    pub(crate) fn release(&mut self, shared: &SharedPools, seat: &mut PoolSeat)
        requires pools { seat.old.of ≡ shared.now.of }
        requires room { AreOf shared.now.of (self.old.room ∷ []) }
        ensures seat { seat.new ≡ record seat.old { bytes = seat.old.bytes ++ (self.old.room.node.0, self.old.room.bytes) ∷ [] } }
        ensures room { self.new ≡ record self.old { room = record self.old.room { of = None } } }
    {
        shared.release(seat, &mut self.room)
    }

    // Its region has as many bytes as it is long.
    fn full(&self)
        ensures { IsFull self.now.state.device }
    {
        match &self.kind {
            Kind::Data(_, column) => {
                let _region = column.region();
            }
            Kind::Parity(column) => {
                let _region = column.region();
            }
        }
    }

    /// Brings the bytes at the cut from `off` on, by one read. A delta that was added to a data column in place is taken off.
    pub(crate) fn read_at_cut(
        &mut self,
        kept: Option<(u32, &[u8])>,
        off: u32,
        into: &mut [u8],
        cuts: &Cuts,
        scratch: &mut [u8],
    ) -> Result<(), Failed>
        requires { IsReadable off (length into.old) (length scratch.old) self.old }
        ensures same { self.new ≡ was_read self.new.state.device.faults self.old }
        ensures value { (v : ℕ → ℕ) → HasValue self.old cuts.now (byte_of (placed kept.entry)) v
            → OnOk result ((x : ℕ) → x < length into.old → slice_index into.new x ≡ v (off + x)) }
        ensures cause { HasCause self.old.state.device.faults self.new.state.device.faults result }
        ensures sure { self.old.state.device.never_fails ≡ true → IsOk result }
    {
        match &mut self.kind {
            Kind::Data(_, column) => column.read_at_cut(kept, off, into),
            Kind::Parity(column) => {
                let _shape = column.geometry(); // its reserved space isn't empty
                column.read_from(off, into, cuts, scratch)
            }
        }
    }

    /// Whether its bytes at the cut are those of its region. It is told whether no delta is kept.
    pub(crate) fn is_plain(&self, bare: bool) -> bool
        ensures { (kept : ℕ → ℕ) → (bare ≡ true → (x : ℕ) → kept x ≡ 0) → result ≡ true → IsPlain self.now kept }
    {
        match &self.kind {
            Kind::Data(_, _) => bare,
            Kind::Parity(column) => {
                let _shape = column.geometry(); // its reserved space isn't empty
                column.used() == 0
            }
        }
    }

    /// Counts a read of so many bytes from `off` on, which `lent` then gives without a copy.
    pub(crate) fn fetch(&mut self, off: u32, len: usize) -> Result<(), Failed>
        requires { IsInside off len self.old }
        ensures same { self.new ≡ was_read self.new.state.device.faults self.old }
        ensures cause { HasCause self.old.state.device.faults self.new.state.device.faults result }
        ensures sure { self.old.state.device.never_fails ≡ true → IsOk result }
    {
        match &mut self.kind {
            Kind::Data(_, column) => column.fetch(off, len),
            Kind::Parity(column) => {
                let _shape = column.geometry(); // its reserved space isn't empty
                column.fetch(off, len)
            }
        }
    }

    /// The bytes from `off` on, as its region holds them: those at the cut, where the column is plain.
    pub(crate) fn lent(&self, off: u32, len: usize) -> &[u8]
        requires { IsInside off len self.now }
        ensures length { length result.now ≡ len }
        ensures value { (cuts : List ℕ) (kept v : ℕ → ℕ) → HasValue self.now cuts kept v → IsPlain self.now kept
            → (x : ℕ) → x < len → slice_index result.now x ≡ v (off + x) }
    {
        match &self.kind {
            Kind::Data(_, column) => column.lent(off, len),
            Kind::Parity(column) => {
                let _shape = column.geometry(); // its reserved space isn't empty
                column.lent(off, len)
            }
        }
    }

    /// Replaces bytes of a data column in place, by one write.
    pub(crate) fn apply(&mut self, off: u32, bytes: &[u8]) -> Result<(), Failed>
        requires data { self.old.state.size ≡ 0 }
        requires inside { off + length bytes.now ≤ self.old.state.device.size }
        ensures same { self.new ≡ record self.old {
          state = record self.old.state {
            device = record self.old.state.device {
              content = self.new.state.device.content;
              writes = bump self.old.state.device.writes;
              faults = self.new.state.device.faults;
            };
          };
        } }
        ensures content { MatchResult result (λ _. self.new.state.device.content ≡ option_map (overwritten off bytes.now) self.old.state.device.content)
            (λ _. Torn off (length bytes.now) self.old.state.device.content self.new.state.device.content) }
        ensures full { IsFull self.new.state.device }
        ensures cause { HasCause self.old.state.device.faults self.new.state.device.faults result }
        ensures sure { self.old.state.device.never_fails ≡ true → IsOk result }
    {
        let answer = match &mut self.kind {
            Kind::Data(_, column) => column.apply(off, bytes),
            Kind::Parity(column) => {
                let _shape = column.geometry(); // its reserved space isn't empty
                unreachable!()
            }
        };
        self.full();
        answer
    }

    /// Appends a record to the log of a parity column.
    pub(crate) fn append(
        &mut self,
        head: Head,
        version: u8,
        coef: u8,
        delta: &[u8],
        cuts: &Cuts,
        scratch: &mut [u8],
    ) -> Result<(), Failed>
        requires parity { 0 < self.old.state.size }
        requires first { 1 ≤ version }
        requires last { version ≤ 2 }
        requires second { version ≡ 2 → (self.old.state.shape.version ≡ 2) × (head.len ≤ self.old.state.shape.update) }
        requires len { head.len ≡ length delta.now }
        requires inside { head.off + head.len ≤ self.old.state.shape.block }
        requires block { head.block < self.old.state.shape.k }
        requires fits { logged_length version head (scaled coef delta.now) ≤ self.old.state.size }
        requires room { self.old.state.size < self.old.state.used + logged_length version head (scaled coef delta.now) → (base : List ℕ) (records : List Logged)
            → Means self.old.state base records
            → length (flat_map text (filter (is_past cuts.now) records)) + logged_length version head (scaled coef delta.now) ≤ self.old.state.size }
        requires scratch { self.old.state.shape.block + self.old.state.shape.reserve ≤ length scratch.old }
        ensures column { self.new ≡ record self.old { state = self.new.state } }
        ensures adds { self.old.state.used + logged_length version head (scaled coef delta.now) ≤ self.old.state.size
            → MatchResult result (λ _. Appends (logged version head (scaled coef delta.now)) self.old.state self.new.state)
            (λ _. FailsWrite (self.old.state.shape.block + self.old.state.used) (logged_length version head (scaled coef delta.now)) self.old.state
            self.new.state) }
        ensures merges { self.old.state.size < self.old.state.used + logged_length version head (scaled coef delta.now)
            → MatchResult result (λ _. AppendsMerged cuts.now (logged version head (scaled coef delta.now)) self.old.state self.new.state)
            (λ _. FailsAppendMerged cuts.now (logged_length version head (scaled coef delta.now)) self.old.state self.new.state) }
        ensures holds { (v : ℕ → ℕ) (p : ℕ → Option Piece) → Holds self.old.state cuts.now v p → p head.block ≡ None
            → head.number ≡ slice_index cuts.now head.block + 1
            → OnOk result (Holds self.new.state cuts.now v (with_piece p head.block
            (record { off = head.off; bytes = scaled coef delta.now; length = logged_length version head (scaled coef delta.now) }))) }
        ensures same { Same self.old.state self.new.state }
        ensures kept { IsKept self.new.state }
        ensures full { IsFull self.new.state.device }
        ensures cause { HasCause self.old.state.device.faults self.new.state.device.faults result }
        ensures sure { self.old.state.device.never_fails ≡ true → IsOk result }
    {
        let answer = match &mut self.kind {
            Kind::Parity(column) => {
                let answer = column.append(head, version, coef, delta, cuts, scratch);
                let _shape = column.geometry(); // its numbers are told here
                answer
            }
            Kind::Data(_, _) => unreachable!(),
        };
        self.full();
        answer
    }

    /// Merges the log of a parity column.
    pub(crate) fn merge(&mut self, cuts: &Cuts, scratch: &mut [u8]) -> Result<(), Failed>
        requires parity { 0 < self.old.state.size }
        requires scratch { self.old.state.shape.block + self.old.state.shape.reserve ≤ length scratch.old }
        ensures column { self.new ≡ record self.old { state = self.new.state } }
        ensures merges { MatchResult result (λ _. MergesIfDue cuts.now self.old.state self.new.state)
            (λ _. IsDue self.old.state.lowest cuts.now × FailsMerge self.old.state self.new.state) }
        ensures holds { (v : ℕ → ℕ) (p : ℕ → Option Piece) → Holds self.old.state cuts.now v p → OnOk result (Holds self.new.state cuts.now v p) }
        ensures used { (v : ℕ → ℕ) (p : ℕ → Option Piece) → Holds self.old.state cuts.now v p
            → OnOk result (self.new.state.used ≡ pieces_length p self.old.state.shape.k) }
        ensures none_due { AreBelowEnd cuts.now → OnOk result (IsDue self.new.state.lowest cuts.now → ⊥) }
        ensures same { Same self.old.state self.new.state }
        ensures kept { IsKept self.new.state }
        ensures full { IsFull self.new.state.device }
        ensures cause { HasCause self.old.state.device.faults self.new.state.device.faults result }
        ensures sure { self.old.state.device.never_fails ≡ true → IsOk result }
    {
        let answer = match &mut self.kind {
            Kind::Parity(column) => column.merge(cuts, scratch),
            Kind::Data(_, _) => unreachable!(),
        };
        self.full();
        answer
    }

    /// A tick of a parity column. It answers the bytes that were cut off.
    pub(crate) fn tick<P: Rule>(
        &mut self,
        policy: &Policy<P>,
        cuts: &Cuts,
        scratch: &mut [u8],
    ) -> Result<u32, Failed>
        requires parity { 0 < self.old.state.size }
        requires room { (base : List ℕ) (records : List Logged) → Means self.old.state base records
            → length (flat_map text (filter (is_past cuts.now) records)) ≤ floor self.old.state.shape }
        requires scratch { self.old.state.shape.block + self.old.state.shape.reserve ≤ length scratch.old }
        ensures column { self.new ≡ record self.old { state = self.new.state } }
        ensures average { self.new.state.average
            ≡ P.answer policy.now.rule (min self.old.state.appended self.old.state.size) self.old.state.size self.old.state.average }
        ensures shrinks { MatchResult result
            (λ cut. (cut + self.new.state.size ≡ self.old.state.size)
            × Shrinks cuts.now (target_size self.old.state.shape self.old.state.size self.new.state.average) (averaged self.new.state.average self.old.state)
            self.new.state)
            (λ _. FailsShrink cuts.now (target_size self.old.state.shape self.old.state.size self.new.state.average)
            (averaged self.new.state.average self.old.state) self.new.state) }
        ensures holds { (v : ℕ → ℕ) (p : ℕ → Option Piece) → Holds self.old.state cuts.now v p → OnOk result (Holds self.new.state cuts.now v p) }
        ensures kept { IsKept self.new.state }
        ensures shorter { self.new.state.device.size ≤ self.old.state.device.size }
        ensures same { (self.new.state.shape ≡ self.old.state.shape) × (self.new.state.device.never_fails ≡ self.old.state.device.never_fails)
            × (is_some self.new.state.device.content ≡ is_some self.old.state.device.content) }
        ensures full { IsFull self.new.state.device }
        ensures cause { HasCause self.old.state.device.faults self.new.state.device.faults result }
        ensures sure { self.old.state.device.never_fails ≡ true → IsOk result }
    {
        let answer = match &mut self.kind {
            Kind::Parity(column) => column.tick(policy, cuts, scratch),
            Kind::Data(_, _) => unreachable!(),
        };
        self.full();
        answer
    }

    /// Replaces the bytes of a data column, by one write.
    pub(crate) fn put_block(&mut self, bytes: &[u8]) -> Result<(), Failed>
        requires data { self.old.state.size ≡ 0 }
        requires long { length bytes.now ≡ self.old.state.device.size }
        ensures column { self.new ≡ record self.old { state = self.new.state } }
        ensures puts { MatchResult result (λ _. self.new.state ≡ with_base bytes.now self.old.state)
            (λ _. FailsWrite 0 (length bytes.now) self.old.state self.new.state) }
        ensures full { IsFull self.new.state.device }
        ensures cause { HasCause self.old.state.device.faults self.new.state.device.faults result }
        ensures sure { self.old.state.device.never_fails ≡ true → IsOk result }
    {
        self.full();
        let answer = match &mut self.kind {
            Kind::Data(_, column) => column.put(bytes),
            Kind::Parity(column) => {
                let _shape = column.geometry(); // its reserved space isn't empty
                unreachable!()
            }
        };
        self.full();
        answer
    }

    /// Replaces the block of a parity column, and with it all records, by one write.
    pub(crate) fn put_base(&mut self, base: &[u8]) -> Result<(), Failed>
        requires parity { 0 < self.old.state.size }
        requires long { length base.now ≡ self.old.state.shape.block }
        ensures column { self.new ≡ record self.old { state = self.new.state } }
        ensures puts { MatchResult result (λ _. self.new.state ≡ with_base base.now self.old.state)
            (λ _. FailsWrite 0 (length base.now) self.old.state self.new.state) }
        ensures holds { (was : List ℕ) (records : List Logged) → Means self.old.state was records → (cuts : List ℕ)
            → OnOk result (Holds self.new.state cuts (slice_index base.now) no_pieces) }
        ensures full { IsFull self.new.state.device }
        ensures cause { HasCause self.old.state.device.faults self.new.state.device.faults result }
        ensures sure { self.old.state.device.never_fails ≡ true → IsOk result }
    {
        let answer = match &mut self.kind {
            Kind::Data(_, _) => unreachable!(),
            Kind::Parity(column) => column.put(base),
        };
        self.full();
        answer
    }
}
