//! The calls of columns' regions.
ghost use Rattle.std.specs.Prelude.{◌≡◌, ◌+◌, ◌<◌, ◌≤◌, min, ℕ, List, Option, Some, None, OnOk, IfOk, IsOk, MatchResult, length, slice_index, true, option_map};
ghost use Rattle.std.specs.List.{flat_map, filter};
ghost use Rattle.std.specs.Option.{is_some};
ghost use Rattle.cod_types.specs.Faults.{bump};
ghost use Rattle.cod_types.specs.Limits.{floor, segment_length};
ghost use Rattle.cod_types.specs.Overwritten.{overwritten};
ghost use Rattle.cod_region.specs.Device.{Torn};
ghost use Rattle.cod_code.specs.Codewords.{AreBytes};
ghost use Rattle.cod_code.specs.Columns.{gamma};
ghost use Rattle.cod_code.specs.Segments.{column};
ghost use Rattle.cod_predict.specs.Average.{target_size};
ghost use Rattle.cod_parity.specs.Log.{AreBelowEnd, IsDue, is_past, Logged, logged, logged_length, scaled, text};
ghost use Rattle.cod_parity.specs.State.{averaged, IsKept, Means, with_base};
ghost use Rattle.cod_parity.specs.Calls.{Appends, AppendsMerged, FailsAppendMerged, FailsMerge, FailsShrink, FailsWrite, MergesIfDue, Same, Shrinks};
ghost use Rattle.cod_parity.specs.Held.{Holds, no_pieces, Piece, pieces_length, with_piece};
ghost use Rattle.cod_seg.specs.Seg.{col_at, with_col};
ghost use Rattle.cod_repair.specs.Columns.{faults_at, HasValue, IsFull, IsMadeFor, IsReadable, IsTold, state_at, was_read, with_state};
ghost use Rattle.cod_repair.specs.Pieces.{kept_byte};

use crate::bench::encode;
use crate::{Bench, Column, ColumnFailed, Columns};
use cod_claims::Claims;
use cod_parity::record_len;
use cod_predict::{Policy, Rule};
use cod_record::Head;
use cod_region::Region;
use cod_types::{Cuts, Geometry};

impl<R: Region> Columns<R> {
    /// Brings a column's bytes at the cut, from place `off` on, by one read. A delta that was applied in place is taken off. A read
    /// that fails may leave any bytes in `into`.
    pub fn read(
        &mut self,
        col: u8,
        off: u32,
        into: &mut [u8],
        claims: &Claims,
        cuts: &Cuts,
        bench: &mut Bench,
    ) -> Result<(), ColumnFailed>
        requires col { col < length self.old }
        requires made { IsMadeFor bench.old col (col_at self.old col) }
        requires among { col < bench.old.n }
        requires inside { off + length into.old ≤ bench.old.block }
        ensures same { self.new ≡ with_col self.old col (was_read (faults_at self.new col) (col_at self.old col)) }
        ensures value { (v : ℕ → ℕ) → HasValue (col_at self.old col) cuts.now (kept_byte claims.now col) v
            → OnOk result ((x : ℕ) → x < length into.old → slice_index into.new x ≡ v (off + x)) }
        ensures told { IsTold col self.old self.new result }
        ensures sure { (state_at self.old col).device.never_fails ≡ true → IsOk result }
        ensures bench { bench.new ≡ bench.old }
    {
        self.read_by(col, off, into, claims, cuts, &mut bench.scratch)
    }

    /// The same with scratch bytes.
    fn read_by(
        &mut self,
        col: u8,
        off: u32,
        into: &mut [u8],
        claims: &Claims,
        cuts: &Cuts,
        scratch: &mut [u8],
    ) -> Result<(), ColumnFailed>
        requires col { col < length self.old }
        requires range { IsReadable off (length into.old) (length scratch.old) (col_at self.old col) }
        ensures same { self.new ≡ with_col self.old col (was_read (faults_at self.new col) (col_at self.old col)) }
        ensures value { (v : ℕ → ℕ) → HasValue (col_at self.old col) cuts.now (kept_byte claims.now col) v
            → OnOk result ((x : ℕ) → x < length into.old → slice_index into.new x ≡ v (off + x)) }
        ensures told { IsTold col self.old self.new result }
        ensures sure { (state_at self.old col).device.never_fails ≡ true → IsOk result }
    {
        let column = &mut self.slots[col as usize];
        if column
            .read_at_cut(claims.kept(col), off, into, cuts, scratch)
            .is_err()
        {
            return Err(failed(column, col));
        }
        Ok(())
    }

    /// Replaces bytes of a data column in place, from place `off` on, by one write. A write that fails may leave any bytes in their
    /// place.
    pub fn apply(&mut self, col: u8, off: u32, bytes: &[u8]) -> Result<(), ColumnFailed>
        requires col { col < length self.old }
        requires data { (state_at self.old col).size ≡ 0 }
        requires inside { off + length bytes.now ≤ (state_at self.old col).device.size }
        ensures same { self.new ≡ with_state self.old col (record (state_at self.old col) {
          device = record (state_at self.old col).device {
            content = (state_at self.new col).device.content;
            writes = bump (state_at self.old col).device.writes;
            faults = faults_at self.new col;
          };
        }) }
        ensures content { MatchResult result (λ _. (state_at self.new col).device.content
            ≡ option_map (overwritten off bytes.now) (state_at self.old col).device.content)
            (λ _. Torn off (length bytes.now) (state_at self.old col).device.content (state_at self.new col).device.content) }
        ensures full { IsFull (state_at self.new col).device }
        ensures told { IsTold col self.old self.new result }
        ensures sure { (state_at self.old col).device.never_fails ≡ true → IsOk result }
    {
        let column = &mut self.slots[col as usize];
        if column.apply(off, bytes).is_err() {
            return Err(failed(column, col));
        }
        Ok(())
    }

    /// Appends to a parity column's log the record of an update, whose bytes are the column's coefficient times the delta, and answers
    /// how many bytes its text has. Where there is no room, a merge comes first.
    pub fn append(
        &mut self,
        col: u8,
        head: Head,
        version: u8,
        delta: &[u8],
        cuts: &Cuts,
        bench: &mut Bench,
    ) -> Result<u32, ColumnFailed>
        requires col { col < length self.old }
        requires made { IsMadeFor bench.old col (col_at self.old col) }
        requires among { (bench.old.k ≤ col) × (col < bench.old.n) }
        requires first { 1 ≤ version }
        requires last { version ≤ 2 }
        requires second { version ≡ 2 → (bench.old.version ≡ 2) × (head.len ≤ bench.old.update) }
        requires len { head.len ≡ length delta.now }
        requires inside { head.off + head.len ≤ bench.old.block }
        requires block { head.block < bench.old.k }
        requires fits { logged_length version head (scaled (gamma bench.old.k col head.block) delta.now) ≤ (state_at self.old col).size }
        requires room { (state_at self.old col).size < (state_at self.old col).used + logged_length version head
            (scaled (gamma bench.old.k col head.block) delta.now)
            → (base : List ℕ) (records : List Logged) → Means (state_at self.old col) base records
            → length (flat_map text (filter (is_past cuts.now) records)) + logged_length version head (scaled (gamma bench.old.k col head.block) delta.now)
            ≤ (state_at self.old col).size }
        ensures one { self.new ≡ with_state self.old col (state_at self.new col) }
        ensures length { IfOk result (λ len. len ≡ logged_length version head (scaled (gamma bench.old.k col head.block) delta.now)) }
        ensures adds { (state_at self.old col).used + logged_length version head (scaled (gamma bench.old.k col head.block) delta.now)
            ≤ (state_at self.old col).size
            → MatchResult result
            (λ _. Appends (logged version head (scaled (gamma bench.old.k col head.block) delta.now)) (state_at self.old col) (state_at self.new col))
            (λ _. FailsWrite ((state_at self.old col).shape.block + (state_at self.old col).used)
            (logged_length version head (scaled (gamma bench.old.k col head.block) delta.now)) (state_at self.old col) (state_at self.new col)) }
        ensures merges { (state_at self.old col).size < (state_at self.old col).used + logged_length version head
            (scaled (gamma bench.old.k col head.block) delta.now)
            → MatchResult result
            (λ _. AppendsMerged cuts.now (logged version head (scaled (gamma bench.old.k col head.block) delta.now)) (state_at self.old col)
            (state_at self.new col))
            (λ _. FailsAppendMerged cuts.now (logged_length version head (scaled (gamma bench.old.k col head.block) delta.now)) (state_at self.old col)
            (state_at self.new col)) }
        ensures holds { (v : ℕ → ℕ) (p : ℕ → Option Piece) → Holds (state_at self.old col) cuts.now v p → p head.block ≡ None
            → head.number ≡ slice_index cuts.now head.block + 1
            → OnOk result (Holds (state_at self.new col) cuts.now v (with_piece p head.block (record {
              off = head.off;
              bytes = scaled (gamma bench.old.k col head.block) delta.now;
              length = logged_length version head (scaled (gamma bench.old.k col head.block) delta.now);
            }))) }
        ensures same { Same (state_at self.old col) (state_at self.new col) }
        ensures kept { IsKept (state_at self.new col) }
        ensures full { IsFull (state_at self.new col).device }
        ensures told { IsTold col self.old self.new result }
        ensures sure { (state_at self.old col).device.never_fails ≡ true → IsOk result }
        ensures bench { bench.new ≡ bench.old }
    {
        let coef = bench.coefficient(col, head.block as u8);
        self.append_by(col, head, version, coef, delta, cuts, &mut bench.scratch)
    }

    /// The same with scratch bytes.
    fn append_by(
        &mut self,
        col: u8,
        head: Head,
        version: u8,
        coef: u8,
        delta: &[u8],
        cuts: &Cuts,
        scratch: &mut [u8],
    ) -> Result<u32, ColumnFailed>
        requires col { col < length self.old }
        requires parity { 0 < (state_at self.old col).size }
        requires scratch { (state_at self.old col).shape.block + (state_at self.old col).shape.reserve ≤ length scratch.old }
        requires first { 1 ≤ version }
        requires last { version ≤ 2 }
        requires second { version ≡ 2 → ((state_at self.old col).shape.version ≡ 2) × (head.len ≤ (state_at self.old col).shape.update) }
        requires len { head.len ≡ length delta.now }
        requires inside { head.off + head.len ≤ (state_at self.old col).shape.block }
        requires block { head.block < (state_at self.old col).shape.k }
        requires fits { logged_length version head (scaled coef delta.now) ≤ (state_at self.old col).size }
        requires room { (state_at self.old col).size < (state_at self.old col).used + logged_length version head (scaled coef delta.now)
            → (base : List ℕ) (records : List Logged) → Means (state_at self.old col) base records
            → length (flat_map text (filter (is_past cuts.now) records)) + logged_length version head (scaled coef delta.now)
            ≤ (state_at self.old col).size }
        ensures one { self.new ≡ with_state self.old col (state_at self.new col) }
        ensures length { IfOk result (λ len. len ≡ logged_length version head (scaled coef delta.now)) }
        ensures adds { (state_at self.old col).used + logged_length version head (scaled coef delta.now) ≤ (state_at self.old col).size
            → MatchResult result
            (λ _. Appends (logged version head (scaled coef delta.now)) (state_at self.old col) (state_at self.new col))
            (λ _. FailsWrite ((state_at self.old col).shape.block + (state_at self.old col).used)
            (logged_length version head (scaled coef delta.now)) (state_at self.old col) (state_at self.new col)) }
        ensures merges { (state_at self.old col).size < (state_at self.old col).used + logged_length version head (scaled coef delta.now)
            → MatchResult result
            (λ _. AppendsMerged cuts.now (logged version head (scaled coef delta.now)) (state_at self.old col) (state_at self.new col))
            (λ _. FailsAppendMerged cuts.now (logged_length version head (scaled coef delta.now)) (state_at self.old col)
            (state_at self.new col)) }
        ensures holds { (v : ℕ → ℕ) (p : ℕ → Option Piece) → Holds (state_at self.old col) cuts.now v p → p head.block ≡ None
            → head.number ≡ slice_index cuts.now head.block + 1
            → OnOk result (Holds (state_at self.new col) cuts.now v (with_piece p head.block (record {
              off = head.off;
              bytes = scaled coef delta.now;
              length = logged_length version head (scaled coef delta.now);
            }))) }
        ensures same { Same (state_at self.old col) (state_at self.new col) }
        ensures kept { IsKept (state_at self.new col) }
        ensures full { IsFull (state_at self.new col).device }
        ensures told { IsTold col self.old self.new result }
        ensures sure { (state_at self.old col).device.never_fails ≡ true → IsOk result }
    {
        let column = &mut self.slots[col as usize];
        if column
            .append(head, version, coef, delta, cuts, scratch)
            .is_err()
        {
            return Err(failed(column, col));
        }
        Ok(record_len(version, coef, delta))
    }

    /// Works the records of a parity column's log that are at or below the cut into its block, by one read and one write. Where there
    /// is none, it does nothing.
    pub fn merge(&mut self, col: u8, cuts: &Cuts, bench: &mut Bench) -> Result<(), ColumnFailed>
        requires col { col < length self.old }
        requires made { IsMadeFor bench.old col (col_at self.old col) }
        requires parity { bench.old.k ≤ col }
        ensures one { self.new ≡ with_state self.old col (state_at self.new col) }
        ensures merges { MatchResult result (λ _. MergesIfDue cuts.now (state_at self.old col) (state_at self.new col))
            (λ _. IsDue (state_at self.old col).lowest cuts.now × FailsMerge (state_at self.old col) (state_at self.new col)) }
        ensures holds { (v : ℕ → ℕ) (p : ℕ → Option Piece) → Holds (state_at self.old col) cuts.now v p
            → OnOk result (Holds (state_at self.new col) cuts.now v p) }
        ensures used { (v : ℕ → ℕ) (p : ℕ → Option Piece) → Holds (state_at self.old col) cuts.now v p
            → OnOk result ((state_at self.new col).used ≡ pieces_length p (state_at self.old col).shape.k) }
        ensures none_due { AreBelowEnd cuts.now → OnOk result (IsDue (state_at self.new col).lowest cuts.now → ⊥) }
        ensures same { Same (state_at self.old col) (state_at self.new col) }
        ensures kept { IsKept (state_at self.new col) }
        ensures full { IsFull (state_at self.new col).device }
        ensures told { IsTold col self.old self.new result }
        ensures sure { (state_at self.old col).device.never_fails ≡ true → IsOk result }
        ensures bench { bench.new ≡ bench.old }
    {
        self.merge_by(col, cuts, &mut bench.scratch)
    }

    /// The same with scratch bytes.
    fn merge_by(&mut self, col: u8, cuts: &Cuts, scratch: &mut [u8]) -> Result<(), ColumnFailed>
        requires col { col < length self.old }
        requires parity { 0 < (state_at self.old col).size }
        requires scratch { (state_at self.old col).shape.block + (state_at self.old col).shape.reserve ≤ length scratch.old }
        ensures one { self.new ≡ with_state self.old col (state_at self.new col) }
        ensures merges { MatchResult result (λ _. MergesIfDue cuts.now (state_at self.old col) (state_at self.new col))
            (λ _. IsDue (state_at self.old col).lowest cuts.now × FailsMerge (state_at self.old col) (state_at self.new col)) }
        ensures holds { (v : ℕ → ℕ) (p : ℕ → Option Piece) → Holds (state_at self.old col) cuts.now v p
            → OnOk result (Holds (state_at self.new col) cuts.now v p) }
        ensures used { (v : ℕ → ℕ) (p : ℕ → Option Piece) → Holds (state_at self.old col) cuts.now v p
            → OnOk result ((state_at self.new col).used ≡ pieces_length p (state_at self.old col).shape.k) }
        ensures none_due { AreBelowEnd cuts.now → OnOk result (IsDue (state_at self.new col).lowest cuts.now → ⊥) }
        ensures same { Same (state_at self.old col) (state_at self.new col) }
        ensures kept { IsKept (state_at self.new col) }
        ensures full { IsFull (state_at self.new col).device }
        ensures told { IsTold col self.old self.new result }
        ensures sure { (state_at self.old col).device.never_fails ≡ true → IsOk result }
    {
        let column = &mut self.slots[col as usize];
        if column.merge(cuts, scratch).is_err() {
            return Err(failed(column, col));
        }
        Ok(())
    }

    /// A tick of a parity column: its average changes, its log is merged, and its reserved space is cut to the size that follows. It
    /// answers the bytes that were cut off; the column's room stays. The average has changed also where a call then fails.
    pub fn tick<P: Rule>(
        &mut self,
        col: u8,
        policy: &Policy<P>,
        cuts: &Cuts,
        bench: &mut Bench,
    ) -> Result<u32, ColumnFailed>
        requires col { col < length self.old }
        requires made { IsMadeFor bench.old col (col_at self.old col) }
        requires parity { bench.old.k ≤ col }
        requires room { (base : List ℕ) (records : List Logged) → Means (state_at self.old col) base records
            → length (flat_map text (filter (is_past cuts.now) records)) ≤ floor (state_at self.old col).shape }
        ensures one { self.new ≡ with_state self.old col (state_at self.new col) }
        ensures average { (state_at self.new col).average
            ≡ P.answer policy.now.rule (min (state_at self.old col).appended (state_at self.old col).size) (state_at self.old col).size
            (state_at self.old col).average }
        ensures shrinks { MatchResult result
            (λ cut. (cut + (state_at self.new col).size ≡ (state_at self.old col).size)
            × Shrinks cuts.now (target_size (state_at self.old col).shape (state_at self.old col).size (state_at self.new col).average)
            (averaged (state_at self.new col).average (state_at self.old col)) (state_at self.new col))
            (λ _. FailsShrink cuts.now (target_size (state_at self.old col).shape (state_at self.old col).size (state_at self.new col).average)
            (averaged (state_at self.new col).average (state_at self.old col)) (state_at self.new col)) }
        ensures holds { (v : ℕ → ℕ) (p : ℕ → Option Piece) → Holds (state_at self.old col) cuts.now v p
            → OnOk result (Holds (state_at self.new col) cuts.now v p) }
        ensures kept { IsKept (state_at self.new col) }
        ensures shorter { (state_at self.new col).device.size ≤ (state_at self.old col).device.size }
        ensures same { ((state_at self.new col).shape ≡ (state_at self.old col).shape)
            × ((state_at self.new col).device.never_fails ≡ (state_at self.old col).device.never_fails)
            × (is_some (state_at self.new col).device.content ≡ is_some (state_at self.old col).device.content) }
        ensures full { IsFull (state_at self.new col).device }
        ensures told { IsTold col self.old self.new result }
        ensures sure { (state_at self.old col).device.never_fails ≡ true → IsOk result }
        ensures bench { bench.new ≡ bench.old }
    {
        self.tick_by(col, policy, cuts, &mut bench.scratch)
    }

    /// The same with scratch bytes.
    fn tick_by<P: Rule>(
        &mut self,
        col: u8,
        policy: &Policy<P>,
        cuts: &Cuts,
        scratch: &mut [u8],
    ) -> Result<u32, ColumnFailed>
        requires col { col < length self.old }
        requires parity { 0 < (state_at self.old col).size }
        requires scratch { (state_at self.old col).shape.block + (state_at self.old col).shape.reserve ≤ length scratch.old }
        requires room { (base : List ℕ) (records : List Logged) → Means (state_at self.old col) base records
            → length (flat_map text (filter (is_past cuts.now) records)) ≤ floor (state_at self.old col).shape }
        ensures one { self.new ≡ with_state self.old col (state_at self.new col) }
        ensures average { (state_at self.new col).average
            ≡ P.answer policy.now.rule (min (state_at self.old col).appended (state_at self.old col).size) (state_at self.old col).size
            (state_at self.old col).average }
        ensures shrinks { MatchResult result
            (λ cut. (cut + (state_at self.new col).size ≡ (state_at self.old col).size)
            × Shrinks cuts.now (target_size (state_at self.old col).shape (state_at self.old col).size (state_at self.new col).average)
            (averaged (state_at self.new col).average (state_at self.old col)) (state_at self.new col))
            (λ _. FailsShrink cuts.now (target_size (state_at self.old col).shape (state_at self.old col).size (state_at self.new col).average)
            (averaged (state_at self.new col).average (state_at self.old col)) (state_at self.new col)) }
        ensures holds { (v : ℕ → ℕ) (p : ℕ → Option Piece) → Holds (state_at self.old col) cuts.now v p
            → OnOk result (Holds (state_at self.new col) cuts.now v p) }
        ensures kept { IsKept (state_at self.new col) }
        ensures shorter { (state_at self.new col).device.size ≤ (state_at self.old col).device.size }
        ensures same { ((state_at self.new col).shape ≡ (state_at self.old col).shape)
            × ((state_at self.new col).device.never_fails ≡ (state_at self.old col).device.never_fails)
            × (is_some (state_at self.new col).device.content ≡ is_some (state_at self.old col).device.content) }
        ensures full { IsFull (state_at self.new col).device }
        ensures told { IsTold col self.old self.new result }
        ensures sure { (state_at self.old col).device.never_fails ≡ true → IsOk result }
    {
        let column = &mut self.slots[col as usize];
        let Ok(cut) = column.tick(policy, cuts, scratch) else {
            return Err(failed(column, col));
        };
        Ok(cut)
    }

    /// Replaces a column's bytes by those that the code gives it for these bytes of the whole segment, by one write. A parity
    /// column has no record from then on. A write that fails may leave any bytes in the block's place.
    pub fn put(&mut self, col: u8, segment: &[u8], bench: &mut Bench) -> Result<(), ColumnFailed>
        requires col { col < length self.old }
        requires made { IsMadeFor bench.old col (col_at self.old col) }
        requires among { col < bench.old.n }
        requires segment { length segment.now ≡ segment_length bench.old }
        requires bytes { AreBytes segment.now }
        ensures one { self.new ≡ with_state self.old col (state_at self.new col) }
        ensures puts { MatchResult result
            (λ _. state_at self.new col ≡ with_base (column bench.old.k bench.old.block col segment.now) (state_at self.old col))
            (λ _. FailsWrite 0 bench.old.block (state_at self.old col) (state_at self.new col)) }
        ensures holds { bench.old.k ≤ col → (base : List ℕ) (records : List Logged) → Means (state_at self.old col) base records → (cuts : List ℕ)
            → OnOk result (Holds (state_at self.new col) cuts (slice_index (column bench.old.k bench.old.block col segment.now)) no_pieces) }
        ensures full { IsFull (state_at self.new col).device }
        ensures told { IsTold col self.old self.new result }
        ensures sure { (state_at self.old col).device.never_fails ≡ true → IsOk result }
        ensures bench { bench.new ≡ bench.old }
    {
        if col < bench.shape.k() {
            return self.put_block(col, block_of(&bench.shape, col, segment));
        }
        encode(
            &bench.shape,
            bench.rows.code(),
            col,
            segment,
            &mut bench.block,
        );
        self.put_base(col, &bench.block)
    }

    /// Replaces the bytes of a data column.
    fn put_block(&mut self, col: u8, bytes: &[u8]) -> Result<(), ColumnFailed>
        requires col { col < length self.old }
        requires data { (state_at self.old col).size ≡ 0 }
        requires long { length bytes.now ≡ (state_at self.old col).device.size }
        ensures one { self.new ≡ with_state self.old col (state_at self.new col) }
        ensures puts { MatchResult result (λ _. state_at self.new col ≡ with_base bytes.now (state_at self.old col))
            (λ _. FailsWrite 0 (length bytes.now) (state_at self.old col) (state_at self.new col)) }
        ensures full { IsFull (state_at self.new col).device }
        ensures told { IsTold col self.old self.new result }
        ensures sure { (state_at self.old col).device.never_fails ≡ true → IsOk result }
    {
        let column = &mut self.slots[col as usize];
        if column.put_block(bytes).is_err() {
            return Err(failed(column, col));
        }
        Ok(())
    }

    /// Replaces the block of a parity column.
    fn put_base(&mut self, col: u8, base: &[u8]) -> Result<(), ColumnFailed>
        requires col { col < length self.old }
        requires parity { 0 < (state_at self.old col).size }
        requires long { length base.now ≡ (state_at self.old col).shape.block }
        ensures one { self.new ≡ with_state self.old col (state_at self.new col) }
        ensures puts { MatchResult result (λ _. state_at self.new col ≡ with_base base.now (state_at self.old col))
            (λ _. FailsWrite 0 (length base.now) (state_at self.old col) (state_at self.new col)) }
        ensures holds { (was : List ℕ) (records : List Logged) → Means (state_at self.old col) was records → (cuts : List ℕ)
            → OnOk result (Holds (state_at self.new col) cuts (slice_index base.now) no_pieces) }
        ensures full { IsFull (state_at self.new col).device }
        ensures told { IsTold col self.old self.new result }
        ensures sure { (state_at self.old col).device.never_fails ≡ true → IsOk result }
    {
        let column = &mut self.slots[col as usize];
        if column.put_base(base).is_err() {
            return Err(failed(column, col));
        }
        Ok(())
    }
}

/// A data block of a segment.
pub(crate) fn block_of<'a>(g: &Geometry, col: u8, segment: &'a [u8]) -> &'a [u8]
    requires few { g.now.k ≤ 16 }
    requires col { col < g.now.k }
    requires segment { length segment.now ≡ segment_length g.now }
    requires bytes { AreBytes segment.now }
    ensures bytes { result.now ≡ column g.now.k g.now.block col segment.now }
    ensures size { length result.now ≡ g.now.block }
{
    let block = g.block() as usize;
    let from = col as usize * block;
    &segment[from..from + block]
}

/// The failure of a column's region.
pub(crate) fn failed<R: Region>(column: &Column<R>, col: u8) -> ColumnFailed
    ensures { result ≡ record { col = col; count = column.now.state.device.faults } }
{
    ColumnFailed {
        col,
        count: column.region().faults(),
    }
}
