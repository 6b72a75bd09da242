//! Which columns a piece is made from.
ghost use Rattle.std.specs.Prelude.{◌≡◌, ◌^◌, ◌<◌, ◌≤◌, ℕ, None, All, false, count_ones, length, slice_index_or};
ghost use Rattle.cod_code.specs.Columns.{has_column};
ghost use Rattle.cod_seg.specs.Laws.{up_below};
ghost use Rattle.cod_place.specs.Spares.{is_in};
ghost use Rattle.cod_seg.specs.Seg.{Col, col_at};
ghost use Rattle.cod_repair.specs.Columns.{first_down, is_source, is_taken, live_node};

use crate::Column;
use cod_code::lowest;
use cod_region::Region;
use cod_types::NodeId;

/// The k lowest live columns; bit i is for column i.
pub(crate) fn lowest_live<R: Region>(columns: &[Column<R>], k: u8) -> u16
    requires most { length columns.now ≤ 16 }
    requires live { k ≤ up_below (length columns.now) columns.now }
    ensures columns { (j : ℕ) → has_column result j ≡ is_source k columns.now j }
    ensures below { result < 2 ^ length columns.now }
    ensures count { count_ones result ≡ k }
{
    let marks = live_marks(columns);
    lowest(&marks[..columns.len()], k)
}

/// Which columns are live.
fn live_marks<R: Region>(columns: &[Column<R>]) -> [bool; 16]
    requires { length columns.now ≤ 16 }
    ensures wide { length result ≡ 16 }
    ensures each { (i : ℕ) → slice_index_or result i false ≡ (col_at columns.now i).is_up }
{
    let mut marks = [false; 16];
    for i in 0..columns.len() {
        marks[i] = columns[i].is_up();
    }
    marks
}

/// The node of each live column.
pub(crate) fn live_nodes<R: Region>(columns: &[Column<R>]) -> [Option<NodeId>; 16]
    requires { length columns.now ≤ 16 }
    ensures { (i : ℕ) → slice_index_or result i None ≡ live_node (col_at columns.now i) }
{
    let mut nodes = [None; 16];
    for i in 0..columns.len() {
        if columns[i].is_up() {
            nodes[i] = Some(columns[i].node());
        }
    }
    nodes
}

/// How many columns are live.
pub(crate) fn count_live<R: Region>(columns: &[Column<R>]) -> u8
    requires { length columns.now ≤ 16 }
    ensures { result ≡ up_below (length columns.now) columns.now }
{
    let mut count = 0;
    for i in 0..columns.len() {
        if columns[i].is_up() {
            count += 1;
        }
    }
    count
}

/// The lowest column that is down.
pub(crate) fn lowest_down<R: Region>(columns: &[Column<R>]) -> Option<u8>
    requires { length columns.now ≤ 16 }
    ensures { result ≡ first_down columns.now }
{
    for i in 0..columns.len() {
        if !columns[i].is_up() {
            return Some(i as u8);
        }
    }
    None
}

/// The nodes of all columns; bit x is for node x.
pub(crate) fn taken<R: Region>(columns: &[Column<R>]) -> u64
    requires { All (λ (c : Col). c.room.node.0 < 64) columns.now }
    ensures { (node : ℕ) → is_in result node ≡ is_taken columns.now node }
{
    let mut nodes = 0;
    for i in 0..columns.len() {
        nodes |= 1 << columns[i].node().0;
    }
    nodes
}

/// Whether the column's bit is set.
pub(crate) fn has(sources: u16, column: usize) -> bool
    requires { column < 16 }
    ensures { result ≡ has_column sources column }
{
    sources >> column & 1 == 1
}
