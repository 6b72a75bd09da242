//! The making of a segment.

ghost use Rattle.std.specs.Prelude.{◌≡◌, ◌≢◌, ◌<◌, ◌≤◌, ◌++◌, ◌∷◌, [], ℕ, List, IfOk, MatchResult, None, false, length, map, slice_index, true};
ghost use Rattle.cod_types.specs.Columns.{column_size, home_of};
ghost use Rattle.cod_chronicle.specs.Said.{Site};
ghost use Rattle.cod_place.specs.Room.{Room};
ghost use Rattle.cod_place.specs.Rooms.{AddUp, CameFrom};
ghost use Rattle.cod_seg.specs.Seg.{Col};
ghost use Rattle.cod_seg.specs.Sound.{is_frail};
ghost use Rattle.cod_seg.specs.Start.{IsNew, IsNewColumn};
ghost use Rattle.cod_segment.specs.Events.{rooms_of};
ghost use Rattle.cod_stripe.specs.Building.{AreNew, AreUntouched, frail_below, HomesHaveRoom, IsUntouched};

use cod_chronicle::{Chronicle, Link};
use cod_claims::Claims;
use cod_place::{PlainPools, Pools, home};
use cod_region::{Region, Shelf};
use cod_repair::{Column, Columns};
use cod_segment::Segment;
use cod_types::{Cuts, Geometry, NodeId, OutOfMemory, SegId};
use std::alloc::Global;

/// A segment whose columns are all live and at home, of zeros. Where memory is refused, all rooms have been given back.
pub(crate) fn build<R: Region, H: Shelf<Region = R>>(
    alloc: Global,
    g: Geometry,
    segment: SegId,
    nodes: u8,
    shelf: &H,
    pools: &mut PlainPools,
) -> Result<Segment<R>, OutOfMemory>
    requires some { g.n ≤ nodes }
    requires most { nodes ≤ 64 }
    requires pools { length pools.old.free ≡ nodes }
    requires room { HomesHaveRoom g segment.0 nodes 0 pools.old.free }
    ensures new { IfOk result (λ s. IsNew s) }
    ensures untouched { IfOk result (λ s. AreUntouched s.cols g.n) }
    ensures site { IfOk result (λ s. s.site ≡ record { shape = g; segment = segment.0; nodes = nodes; told = R.tells }) }
    ensures plain { IfOk result (λ s. s.pools ≡ None) }
    ensures frail { IfOk result (λ s. s.frail ≡ frail_below (H.regions shelf.now).never_fail nodes) }
    ensures rooms { (rest : List Room) → AddUp pools.old rest → MatchResult result (λ s. AddUp pools.new (rooms_of s ++ rest)) (λ _. AddUp pools.new rest) }
    ensures capacity { pools.new.capacity ≡ pools.old.capacity }
    ensures nodes { length pools.new.free ≡ nodes }
{
    let frail = frail_nodes(alloc, nodes, shelf)?;
    let mut columns = Columns::new(alloc)?;
    match fill(alloc, g, segment, nodes, shelf, pools, &mut columns) {
        Ok(()) => Ok(Segment {
            shape: g,
            segment,
            nodes,
            frail,
            chronicle: Chronicle::new(alloc),
            columns,
            cuts: Cuts::new(),
            claims: Claims::new(),
            version: 1,
            rebuild: None,
        }),
        Err(refused) => {
            give_back(&mut columns, pools);
            Err(refused)
        }
    }
}

/// The nodes on which a region of the shelf may fail.
fn frail_nodes<H: Shelf>(alloc: Global, nodes: u8, shelf: &H) -> Result<Vec<u8>, OutOfMemory>
    ensures { IfOk result (λ v. v.items ≡ frail_below (H.regions shelf.now).never_fail nodes) }
{
    let mut frail = Vec::new(alloc);
    for node in 0..nodes {
        if shelf.may_fail(NodeId(node)) {
            frail.push(node)?;
        }
    }
    Ok(frail)
}

/// All columns of a segment, one after another.
fn fill<R: Region, H: Shelf<Region = R>>(
    alloc: Global,
    g: Geometry,
    segment: SegId,
    nodes: u8,
    shelf: &H,
    pools: &mut PlainPools,
    columns: &mut Columns<R>,
) -> Result<(), OutOfMemory>
    requires some { g.n ≤ nodes }
    requires most { nodes ≤ 64 }
    requires empty { columns.old ≡ [] }
    requires pools { length pools.old.free ≡ nodes }
    requires room { HomesHaveRoom g segment.0 nodes 0 pools.old.free }
    ensures columns { IfOk result (λ _. AreNew (record { shape = g; segment = segment.0; nodes = nodes; told = R.tells })
        (frail_below (H.regions shelf.now).never_fail nodes) columns.new g.n) }
    ensures rooms { (rest : List Room) → AddUp pools.old rest → AddUp pools.new (map (λ (c : Col). c.room) columns.new ++ rest) }
    ensures came { CameFrom pools.new (map (λ (c : Col). c.room) columns.new) }
    ensures capacity { pools.new.capacity ≡ pools.old.capacity }
    ensures nodes { length pools.new.free ≡ nodes }
{
    for col in 0..g.n() {
        let node = home(segment, col, nodes);
        let column = column(alloc, g, col, node, shelf, pools)?;
        columns.push(column);
    }
    Ok(())
}

/// A column of zeros on its node, where there is room.
fn column<R: Region, H: Shelf<Region = R>>(
    alloc: Global,
    g: Geometry,
    col: u8,
    node: NodeId,
    shelf: &H,
    pools: &mut PlainPools,
) -> Result<Column<R>, OutOfMemory>
    requires col { col < g.n }
    requires node { node.0 < length pools.old.free }
    requires room { column_size g col ≤ slice_index pools.old.free node.0 }
    ensures new { (site : Site) (frail : List ℕ) → site.shape ≡ g → site.told ≡ R.tells → home_of site.segment col site.nodes ≡ node.0
        → (is_frail frail node.0 ≡ false → (H.regions shelf.now).never_fail node ≡ true) → IfOk result (λ c. IsNewColumn site frail None col c) }
    ensures untouched { IfOk result IsUntouched }
    ensures rooms { (rest : List Room) → AddUp pools.old rest → MatchResult result (λ c. AddUp pools.new (c.room ∷ rest)) (λ _. AddUp pools.new rest) }
    ensures came { (rooms : List Room) → CameFrom pools.old rooms → MatchResult result (λ c. CameFrom pools.new (c.room ∷ rooms)) (λ _. CameFrom pools.new rooms) }
    ensures free { (x : ℕ) → x ≢ node.0 → slice_index pools.new.free x ≡ slice_index pools.old.free x }
    ensures capacity { pools.new.capacity ≡ pools.old.capacity }
    ensures nodes { length pools.new.free ≡ length pools.old.free }
{
    let bytes = g.column_size(col);
    let mark = Link::new(alloc)?;
    let region = shelf.region(alloc, node, bytes)?;
    let Ok(room) = pools.take(node, bytes) else {
        unreachable!()
    };
    Ok(if col < g.k() {
        Column::of_data(room, g, region, mark)
    } else {
        Column::of_parity(room, g, region, g.reserve(), 10_000, mark)
    })
}

/// Gives the rooms of all columns back.
fn give_back<R: Region>(columns: &mut Columns<R>, pools: &mut PlainPools)
    requires came { CameFrom pools.old (map (λ (c : Col). c.room) columns.old) }
    ensures rooms { (rest : List Room) → AddUp pools.old (map (λ (c : Col). c.room) columns.old ++ rest) → AddUp pools.new rest }
    ensures capacity { pools.new.capacity ≡ pools.old.capacity }
    ensures nodes { length pools.new.free ≡ length pools.old.free }
{
    'columns: while let Some(column) = columns.pop() {
        pools.give(column.into_room());
    }
}
