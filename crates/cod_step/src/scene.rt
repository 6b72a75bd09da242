//! What a next step is chosen by, beside the call.
ghost use Rattle.std.specs.Prelude.{◌≡◌, ◌<◌, ◌≤◌, not, if◌then◌else◌};
ghost use Rattle.std.specs.Prelude.{ℕ};
ghost use Rattle.cod_chronicle.specs.Said.{is_over};
ghost use Rattle.cod_seg.specs.Next.{live_on};
ghost use Rattle.cod_seg.specs.Seg.{Seg};
ghost use Rattle.cod_seg.specs.Sound.{Sound};
ghost use Rattle.cod_step.specs.Scenes.{AreLive};
ghost use Rattle.cod_step.specs.Live.{column_on, count_down, is_live, is_lost, is_node, node_at};

use cod_claims::Claims;
use cod_types::{Caller, Geometry, NodeId};

/// A rebuild in progress: whose call it is, and how many bytes of its target are there, if it has one.
#[derive(Clone, Copy, Debug, PartialEq, Eq)]
pub struct Job {
    pub caller: Caller,
    pub number: u32,
    pub done: Option<u32>,
}

/// A segment as a next step sees it: the node of each live column, the claims, and the rebuild in progress.
#[derive(Drop)]
pub struct Scene<'a> {
    pub shape: Geometry,
    /// None for a column that is down, and for those that there aren't.
    pub live: [Option<NodeId>; 16],
    pub claims: &'a Claims,
    pub job: Option<Job>,
}

impl<'a> Scene<'a> {
    /// Whether a column is live.
    pub(crate) fn is_live(&self, col: u8) -> bool
        requires { col < 16 }
        ensures { result ≡ is_live self.now.live col }
    {
        self.live[col as usize].is_some()
    }
}

/// 1 where the column is down, else 0.
fn down_at(live: &[Option<NodeId>; 16], i: u8) -> u8
    requires { i < 16 }
    ensures { result ≡ (if not (is_live live.now i) then 1 else 0) }
{
    if live[i as usize].is_some() { 0 } else { 1 }
}

/// How many of the first n columns are down.
pub(crate) fn count_down(live: &[Option<NodeId>; 16], n: u8) -> u8
    requires { n ≤ 16 }
    ensures { result ≡ count_down live.now n }
{
    let mut count = 0;
    for i in 0..n {
        count += down_at(live, i);
    }
    count
}

/// Whether more columns are down than the parity columns can stand for.
pub(crate) fn too_many_down(g: &Geometry, live: &[Option<NodeId>; 16]) -> bool
    ensures { result ≡ is_lost g.now live.now }
{
    g.n() - g.k() < count_down(live, g.n())
}

/// Whether more columns of a segment are down than the parity columns can stand for, where these are its live ones.
pub fn is_lost(g: &Geometry, live: &[Option<NodeId>; 16]) -> bool
    ensures { (s : Seg) → Sound s → g.now ≡ s.site.shape → AreLive live.now s.cols → result ≡ is_over s.site s.log }
{
    too_many_down(g, live)
}

/// Whether a column is on the node.
fn is_on(live: &[Option<NodeId>; 16], i: u8, node: NodeId) -> bool
    requires { i < 16 }
    ensures { result ≡ is_node node.0 (node_at live.now i) }
{
    match live[i as usize] {
        Some(on) => on.0 == node.0,
        None => false,
    }
}

/// The lowest of the first n columns that is live and on the node, if one is.
pub(crate) fn first_on(live: &[Option<NodeId>; 16], n: u8, node: NodeId) -> Option<u8>
    requires { n ≤ 16 }
    ensures { result ≡ column_on n live.now node.0 }
{
    for i in 0..n {
        if is_on(live, i, node) {
            return Some(i);
        }
    }
    None
}

/// The live column of a segment on a node, if there is one, where these are its live columns.
pub fn column_on(g: &Geometry, live: &[Option<NodeId>; 16], node: NodeId) -> Option<u8>
    ensures { (s : Seg) → Sound s → g.now ≡ s.site.shape → AreLive live.now s.cols → result ≡ live_on s.site s.log node.0 }
{
    let _columns = g.k(); // the limits of a geometry are told here
    first_on(live, g.n(), node)
}
