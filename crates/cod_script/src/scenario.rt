//! A scenario.
ghost use Rattle.std.specs.Prelude.{◌≡◌, ◌<◌, length, slice_index_or, []};
ghost use Rattle.cod_script.specs.Script.{nobody, lines_by, script_from, without_lines};
ghost use Rattle.cod_script.specs.Sound.{IsScenario};

use crate::body::Body;
use crate::line::Line;
use cod_types::{Geometry, SegId};
use std::marker::Model;

/// What a run is made of: the geometry of each segment, the nodes with the bytes that each has, the segments' names, and
/// the clients with their lines. Segments and clients are numbered from 0 on.
#[derive(Drop)]
pub struct Scenario {
    geometry: Geometry,
    nodes: u8,
    capacity: u32,
    body: Body,
}

impl Model for Scenario {
    ghost use Rattle.cod_script.specs.Script.{Script, script_from};
    ghost use Rattle.cod_script.specs.Sound.{IsScenario};

    ghost Value = { Script };

    ghost view = { λ s. script_from s.geometry s.nodes s.capacity s.body };

    ghost invariant = { λ s. IsScenario (script_from s.geometry s.nodes s.capacity s.body) };
}

impl Scenario {
    /// The scenario of these parts, where they make one, without memory.
    pub fn new(geometry: Geometry, nodes: u8, capacity: u32, body: Body) -> Scenario
        requires { IsScenario (script_from geometry nodes capacity body) }
        ensures { result ≡ script_from geometry nodes capacity body }
    {
        Scenario {
            geometry,
            nodes,
            capacity,
            body,
        }
    }

    /// What stands behind the header.
    pub fn body(&self) -> &Body
        ensures segments { result.now.segments ≡ self.now.segments }
        ensures clients { result.now.clients ≡ self.now.clients }
        ensures schedule { result.now.schedule ≡ self.now.schedule }
        ensures care { (result.now.workers ≡ self.now.workers) × (result.now.rounds ≡ self.now.rounds) }
    {
        &self.body
    }

    /// The geometry of each segment.
    pub fn geometry(&self) -> &Geometry
        ensures { result.now ≡ self.now.shape }
    {
        &self.geometry
    }

    /// The number of nodes, 1 to 64.
    pub fn nodes(&self) -> u8
        ensures { result ≡ self.now.nodes }
    {
        self.nodes
    }

    /// The bytes that each node has, at least one.
    pub fn capacity(&self) -> u32
        ensures { result ≡ self.now.capacity }
    {
        self.capacity
    }

    /// The number of segments, 1 to 1024.
    pub fn segments(&self) -> u32
        ensures count { result ≡ length self.now.segments }
        ensures sound { IsScenario self.now }
    {
        self.body.segments().len() as u32
    }

    /// The name of a segment.
    pub fn segment_name(&self, seg: SegId) -> &str
        requires { seg.0 < length self.now.segments }
        ensures { result.now ≡ slice_index_or self.now.segments seg.0 [] }
    {
        self.body.segments()[seg.0 as usize].as_str()
    }

    /// The number of clients, 1 to 64.
    pub fn clients(&self) -> u32
        ensures { result ≡ length self.now.clients }
    {
        self.body.clients().len() as u32
    }

    /// The name of a client.
    pub fn client_name(&self, client: u32) -> &str
        requires { client < length self.now.clients }
        ensures { result.now ≡ (slice_index_or self.now.clients client nobody).name }
    {
        self.body.clients()[client as usize].name()
    }

    /// The lines of a client.
    pub fn lines(&self, client: u32) -> &[Line]
        requires { client < length self.now.clients }
        ensures { result.now ≡ lines_by self.now client }
    {
        self.body.clients()[client as usize].lines()
    }

    /// Moves the lines of a client out, so that their calls needn't be copied. The scenario keeps all else.
    pub fn take_lines(&mut self, client: u32) -> Vec<Line>
        requires { client < length self.old.clients }
        ensures lines { result.items ≡ lines_by self.old client }
        ensures rest { self.new ≡ without_lines self.old client }
    {
        self.body.take_lines(client as usize)
    }

    /// The clients whose turns come first, in order.
    pub fn schedule(&self) -> &[u32]
        ensures { result.now ≡ self.now.schedule }
    {
        self.body.schedule()
    }

    /// The number of care workers, and of each one's rounds.
    pub fn care(&self) -> (u32, u32)
        ensures { (result.0 ≡ self.now.workers) × (result.1 ≡ self.now.rounds) }
    {
        self.body.care()
    }
}
