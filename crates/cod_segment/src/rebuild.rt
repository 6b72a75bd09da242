//! A rebuild in progress, with its target.

ghost use Rattle.std.specs.Prelude.{◌≡◌, ◌+◌, ◌<◌, ◌≤◌, ◌++◌, [], IsSome, List, None, Some, option_map, slice_set};
ghost use Rattle.cod_place.specs.Room.{Room};
ghost use Rattle.cod_place.specs.Spares.{fault_of};
ghost use Rattle.cod_seg.specs.Seg.{Target as Aimed};
ghost use Rattle.cod_segment.specs.Events.{Balances, broken_with, goal_rooms};
ghost use Rattle.cod_step.specs.Scenes.{job_in};

use crate::asking::Asker;
use cod_chronicle::Link;
use cod_place::{Broken, Pools};
use cod_region::Region;
use cod_repair::Target;
use cod_step::Job;
use cod_types::NodeId;
use std::marker::Model;

/// A rebuild in progress: whose call, which column, the nodes that broke, the places of its two marks, and its target.
#[derive(Drop)]
pub struct Rebuild<R: Region> {
    pub asker: Asker,
    pub col: u8,
    pub broken: Broken,
    pub up: Link,
    pub mark: Link,
    pub target: Option<Target<R>>,
}

impl<R: Region> Model for Rebuild<R> {
    ghost use Rattle.cod_seg.specs.Seg.{Rebuilding};

    ghost Value = { Rebuilding };

    ghost view = { λ r. record { caller = r.asker.caller.0; number = r.asker.number; col = r.col; broken = r.broken; target = r.target } };
}

impl<R: Region> Rebuild<R> {
    /// The rebuild as a next step sees it.
    pub fn job(&self) -> Job
        ensures { result ≡ job_in self.now }
    {
        let done = match &self.target {
            Some(target) => Some(target.done()),
            None => None,
        };
        Job {
            caller: self.asker.caller,
            number: self.asker.number,
            done,
        }
    }

    /// The node of its target, if it has one.
    pub fn target_node(&self) -> Option<NodeId>
        ensures { result ≡ option_map (λ (t : Aimed). t.room.node) self.now.target }
    {
        match &self.target {
            Some(target) => Some(target.node()),
            None => None,
        }
    }

    /// How many bytes of the target are there.
    pub fn done(&self) -> u32
        requires { IsSome self.now.target }
        ensures { option_map (λ (t : Aimed). t.filled) self.now.target ≡ Some result }
    {
        match &self.target {
            Some(target) => target.done(),
            None => unreachable!(),
        }
    }

    /// Its target is let go, and the room given back.
    pub fn drop_target<P: Pools>(&mut self, pools: &mut P)
        requires came { P.Came pools.old (goal_rooms self.old.target) }
        requires ready { P.ready pools.old }
        ensures becomes { self.new ≡ record self.old { target = None } }
        ensures came { (rest : List Room) → P.Came pools.old (goal_rooms self.old.target ++ rest) → P.Came pools.new rest }
        ensures balance { Balances (P.free pools.old) (P.free pools.new) (goal_rooms self.old.target) [] }
        ensures sizes { (P.nodes pools.new ≡ P.nodes pools.old) × (P.capacity pools.new ≡ P.capacity pools.old) }
        ensures ready { P.ready pools.new }
        ensures same { P.same pools.old pools.new }
    {
        if let Some(target) = self.target.take() {
            let (_, room) = target.into_parts();
            pools.give(room);
        }
    }

    /// The target's region failed: its node is broken from now on, and it is let go.
    pub fn break_target<P: Pools>(&mut self, pools: &mut P)
        requires node { (t : Aimed) → self.old.target ≡ Some t → (t.room.node.0 < 64) × (1 ≤ t.device.faults) }
        requires came { P.Came pools.old (goal_rooms self.old.target) }
        requires ready { P.ready pools.old }
        ensures becomes { self.new ≡ record self.old { broken = broken_with self.old.target self.old.broken; target = None } }
        ensures broke { (t : Aimed) → self.old.target ≡ Some t → fault_of self.new.broken t.room.node.0 ≡ Some t.device.faults }
        ensures came { (rest : List Room) → P.Came pools.old (goal_rooms self.old.target ++ rest) → P.Came pools.new rest }
        ensures balance { Balances (P.free pools.old) (P.free pools.new) (goal_rooms self.old.target) [] }
        ensures sizes { (P.nodes pools.new ≡ P.nodes pools.old) × (P.capacity pools.new ≡ P.capacity pools.old) }
        ensures ready { P.ready pools.new }
        ensures same { P.same pools.old pools.new }
    {
        if let Some(target) = &self.target {
            self.broken.set(target.node(), target.faults());
        }
        self.drop_target(pools);
    }
}
