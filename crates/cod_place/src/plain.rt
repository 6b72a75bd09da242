//! Pools that nobody shares.
ghost use Rattle.std.specs.Prelude.{◌≡◌, ◌<◌, ◌≤◌, [], length, replicate, slice_index, IfOk};
ghost use Rattle.cod_place.specs.Rooms.{AddUp};

use crate::{Pools, Room, Short};
use cod_types::{NodeId, OutOfMemory};
use std::alloc::Global;
use std::marker::Model;

/// Pools that nobody shares, seen as their capacity and the free bytes of each node.
#[derive(Debug, Drop)]
pub struct PlainPools {
    pub(crate) capacity: u32,
    pub(crate) free: Vec<u32>,
}

impl Model for PlainPools {
    ghost use Rattle.std.specs.Prelude.{ℕ, ◌<◌, ◌≤◌, length, slice_index};
    ghost use Rattle.cod_place.specs.Rooms.{Store};

    ghost Value = { Store };

    ghost view = { λ p. record { capacity = p.capacity; free = p.free.items } };

    ghost invariant = { λ p. (1 ≤ length p.free.items) × (length p.free.items ≤ 64)
        × ((node : ℕ) → node < length p.free.items → slice_index p.free.items node ≤ p.capacity) };
}

impl PlainPools {
    /// Pools of so many nodes, 1 to 64, each with `capacity` free bytes.
    pub fn new(alloc: Global, nodes: u8, capacity: u32) -> Result<PlainPools, OutOfMemory>
        requires some { 1 ≤ nodes }
        requires most { nodes ≤ 64 }
        ensures value { IfOk result (λ p. p ≡ record { capacity = capacity; free = replicate nodes capacity }) }
        ensures sums { IfOk result (λ p. AddUp p []) }
    {
        Ok(PlainPools {
            capacity,
            free: vec![in alloc; capacity; nodes as usize]?,
        })
    }

    /// The free bytes of a node.
    pub fn free(&self, node: NodeId) -> u32
        requires { node.0 < length self.now.free }
        ensures { result ≡ slice_index self.now.free node.0 }
    {
        self.free[node.0 as usize]
    }
}

impl Pools for PlainPools {
    ghost use Rattle.std.specs.Prelude.{◌≡◌, Some, length, slice_index};
    ghost use Rattle.std.proofs.Common.{refl, ◌∙◌};
    ghost use Rattle.cod_place.specs.Rooms.{CameFrom};
    ghost use Rattle.cod_place.specs.Stores.{came_none_lem, came_order_lem, came_front_lem, came_owner_lem};

    ghost nodes = { λ p. length p.free };

    ghost capacity = { λ p. p.capacity };

    ghost free = { λ p. Some p.free };

    ghost Came = { CameFrom };

    ghost Seen = { λ _ p node bytes. slice_index p.free node ≡ bytes };

    ghost ready = { λ _. Unit {0} };

    ghost same = { λ p q. (length q.free ≡ length p.free) × (q.capacity ≡ p.capacity) };

    fn take(&mut self, node: NodeId, bytes: u32) -> Result<Room, Short> {
        let free = self.free[node.0 as usize];
        if free < bytes {
            return Err(Short { free });
        }
        self.free[node.0 as usize] = free - bytes;
        Ok(Room::plain(node, bytes))
    }

    fn trim(&mut self, room: &mut Room, bytes: u32) {
        room.bytes -= bytes;
        self.free[room.node.0 as usize] += bytes;
    }

    fn give(&mut self, mut room: Room) -> Room {
        self.free[room.node.0 as usize] += room.bytes;
        room.bytes = 0;
        room
    }

    ghost came_none = { came_none_lem };

    ghost came_order = { came_order_lem };

    ghost came_front = { came_front_lem };

    ghost came_owner = { came_owner_lem };

    ghost seen_earlier = { λ _ _ _ _ _ _ seen. seen };

    ghost telling = { λ _ _. refl };

    ghost same_sizes = { λ _ _ same. same };

    ghost same_self = { λ _. (refl, refl) };

    ghost same_later = { λ _ _ _ first then_. (then_.0 ∙ first.0, then_.1 ∙ first.1) };
}
