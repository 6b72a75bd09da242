//! What all pools keep to.
ghost use Rattle.std.specs.Prelude.{◌≡◌, ◌-◌, ◌<◌, ◌≤◌, ℕ, List, [], ◌∷◌, ◌++◌, Option, Some, length, IfOk, IfErr, MatchResult, IsPermutation, option_map};
ghost use Rattle.std.specs.Prelude.{slice_index};
ghost use Rattle.std.specs.Option.{is_some};
ghost use Rattle.cod_place.specs.Rooms.{lowered, raised};
ghost use Rattle.cod_place.specs.Room.{Room};

use crate::Room;
use cod_types::NodeId;

/// A node has fewer free bytes than were asked for.
#[derive(Clone, Copy, Debug, PartialEq, Eq)]
pub struct Short {
    /// The free bytes that were seen.
    pub free: u32,
}

/// The free bytes of each node, from which rooms are taken. Pools may be seen only through a borrow, and others may take
/// and give meanwhile: then the free bytes aren't told, and what there is to say is what was seen of them.
pub trait Pools {
    /// How many nodes there are.
    ghost nodes: { Self → ℕ };

    /// The free bytes of each node before any room was taken.
    ghost capacity: { Self → ℕ };

    /// The free bytes of each node, where they are told.
    ghost free: { Self → Option (List ℕ) };

    /// All these rooms came from these pools.
    ghost Came: { Self → List Room → Type 0 };

    /// Since a state, and up to another, so many free bytes were seen on a node.
    ghost Seen: { (since now : Self) → (node bytes : ℕ) → Type 0 };

    /// Calls may be made on them.
    ghost ready: { Self → Type 0 };

    /// The second is the first after some calls: what it borrows is the same.
    ghost same: { Self → Self → Type 0 };

    /// Takes so many bytes on a node. Short comes exactly where fewer free bytes are seen there.
    fn take(&mut self, node: NodeId, bytes: u32) -> Result<Room, Short>
        requires node { node.0 < nodes self.old }
        requires ready { ready self.old }
        ensures room { IfOk result (λ r. (r.node ≡ node) × (r.bytes ≡ bytes)) }
        ensures short { IfErr result (λ s. (s.free < bytes) × Seen self.old self.new node.0 s.free) }
        ensures told { (f : List ℕ) → free self.old ≡ Some f → MatchResult result (λ _. bytes ≤ slice_index f node.0) (λ s. s.free ≡ slice_index f node.0) }
        ensures free { MatchResult result (λ r. free self.new ≡ option_map (lowered node.0 bytes) (free self.old)) (λ _. free self.new ≡ free self.old) }
        ensures came { (rooms : List Room) → Came self.old rooms → MatchResult result (λ r. Came self.new (r ∷ rooms)) (λ _. Came self.new rooms) }
        ensures seen { (since : Self) (x n : ℕ) → Seen since self.old x n → IfErr result (λ _. Seen since self.new x n) }
        ensures sizes { (nodes self.new ≡ nodes self.old) × (capacity self.new ≡ capacity self.old) }
        ensures ready { ready self.new }
        ensures same { same self.old self.new };

    /// Gives so many bytes of a room back.
    fn trim(&mut self, room: &mut Room, bytes: u32)
        requires within { bytes ≤ room.old.bytes }
        requires came { Came self.old (room.old ∷ []) }
        requires ready { ready self.old }
        ensures room { room.new ≡ record room.old { bytes = room.old.bytes - bytes } }
        ensures free { free self.new ≡ option_map (raised room.old.node.0 bytes) (free self.old) }
        ensures came { (rooms : List Room) → Came self.old (room.old ∷ rooms) → Came self.new (room.new ∷ rooms) }
        ensures sizes { (nodes self.new ≡ nodes self.old) × (capacity self.new ≡ capacity self.old) }
        ensures ready { ready self.new }
        ensures same { same self.old self.new };

    /// Gives all bytes of a room back. The room that is left has none.
    fn give(&mut self, room: Room) -> Room
        requires came { Came self.old (room ∷ []) }
        requires ready { ready self.old }
        ensures free { free self.new ≡ option_map (raised room.node.0 room.bytes) (free self.old) }
        ensures came { (rooms : List Room) → Came self.old (room ∷ rooms) → Came self.new rooms }
        ensures sizes { (nodes self.new ≡ nodes self.old) × (capacity self.new ≡ capacity self.old) }
        ensures empty { result ≡ record room { bytes = 0 } }
        ensures ready { ready self.new }
        ensures same { same self.old self.new };

    /// No room at all came from any pools.
    ghost came_none: { (p : Self) → Came p [] };

    /// Whether rooms came doesn't depend on their order.
    ghost came_order: { (p : Self) (rooms others : List Room) → IsPermutation rooms others → Came p rooms → Came p others };

    /// Where rooms came, each front of them did.
    ghost came_front: { (p : Self) (rooms others : List Room) → Came p (rooms ++ others) → Came p rooms };

    /// All rooms that came have one owner.
    ghost came_owner: { (p : Self) (room other : Room) → Came p (room ∷ other ∷ []) → room.of ≡ other.of };

    /// What was seen since a state was seen since each earlier one.
    ghost seen_earlier: { (earlier since now : Self) (node bytes : ℕ) → same earlier since → Seen since now node bytes → Seen earlier now node bytes };

    /// Whether free bytes are told is a fact of the type.
    ghost telling: { (p q : Self) → is_some (free p) ≡ is_some (free q) };

    /// Pools that borrow the same have as many nodes, each with as many free bytes before any room was taken.
    ghost same_sizes: { (p q : Self) → same p q → (nodes q ≡ nodes p) × (capacity q ≡ capacity p) };

    ghost same_self: { (p : Self) → same p p };

    ghost same_later: { (p q r : Self) → same p q → same q r → same p r };
}
