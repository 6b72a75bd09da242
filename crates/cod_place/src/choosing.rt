//! The choice of a spare node.
ghost use Rattle.std.specs.Prelude.{◌≡◌, ◌<◌, ◌≤◌, ℕ, List, ◌∷◌, Some, None, length, All, IfSome, IfNone, IfErr, IfOk, IsTrue, MatchOption, MatchResult};
ghost use Rattle.std.specs.Prelude.{option_map, slice_index, slice_set};
ghost use Rattle.cod_board.specs.Kills.{Keeps, kill_of};
ghost use Rattle.cod_place.specs.Rooms.{lowered};
ghost use Rattle.cod_place.specs.Spares.{IsSpare, Refuses, candidates, fault_of, is_in, nodes_of};
ghost use Rattle.cod_place.specs.Room.{Room};
ghost use Rattle.cod_types.specs.declared.reasons.Reason.{Reason};

use crate::{Broken, Pools, Room, Short};
use cod_board::Board;
use cod_types::{NodeId, Reason, Reasons, Why};

/// Takes `need` bytes on the spare node of a column: the first node, in cyclic order after `after`, that isn't in the set
/// `taken` (bit x for node x), isn't broken, is up on the board, and has the bytes. Where there is none, `reasons` has
/// each node outside `taken`, in that order, with its reason: the count for which it is broken, else the line that killed
/// it, else its free bytes. Where there is one, it has those before it.
pub fn spare<B: Board, P: Pools>(
    after: NodeId,
    taken: u64,
    nodes: u8,
    need: u32,
    broken: &Broken,
    board: &mut B,
    pools: &mut P,
    reasons: &mut Reasons,
) -> Option<Room>
    requires after { after.0 < nodes }
    requires most { nodes ≤ 64 }
    requires board { length (B.kills board.old) ≡ nodes }
    requires board_ready { B.ready board.old }
    requires pools { P.nodes pools.old ≡ nodes }
    requires pools_ready { P.ready pools.old }
    ensures found { IfSome result (λ r. (r.bytes ≡ need) × IsSpare broken.now (B.kills board.new) (candidates after.0 taken nodes) reasons.new r.node.0
        × All (λ (passed : Reason). Refuses need broken.now (B.kills board.new)
        (λ x n. (p : _) × P.same pools.old p × P.Seen pools.old p x n) passed.node.0 passed.why) reasons.new) }
    ensures none { IfNone result ((nodes_of reasons.new ≡ candidates after.0 taken nodes)
        × All (λ (passed : Reason). Refuses need broken.now (B.kills board.new) (P.Seen pools.old pools.new) passed.node.0 passed.why) reasons.new) }
    ensures told { (f : List ℕ) → P.free pools.old ≡ Some f → IfSome result (λ r. need ≤ slice_index f r.node.0)
        × All (λ (passed : Reason). Refuses need broken.now (B.kills board.new) (λ x n. n ≡ slice_index f x) passed.node.0 passed.why) reasons.new }
    ensures keeps { Keeps (B.kills board.old) (B.kills board.new) }
    ensures alone { IsTrue B.is_alone → B.kills board.new ≡ B.kills board.old }
    ensures board { (length (B.kills board.new) ≡ nodes) × B.ready board.new × B.same board.old board.new }
    ensures free { MatchOption result (P.free pools.new ≡ P.free pools.old) (λ r. P.free pools.new ≡ option_map (lowered r.node.0 need) (P.free pools.old)) }
    ensures came { (rooms : List Room) → P.Came pools.old rooms → MatchOption result (P.Came pools.new rooms) (λ r. P.Came pools.new (r ∷ rooms)) }
    ensures pools { (P.nodes pools.new ≡ nodes) × (P.capacity pools.new ≡ P.capacity pools.old) × P.ready pools.new × P.same pools.old pools.new }
{
    reasons.clear();
    for step in 0..nodes {
        let node = NodeId(((after.0 as u16 + 1 + step as u16) % nodes as u16) as u8);
        if is_in(taken, node) {
            continue;
        }
        match room_on(node, need, broken, board, pools) {
            Ok(room) => return Some(room),
            Err(why) => reasons.push(Reason { node, why }),
        }
    }
    None
}

/// Whether a node is in a set, which has bit x for node x.
fn is_in(set: u64, node: NodeId) -> bool
    requires { node.0 < 64 }
    ensures { result ≡ is_in set node.0 }
{
    set >> node.0 & 1 == 1
}

/// Takes the bytes on this node, or says why they can't be had.
fn room_on<B: Board, P: Pools>(
    node: NodeId,
    need: u32,
    broken: &Broken,
    board: &mut B,
    pools: &mut P,
) -> Result<Room, Why>
    requires most { node.0 < 64 }
    requires board { node.0 < length (B.kills board.old) }
    requires board_ready { B.ready board.old }
    requires pools { node.0 < P.nodes pools.old }
    requires pools_ready { P.ready pools.old }
    ensures room { IfOk result (λ r. (r.node ≡ node) × (r.bytes ≡ need) × (fault_of broken.now node.0 ≡ None) × (kill_of (B.kills board.new) node.0 ≡ None)) }
    ensures reason { IfErr result (λ why. Refuses need broken.now (B.kills board.new) (P.Seen pools.old pools.new) node.0 why) }
    ensures told { (f : List ℕ) → P.free pools.old ≡ Some f → MatchResult result (λ _. need ≤ slice_index f node.0)
        (λ why. Refuses need broken.now (B.kills board.new) (λ x n. n ≡ slice_index f x) node.0 why) }
    ensures learned { B.kills board.new ≡ slice_set (B.kills board.old) node.0 (kill_of (B.kills board.new) node.0) }
    ensures keeps { Keeps (B.kills board.old) (B.kills board.new) }
    ensures alone { IsTrue B.is_alone → B.kills board.new ≡ B.kills board.old }
    ensures board { B.ready board.new × B.same board.old board.new }
    ensures free { MatchResult result (λ r. P.free pools.new ≡ option_map (lowered node.0 need) (P.free pools.old)) (λ _. P.free pools.new ≡ P.free pools.old) }
    ensures came { (rooms : List Room) → P.Came pools.old rooms → MatchResult result (λ r. P.Came pools.new (r ∷ rooms)) (λ _. P.Came pools.new rooms) }
    ensures seen { (since : _) (x n : ℕ) → P.Seen since pools.old x n → IfErr result (λ _. P.Seen since pools.new x n) }
    ensures pools { (P.nodes pools.new ≡ P.nodes pools.old) × (P.capacity pools.new ≡ P.capacity pools.old) × P.ready pools.new × P.same pools.old pools.new }
{
    if let Some(count) = broken.get(node) {
        return Err(Why::Fault(count));
    }
    if let Some(kill) = board.down(node) {
        return Err(Why::Down(kill.line));
    }
    match pools.take(node, need) {
        Ok(room) => Ok(room),
        Err(Short { free }) => Err(Why::Free(free)),
    }
}
