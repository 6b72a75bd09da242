ghost use Rattle.std.specs.Prelude.{◌≡◌, ◌<◌, ◌≤◌, length};

mod seats;

use super::*;
use cod_board::{Board, BoardPass, Kill, PlainBoard, SharedBoard};
use cod_types::{NodeId, Reason, Reasons, Why};
use std::alloc::Global;
use std::process::Abort;
use std::test::Fail;

/// Each line is a search: nodes, capacity, after, taken, need; a node with bytes taken there; two nodes with the lines that
/// killed them; a node with its count of faults (255 is no node); what is found, or 255; and the reasons, each with its node,
/// 0 (fault), 1 (down) or 2 (free), and its number.
const SEARCHES: &str = "\
8 1000 0 15 41 255 0 255 0 255 0 255 0 4
5 1000 0 15 41 255 0 4 11 0 12 255 0 255 4 1 11
4 1000 0 15 41 255 0 255 0 255 0 255 0 255
5 83 2 15 41 4 82 255 0 255 0 255 0 255 4 2 1
8 40 0 31 41 255 0 255 0 255 0 255 0 255 5 2 40 6 2 40 7 2 40
8 41 0 15 41 255 0 255 0 255 0 255 0 4
8 1000 1 30 41 255 0 0 12 1 13 255 0 5
8 1000 6 192 41 255 0 255 0 255 0 255 0 0
8 1000 5 33 41 1 960 7 9 6 8 6 3 2 6 0 3 7 1 9 1 2 40
2 1000 0 0 41 255 0 1 7 255 0 255 0 0 1 1 7
64 1000 62 9223372036854775808 41 255 0 255 0 255 0 255 0 0
64 7 63 18446744073709551614 41 255 0 255 0 255 0 255 0 255 0 2 7";

/// Kills the node, if there is one of this number.
fn kill(board: &mut PlainBoard, nodes: u8, node: u8, line: u32)
    requires { length board.old ≡ nodes }
    ensures { length board.new ≡ nodes }
{
    if node < nodes && 1 <= line {
        board.kill(NodeId(node), Kill { line, clock: 0 });
    }
}

/// What is searched for, and where.
#[derive(Drop)]
struct Search {
    nodes: u8,
    after: NodeId,
    taken: u64,
    need: u32,
    broken: Broken,
    board: PlainBoard,
    pools: PlainPools,
    ghost after_is_one: { after.0 < nodes },
    ghost most: { nodes ≤ 64 },
    ghost kills: { length board ≡ nodes },
    ghost pool_nodes: { length pools.free ≡ nodes },
}

/// The first numbers of a line, as that table has them.
fn search_of(rt: &impl Abort, alloc: Global, line: &[u64; 40]) -> Result<Search, Fail> {
    let nodes = u8::try_from(line[0])?;
    let after = u8::try_from(line[2])?;
    assert!(rt; nodes <= 64 && after < nodes);
    let mut pools = PlainPools::new(alloc, nodes, u32::try_from(line[1])?)?;
    let used = u8::try_from(line[5])?;
    if used < nodes {
        let _taken = pools.take(NodeId(used), u32::try_from(line[6])?);
    }
    let mut board = PlainBoard::new(alloc, nodes)?;
    kill(
        &mut board,
        nodes,
        u8::try_from(line[7])?,
        u32::try_from(line[8])?,
    );
    kill(
        &mut board,
        nodes,
        u8::try_from(line[9])?,
        u32::try_from(line[10])?,
    );
    let mut broken = Broken::new();
    if line[11] < 64 && 1 <= line[12] {
        broken.set(NodeId(line[11] as u8), line[12]);
    }
    Ok(Search {
        nodes,
        after: NodeId(after),
        taken: line[3],
        need: u32::try_from(line[4])?,
        broken,
        board,
        pools,
    })
}

/// A reason's node, kind and number, as the table has them.
fn words_of(reason: &Reason) -> [u64; 3] {
    let (kind, number) = match reason.why {
        Why::Fault(count) => (0, count),
        Why::Down(line) => (1, line as u64),
        Why::Free(bytes) => (2, bytes as u64),
    };
    [reason.node.0 as u64, kind, number]
}

#[test]
fn first_that_fits(rt: HostRuntime) -> Result<(), Fail> {
    let mut reasons = Reasons::new(rt.alloc())?;
    for line in SEARCHES.lines() {
        let mut numbers = [255u64; 40];
        for (place, word) in numbers.iter_mut().zip(line.split_whitespace()) {
            *place = word.parse::<u64>()?;
        }
        let mut search = search_of(&rt, rt.alloc(), &numbers)?;
        let at = &mut search;
        let room = spare(
            at.after,
            at.taken,
            at.nodes,
            at.need,
            &at.broken,
            &mut at.board,
            &mut at.pools,
            &mut reasons,
        );
        let found = match room {
            Some(room) => room.node().0 as u64,
            None => 255,
        };
        assert!(rt; found == numbers[13]);
        let mut want = numbers[14..].chunks(3);
        for reason in reasons.as_slice() {
            assert!(rt; want.next() == Some(words_of(reason).as_slice()));
        }
    }
    laws::rooms_add_up();
    laws::closed_rooms_add_up();
    laws::spare_is_first();
    Ok(())
}
