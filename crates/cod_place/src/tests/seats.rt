//! Seats of shared boards and pools: the same answers as the plain ones, and rooms over threads.
ghost use Rattle.std.specs.Prelude.{◌≡◌, ◌<◌, ◌≤◌, ◌∷◌, [], List, Some, length, All, IfOk, IfSome, IfNone};
ghost use Rattle.cod_board.specs.Seats.{Asked, kills_in};
ghost use Rattle.cod_place.specs.Free.{After, AreOf, HasSeen};
ghost use Rattle.cod_place.specs.Room.{Room};
ghost use Rattle.cod_place.specs.Spares.{Refuses, candidates, nodes_of};
ghost use Rattle.cod_types.specs.declared.reasons.Reason.{Reason};

use super::words_of;
use crate::{Broken, PlainPools, PoolPass, PoolSeat, Pools, Room, SharedPools, spare};
use cod_board::{BoardPass, BoardSeat, Kill, SharedBoard};
use cod_types::{NodeId, Reasons};
use std::alloc::Global;
use std::sync::Wait;
use std::test::Fail;
use std::thread::{Threads, join};

/// The spare over a shared board and shared pools. Afterwards the seats are there again: they made no kill and have the
/// same bytes, and each count of free bytes among the reasons is a look of this call.
fn spare_by_seats<R: Wait>(
    rt: &R,
    after: NodeId,
    taken: u64,
    nodes: u8,
    need: u32,
    broken: &Broken,
    board: &SharedBoard,
    board_seat: &mut BoardSeat,
    pools: &SharedPools,
    pool_seat: &mut PoolSeat,
    reasons: &mut Reasons,
) -> Option<Room>
    requires after { after.0 < nodes }
    requires most { nodes ≤ 64 }
    requires board { (board.now.words ≡ nodes) × (board_seat.old.of ≡ board.now) }
    requires pools { (pools.now.of.words ≡ nodes) × (pool_seat.old.of ≡ pools.now.of) }
    ensures board { Asked board_seat.old board_seat.new }
    ensures pools { After pool_seat.old pool_seat.new }
    ensures found { IfSome result (λ r. r.bytes ≡ need) }
    ensures mine { IfSome result (λ r. r.of ≡ Some pools.now.of) }
    ensures none { IfNone result ((nodes_of reasons.new ≡ candidates after.0 taken nodes)
        × All (λ (passed : Reason). Refuses need broken.now (kills_in nodes board_seat.new.knows.seen)
        (HasSeen pool_seat.old pool_seat.new) passed.node.0 passed.why) reasons.new) }
{
    let mut board_pass = BoardPass::new(board, board_seat);
    let mut pool_pass = PoolPass::new(rt, pools, pool_seat);
    spare(
        after,
        taken,
        nodes,
        need,
        broken,
        &mut board_pass,
        &mut pool_pass,
        reasons,
    )
}

/// Takes bytes and gives them back in two parts. Tells whether they were there.
fn borrow<P: Pools>(pools: &mut P, node: NodeId, bytes: u32) -> bool
    requires node { node.0 < P.nodes pools.old }
    requires ready { P.ready pools.old }
    ensures nodes { P.nodes pools.new ≡ P.nodes pools.old }
    ensures same { P.same pools.old pools.new }
{
    match pools.take(node, bytes) {
        Ok(mut room) => {
            pools.trim(&mut room, bytes / 2);
            pools.give(room);
            true
        }
        Err(_) => false,
    }
}

/// A thread's seat, how often bytes were there, and the room that it keeps.
#[derive(Drop)]
struct Done {
    seat: PoolSeat,
    borrowed: u32,
    room: Option<Room>,
}

/// Borrows bytes of one node many times, and keeps five in the end.
fn work<R: Wait>(rt: &R, pools: &SharedPools, mut seat: PoolSeat) -> Done
    requires { (seat.of ≡ pools.now.of) × (pools.now.of.words ≡ 2) }
    ensures seat { result.seat.of ≡ pools.now.of }
    ensures room { IfSome result.room (λ r. AreOf pools.now.of (r ∷ [])) }
{
    let mut borrowed = 0u32;
    for _ in 0..200 {
        let mut pass = PoolPass::new(rt, pools, &mut seat);
        if borrow(&mut pass, NodeId(1), 40) {
            borrowed = borrowed.wrapping_add(1);
        }
    }
    let room = pools.take(rt, &mut seat, NodeId(1), 5).ok();
    Done {
        seat,
        borrowed,
        room,
    }
}

/// Two threads.
fn two<R: Threads + Wait + Sync>(
    rt: &R,
    pools: &SharedPools,
    one: PoolSeat,
    other: PoolSeat,
) -> (Done, Done)
    requires { (one.of ≡ pools.now.of) × (other.of ≡ pools.now.of) × (pools.now.of.words ≡ 2) }
    ensures seat { (result.0.seat.of ≡ pools.now.of) × (result.1.seat.of ≡ pools.now.of) }
    ensures room { IfSome result.0.room (λ r. AreOf pools.now.of (r ∷ [])) × IfSome result.1.room (λ r. AreOf pools.now.of (r ∷ [])) }
{
    join(
        rt,
        move || -> Done
            requires { (one.of ≡ pools.now.of) × (pools.now.of.words ≡ 2) }
            ensures seat { result.seat.of ≡ pools.entry.now.of }
            ensures room { IfSome result.room (λ r. AreOf pools.entry.now.of (r ∷ [])) }
        { work(rt, pools, one) },
        move || -> Done
            requires { (other.of ≡ pools.now.of) × (pools.now.of.words ≡ 2) }
            ensures seat { result.seat.of ≡ pools.entry.now.of }
            ensures room { IfSome result.room (λ r. AreOf pools.entry.now.of (r ∷ [])) }
        { work(rt, pools, other) },
    )
}

/// A thread's seat comes back, with the room that it kept.
fn back(pools: &SharedPools, rest: &mut PoolSeat, done: Done) -> u32
    requires seats { (rest.old.of ≡ pools.now.of) × (done.seat.of ≡ pools.now.of) }
    requires room { IfSome done.room (λ r. AreOf pools.now.of (r ∷ [])) }
    ensures { rest.new.of ≡ rest.old.of }
{
    let Done {
        seat,
        borrowed,
        room,
    } = done;
    pools.join(rest, seat);
    if let Some(mut room) = room {
        pools.release(rest, &mut room);
    }
    borrowed
}

/// Four threads borrow of one node. What is free at the end is what no room has, and how often bytes were there.
fn four<R: Threads + Wait + Sync>(rt: &R, alloc: Global) -> Result<(PlainPools, u32), Fail>
    ensures { IfOk result (λ r. length r.0.free ≡ 2) }
{
    let (pools, mut rest) = SharedPools::open(alloc, PlainPools::new(alloc, 2, 100)?)?;
    let a = pools.split(&mut rest);
    let b = pools.split(&mut rest);
    let c = pools.split(&mut rest);
    let d = pools.split(&mut rest);
    let shared = &pools;
    let ((a, b), (c, d)) = join(
        rt,
        move || -> (Done, Done)
            requires { (a.of ≡ shared.now.of) × (b.of ≡ shared.now.of) × (shared.now.of.words ≡ 2) }
            ensures seat { (result.0.seat.of ≡ shared.entry.now.of) × (result.1.seat.of ≡ shared.entry.now.of) }
            ensures room { IfSome result.0.room (λ r. AreOf shared.entry.now.of (r ∷ [])) × IfSome result.1.room (λ r. AreOf shared.entry.now.of (r ∷ [])) }
        { two(rt, shared, a, b) },
        move || -> (Done, Done)
            requires { (c.of ≡ shared.now.of) × (d.of ≡ shared.now.of) × (shared.now.of.words ≡ 2) }
            ensures seat { (result.0.seat.of ≡ shared.entry.now.of) × (result.1.seat.of ≡ shared.entry.now.of) }
            ensures room { IfSome result.0.room (λ r. AreOf shared.entry.now.of (r ∷ [])) × IfSome result.1.room (λ r. AreOf shared.entry.now.of (r ∷ [])) }
        { two(rt, shared, c, d) },
    );
    let mut borrowed = 0u32;
    borrowed = borrowed.wrapping_add(back(&pools, &mut rest, a));
    borrowed = borrowed.wrapping_add(back(&pools, &mut rest, b));
    borrowed = borrowed.wrapping_add(back(&pools, &mut rest, c));
    borrowed = borrowed.wrapping_add(back(&pools, &mut rest, d));
    Ok((pools.close(rest), borrowed))
}

/// Borrows all bytes of a node again and again. Tells how often they were there.
fn again<R: Wait>(rt: &R, pools: &SharedPools, mut seat: PoolSeat) -> u32
    requires { (seat.of ≡ pools.now.of) × (pools.now.of.words ≡ 2) }
{
    let mut borrowed = 0u32;
    for _ in 0..10 {
        let mut pass = PoolPass::new(rt, pools, &mut seat);
        if borrow(&mut pass, NodeId(1), 100) {
            borrowed = borrowed.wrapping_add(1);
        }
    }
    borrowed
}

#[test]
fn bytes_come_back(rt: HostRuntime) -> Result<(), Fail> {
    let (shared, seat) = SharedPools::open(rt.alloc(), PlainPools::new(rt.alloc(), 2, 100)?)?;
    assert!(rt; again(&rt, &shared, seat) == 10);
    let (mut pools, borrowed) = four(&rt, rt.alloc())?;
    // each thread's last five bytes are out, and nothing else
    assert!(rt; pools.free(NodeId(0)) == 100 && pools.free(NodeId(1)) == 80);
    assert!(rt; 0 < borrowed && borrowed <= 800);
    assert!(rt; borrow(&mut pools, NodeId(1), 80) && !borrow(&mut pools, NodeId(1), 81));
    assert!(rt; pools.free(NodeId(1)) == 80);
    Ok(())
}

#[test]
fn spare_of_shared(rt: HostRuntime) -> Result<(), Fail> {
    let (board, mut seat) = SharedBoard::new(rt.alloc(), 8)?;
    let (pools, mut pool_seat) = SharedPools::open(
        rt.alloc(),
        PlainPools::new(rt.alloc(), 8, 100)?,
    )?;
    let _before = board.kill(&mut seat, NodeId(5), Kill { line: 9, clock: 0 });
    let _kept = pools.take(&rt, &mut pool_seat, NodeId(6), 70);
    let mut reasons = Reasons::new(rt.alloc())?;
    let found = spare_by_seats(
        &rt,
        NodeId(3),
        0b1_0000,
        8,
        41,
        &Broken::new(),
        &board,
        &mut seat,
        &pools,
        &mut pool_seat,
        &mut reasons,
    );
    let node = match found {
        Some(room) => room.node().0,
        None => 255,
    };
    assert!(rt; node == 7);
    let reasons = reasons.as_slice();
    assert!(rt; reasons.len() == 2);
    assert!(rt; words_of(&reasons[0]) == [5, 1, 9]);
    assert!(rt; words_of(&reasons[1]) == [6, 2, 30]);
    Ok(())
}
