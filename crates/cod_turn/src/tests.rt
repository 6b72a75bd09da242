ghost use Rattle.std.specs.Prelude.{◌≡◌, ◌+◌, length};
ghost use Rattle.cod_turn.specs.Seats.{IsIdle};
ghost use Rattle.cod_turn.specs.Numbered.{Numbered};

use super::*;
use cod_chronicle::{Chronicle, Entry, Link};
use cod_types::{Call, Caller, Reply};
use crossbeam_queue::SegQueue;
use std::alloc::Global;
use std::sync::Wait;
use std::test::Fail;
use std::thread::{Threads, join};

/// Adds an entry in one hold.
fn add<R: Wait>(
    rt: &R,
    turn: &Turn<Chronicle>,
    seat: &mut TurnSeat<Chronicle>,
    link: Link,
    caller: u32,
    number: u32,
) -> bool
    requires turn { seat.old.of ≡ turn.now }
    requires idle { IsIdle seat.old }
    requires numbered { Numbered caller number seat.old.knows }
    ensures turn { seat.new.of ≡ seat.old.of }
    ensures idle { IsIdle seat.new }
    ensures numbered { Numbered caller (number + 1) seat.new.knows }
{
    let mut chronicle = turn.take(rt, seat);
    let room = chronicle.len() < 1 << 62;
    if room {
        let entry = Entry::Call {
            caller: Caller(caller),
            number,
            stamp: chronicle.clock().saturating_add(1),
            call: Call::Merge,
            reply: Reply::Done,
        };
        chronicle.push_link(link, entry);
    }
    turn.give(seat, chronicle);
    room
}

/// Adds an entry for each link, and notes each.
fn add_all<R: Wait>(
    rt: &R,
    turn: &Turn<Chronicle>,
    mut seat: TurnSeat<Chronicle>,
    mut links: Vec<Link>,
    caller: u32,
    notes: &SegQueue<(u32, u32)>,
) -> TurnSeat<Chronicle>
    requires turn { seat.of ≡ turn.now }
    requires idle { IsIdle seat }
    requires numbered { Numbered caller 0 seat.knows }
    ensures turn { result.of ≡ turn.now }
    ensures idle { IsIdle result }
    ensures one { length result.knows.own ≡ 1 }
{
    for number in 0..1000 {
        let Some(link) = links.pop() else { break };
        if add(rt, turn, &mut seat, link, caller, number) {
            let _noted = notes.push(rt, (caller, number));
        }
    }
    seat
}

/// Links for so many entries.
fn links(alloc: Global, count: u32) -> Result<Vec<Link>, Fail> {
    let mut all = Vec::new(alloc);
    for _ in 0..count {
        all.push(Link::new(alloc)?)?;
    }
    Ok(all)
}

/// Two threads add an entry for each link, each with a number of its own. Tells the length of the list that was counted too.
fn two<R: Threads + Wait + Sync>(
    rt: &R,
    alloc: Global,
    notes: &SegQueue<(u32, u32)>,
) -> Result<(Chronicle, u64), Fail> {
    let first = links(alloc, 1000)?;
    let second = links(alloc, 1000)?;
    let (turn, mut rest) = Turn::new(alloc, Chronicle::new(alloc))?;
    let one = turn.split(&mut rest);
    let other = turn.split(&mut rest);
    let shared = &turn;
    let (one, other) = join(
        rt,
        move || -> TurnSeat<Chronicle>
            requires { (one.of ≡ shared.now) × IsIdle one × Numbered 0 0 one.knows }
            ensures { (result.of ≡ shared.entry.now) × IsIdle result × (length result.knows.own ≡ 1) }
        { add_all(rt, shared, one, first, 0, notes) },
        move || -> TurnSeat<Chronicle>
            requires { (other.of ≡ shared.now) × IsIdle other × Numbered 1 0 other.knows }
            ensures { (result.of ≡ shared.entry.now) × IsIdle result × (length result.knows.own ≡ 1) }
        { add_all(rt, shared, other, second, 1, notes) },
    );
    turn.join(&mut rest, one);
    turn.join(&mut rest, other);
    let count = turn.count(&mut rest);
    Ok((turn.close(rest), count))
}

#[test]
fn two_threads(rt: HostRuntime) -> Result<(), Fail> {
    let notes = SegQueue::new(rt.alloc())?;
    let (chronicle, count) = two(&rt, rt.alloc(), &notes)?;
    assert!(rt; chronicle.len() == 2000 && count == 2000);
    let mut next = [0u32; 2];
    let mut clock = 0;
    for entry in chronicle.iter() {
        assert!(rt; entry.stamp() > clock);
        clock = entry.stamp();
        if let Entry::Call { caller, number, .. } = entry {
            let who = caller.0 as usize;
            assert!(rt; who < 2);
            assert!(rt; *number == next[who]);
            next[who] = next[who].wrapping_add(1);
        }
    }
    assert!(rt; next == [1000, 1000]);
    let mut noted = [0u32; 2];
    for _ in 0..2000 {
        let Some((caller, number)) = notes.pop(&rt) else {
            break;
        };
        let who = caller as usize;
        assert!(rt; who < 2);
        assert!(rt; number == noted[who]);
        noted[who] = noted[who].wrapping_add(1);
    }
    assert!(rt; noted == [1000, 1000]);
    assert!(rt; notes.pop(&rt).is_none());
    Ok(())
}
