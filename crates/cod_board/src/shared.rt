//! A board that threads share.
ghost use Rattle.std.specs.Prelude.{◌≡◌, ℕ, ◌<◌, ◌≤◌, ◌∷◌, [], length, IfOk, IfSome, IsSome};
ghost use Rattle.cod_seats.specs.Least.{IsLeast};
ghost use Rattle.cod_board.specs.Words.{first, after_down, after_kill, left_of, right_of, both_of, known, in_word};
ghost use Rattle.cod_board.specs.Seats.{Seated, IsClosed};

use crate::rule::{Both, Kills, Looks, OnceKilled, OneNumber};
use crate::view::View;
use crate::{Kill, PlainBoard};
use atomic_table::{Seat, Table};
use cod_types::{NodeId, OutOfMemory};
use std::alloc::Global;
use std::marker::Model;

/// A seat of a shared board, seen as of which board it is and what it knows.
#[derive(Drop)]
pub struct BoardSeat {
    seat: Seat<(), View>,
}

impl Model for BoardSeat {
    ghost use Rattle.std.specs.Prelude.{◌≡◌, ◌<◌, length, []};
    ghost use Rattle.cod_board.specs.Seats.{Seated};

    ghost Value = { Seated };

    ghost view = { λ s. record { of = s.seat.table_id; knows = s.seat.me.0 } };

    ghost invariant = { λ s. (s.seat.me.1 ≡ []) × (0 < length s.seat.me.0.numbers) };
}

/// A board that threads share, with a word for each node. Seen as which it is, with as many words as nodes.
#[derive(Drop)]
pub struct SharedBoard {
    table: Table<(), View, usize, OnceKilled, Global>,
    kept: PlainBoard,
}

impl Model for SharedBoard {
    ghost use Rattle.std.specs.Prelude.{◌≡◌, ◌<◌, ◌≤◌, length};
    ghost use Rattle.atomic_table.specs.Seated.{TableId};

    ghost Value = { TableId };

    ghost view = { λ b. b.table.shared.table_id };

    ghost invariant = { λ b. (b.table.shared.key ≡ b.table.shared.table_id.words) × (b.table.shared.table_id.slots ≡ 0) × (0 < b.table.shared.table_id.words)
        × (length b.kept ≡ b.table.shared.table_id.words) };
}

impl SharedBoard {
    /// A board of so many nodes, 1 to 64, all of them up, and its first seat, which has all callers' numbers.
    pub fn new(alloc: Global, nodes: u8) -> Result<(SharedBoard, BoardSeat), OutOfMemory>
        requires some { 1 ≤ nodes }
        requires most { nodes ≤ 64 }
        ensures nodes { IfOk result (λ r. r.0.words ≡ nodes) }
        ensures seat { IfOk result (λ r. r.1 ≡ record { of = r.0; knows = first }) }
    {
        let kept = PlainBoard::new(alloc, nodes)?;
        let words = vec![in alloc; 0u64; nodes as usize]?;
        match Table::of_words(alloc, words.as_slice(), &words.len()) {
            Ok((table, seat)) => Ok((SharedBoard { table, kept }, BoardSeat { seat })),
            Err(_) => Err(OutOfMemory),
        }
    }

    /// The kill of a node, if there is one. A kill that the seat has seen stays; a node that is found up counts as looked at.
    pub fn down(&self, seat: &mut BoardSeat, node: NodeId) -> Option<Kill>
        requires board { seat.old.of ≡ self.now }
        requires node { node.0 < self.now.words }
        ensures seat { seat.new ≡ record { of = seat.old.of; knows = after_down seat.old.knows node.0 result } }
        ensures line { IfSome result (λ k. 1 ≤ k.line) }
        ensures known { IsSome (known node.0 seat.old.knows.seen) → result ≡ known node.0 seat.old.knows.seen }
    {
        let words = &self.table.shared;
        let found = words.load::<Looks>(&mut seat.seat, node.0 as usize);
        kill_in(found)
    }

    /// Kills a node, unless it was killed: then it keeps the kill that it had, which is answered.
    pub fn kill(&self, seat: &mut BoardSeat, node: NodeId, kill: Kill) -> Option<Kill>
        requires board { seat.old.of ≡ self.now }
        requires node { node.0 < self.now.words }
        requires line { 1 ≤ kill.line }
        ensures seat { seat.new ≡ record { of = seat.old.of; knows = after_kill seat.old.knows node.0 kill result } }
        ensures line { IfSome result (λ k. 1 ≤ k.line) }
        ensures known { IsSome (known node.0 seat.old.knows.seen) → result ≡ known node.0 seat.old.knows.seen }
    {
        let word = kill.line as u64 * 4_294_967_296 + kill.clock as u64;
        let words = &self.table.shared;
        let at = node.0 as usize;
        let before = words.compare_exchange::<Kills>(&mut seat.seat, at, 0, word);
        kill_in(before)
    }

    /// A new seat, which has the least number of the old one's and knows the same kills. It has made none and looked at none.
    pub fn split(&self, seat: &mut BoardSeat) -> BoardSeat
        requires board { seat.old.of ≡ self.now }
        requires two { 2 ≤ length seat.old.knows.numbers }
        ensures left { seat.new ≡ record { of = seat.old.of; knows = left_of seat.old.knows } }
        ensures right { result ≡ record { of = seat.old.of; knows = right_of seat.old.knows } }
        ensures least { (n : ℕ) × (result.knows.numbers ≡ n ∷ []) × IsLeast n seat.old.knows.numbers }
    {
        BoardSeat {
            seat: self.table.shared.split_seat::<OneNumber>(&mut seat.seat),
        }
    }

    /// Unites two seats. The looks of the other one end.
    pub fn join(&self, seat: &mut BoardSeat, other: BoardSeat)
        requires board { (seat.old.of ≡ self.now) × (other.of ≡ self.now) }
        ensures { seat.new ≡ record { of = seat.old.of; knows = both_of seat.old.knows other.knows } }
    {
        self.table
            .shared
            .join_seat::<Both>(&mut seat.seat, other.seat);
    }

    /// The board at the end, without memory. The seat has all numbers, so that it is the only one left.
    pub fn close(self, seat: BoardSeat) -> PlainBoard
        requires board { seat.of ≡ self }
        requires all { length seat.knows.numbers ≡ 65536 }
        ensures { IsClosed self.words seat.knows result }
    {
        let SharedBoard { table, kept } = self;
        let nodes = table.word_count();
        let closed = table.close_with(seat.seat);
        let mut kills = kept.into_kills();
        for node in 0..nodes {
            kills[node] = kill_in(closed.word(node));
        }
        closed.free();
        PlainBoard::of_kills(kills)
    }
}

/// The kill in a word, if there is one.
fn kill_in(word: u64) -> Option<Kill>
    ensures { result ≡ in_word word }
{
    if word == 0 {
        return None;
    }
    Some(Kill {
        line: (word / 4_294_967_296) as u32,
        clock: (word % 4_294_967_296) as u32,
    })
}
