//! One value that seats take in turns.
ghost use Rattle.std.specs.Prelude.{◌≡◌, ℕ, ◌<◌, ◌≤◌, List, [], ◌∷◌, length, Some, None, IfOk, IfSome, IfNone};
ghost use Rattle.cod_turn.specs.Turning.{Meets, FollowsByOne, AreWithin, callers, given, starting, held_by, left_of, right_of, both_of};
ghost use Rattle.cod_turn.specs.Seats.{Seated, IsIdle};
ghost use Rattle.cod_seats.specs.Totals.{times, once_below};
ghost use Rattle.cod_seats.specs.Least.{IsLeast};

use crate::rule::{Both, LetsGo, Looks, OneAtATime, OneNumber, Publishes, Takes};
use crate::view::View;
use atomic_table::{Seat, Table};
use cod_chronicle::Stands;
use cod_types::OutOfMemory;
use std::alloc::Global;
use std::marker::Model;
use std::snapshot::Snapshot;
use std::sync::Wait;
use std::thread;

/// The word that is 1 while a seat holds the value.
const TURN: usize = 0;

/// The word that has the length of the value's list.
const COUNT: usize = 1;

/// A seat of a turn, seen as of which turn it is and what it knows.
#[derive(Drop)]
pub struct TurnSeat<T: Stands> {
    seat: Seat<Option<T>, View<T>>,
}

impl<T: Stands> Model for TurnSeat<T> {
    ghost use Rattle.std.specs.Prelude.{◌≡◌, ◌<◌, length};
    ghost use Rattle.cod_turn.specs.Seats.{Seated, carried};

    ghost Value = { Seated T };

    ghost view = { λ s. record { of = s.seat.table_id; knows = s.seat.me.0 } };

    ghost invariant = { λ s. (s.seat.me.1 ≡ carried s.seat.me.0.hold) × (0 < length s.seat.me.0.own) };
}

/// One value that seats take in turns. Seen as which turn it is.
#[derive(Drop)]
pub struct Turn<T: Stands> {
    table: Table<Option<T>, View<T>, Snapshot<T>, OneAtATime<T>, Global>,
}

impl<T: Stands> Model for Turn<T> {
    ghost use Rattle.std.specs.Prelude.{◌≡◌};
    ghost use Rattle.atomic_table.specs.Seated.{TableId};

    ghost Value = { TableId };

    ghost view = { λ t. t.table.shared.table_id };

    ghost invariant = { λ t. (t.table.shared.table_id.words ≡ 2) × (t.table.shared.table_id.slots ≡ 1) };
}

impl<T: Stands> Turn<T> {
    /// A turn of this value, and its first seat, which has all callers' numbers and all places of the value's list.
    pub fn new(alloc: Global, value: T) -> Result<(Turn<T>, TurnSeat<T>), OutOfMemory>
        ensures { IfOk result (λ r. r.1 ≡ record { of = r.0; knows = starting T.name T.entries T.open_calls value }) }
    {
        let about = Snapshot::of(&value);
        let count = value.chronicle().len();
        let mut slots = Vec::with_capacity(alloc, 1)?;
        slots.push_reserved(Some(value));
        match Table::new(alloc, &[0, count], slots, &about) {
            Ok((table, seat)) => Ok((Turn { table }, TurnSeat { seat })),
            Err(_) => Err(OutOfMemory),
        }
    }

    /// Waits for the value, and takes it. It has the seat's name; its list begins with all that the seat has seen, and of the
    /// seat's callers it has just the entries and the open calls that the seat knows.
    pub fn take<R: Wait>(&self, rt: &R, seat: &mut TurnSeat<T>) -> T
        requires turn { seat.old.of ≡ self.now }
        requires idle { IsIdle seat.old }
        ensures value { Meets T.name T.entries T.open_calls seat.old.knows result }
        ensures seat { seat.new ≡ record { of = seat.old.of; knows = held_by seat.old.knows (Some result) } }
    {
        for _ in rt.forever() {
            if let Some(value) = self.try_take(seat) {
                return value;
            }
            thread::yield_now();
        }
        unreachable!()
    }

    /// Takes the value where no seat has it.
    fn try_take(&self, seat: &mut TurnSeat<T>) -> Option<T>
        requires turn { seat.old.of ≡ self.now }
        requires idle { IsIdle seat.old }
        ensures value { IfSome result (λ x. Meets T.name T.entries T.open_calls seat.old.knows x
            × (seat.new ≡ record { of = seat.old.of; knows = held_by seat.old.knows (Some x) })) }
        ensures none { IfNone result (seat.new ≡ seat.old) }
    {
        let words = &self.table.shared;
        if words.compare_exchange::<Takes<T>>(&mut seat.seat, TURN, 0, 1) == 0 {
            words.exchange(&mut seat.seat, 0, None)
        } else {
            None
        }
    }

    /// How many entries the value's list has by now: at least as many as were seen. For the seat that holds the value it is the
    /// length of the list that was taken.
    pub fn count(&self, seat: &mut TurnSeat<T>) -> u64
        requires turn { seat.old.of ≡ self.now }
        ensures seat { seat.new ≡ seat.old }
        ensures held { (x : _) → seat.old.knows.hold ≡ Some x → result ≡ length (T.entries x) }
        ensures seen { AreWithin T.name T.entries T.open_calls result seat.old.knows.own }
    {
        self.table.shared.load::<Looks<T>>(&mut seat.seat, COUNT)
    }

    /// Gives the value back, after one event of a caller of the seat. Then the seat has seen the whole list, and the places of
    /// what was added are its own. It doesn't wait.
    pub fn give(&self, seat: &mut TurnSeat<T>, value: T)
        requires turn { seat.old.of ≡ self.now }
        requires follows { (x : _) × (seat.old.knows.hold ≡ Some x) × FollowsByOne T.name T.entries T.gauge T.open_calls T.event (callers seat.old.knows) x value }
        ensures turn { seat.new.of ≡ seat.old.of }
        ensures idle { IsIdle seat.new }
        ensures seat { (x : _) → seat.old.knows.hold ≡ Some x → seat.new.knows ≡ given T.name T.entries T.open_calls seat.old.knows x value }
    {
        let words = &self.table.shared;
        let count = value.chronicle().len();
        match words.exchange(&mut seat.seat, 0, Some(value)) {
            None => {}
            Some(_) => unreachable!(),
        }
        words.store::<Publishes<T>>(&mut seat.seat, COUNT, count);
        words.store::<LetsGo>(&mut seat.seat, TURN, 0);
    }

    /// A new seat, which has the least number of the old one's. It knows the same list, and has added nothing.
    pub fn split(&self, seat: &mut TurnSeat<T>) -> TurnSeat<T>
        requires turn { seat.old.of ≡ self.now }
        requires idle { IsIdle seat.old }
        requires two { 2 ≤ length (callers seat.old.knows) }
        ensures left { seat.new ≡ record { of = seat.old.of; knows = left_of seat.old.knows } }
        ensures right { result ≡ record { of = seat.old.of; knows = right_of seat.old.knows } }
        ensures least { (n : ℕ) × (callers result.knows ≡ n ∷ []) × IsLeast n (callers seat.old.knows) }
    {
        TurnSeat {
            seat: self.table.shared.split_seat::<OneNumber>(&mut seat.seat),
        }
    }

    /// Unites two seats.
    pub fn join(&self, seat: &mut TurnSeat<T>, other: TurnSeat<T>)
        requires turn { (seat.old.of ≡ self.now) × (other.of ≡ self.now) }
        requires idle { IsIdle seat.old × IsIdle other }
        ensures { seat.new ≡ record { of = seat.old.of; knows = both_of seat.old.knows other.knows } }
    {
        self.table
            .shared
            .join_seat::<Both>(&mut seat.seat, other.seat);
    }

    /// Ends the turn. The seat has all numbers, so that it is the only one left, and all places are its own.
    pub fn close(self, seat: TurnSeat<T>) -> T
        requires turn { seat.of ≡ self }
        requires idle { IsIdle seat }
        requires all { length (callers seat.knows) ≡ 65536 }
        ensures value { Meets T.name T.entries T.open_calls seat.knows result }
        ensures places { (p : ℕ) → times p seat.knows.places ≡ once_below p (length (T.entries result)) }
    {
        let Turn { table } = self;
        let mut closed = table.close_with(seat.seat);
        let value = closed.take(0);
        closed.free();
        match value {
            Some(value) => value,
            None => unreachable!(),
        }
    }
}
