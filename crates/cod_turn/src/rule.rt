//! The rule of a turn, and what its steps tell. These types are for the proofs alone.
use crate::view::View;
use atomic_table::{Join, Play, Split, TableRule};
use cod_chronicle::Stands;
use std::marker::PhantomData;
use std::snapshot::Snapshot;

/// The value is at home or in one seat's hand, and each seat knows a front of its list.
pub struct OneAtATime<T> {
    of: PhantomData<T>,
}

impl<T: Stands> TableRule<Option<T>, View<T>, Snapshot<T>> for OneAtATime<T> {
    ghost use Rattle.cod_turn.specs.Turning.{Kept, starting};

    ghost holds = { λ _. Kept T.name T.entries T.open_calls };

    ghost first = { λ k. starting T.name T.entries T.open_calls k.value };
}

/// An exchange of 0 for 1: the turn is taken, where it was free.
pub struct Takes<T> {
    of: PhantomData<T>,
}

impl<T: Stands> Play<Option<T>, View<T>> for Takes<T> {
    ghost use Rattle.cod_turn.specs.Turning.{took};

    ghost then = { took T.name T.entries T.open_calls };
}

/// A load of the count.
pub struct Looks<T> {
    of: PhantomData<T>,
}

impl<T: Stands> Play<Option<T>, View<T>> for Looks<T> {
    ghost use Rattle.cod_turn.specs.Turning.{counted};

    ghost then = { λ s. counted T.name T.entries T.open_calls };
}

/// A store of the count: what was added to the list is the seat's.
pub struct Publishes<T> {
    of: PhantomData<T>,
}

impl<T: Stands> Play<Option<T>, View<T>> for Publishes<T> {
    ghost use Rattle.cod_turn.specs.Turning.{put_out};

    ghost then = { λ s m n w. put_out T.name T.entries T.open_calls m w };
}

/// A store of 0: the turn is free.
pub struct LetsGo;

impl<T> Play<Option<T>, View<T>> for LetsGo {
    ghost use Rattle.cod_turn.specs.Turning.{held_by};
    ghost use Rattle.std.specs.Prelude.{◌≡◌, [], None};

    ghost then = { λ s m n w. w ≡ (held_by m.0 None, []) };
}

/// The least number goes to a new seat.
pub struct OneNumber;

impl<T> Split<View<T>> for OneNumber {
    ghost use Rattle.cod_turn.specs.Turning.{left_of, right_of};

    ghost left = { left_of };

    ghost right = { right_of };
}

/// Two seats become one.
pub struct Both;

impl<T> Join<View<T>> for Both {
    ghost use Rattle.cod_turn.specs.Turning.{both_of, nobody};

    ghost both = { both_of };

    ghost spent = { nobody };
}
