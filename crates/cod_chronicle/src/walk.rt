//! A walk of the entries of many chronicles in one order, without memory.
//!
//! The chronicles are looked at in groups, and of each group it is known which begins with the least stamp. So one step looks
//! at one chronicle of each group, and then at those of one group: at most 64, however many chronicles there are.
ghost use Rattle.std.specs.Prelude.{◌≡◌, ◌+◌, ◌*◌, ◌<◌, ◌≤◌, None, length, map, MatchOption};
ghost use Rattle.std.specs.Iterator.{YieldsFirstBy, item_count};
ghost use Rattle.cod_chronicle.specs.Order.{place, order};
ghost use Rattle.cod_chronicle.specs.Said.{StampsRise};
ghost use Rattle.cod_chronicle.specs.Walk.{AreSoonest, IsSoonest, TakesFirst, entries_left, is_sooner, stamp_left};

use crate::{Entries, Entry, Stands};
use arrayvec::ArrayVec;
use std::marker::Model;

const MOST: usize = 1024;

const GROUP: usize = 32;

/// An entry, and the number of the chronicle in which it stands.
#[derive(Debug, Drop)]
pub struct Placed<'a> {
    pub index: u32,
    pub entry: &'a Entry,
}

/// What is left of a chronicle, where it isn't at its end.
#[derive(Drop)]
struct Rest<'a> {
    first: &'a Entry,
    behind: Entries<'a>,
}

impl<'a> Model for Rest<'a> {
    ghost use Rattle.cod_chronicle.specs.Walk as walk;

    ghost Value = { walk.Rest };

    ghost view = { λ r. record { first = r.first.now; behind = r.behind } };
}

impl<'a> Rest<'a> {
    /// All of a chronicle.
    fn whole<T: Stands>(value: &'a T) -> Option<Rest<'a>>
        ensures left { entries_left result ≡ T.entries value.now }
        ensures rise { StampsRise (T.entries value.now) }
    {
        Rest::of(value.chronicle().iter())
    }

    /// What is left where these entries are.
    fn of(entries: Entries<'a>) -> Option<Rest<'a>>
        ensures { entries_left result ≡ entries.entry }
    {
        let mut behind = entries;
        match behind.next() {
            Some(first) => Some(Rest { first, behind }),
            None => None,
        }
    }
}

/// All entries of at most 1024 chronicles that are left to be walked, by stamp, then by the chronicle's number, then by the
/// place in it.
#[derive(Drop)]
pub struct Merged<'a> {
    rests: ArrayVec<Option<Rest<'a>>, MOST>,
    soonest: [u16; MOST / GROUP],
}

impl<'a> Model for Merged<'a> {
    ghost use Rattle.std.specs.Prelude.{List};
    ghost use Rattle.std.specs.List.{AllByRecursion};
    ghost use Rattle.cod_chronicle.specs.Said.{StampsRise};
    ghost use Rattle.cod_chronicle.specs.Order.{Placed as PlacedEntry, order};
    ghost use Rattle.cod_chronicle.specs.Walk.{lists_of, AreSoonest};

    ghost Value = { List PlacedEntry };

    ghost view = { λ m. order (lists_of m.rests.items) };

    ghost invariant = { λ m. AllByRecursion StampsRise (lists_of m.rests.items) × AreSoonest m.rests.items m.soonest };
}

/// Whether rest `i` begins with a smaller stamp than rest `j`.
fn begins_sooner(rests: &[Option<Rest<'_>>], i: usize, j: usize) -> bool
    ensures { result ≡ is_sooner (stamp_left rests.now i) (stamp_left rests.now j) }
{
    match (rests.get(i), rests.get(j)) {
        (Some(Some(rest)), Some(Some(other))) => rest.first.stamp() < other.first.stamp(),
        (Some(Some(_)), _) => true,
        _ => false,
    }
}

/// The rest of a group that begins with the least stamp.
fn soonest_in(rests: &[Option<Rest<'_>>], group: usize) -> u16
    requires { group < 32 }
    ensures { IsSoonest rests.now result (group * 32) (group * 32 + 32) }
{
    let from = group * GROUP;
    let mut soonest = from;
    for i in from + 1..from + GROUP {
        if begins_sooner(rests, i, soonest) {
            soonest = i;
        }
    }
    soonest as u16
}

/// The rest that begins with the least stamp of all.
fn soonest_of_all(rests: &[Option<Rest<'_>>], soonest: &[u16; MOST / GROUP]) -> usize
    requires { AreSoonest rests.now soonest.now }
    ensures { IsSoonest rests.now result 0 1024 }
{
    let mut found = soonest[0] as usize;
    for group in 1..MOST / GROUP {
        let next = soonest[group] as usize;
        if begins_sooner(rests, next, found) {
            found = next;
        }
    }
    found
}

/// Of each group, the rest that begins with the least stamp.
fn soonest_of_each(rests: &[Option<Rest<'_>>]) -> [u16; MOST / GROUP]
    ensures { AreSoonest rests.now result }
{
    let mut soonest = [0; MOST / GROUP];
    for group in 0..MOST / GROUP {
        soonest[group] = soonest_in(rests, group);
    }
    soonest
}

/// Takes the first entry of a rest out, where it isn't at its end.
fn take_first<'a>(rests: &mut [Option<Rest<'a>>], index: usize) -> Option<&'a Entry>
    requires { index < length rests.old }
    ensures { MatchOption result ((stamp_left rests.old index ≡ None) × (rests.new ≡ rests.old)) (λ e. TakesFirst rests.old rests.new index e.now) }
{
    let rest = rests[index].take()?;
    rests[index] = Rest::of(rest.behind);
    Some(rest.first)
}

/// All entries of the chronicles for which these values stand, at most 1024, in one order: by stamp, then by the value's
/// place in `all`, then by the place in its chronicle. It takes no memory. A step looks at no more than 64 chronicles,
/// however many there are, so a walk takes time linear in the entries.
pub fn merge_order<'a, T: Stands>(all: &'a [T]) -> Merged<'a>
    requires { length all.now ≤ 1024 }
    ensures { result ≡ order (map T.entries all.now) }
{
    let mut rests = ArrayVec::new();
    for value in all {
        rests.push(Rest::whole(value));
    }
    let soonest = soonest_of_each(rests.as_slice());
    Merged { rests, soonest }
}

impl<'a> Iterator for Merged<'a> {
    type Item = Placed<'a>;

    ghost next_gives = { YieldsFirstBy (λ p. place p.index p.entry.now) (λ s. s) };

    ghost remaining = { item_count (λ s. s) };

    fn next(&mut self) -> Option<Placed<'a>> {
        let index = soonest_of_all(self.rests.as_slice(), &self.soonest);
        if self.rests.len() <= index {
            return None;
        }
        let entry = take_first(self.rests.as_mut_slice(), index)?;
        self.soonest[index / GROUP] = soonest_in(self.rests.as_slice(), index / GROUP);
        Some(Placed {
            index: index as u32,
            entry,
        })
    }
}
