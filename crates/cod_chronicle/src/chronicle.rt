//! A chronicle, to which entries are added without memory.
ghost use Rattle.std.specs.Prelude.{◌≡◌, ◌+◌, ◌<◌, ◌^◌, [], ◌∷◌, ◌++◌, length};
ghost use Rattle.std.specs.Iterator.{YieldsFirstRef, item_count};
ghost use Rattle.cod_chronicle.specs.Said.{clock_of, stamp_of, StampFollows, NumberFollows, IsChronicle};

use crate::Entry;
use cod_types::{Call, Caller, OutOfMemory, Reply};
use std::alloc::Global;
use std::collections::{LinkedList, linked_list};
use std::marker::Model;

/// An allocated place for one entry.
#[derive(Drop)]
pub struct Link {
    place: LinkedList<Entry>,
}

impl Model for Link {
    ghost use Rattle.std.specs.Prelude.{◌≡◌, length};

    ghost Value = { Unit {0} };

    ghost view = { λ _. tt };

    ghost invariant = { λ l. length l.place ≡ 1 };
}

impl Link {
    /// Takes the memory of one entry. It is refused only where there is none.
    pub fn new(alloc: Global) -> Result<Link, OutOfMemory> {
        let mut place = LinkedList::new(alloc);
        let empty = Entry::Call {
            caller: Caller(0),
            number: 0,
            stamp: 0,
            call: Call::Merge,
            reply: Reply::Done,
        };
        if place.push_back(empty).is_err() {
            return Err(OutOfMemory);
        }
        Ok(Link { place })
    }

    /// A list of this entry alone.
    fn filled(self, entry: Entry) -> LinkedList<Entry>
        ensures { result ≡ entry ∷ [] }
    {
        let mut place = self.place;
        match place.front_mut() {
            Some(slot) => *slot = entry,
            None => unreachable!(),
        }
        place
    }
}

/// The entries of a segment, the oldest first. Their stamps rise, but for those that are 2^64 - 1, and the numbers of
/// each caller rise.
#[derive(Drop)]
pub struct Chronicle {
    entries: LinkedList<Entry>,
}

impl Model for Chronicle {
    ghost use Rattle.std.specs.Prelude.{List};
    ghost use Rattle.cod_chronicle.specs.declared.entry.Entry.{Entry};
    ghost use Rattle.cod_chronicle.specs.Said.{IsChronicle};

    ghost Value = { List Entry };

    ghost view = { λ c. c.entries };

    ghost invariant = { λ c. IsChronicle c.entries };
}

impl Chronicle {
    /// No entry yet. It keeps the allocator and takes no memory.
    pub fn new(alloc: Global) -> Chronicle
        ensures { result ≡ [] }
    {
        Chronicle {
            entries: LinkedList::new(alloc),
        }
    }

    /// One entry more, without memory. Its stamp is greater than the last one, or both are 2^64 - 1; a call's number is
    /// greater than all that its caller has here; and fewer than 2^63 - 1 entries are here.
    pub fn push_link(&mut self, link: Link, entry: Entry)
        requires stamp { StampFollows self.old (stamp_of entry) }
        requires number { NumberFollows self.old entry }
        requires room { length self.old + 1 < 2 ^ 63 }
        ensures { self.new ≡ self.old ++ entry ∷ [] }
    {
        let mut place = link.filled(entry);
        match self.entries.append(&mut place) {
            Ok(()) => {}
            Err(_) => unreachable!(),
        }
    }

    /// How many entries there are.
    pub fn len(&self) -> u64
        ensures { result ≡ length self.now }
    {
        self.entries.len() as u64
    }

    /// The last stamp, or 0.
    pub fn clock(&self) -> u64
        ensures value { result ≡ clock_of self.now }
        ensures chronicle { IsChronicle self.now }
    {
        match self.entries.back() {
            Some(entry) => entry.stamp(),
            None => 0,
        }
    }

    /// The entries, the oldest first.
    pub fn iter(&self) -> Entries<'_>
        ensures entries { result ≡ self.now }
        ensures chronicle { IsChronicle self.now }
    {
        Entries {
            inner: self.entries.iter(),
        }
    }
}

/// The entries of a chronicle, the oldest first.
#[derive(Drop)]
pub struct Entries<'a> {
    inner: linked_list::Iter<'a, Entry>,
}

impl<'a> Model for Entries<'a> {
    ghost use Rattle.std.specs.Prelude.{List};
    ghost use Rattle.cod_chronicle.specs.declared.entry.Entry.{Entry};

    ghost Value = { List Entry };

    ghost view = { λ e. e.inner };
}

impl<'a> Iterator for Entries<'a> {
    type Item = &'a Entry;

    ghost next_gives = { YieldsFirstRef (λ s. s) };

    ghost remaining = { item_count (λ s. s) };

    fn next(&mut self) -> Option<&'a Entry> {
        self.inner.next()
    }
}
