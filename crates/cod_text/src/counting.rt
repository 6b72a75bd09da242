//! How many calls, replies and marks of each kind there are.
ghost use Rattle.std.specs.Prelude.{◌≡◌, map};
ghost use Rattle.std.specs.List.{fold};
ghost use Rattle.cod_types.specs.Faults.{bump};
ghost use Rattle.cod_text.specs.Summary.{bytes_brought, bytes_replaced, more, no_tally, tally_of, with_bytes, with_call, with_entry, with_reply};

use crate::tally::Tally;
use cod_chronicle::{Chronicle, Entry, Stands};
use cod_types::{Call, Reply};

/// One more.
fn count(number: &mut u64)
    ensures { number.new ≡ bump number.old }
{
    *number = number.saturating_add(1);
}

/// So many bytes more.
fn add(sum: &mut u64, bytes: usize)
    ensures { sum.new ≡ more bytes sum.old }
{
    *sum = sum.saturating_add(bytes as u64);
}

/// How many bytes a reply brings to its caller.
fn brought(reply: &Reply) -> usize
    ensures { result ≡ bytes_brought reply.now }
{
    match reply {
        Reply::Bytes(bytes) => bytes.as_slice().len(),
        _ => 0,
    }
}

/// How many bytes a call replaces that was done.
fn replaced(call: &Call, reply: &Reply) -> usize
    ensures { result ≡ bytes_replaced call.now reply.now }
{
    match (call, reply) {
        (Call::Write { bytes, .. }, Reply::Done) => bytes.as_slice().len(),
        (Call::Swap { new, .. }, Reply::Done) => new.as_slice().len(),
        (Call::Put { bytes }, Reply::Done) => bytes.as_slice().len(),
        _ => 0,
    }
}

impl Tally {
    fn new() -> Tally
        ensures { result ≡ no_tally }
    {
        Tally::default()
    }

    fn add_call(&mut self, call: &Call)
        ensures { self.new ≡ with_call self.old call.now }
    {
        match call {
            Call::Read { .. } => count(&mut self.reads),
            Call::Write { .. } => count(&mut self.writes),
            Call::Swap { .. } => count(&mut self.swaps),
            Call::Put { .. } => count(&mut self.puts),
            Call::Merge => count(&mut self.merges),
            Call::Tick => count(&mut self.ticks),
            Call::Rebuild => count(&mut self.rebuilds),
            Call::Upgrade => count(&mut self.upgrades),
            Call::Drain { .. } => count(&mut self.drains),
        }
    }

    fn add_reply(&mut self, reply: &Reply)
        ensures { self.new ≡ with_reply self.old reply.now }
    {
        match reply {
            Reply::Bytes(_) => count(&mut self.bytes),
            Reply::Done => count(&mut self.done),
            Reply::Range => count(&mut self.range),
            Reply::Long => count(&mut self.long),
            Reply::Lost => count(&mut self.lost),
            Reply::Whole => count(&mut self.whole),
            Reply::Rebuilt { .. } => count(&mut self.rebuilt),
            Reply::NoSpare(_) => count(&mut self.no_spare),
            Reply::NoMem => count(&mut self.no_memory),
            Reply::Differs(_) => count(&mut self.differs),
            Reply::Shifted { .. } => count(&mut self.shifted),
            Reply::Clear => count(&mut self.clear),
        }
    }

    fn add_bytes(&mut self, call: &Call, reply: &Reply)
        ensures { self.new ≡ with_bytes self.old call.now reply.now }
    {
        add(&mut self.bytes_read, brought(reply));
        add(&mut self.bytes_written, replaced(call, reply));
    }

    fn add_entry(&mut self, entry: &Entry)
        ensures { self.new ≡ with_entry self.old entry.now }
    {
        match entry {
            Entry::Call { call, reply, .. } => {
                count(&mut self.calls);
                self.add_call(call);
                self.add_reply(reply);
                self.add_bytes(call, reply);
            }
            Entry::Down { .. } => count(&mut self.downs),
            Entry::Up { .. } => count(&mut self.ups),
            Entry::Move { .. } => count(&mut self.moves),
        }
    }

    fn add_chronicle(&mut self, chronicle: &Chronicle)
        ensures { self.new ≡ fold with_entry self.old chronicle.now }
    {
        for entry in chronicle.iter() {
            self.add_entry(entry);
        }
    }

    /// Of all entries of all these chronicles.
    pub(crate) fn of<T: Stands>(all: &[T]) -> Tally
        ensures { result ≡ tally_of (map T.entries all.now) }
    {
        let mut tally = Tally::new();
        for value in all {
            tally.add_chronicle(value.chronicle());
        }
        tally
    }
}
