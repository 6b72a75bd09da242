//! A region that notes its calls.
ghost use Rattle.std.specs.Prelude.{◌≡◌};

use crate::MOST;
use cod_region::Region;
use cod_types::Failed;

/// The most calls that are noted of one step.
const COUNT: usize = 8;

/// What a call is.
#[derive(Clone, Copy)]
pub enum Kind {
    Read,
    Write,
    Cut,
}

/// A call: what it is, from which place on, and of how many bytes.
#[derive(Clone, Copy)]
pub struct Note {
    pub kind: Kind,
    pub at: u32,
    pub len: usize,
}

/// A region that notes the place and the length of each call, and the bytes that were written last.
#[derive(Drop)]
pub struct Watched<R: Region> {
    held: R,
    notes: [Note; COUNT],
    count: usize,
    bytes: [u8; MOST],
    len: usize,
}

impl<R: Region> Watched<R> {
    /// This region, with no call noted.
    pub fn new(held: R) -> Watched<R>
        ensures { result.held ≡ held }
    {
        let none = Note {
            kind: Kind::Cut,
            at: 0,
            len: 0,
        };
        Watched {
            held,
            notes: [none; COUNT],
            count: 0,
            bytes: [0; MOST],
            len: 0,
        }
    }

    /// How many calls there were.
    pub fn count(&self) -> usize {
        self.count
    }

    /// The call of this number, one of the last eight.
    pub fn note(&self, number: usize) -> Note {
        self.notes[number % COUNT]
    }

    /// The bytes that were written last.
    pub fn written(&self) -> &[u8] {
        &self.bytes[..self.len.min(MOST)]
    }

    fn add_note(&mut self, kind: Kind, at: u32, len: usize)
        ensures { self.new.held ≡ self.old.held }
    {
        self.notes[self.count % COUNT] = Note { kind, at, len };
        self.count = self.count.saturating_add(1);
    }
}

impl<R: Region> Region for Watched<R> {
    ghost device = { λ r. R.device r.held };

    ghost tells = { R.tells };

    ghost whole = { λ r. R.whole r.held };

    ghost telling = { λ r. R.telling r.held };

    ghost reliable = { λ r. R.reliable r.held };

    fn len(&self) -> u32 {
        self.held.len()
    }

    fn reads(&self) -> u64 {
        self.held.reads()
    }

    fn writes(&self) -> u64 {
        self.held.writes()
    }

    fn faults(&self) -> u64 {
        self.held.faults()
    }

    fn read_at(&mut self, off: u32, into: &mut [u8]) -> Result<(), Failed> {
        self.add_note(Kind::Read, off, into.len());
        self.held.read_at(off, into)
    }

    fn fetch(&mut self, off: u32, len: usize) -> Result<(), Failed> {
        self.add_note(Kind::Read, off, len);
        self.held.fetch(off, len)
    }

    fn lent(&self, off: u32, len: usize) -> &[u8] {
        self.held.lent(off, len)
    }

    fn write_at(&mut self, off: u32, from: &[u8]) -> Result<(), Failed> {
        self.add_note(Kind::Write, off, from.len());
        let len = from.len().min(MOST);
        self.bytes[..len].copy_from_slice(&from[..len]);
        self.len = len;
        self.held.write_at(off, from)
    }

    fn cut(&mut self, len: u32) -> Result<(), Failed> {
        self.add_note(Kind::Cut, len, 0);
        self.held.cut(len)
    }
}
