//! What one line says.
ghost use Rattle.std.specs.Prelude.{◌≡◌};

use cod_script::{Name, What};
use std::marker::Model;

/// The words that a line can begin with.
#[derive(Clone, Copy, Debug, PartialEq, Eq)]
pub enum Keyword {
    Codfs,
    Nodes,
    Code,
    Block,
    Update,
    Reserve,
    Unit,
    Alpha,
    Segment,
    Client,
    Does(Verb),
    Care,
    Schedule,
    End,
}

/// The words that a line of a client can begin with.
#[derive(Clone, Copy, Debug, PartialEq, Eq)]
pub enum Verb {
    Read,
    Write,
    Swap,
    Put,
    Merge,
    Tick,
    Rebuild,
    Upgrade,
    Drain,
    Fail,
}

/// The clients of a `schedule` line, by their numbers.
#[derive(Drop)]
pub struct Turns {
    items: Vec<u32>,
}

impl Model for Turns {
    ghost use Rattle.std.specs.Prelude.{List, ℕ};

    ghost Value = { List ℕ };

    ghost view = { λ t. t.items.items };
}

impl Turns {
    pub fn of(items: Vec<u32>) -> Turns
        ensures { result ≡ items.items }
    {
        Turns { items }
    }

    pub fn as_slice(&self) -> &[u32]
        ensures { result.now ≡ self.now }
    {
        self.items.as_slice()
    }
}

/// A line that was accepted.
#[derive(Drop)]
pub enum Said {
    Codfs(u8),
    Nodes { nodes: u8, capacity: u32 },
    Code { n: u8, k: u8 },
    Block(u32),
    Update(u32),
    Reserve(u32),
    Unit(u32),
    Alpha(u32),
    Segment(Name),
    Client(Name),
    Does { line: u32, what: What },
    Care { workers: u32, rounds: u32 },
    Schedule(Turns),
    End,
}

/// The numbers of the first eight lines.
#[derive(Clone, Copy)]
pub struct Header {
    pub version: u8,
    pub nodes: u8,
    pub capacity: u32,
    pub n: u8,
    pub k: u8,
    pub block: u32,
    pub update: u32,
    pub reserve: u32,
    pub unit: u32,
    pub alpha: u32,
}
