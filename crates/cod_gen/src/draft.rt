//! A scenario that is being made, line by line.
ghost use Rattle.std.specs.Prelude.{◌≡◌, ◌+◌, ◌-◌, ◌*◌, ◌<◌, ◌^◌, ℕ, OnOk};
ghost use Rattle.cod_gen.specs.Drafting.{call_of, draws_in, with_client, with_line, with_lines, with_state};
ghost use Rattle.cod_gen.specs.Drawn.{after};
ghost use Rattle.cod_gen.specs.Generated.{care_lines, client_lines, draws_ahead, fail_and_rebuild, on_each, read_line, round_lines, write_line};

use crate::care::Care;
use crate::draws::draw;
use cod_script::{Body, Line, Name, What};
use cod_types::{Bytes, Call, NodeId, OutOfMemory, SegId};
use std::alloc::Global;
use std::marker::Model;

/// How many segments there are.
pub const SEGMENTS: u32 = 40;

/// How many bytes each write and each read has.
const BYTES: u32 = 64;

/// How many places in a segment have so many bytes behind them.
const PLACES: u32 = 262081;

/// A scenario's body so far, the number of the next line, and the state of what is drawn.
#[derive(Drop)]
pub struct Draft {
    body: Body,
    line: u32,
    state: u64,
}

impl Model for Draft {
    ghost use Rattle.cod_gen.specs.Drafting as drafts;

    ghost Value = { drafts.Draft };

    ghost view = { λ d. record { body = d.body; line = d.line; state = d.state } };
}

impl Draft {
    /// A draft with no client yet, where this many lines stand in the text and this is drawn from.
    pub fn new(body: Body, lines: u32, number: u32) -> Draft
        requires { lines < 2 ^ 32 - 1 }
        ensures { result ≡ record { body = body; line = lines + 1; state = number } }
    {
        Draft {
            body,
            line: lines + 1,
            state: number as u64,
        }
    }

    /// The body.
    pub fn into_body(self) -> Body
        ensures { result ≡ self.body }
    {
        self.body
    }

    /// Adds a line to the last client.
    fn push(&mut self, what: What) -> Result<(), OutOfMemory>
        requires { self.old.line + 1 < 2 ^ 32 }
        ensures { OnOk result (self.new ≡ with_line self.old what) }
    {
        self.body.push_line(Line {
            line: self.line,
            what,
        })?;
        self.line += 1;
        Ok(())
    }

    /// Adds a write of one byte, many times, to a place that is drawn.
    #[tactic(auto, unfolding(crate::specs::Drawn::after))]
    fn write(&mut self, alloc: Global) -> Result<(), OutOfMemory>
        requires { self.old.line + 1 < 2 ^ 32 }
        ensures { OnOk result (self.new ≡ with_state (with_line self.old (write_line self.old.state)) (after 3 self.old.state)) }
    {
        let seg = SegId(draw(&mut self.state, SEGMENTS));
        let off = draw(&mut self.state, PLACES);
        let byte = draw(&mut self.state, 256) as u8;
        let bytes = Bytes::fill(alloc, byte, BYTES)?;
        let call = Call::Write { off, bytes };
        self.push(What::Segment { seg, call })
    }

    /// Adds a read from a place that is drawn.
    #[tactic(auto, unfolding(crate::specs::Drawn::after))]
    fn read(&mut self) -> Result<(), OutOfMemory>
        requires { self.old.line + 1 < 2 ^ 32 }
        ensures { OnOk result (self.new ≡ with_state (with_line self.old (read_line self.old.state)) (after 2 self.old.state)) }
    {
        let seg = SegId(draw(&mut self.state, SEGMENTS));
        let off = draw(&mut self.state, PLACES);
        let call = Call::Read { off, len: BYTES };
        self.push(What::Segment { seg, call })
    }

    /// Adds a call of each segment.
    fn on_each(&mut self, care: Care) -> Result<(), OutOfMemory>
        requires { self.old.line + 40 < 2 ^ 32 }
        ensures { OnOk result (self.new ≡ with_lines self.old (on_each (call_of care))) }
    {
        for seg in 0..SEGMENTS {
            self.push(What::Segment {
                seg: SegId(seg),
                call: care.call(),
            })?;
        }
        Ok(())
    }

    /// Adds the failure of a node, and a rebuild of each segment.
    fn fail_and_rebuild(&mut self, node: u8) -> Result<(), OutOfMemory>
        requires { self.old.line + 41 < 2 ^ 32 }
        ensures { OnOk result (self.new ≡ with_lines self.old (fail_and_rebuild node)) }
    {
        self.push(What::Fail { node: NodeId(node) })?;
        self.on_each(Care::Rebuild)
    }

    /// Adds what a client does in this round beside its writes and reads, if anything.
    fn care(&mut self, client: u32, round: u32) -> Result<(), OutOfMemory>
        requires { self.old.line + 41 < 2 ^ 32 }
        ensures { OnOk result (self.new ≡ with_lines self.old (care_lines client round)) }
    {
        match (client, round) {
            (0, 99) => self.fail_and_rebuild(3),
            (0, 199) => self.fail_and_rebuild(7),
            (1, 49) => self.on_each(Care::Merge),
            (1, 149) => self.on_each(Care::Tick),
            _ => Ok(()),
        }
    }

    /// Adds the lines of a client's round.
    fn round(&mut self, alloc: Global, client: u32, round: u32) -> Result<(), OutOfMemory>
        requires { self.old.line + 43 < 2 ^ 32 }
        ensures { OnOk result (self.new ≡ with_state (with_lines self.old (round_lines client round self.old.state)) (after (draws_in round) self.old.state)) }
    {
        self.write(alloc)?;
        if round % 10 == 9 {
            self.read()?;
        }
        self.care(client, round)
    }

    /// Adds the lines of the last client, which has this number.
    pub fn rounds(&mut self, alloc: Global, client: u32) -> Result<(), OutOfMemory>
        requires { self.old.line + 200 * 43 < 2 ^ 32 }
        ensures { (number : ℕ) → self.old.state ≡ after (draws_ahead client 0) number
            → OnOk result (self.new ≡ with_state (with_lines self.old (client_lines number client)) (after (draws_ahead client 200) number)) }
    {
        for round in 0..200 {
            self.round(alloc, client, round)?;
        }
        Ok(())
    }

    /// Adds a client, whose name takes a line.
    pub fn push_client(&mut self, alloc: Global, name: Name) -> Result<(), OutOfMemory>
        requires { self.old.line + 1 < 2 ^ 32 }
        ensures { OnOk result (self.new ≡ with_client self.old name) }
    {
        self.body.push_client(alloc, name)?;
        self.line += 1;
        Ok(())
    }
}
