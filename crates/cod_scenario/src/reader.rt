//! A scenario, line by line.
ghost use Rattle.std.specs.Prelude.{◌≡◌, ◌+◌, ◌-◌, ◌<◌, ◌≤◌, ◌^◌, ◌++◌, ◌∷◌, [], map, length, MatchResult, IfOk, OnOk, Ok, Err, ◌==◌, slice_index, true, false};
ghost use Rattle.std.specs.List.{list_all};
ghost use Rattle.std.specs.Option.{option_copied};
ghost use Rattle.cod_scenario.specs.Judge;
ghost use Rattle.cod_scenario.specs.Judge.{Gives, IsRefusal, Heard};
ghost use Rattle.cod_scenario.specs.Lines;
ghost use Rattle.cod_scenario.specs.Lines.{header_of, segments_of, weight_of, body_of, script_with, with_line};
ghost use Rattle.cod_scenario.specs.Reads.{finished, IsRead};
ghost use Rattle.cod_scenario.specs.Reading.{IsSound, Accepts, AreBefore, IsFresh, IsNumbered, AddsTo, Takes, with_segment, with_client, with_header};
ghost use Rattle.cod_scenario.specs.declared.refusal.LineError.TheVariants as line_errors;
ghost use Rattle.cod_scenario.specs.declared.said.Said.TheVariants.{Does};
ghost use Rattle.cod_script.specs.Sound.{HasBytes, IsScenario, NamesNode};
ghost use Rattle.cod_script.specs.declared.line.What.TheVariants.{Segment};

use crate::fields::{follows, is_ended, keyword};
use crate::kinds::rest_says;
use crate::names::Names;
use crate::refusal::{LineError, Refusal, ScenarioError};
use crate::room::{fits, take_room};
use crate::said::{Header, Said};
use crate::weight::{line_weight, noted};
use cod_script::{Body, Line, Scenario, What};
use cod_types::{Call, Geometry, OutOfMemory, SegId};
use cod_words::{trimmed, words};
use std::alloc::Global;
use std::marker::Model;

/// The most bytes that a run may move.
const MOST_WEIGHT: u128 = 268_435_456;

/// Reads a scenario line by line. It is seen as the number of lines that it has read, and the list of what those that say
/// something said; it keeps that list, with the totals that the next line is judged by, and no scenario beside it.
#[derive(Drop)]
pub struct Reader {
    alloc: Global,
    lines: u32,
    said: Vec<Said>,
    header: Header,
    segments: Names,
    clients: Names,
    weight: u32,
    taken: [u64; 64],
}

impl Model for Reader {
    ghost use Rattle.cod_scenario.specs.Judge.{Heard};
    ghost use Rattle.cod_scenario.specs.Reading.{Keeps};

    ghost Value = { Heard };

    ghost view = { λ r. record { lines = r.lines; said = r.said.items } };

    ghost invariant = { λ r. Keeps r.lines r.said.items r.header r.segments r.clients r.weight r.taken };
}

/// The names with the one of this line, if it has one.
fn keep_names(
    alloc: Global,
    segments: &mut Names,
    clients: &mut Names,
    said: &Said,
) -> Result<(), LineError>
    requires { IsFresh segments.old clients.old said.now }
    ensures { MatchResult result
        (λ _. (segments.new ≡ with_segment segments.old said.now) × (clients.new ≡ with_client clients.old said.now))
        (λ e. (e ≡ line_errors.OutOfMemory) × (segments.new ≡ segments.old) × (clients.new ≡ clients.old)) }
{
    match said {
        Said::Segment(name) => segments.push(alloc, name.as_str().as_bytes())?,
        Said::Client(name) => clients.push(alloc, name.as_str().as_bytes())?,
        _ => {}
    }
    Ok(())
}

/// The header with this line, where it is one of the first eight.
fn keep_header(lines: usize, header: &mut Header, said: &Said)
    ensures { header.new ≡ with_header lines header.old said.now }
{
    if lines < 8 {
        noted(header, said);
    }
}

/// What the segments take, with the one of this line, if it has one.
fn keep_room(taken: &mut [u64], header: &Header, count: u32, said: &Said)
    requires nodes { Judge.is_segment said.now ≡ true → header.now.nodes ≤ length taken.old }
    requires so_far { Takes taken.old header.now count }
    requires room { Judge.is_segment said.now ≡ true → Lines.holds header.now (count + 1) ≡ true }
    ensures grown { Judge.is_segment said.now ≡ true → Takes taken.new header.now (count + 1) }
    ensures kept { Judge.is_segment said.now ≡ false → taken.new ≡ taken.old }
    ensures len { length taken.new ≡ length taken.old }
{
    if is_segment(said) {
        take_room(taken, header, count);
    }
}

/// What stands behind the header, with one line more.
fn add(body: &mut Body, alloc: Global, said: Said) -> Result<(), OutOfMemory>
    ensures { OnOk result (body.new ≡ with_line body.old said) }
{
    match said {
        Said::Segment(name) => body.push_segment(name),
        Said::Client(name) => body.push_client(alloc, name),
        Said::Does { line, what } => body.push_line(Line { line, what }),
        Said::Care { workers, rounds } => {
            body.set_care(workers, rounds);
            Ok(())
        }
        Said::Schedule(turns) => body.push_turns(turns.as_slice()),
        _ => Ok(()),
    }
}

/// What accepted lines say after the header.
fn gathered(alloc: Global, said: Vec<Said>) -> Result<Body, OutOfMemory>
    ensures { IfOk result (λ b. b ≡ body_of said.items) }
{
    let mut body = Body::new(alloc);
    for line in said {
        add(&mut body, alloc, line)?;
    }
    Ok(body)
}

/// The scenario of a header and of what stands behind it, without memory.
fn scenario(h: &Header, body: Body) -> Scenario
    requires { IsScenario (script_with h.now body) }
    ensures { result ≡ script_with h.now body }
{
    let geometry = if h.version == 2 {
        Geometry::new2(h.n, h.k, h.block, h.update, h.reserve, h.unit, h.alpha)
    } else {
        Geometry::new(h.n, h.k, h.block, h.update, h.reserve, h.unit, h.alpha)
    };
    let Ok(geometry) = geometry else {
        unreachable!()
    };
    Scenario::new(geometry, h.nodes, h.capacity, body)
}

fn is_segment(said: &Said) -> bool
    ensures { result ≡ Judge.is_segment said.now }
{
    matches!(said, Said::Segment(_))
}

impl Reader {
    /// A reader that has read no line.
    #[tactic(auto, unfolding(crate::specs::Lines::header_of, crate::specs::Lines::body_of, crate::specs::Lines::weight_of))]
    pub fn new(alloc: Global) -> Reader
        ensures { result ≡ record { lines = 0; said = [] } }
    {
        Reader {
            alloc,
            lines: 0,
            said: Vec::new(alloc),
            header: Header {
                version: 0,
                nodes: 0,
                capacity: 0,
                n: 0,
                k: 0,
                block: 0,
                update: 0,
                reserve: 0,
                unit: 0,
                alpha: 0,
            },
            segments: Names::new(alloc),
            clients: Names::new(alloc),
            weight: 0,
            taken: [0; 64],
        }
    }

    /// Whether the `end` line has come.
    fn is_ended(&self) -> bool
        ensures { result ≡ Judge.is_end (Judge.last_of self.now.said) }
    {
        is_ended(self.said.last())
    }

    /// What the words say by themselves.
    #[tactic(auto, unfolding(crate::specs::Judge::words_mean))]
    fn meaning(&self, first: &[u8], rest: &[&[u8]]) -> Result<Said, LineError>
        requires { self.now.lines < 2 ^ 32 - 2 }
        ensures { Gives (λ x. x) result (Judge.words_mean self.now.said (self.now.lines + 1) first.now (map (λ w. w.now) rest.now)) }
    {
        if self.is_ended() {
            return Err(LineError::Refused(Refusal::AfterEnd));
        }
        let Some(word) = keyword(first) else {
            return Err(LineError::Refused(Refusal::Word));
        };
        if !follows(self.header.version, self.said.last(), word) {
            return Err(LineError::Refused(Refusal::Order));
        }
        rest_says(
            self.alloc,
            &self.header,
            &self.segments,
            &self.clients,
            self.lines + 1,
            word,
            rest,
        )
    }

    /// The weight with one more line.
    fn weight_with(&self, said: &Said) -> u128
        ensures { AddsTo self.now.said said.now result }
    {
        let adds = if self.said.len() < 8 {
            0
        } else {
            line_weight(&self.header, said)
        };
        u128::from(self.weight).saturating_add(adds)
    }

    /// Whether each node has room, if the line is that of a segment.
    fn has_room_for(&self, said: &Said) -> bool
        requires { Accepts self.now.said said.now }
        ensures { result ≡ Judge.is_placed self.now.said said.now }
    {
        !is_segment(said) || fits(&self.taken, &self.header, self.segments.len() as u32)
    }

    /// The weight with one more line, where that can be carried.
    fn carried(&self, said: &Said) -> Result<u32, Refusal>
        requires { Accepts self.now.said said.now }
        ensures { MatchResult result
            (λ w. (Judge.carried self.now.said said.now ≡ Ok said.now) × (w ≡ weight_of (self.now.said ++ said.now ∷ [])) × (w ≤ 268435456))
            (λ why. Judge.carried self.now.said said.now ≡ Err why) }
    {
        let weight = self.weight_with(said);
        if MOST_WEIGHT < weight {
            return Err(Refusal::TooLarge);
        }
        if !self.has_room_for(said) {
            return Err(Refusal::Room);
        }
        Ok(weight as u32)
    }

    /// Adds a line, which makes this weight.
    fn keep(&mut self, said: Said, weight: u32) -> Result<(), LineError>
        requires line { self.old.lines < 2 ^ 32 - 2 }
        requires accepts { Accepts self.old.said said }
        requires number { IsNumbered (self.old.lines + 1) said }
        requires carried { Judge.carried self.old.said said ≡ Ok said }
        requires weight { (weight ≡ weight_of (self.old.said ++ said ∷ [])) × (weight ≤ 268435456) }
        ensures { MatchResult result
            (λ _. self.new ≡ record { lines = self.old.lines + 1; said = self.old.said ++ said ∷ [] })
            (λ e. (e ≡ line_errors.OutOfMemory) × (self.new ≡ self.old)) }
    {
        self.said.reserve(1)?;
        let count = self.segments.len() as u32;
        keep_names(self.alloc, &mut self.segments, &mut self.clients, &said)?;
        keep_room(&mut self.taken, &self.header, count, &said);
        keep_header(self.said.len(), &mut self.header, &said);
        self.weight = weight;
        self.said.push_reserved(said);
        self.lines += 1;
        Ok(())
    }

    /// Reads one more line of at most 2^24 + 1, which stands without its byte 0a. A line that is refused, or for which there is
    /// no memory, leaves the reader as it was.
    #[tactic(auto, unfolding(crate::specs::Judge::line_says, crate::specs::Judge::all_say, crate::specs::Judge::words_say))]
    pub fn line(&mut self, text: &[u8]) -> Result<(), LineError>
        requires { self.old.lines < 2 ^ 32 - 2 }
        ensures { MatchResult result
            (λ _. (Judge.line_says self.old.said (self.old.lines + 1) text.now ≡ Ok self.new.said) × (self.new.lines ≡ self.old.lines + 1))
            (λ e. IsRefusal e (Judge.line_says self.old.said (self.old.lines + 1) text.now) × (self.new ≡ self.old)) }
    {
        let text = trimmed(text);
        if !is_plain(text) {
            return Err(LineError::Refused(Refusal::BadByte));
        }
        let ws = words(self.alloc, text)?;
        let ws = ws.as_slice();
        if ws.is_empty() || is_comment(ws[0]) {
            self.lines += 1;
            return Ok(());
        }
        let said = self.meaning(ws[0], &ws[1..])?;
        let weight = self.carried(&said)?;
        self.keep(said, weight)?;
        Ok(())
    }

    /// The line that came last, of those that say something.
    pub fn last(&self) -> Option<&Said>
        ensures { option_copied result ≡ Judge.last_of self.now.said }
    {
        self.said.last()
    }

    /// The numbers of the header so far.
    pub fn header(&self) -> &Header
        ensures value { result.now ≡ header_of self.now.said }
        ensures sound { IsSound self.now.said }
    {
        &self.header
    }

    /// The names of the segments so far.
    pub fn segments(&self) -> &Names
        ensures { result.now ≡ segments_of self.now.said }
    {
        &self.segments
    }

    /// Takes a call of a segment for the next line of the client that came last. It is refused exactly where a line that says
    /// so is: where it is an upgrade and the version is not 2, or where it makes the run too large.
    #[tactic(auto, unfolding(crate::specs::Judge::called))]
    pub fn call(&mut self, seg: SegId, call: Call) -> Result<(), LineError>
        requires line { self.old.lines < 2 ^ 32 - 2 }
        requires among { Judge.is_among (Judge.last_of self.old.said) ≡ true }
        requires there { (seg.0 < length (segments_of self.old.said)) × NamesNode (header_of self.old.said).nodes call }
        ensures { let s = Does (self.old.lines + 1) (Segment seg call) in MatchResult result
            (λ _. (Judge.called self.old.said (self.old.lines + 1) seg call ≡ Ok s) × (self.new ≡ record { lines = self.old.lines + 1; said = self.old.said ++ s ∷ [] }))
            (λ e. IsRefusal e (Judge.called self.old.said (self.old.lines + 1) seg call) × (self.new ≡ self.old)) }
    {
        if !has_call(self.header.version, &call) {
            return Err(LineError::Refused(Refusal::Order));
        }
        look_at(&call);
        let said = Said::Does {
            line: self.lines + 1,
            what: What::Segment { seg, call },
        };
        let weight = self.carried(&said)?;
        self.keep(said, weight)?;
        Ok(())
    }

    /// The scenario of the lines, by moving what they said. It is refused exactly where the last of them isn't `end`, as the
    /// line after them.
    pub fn finish(self) -> Result<Scenario, ScenarioError>
        ensures { IsRead result (finished self) }
    {
        if !self.is_ended() {
            return Err(ScenarioError::Refused {
                line: self.lines + 1,
                why: Refusal::NoEnd,
            });
        }
        let Reader {
            alloc,
            said,
            header,
            ..
        } = self;
        Ok(scenario(&header, gathered(alloc, said)?))
    }
}

/// Whether this version has the call.
fn has_call(version: u8, call: &Call) -> bool
    ensures { result ≡ Judge.has_call version call.now }
{
    !matches!(call, Call::Upgrade) || version == 2
}

/// The bytes of a call are bytes.
fn look_at(call: &Call)
    ensures { HasBytes call.now }
{
    match call {
        Call::Write { bytes, .. } | Call::Put { bytes } => {
            let _bytes = bytes.as_slice();
        }
        Call::Swap { old, new, .. } => {
            let _old = old.as_slice();
            let _new = new.as_slice();
        }
        _ => {}
    }
}

fn is_comment(w: &[u8]) -> bool
    ensures { result ≡ (slice_index w.now 0 == 35) }
{
    match w {
        [first, ..] => *first == b'#',
        [] => false,
    }
}

fn is_plain_byte(b: u8) -> bool
    ensures { result ≡ Judge.is_plain_byte b }
{
    (0x20..=0x7E).contains(&b)
}

fn is_plain(text: &[u8]) -> bool
    ensures { result ≡ list_all Judge.is_plain_byte text.now }
{
    text.iter().all(|b| is_plain_byte(*b))
}
