//! The memory of a call.
ghost use Rattle.std.specs.Prelude.{◌≡◌, ◌+◌, ◌-◌, ◌≤◌, ◌<◌, ℕ, List, [], All, map, None, Some, IsSome, IfOk, IfSome, MatchOption, true, false, is_some};
ghost use Rattle.std.specs.Prelude.{if◌then◌else◌, replicate, slice_set, length};
ghost use Rattle.std.specs.Option.{option_map};
ghost use Rattle.cod_types.specs.Plain.{refusal};
ghost use Rattle.cod_types.specs.Overwritten.{overwritten};
ghost use Rattle.cod_claims.specs.Changes.{Change, LiesInside, joined, blank, made};
ghost use Rattle.cod_claims.specs.Slips.{AreWhole, IsPaper, buffers_for, change_at, changes_for, changes_of, links_for, prepared, reasons_for};
ghost use Rattle.cod_claims.specs.Slips.{with_bytes, with_made};

use crate::delta::{Delta, blank_deltas};
use cod_chronicle::Link;
use cod_layout::Part;
use cod_types::{Bytes, Call, Geometry, OutOfMemory, Reasons, Reply, refusal};
use std::alloc::Global;
use std::marker::Model;

/// A call with all the memory that it needs until it is answered, and then its reply.
#[derive(Drop)]
pub struct Slip {
    call: Option<Call>,
    links: Vec<Link>,
    deltas: Option<Vec<Delta>>,
    are_made: bool,
    buffers: Option<(Bytes, Bytes)>,
    reasons: Option<(Reasons, Reasons)>,
    reply: Option<Reply>,
}

impl Model for Slip {
    ghost use Rattle.std.specs.Prelude.{◌≡◌, ◌+◌, length, ℕ, Some, List, MatchOption, IfSome};
    ghost use Rattle.std.specs.Option.{option_map};
    ghost use Rattle.cod_types.specs.declared.call.Call.{Call};
    ghost use Rattle.cod_claims.specs.Changes.{Change};
    ghost use Rattle.cod_claims.specs.Slips.{Paper, IsPaper};

    ghost Value = { Paper };

    ghost view = { λ s. record {
      call = s.call;
      links = length s.links.items;
      changes = option_map (λ v. v.items) s.deltas;
      are_made = s.are_made;
      buffers = s.buffers;
      reasons = s.reasons;
      reply = s.reply;
    } };

    ghost invariant = { λ s. IsPaper s.call (option_map (λ v. v.items) s.deltas) };
}

impl Slip {
    /// Takes all memory of a call: its link, three of them for a Rebuild and two for a Drain; the delta of each part of a
    /// Write or a Swap, and a copy of the call that these deltas share; two buffers of the range's length for a Read or a
    /// Swap; and two lists of reasons for a Rebuild or a Drain. Of two, one is for the call's entry and one for its reply.
    /// A call that its own numbers refuse gets its link alone. An Upgrade is for a geometry of version 2 only.
    pub fn prepare(alloc: Global, g: &Geometry, call: Call) -> Result<Slip, OutOfMemory>
        requires { call ≡ Call.Upgrade → g.now.version ≡ 2 }
        ensures { IfOk result (λ s. s ≡ prepared g.now call) }
    {
        let links = links_of(alloc, &call)?;
        let reasons = reasons_of(alloc, &call)?;
        let deltas = deltas_of(alloc, g, &call)?;
        let buffers = buffers_of(alloc, g, &call)?;
        let _most = g.k();
        Ok(Slip {
            call: Some(call),
            links,
            deltas,
            are_made: false,
            buffers,
            reasons,
            reply: None,
        })
    }

    /// The call, until it was taken.
    pub fn call(&self) -> &Call
        requires { IsSome self.now.call }
        ensures { self.now.call ≡ Some result.now }
    {
        match &self.call {
            Some(call) => call,
            None => unreachable!(),
        }
    }

    /// Takes the call, which goes into its entry.
    pub fn take_call(&mut self) -> Call
        requires { IsSome self.old.call }
        ensures call { self.old.call ≡ Some result }
        ensures rest { self.new ≡ record self.old { call = None } }
    {
        match self.call.take() {
            Some(call) => call,
            None => unreachable!(),
        }
    }

    /// Takes one link.
    pub fn take_link(&mut self) -> Link
        requires { 0 < self.old.links }
        ensures { self.new ≡ record self.old { links = self.old.links - 1 } }
    {
        match self.links.pop() {
            Some(link) => link,
            None => unreachable!(),
        }
    }

    /// How many deltas there are: one for each part, until they are claimed.
    pub fn deltas(&self) -> usize
        ensures { result ≡ length (changes_of self.now) }
    {
        match &self.deltas {
            Some(deltas) => deltas.len(),
            None => 0,
        }
    }

    /// The part of a delta.
    pub fn part(&self, i: usize) -> Part
        requires { i < length (changes_of self.now) }
        ensures { result ≡ (change_at (changes_of self.now) i).part }
    {
        match &self.deltas {
            Some(deltas) => {
                let delta = &deltas[i];
                delta.part()
            }
            None => unreachable!(),
        }
    }

    /// Takes a delta's bytes out, to be filled with the old bytes of its part.
    pub fn take_bytes(&mut self, i: usize) -> Vec<u8>
        requires there { i < length (changes_of self.old) }
        requires early { self.old.are_made ≡ false }
        ensures bytes { result.items ≡ (change_at (changes_of self.old) i).bytes }
        ensures rest { self.new ≡ with_bytes i [] self.old }
    {
        match &mut self.deltas {
            Some(deltas) => {
                let delta = &mut deltas[i];
                delta.take()
            }
            None => unreachable!(),
        }
    }

    /// Puts a delta's bytes back.
    pub fn put_bytes(&mut self, i: usize, bytes: Vec<u8>)
        requires there { i < length (changes_of self.old) }
        requires early { self.old.are_made ≡ false }
        ensures { self.new ≡ with_bytes i bytes.items self.old }
    {
        match &mut self.deltas {
            Some(deltas) => {
                let delta = &mut deltas[i];
                delta.put(bytes);
            }
            None => unreachable!(),
        }
    }

    /// Makes the deltas, which hold the old bytes of their parts, by adding the call's new bytes.
    pub fn make_deltas(&mut self)
        requires call { IsSome self.old.call }
        requires changes { IsSome self.old.changes }
        requires once { self.old.are_made ≡ false }
        requires whole { AreWhole (changes_of self.old) }
        ensures { self.new ≡ with_made self.old }
    {
        match &mut self.deltas {
            Some(deltas) => make_each(deltas),
            None => unreachable!(),
        }
        self.are_made = true;
    }

    /// Takes the deltas that are made.
    pub(crate) fn take_deltas(&mut self) -> Vec<Delta>
        requires { IsSome self.old.changes }
        ensures deltas { result.items ≡ changes_of self.old }
        ensures are { IsPaper self.old.call self.old.changes }
        ensures rest { self.new ≡ record self.old { changes = None } }
    {
        match self.deltas.take() {
            Some(deltas) => deltas,
            None => unreachable!(),
        }
    }

    /// Takes both buffers.
    pub fn take_buffers(&mut self) -> (Bytes, Bytes)
        requires { IsSome self.old.buffers }
        ensures buffers { self.old.buffers ≡ Some result }
        ensures rest { self.new ≡ record self.old { buffers = None } }
    {
        match self.buffers.take() {
            Some(buffers) => buffers,
            None => unreachable!(),
        }
    }

    /// Takes both buffers, each with the bytes that the deltas hold, end to end. Before the deltas are made these are the
    /// old bytes of a Swap's range.
    pub fn take_found(&mut self) -> (Bytes, Bytes)
        requires buffers { IsSome self.old.buffers }
        requires early { self.old.are_made ≡ false }
        requires fits { let most = length (joined (changes_of self.old)) in IfSome self.old.buffers (λ bs. (length bs.0 ≡ most) × (length bs.1 ≡ most)) }
        ensures found { (result.0 ≡ joined (changes_of self.old)) × (result.1 ≡ joined (changes_of self.old)) }
        ensures rest { self.new ≡ record self.old { buffers = None } }
    {
        let (first, second) = self.take_buffers();
        match &self.deltas {
            Some(deltas) => (filled(deltas, first), filled(deltas, second)),
            None => (first, second),
        }
    }

    /// Takes both lists of reasons.
    pub fn take_reasons(&mut self) -> (Reasons, Reasons)
        requires { IsSome self.old.reasons }
        ensures reasons { self.old.reasons ≡ Some result }
        ensures rest { self.new ≡ record self.old { reasons = None } }
    {
        match self.reasons.take() {
            Some(reasons) => reasons,
            None => unreachable!(),
        }
    }

    /// Puts both lists of reasons back, for a later try.
    pub fn put_reasons(&mut self, reasons: (Reasons, Reasons))
        requires { self.old.reasons ≡ None }
        ensures { self.new ≡ record self.old { reasons = Some reasons } }
    {
        self.reasons = Some(reasons);
    }

    /// Answers the call.
    pub fn set_reply(&mut self, reply: Reply)
        requires { self.old.reply ≡ None }
        ensures { self.new ≡ record self.old { reply = Some reply } }
    {
        self.reply = Some(reply);
    }

    /// The reply. None exactly where the call wasn't answered yet.
    pub fn reply(&self) -> Option<&Reply>
        ensures { MatchOption result (self.now.reply ≡ None) (λ r. self.now.reply ≡ Some r.now) }
    {
        self.reply.as_ref()
    }

    /// Takes the reply out, if the call was answered.
    pub fn take_reply(&mut self) -> Option<Reply>
        ensures reply { result ≡ self.old.reply }
        ensures rest { self.new ≡ record self.old { reply = None } }
    {
        self.reply.take()
    }
}

fn make_each(deltas: &mut [Delta])
    requires whole { AreWhole deltas.old }
    requires inside { All LiesInside deltas.old }
    ensures { deltas.new ≡ map made deltas.old }
{
    for delta in deltas.iter_mut() {
        delta.make();
    }
}

/// The bytes of all deltas, end to end, in a buffer of their length.
fn filled(deltas: &[Delta], buffer: Bytes) -> Bytes
    requires { length buffer ≡ length (joined deltas.now) }
    ensures { result ≡ joined deltas.now }
{
    let mut bytes = buffer.into_vec();
    join(deltas, &mut bytes);
    Bytes::from_vec(bytes)
}

fn join(deltas: &[Delta], into: &mut [u8])
    requires { length into.old ≡ length (joined deltas.now) }
    ensures { into.new ≡ joined deltas.now }
{
    let mut at = 0;
    for delta in deltas {
        let piece = delta.bytes();
        write_at(into, at, piece);
        at += piece.len();
    }
}

#[tactic(auto, using(cod_types::proofs::Replaced::put_mid_is))]
fn write_at(into: &mut [u8], at: usize, piece: &[u8])
    requires { at + length piece.now ≤ length into.old }
    ensures { into.new ≡ overwritten at piece.now into.old }
{
    let end = at + piece.len();
    into[at..end].copy_from_slice(piece);
}

/// How many entries a call may need.
fn links_for(call: &Call) -> u8
    ensures { result ≡ links_for call.now }
{
    match call {
        Call::Rebuild => 3,
        Call::Drain { .. } => 2,
        _ => 1,
    }
}

fn links_of(alloc: Global, call: &Call) -> Result<Vec<Link>, OutOfMemory>
    ensures { IfOk result (λ ls. length ls.items ≡ links_for call.now) }
{
    let count = links_for(call);
    let mut links = Vec::new(alloc);
    'each: for _ in 0..count {
        links.push(Link::new(alloc)?)?;
    }
    Ok(links)
}

fn deltas_of(alloc: Global, g: &Geometry, call: &Call) -> Result<Option<Vec<Delta>>, OutOfMemory>
    ensures { IfOk result (λ ds. option_map (λ v. v.items) ds ≡ (if is_some (refusal g.now call.now) then None else changes_for g.now call.now)) }
{
    if refusal(g, call).is_some() {
        return Ok(None);
    }
    let _most = g.bytes();
    match call {
        Call::Write { off, bytes } => {
            let len = bytes.as_slice().len() as u32;
            Ok(Some(blank_deltas(alloc, g, call, *off, len)?))
        }
        Call::Swap { off, new, .. } => {
            let len = new.as_slice().len() as u32;
            Ok(Some(blank_deltas(alloc, g, call, *off, len)?))
        }
        _ => Ok(None),
    }
}

fn buffers_of(
    alloc: Global,
    g: &Geometry,
    call: &Call,
) -> Result<Option<(Bytes, Bytes)>, OutOfMemory>
    ensures { IfOk result (λ bs. bs ≡ (if is_some (refusal g.now call.now) then None else buffers_for call.now)) }
{
    if refusal(g, call).is_some() {
        return Ok(None);
    }
    let _most = g.bytes();
    let len = match call {
        Call::Read { len, .. } => *len,
        Call::Swap { old, .. } => old.as_slice().len() as u32,
        _ => return Ok(None),
    };
    Ok(Some((Bytes::fill(alloc, 0, len)?, Bytes::fill(alloc, 0, len)?)))
}

fn reasons_of(alloc: Global, call: &Call) -> Result<Option<(Reasons, Reasons)>, OutOfMemory>
    ensures { IfOk result (λ rs. rs ≡ reasons_for call.now) }
{
    match call {
        Call::Rebuild | Call::Drain { .. } => {
            Ok(Some((Reasons::new(alloc)?, Reasons::new(alloc)?)))
        }
        _ => Ok(None),
    }
}
