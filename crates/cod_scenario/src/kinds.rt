//! What the words after the first one say.
ghost use Rattle.std.specs.Prelude.{◌≡◌, map, OnOk, length, true};
ghost use Rattle.cod_words.specs.Words.{is_name};
ghost use Rattle.cod_scenario.specs.Lines;
ghost use Rattle.cod_scenario.specs.Judge;
ghost use Rattle.cod_scenario.specs.Judge.{Gives};

use crate::fields::{data, field, known, new_name, node, number};
use crate::names::Names;
use crate::refusal::{LineError, Refusal};
use crate::said::{Header, Keyword, Said, Turns, Verb};
use cod_script::{Name, What};
use cod_types::{Call, NodeId, SegId};
use std::alloc::Global;

fn counted(ws: &[&[u8]], n: usize) -> Result<(), Refusal>
    ensures value { result ≡ Judge.counted (map (λ w. w.now) ws.now) n }
    ensures count { OnOk result (length ws.now ≡ n) }
{
    if ws.len() == n {
        Ok(())
    } else {
        Err(Refusal::Count)
    }
}

#[tactic(auto, unfolding(crate::specs::Judge::codfs_line))]
pub fn codfs_line(ws: &[&[u8]]) -> Result<Said, Refusal>
    ensures { result ≡ Judge.codfs_line (map (λ w. w.now) ws.now) }
{
    counted(ws, 1)?;
    let version = field(1, 2, ws[0])?;
    Ok(Said::Codfs(version as u8))
}

#[tactic(auto, unfolding(crate::specs::Judge::nodes_line))]
pub fn nodes_line(ws: &[&[u8]]) -> Result<Said, Refusal>
    ensures { result ≡ Judge.nodes_line (map (λ w. w.now) ws.now) }
{
    counted(ws, 2)?;
    let nodes = field(1, 64, ws[0])?;
    let capacity = field(1, u64::from(u32::MAX), ws[1])?;
    Ok(Said::Nodes {
        nodes: nodes as u8,
        capacity,
    })
}

#[tactic(auto, unfolding(crate::specs::Judge::code_line))]
pub fn code_line(h: &Header, ws: &[&[u8]]) -> Result<Said, Refusal>
    ensures { result ≡ Judge.code_line h.now (map (λ w. w.now) ws.now) }
{
    counted(ws, 2)?;
    let n = field(1, u64::from(h.nodes.min(16)), ws[0])?;
    let k = field(1, u64::from(n), ws[1])?;
    Ok(Said::Code {
        n: n as u8,
        k: k as u8,
    })
}

/// The one number of a line, within its limits.
#[tactic(auto, unfolding(crate::specs::Judge::only_field))]
fn only_field(low: u64, high: u64, ws: &[&[u8]]) -> Result<u32, Refusal>
    ensures { result ≡ Judge.only_field low high (map (λ w. w.now) ws.now) }
{
    counted(ws, 1)?;
    field(low, high, ws[0])
}

/// The one new name of a line, where there are fewer than `most`.
#[tactic(auto, unfolding(crate::specs::Judge::added_name))]
fn added_name(most: usize, names: &Names, ws: &[&[u8]]) -> Result<(), Refusal>
    ensures value { result ≡ Judge.added_name most names.now (map (λ w. w.now) ws.now) }
    ensures count { OnOk result (length ws.now ≡ 1) }
    ensures name { OnOk result (is_name (Judge.word (map (λ w. w.now) ws.now) 0) ≡ true) }
{
    counted(ws, 1)?;
    new_name(names, ws[0])?;
    if names.len() < most {
        Ok(())
    } else {
        Err(Refusal::Field)
    }
}

#[tactic(auto, unfolding(crate::specs::Judge::segment_line))]
pub fn segment_line(alloc: Global, names: &Names, ws: &[&[u8]]) -> Result<Said, LineError>
    ensures { Gives (λ x. x) result (Judge.segment_line names.now (map (λ w. w.now) ws.now)) }
{
    added_name(1024, names, ws)?;
    Ok(Said::Segment(Name::copy(alloc, ws[0])?))
}

#[tactic(auto, unfolding(crate::specs::Judge::client_line))]
pub fn client_line(alloc: Global, names: &Names, ws: &[&[u8]]) -> Result<Said, LineError>
    ensures { Gives (λ x. x) result (Judge.client_line names.now (map (λ w. w.now) ws.now)) }
{
    added_name(64, names, ws)?;
    Ok(Said::Client(Name::copy(alloc, ws[0])?))
}

#[tactic(auto, unfolding(crate::specs::Judge::read_line))]
pub fn read_line(names: &Names, ws: &[&[u8]]) -> Result<What, Refusal>
    ensures { result ≡ Judge.read_line names.now (map (λ w. w.now) ws.now) }
{
    counted(ws, 3)?;
    let seg = known(names, ws[0])?;
    let off = number(ws[1])?;
    let len = number(ws[2])?;
    Ok(What::Segment {
        seg: SegId(seg),
        call: Call::Read { off, len },
    })
}

#[tactic(auto, unfolding(crate::specs::Judge::write_line))]
pub fn write_line(alloc: Global, names: &Names, ws: &[&[u8]]) -> Result<What, LineError>
    ensures { Gives (λ x. x) result (Judge.write_line names.now (map (λ w. w.now) ws.now)) }
{
    counted(ws, 3)?;
    let seg = known(names, ws[0])?;
    let off = number(ws[1])?;
    let bytes = data(alloc, ws[2])?;
    Ok(What::Segment {
        seg: SegId(seg),
        call: Call::Write { off, bytes },
    })
}

#[tactic(auto, unfolding(crate::specs::Judge::swap_line))]
pub fn swap_line(alloc: Global, names: &Names, ws: &[&[u8]]) -> Result<What, LineError>
    ensures { Gives (λ x. x) result (Judge.swap_line names.now (map (λ w. w.now) ws.now)) }
{
    counted(ws, 4)?;
    let seg = known(names, ws[0])?;
    let off = number(ws[1])?;
    let old = data(alloc, ws[2])?;
    let new = data(alloc, ws[3])?;
    Ok(What::Segment {
        seg: SegId(seg),
        call: Call::Swap { off, old, new },
    })
}

#[tactic(auto, unfolding(crate::specs::Judge::put_line))]
pub fn put_line(alloc: Global, names: &Names, ws: &[&[u8]]) -> Result<What, LineError>
    ensures { Gives (λ x. x) result (Judge.put_line names.now (map (λ w. w.now) ws.now)) }
{
    counted(ws, 2)?;
    let seg = known(names, ws[0])?;
    let bytes = data(alloc, ws[1])?;
    Ok(What::Segment {
        seg: SegId(seg),
        call: Call::Put { bytes },
    })
}

#[tactic(auto, unfolding(crate::specs::Judge::plain_line))]
pub fn plain_line(call: Call, names: &Names, ws: &[&[u8]]) -> Result<What, Refusal>
    ensures { result ≡ Judge.plain_line call names.now (map (λ w. w.now) ws.now) }
{
    counted(ws, 1)?;
    let seg = known(names, ws[0])?;
    Ok(What::Segment {
        seg: SegId(seg),
        call,
    })
}

#[tactic(auto, unfolding(crate::specs::Judge::drain_line))]
pub fn drain_line(nodes: u8, names: &Names, ws: &[&[u8]]) -> Result<What, Refusal>
    ensures { result ≡ Judge.drain_line nodes names.now (map (λ w. w.now) ws.now) }
{
    counted(ws, 2)?;
    let seg = known(names, ws[0])?;
    let node = node(nodes, ws[1])?;
    Ok(What::Segment {
        seg: SegId(seg),
        call: Call::Drain { node: NodeId(node) },
    })
}

#[tactic(auto, unfolding(crate::specs::Judge::fail_line))]
pub fn fail_line(nodes: u8, ws: &[&[u8]]) -> Result<What, Refusal>
    ensures { result ≡ Judge.fail_line nodes (map (λ w. w.now) ws.now) }
{
    counted(ws, 1)?;
    let node = node(nodes, ws[0])?;
    Ok(What::Fail { node: NodeId(node) })
}

#[tactic(auto, unfolding(crate::specs::Judge::care_line))]
pub fn care_line(ws: &[&[u8]]) -> Result<Said, Refusal>
    ensures { result ≡ Judge.care_line (map (λ w. w.now) ws.now) }
{
    counted(ws, 2)?;
    let workers = field(0, 16, ws[0])?;
    let rounds = field(0, 65536, ws[1])?;
    Ok(Said::Care { workers, rounds })
}

#[tactic(auto, unfolding(crate::specs::Judge::end_line))]
pub fn end_line(ws: &[&[u8]]) -> Result<Said, Refusal>
    ensures { result ≡ Judge.end_line (map (λ w. w.now) ws.now) }
{
    counted(ws, 0)?;
    Ok(Said::End)
}

#[tactic(auto, unfolding(crate::specs::Judge::what_says))]
pub fn what_says(
    alloc: Global,
    h: &Header,
    segments: &Names,
    verb: Verb,
    ws: &[&[u8]],
) -> Result<What, LineError>
    ensures { Gives (λ x. x) result (Judge.what_says h.now segments.now verb (map (λ w. w.now) ws.now)) }
{
    match verb {
        Verb::Read => Ok(read_line(segments, ws)?),
        Verb::Write => write_line(alloc, segments, ws),
        Verb::Swap => swap_line(alloc, segments, ws),
        Verb::Put => put_line(alloc, segments, ws),
        Verb::Merge => Ok(plain_line(Call::Merge, segments, ws)?),
        Verb::Tick => Ok(plain_line(Call::Tick, segments, ws)?),
        Verb::Rebuild => Ok(plain_line(Call::Rebuild, segments, ws)?),
        Verb::Upgrade => Ok(plain_line(Call::Upgrade, segments, ws)?),
        Verb::Drain => Ok(drain_line(h.nodes, segments, ws)?),
        Verb::Fail => Ok(fail_line(h.nodes, ws)?),
    }
}

#[tactic(auto, unfolding(crate::specs::Judge::does_line))]
fn does_line(
    alloc: Global,
    h: &Header,
    segments: &Names,
    line: u32,
    verb: Verb,
    ws: &[&[u8]],
) -> Result<Said, LineError>
    ensures { Gives (λ x. x) result (Judge.does_line h.now segments.now line verb (map (λ w. w.now) ws.now)) }
{
    let what = what_says(alloc, h, segments, verb, ws)?;
    Ok(Said::Does { line, what })
}

/// The clients that the words name.
pub fn each_known(alloc: Global, names: &Names, ws: &[&[u8]]) -> Result<Vec<u32>, LineError>
    ensures { Gives (λ x. x.items) result (Judge.each_known names.now (map (λ w. w.now) ws.now)) }
{
    let mut turns = Vec::new(alloc);
    for w in ws {
        let turn = known(names, w)?;
        turns.push(turn)?;
    }
    Ok(turns)
}

#[tactic(auto, unfolding(crate::specs::Judge::schedule_line))]
fn schedule_line(alloc: Global, names: &Names, ws: &[&[u8]]) -> Result<Said, LineError>
    ensures { Gives (λ x. x) result (Judge.schedule_line names.now (map (λ w. w.now) ws.now)) }
{
    if ws.is_empty() {
        return Err(LineError::Refused(Refusal::Count));
    }
    let turns = each_known(alloc, names, ws)?;
    Ok(Said::Schedule(Turns::of(turns)))
}

/// The least that `reserve` may be.
fn floor(h: &Header) -> u64
    ensures { result ≡ Lines.floor_of h.now }
{
    let head = if h.version == 2 { 21 } else { 19 };
    u64::from(h.k) * (head + u64::from(h.update))
}

fn bytes(h: &Header) -> u64
    ensures { result ≡ Lines.bytes_of h.now }
{
    u64::from(h.k) * u64::from(h.block)
}

/// What the words after the first one say.
#[tactic(auto, unfolding(crate::specs::Judge::rest_says, crate::specs::Judge::field_line))]
pub fn rest_says(
    alloc: Global,
    h: &Header,
    segments: &Names,
    clients: &Names,
    line: u32,
    word: Keyword,
    ws: &[&[u8]],
) -> Result<Said, LineError>
    ensures { Gives (λ x. x) result (Judge.rest_says h.now segments.now clients.now line word (map (λ w. w.now) ws.now)) }
{
    match word {
        Keyword::Codfs => Ok(codfs_line(ws)?),
        Keyword::Nodes => Ok(nodes_line(ws)?),
        Keyword::Code => Ok(code_line(h, ws)?),
        Keyword::Block => Ok(Said::Block(only_field(1, 1_048_576, ws)?)),
        Keyword::Update => Ok(Said::Update(only_field(1, bytes(h).min(65_536), ws)?)),
        Keyword::Reserve => Ok(Said::Reserve(only_field(floor(h), 4_194_304, ws)?)),
        Keyword::Unit => Ok(Said::Unit(only_field(1, u64::from(h.reserve), ws)?)),
        Keyword::Alpha => Ok(Said::Alpha(only_field(0, 10_000, ws)?)),
        Keyword::Segment => segment_line(alloc, segments, ws),
        Keyword::Client => client_line(alloc, clients, ws),
        Keyword::Does(verb) => does_line(alloc, h, segments, line, verb, ws),
        Keyword::Care => Ok(care_line(ws)?),
        Keyword::Schedule => schedule_line(alloc, clients, ws),
        Keyword::End => Ok(end_line(ws)?),
    }
}
