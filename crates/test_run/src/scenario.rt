//! A scenario with every kind of call.
use std::alloc::Global;
use std::test::Fail;

pub(crate) const CLIENTS: u32 = 8;

pub(crate) const SEGMENTS: u32 = 40;

pub(crate) const WORKERS: u32 = 4;
/// The bytes of a segment.
pub(crate) const BYTES: usize = 8;

/// The rounds of each client, and of each care worker.
const ROUNDS: u32 = 10;

const HEADER: &str =
    "codfs 2\nnodes 12 4000\ncode 4 2\nblock 4\nupdate 4\nreserve 60\nunit 4\nalpha 5000\n";

/// The segment of a client's round: two clients share it, and all clients come to all segments.
fn segment_of(client: u32, round: u32) -> u32 {
    round.wrapping_mul(4).wrapping_add(client / 2) % SEGMENTS
}

/// The last call of a client's round. The kinds take turns.
fn last_call(alloc: Global, client: u32, round: u32) -> Result<String, Fail> {
    let seg = segment_of(client, round);
    let two = format!(in alloc; "{client}{round}{round}{client}")?;
    let line = match client.wrapping_mul(3).wrapping_add(round) % 7 {
        0 => format!(in alloc; "put s{seg} {two}{two}{two}{two}\n")?,
        1 => format!(in alloc; "merge s{seg}\n")?,
        2 => format!(in alloc; "tick s{seg}\n")?,
        3 => format!(in alloc; "rebuild s{seg}\n")?,
        4 => format!(in alloc; "upgrade s{seg}\n")?,
        5 => {
            let node = seg.wrapping_add(1) % 12;
            format!(in alloc; "drain s{seg} {node}\n")?
        }
        _ => format!(in alloc; "swap s{seg} 3 ffff {two}\n")?,
    };
    Ok(line)
}

/// The calls of a client's rounds, from the first one given up to the second.
fn calls_from(alloc: Global, client: u32, first: u32, end: u32) -> Result<String, Fail> {
    let mut text = String::new(alloc);
    for round in first..end {
        let seg = segment_of(client, round);
        let off = client % 2;
        let last = last_call(alloc, client, round)?;
        let round_text = format!(in alloc;
            "write s{seg} {off} {client}{round}{round}{client}\nread s{seg} 0 8\nswap s{seg} {off} {client}{round} {round}{client}\n{last}"
        )?;
        text.push_str(&round_text)?;
    }
    Ok(text)
}

/// All calls of a client.
pub(crate) fn calls_of(alloc: Global, client: u32) -> Result<String, Fail> {
    calls_from(alloc, client, 0, ROUNDS)
}

/// The calls of a care worker: in even rounds merges, and in odd ones ticks and rebuilds by turns.
pub(crate) fn care_of(alloc: Global, worker: u32) -> Result<String, Fail> {
    let mut text = String::new(alloc);
    for round in 0..ROUNDS {
        let seg = worker.wrapping_add(round.wrapping_mul(WORKERS)) % SEGMENTS;
        let kind = match round % 4 {
            1 => "tick",
            3 => "rebuild",
            _ => "merge",
        };
        let line = format!(in alloc; "{kind} s{seg}\n")?;
        text.push_str(&line)?;
    }
    Ok(text)
}

/// The text of the scenario. In the midst of the calls of two clients a node is killed.
pub(crate) fn text(alloc: Global) -> Result<String, Fail> {
    let mut text = String::from_str(alloc, HEADER)?;
    for seg in 0..SEGMENTS {
        let line = format!(in alloc; "segment s{seg}\n")?;
        text.push_str(&line)?;
    }
    for client in 0..CLIENTS {
        let fail = match client {
            0 => "fail 3\n",
            5 => "fail 8\n",
            _ => "",
        };
        let before = calls_from(alloc, client, 0, 1)?;
        let behind = calls_from(alloc, client, 1, ROUNDS)?;
        let lines = format!(in alloc; "client c{client}\n{before}{fail}{behind}")?;
        text.push_str(&lines)?;
    }
    let end = format!(in alloc; "care {WORKERS} {ROUNDS}\nend\n")?;
    text.push_str(&end)?;
    Ok(text)
}
