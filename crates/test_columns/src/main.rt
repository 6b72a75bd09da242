//! Runs records, policies and columns step by step, and prints what they do: each call of a region with its place and bytes.
//!
//! A line of the input is a step; its words are told at the functions that take it. A line that begins with `#` is a remark,
//! and it and an empty line are printed as they are.
#![tactic(auto)]

mod data;
mod parity;
mod print;
mod records;
mod watched;
mod words;

use data::Data;
use parity::Parity;
use std::io;
use words::Words;

/// The bytes of the longest text, and of a block with its reserved space.
const MOST: usize = 160;

/// The columns that the steps are taken on.
#[derive(Drop)]
struct Stand {
    parity: Option<Parity>,
    data: Option<Data>,
}

fn main(rt: HostRuntime) -> io::Result<()> {
    let mut stand = Stand {
        parity: None,
        data: None,
    };
    for line in rt.lines(rt.alloc()) {
        let line = line?;
        let words = Words::of(line.as_str());
        println!(rt; "{}", line.as_str())?;
        take_step(&rt, &mut stand, &words)?;
    }
    Ok(())
}

/// Takes the step that the words tell.
fn take_step(rt: &HostRuntime, stand: &mut Stand, words: &Words<'_>) -> io::Result<()> {
    match words.name() {
        "column" => stand.parity = Parity::build(rt.alloc(), words),
        "data" => stand.data = Data::build(rt.alloc(), words),
        "record" => return records::write(rt, words),
        "read" => return records::read(rt, words),
        "average" => return records::average(rt, words),
        "target" => return records::shrink(rt, words),
        _ => {}
    }
    if let Some(column) = &mut stand.parity {
        column.take_step(rt, words)?;
    }
    if let Some(column) = &mut stand.data {
        column.take_step(rt, words)?;
    }
    Ok(())
}
