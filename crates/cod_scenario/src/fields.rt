//! Words as numbers, names and nodes, each with its refusals.
ghost use Rattle.std.specs.Prelude.{◌≡◌, ◌≤◌, IfOk, OnOk, true};
ghost use Rattle.cod_words.specs.Words.{is_name};
ghost use Rattle.std.specs.Option.{option_copied};
ghost use Rattle.std.specs.Str.{bytes_eq};
ghost use Rattle.cod_scenario.specs.Judge;
ghost use Rattle.cod_scenario.specs.Judge.{Gives, keyword_of, may_follow, verb_of};

use crate::names::Names;
use crate::refusal::{LineError, Refusal};
use crate::said::{Keyword, Said, Verb};
use cod_types::Bytes;
use cod_words::{DataError, word_data, word_name, word_number};
use std::alloc::Global;

#[tactic(auto, unfolding(crate::specs::Judge::number))]
pub fn number(w: &[u8]) -> Result<u32, Refusal>
    ensures { result ≡ Judge.number w.now }
{
    word_number(w).ok_or(Refusal::Number)
}

/// A number within its limits.
#[tactic(auto, unfolding(crate::specs::Judge::field))]
pub fn field(low: u64, high: u64, w: &[u8]) -> Result<u32, Refusal>
    ensures value { result ≡ Judge.field low high w.now }
    ensures within { IfOk result (λ v. (low ≤ v) × (v ≤ high)) }
{
    let value = number(w)?;
    if u64::from(value) < low || high < u64::from(value) {
        return Err(Refusal::Field);
    }
    Ok(value)
}

/// Which of the names it is.
#[tactic(auto, unfolding(crate::specs::Judge::known))]
pub fn known(names: &Names, w: &[u8]) -> Result<u32, Refusal>
    ensures { result ≡ Judge.known names.now w.now }
{
    if !word_name(w) {
        return Err(Refusal::Name);
    }
    names.find(w).ok_or(Refusal::Unknown)
}

/// A name that is not there yet.
#[tactic(auto, unfolding(crate::specs::Judge::new_name))]
pub fn new_name(names: &Names, w: &[u8]) -> Result<(), Refusal>
    ensures value { result ≡ Judge.new_name names.now w.now }
    ensures name { OnOk result (is_name w.now ≡ true) }
{
    if !word_name(w) {
        return Err(Refusal::Name);
    }
    if names.contains(w) {
        return Err(Refusal::Twice);
    }
    Ok(())
}

/// A node that is there.
#[tactic(auto, unfolding(crate::specs::Judge::node))]
pub fn node(nodes: u8, w: &[u8]) -> Result<u8, Refusal>
    ensures { result ≡ Judge.node nodes w.now }
{
    let value = number(w)?;
    if u32::from(nodes) <= value {
        return Err(Refusal::Node);
    }
    Ok(value as u8)
}

#[tactic(auto, unfolding(crate::specs::Judge::data_word))]
pub fn data(alloc: Global, w: &[u8]) -> Result<Bytes, LineError>
    ensures { Gives (λ x. x) result (Judge.data_word w.now) }
{
    match word_data(alloc, w) {
        Ok(bytes) => Ok(bytes),
        Err(DataError::Data) => Err(LineError::Refused(Refusal::Data)),
        Err(DataError::Field) => Err(LineError::Refused(Refusal::Field)),
        Err(DataError::OutOfMemory) => Err(LineError::OutOfMemory),
    }
}

fn is(w: &[u8], word: &str) -> bool
    ensures { result ≡ bytes_eq w.now word.now }
{
    w == word.as_bytes()
}

/// The word that a line of a client begins with.
fn verb(w: &[u8]) -> Option<Verb>
    ensures { result ≡ verb_of w.now }
{
    if is(w, "read") {
        Some(Verb::Read)
    } else if is(w, "write") {
        Some(Verb::Write)
    } else if is(w, "swap") {
        Some(Verb::Swap)
    } else if is(w, "put") {
        Some(Verb::Put)
    } else if is(w, "merge") {
        Some(Verb::Merge)
    } else if is(w, "tick") {
        Some(Verb::Tick)
    } else if is(w, "rebuild") {
        Some(Verb::Rebuild)
    } else if is(w, "upgrade") {
        Some(Verb::Upgrade)
    } else if is(w, "drain") {
        Some(Verb::Drain)
    } else if is(w, "fail") {
        Some(Verb::Fail)
    } else {
        None
    }
}

/// The word that a line begins with.
pub fn keyword(w: &[u8]) -> Option<Keyword>
    ensures { result ≡ keyword_of w.now }
{
    if is(w, "codfs") {
        Some(Keyword::Codfs)
    } else if is(w, "nodes") {
        Some(Keyword::Nodes)
    } else if is(w, "code") {
        Some(Keyword::Code)
    } else if is(w, "block") {
        Some(Keyword::Block)
    } else if is(w, "update") {
        Some(Keyword::Update)
    } else if is(w, "reserve") {
        Some(Keyword::Reserve)
    } else if is(w, "unit") {
        Some(Keyword::Unit)
    } else if is(w, "alpha") {
        Some(Keyword::Alpha)
    } else if is(w, "segment") {
        Some(Keyword::Segment)
    } else if is(w, "client") {
        Some(Keyword::Client)
    } else if is(w, "care") {
        Some(Keyword::Care)
    } else if is(w, "schedule") {
        Some(Keyword::Schedule)
    } else if is(w, "end") {
        Some(Keyword::End)
    } else {
        match verb(w) {
            Some(verb) => Some(Keyword::Does(verb)),
            None => None,
        }
    }
}

/// Whether a line with this first word may stand after these.
#[tactic(auto, unfolding(crate::specs::Judge::may_follow))]
pub fn follows(version: u8, last: Option<&Said>, word: Keyword) -> bool
    ensures { result ≡ may_follow version (option_copied last.entry) word }
{
    match last {
        None => matches!(word, Keyword::Codfs),
        Some(Said::Codfs(_)) => matches!(word, Keyword::Nodes),
        Some(Said::Nodes { .. }) => matches!(word, Keyword::Code),
        Some(Said::Code { .. }) => matches!(word, Keyword::Block),
        Some(Said::Block(_)) => matches!(word, Keyword::Update),
        Some(Said::Update(_)) => matches!(word, Keyword::Reserve),
        Some(Said::Reserve(_)) => matches!(word, Keyword::Unit),
        Some(Said::Unit(_)) => matches!(word, Keyword::Alpha),
        Some(Said::Alpha(_)) => matches!(word, Keyword::Segment),
        Some(Said::Segment(_)) => matches!(word, Keyword::Segment | Keyword::Client),
        Some(Said::Client(_) | Said::Does { .. }) => match word {
            Keyword::Client | Keyword::Care | Keyword::Schedule | Keyword::End => true,
            Keyword::Does(Verb::Upgrade) => version == 2,
            Keyword::Does(_) => true,
            _ => false,
        },
        Some(Said::Care { .. } | Said::Schedule(_)) => {
            matches!(word, Keyword::Schedule | Keyword::End)
        }
        Some(Said::End) => false,
    }
}

pub fn is_ended(last: Option<&Said>) -> bool
    ensures { result ≡ Judge.is_end (option_copied last.entry) }
{
    matches!(last, Some(Said::End))
}
