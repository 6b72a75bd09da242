//! A text as a scenario, line by line.
ghost use Rattle.std.specs.Prelude.{◌≡◌, ◌+◌, ◌≤◌, ◌^◌, [], length, MatchResult, Ok, Err};
ghost use Rattle.cod_words.specs.Words.{lines_of};
ghost use Rattle.cod_scenario.specs.Judge;
ghost use Rattle.cod_scenario.specs.Judge.{IsRefusalAt};
ghost use Rattle.cod_scenario.specs.Reads.{reads, IsRead};

use crate::reader::Reader;
use crate::refusal::{LineError, Refusal, ScenarioError};
use cod_script::Scenario;
use cod_words::next_line;
use std::alloc::Global;

/// The most bytes of a text.
const MOST_BYTES: usize = 1 << 24;

/// Reads the lines of a text one after the other, up to the first that is refused.
fn all_lines(alloc: Global, text: &[u8]) -> Result<Reader, ScenarioError>
    requires { length text.now ≤ 2 ^ 24 }
    ensures { MatchResult result
        (λ r. (Judge.lines_say [] 1 (lines_of text.now) ≡ Ok r.said) × (r.lines ≡ length (lines_of text.now)))
        (λ e. IsRefusalAt e (Judge.lines_say [] 1 (lines_of text.now))) }
{
    let mut reader = Reader::new(alloc);
    let mut line = 0u32;
    let mut rest = text;
    'lines: while let Some((first, behind)) = next_line(rest) {
        line += 1;
        match reader.line(first) {
            Ok(()) => {}
            Err(LineError::Refused(why)) => return Err(ScenarioError::Refused { line, why }),
            Err(LineError::OutOfMemory) => return Err(ScenarioError::OutOfMemory),
        }
        rest = behind;
    }
    Ok(reader)
}

/// The scenario of a text. It is refused exactly where the text is none, by the first line that may not stand where it
/// does and by the first reason against that line; as line 0 where it has more than 2^24 bytes.
#[tactic(auto, unfolding(crate::specs::Judge::text_says))]
pub fn read(alloc: Global, text: &[u8]) -> Result<Scenario, ScenarioError>
    ensures { IsRead result (reads text.now) }
{
    if MOST_BYTES < text.len() {
        let why = Refusal::TooLong;
        return Err(ScenarioError::Refused { line: 0, why });
    }
    all_lines(alloc, text)?.finish()
}
