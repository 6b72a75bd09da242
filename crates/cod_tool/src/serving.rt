//! Each command, up to its status.
ghost use Rattle.std.specs.Prelude.{◌≡◌, ◌⊎◌, ◌↔◌, ◌≤◌, ◌<◌, [], ◌∷◌, ℕ, Bool, true, false, None, Some, List, length, map, codes, IfOk, string_bytes};
ghost use Rattle.cod_types.specs.Faults.{Rose};
ghost use Rattle.cod_print.specs.Puts.{TakesFront};
ghost use Rattle.cod_script.specs.Text.{canonical_text};
ghost use Rattle.cod_gen.specs.Generated.{generated};
ghost use Rattle.cod_tool.specs.Coefficients.{coefficients_text};
ghost use Rattle.cod_tool.specs.Commands.{command_of};
ghost use Rattle.cod_tool.specs.Fit.{IsFit};
ghost use Rattle.cod_tool.specs.Ends.{run_summary, run_text};
ghost use Rattle.cod_tool.specs.Planned.{check_text, placement_text};
ghost use Rattle.cod_shell.specs.Reading.{ReadsAtMost, ReadsScenario, RefusesText};
ghost use Rattle.cod_shell.specs.Taking.{TakesAll, TakesLine};
ghost use Rattle.cod_tool.specs.Replays.{CanServe, Does, Ran, Refuses, Serves};
ghost use Rattle.cod_tool.specs.Replays.{reads_source, takes_memory};

use crate::command::{Command, Purpose};
use crate::running::played;
use crate::{checking, coding, ending, planning};
use cod_code::Code;
use cod_gen::generate;
use cod_io::{Sink, Source};
use cod_region::Shelf;
use cod_scenario::ScenarioError;
use cod_script::Scenario;
use cod_shell::input::{InputError, all};
use cod_shell::refusing::{refuse, refuse_text};
use cod_shell::{BAD_WORDS, DONE, NO_MEMORY, REFUSED, SINK_FAILED, SOURCE_FAILED};
use std::alloc::Global;

/// Replays a scenario and prints what happened.
fn replay<W: Sink, H: Shelf + Drop>(alloc: Global, scenario: Scenario, shelf: H, sink: &mut W) -> u8
    ensures done { result ≡ DONE → Ran (H.regions shelf) scenario run_text (TakesAll (W.taken sink.old) (W.taken sink.new)) }
    ensures quiet { result ≡ DONE → W.fault_count sink.new ≡ W.fault_count sink.old }
    ensures failed { result ≡ SINK_FAILED → Rose (W.fault_count sink.old) (W.fault_count sink.new) }
    ensures front { result ≡ SINK_FAILED → Ran (H.regions shelf) scenario run_text (TakesFront (W.taken sink.old) (W.taken sink.new)) }
    ensures memory { result ≡ NO_MEMORY → (W.taken sink.new ≡ W.taken sink.old) × (W.fault_count sink.new ≡ W.fault_count sink.old) }
    ensures statuses { (result ≡ DONE) ⊎ ((result ≡ SINK_FAILED) ⊎ (result ≡ NO_MEMORY)) }
{
    match played(alloc, scenario, shelf) {
        Ok(replay) => match ending::print(sink, &replay) {
            Ok(()) => DONE,
            Err(_) => SINK_FAILED,
        },
        Err(_) => NO_MEMORY,
    }
}

/// Replays a scenario and prints how much happened.
fn summarize<W: Sink, H: Shelf + Drop>(
    alloc: Global,
    scenario: Scenario,
    shelf: H,
    sink: &mut W,
) -> u8
    ensures done { result ≡ DONE → Ran (H.regions shelf) scenario run_summary (TakesAll (W.taken sink.old) (W.taken sink.new)) }
    ensures quiet { result ≡ DONE → W.fault_count sink.new ≡ W.fault_count sink.old }
    ensures failed { result ≡ SINK_FAILED → Rose (W.fault_count sink.old) (W.fault_count sink.new) }
    ensures front { result ≡ SINK_FAILED → Ran (H.regions shelf) scenario run_summary (TakesFront (W.taken sink.old) (W.taken sink.new)) }
    ensures memory { result ≡ NO_MEMORY → (W.taken sink.new ≡ W.taken sink.old) × (W.fault_count sink.new ≡ W.fault_count sink.old) }
    ensures statuses { (result ≡ DONE) ⊎ ((result ≡ SINK_FAILED) ⊎ (result ≡ NO_MEMORY)) }
{
    match played(alloc, scenario, shelf) {
        Ok(replay) => match cod_text::summary(sink, replay.stripes()) {
            Ok(()) => DONE,
            Err(_) => SINK_FAILED,
        },
        Err(_) => NO_MEMORY,
    }
}

/// Prints how much a scenario asks for.
fn check<W: Sink>(scenario: &Scenario, sink: &mut W) -> u8
    requires { IsFit scenario.now }
    ensures done { result ≡ DONE → TakesAll (W.taken sink.old) (W.taken sink.new) (check_text scenario.now) }
    ensures quiet { result ≡ DONE → W.fault_count sink.new ≡ W.fault_count sink.old }
    ensures failed { result ≡ SINK_FAILED → Rose (W.fault_count sink.old) (W.fault_count sink.new) }
    ensures front { result ≡ SINK_FAILED → TakesFront (W.taken sink.old) (W.taken sink.new) (check_text scenario.now) }
    ensures statuses { (result ≡ DONE) ⊎ (result ≡ SINK_FAILED) }
{
    match checking::print(sink, scenario) {
        Ok(_) => DONE,
        Err(_) => SINK_FAILED,
    }
}

/// Prints where the columns of a scenario stand at first.
fn plan<W: Sink>(scenario: &Scenario, sink: &mut W) -> u8
    requires { IsFit scenario.now }
    ensures done { result ≡ DONE → TakesAll (W.taken sink.old) (W.taken sink.new) (placement_text scenario.now) }
    ensures quiet { result ≡ DONE → W.fault_count sink.new ≡ W.fault_count sink.old }
    ensures failed { result ≡ SINK_FAILED → Rose (W.fault_count sink.old) (W.fault_count sink.new) }
    ensures front { result ≡ SINK_FAILED → TakesFront (W.taken sink.old) (W.taken sink.new) (placement_text scenario.now) }
    ensures statuses { (result ≡ DONE) ⊎ (result ≡ SINK_FAILED) }
{
    match planning::print(sink, scenario) {
        Ok(_) => DONE,
        Err(_) => SINK_FAILED,
    }
}

/// Does what a scenario was read for.
fn serve<W: Sink, H: Shelf + Drop>(
    alloc: Global,
    purpose: Purpose,
    scenario: Scenario,
    shelf: H,
    sink: &mut W,
) -> u8
    requires { IsFit scenario }
    ensures done { result ≡ DONE → Serves (H.regions shelf) purpose (TakesAll (W.taken sink.old) (W.taken sink.new)) scenario }
    ensures quiet { result ≡ DONE → W.fault_count sink.new ≡ W.fault_count sink.old }
    ensures failed { result ≡ SINK_FAILED → Rose (W.fault_count sink.old) (W.fault_count sink.new) }
    ensures front { result ≡ SINK_FAILED → Serves (H.regions shelf) purpose (TakesFront (W.taken sink.old) (W.taken sink.new)) scenario }
    ensures memory { result ≡ NO_MEMORY → (W.taken sink.new ≡ W.taken sink.old) × (W.fault_count sink.new ≡ W.fault_count sink.old) }
    ensures statuses { (result ≡ DONE) ⊎ ((result ≡ SINK_FAILED) ⊎ (result ≡ NO_MEMORY)) }
{
    match purpose {
        Purpose::Replay => replay(alloc, scenario, shelf, sink),
        Purpose::Summary => summarize(alloc, scenario, shelf, sink),
        Purpose::Check => check(&scenario, sink),
        Purpose::Plan => plan(&scenario, sink),
    }
}

/// Reads the scenario of the source, and does what it is read for.
fn serve_text<S: Source, W: Sink, H: Shelf + Drop>(
    alloc: Global,
    purpose: Purpose,
    source: &mut S,
    sink: &mut W,
    shelf: H,
) -> u8
    ensures done { result ≡ DONE → ReadsScenario (Serves (H.regions shelf) purpose (TakesAll (W.taken sink.old) (W.taken sink.new))) (S.left source.old)
        (S.left source.new) }
    ensures quiet { result ≡ DONE → W.fault_count sink.new ≡ W.fault_count sink.old }
    ensures refused { result ≡ REFUSED
        → RefusesText (S.left source.old) (S.left source.new) (TakesLine (W.taken sink.old) (W.taken sink.new) (W.fault_count sink.old)
        (W.fault_count sink.new)) }
    ensures most { ReadsAtMost 16777217 (S.left source.old) (S.left source.new) }
    ensures source_failed { result ≡ SOURCE_FAILED → Rose (S.fault_count source.old) (S.fault_count source.new) }
    ensures sink_failed { result ≡ SINK_FAILED → Rose (W.fault_count sink.old) (W.fault_count sink.new) }
    ensures front { result ≡ SINK_FAILED → ReadsScenario (Serves (H.regions shelf) purpose (TakesFront (W.taken sink.old) (W.taken sink.new)))
        (S.left source.old) (S.left source.new) }
    ensures nothing { (result ≡ SOURCE_FAILED) ⊎ (result ≡ NO_MEMORY)
        → (W.taken sink.new ≡ W.taken sink.old) × (W.fault_count sink.new ≡ W.fault_count sink.old) }
    ensures statuses { (result ≡ DONE) ⊎ ((result ≡ REFUSED) ⊎ ((result ≡ SOURCE_FAILED) ⊎ ((result ≡ SINK_FAILED) ⊎ (result ≡ NO_MEMORY)))) }
{
    let text = match all(alloc, source) {
        Ok(text) => text,
        Err(InputError::Failed) => return SOURCE_FAILED,
        Err(InputError::Memory) => return NO_MEMORY,
    };
    let read = cod_scenario::read(alloc, text.as_slice());
    drop(text);
    match read {
        Ok(scenario) => serve(alloc, purpose, scenario, shelf, sink),
        Err(ScenarioError::OutOfMemory) => NO_MEMORY,
        Err(ScenarioError::Refused { line, why }) => {
            refuse_text(sink, line, why);
            REFUSED
        }
    }
}

/// Prints the coefficients of a code.
fn print_code<W: Sink>(sink: &mut W, code: &Code) -> u8
    ensures done { result ≡ DONE → TakesAll (W.taken sink.old) (W.taken sink.new) (coefficients_text code.now.n code.now.k) }
    ensures quiet { result ≡ DONE → W.fault_count sink.new ≡ W.fault_count sink.old }
    ensures failed { result ≡ SINK_FAILED → Rose (W.fault_count sink.old) (W.fault_count sink.new) }
    ensures front { result ≡ SINK_FAILED → TakesFront (W.taken sink.old) (W.taken sink.new) (coefficients_text code.now.n code.now.k) }
    ensures statuses { (result ≡ DONE) ⊎ (result ≡ SINK_FAILED) }
{
    match coding::print(sink, code) {
        Ok(_) => DONE,
        Err(_) => SINK_FAILED,
    }
}

/// Prints the scenario that a number gives.
fn print_generated<W: Sink>(alloc: Global, sink: &mut W, number: u32) -> u8
    ensures done { result ≡ DONE → TakesAll (W.taken sink.old) (W.taken sink.new) (canonical_text (generated number)) }
    ensures quiet { result ≡ DONE → W.fault_count sink.new ≡ W.fault_count sink.old }
    ensures failed { result ≡ SINK_FAILED → Rose (W.fault_count sink.old) (W.fault_count sink.new) }
    ensures front { result ≡ SINK_FAILED → TakesFront (W.taken sink.old) (W.taken sink.new) (canonical_text (generated number)) }
    ensures memory { result ≡ NO_MEMORY → (W.taken sink.new ≡ W.taken sink.old) × (W.fault_count sink.new ≡ W.fault_count sink.old) }
    ensures statuses { (result ≡ DONE) ⊎ ((result ≡ SINK_FAILED) ⊎ (result ≡ NO_MEMORY)) }
{
    match generate(alloc, number) {
        Ok(scenario) => match scenario.write(sink) {
            Ok(()) => DONE,
            Err(_) => SINK_FAILED,
        },
        Err(_) => NO_MEMORY,
    }
}

/// Replays the scenario that a number gives, and prints how much happened.
fn load<W: Sink, H: Shelf + Drop>(alloc: Global, number: u32, shelf: H, sink: &mut W) -> u8
    ensures done { result ≡ DONE → Ran (H.regions shelf) (generated number) run_summary (TakesAll (W.taken sink.old) (W.taken sink.new)) }
    ensures quiet { result ≡ DONE → W.fault_count sink.new ≡ W.fault_count sink.old }
    ensures failed { result ≡ SINK_FAILED → Rose (W.fault_count sink.old) (W.fault_count sink.new) }
    ensures front { result ≡ SINK_FAILED → Ran (H.regions shelf) (generated number) run_summary (TakesFront (W.taken sink.old) (W.taken sink.new)) }
    ensures memory { result ≡ NO_MEMORY → (W.taken sink.new ≡ W.taken sink.old) × (W.fault_count sink.new ≡ W.fault_count sink.old) }
    ensures statuses { (result ≡ DONE) ⊎ ((result ≡ SINK_FAILED) ⊎ (result ≡ NO_MEMORY)) }
{
    match generate(alloc, number) {
        Ok(scenario) => summarize(alloc, scenario, shelf, sink),
        Err(_) => NO_MEMORY,
    }
}

/// Does what the words ask, those after the program's name, over regions of this shelf. What is printed may still wait in the sink.
pub fn perform<S: Source, W: Sink, H: Shelf + Drop>(
    alloc: Global,
    words: &[String],
    source: &mut S,
    sink: &mut W,
    shelf: H,
) -> u8
    ensures done { (c : _) → command_of (map (λ w. string_bytes w) words.now) ≡ Some c
        → result ≡ DONE → Does (H.regions shelf) c (S.left source.old) (S.left source.new) (TakesAll (W.taken sink.old) (W.taken sink.new)) }

    ensures quiet { result ≡ DONE → W.fault_count sink.new ≡ W.fault_count sink.old }
    ensures most { ReadsAtMost 16777217 (S.left source.old) (S.left source.new) }

    ensures words { (result ≡ BAD_WORDS) ↔ (command_of (map (λ w. string_bytes w) words.now) ≡ None) }
    ensures words_line { result ≡ BAD_WORDS → TakesLine (W.taken sink.old) (W.taken sink.new) (W.fault_count sink.old) (W.fault_count sink.new)
        (codes "words\n") }

    ensures refused { (c : _) → command_of (map (λ w. string_bytes w) words.now) ≡ Some c
        → result ≡ REFUSED → Refuses c (S.left source.old) (S.left source.new)
        (TakesLine (W.taken sink.old) (W.taken sink.new) (W.fault_count sink.old) (W.fault_count sink.new)) }

    ensures source_failed { result ≡ SOURCE_FAILED → Rose (S.fault_count source.old) (S.fault_count source.new) }
    ensures sink_failed { result ≡ SINK_FAILED → Rose (W.fault_count sink.old) (W.fault_count sink.new) }
    ensures front { (c : _) → command_of (map (λ w. string_bytes w) words.now) ≡ Some c
        → result ≡ SINK_FAILED → Does (H.regions shelf) c (S.left source.old) (S.left source.new) (TakesFront (W.taken sink.old) (W.taken sink.new)) }
    ensures nothing { (result ≡ SOURCE_FAILED) ⊎ (result ≡ NO_MEMORY)
        → (W.taken sink.new ≡ W.taken sink.old) × (W.fault_count sink.new ≡ W.fault_count sink.old) }
    ensures source { reads_source (command_of (map (λ w. string_bytes w) words.now)) ≡ false
        → ((result ≡ DONE) ⊎ ((result ≡ BAD_WORDS) ⊎ ((result ≡ SINK_FAILED)
        ⊎ ((result ≡ NO_MEMORY) × (takes_memory (command_of (map (λ w. string_bytes w) words.now)) ≡ true)))))
        × ((S.left source.new ≡ S.left source.old) × (S.fault_count source.new ≡ S.fault_count source.old)) }
    ensures complete { (c : _) → command_of (map (λ w. string_bytes w) words.now) ≡ Some c → CanServe c (S.left source.old)
        → (Rose (S.fault_count source.old) (S.fault_count source.new) → ⊥) → (Rose (W.fault_count sink.old) (W.fault_count sink.new) → ⊥)
        → (result ≡ DONE) ⊎ (result ≡ NO_MEMORY) }
    ensures statuses { (result ≡ DONE) ⊎ ((result ≡ BAD_WORDS)
        ⊎ ((result ≡ REFUSED) ⊎ ((result ≡ SOURCE_FAILED) ⊎ ((result ≡ SINK_FAILED) ⊎ (result ≡ NO_MEMORY))))) }
{
    match Command::of(words) {
        Some(Command::Scenario(purpose)) => serve_text(alloc, purpose, source, sink, shelf),
        Some(Command::Code { n, k }) => print_code(sink, &Code::new(n, k)),
        Some(Command::Gen(number)) => print_generated(alloc, sink, number),
        Some(Command::Load(number)) => load(alloc, number, shelf, sink),
        None => {
            refuse(sink, b"words\n");
            BAD_WORDS
        }
    }
}
