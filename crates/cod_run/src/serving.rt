//! Each command, up to its status.
ghost use Rattle.std.specs.Prelude.{◌≡◌, ◌⊎◌, ◌↔◌, None, Some, map, codes, string_bytes};
ghost use Rattle.cod_types.specs.Faults.{HasCause, Rose};
ghost use Rattle.cod_print.specs.Puts.{Puts, TakesFront};
ghost use Rattle.cod_shell.specs.Reading.{HasScenario, ReadsAtMost, ReadsScenario, RefusesText};
ghost use Rattle.cod_shell.specs.Taking.{TakesAll, TakesLine};
ghost use Rattle.cod_run.specs.Commands.{command_of};
ghost use Rattle.cod_run.specs.Ends.{IsPrintable};
ghost use Rattle.cod_run.specs.Runs.{Serves, text_of};

use crate::command::Command;
use crate::ending;
use crate::threads::played;
use cod_cluster::{Closed, Gate};
use cod_io::{Sink, Source};
use cod_print::WriteFault;
use cod_region::{Region, Shelf};
use cod_scenario::ScenarioError;
use cod_script::Scenario;
use cod_shell::input::{InputError, all};
use cod_shell::refusing::{refuse, refuse_text};
use cod_shell::{BAD_WORDS, DONE, NO_MEMORY, REFUSED, SINK_FAILED, SOURCE_FAILED};
use std::alloc::Global;
use std::sync::Wait;
use std::thread::Threads;

/// Prints what is asked of a run.
fn print<W: Sink, R: Region>(
    sink: &mut W,
    command: Command,
    names: &Scenario,
    closed: &Closed<R>,
) -> Result<(), WriteFault>
    requires { IsPrintable names.now closed.now.stripes.items closed.now.board closed.now.pools }
    ensures text { Puts result (W.taken sink.old) (W.taken sink.new)
        (text_of command names.now (record { segs = closed.now.stripes.items; kills = closed.now.board })) }
    ensures cause { HasCause (W.fault_count sink.old) (W.fault_count sink.new) result }
{
    let stripes = closed.stripes.as_slice();
    match command {
        Command::Run => ending::print(sink, names, stripes, &closed.board, &closed.pools),
        Command::Summary => cod_text::summary(sink, stripes),
    }
}

/// Runs a scenario, and prints what is asked of the run.
fn serve<
    W: Sink,
    R: Region + Send + Sync,
    H: Shelf<Region = R> + Drop + Sync,
    G: Gate + Sync,
    V: Threads + Wait + Sync,
>(
    rt: &V,
    alloc: Global,
    command: Command,
    scenario: Scenario,
    sink: &mut W,
    shelf: H,
    gate: &G,
) -> u8
    ensures done { result ≡ DONE → Serves (H.regions shelf) command (TakesAll (W.taken sink.old) (W.taken sink.new)) scenario }
    ensures quiet { result ≡ DONE → W.fault_count sink.new ≡ W.fault_count sink.old }
    ensures failed { result ≡ SINK_FAILED → Rose (W.fault_count sink.old) (W.fault_count sink.new) }
    ensures front { result ≡ SINK_FAILED → Serves (H.regions shelf) command (TakesFront (W.taken sink.old) (W.taken sink.new)) scenario }
    ensures memory { result ≡ NO_MEMORY → (W.taken sink.new ≡ W.taken sink.old) × (W.fault_count sink.new ≡ W.fault_count sink.old) }
    ensures statuses { (result ≡ DONE) ⊎ ((result ≡ SINK_FAILED) ⊎ (result ≡ NO_MEMORY)) }
{
    let mut scenario = scenario;
    match played(rt, alloc, &mut scenario, shelf, gate) {
        Ok(closed) => match print(sink, command, &scenario, &closed) {
            Ok(()) => DONE,
            Err(_) => SINK_FAILED,
        },
        Err(_) => NO_MEMORY,
    }
}

/// Reads the scenario of the source, and does what it is read for.
fn serve_text<
    S: Source,
    W: Sink,
    R: Region + Send + Sync,
    H: Shelf<Region = R> + Drop + Sync,
    G: Gate + Sync,
    V: Threads + Wait + Sync,
>(rt: &V, alloc: Global, command: Command, source: &mut S, sink: &mut W, shelf: H, gate: &G) -> u8
    ensures done { result ≡ DONE → ReadsScenario (Serves (H.regions shelf) command (TakesAll (W.taken sink.old) (W.taken sink.new))) (S.left source.old)
        (S.left source.new) }
    ensures quiet { result ≡ DONE → W.fault_count sink.new ≡ W.fault_count sink.old }
    ensures refused { result ≡ REFUSED
        → RefusesText (S.left source.old) (S.left source.new) (TakesLine (W.taken sink.old) (W.taken sink.new) (W.fault_count sink.old)
        (W.fault_count sink.new)) }
    ensures most { ReadsAtMost 16777217 (S.left source.old) (S.left source.new) }
    ensures source_failed { result ≡ SOURCE_FAILED → Rose (S.fault_count source.old) (S.fault_count source.new) }
    ensures sink_failed { result ≡ SINK_FAILED → Rose (W.fault_count sink.old) (W.fault_count sink.new) }
    ensures front { result ≡ SINK_FAILED → ReadsScenario (Serves (H.regions shelf) command (TakesFront (W.taken sink.old) (W.taken sink.new)))
        (S.left source.old) (S.left source.new) }
    ensures nothing { (result ≡ SOURCE_FAILED) ⊎ (result ≡ NO_MEMORY)
        → (W.taken sink.new ≡ W.taken sink.old) × (W.fault_count sink.new ≡ W.fault_count sink.old) }
    ensures statuses { (result ≡ DONE) ⊎ ((result ≡ REFUSED) ⊎ ((result ≡ SOURCE_FAILED) ⊎ ((result ≡ SINK_FAILED) ⊎ (result ≡ NO_MEMORY)))) }
{
    let text = match all(alloc, source) {
        Ok(text) => text,
        Err(InputError::Failed) => return SOURCE_FAILED,
        Err(InputError::Memory) => return NO_MEMORY,
    };
    let read = cod_scenario::read(alloc, text.as_slice());
    drop(text);
    match read {
        Ok(scenario) => serve(rt, alloc, command, scenario, sink, shelf, gate),
        Err(ScenarioError::OutOfMemory) => NO_MEMORY,
        Err(ScenarioError::Refused { line, why }) => {
            refuse_text(sink, line, why);
            REFUSED
        }
    }
}

/// Does what the words ask, those after the program's name, over regions of this shelf. What is printed may still wait in the sink.
pub fn perform<
    S: Source,
    W: Sink,
    R: Region + Send + Sync,
    H: Shelf<Region = R> + Drop + Sync,
    G: Gate + Sync,
    V: Threads + Wait + Sync,
>(rt: &V, alloc: Global, words: &[String], source: &mut S, sink: &mut W, shelf: H, gate: &G) -> u8
    ensures done { (c : _) → command_of (map (λ w. string_bytes w) words.now) ≡ Some c → result ≡ DONE
        → ReadsScenario (Serves (H.regions shelf) c (TakesAll (W.taken sink.old) (W.taken sink.new))) (S.left source.old) (S.left source.new) }
    ensures quiet { result ≡ DONE → W.fault_count sink.new ≡ W.fault_count sink.old }
    ensures most { ReadsAtMost 16777217 (S.left source.old) (S.left source.new) }

    ensures words { (result ≡ BAD_WORDS) ↔ (command_of (map (λ w. string_bytes w) words.now) ≡ None) }
    ensures words_line { result ≡ BAD_WORDS → TakesLine (W.taken sink.old) (W.taken sink.new) (W.fault_count sink.old) (W.fault_count sink.new)
        (codes "words\n") }
    ensures unread { result ≡ BAD_WORDS → (S.left source.new ≡ S.left source.old) × (S.fault_count source.new ≡ S.fault_count source.old) }

    ensures refused { result ≡ REFUSED → RefusesText (S.left source.old) (S.left source.new)
        (TakesLine (W.taken sink.old) (W.taken sink.new) (W.fault_count sink.old) (W.fault_count sink.new)) }

    ensures source_failed { result ≡ SOURCE_FAILED → Rose (S.fault_count source.old) (S.fault_count source.new) }
    ensures sink_failed { result ≡ SINK_FAILED → Rose (W.fault_count sink.old) (W.fault_count sink.new) }
    ensures front { (c : _) → command_of (map (λ w. string_bytes w) words.now) ≡ Some c → result ≡ SINK_FAILED
        → ReadsScenario (Serves (H.regions shelf) c (TakesFront (W.taken sink.old) (W.taken sink.new))) (S.left source.old) (S.left source.new) }
    ensures nothing { (result ≡ SOURCE_FAILED) ⊎ (result ≡ NO_MEMORY)
        → (W.taken sink.new ≡ W.taken sink.old) × (W.fault_count sink.new ≡ W.fault_count sink.old) }
    ensures complete { (c : _) → command_of (map (λ w. string_bytes w) words.now) ≡ Some c → HasScenario (S.left source.old)
        → (Rose (S.fault_count source.old) (S.fault_count source.new) → ⊥) → (Rose (W.fault_count sink.old) (W.fault_count sink.new) → ⊥)
        → (result ≡ DONE) ⊎ (result ≡ NO_MEMORY) }
    ensures statuses { (result ≡ DONE) ⊎ ((result ≡ BAD_WORDS)
        ⊎ ((result ≡ REFUSED) ⊎ ((result ≡ SOURCE_FAILED) ⊎ ((result ≡ SINK_FAILED) ⊎ (result ≡ NO_MEMORY))))) }
{
    match Command::of(words) {
        Some(command) => serve_text(rt, alloc, command, source, sink, shelf, gate),
        None => {
            refuse(sink, b"words\n");
            BAD_WORDS
        }
    }
}
