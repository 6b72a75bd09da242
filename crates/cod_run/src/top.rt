//! All that the program does.
ghost use Rattle.std.specs.Prelude.{◌≡◌, ◌⊎◌, ◌↔◌, None, Some, map, codes, string_bytes};
ghost use Rattle.cod_types.specs.Faults.{Rose};
ghost use Rattle.cod_print.specs.Puts.{TakesFront};
ghost use Rattle.cod_shell.specs.Reading.{HasScenario, ReadsAtMost, ReadsScenario, RefusesText};
ghost use Rattle.cod_shell.specs.Taking.{TakesAll, TakesLine};
ghost use Rattle.cod_run.specs.Commands.{command_of};
ghost use Rattle.cod_run.specs.Runs.{Serves};

use crate::serving::perform;
use cod_cluster::Gate;
use cod_io::{Sink, Source};
use cod_region::{Region, Shelf};
use cod_shell::finishing::finish;
use cod_shell::{BAD_WORDS, DONE, NO_MEMORY, REFUSED, SINK_FAILED, SOURCE_FAILED};
use std::alloc::Global;
use std::sync::Wait;
use std::thread::Threads;

/// Does all that the program does, over regions of this shelf, each client and each care worker on a thread of its own: `words` are
/// those after the program's name. Calls pause at the gate between their events. It waits for calls that stand in each other's way.
///
/// The status is 0 where the command of the words was done and its text was taken whole and has come to where it goes; 2 exactly
/// where the words are no command; 3 where the bytes of the source are not the text of a scenario, or too many; 4 only where the
/// source failed; 5 only where the sink failed, which took a front of the text; 6 for want of memory, before the first call is
/// made and before anything is printed. At most 2^24 + 1 bytes are read; the source is as it was where the words are no command.
pub fn run<
    S: Source,
    W: Sink,
    R: Region + Send + Sync,
    H: Shelf<Region = R> + Drop + Sync,
    G: Gate + Sync,
    V: Threads + Wait + Sync,
>(rt: &V, alloc: Global, words: &[String], source: &mut S, sink: &mut W, shelf: H, gate: &G) -> u8
    ensures done { (c : _) → command_of (map (λ w. string_bytes w) words.now) ≡ Some c → result ≡ DONE
        → ReadsScenario (Serves (H.regions shelf) c (TakesAll (W.taken sink.old) (W.taken sink.new))) (S.left source.old) (S.left source.new) }
    ensures arrived { result ≡ DONE → W.arrived sink.new ≡ W.taken sink.new }
    ensures most { ReadsAtMost 16777217 (S.left source.old) (S.left source.new) }

    ensures words { (result ≡ BAD_WORDS) ↔ (command_of (map (λ w. string_bytes w) words.now) ≡ None) }
    ensures words_line { result ≡ BAD_WORDS → TakesLine (W.taken sink.old) (W.taken sink.new) (W.fault_count sink.old) (W.fault_count sink.new)
        (codes "words\n") }
    ensures unread { result ≡ BAD_WORDS → (S.left source.new ≡ S.left source.old) × (S.fault_count source.new ≡ S.fault_count source.old) }

    ensures refused { result ≡ REFUSED → RefusesText (S.left source.old) (S.left source.new)
        (TakesLine (W.taken sink.old) (W.taken sink.new) (W.fault_count sink.old) (W.fault_count sink.new)) }

    ensures source_failed { result ≡ SOURCE_FAILED → Rose (S.fault_count source.old) (S.fault_count source.new) }
    ensures sink_failed { result ≡ SINK_FAILED → Rose (W.fault_count sink.old) (W.fault_count sink.new) }
    ensures front { (c : _) → command_of (map (λ w. string_bytes w) words.now) ≡ Some c → result ≡ SINK_FAILED
        → ReadsScenario (Serves (H.regions shelf) c (TakesFront (W.taken sink.old) (W.taken sink.new))) (S.left source.old) (S.left source.new) }
    ensures nothing { (result ≡ SOURCE_FAILED) ⊎ (result ≡ NO_MEMORY)
        → (W.taken sink.new ≡ W.taken sink.old) × (W.fault_count sink.new ≡ W.fault_count sink.old) }
    ensures complete { (c : _) → command_of (map (λ w. string_bytes w) words.now) ≡ Some c → HasScenario (S.left source.old)
        → (Rose (S.fault_count source.old) (S.fault_count source.new) → ⊥) → (Rose (W.fault_count sink.old) (W.fault_count sink.new) → ⊥)
        → (result ≡ DONE) ⊎ (result ≡ NO_MEMORY) }
    ensures statuses { (result ≡ DONE) ⊎ ((result ≡ BAD_WORDS)
        ⊎ ((result ≡ REFUSED) ⊎ ((result ≡ SOURCE_FAILED) ⊎ ((result ≡ SINK_FAILED) ⊎ (result ≡ NO_MEMORY))))) }
{
    let status = perform(rt, alloc, words, source, sink, shelf, gate);
    finish(sink, status)
}
