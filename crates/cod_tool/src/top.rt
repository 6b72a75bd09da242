//! All that the program does.
ghost use Rattle.std.specs.Prelude.{◌≡◌, ◌⊎◌, ◌↔◌, true, false, None, Some, map, codes, string_bytes};
ghost use Rattle.cod_types.specs.Faults.{Rose};
ghost use Rattle.cod_print.specs.Puts.{TakesFront};
ghost use Rattle.cod_tool.specs.Commands.{command_of};
ghost use Rattle.cod_shell.specs.Reading.{ReadsAtMost};
ghost use Rattle.cod_shell.specs.Taking.{TakesAll, TakesLine};
ghost use Rattle.cod_tool.specs.Replays.{CanServe, Does, Refuses, reads_source, takes_memory};

use crate::serving::perform;
use cod_io::{Sink, Source};
use cod_region::Shelf;
use cod_shell::finishing::finish;
use cod_shell::{BAD_WORDS, DONE, NO_MEMORY, REFUSED, SINK_FAILED, SOURCE_FAILED};
use std::alloc::Global;

/// Does all that the program does, over regions of this shelf: `words` are those after its name. It always returns.
///
/// The status is 0 where the command of the words was done and its text was taken whole and has come to where it goes; 2 exactly
/// where the words are no command; 3 where the bytes of the source are not the text of a scenario, or too many; 4 only where the
/// source failed; 5 only where the sink failed, which took a front of the text; 6 for want of memory, before the first call of a
/// replay is made and before anything is printed. `code` ends with 0 or 5, `gen` and `load` with 0, 5 or 6. At most 2^24 + 1 bytes
/// are read. The source is as it was after `code`, `gen` and `load`, and where the words are no command.
pub fn tool<S: Source, W: Sink, H: Shelf + Drop>(
    alloc: Global,
    words: &[String],
    source: &mut S,
    sink: &mut W,
    shelf: H,
) -> u8
    ensures done { (c : _) → command_of (map (λ w. string_bytes w) words.now) ≡ Some c
        → result ≡ DONE → Does (H.regions shelf) c (S.left source.old) (S.left source.new) (TakesAll (W.taken sink.old) (W.taken sink.new)) }
    ensures arrived { result ≡ DONE → W.arrived sink.new ≡ W.taken sink.new }
    ensures most { ReadsAtMost 16777217 (S.left source.old) (S.left source.new) }

    ensures words { (result ≡ BAD_WORDS) ↔ (command_of (map (λ w. string_bytes w) words.now) ≡ None) }
    ensures words_line { result ≡ BAD_WORDS → TakesLine (W.taken sink.old) (W.taken sink.new) (W.fault_count sink.old) (W.fault_count sink.new)
        (codes "words\n") }

    ensures refused { (c : _) → command_of (map (λ w. string_bytes w) words.now) ≡ Some c
        → result ≡ REFUSED → Refuses c (S.left source.old) (S.left source.new)
        (TakesLine (W.taken sink.old) (W.taken sink.new) (W.fault_count sink.old) (W.fault_count sink.new)) }

    ensures source_failed { result ≡ SOURCE_FAILED → Rose (S.fault_count source.old) (S.fault_count source.new) }
    ensures sink_failed { result ≡ SINK_FAILED → Rose (W.fault_count sink.old) (W.fault_count sink.new) }
    ensures front { (c : _) → command_of (map (λ w. string_bytes w) words.now) ≡ Some c
        → result ≡ SINK_FAILED → Does (H.regions shelf) c (S.left source.old) (S.left source.new) (TakesFront (W.taken sink.old) (W.taken sink.new)) }
    ensures nothing { (result ≡ SOURCE_FAILED) ⊎ (result ≡ NO_MEMORY)
        → (W.taken sink.new ≡ W.taken sink.old) × (W.fault_count sink.new ≡ W.fault_count sink.old) }
    ensures source { reads_source (command_of (map (λ w. string_bytes w) words.now)) ≡ false
        → ((result ≡ DONE) ⊎ ((result ≡ BAD_WORDS) ⊎ ((result ≡ SINK_FAILED)
        ⊎ ((result ≡ NO_MEMORY) × (takes_memory (command_of (map (λ w. string_bytes w) words.now)) ≡ true)))))
        × ((S.left source.new ≡ S.left source.old) × (S.fault_count source.new ≡ S.fault_count source.old)) }
    ensures complete { (c : _) → command_of (map (λ w. string_bytes w) words.now) ≡ Some c → CanServe c (S.left source.old)
        → (Rose (S.fault_count source.old) (S.fault_count source.new) → ⊥) → (Rose (W.fault_count sink.old) (W.fault_count sink.new) → ⊥)
        → (result ≡ DONE) ⊎ (result ≡ NO_MEMORY) }
    ensures statuses { (result ≡ DONE) ⊎ ((result ≡ BAD_WORDS)
        ⊎ ((result ≡ REFUSED) ⊎ ((result ≡ SOURCE_FAILED) ⊎ ((result ≡ SINK_FAILED) ⊎ (result ≡ NO_MEMORY))))) }
{
    let status = perform(alloc, words, source, sink, shelf);
    finish(sink, status)
}
