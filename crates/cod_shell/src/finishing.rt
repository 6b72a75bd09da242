//! The end of a command.
ghost use Rattle.std.specs.Prelude.{◌≡◌, ◌⊎◌, ◌≤◌};
ghost use Rattle.cod_types.specs.Faults.{Rose};

use crate::status::{DONE, NO_MEMORY, SINK_FAILED, SOURCE_FAILED};
use cod_io::Sink;

/// The status after what was printed has been brought to where it goes. Where nothing was printed, the sink is let alone.
pub fn finish<W: Sink>(sink: &mut W, status: u8) -> u8
    ensures same { W.taken sink.new ≡ W.taken sink.old }
    ensures later { W.fault_count sink.old ≤ W.fault_count sink.new }
    ensures done { result ≡ DONE → (status ≡ DONE) × (W.arrived sink.new ≡ W.taken sink.new) }
    ensures kept { (result ≡ SINK_FAILED → ⊥) → result ≡ status }
    ensures other { (status ≡ DONE → ⊥) → result ≡ status }
    ensures failed { result ≡ SINK_FAILED → (status ≡ SINK_FAILED) ⊎ ((status ≡ DONE) × Rose (W.fault_count sink.old) (W.fault_count sink.new)) }
    ensures nothing { (status ≡ SOURCE_FAILED) ⊎ (status ≡ NO_MEMORY) → W.fault_count sink.new ≡ W.fault_count sink.old }
{
    if status == SOURCE_FAILED || status == NO_MEMORY {
        return status;
    }
    match sink.flush() {
        Err(_) if status == DONE => SINK_FAILED,
        _ => status,
    }
}
