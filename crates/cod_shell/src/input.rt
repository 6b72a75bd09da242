//! All bytes of a source.
ghost use Rattle.std.specs.Prelude.{◌≡◌, ◌≤◌, ◌^◌, length, IfOk};
ghost use Rattle.std.specs.Io.KnownBytes.{prepend_known, IsAtEnd};
ghost use Rattle.cod_types.specs.Faults.{Rose};
ghost use Rattle.cod_shell.specs.Reading.{ReadsAtMost};

use cod_io::Source;
use std::alloc::Global;

/// Why the bytes weren't read.
#[derive(Clone, Copy, Debug, PartialEq, Eq)]
pub enum InputError {
    Memory,
    Failed,
}

/// The most bytes of a text.
const LIMIT: usize = 1 << 24;

/// The bytes to the end, or the first LIMIT + 1. `Failed` comes only where the source's count of faults rose.
pub fn all<S: Source>(alloc: Global, source: &mut S) -> Result<Vec<u8>, InputError>
    ensures read { IfOk result (λ t. S.left source.old ≡ prepend_known t.items (S.left source.new)) }
    ensures end { IfOk result (λ t. length t.items ≤ LIMIT → IsAtEnd (S.left source.new)) }
    ensures most { ReadsAtMost 16777217 (S.left source.old) (S.left source.new) }
    ensures few { IfOk result (λ t. length t.items ≤ 16777217) }
    ensures same { IfOk result (λ _. S.fault_count source.new ≡ S.fault_count source.old) }
    ensures failed { result ≡ Err InputError.Failed → Rose (S.fault_count source.old) (S.fault_count source.new) }
{
    let mut text = Vec::new(alloc);
    let mut chunk = [0u8; 4096];
    'pieces: while text.len() <= LIMIT {
        let most = (LIMIT + 1 - text.len()).min(4096);
        let piece = &mut chunk[..most];
        let n = match source.read(piece) {
            Ok(n) => n,
            Err(_) => return Err(InputError::Failed),
        };
        if n == 0 {
            return Ok(text);
        }
        match text.extend_from_slice(&piece[..n]) {
            Ok(()) => {}
            Err(_) => return Err(InputError::Memory),
        }
    }
    Ok(text)
}
