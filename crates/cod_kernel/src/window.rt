//! Bytes that are added where they fall into a window.
ghost use Rattle.std.specs.Prelude.{◌≡◌, ◌+◌, ◌<◌, ◌^◌, ℕ, length, slice_index, bit_xor};
ghost use Rattle.cod_types.specs.Overwritten.{byte_at};

use crate::add;

/// Adds to a window, whose first byte stands at place `off`, what falls into it of bytes that stand at `place`. To add the
/// same bytes once more takes them off.
pub fn add_window(window: &mut [u8], off: usize, place: usize, bytes: &[u8])
    requires window { off + length window.old < 2 ^ 64 }
    requires bytes { place + length bytes.now < 2 ^ 64 }
    ensures { (x : ℕ) → x < length window.old → slice_index window.new x ≡ bit_xor (slice_index window.old x) (byte_at (off + x) 0 place bytes.now) }
{
    let from = off.max(place);
    let to = (off + window.len()).min(place + bytes.len());
    if from < to {
        add(
            &mut window[from - off..to - off],
            &bytes[from - place..to - place],
        );
    }
}
