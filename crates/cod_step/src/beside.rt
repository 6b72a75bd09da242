//! What an event does beside its regions.
ghost use Rattle.std.specs.Prelude.{◌≡◌, ◌<◌, ◌≤◌, ◌^◌, ℕ, length, slice_index};
ghost use Rattle.cod_seg.specs.Steps.{raised_to};

use cod_claims::Claims;
use cod_types::{Bytes, Caller, Cuts, Reasons};

/// The cuts of the caller's blocks, of the first k, rise by one.
pub fn raise_cuts(cuts: &mut Cuts, claims: &Claims, caller: Caller, k: u8)
    requires few { k ≤ 16 }
    requires small { (j : ℕ) → slice_index cuts.old j < 2 ^ 63 }
    requires sixteen { length cuts.old ≡ 16 }
    ensures { cuts.new ≡ raised_to k caller.0 claims.now cuts.old }
{
    for j in 0..k {
        if claims.is_of(j, caller) {
            cuts.raise(j);
        }
    }
}

/// The same reasons once more, in a list that was made before.
pub fn copy_reasons(reasons: &Reasons, list: Reasons) -> Reasons
    ensures { result ≡ reasons.now }
{
    let mut copy = list;
    copy.clear();
    for reason in reasons.as_slice() {
        copy.push(*reason);
    }
    copy
}

/// The same bytes once more, in a buffer that is as long.
pub fn copy_bytes(bytes: &[u8], buffer: Bytes) -> Bytes
    requires { length buffer ≡ length bytes.now }
    ensures { result ≡ bytes.now }
{
    let mut copy = buffer.into_vec();
    copy.copy_from_slice(bytes);
    Bytes::from_vec(copy)
}
