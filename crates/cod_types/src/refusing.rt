//! Which calls are refused by their own numbers.
ghost use Rattle.std.specs.Prelude.{◌≡◌};
ghost use Rattle.cod_types.specs.Plain.{refusal};

use crate::{Call, Geometry, Reply};

/// The refusal that a call's own numbers give it: `Range` where its range passes the segment's end, else `Long` where it
/// has more bytes than an update may have, or not as many as it has to have. None where it isn't refused.
pub fn refusal(g: &Geometry, call: &Call) -> Option<Reply>
    ensures { result ≡ refusal g.now call.now }
{
    let bytes = g.bytes() as usize;
    let update = g.update() as usize;
    match call {
        Call::Read { off, len } => {
            if bytes < *off as usize + *len as usize {
                Some(Reply::Range)
            } else {
                None
            }
        }
        Call::Write { off, bytes: new } => {
            let len = new.as_slice().len();
            if bytes < *off as usize + len {
                Some(Reply::Range)
            } else if update < len {
                Some(Reply::Long)
            } else {
                None
            }
        }
        Call::Swap { off, old, new } => {
            let len = new.as_slice().len();
            let range = old.as_slice().len();
            if bytes < *off as usize + range {
                Some(Reply::Range)
            } else if update < len || len != range {
                Some(Reply::Long)
            } else {
                None
            }
        }
        Call::Put { bytes: new } => {
            if new.as_slice().len() == bytes {
                None
            } else {
                Some(Reply::Long)
            }
        }
        Call::Merge | Call::Tick | Call::Rebuild | Call::Upgrade | Call::Drain { .. } => None,
    }
}
