//! The last look at the stamps of a run.
ghost use Rattle.std.specs.Prelude.{◌<◌, All};
ghost use Rattle.cod_chronicle.specs.Said.{clock_of, last_stamp};

use cod_chronicle::Stands;
use cod_region::Region;
use cod_stripe::Stripe;
use std::sync::Wait;
use std::thread;

/// Waits until the last stamp of the segment is less than the greatest there is. It always is: no run makes 2^64 entries.
fn await_one<R: Region, V: Wait>(rt: &V, stripe: &Stripe<R>)
    ensures { clock_of stripe.now.log < last_stamp }
{
    for _ in rt.forever() {
        if stripe.chronicle().clock() < u64::MAX {
            return;
        }
        thread::yield_now();
    }
    unreachable!()
}

/// Waits until this holds of all segments.
pub fn await_all<R: Region, V: Wait>(rt: &V, stripes: &[Stripe<R>])
    ensures { All (λ s. clock_of s.log < last_stamp) stripes.now }
{
    for stripe in stripes {
        await_one(rt, stripe);
    }
}
