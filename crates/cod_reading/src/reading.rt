//! Reads, also where columns are down.
ghost use Rattle.std.specs.Prelude.{◌≡◌};
ghost use Rattle.cod_chronicle.specs.Event.{Setting};
ghost use Rattle.cod_seg.specs.Next.{next_step};
ghost use Rattle.cod_seg.specs.Sound.{Sound};
ghost use Rattle.cod_seg.specs.declared.next.Step.TheVariants as step;
ghost use Rattle.cod_segment.specs.Events.{call_in, Costs, HasRoom, is_answered, IsAsked, IsOutcome, IsSettingOf, Makes, NoneFails, request_of, rooms_of};
ghost use Rattle.cod_segment.specs.Exact.{Exactly};

use crate::parts::read_parts;
use cod_claims::Slip;
use cod_layout::split_range;
use cod_region::Region;
use cod_repair::Bench;
use cod_segment::{Asker, Outcome, Segment};
use cod_step::copy_bytes;
use cod_types::{Bytes, Call, Reply};

/// Answers a read with its bytes at the cut, each block touched by one read where its column is live.
pub fn read<R: Region>(
    segment: &mut Segment<R>,
    slip: &mut Slip,
    asker: Asker,
    bench: &mut Bench,
    clock: &mut u64,
) -> Outcome
    requires sound { Sound segment.old }
    requires next { next_step segment.old asker.caller.0 (call_in slip.old) ≡ step.Read }
    requires asked { IsAsked segment.old asker.caller.0 asker.number slip.old (call_in slip.old) }
    requires bench { bench.old ≡ segment.old.site.shape }
    requires room { HasRoom 2 segment.old }
    ensures sound { Sound segment.new }
    ensures makes { (w : Setting) → IsSettingOf w segment.old
        → Makes w (request_of asker.caller.0 asker.number (call_in slip.old)) clock.old clock.new (is_answered result) segment.old segment.new }
    ensures exact { (w : Setting) → Exactly w step.Read result segment.old segment.new }
    ensures outcome { IsOutcome result (request_of asker.caller.0 asker.number (call_in slip.old)) clock.new segment.new slip.new }
    ensures costs { NoneFails segment.old segment.new → Costs segment.old asker.caller.0 (call_in slip.old) step.Read segment.new }
    ensures rooms { rooms_of segment.new ≡ rooms_of segment.old }
    ensures bench { bench.new ≡ bench.old }
{
    let Call::Read { off, len } = slip.call() else {
        unreachable!()
    };
    let parts = split_range(&segment.shape, *off, *len);
    let (first, second) = slip.take_buffers();
    let mut bytes = first.into_vec();
    if !read_parts(segment, parts.as_slice(), &mut bytes, clock, bench) {
        return segment.answer_lost(slip, asker, clock);
    }
    let told = copy_bytes(&bytes, second);
    let entered = Reply::Bytes(Bytes::from_vec(bytes));
    segment.answer(slip, asker, clock, entered, Reply::Bytes(told))
}
