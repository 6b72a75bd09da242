//! The upgrade of the records.

ghost use Rattle.std.specs.Prelude.{◌≡◌, ◌+◌, ◌-◌, ◌<◌, ◌^◌, ◌++◌, ◌∷◌, [], All, IsSome, Some, None, length};
ghost use Rattle.cod_types.specs.declared.call.Reply.TheVariants.{Done};
ghost use Rattle.cod_chronicle.specs.Said.{clock_of, next_stamp, numbers_by, StampFollows};
ghost use Rattle.cod_chronicle.specs.declared.entry.Entry.TheVariants.{Call};
ghost use Rattle.cod_segment.specs.Events.{call_in};
ghost use Rattle.cod_segment.specs.declared.asking.Outcome.TheVariants.{Answered};

use crate::asking::{Asker, Outcome};
use crate::segment::Segment;
use cod_claims::Slip;
use cod_region::Region;
use cod_types::Reply;

impl<R: Region> Segment<R> {
    /// From now on records are written in version 2.
    pub fn upgrade(&mut self, slip: &mut Slip, asker: Asker, clock: &mut u64) -> Outcome
        requires call { IsSome slip.old.call }
        requires link { 0 < slip.old.links }
        requires unanswered { slip.old.reply ≡ None }
        requires newest { All (λ m. m < asker.number) (numbers_by asker.caller.0 self.old.log) }
        requires room { length self.old.log + 1 < 2 ^ 63 }
        ensures becomes { self.new ≡ record self.old {
          version = 2;
          log = self.old.log ++ Call asker.caller asker.number clock.new (call_in slip.old) Done ∷ [];
        } }
        ensures clock { clock.new ≡ next_stamp (clock_of self.old.log) clock.old }
        ensures slip { slip.new ≡ record slip.old { call = None; links = slip.old.links - 1; reply = Some Done } }
        ensures outcome { result ≡ Answered (length self.old.log) clock.new }
        ensures follows { StampFollows self.old.log clock.new }
    {
        self.version = 2;
        self.answer(slip, asker, clock, Reply::Done, Reply::Done)
    }
}
