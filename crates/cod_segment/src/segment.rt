//! A segment in any state.

ghost use Rattle.std.specs.Prelude.{◌≡◌, ◌+◌, ◌-◌, ◌<◌, ◌^◌, ◌++◌, ◌∷◌, [], if◌then◌else◌, All, IsSome, Some, None, length, max, true, false, option_map};
ghost use Rattle.cod_chronicle.specs.Said.{clock_of, is_over, next_stamp, numbers_by, StampFollows};
ghost use Rattle.cod_seg.specs.Seg.{col_at, with_col};
ghost use Rattle.cod_seg.specs.Sound.{Sound};
ghost use Rattle.cod_step.specs.Scenes.{job_in, Shows};
ghost use Rattle.cod_chronicle.specs.declared.entry.Cause.TheVariants.{Fault, Killed};
ghost use Rattle.cod_chronicle.specs.declared.entry.Entry.TheVariants.{Call, Down};
ghost use Rattle.cod_types.specs.Plain.{refusal};
ghost use Rattle.cod_types.specs.declared.call.Reply.TheVariants.{Done, Lost};
ghost use Rattle.cod_segment.specs.Events.{call_in};
ghost use Rattle.cod_segment.specs.declared.asking.Outcome.TheVariants.{Answered};

use crate::asking::{Asker, Outcome};
use crate::rebuild::Rebuild;
use cod_board::Kill;
use cod_chronicle::{Cause, Chronicle, Entry, next_stamp};
use cod_claims::{Claims, Slip};
use cod_region::Region;
use cod_repair::{ColumnFailed, Columns};
use cod_step::{Job, Scene, is_lost};
use cod_types::{Cuts, Geometry, Reply, SegId, refusal};
use std::marker::Model;

/// A segment: where it is, its chronicle, its columns, how many updates of each block are committed, the claims, the version
/// of the records that it writes, and the rebuild in progress. `frail` are the nodes on which a region may fail.
#[derive(Drop)]
pub struct Segment<R: Region> {
    pub shape: Geometry,
    pub segment: SegId,
    pub nodes: u8,
    pub frail: Vec<u8>,
    pub chronicle: Chronicle,
    pub columns: Columns<R>,
    pub cuts: Cuts,
    pub claims: Claims,
    pub version: u8,
    pub rebuild: Option<Rebuild<R>>,
}

impl<R: Region> Model for Segment<R> {
    ghost use Rattle.cod_seg.specs.Seg.{Seg};
    ghost use Rattle.cod_segment.specs.Views.{pools_by, told_by};

    ghost Value = { Seg };

    ghost view = { λ s. record {
      site = record { shape = s.shape; segment = s.segment.0; nodes = s.nodes; told = told_by s.columns };
      frail = s.frail.items;
      pools = pools_by s.columns;
      log = s.chronicle;
      cols = s.columns;
      cuts = s.cuts;
      claims = s.claims;
      version = s.version;
      rebuild = s.rebuild;
    } };
}

impl<R: Region> Segment<R> {
    /// The rebuild in progress as a next step sees it.
    fn job(&self) -> Option<Job>
        ensures { result ≡ option_map job_in self.now.rebuild }
    {
        match &self.rebuild {
            Some(rebuild) => Some(rebuild.job()),
            None => None,
        }
    }

    /// The segment as a next step sees it.
    pub fn scene(&self) -> Scene<'_>
        ensures { Shows result.shape result.live result.claims.now result.job self.now }
    {
        Scene {
            shape: self.shape,
            live: self.columns.live_nodes(),
            claims: &self.claims,
            job: self.job(),
        }
    }

    /// Whether more columns are down than the code makes up for.
    pub fn is_lost(&self) -> bool
        requires { Sound self.now }
        ensures { result ≡ is_over self.now.site self.now.log }
    {
        is_lost(&self.shape, &self.columns.live_nodes())
    }

    /// The stamp of the next entry, which becomes the caller's clock.
    pub fn next_stamp(&self, clock: &mut u64) -> u64
        ensures stamp { result ≡ next_stamp (clock_of self.now.log) clock.old }
        ensures clock { clock.new ≡ result }
        ensures follows { StampFollows self.now.log result }
    {
        let stamp = next_stamp(self.chronicle.clock(), *clock);
        *clock = stamp;
        stamp
    }

    /// A live column goes down for this cause.
    fn mark(&mut self, col: u8, cause: Cause, clock: &mut u64)
        requires col { col < length self.old.cols }
        requires up { (col_at self.old.cols col).is_up ≡ true }
        requires room { length self.old.log + 1 < 2 ^ 63 }
        ensures becomes { self.new ≡ record self.old {
          cols = with_col self.old.cols col (record (col_at self.old.cols col) { is_up = false });
          log = self.old.log ++ Down clock.new col (col_at self.old.cols col).room.node cause ∷ [];
        } }
        ensures clock { clock.new ≡ next_stamp (clock_of self.old.log) clock.old }
        ensures follows { StampFollows self.old.log clock.new }
    {
        let stamp = self.next_stamp(clock);
        let node = self.columns.node(col);
        let link = self.columns.mark_down(col);
        self.chronicle.push_link(
            link,
            Entry::Down {
                stamp,
                col,
                node,
                cause,
            },
        );
    }

    /// A column whose region failed goes down.
    pub fn mark_fault(&mut self, failed: ColumnFailed, clock: &mut u64)
        requires col { failed.col < length self.old.cols }
        requires up { (col_at self.old.cols failed.col).is_up ≡ true }
        requires room { length self.old.log + 1 < 2 ^ 63 }
        ensures becomes { self.new ≡ record self.old {
          cols = with_col self.old.cols failed.col (record (col_at self.old.cols failed.col) { is_up = false });
          log = self.old.log ++ Down clock.new failed.col (col_at self.old.cols failed.col).room.node (Fault failed.count) ∷ [];
        } }
        ensures clock { clock.new ≡ next_stamp (clock_of self.old.log) clock.old }
        ensures follows { StampFollows self.old.log clock.new }
    {
        self.mark(failed.col, Cause::Fault(failed.count), clock);
    }

    /// A column whose node was killed goes down. Its mark stands after what the killer knew of.
    pub fn mark_killed(&mut self, col: u8, kill: Kill, clock: &mut u64)
        requires col { col < length self.old.cols }
        requires up { (col_at self.old.cols col).is_up ≡ true }
        requires room { length self.old.log + 1 < 2 ^ 63 }
        ensures becomes { self.new ≡ record self.old {
          cols = with_col self.old.cols col (record (col_at self.old.cols col) { is_up = false });
          log = self.old.log ++ Down clock.new col (col_at self.old.cols col).room.node (Killed kill.line) ∷ [];
        } }
        ensures clock { clock.new ≡ next_stamp (clock_of self.old.log) (max clock.old kill.clock) }
        ensures follows { StampFollows self.old.log clock.new }
    {
        *clock = (*clock).max(kill.clock as u64);
        self.mark(col, Cause::Killed(kill.line), clock);
    }

    /// Answers the call: one reply goes into its entry, the same once more to the caller.
    pub fn answer(
        &mut self,
        slip: &mut Slip,
        asker: Asker,
        clock: &mut u64,
        entered: Reply,
        told: Reply,
    ) -> Outcome
        requires call { IsSome slip.old.call }
        requires link { 0 < slip.old.links }
        requires unanswered { slip.old.reply ≡ None }
        requires twice { told ≡ entered }
        requires newest { All (λ m. m < asker.number) (numbers_by asker.caller.0 self.old.log) }
        requires room { length self.old.log + 1 < 2 ^ 63 }
        ensures becomes { self.new ≡ record self.old { log = self.old.log ++ Call asker.caller asker.number clock.new (call_in slip.old) entered ∷ [] } }
        ensures clock { clock.new ≡ next_stamp (clock_of self.old.log) clock.old }
        ensures slip { slip.new ≡ record slip.old { call = None; links = slip.old.links - 1; reply = Some told } }
        ensures outcome { result ≡ Answered (length self.old.log) clock.new }
        ensures follows { StampFollows self.old.log clock.new }
    {
        let stamp = self.next_stamp(clock);
        let position = self.chronicle.len();
        let link = slip.take_link();
        self.chronicle.push_link(
            link,
            Entry::Call {
                caller: asker.caller,
                number: asker.number,
                stamp,
                call: slip.take_call(),
                reply: entered,
            },
        );
        slip.set_reply(told);
        Outcome::Answered { position, stamp }
    }

    /// The refusal that a call's own numbers give it.
    pub fn refusal_of(&self, slip: &Slip) -> Reply
        requires call { IsSome slip.now.call }
        requires refused { IsSome (refusal self.now.site.shape (call_in slip.now)) }
        ensures { refusal self.now.site.shape (call_in slip.now) ≡ Some result }
    {
        match refusal(&self.shape, slip.call()) {
            Some(reply) => reply,
            None => unreachable!(),
        }
    }

    /// Answers that too many columns are down.
    pub fn answer_lost(&mut self, slip: &mut Slip, asker: Asker, clock: &mut u64) -> Outcome
        requires call { IsSome slip.old.call }
        requires link { 0 < slip.old.links }
        requires unanswered { slip.old.reply ≡ None }
        requires newest { All (λ m. m < asker.number) (numbers_by asker.caller.0 self.old.log) }
        requires room { length self.old.log + 1 < 2 ^ 63 }
        ensures becomes { self.new ≡ record self.old { log = self.old.log ++ Call asker.caller asker.number clock.new (call_in slip.old) Lost ∷ [] } }
        ensures clock { clock.new ≡ next_stamp (clock_of self.old.log) clock.old }
        ensures slip { slip.new ≡ record slip.old { call = None; links = slip.old.links - 1; reply = Some Lost } }
        ensures outcome { result ≡ Answered (length self.old.log) clock.new }
        ensures follows { StampFollows self.old.log clock.new }
    {
        self.answer(slip, asker, clock, Reply::Lost, Reply::Lost)
    }

    /// Answers that the call is done, or lost where too many columns are down by now.
    pub fn answer_done(&mut self, slip: &mut Slip, asker: Asker, clock: &mut u64) -> Outcome
        requires sound { Sound self.old }
        requires call { IsSome slip.old.call }
        requires link { 0 < slip.old.links }
        requires unanswered { slip.old.reply ≡ None }
        requires newest { All (λ m. m < asker.number) (numbers_by asker.caller.0 self.old.log) }
        requires room { length self.old.log + 1 < 2 ^ 63 }
        ensures becomes { self.new ≡ record self.old { log = self.old.log ++ Call asker.caller asker.number clock.new (call_in slip.old) (if is_over self.old.site self.old.log then Lost else Done) ∷ [] } }
        ensures clock { clock.new ≡ next_stamp (clock_of self.old.log) clock.old }
        ensures slip { slip.new ≡ record slip.old { call = None; links = slip.old.links - 1; reply = Some (if is_over self.old.site self.old.log then Lost else Done) } }
        ensures outcome { result ≡ Answered (length self.old.log) clock.new }
        ensures follows { StampFollows self.old.log clock.new }
    {
        if self.is_lost() {
            return self.answer_lost(slip, asker, clock);
        }
        self.answer(slip, asker, clock, Reply::Done, Reply::Done)
    }
}
