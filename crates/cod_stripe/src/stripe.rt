//! A segment of which all that is promised holds between its events.

ghost use Rattle.std.specs.Prelude.{◌≡◌, ◌+◌, ◌<◌, ◌≤◌, ◌++◌, ℕ, List, IfOk, IsSome, MatchResult, None, Some, length, false, true};
ghost use Rattle.cod_chronicle.specs.Event.{Setting};
ghost use Rattle.cod_chronicle.specs.Legal.{node_id};
ghost use Rattle.cod_place.specs.Room.{Room};
ghost use Rattle.cod_place.specs.Rooms.{AddUp};
ghost use Rattle.cod_seg.specs.Next.{next_step, open_in};
ghost use Rattle.cod_seg.specs.Seg.{col_at};
ghost use Rattle.cod_seg.specs.Sound.{is_frail, Sound};
ghost use Rattle.cod_seg.specs.Start.{IsNew};
ghost use Rattle.cod_seg.specs.declared.next.Step.TheVariants as step;
ghost use Rattle.cod_repair.specs.Columns.{line_of};
ghost use Rattle.cod_stripe.specs.Building.{AreUntouched, frail_below, HomesHaveRoom};
ghost use Rattle.cod_segment.specs.Events.{Balances, call_in, Costs, HasRoom, is_answered, IsAsked, IsOutcome, IsSettingOf, kills_at, Makes, NoneFails, request_of, rooms_of};
ghost use Rattle.cod_segment.specs.Exact.{Exactly};
ghost use Rattle.cod_types.specs.declared.call.Reply.TheVariants.{Clear, Whole};
ghost use Rattle.cod_board.specs.Kills.{Keeps};

use crate::around::Around;
use crate::building::build;
use cod_board::Board;
use cod_chronicle::{Chronicle, Stands};
use cod_claims::Slip;
use cod_place::{PlainPools, Pools};
use cod_predict::Rule;
use cod_region::{Region, Shelf};
use cod_segment::{Outcome, Segment};
use cod_step::{Step, next_step};
use cod_types::{Caller, Cuts, Geometry, LayoutLine, OutOfMemory, Reply, SegId};
use std::alloc::Global;
use std::marker::Model;

/// One segment: its columns on their nodes, which updates are in progress, and all that happened to it. An event is one
/// step of one call; it takes no memory but in `rebuild_start`, in `drain`, and for a decoding row that is kept.
#[derive(Drop)]
pub struct Stripe<R: Region> {
    pub(crate) segment: Segment<R>,
}

impl<R: Region> Model for Stripe<R> {
    ghost use Rattle.cod_seg.specs.Seg.{Seg};
    ghost use Rattle.cod_seg.specs.Sound.{Sound};

    ghost Value = { Seg };

    ghost view = { λ s. s.segment };

    ghost invariant = { λ s. Sound s.segment };
}

impl<R: Region> Stripe<R> {
    /// A segment whose columns are all live and at home, of zeros. Where memory is refused, all rooms have been given back.
    pub fn build<H: Shelf<Region = R>>(
        alloc: Global,
        g: Geometry,
        seg: SegId,
        nodes: u8,
        shelf: &H,
        pools: &mut PlainPools,
    ) -> Result<Stripe<R>, OutOfMemory>
        requires some { g.n ≤ nodes }
        requires most { nodes ≤ 64 }
        requires pools { length pools.old.free ≡ nodes }
        requires room { HomesHaveRoom g seg.0 nodes 0 pools.old.free }
        ensures new { IfOk result (λ s. IsNew s) }
        ensures untouched { IfOk result (λ s. AreUntouched s.cols g.n) }
        ensures site { IfOk result (λ s. s.site ≡ record { shape = g; segment = seg.0; nodes = nodes; told = R.tells }) }
        ensures plain { IfOk result (λ s. s.pools ≡ None) }
        ensures frail { IfOk result (λ s. s.frail ≡ frail_below (H.regions shelf.now).never_fail nodes) }
        ensures rooms { (rest : List Room) → AddUp pools.old rest → MatchResult result (λ s. AddUp pools.new (rooms_of s ++ rest)) (λ _. AddUp pools.new rest) }
        ensures capacity { pools.new.capacity ≡ pools.old.capacity }
        ensures nodes { length pools.new.free ≡ nodes }
    {
        let segment = build(alloc, g, seg, nodes, shelf, pools)?;
        Ok(Stripe { segment })
    }

    /// What is printed of a column.
    pub fn layout(&self, col: u8) -> LayoutLine
        requires { col < self.now.site.shape.n }
        ensures { result ≡ line_of (record { 0 = self.now.site.segment }) col (col_at self.now.cols col) }
    {
        self.segment.columns.line(self.segment.segment, col)
    }

    /// It is sound, as it is between any two events. It does nothing.
    pub fn sound(&self)
        ensures { Sound self.now }
    {
        let _ = &self.segment;
    }

    /// How many updates of each block are committed.
    pub fn cuts(&self) -> &Cuts
        ensures { result.now ≡ self.now.cuts }
    {
        &self.segment.cuts
    }

    /// The version of the records that it writes.
    pub fn version(&self) -> u8
        ensures { result ≡ self.now.version }
    {
        self.segment.version
    }

    /// What the next event of a caller's call does.
    pub fn next_step(&self, slip: &Slip, caller: Caller) -> Step
        requires { IsSome slip.now.call }
        ensures { result ≡ next_step self.now caller.0 (call_in slip.now) }
    {
        next_step(&self.segment.scene(), slip.call(), caller)
    }

    /// Answers a call that its own numbers refuse.
    pub fn refuse<B: Board, P: Pools, H: Shelf<Region = R>, W: Rule>(
        &mut self,
        slip: &mut Slip,
        around: &mut Around<'_, B, P, H, W>,
    ) -> Outcome
        requires next { next_step self.old around.old.caller.0 (call_in slip.old) ≡ step.Refuse }
        requires asked { IsAsked self.old around.old.caller.0 around.old.number slip.old (call_in slip.old) }
        requires board { (length (B.kills around.old.board.now) ≡ self.old.site.nodes) × B.ready around.old.board.now }
        requires pools { (P.nodes around.old.pools.now ≡ self.old.site.nodes) × P.ready around.old.pools.now × P.Came around.old.pools.now (rooms_of self.old) }
        requires shelf { (node : ℕ) → node < self.old.site.nodes → is_frail self.old.frail node ≡ false → (H.regions around.old.shelf.now).never_fail (node_id node) ≡ true }
        requires bench { around.old.bench.now ≡ self.old.site.shape }
        requires room { HasRoom 2 self.old }
        ensures makes { (w : Setting) → IsSettingOf w self.old → ((x : ℕ) → w.seen x ≡ kills_at (B.kills around.new.board.now) x)
            → Makes w (request_of around.old.caller.0 around.old.number (call_in slip.old)) around.old.clock.now around.new.clock.now (is_answered result) self.old self.new }
        ensures exact { (w : Setting) → ((x : ℕ) → w.known x ≡ kills_at (B.kills around.old.board.now) x) → Exactly w (step.Refuse) result self.old self.new }
        ensures outcome { IsOutcome result (request_of around.old.caller.0 around.old.number (call_in slip.old)) around.new.clock.now self.new slip.new }
        ensures costs { NoneFails self.old self.new → Costs self.old around.old.caller.0 (call_in slip.old) (step.Refuse) self.new }
        ensures rooms { (rest : List Room) → P.Came around.old.pools.now (rooms_of self.old ++ rest) → P.Came around.new.pools.now (rooms_of self.new ++ rest) }
        ensures balance { Balances (P.free around.old.pools.now) (P.free around.new.pools.now) (rooms_of self.old) (rooms_of self.new) }
        ensures lent { (around.new.board.ghost_name ≡ around.old.board.ghost_name) × (around.new.pools.ghost_name ≡ around.old.pools.ghost_name)
            × (around.new.bench.ghost_name ≡ around.old.bench.ghost_name) × (around.new.clock.ghost_name ≡ around.old.clock.ghost_name) }
        ensures who { (around.new.caller ≡ around.old.caller) × (around.new.number ≡ around.old.number) × (around.new.bench.now ≡ around.old.bench.now) }
        ensures board { (length (B.kills around.new.board.now) ≡ length (B.kills around.old.board.now)) × Keeps (B.kills around.old.board.now) (B.kills around.new.board.now)
            × B.ready around.new.board.now × B.same around.old.board.now around.new.board.now }
        ensures pools { (P.nodes around.new.pools.now ≡ P.nodes around.old.pools.now) × P.ready around.new.pools.now × P.same around.old.pools.now around.new.pools.now }
    {
        let entered = self.segment.refusal_of(slip);
        let told = self.segment.refusal_of(slip);
        let asker = around.asker();
        self.segment
            .answer(slip, asker, around.clock, entered, told)
    }

    /// From now on records are written in version 2; it answers.
    pub fn upgrade<B: Board, P: Pools, H: Shelf<Region = R>, W: Rule>(
        &mut self,
        slip: &mut Slip,
        around: &mut Around<'_, B, P, H, W>,
    ) -> Outcome
        requires next { next_step self.old around.old.caller.0 (call_in slip.old) ≡ step.Upgrade }
        requires asked { IsAsked self.old around.old.caller.0 around.old.number slip.old (call_in slip.old) }
        requires board { (length (B.kills around.old.board.now) ≡ self.old.site.nodes) × B.ready around.old.board.now }
        requires pools { (P.nodes around.old.pools.now ≡ self.old.site.nodes) × P.ready around.old.pools.now × P.Came around.old.pools.now (rooms_of self.old) }
        requires shelf { (node : ℕ) → node < self.old.site.nodes → is_frail self.old.frail node ≡ false → (H.regions around.old.shelf.now).never_fail (node_id node) ≡ true }
        requires bench { around.old.bench.now ≡ self.old.site.shape }
        requires room { HasRoom 2 self.old }
        ensures makes { (w : Setting) → IsSettingOf w self.old → ((x : ℕ) → w.seen x ≡ kills_at (B.kills around.new.board.now) x)
            → Makes w (request_of around.old.caller.0 around.old.number (call_in slip.old)) around.old.clock.now around.new.clock.now (is_answered result) self.old self.new }
        ensures exact { (w : Setting) → ((x : ℕ) → w.known x ≡ kills_at (B.kills around.old.board.now) x) → Exactly w (step.Upgrade) result self.old self.new }
        ensures outcome { IsOutcome result (request_of around.old.caller.0 around.old.number (call_in slip.old)) around.new.clock.now self.new slip.new }
        ensures costs { NoneFails self.old self.new → Costs self.old around.old.caller.0 (call_in slip.old) (step.Upgrade) self.new }
        ensures rooms { (rest : List Room) → P.Came around.old.pools.now (rooms_of self.old ++ rest) → P.Came around.new.pools.now (rooms_of self.new ++ rest) }
        ensures balance { Balances (P.free around.old.pools.now) (P.free around.new.pools.now) (rooms_of self.old) (rooms_of self.new) }
        ensures lent { (around.new.board.ghost_name ≡ around.old.board.ghost_name) × (around.new.pools.ghost_name ≡ around.old.pools.ghost_name)
            × (around.new.bench.ghost_name ≡ around.old.bench.ghost_name) × (around.new.clock.ghost_name ≡ around.old.clock.ghost_name) }
        ensures who { (around.new.caller ≡ around.old.caller) × (around.new.number ≡ around.old.number) × (around.new.bench.now ≡ around.old.bench.now) }
        ensures board { (length (B.kills around.new.board.now) ≡ length (B.kills around.old.board.now)) × Keeps (B.kills around.old.board.now) (B.kills around.new.board.now)
            × B.ready around.new.board.now × B.same around.old.board.now around.new.board.now }
        ensures pools { (P.nodes around.new.pools.now ≡ P.nodes around.old.pools.now) × P.ready around.new.pools.now × P.same around.old.pools.now around.new.pools.now }
    {
        let asker = around.asker();
        self.segment.upgrade(slip, asker, around.clock)
    }

    /// Answers a rebuild where no column is down.
    pub fn whole<B: Board, P: Pools, H: Shelf<Region = R>, W: Rule>(
        &mut self,
        slip: &mut Slip,
        around: &mut Around<'_, B, P, H, W>,
    ) -> Outcome
        requires next { next_step self.old around.old.caller.0 (call_in slip.old) ≡ step.Whole }
        requires asked { IsAsked self.old around.old.caller.0 around.old.number slip.old (call_in slip.old) }
        requires board { (length (B.kills around.old.board.now) ≡ self.old.site.nodes) × B.ready around.old.board.now }
        requires pools { (P.nodes around.old.pools.now ≡ self.old.site.nodes) × P.ready around.old.pools.now × P.Came around.old.pools.now (rooms_of self.old) }
        requires shelf { (node : ℕ) → node < self.old.site.nodes → is_frail self.old.frail node ≡ false → (H.regions around.old.shelf.now).never_fail (node_id node) ≡ true }
        requires bench { around.old.bench.now ≡ self.old.site.shape }
        requires room { HasRoom 2 self.old }
        ensures makes { (w : Setting) → IsSettingOf w self.old → ((x : ℕ) → w.seen x ≡ kills_at (B.kills around.new.board.now) x)
            → Makes w (request_of around.old.caller.0 around.old.number (call_in slip.old)) around.old.clock.now around.new.clock.now (is_answered result) self.old self.new }
        ensures exact { (w : Setting) → ((x : ℕ) → w.known x ≡ kills_at (B.kills around.old.board.now) x) → Exactly w (step.Whole) result self.old self.new }
        ensures outcome { IsOutcome result (request_of around.old.caller.0 around.old.number (call_in slip.old)) around.new.clock.now self.new slip.new }
        ensures told { slip.new.reply ≡ Some Whole }
        ensures costs { NoneFails self.old self.new → Costs self.old around.old.caller.0 (call_in slip.old) (step.Whole) self.new }
        ensures rooms { (rest : List Room) → P.Came around.old.pools.now (rooms_of self.old ++ rest) → P.Came around.new.pools.now (rooms_of self.new ++ rest) }
        ensures balance { Balances (P.free around.old.pools.now) (P.free around.new.pools.now) (rooms_of self.old) (rooms_of self.new) }
        ensures lent { (around.new.board.ghost_name ≡ around.old.board.ghost_name) × (around.new.pools.ghost_name ≡ around.old.pools.ghost_name)
            × (around.new.bench.ghost_name ≡ around.old.bench.ghost_name) × (around.new.clock.ghost_name ≡ around.old.clock.ghost_name) }
        ensures who { (around.new.caller ≡ around.old.caller) × (around.new.number ≡ around.old.number) × (around.new.bench.now ≡ around.old.bench.now) }
        ensures board { (length (B.kills around.new.board.now) ≡ length (B.kills around.old.board.now)) × Keeps (B.kills around.old.board.now) (B.kills around.new.board.now)
            × B.ready around.new.board.now × B.same around.old.board.now around.new.board.now }
        ensures pools { (P.nodes around.new.pools.now ≡ P.nodes around.old.pools.now) × P.ready around.new.pools.now × P.same around.old.pools.now around.new.pools.now }
    {
        let asker = around.asker();
        self.segment
            .answer(slip, asker, around.clock, Reply::Whole, Reply::Whole)
    }

    /// Answers a drain where no live column is on the node.
    pub fn clear<B: Board, P: Pools, H: Shelf<Region = R>, W: Rule>(
        &mut self,
        slip: &mut Slip,
        around: &mut Around<'_, B, P, H, W>,
    ) -> Outcome
        requires next { next_step self.old around.old.caller.0 (call_in slip.old) ≡ step.Clear }
        requires asked { IsAsked self.old around.old.caller.0 around.old.number slip.old (call_in slip.old) }
        requires board { (length (B.kills around.old.board.now) ≡ self.old.site.nodes) × B.ready around.old.board.now }
        requires pools { (P.nodes around.old.pools.now ≡ self.old.site.nodes) × P.ready around.old.pools.now × P.Came around.old.pools.now (rooms_of self.old) }
        requires shelf { (node : ℕ) → node < self.old.site.nodes → is_frail self.old.frail node ≡ false → (H.regions around.old.shelf.now).never_fail (node_id node) ≡ true }
        requires bench { around.old.bench.now ≡ self.old.site.shape }
        requires room { HasRoom 2 self.old }
        ensures makes { (w : Setting) → IsSettingOf w self.old → ((x : ℕ) → w.seen x ≡ kills_at (B.kills around.new.board.now) x)
            → Makes w (request_of around.old.caller.0 around.old.number (call_in slip.old)) around.old.clock.now around.new.clock.now (is_answered result) self.old self.new }
        ensures exact { (w : Setting) → ((x : ℕ) → w.known x ≡ kills_at (B.kills around.old.board.now) x) → Exactly w (step.Clear) result self.old self.new }
        ensures outcome { IsOutcome result (request_of around.old.caller.0 around.old.number (call_in slip.old)) around.new.clock.now self.new slip.new }
        ensures told { slip.new.reply ≡ Some Clear }
        ensures costs { NoneFails self.old self.new → Costs self.old around.old.caller.0 (call_in slip.old) (step.Clear) self.new }
        ensures rooms { (rest : List Room) → P.Came around.old.pools.now (rooms_of self.old ++ rest) → P.Came around.new.pools.now (rooms_of self.new ++ rest) }
        ensures balance { Balances (P.free around.old.pools.now) (P.free around.new.pools.now) (rooms_of self.old) (rooms_of self.new) }
        ensures lent { (around.new.board.ghost_name ≡ around.old.board.ghost_name) × (around.new.pools.ghost_name ≡ around.old.pools.ghost_name)
            × (around.new.bench.ghost_name ≡ around.old.bench.ghost_name) × (around.new.clock.ghost_name ≡ around.old.clock.ghost_name) }
        ensures who { (around.new.caller ≡ around.old.caller) × (around.new.number ≡ around.old.number) × (around.new.bench.now ≡ around.old.bench.now) }
        ensures board { (length (B.kills around.new.board.now) ≡ length (B.kills around.old.board.now)) × Keeps (B.kills around.old.board.now) (B.kills around.new.board.now)
            × B.ready around.new.board.now × B.same around.old.board.now around.new.board.now }
        ensures pools { (P.nodes around.new.pools.now ≡ P.nodes around.old.pools.now) × P.ready around.new.pools.now × P.same around.old.pools.now around.new.pools.now }
    {
        let asker = around.asker();
        self.segment
            .answer(slip, asker, around.clock, Reply::Clear, Reply::Clear)
    }
}

impl<R: Region> Stands for Stripe<R> {
    ghost use Rattle.cod_seg.specs.Next.{open_in};
    ghost use Rattle.cod_stripe.specs.Standing.{gauge_of, IsStep, name_of};

    ghost entries = { λ s. s.log };

    ghost name = { name_of };

    ghost gauge = { gauge_of };

    ghost open_calls = { λ s. open_in s };

    ghost event = { IsStep };

    fn chronicle(&self) -> &Chronicle {
        &self.segment.chronicle
    }
}
