//! A write or a swap, from its claims to its commit.

ghost use Rattle.std.specs.Prelude.{◌≡◌, ◌+◌, ◌<◌, ◌≤◌, ◌++◌, ℕ, List, None, Some, length, false, true};
ghost use Rattle.cod_board.specs.Kills.{Keeps, kill_of};
ghost use Rattle.cod_chronicle.specs.Event.{Request, Setting};
ghost use Rattle.cod_chronicle.specs.Legal.{node_id};
ghost use Rattle.cod_chronicle.specs.Said.{numbers_by};
ghost use Rattle.cod_place.specs.Room.{Room};
ghost use Rattle.cod_seg.specs.Next.{next_step, open_in};
ghost use Rattle.cod_seg.specs.Seg.{Rebuilding, Target};
ghost use Rattle.cod_seg.specs.Sound.{is_frail};
ghost use Rattle.cod_seg.specs.declared.next.Step.TheVariants as step;
ghost use Rattle.cod_segment.specs.Events.{Balances, call_in, Costs, HasRoom, is_answered, IsAsked, IsOutcome, IsSettingOf, kills_at, Makes, NoneFails, request_of, rooms_of, Swept};
ghost use Rattle.cod_segment.specs.Exact.{Exactly, SweepsExactly};

use crate::around::Around;
use crate::stripe::Stripe;
use cod_board::Board;
use cod_claims::Slip;
use cod_place::Pools;
use cod_predict::Rule;
use cod_region::{Region, Shelf};
use cod_segment::Outcome;

impl<R: Region> Stripe<R> {
    /// Reads the old bytes of an update and claims its blocks. One of no bytes is answered, and a swap that finds others.
    pub fn begin<B: Board, P: Pools, H: Shelf<Region = R>, W: Rule>(
        &mut self,
        slip: &mut Slip,
        around: &mut Around<'_, B, P, H, W>,
    ) -> Outcome
        requires next { next_step self.old around.old.caller.0 (call_in slip.old) ≡ step.Begin }
        requires asked { IsAsked self.old around.old.caller.0 around.old.number slip.old (call_in slip.old) }
        requires board { (length (B.kills around.old.board.now) ≡ self.old.site.nodes) × B.ready around.old.board.now }
        requires pools { (P.nodes around.old.pools.now ≡ self.old.site.nodes) × P.ready around.old.pools.now × P.Came around.old.pools.now (rooms_of self.old) }
        requires shelf { (node : ℕ) → node < self.old.site.nodes → is_frail self.old.frail node ≡ false → (H.regions around.old.shelf.now).never_fail (node_id node) ≡ true }
        requires bench { around.old.bench.now ≡ self.old.site.shape }
        requires room { HasRoom 2 self.old }
        ensures makes { (w : Setting) → IsSettingOf w self.old → ((x : ℕ) → w.seen x ≡ kills_at (B.kills around.new.board.now) x)
            → Makes w (request_of around.old.caller.0 around.old.number (call_in slip.old)) around.old.clock.now around.new.clock.now (is_answered result) self.old self.new }
        ensures exact { (w : Setting) → ((x : ℕ) → w.known x ≡ kills_at (B.kills around.old.board.now) x) → Exactly w step.Begin result self.old self.new }
        ensures outcome { IsOutcome result (request_of around.old.caller.0 around.old.number (call_in slip.old)) around.new.clock.now self.new slip.new }
        ensures costs { NoneFails self.old self.new → Costs self.old around.old.caller.0 (call_in slip.old) step.Begin self.new }
        ensures rooms { (rest : List Room) → P.Came around.old.pools.now (rooms_of self.old ++ rest) → P.Came around.new.pools.now (rooms_of self.new ++ rest) }
        ensures balance { Balances (P.free around.old.pools.now) (P.free around.new.pools.now) (rooms_of self.old) (rooms_of self.new) }
        ensures lent { (around.new.board.ghost_name ≡ around.old.board.ghost_name) × (around.new.pools.ghost_name ≡ around.old.pools.ghost_name)
            × (around.new.bench.ghost_name ≡ around.old.bench.ghost_name) × (around.new.clock.ghost_name ≡ around.old.clock.ghost_name) }
        ensures who { (around.new.caller ≡ around.old.caller) × (around.new.number ≡ around.old.number) × (around.new.bench.now ≡ around.old.bench.now) }
        ensures board { (length (B.kills around.new.board.now) ≡ length (B.kills around.old.board.now)) × Keeps (B.kills around.old.board.now) (B.kills around.new.board.now)
            × B.ready around.new.board.now × B.same around.old.board.now around.new.board.now }
        ensures pools { (P.nodes around.new.pools.now ≡ P.nodes around.old.pools.now) × P.ready around.new.pools.now × P.same around.old.pools.now around.new.pools.now }
    {
        let asker = around.asker();
        cod_reading::begin(&mut self.segment, slip, asker, around.bench, around.clock)
    }

    /// Writes an update's part in place.
    pub fn data_step<B: Board, P: Pools, H: Shelf<Region = R>, W: Rule>(
        &mut self,
        slip: &mut Slip,
        around: &mut Around<'_, B, P, H, W>,
        block: u8,
    ) -> Outcome
        requires next { next_step self.old around.old.caller.0 (call_in slip.old) ≡ (step.Data block) }
        requires asked { IsAsked self.old around.old.caller.0 around.old.number slip.old (call_in slip.old) }
        requires board { (length (B.kills around.old.board.now) ≡ self.old.site.nodes) × B.ready around.old.board.now }
        requires pools { (P.nodes around.old.pools.now ≡ self.old.site.nodes) × P.ready around.old.pools.now × P.Came around.old.pools.now (rooms_of self.old) }
        requires shelf { (node : ℕ) → node < self.old.site.nodes → is_frail self.old.frail node ≡ false → (H.regions around.old.shelf.now).never_fail (node_id node) ≡ true }
        requires bench { around.old.bench.now ≡ self.old.site.shape }
        requires room { HasRoom 2 self.old }
        ensures makes { (w : Setting) → IsSettingOf w self.old → ((x : ℕ) → w.seen x ≡ kills_at (B.kills around.new.board.now) x)
            → Makes w (request_of around.old.caller.0 around.old.number (call_in slip.old)) around.old.clock.now around.new.clock.now (is_answered result) self.old self.new }
        ensures exact { (w : Setting) → ((x : ℕ) → w.known x ≡ kills_at (B.kills around.old.board.now) x) → Exactly w (step.Data block) result self.old self.new }
        ensures outcome { IsOutcome result (request_of around.old.caller.0 around.old.number (call_in slip.old)) around.new.clock.now self.new slip.new }
        ensures costs { NoneFails self.old self.new → Costs self.old around.old.caller.0 (call_in slip.old) (step.Data block) self.new }
        ensures rooms { (rest : List Room) → P.Came around.old.pools.now (rooms_of self.old ++ rest) → P.Came around.new.pools.now (rooms_of self.new ++ rest) }
        ensures balance { Balances (P.free around.old.pools.now) (P.free around.new.pools.now) (rooms_of self.old) (rooms_of self.new) }
        ensures lent { (around.new.board.ghost_name ≡ around.old.board.ghost_name) × (around.new.pools.ghost_name ≡ around.old.pools.ghost_name)
            × (around.new.bench.ghost_name ≡ around.old.bench.ghost_name) × (around.new.clock.ghost_name ≡ around.old.clock.ghost_name) }
        ensures who { (around.new.caller ≡ around.old.caller) × (around.new.number ≡ around.old.number) × (around.new.bench.now ≡ around.old.bench.now) }
        ensures board { (length (B.kills around.new.board.now) ≡ length (B.kills around.old.board.now)) × Keeps (B.kills around.old.board.now) (B.kills around.new.board.now)
            × B.ready around.new.board.now × B.same around.old.board.now around.new.board.now }
        ensures pools { (P.nodes around.new.pools.now ≡ P.nodes around.old.pools.now) × P.ready around.new.pools.now × P.same around.old.pools.now around.new.pools.now }
    {
        let asker = around.asker();
        cod_update::data_step(&mut self.segment, slip, asker, block, around.clock)
    }

    /// Appends the record of an update's part to a parity column.
    pub fn parity_step<B: Board, P: Pools, H: Shelf<Region = R>, W: Rule>(
        &mut self,
        slip: &mut Slip,
        around: &mut Around<'_, B, P, H, W>,
        block: u8,
        col: u8,
    ) -> Outcome
        requires next { next_step self.old around.old.caller.0 (call_in slip.old) ≡ (step.Parity block col) }
        requires asked { IsAsked self.old around.old.caller.0 around.old.number slip.old (call_in slip.old) }
        requires board { (length (B.kills around.old.board.now) ≡ self.old.site.nodes) × B.ready around.old.board.now }
        requires pools { (P.nodes around.old.pools.now ≡ self.old.site.nodes) × P.ready around.old.pools.now × P.Came around.old.pools.now (rooms_of self.old) }
        requires shelf { (node : ℕ) → node < self.old.site.nodes → is_frail self.old.frail node ≡ false → (H.regions around.old.shelf.now).never_fail (node_id node) ≡ true }
        requires bench { around.old.bench.now ≡ self.old.site.shape }
        requires room { HasRoom 2 self.old }
        ensures makes { (w : Setting) → IsSettingOf w self.old → ((x : ℕ) → w.seen x ≡ kills_at (B.kills around.new.board.now) x)
            → Makes w (request_of around.old.caller.0 around.old.number (call_in slip.old)) around.old.clock.now around.new.clock.now (is_answered result) self.old self.new }
        ensures exact { (w : Setting) → ((x : ℕ) → w.known x ≡ kills_at (B.kills around.old.board.now) x) → Exactly w (step.Parity block col) result self.old self.new }
        ensures outcome { IsOutcome result (request_of around.old.caller.0 around.old.number (call_in slip.old)) around.new.clock.now self.new slip.new }
        ensures costs { NoneFails self.old self.new → Costs self.old around.old.caller.0 (call_in slip.old) (step.Parity block col) self.new }
        ensures rooms { (rest : List Room) → P.Came around.old.pools.now (rooms_of self.old ++ rest) → P.Came around.new.pools.now (rooms_of self.new ++ rest) }
        ensures balance { Balances (P.free around.old.pools.now) (P.free around.new.pools.now) (rooms_of self.old) (rooms_of self.new) }
        ensures lent { (around.new.board.ghost_name ≡ around.old.board.ghost_name) × (around.new.pools.ghost_name ≡ around.old.pools.ghost_name)
            × (around.new.bench.ghost_name ≡ around.old.bench.ghost_name) × (around.new.clock.ghost_name ≡ around.old.clock.ghost_name) }
        ensures who { (around.new.caller ≡ around.old.caller) × (around.new.number ≡ around.old.number) × (around.new.bench.now ≡ around.old.bench.now) }
        ensures board { (length (B.kills around.new.board.now) ≡ length (B.kills around.old.board.now)) × Keeps (B.kills around.old.board.now) (B.kills around.new.board.now)
            × B.ready around.new.board.now × B.same around.old.board.now around.new.board.now }
        ensures pools { (P.nodes around.new.pools.now ≡ P.nodes around.old.pools.now) × P.ready around.new.pools.now × P.same around.old.pools.now around.new.pools.now }
    {
        let asker = around.asker();
        cod_update::parity_step(
            &mut self.segment,
            slip,
            asker,
            block,
            col,
            around.bench,
            around.clock,
        )
    }

    /// Makes an update a part of the segment, and answers.
    pub fn commit<B: Board, P: Pools, H: Shelf<Region = R>, W: Rule>(
        &mut self,
        slip: &mut Slip,
        around: &mut Around<'_, B, P, H, W>,
    ) -> Outcome
        requires next { next_step self.old around.old.caller.0 (call_in slip.old) ≡ step.Commit }
        requires asked { IsAsked self.old around.old.caller.0 around.old.number slip.old (call_in slip.old) }
        requires board { (length (B.kills around.old.board.now) ≡ self.old.site.nodes) × B.ready around.old.board.now }
        requires pools { (P.nodes around.old.pools.now ≡ self.old.site.nodes) × P.ready around.old.pools.now × P.Came around.old.pools.now (rooms_of self.old) }
        requires shelf { (node : ℕ) → node < self.old.site.nodes → is_frail self.old.frail node ≡ false → (H.regions around.old.shelf.now).never_fail (node_id node) ≡ true }
        requires bench { around.old.bench.now ≡ self.old.site.shape }
        requires room { HasRoom 2 self.old }
        ensures makes { (w : Setting) → IsSettingOf w self.old → ((x : ℕ) → w.seen x ≡ kills_at (B.kills around.new.board.now) x)
            → Makes w (request_of around.old.caller.0 around.old.number (call_in slip.old)) around.old.clock.now around.new.clock.now (is_answered result) self.old self.new }
        ensures exact { (w : Setting) → ((x : ℕ) → w.known x ≡ kills_at (B.kills around.old.board.now) x) → Exactly w step.Commit result self.old self.new }
        ensures outcome { IsOutcome result (request_of around.old.caller.0 around.old.number (call_in slip.old)) around.new.clock.now self.new slip.new }
        ensures costs { NoneFails self.old self.new → Costs self.old around.old.caller.0 (call_in slip.old) step.Commit self.new }
        ensures rooms { (rest : List Room) → P.Came around.old.pools.now (rooms_of self.old ++ rest) → P.Came around.new.pools.now (rooms_of self.new ++ rest) }
        ensures balance { Balances (P.free around.old.pools.now) (P.free around.new.pools.now) (rooms_of self.old) (rooms_of self.new) }
        ensures lent { (around.new.board.ghost_name ≡ around.old.board.ghost_name) × (around.new.pools.ghost_name ≡ around.old.pools.ghost_name)
            × (around.new.bench.ghost_name ≡ around.old.bench.ghost_name) × (around.new.clock.ghost_name ≡ around.old.clock.ghost_name) }
        ensures who { (around.new.caller ≡ around.old.caller) × (around.new.number ≡ around.old.number) × (around.new.bench.now ≡ around.old.bench.now) }
        ensures board { (length (B.kills around.new.board.now) ≡ length (B.kills around.old.board.now)) × Keeps (B.kills around.old.board.now) (B.kills around.new.board.now)
            × B.ready around.new.board.now × B.same around.old.board.now around.new.board.now }
        ensures pools { (P.nodes around.new.pools.now ≡ P.nodes around.old.pools.now) × P.ready around.new.pools.now × P.same around.old.pools.now around.new.pools.now }
    {
        let asker = around.asker();
        cod_update::commit(
            &mut self.segment,
            slip,
            asker,
            around.pools,
            around.bench,
            around.clock,
        )
    }
}
