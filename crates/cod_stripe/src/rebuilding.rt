//! Columns that go down, and come up or move elsewhere.

ghost use Rattle.std.specs.Prelude.{◌≡◌, ◌+◌, ◌<◌, ◌≤◌, ◌++◌, ℕ, List, None, Some, length, false, true};
ghost use Rattle.cod_board.specs.Kills.{Keeps, kill_of};
ghost use Rattle.cod_chronicle.specs.Event.{Request, Setting};
ghost use Rattle.cod_chronicle.specs.Legal.{node_id};
ghost use Rattle.cod_chronicle.specs.Said.{numbers_by};
ghost use Rattle.cod_place.specs.Room.{Room};
ghost use Rattle.cod_seg.specs.Next.{next_step, open_in};
ghost use Rattle.cod_seg.specs.Seg.{Rebuilding, Target};
ghost use Rattle.cod_seg.specs.Sound.{is_frail};
ghost use Rattle.cod_seg.specs.declared.next.Step.TheVariants as step;
ghost use Rattle.cod_segment.specs.Events.{Balances, call_in, Costs, HasRoom, is_answered, IsAsked, IsOutcome, IsSettingOf, kills_at, Makes, NoneFails, request_of, rooms_of, Swept};
ghost use Rattle.cod_segment.specs.Exact.{Exactly, SweepsExactly};
ghost use Rattle.cod_segment.specs.Looks.{HasLooked};
ghost use Rattle.cod_types.specs.declared.call.Reply.TheVariants.{Lost, Rebuilt};

use crate::around::Around;
use crate::stripe::Stripe;
use cod_board::Board;
use cod_claims::Slip;
use cod_place::Pools;
use cod_predict::{Policy, Rule};
use cod_region::{Region, Shelf};
use cod_segment::Outcome;

impl<R: Region> Stripe<R> {
    /// The first of an event: each live column, in order, whose node is down on the board goes down. Where the node of the target of a
    /// rebuild is down, the target is let go and its room given back.
    pub fn sweep<B: Board, P: Pools, H: Shelf<Region = R>, W: Rule>(
        &mut self,
        around: &mut Around<'_, B, P, H, W>,
    )
        requires board { (length (B.kills around.old.board.now) ≡ self.old.site.nodes) × B.ready around.old.board.now }
        requires pools { (P.nodes around.old.pools.now ≡ self.old.site.nodes) × P.ready around.old.pools.now × P.Came around.old.pools.now (rooms_of self.old) }
        requires room { HasRoom 0 self.old }
        ensures makes { (w : Setting) (r : Request) → IsSettingOf w self.old
            → ((x : ℕ) → w.known x ≡ kills_at (B.kills around.old.board.now) x) → ((x : ℕ) → w.seen x ≡ kills_at (B.kills around.new.board.now) x)
            → Makes w r around.old.clock.now around.new.clock.now false self.old self.new × Swept w self.old around.old.clock.now around.new.clock.now self.new
            × SweepsExactly w self.old self.new }
        ensures same { (self.new.site ≡ self.old.site) × (self.new.frail ≡ self.old.frail) × (self.new.pools ≡ self.old.pools)
            × (self.new.cuts ≡ self.old.cuts) × (self.new.claims ≡ self.old.claims) × (self.new.version ≡ self.old.version) }
        ensures numbers { (caller : ℕ) → numbers_by caller self.new.log ≡ numbers_by caller self.old.log }
        ensures open { (caller : ℕ) → open_in self.new caller ≡ open_in self.old caller }
        ensures long { length self.new.log ≤ length self.old.log + self.old.site.shape.n }
        ensures target { (r : Rebuilding) (t : Target) → self.new.rebuild ≡ Some r → r.target ≡ Some t → kill_of (B.kills around.new.board.now) t.room.node.0 ≡ None }
        ensures rooms { (rest : List Room) → P.Came around.old.pools.now (rooms_of self.old ++ rest) → P.Came around.new.pools.now (rooms_of self.new ++ rest) }
        ensures balance { Balances (P.free around.old.pools.now) (P.free around.new.pools.now) (rooms_of self.old) (rooms_of self.new) }
        ensures lent { (around.new.board.ghost_name ≡ around.old.board.ghost_name) × (around.new.pools.ghost_name ≡ around.old.pools.ghost_name)
            × (around.new.bench.ghost_name ≡ around.old.bench.ghost_name) × (around.new.clock.ghost_name ≡ around.old.clock.ghost_name) }
        ensures who { (around.new.caller ≡ around.old.caller) × (around.new.number ≡ around.old.number) × (around.new.bench.now ≡ around.old.bench.now) }
        ensures shelf { around.new.shelf.now ≡ around.old.shelf.now }
        ensures board { (length (B.kills around.new.board.now) ≡ length (B.kills around.old.board.now)) × Keeps (B.kills around.old.board.now) (B.kills around.new.board.now)
            × B.ready around.new.board.now × B.same around.old.board.now around.new.board.now }
        ensures pools { (P.nodes around.new.pools.now ≡ P.nodes around.old.pools.now) × P.ready around.new.pools.now × P.same around.old.pools.now around.new.pools.now }
    {
        cod_recovery::sweep(&mut self.segment, around.board, around.pools, around.clock)
    }

    /// Answers that too many columns are down. The caller's claims end, and its rebuild, whose room is given back.
    pub fn lost<B: Board, P: Pools, H: Shelf<Region = R>, W: Rule>(
        &mut self,
        slip: &mut Slip,
        around: &mut Around<'_, B, P, H, W>,
    ) -> Outcome
        requires next { next_step self.old around.old.caller.0 (call_in slip.old) ≡ step.Lost }
        requires asked { IsAsked self.old around.old.caller.0 around.old.number slip.old (call_in slip.old) }
        requires board { (length (B.kills around.old.board.now) ≡ self.old.site.nodes) × B.ready around.old.board.now }
        requires pools { (P.nodes around.old.pools.now ≡ self.old.site.nodes) × P.ready around.old.pools.now × P.Came around.old.pools.now (rooms_of self.old) }
        requires shelf { (node : ℕ) → node < self.old.site.nodes → is_frail self.old.frail node ≡ false → (H.regions around.old.shelf.now).never_fail (node_id node) ≡ true }
        requires bench { around.old.bench.now ≡ self.old.site.shape }
        requires room { HasRoom 2 self.old }
        ensures makes { (w : Setting) → IsSettingOf w self.old → ((x : ℕ) → w.seen x ≡ kills_at (B.kills around.new.board.now) x)
            → Makes w (request_of around.old.caller.0 around.old.number (call_in slip.old)) around.old.clock.now around.new.clock.now (is_answered result) self.old self.new }
        ensures exact { (w : Setting) → ((x : ℕ) → w.known x ≡ kills_at (B.kills around.old.board.now) x) → Exactly w step.Lost result self.old self.new }
        ensures outcome { IsOutcome result (request_of around.old.caller.0 around.old.number (call_in slip.old)) around.new.clock.now self.new slip.new }
        ensures told { slip.new.reply ≡ Some Lost }
        ensures costs { NoneFails self.old self.new → Costs self.old around.old.caller.0 (call_in slip.old) step.Lost self.new }
        ensures rooms { (rest : List Room) → P.Came around.old.pools.now (rooms_of self.old ++ rest) → P.Came around.new.pools.now (rooms_of self.new ++ rest) }
        ensures balance { Balances (P.free around.old.pools.now) (P.free around.new.pools.now) (rooms_of self.old) (rooms_of self.new) }
        ensures lent { (around.new.board.ghost_name ≡ around.old.board.ghost_name) × (around.new.pools.ghost_name ≡ around.old.pools.ghost_name)
            × (around.new.bench.ghost_name ≡ around.old.bench.ghost_name) × (around.new.clock.ghost_name ≡ around.old.clock.ghost_name) }
        ensures who { (around.new.caller ≡ around.old.caller) × (around.new.number ≡ around.old.number) × (around.new.bench.now ≡ around.old.bench.now) }
        ensures board { (length (B.kills around.new.board.now) ≡ length (B.kills around.old.board.now)) × Keeps (B.kills around.old.board.now) (B.kills around.new.board.now)
            × B.ready around.new.board.now × B.same around.old.board.now around.new.board.now }
        ensures pools { (P.nodes around.new.pools.now ≡ P.nodes around.old.pools.now) × P.ready around.new.pools.now × P.same around.old.pools.now around.new.pools.now }
    {
        let asker = around.asker();
        cod_recovery::lost(&mut self.segment, slip, asker, around.pools, around.clock)
    }

    /// Gives a rebuild a target on a spare node. Where there is none, or no memory, it answers.
    pub fn rebuild_start<B: Board, P: Pools, H: Shelf<Region = R>, W: Rule>(
        &mut self,
        slip: &mut Slip,
        around: &mut Around<'_, B, P, H, W>,
    ) -> Outcome
        requires next { next_step self.old around.old.caller.0 (call_in slip.old) ≡ step.RebuildStart }
        requires asked { IsAsked self.old around.old.caller.0 around.old.number slip.old (call_in slip.old) }
        requires board { (length (B.kills around.old.board.now) ≡ self.old.site.nodes) × B.ready around.old.board.now }
        requires pools { (P.nodes around.old.pools.now ≡ self.old.site.nodes) × P.ready around.old.pools.now × P.Came around.old.pools.now (rooms_of self.old) }
        requires shelf { (node : ℕ) → node < self.old.site.nodes → is_frail self.old.frail node ≡ false → (H.regions around.old.shelf.now).never_fail (node_id node) ≡ true }
        requires bench { around.old.bench.now ≡ self.old.site.shape }
        requires room { HasRoom 2 self.old }
        ensures makes { (w : Setting) → IsSettingOf w self.old → ((x : ℕ) → w.seen x ≡ kills_at (B.kills around.new.board.now) x)
            → Makes w (request_of around.old.caller.0 around.old.number (call_in slip.old)) around.old.clock.now around.new.clock.now (is_answered result) self.old self.new }
        ensures exact { (w : Setting) → ((x : ℕ) → w.known x ≡ kills_at (B.kills around.old.board.now) x) → Exactly w step.RebuildStart result self.old self.new }
        ensures outcome { IsOutcome result (request_of around.old.caller.0 around.old.number (call_in slip.old)) around.new.clock.now self.new slip.new }
        ensures looked { HasLooked (P.Seen around.old.pools.now around.new.pools.now) slip.new.reply }
        ensures costs { NoneFails self.old self.new → Costs self.old around.old.caller.0 (call_in slip.old) step.RebuildStart self.new }
        ensures rooms { (rest : List Room) → P.Came around.old.pools.now (rooms_of self.old ++ rest) → P.Came around.new.pools.now (rooms_of self.new ++ rest) }
        ensures balance { Balances (P.free around.old.pools.now) (P.free around.new.pools.now) (rooms_of self.old) (rooms_of self.new) }
        ensures lent { (around.new.board.ghost_name ≡ around.old.board.ghost_name) × (around.new.pools.ghost_name ≡ around.old.pools.ghost_name)
            × (around.new.bench.ghost_name ≡ around.old.bench.ghost_name) × (around.new.clock.ghost_name ≡ around.old.clock.ghost_name) }
        ensures who { (around.new.caller ≡ around.old.caller) × (around.new.number ≡ around.old.number) × (around.new.bench.now ≡ around.old.bench.now) }
        ensures board { (length (B.kills around.new.board.now) ≡ length (B.kills around.old.board.now)) × Keeps (B.kills around.old.board.now) (B.kills around.new.board.now)
            × B.ready around.new.board.now × B.same around.old.board.now around.new.board.now }
        ensures pools { (P.nodes around.new.pools.now ≡ P.nodes around.old.pools.now) × P.ready around.new.pools.now × P.same around.old.pools.now around.new.pools.now }
    {
        let asker = around.asker();
        cod_placing::rebuild_start(
            &mut self.segment,
            slip,
            asker,
            around.alloc,
            around.board,
            around.pools,
            around.shelf,
            around.clock,
        )
    }

    /// Brings the next bytes, at most 4096, to the target of a rebuild.
    pub fn rebuild_piece<B: Board, P: Pools, H: Shelf<Region = R>, W: Rule>(
        &mut self,
        slip: &mut Slip,
        around: &mut Around<'_, B, P, H, W>,
    ) -> Outcome
        requires next { next_step self.old around.old.caller.0 (call_in slip.old) ≡ step.RebuildPiece }
        requires asked { IsAsked self.old around.old.caller.0 around.old.number slip.old (call_in slip.old) }
        requires board { (length (B.kills around.old.board.now) ≡ self.old.site.nodes) × B.ready around.old.board.now }
        requires pools { (P.nodes around.old.pools.now ≡ self.old.site.nodes) × P.ready around.old.pools.now × P.Came around.old.pools.now (rooms_of self.old) }
        requires shelf { (node : ℕ) → node < self.old.site.nodes → is_frail self.old.frail node ≡ false → (H.regions around.old.shelf.now).never_fail (node_id node) ≡ true }
        requires bench { around.old.bench.now ≡ self.old.site.shape }
        requires room { HasRoom 2 self.old }
        ensures makes { (w : Setting) → IsSettingOf w self.old → ((x : ℕ) → w.seen x ≡ kills_at (B.kills around.new.board.now) x)
            → Makes w (request_of around.old.caller.0 around.old.number (call_in slip.old)) around.old.clock.now around.new.clock.now (is_answered result) self.old self.new }
        ensures exact { (w : Setting) → ((x : ℕ) → w.known x ≡ kills_at (B.kills around.old.board.now) x) → Exactly w step.RebuildPiece result self.old self.new }
        ensures outcome { IsOutcome result (request_of around.old.caller.0 around.old.number (call_in slip.old)) around.new.clock.now self.new slip.new }
        ensures slip { slip.new ≡ slip.old }
        ensures costs { NoneFails self.old self.new → Costs self.old around.old.caller.0 (call_in slip.old) step.RebuildPiece self.new }
        ensures rooms { (rest : List Room) → P.Came around.old.pools.now (rooms_of self.old ++ rest) → P.Came around.new.pools.now (rooms_of self.new ++ rest) }
        ensures balance { Balances (P.free around.old.pools.now) (P.free around.new.pools.now) (rooms_of self.old) (rooms_of self.new) }
        ensures lent { (around.new.board.ghost_name ≡ around.old.board.ghost_name) × (around.new.pools.ghost_name ≡ around.old.pools.ghost_name)
            × (around.new.bench.ghost_name ≡ around.old.bench.ghost_name) × (around.new.clock.ghost_name ≡ around.old.clock.ghost_name) }
        ensures who { (around.new.caller ≡ around.old.caller) × (around.new.number ≡ around.old.number) × (around.new.bench.now ≡ around.old.bench.now) }
        ensures board { (length (B.kills around.new.board.now) ≡ length (B.kills around.old.board.now)) × Keeps (B.kills around.old.board.now) (B.kills around.new.board.now)
            × B.ready around.new.board.now × B.same around.old.board.now around.new.board.now }
        ensures pools { (P.nodes around.new.pools.now ≡ P.nodes around.old.pools.now) × P.ready around.new.pools.now × P.same around.old.pools.now around.new.pools.now }
    {
        let asker = around.asker();
        cod_recovery::rebuild_piece(
            &mut self.segment,
            slip,
            asker,
            around.pools,
            around.bench,
            around.clock,
        )
    }

    /// Brings the column of a rebuild up on its target, and answers.
    pub fn rebuild_end<B: Board, P: Pools, H: Shelf<Region = R>, W: Rule>(
        &mut self,
        slip: &mut Slip,
        around: &mut Around<'_, B, P, H, W>,
    ) -> Outcome
        requires next { next_step self.old around.old.caller.0 (call_in slip.old) ≡ step.RebuildEnd }
        requires asked { IsAsked self.old around.old.caller.0 around.old.number slip.old (call_in slip.old) }
        requires board { (length (B.kills around.old.board.now) ≡ self.old.site.nodes) × B.ready around.old.board.now }
        requires pools { (P.nodes around.old.pools.now ≡ self.old.site.nodes) × P.ready around.old.pools.now × P.Came around.old.pools.now (rooms_of self.old) }
        requires shelf { (node : ℕ) → node < self.old.site.nodes → is_frail self.old.frail node ≡ false → (H.regions around.old.shelf.now).never_fail (node_id node) ≡ true }
        requires bench { around.old.bench.now ≡ self.old.site.shape }
        requires room { HasRoom 2 self.old }
        ensures makes { (w : Setting) → IsSettingOf w self.old → ((x : ℕ) → w.seen x ≡ kills_at (B.kills around.new.board.now) x)
            → Makes w (request_of around.old.caller.0 around.old.number (call_in slip.old)) around.old.clock.now around.new.clock.now (is_answered result) self.old self.new }
        ensures exact { (w : Setting) → ((x : ℕ) → w.known x ≡ kills_at (B.kills around.old.board.now) x) → Exactly w step.RebuildEnd result self.old self.new }
        ensures outcome { IsOutcome result (request_of around.old.caller.0 around.old.number (call_in slip.old)) around.new.clock.now self.new slip.new }
        ensures told { (r : Rebuilding) × (t : Target) × (self.old.rebuild ≡ Some r) × (r.target ≡ Some t) × (slip.new.reply ≡ Some (Rebuilt r.col t.room.node)) }
        ensures costs { NoneFails self.old self.new → Costs self.old around.old.caller.0 (call_in slip.old) step.RebuildEnd self.new }
        ensures rooms { (rest : List Room) → P.Came around.old.pools.now (rooms_of self.old ++ rest) → P.Came around.new.pools.now (rooms_of self.new ++ rest) }
        ensures balance { Balances (P.free around.old.pools.now) (P.free around.new.pools.now) (rooms_of self.old) (rooms_of self.new) }
        ensures lent { (around.new.board.ghost_name ≡ around.old.board.ghost_name) × (around.new.pools.ghost_name ≡ around.old.pools.ghost_name)
            × (around.new.bench.ghost_name ≡ around.old.bench.ghost_name) × (around.new.clock.ghost_name ≡ around.old.clock.ghost_name) }
        ensures who { (around.new.caller ≡ around.old.caller) × (around.new.number ≡ around.old.number) × (around.new.bench.now ≡ around.old.bench.now) }
        ensures board { (length (B.kills around.new.board.now) ≡ length (B.kills around.old.board.now)) × Keeps (B.kills around.old.board.now) (B.kills around.new.board.now)
            × B.ready around.new.board.now × B.same around.old.board.now around.new.board.now }
        ensures pools { (P.nodes around.new.pools.now ≡ P.nodes around.old.pools.now) × P.ready around.new.pools.now × P.same around.old.pools.now around.new.pools.now }
    {
        let asker = around.asker();
        cod_recovery::rebuild_end(&mut self.segment, slip, asker, around.pools, around.clock)
    }

    /// Moves the live column off a node, and answers. The second policy gives a parity column its new average.
    pub fn drain<B: Board, P: Pools, H: Shelf<Region = R>, W: Rule, V: Rule>(
        &mut self,
        slip: &mut Slip,
        around: &mut Around<'_, B, P, H, W>,
        second: &Policy<V>,
    ) -> Outcome
        requires next { next_step self.old around.old.caller.0 (call_in slip.old) ≡ step.Drain }
        requires asked { IsAsked self.old around.old.caller.0 around.old.number slip.old (call_in slip.old) }
        requires board { (length (B.kills around.old.board.now) ≡ self.old.site.nodes) × B.ready around.old.board.now }
        requires pools { (P.nodes around.old.pools.now ≡ self.old.site.nodes) × P.ready around.old.pools.now × P.Came around.old.pools.now (rooms_of self.old) }
        requires shelf { (node : ℕ) → node < self.old.site.nodes → is_frail self.old.frail node ≡ false → (H.regions around.old.shelf.now).never_fail (node_id node) ≡ true }
        requires bench { around.old.bench.now ≡ self.old.site.shape }
        requires room { HasRoom 2 self.old }
        ensures makes { (w : Setting) → IsSettingOf w self.old → ((x : ℕ) → w.seen x ≡ kills_at (B.kills around.new.board.now) x)
            → Makes w (request_of around.old.caller.0 around.old.number (call_in slip.old)) around.old.clock.now around.new.clock.now (is_answered result) self.old self.new }
        ensures exact { (w : Setting) → ((x : ℕ) → w.known x ≡ kills_at (B.kills around.old.board.now) x) → Exactly w step.Drain result self.old self.new }
        ensures outcome { IsOutcome result (request_of around.old.caller.0 around.old.number (call_in slip.old)) around.new.clock.now self.new slip.new }
        ensures looked { HasLooked (P.Seen around.old.pools.now around.new.pools.now) slip.new.reply }
        ensures costs { NoneFails self.old self.new → Costs self.old around.old.caller.0 (call_in slip.old) step.Drain self.new }
        ensures rooms { (rest : List Room) → P.Came around.old.pools.now (rooms_of self.old ++ rest) → P.Came around.new.pools.now (rooms_of self.new ++ rest) }
        ensures balance { Balances (P.free around.old.pools.now) (P.free around.new.pools.now) (rooms_of self.old) (rooms_of self.new) }
        ensures lent { (around.new.board.ghost_name ≡ around.old.board.ghost_name) × (around.new.pools.ghost_name ≡ around.old.pools.ghost_name)
            × (around.new.bench.ghost_name ≡ around.old.bench.ghost_name) × (around.new.clock.ghost_name ≡ around.old.clock.ghost_name) }
        ensures who { (around.new.caller ≡ around.old.caller) × (around.new.number ≡ around.old.number) × (around.new.bench.now ≡ around.old.bench.now) }
        ensures board { (length (B.kills around.new.board.now) ≡ length (B.kills around.old.board.now)) × Keeps (B.kills around.old.board.now) (B.kills around.new.board.now)
            × B.ready around.new.board.now × B.same around.old.board.now around.new.board.now }
        ensures pools { (P.nodes around.new.pools.now ≡ P.nodes around.old.pools.now) × P.ready around.new.pools.now × P.same around.old.pools.now around.new.pools.now }
    {
        let asker = around.asker();
        cod_drain::drain(
            &mut self.segment,
            slip,
            asker,
            around.alloc,
            around.board,
            around.pools,
            around.shelf,
            second,
            around.bench,
            around.clock,
        )
    }
}
