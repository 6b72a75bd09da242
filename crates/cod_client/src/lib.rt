//! A caller of segments: one event of its call at a time.
#![tactic(auto)]

ghost use Rattle.std.specs.Prelude.{◌≡◌, ◌+◌, ◌<◌, ◌^◌, ◌++◌, ℕ, List, length, false, true};
ghost use Rattle.cod_board.specs.Kills.{Keeps};
ghost use Rattle.cod_chronicle.specs.Event.{Setting};
ghost use Rattle.cod_chronicle.specs.Legal.{node_id};
ghost use Rattle.cod_place.specs.Room.{Room};
ghost use Rattle.cod_seg.specs.Next.{next_step};
ghost use Rattle.cod_seg.specs.Sound.{is_frail, Sound};
ghost use Rattle.cod_segment.specs.Advancing.{Follows, IsAdvanced, number_after};
ghost use Rattle.cod_segment.specs.Events.{Balances, call_in, Costs, HasRoom, is_answered, IsAsked, IsOutcome, IsSettingOf, kills_at, Makes, NoneFails, request_of, rooms_of};
ghost use Rattle.cod_segment.specs.Exact.{Exactly, Turns};
ghost use Rattle.cod_segment.specs.Looks.{HasLooked};
ghost use Rattle.cod_client.specs.Waiting.{IsGoing};

use cod_board::Board;
use cod_claims::Slip;
use cod_place::Pools;
use cod_predict::{Policy, Rule};
use cod_region::{Region, Shelf};
use cod_step::Step;
use cod_stripe::{Around, Outcome, Stripe};
use cod_types::Caller;

/// A caller, with the number of its next call.
#[derive(Debug, Drop)]
pub struct Client {
    caller: Caller,
    number: u32,
}

impl Client {
    /// A caller that has made no call yet.
    pub fn new(caller: Caller) -> Client
        ensures { result ≡ record { caller = caller; number = 0 } }
    {
        Client { caller, number: 0 }
    }

    /// Who it is.
    pub fn caller(&self) -> Caller
        ensures { result ≡ self.now.caller }
    {
        self.caller
    }

    /// The number of its next call: how many were answered.
    pub fn number(&self) -> u32
        ensures { result ≡ self.now.number }
    {
        self.number
    }

    /// One event of the call of the slip: the sweep, and then what the next step is. Held comes exactly where the next step
    /// has to wait; then nothing but the sweep was done. Only an answer raises the number.
    pub fn advance<R: Region, B: Board, P: Pools, H: Shelf<Region = R>, W: Rule>(
        &mut self,
        slip: &mut Slip,
        stripe: &mut Stripe<R>,
        around: &mut Around<'_, B, P, H, W>,
    ) -> Outcome
        requires who { (around.old.caller ≡ self.old.caller) × (around.old.number ≡ self.old.number) }
        requires asked { IsAsked stripe.old self.old.caller.0 self.old.number slip.old (call_in slip.old) }
        requires board { (length (B.kills around.old.board.now) ≡ stripe.old.site.nodes) × B.ready around.old.board.now }
        requires pools { (P.nodes around.old.pools.now ≡ stripe.old.site.nodes) × P.ready around.old.pools.now × P.Came around.old.pools.now (rooms_of stripe.old) }
        requires shelf { (node : ℕ) → node < stripe.old.site.nodes → is_frail stripe.old.frail node ≡ false → (H.regions around.old.shelf.now).never_fail (node_id node) ≡ true }
        requires bench { around.old.bench.now ≡ stripe.old.site.shape }
        requires number { self.old.number + 1 < 2 ^ 32 }
        requires room { HasRoom (stripe.old.site.shape.n + 2) stripe.old }
        ensures turns { (w : Setting) → IsSettingOf w stripe.old → ((x : ℕ) → w.known x ≡ kills_at (B.kills around.old.board.now) x)
            → ((x : ℕ) → w.seen x ≡ kills_at (B.kills around.new.board.now) x)
            → Turns w (request_of self.old.caller.0 self.old.number (call_in slip.old)) around.old.clock.now around.new.clock.now result stripe.old stripe.new }
        ensures outcome { IsAdvanced result (request_of self.old.caller.0 self.old.number (call_in slip.old)) around.new.clock.now stripe.new slip.old slip.new }
        ensures number { self.new ≡ record self.old { number = number_after result self.old.number } }
        ensures looked { HasLooked (P.Seen around.old.pools.now around.new.pools.now) slip.new.reply }
        ensures rooms { (rest : List Room) → P.Came around.old.pools.now (rooms_of stripe.old ++ rest) → P.Came around.new.pools.now (rooms_of stripe.new ++ rest) }
        ensures balance { Balances (P.free around.old.pools.now) (P.free around.new.pools.now) (rooms_of stripe.old) (rooms_of stripe.new) }
        ensures lent { (around.new.board.ghost_name ≡ around.old.board.ghost_name) × (around.new.pools.ghost_name ≡ around.old.pools.ghost_name)
            × (around.new.bench.ghost_name ≡ around.old.bench.ghost_name) × (around.new.clock.ghost_name ≡ around.old.clock.ghost_name) }
        ensures who { (around.new.caller ≡ around.old.caller) × (around.new.number ≡ around.old.number) × (around.new.bench.now ≡ around.old.bench.now) }
        ensures board { (length (B.kills around.new.board.now) ≡ length (B.kills around.old.board.now)) × Keeps (B.kills around.old.board.now) (B.kills around.new.board.now)
            × B.ready around.new.board.now × B.same around.old.board.now around.new.board.now }
        ensures pools { (P.nodes around.new.pools.now ≡ P.nodes around.old.pools.now) × P.ready around.new.pools.now × P.same around.old.pools.now around.new.pools.now }
    {
        stripe.sweep(around);
        let outcome = go_on(slip, stripe, around);
        if let Outcome::Answered { .. } = outcome {
            self.number += 1;
        }
        outcome
    }
}

/// What the next step is, or nothing where that waits.
fn go_on<R: Region, B: Board, P: Pools, H: Shelf<Region = R>, W: Rule>(
    slip: &mut Slip,
    stripe: &mut Stripe<R>,
    around: &mut Around<'_, B, P, H, W>,
) -> Outcome
    requires asked { IsAsked stripe.old around.old.caller.0 around.old.number slip.old (call_in slip.old) }
    requires board { (length (B.kills around.old.board.now) ≡ stripe.old.site.nodes) × B.ready around.old.board.now }
    requires pools { (P.nodes around.old.pools.now ≡ stripe.old.site.nodes) × P.ready around.old.pools.now × P.Came around.old.pools.now (rooms_of stripe.old) }
    requires shelf { (node : ℕ) → node < stripe.old.site.nodes → is_frail stripe.old.frail node ≡ false → (H.regions around.old.shelf.now).never_fail (node_id node) ≡ true }
    requires bench { around.old.bench.now ≡ stripe.old.site.shape }
    requires room { HasRoom 2 stripe.old }
    ensures follows { (w : Setting) → IsSettingOf w stripe.old → ((x : ℕ) → w.seen x ≡ kills_at (B.kills around.new.board.now) x)
        → Follows w (request_of around.old.caller.0 around.old.number (call_in slip.old)) around.old.clock.now around.new.clock.now result stripe.old stripe.new }
    ensures exact { (w : Setting) → ((x : ℕ) → w.known x ≡ kills_at (B.kills around.old.board.now) x)
        → Exactly w (next_step stripe.old around.old.caller.0 (call_in slip.old)) result stripe.old stripe.new }
    ensures outcome { IsAdvanced result (request_of around.old.caller.0 around.old.number (call_in slip.old)) around.new.clock.now stripe.new slip.old slip.new }
    ensures looked { HasLooked (P.Seen around.old.pools.now around.new.pools.now) slip.new.reply }
    ensures rooms { (rest : List Room) → P.Came around.old.pools.now (rooms_of stripe.old ++ rest) → P.Came around.new.pools.now (rooms_of stripe.new ++ rest) }
    ensures balance { Balances (P.free around.old.pools.now) (P.free around.new.pools.now) (rooms_of stripe.old) (rooms_of stripe.new) }
    ensures lent { (around.new.board.ghost_name ≡ around.old.board.ghost_name) × (around.new.pools.ghost_name ≡ around.old.pools.ghost_name)
        × (around.new.bench.ghost_name ≡ around.old.bench.ghost_name) × (around.new.clock.ghost_name ≡ around.old.clock.ghost_name) }
    ensures who { (around.new.caller ≡ around.old.caller) × (around.new.number ≡ around.old.number) × (around.new.bench.now ≡ around.old.bench.now) }
    ensures board { (length (B.kills around.new.board.now) ≡ length (B.kills around.old.board.now)) × Keeps (B.kills around.old.board.now) (B.kills around.new.board.now)
        × B.ready around.new.board.now × B.same around.old.board.now around.new.board.now }
    ensures pools { (P.nodes around.new.pools.now ≡ P.nodes around.old.pools.now) × P.ready around.new.pools.now × P.same around.old.pools.now around.new.pools.now }
{
    match stripe.next_step(slip, around.caller) {
        Step::Held(held) => Outcome::Held(held),
        step => {
            let outcome = event(step, slip, stripe, around);
            // that it is sound says what a reply may be
            stripe.sound();
            outcome
        }
    }
}

/// The event of a step that doesn't wait.
fn event<R: Region, B: Board, P: Pools, H: Shelf<Region = R>, W: Rule>(
    step: Step,
    slip: &mut Slip,
    stripe: &mut Stripe<R>,
    around: &mut Around<'_, B, P, H, W>,
) -> Outcome
    requires next { next_step stripe.old around.old.caller.0 (call_in slip.old) ≡ step }
    requires goes { IsGoing step }
    requires asked { IsAsked stripe.old around.old.caller.0 around.old.number slip.old (call_in slip.old) }
    requires board { (length (B.kills around.old.board.now) ≡ stripe.old.site.nodes) × B.ready around.old.board.now }
    requires pools { (P.nodes around.old.pools.now ≡ stripe.old.site.nodes) × P.ready around.old.pools.now × P.Came around.old.pools.now (rooms_of stripe.old) }
    requires shelf { (node : ℕ) → node < stripe.old.site.nodes → is_frail stripe.old.frail node ≡ false → (H.regions around.old.shelf.now).never_fail (node_id node) ≡ true }
    requires bench { around.old.bench.now ≡ stripe.old.site.shape }
    requires room { HasRoom 2 stripe.old }
    ensures makes { (w : Setting) → IsSettingOf w stripe.old → ((x : ℕ) → w.seen x ≡ kills_at (B.kills around.new.board.now) x)
        → Makes w (request_of around.old.caller.0 around.old.number (call_in slip.old)) around.old.clock.now around.new.clock.now (is_answered result) stripe.old stripe.new }
    ensures exact { (w : Setting) → ((x : ℕ) → w.known x ≡ kills_at (B.kills around.old.board.now) x) → Exactly w step result stripe.old stripe.new }
    ensures outcome { IsOutcome result (request_of around.old.caller.0 around.old.number (call_in slip.old)) around.new.clock.now stripe.new slip.new }
    ensures costs { NoneFails stripe.old stripe.new → Costs stripe.old around.old.caller.0 (call_in slip.old) step stripe.new }
    ensures looked { Sound stripe.new → HasLooked (P.Seen around.old.pools.now around.new.pools.now) slip.new.reply }
    ensures rooms { (rest : List Room) → P.Came around.old.pools.now (rooms_of stripe.old ++ rest) → P.Came around.new.pools.now (rooms_of stripe.new ++ rest) }
    ensures balance { Balances (P.free around.old.pools.now) (P.free around.new.pools.now) (rooms_of stripe.old) (rooms_of stripe.new) }
    ensures lent { (around.new.board.ghost_name ≡ around.old.board.ghost_name) × (around.new.pools.ghost_name ≡ around.old.pools.ghost_name)
        × (around.new.bench.ghost_name ≡ around.old.bench.ghost_name) × (around.new.clock.ghost_name ≡ around.old.clock.ghost_name) }
    ensures who { (around.new.caller ≡ around.old.caller) × (around.new.number ≡ around.old.number) × (around.new.bench.now ≡ around.old.bench.now) }
    ensures board { (length (B.kills around.new.board.now) ≡ length (B.kills around.old.board.now)) × Keeps (B.kills around.old.board.now) (B.kills around.new.board.now)
        × B.ready around.new.board.now × B.same around.old.board.now around.new.board.now }
    ensures pools { (P.nodes around.new.pools.now ≡ P.nodes around.old.pools.now) × P.ready around.new.pools.now × P.same around.old.pools.now around.new.pools.now }
{
    match step {
        Step::Held(_) => unreachable!(),
        Step::Refuse => stripe.refuse(slip, around),
        Step::Lost => stripe.lost(slip, around),
        Step::Whole => stripe.whole(slip, around),
        Step::Clear => stripe.clear(slip, around),
        Step::Read => stripe.read(slip, around),
        Step::Put => stripe.put(slip, around),
        Step::Merge => stripe.merge(slip, around),
        Step::Tick => stripe.tick(slip, around),
        Step::Upgrade => stripe.upgrade(slip, around),
        Step::Begin => stripe.begin(slip, around),
        Step::Data(block) => stripe.data_step(slip, around, block),
        Step::Parity(block, col) => stripe.parity_step(slip, around, block, col),
        Step::Commit => stripe.commit(slip, around),
        Step::RebuildStart => stripe.rebuild_start(slip, around),
        Step::RebuildPiece => stripe.rebuild_piece(slip, around),
        Step::RebuildEnd => stripe.rebuild_end(slip, around),
        Step::Drain => stripe.drain(slip, around, &Policy::newest()),
    }
}
