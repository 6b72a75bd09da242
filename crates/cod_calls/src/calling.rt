//! A call by turns.
ghost use Rattle.std.specs.Prelude.{◌≡◌, ℕ, ◌+◌, ◌<◌, ◌≤◌, ◌^◌, ◌∷◌, [], List, length, Some, true, false};
ghost use Rattle.cod_types.specs.declared.call.Call.TheVariants.{Upgrade};
ghost use Rattle.cod_types.specs.Limits.{Shape};
ghost use Rattle.cod_chronicle.specs.Event.{Setting};
ghost use Rattle.cod_chronicle.specs.Legal.{node_id};
ghost use Rattle.cod_chronicle.specs.Said.{last_stamp};
ghost use Rattle.cod_claims.specs.Slips.{prepared};
ghost use Rattle.cod_board.specs.Seats.{Asked, kills_in};
ghost use Rattle.cod_place.specs.Free.{After, HasSeen};
ghost use Rattle.cod_seg.specs.Next.{open_in};
ghost use Rattle.cod_seg.specs.Seg.{Seg};
ghost use Rattle.cod_seg.specs.Sound.{is_frail, Sound};
ghost use Rattle.cod_segment.specs.Advancing.{IsAdvanced, number_after};
ghost use Rattle.cod_segment.specs.Events.{call_in, HasRoom, IsAsked, IsSettingOf, kills_at, request_of, rooms_of};
ghost use Rattle.cod_segment.specs.Exact.{Turns};
ghost use Rattle.cod_segment.specs.Looks.{AreLooked, HasLooked};
ghost use Rattle.cod_turn.specs.Seats.{IsIdle};
ghost use Rattle.cod_accounts.specs.Calling.{Made};
ghost use Rattle.cod_accounts.specs.Holding.{setting};
ghost use Rattle.cod_pass.specs.Places.{ground_of, SamePlace};
ghost use Rattle.cod_pass.specs.Readiness.{Fits, IsReady};

use crate::gate::{Gate, Point};
use cod_board::{Board, BoardPass};
use cod_chronicle::Stands;
use cod_claims::Slip;
use cod_client::Client;
use cod_pass::{Desk, Shared};
use cod_place::{PoolPass, Pools};
use cod_predict::Policy;
use cod_region::{Region, Shelf};
use cod_repair::Bench;
use cod_stripe::{Around, Outcome, Stripe};
use cod_turn::{Turn, TurnSeat};
use cod_types::Reply;
use std::alloc::Global;
use std::sync::Wait;
use std::thread;

/// What a call was answered, and where its entry stands.
#[derive(Drop)]
pub struct Answer {
    pub position: u64,
    pub stamp: u64,
    pub reply: Reply,
}

/// Makes the call of a slip that was prepared for the segment's geometry: one hold of the segment's turn after another, an
/// event in each, until it is answered. It waits for the turn, and for calls that stand in its way. It takes no memory but in
/// the start of a rebuild, in a drain, and for decoding rows.
pub fn call<R: Region, H: Shelf<Region = R>, G: Gate, W: Wait>(
    rt: &W,
    shared: &Shared<H>,
    turn: &Turn<Stripe<R>>,
    seat: &mut TurnSeat<Stripe<R>>,
    desk: &mut Desk,
    slip: Slip,
    gate: &G,
) -> Answer
    requires seats { (seat.old.of ≡ turn.now) × (desk.old.board.of ≡ shared.now.board) × (desk.old.pools.of ≡ shared.now.pools.of) }
    requires ready { (s : Seg) × IsReady desk.old.client.caller.0 desk.old.client.number s seat.old
        × Fits shared.now.board shared.now.pools.of (H.regions shared.now.shelf) desk.old.bench s }
    requires slip { slip ≡ prepared desk.old.bench (call_in slip) }
    requires dated { call_in slip ≡ Upgrade → desk.old.bench.version ≡ 2 }
    requires number { desk.old.client.number + 1 < 2 ^ 32 }
    ensures seat { (seat.new.of ≡ seat.old.of) × IsIdle seat.new }
    ensures desk { desk.new ≡ record desk.old {
      client = record desk.old.client { number = desk.old.client.number + 1 };
      clock = desk.new.clock;
      board = desk.new.board;
      pools = desk.new.pools;
    } }
    ensures board { Asked desk.old.board desk.new.board }
    ensures pools { After desk.old.pools desk.new.pools }
    ensures looked { AreLooked (HasSeen desk.old.pools desk.new.pools) result.reply }
    ensures made { (s : Seg) → seat.old.knows.own ≡ (desk.old.client.caller.0, s) ∷ []
        → Made (λ (x : Seg). x.log) open_in (ground_of s) (request_of desk.old.client.caller.0 desk.old.client.number (call_in slip))
        desk.old.clock desk.new.clock desk.old.board.knows.seen desk.new.board.knows.seen seat.old.knows seat.new.knows
        result.position result.stamp result.reply }
    ensures ready { (s : Seg) → seat.old.knows.own ≡ (desk.old.client.caller.0, s) ∷ []
        → (t : Seg) × IsReady desk.old.client.caller.0 (desk.old.client.number + 1) t seat.new × SamePlace s t }
{
    let mut slip = slip;
    let caller = desk.client.caller();
    let number = desk.client.number();
    let mut events = 0u32;
    for _ in rt.forever() {
        gate.pause(Point {
            caller,
            number,
            events,
        });
        let mut stripe = turn.take(rt, seat);
        await_room(rt, &stripe);
        let outcome = event(rt, shared, desk, &mut slip, &mut stripe);
        turn.give(seat, stripe);
        if let Outcome::Answered { position, stamp } = outcome {
            return answered(position, stamp, slip);
        }
        events = events.saturating_add(1);
        let_others_go(&outcome);
    }
    unreachable!()
}

/// Where a call was held, another thread has to go on first.
fn let_others_go(outcome: &Outcome) {
    if let Outcome::Held(_) = outcome {
        thread::yield_now();
    }
}

/// Waits until the chronicle has room for the entries of an event. It always has: a list of 2^62 entries fits no memory.
fn await_room<R: Region, W: Wait>(rt: &W, stripe: &Stripe<R>)
    ensures room { HasRoom (stripe.now.site.shape.n + 2) stripe.now }
    ensures sound { Sound stripe.now }
{
    stripe.sound();
    for _ in rt.forever() {
        if stripe.chronicle().len() < 1 << 62 {
            return;
        }
        thread::yield_now();
    }
    unreachable!()
}

/// One event of the call, by the caller's seats.
fn event<R: Region, H: Shelf<Region = R>, W: Wait>(
    rt: &W,
    shared: &Shared<H>,
    desk: &mut Desk,
    slip: &mut Slip,
    stripe: &mut Stripe<R>,
) -> Outcome
    requires seats { (desk.old.board.of ≡ shared.now.board) × (desk.old.pools.of ≡ shared.now.pools.of) }
    requires fits { Fits shared.now.board shared.now.pools.of (H.regions shared.now.shelf) desk.old.bench stripe.old }
    requires sound { Sound stripe.old }
    requires asked { IsAsked stripe.old desk.old.client.caller.0 desk.old.client.number slip.old (call_in slip.old) }
    requires number { desk.old.client.number + 1 < 2 ^ 32 }
    requires room { HasRoom (stripe.old.site.shape.n + 2) stripe.old }
    ensures desk { desk.new ≡ record desk.old {
      client = record desk.old.client { number = number_after result desk.old.client.number };
      clock = desk.new.clock;
      board = desk.new.board;
      pools = desk.new.pools;
    } }
    ensures board { Asked desk.old.board desk.new.board }
    ensures pools { After desk.old.pools desk.new.pools }
    ensures turns { Turns (setting (ground_of stripe.old) (kills_in stripe.old.site.nodes desk.old.board.knows.seen) (kills_in stripe.old.site.nodes desk.new.board.knows.seen))
        (request_of desk.old.client.caller.0 desk.old.client.number (call_in slip.old)) desk.old.clock desk.new.clock result stripe.old stripe.new }
    ensures outcome { IsAdvanced result (request_of desk.old.client.caller.0 desk.old.client.number (call_in slip.old)) desk.new.clock stripe.new slip.old slip.new }
    ensures looked { HasLooked (HasSeen desk.old.pools desk.new.pools) slip.new.reply }
    ensures range { desk.old.clock ≤ last_stamp }
{
    let mut board = BoardPass::new(&shared.board, &mut desk.board);
    let mut pools = PoolPass::new(rt, &shared.pools, &mut desk.pools);
    advance(
        shared.alloc,
        &shared.shelf,
        &mut board,
        &mut pools,
        &mut desk.client,
        &mut desk.clock,
        &mut desk.bench,
        slip,
        stripe,
    )
}

/// One event, with what it is lent.
fn advance<'a, R: Region, H: Shelf<Region = R>, B: Board, P: Pools>(
    alloc: Global,
    shelf: &'a H,
    board: &'a mut B,
    pools: &'a mut P,
    client: &mut Client,
    clock: &'a mut u64,
    bench: &'a mut Bench,
    slip: &mut Slip,
    stripe: &mut Stripe<R>,
) -> Outcome
    requires asked { IsAsked stripe.old client.old.caller.0 client.old.number slip.old (call_in slip.old) }
    requires board { (length (B.kills board.old) ≡ stripe.old.site.nodes) × B.ready board.old }
    requires pools { (P.nodes pools.old ≡ stripe.old.site.nodes) × P.ready pools.old × P.Came pools.old (rooms_of stripe.old) }
    requires shelf { (node : ℕ) → node < stripe.old.site.nodes → is_frail stripe.old.frail node ≡ false → (H.regions shelf.now).never_fail (node_id node) ≡ true }
    requires bench { bench.old ≡ stripe.old.site.shape }
    requires number { client.old.number + 1 < 2 ^ 32 }
    requires room { HasRoom (stripe.old.site.shape.n + 2) stripe.old }
    ensures turns { (w : Setting) → IsSettingOf w stripe.old → ((x : ℕ) → w.known x ≡ kills_at (B.kills board.old) x)
        → ((x : ℕ) → w.seen x ≡ kills_at (B.kills board.new) x)
        → Turns w (request_of client.old.caller.0 client.old.number (call_in slip.old)) clock.old clock.new result stripe.old stripe.new }
    ensures outcome { IsAdvanced result (request_of client.old.caller.0 client.old.number (call_in slip.old)) clock.new stripe.new slip.old slip.new }
    ensures looked { HasLooked (P.Seen pools.old pools.new) slip.new.reply }
    ensures client { client.new ≡ record client.old { number = number_after result client.old.number } }
    ensures bench { bench.new ≡ bench.old }
    ensures board { B.ready board.new × B.same board.old board.new }
    ensures pools { P.ready pools.new × P.same pools.old pools.new }
    ensures range { clock.old ≤ last_stamp }
{
    // a clock that was read is known to be in its range
    let _before = *clock;
    let g = bench.geometry();
    let policy = Policy::of(&g);
    let mut around = Around {
        alloc,
        board,
        pools,
        shelf,
        policy: &policy,
        bench,
        caller: client.caller(),
        number: client.number(),
        clock,
    };
    client.advance(slip, stripe, &mut around)
}

/// What an answered call leaves.
fn answered(position: u64, stamp: u64, slip: Slip) -> Answer
    requires { (r : _) × (slip.reply ≡ Some r) }
    ensures { (result.position ≡ position) × (result.stamp ≡ stamp) × (slip.reply ≡ Some result.reply) }
{
    let mut slip = slip;
    match slip.take_reply() {
        Some(reply) => Answer {
            position,
            stamp,
            reply,
        },
        None => unreachable!(),
    }
}
