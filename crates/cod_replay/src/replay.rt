//! The state of a replay, and its turns.
ghost use Rattle.std.specs.Prelude.{◌≡◌, ◌+◌, ◌<◌, IfOk, IsTrue, ◌↔◌, length, is_some, slice_index};
ghost use Rattle.cod_board.specs.Kills.{kill_of};
ghost use Rattle.cod_place.specs.Rooms.{bytes_on};
ghost use Rattle.cod_advance.specs.Histories.{Runs, Takes};
ghost use Rattle.cod_advance.specs.Served.{turned_by};
ghost use Rattle.cod_advance.specs.Worlds.{AreSegmentsOf, seg_at};
ghost use Rattle.cod_turns.specs.Open.{NothingOpen};
ghost use Rattle.cod_turns.specs.Rounds.{IsProgress};
ghost use Rattle.cod_turns.specs.Turns.{AllEnded, board_clock, start, Turn};
ghost use Rattle.cod_turns.specs.declared.turned.Turned.TheVariants as turned;
ghost use Rattle.cod_replay.specs.Serving.{failed, Serves};
ghost use Rattle.cod_replay.specs.Standing.{AreIdle, IsBareOf, IsFresh, Stands};
ghost use Rattle.cod_homes.specs.Building.{all_rooms};
ghost use Rattle.cod_replay.specs.State.{course_of, course_over, fenced, moment_of, most_of, play_at, work_of, world_in};
ghost use Rattle.cod_replay.specs.Tasks.{due_of};
ghost use Rattle.cod_replay.specs.declared.task.Due.TheVariants as due;

use crate::building::players;
use crate::play::{Player, all_ended};
use crate::task::Due;
use cod_board::{Board, Kill, PlainBoard};
use cod_homes::stripes;
use cod_place::PlainPools;
use cod_region::Shelf;
use cod_repair::Bench;
use cod_script::Scenario;
use cod_stripe::{Outcome, Stripe};
use cod_turns::{Machine, Turned};
use cod_types::{NodeId, OutOfMemory, SegId};
use std::alloc::Global;
use std::marker::Model;
use std::snapshot::Snapshot;

/// A scenario that is being replayed over regions of a shelf. Its lines were moved to those who carry them out.
#[derive(Drop)]
pub struct Replay<H: Shelf + Drop> {
    alloc: Global,
    whole: Snapshot<Scenario>,
    scenario: Scenario,
    shelf: H,
    board: PlainBoard,
    pools: PlainPools,
    bench: Bench,
    stripes: Vec<Stripe<H::Region>>,
    players: Vec<Player>,
}

impl<H: Shelf + Drop> Model for Replay<H> {
    ghost use Rattle.cod_stripe.specs.Building.{frail_below};
    ghost use Rattle.cod_replay.specs.State.{State};
    ghost use Rattle.cod_replay.specs.Standing.{IsKept};

    ghost Value = { State };

    ghost view = { λ r. record {
      script = r.whole.value;
      frail = frail_below (H.regions r.shelf).never_fail r.whole.value.nodes;
      told = (H.regions r.shelf).tell;
      kills = r.board;
      pools = r.pools;
      segs = r.stripes.items;
      plays = r.players.items;
    } };

    ghost invariant = { λ r. IsKept (record {
      script = r.whole.value;
      frail = frail_below (H.regions r.shelf).never_fail r.whole.value.nodes;
      told = (H.regions r.shelf).tell;
      kills = r.board;
      pools = r.pools;
      segs = r.stripes.items;
      plays = r.players.items;
    }) r.scenario r.bench };
}

impl<H: Shelf + Drop> Replay<H> {
    /// Takes all memory of a replay but that of targets. Where memory is refused, nothing is left behind.
    pub fn build(alloc: Global, scenario: Scenario, shelf: H) -> Result<Replay<H>, OutOfMemory>
        ensures course { IfOk result (λ r. course_of r ≡ course_over scenario (fenced scenario.nodes (H.regions shelf))) }
        ensures world { IfOk result (λ r. world_in r ≡ start (length scenario.segments)) }
        ensures fresh { IfOk result IsFresh }
    {
        let mut scenario = scenario;
        let whole = Snapshot::of(&scenario);
        let _sound = scenario.segments();
        let board = PlainBoard::new(alloc, scenario.nodes())?;
        let mut pools = PlainPools::new(alloc, scenario.nodes(), scenario.capacity())?;
        let bench = Bench::new(alloc, scenario.geometry())?;
        let stripes = stripes(alloc, &scenario, &shelf, &mut pools)?;
        let players = players(alloc, &mut scenario)?;
        Ok(Replay {
            alloc,
            whole,
            scenario,
            shelf,
            board,
            pools,
            bench,
            stripes,
            players,
        })
    }

    /// An event of a client's call.
    fn serve(&mut self, client: u32, seg: SegId) -> Outcome
        requires client { client < length self.old.plays }
        requires due { due_of (play_at self.old.plays client) ≡ due.Call seg }
        ensures { Serves client seg result self.old self.new }
    {
        let player = &mut self.players[client as usize];
        let stripe = &mut self.stripes[seg.0 as usize];
        let outcome = player.advance(
            self.alloc,
            self.scenario.geometry(),
            &self.shelf,
            &mut self.board,
            &mut self.pools,
            &mut self.bench,
            seg,
            stripe,
        );
        player.settle(&outcome);
        outcome
    }

    /// The failure of a node, by a client's line.
    fn fail(&mut self, client: u32, line: u32, node: NodeId)
        requires client { client < length self.old.plays }
        requires due { due_of (play_at self.old.plays client) ≡ due.Fail line node }
        ensures { self.new ≡ failed client line node.0 self.old }
    {
        let player = &mut self.players[client as usize];
        let clock = clock_on_board(player.clock());
        self.board.kill(node, Kill { line, clock });
        player.go_on();
    }

    /// What a client is to do next.
    fn due(&self, client: u32) -> Due
        requires { client < length self.now.plays }
        ensures due { result ≡ due_of (play_at self.now.plays client) }
        ensures stands { Stands self.now }
    {
        self.players[client as usize].due()
    }

    /// One turn of a client: nothing where it has ended, the failure of a node, or one event of its call.
    pub fn turn(&mut self, client: u32) -> Turned
        requires { client < length self.old.script.clients }
        ensures turn { Turn (course_of self.old) client (world_in self.old) (world_in self.new) result }
        ensures work { IsProgress (most_of self.old) result (work_of self.old) (work_of self.new) }
        ensures course { course_of self.new ≡ course_of self.old }
        ensures segments { AreSegmentsOf (course_of self.new) self.new.segs }
        ensures takes { Takes (course_of self.old) client (moment_of self.old) (moment_of self.new) }
    {
        self.count();
        match self.due(client) {
            Due::Nothing => Turned::Ended,
            Due::Fail { line, node } => {
                self.fail(client, line, node);
                Turned::Killed
            }
            Due::Call { seg } => turn_of(self.serve(client, seg)),
        }
    }

    /// How many clients there are.
    fn count(&self) -> u32
        ensures count { result ≡ length self.now.script.clients }
        ensures plays { length self.now.plays ≡ length self.now.script.clients }
        ensures stands { Stands self.now }
    {
        self.scenario.clients()
    }

    /// Makes the turns of the schedule, and then rounds of one turn for each client, in order, until all have ended.
    pub fn run(&mut self)
        ensures run { Runs (course_of self.old) (moment_of self.old) (moment_of self.new) }
        ensures course { course_of self.new ≡ course_of self.old }
        ensures nothing { NothingOpen (world_in self.new) }
        ensures idle { AreIdle self.new.segs }
        ensures segments { AreSegmentsOf (course_of self.new) self.new.segs }
    {
        self.count();
        cod_turns::run(self);
        self.count();
    }

    /// Whether no client has a line left.
    fn has_ended(&self) -> bool
        ensures { (IsTrue result) ↔ (AllEnded (course_of self.now).script (world_in self.now)) }
    {
        all_ended(&self.players)
    }

    /// A segment.
    pub fn stripe(&self, seg: SegId) -> &Stripe<H::Region>
        requires { seg.0 < length self.now.segs }
        ensures { result.now ≡ seg_at self.now.segs seg.0 }
    {
        &self.stripes[seg.0 as usize]
    }

    /// The segments, in order.
    pub fn stripes(&self) -> &[Stripe<H::Region>]
        ensures segments { result.now ≡ self.now.segs }
        ensures are { AreSegmentsOf (course_of self.now) self.now.segs }
        ensures stands { Stands self.now }
    {
        self.stripes.as_slice()
    }

    /// The scenario. Its clients have no lines any more.
    pub fn scenario(&self) -> &Scenario
        ensures { IsBareOf self.now.script result.now }
    {
        &self.scenario
    }

    /// Whether a node was killed.
    pub fn killed(&self, node: NodeId) -> bool
        requires { node.0 < self.now.script.nodes }
        ensures { result ≡ is_some (kill_of self.now.kills node.0) }
    {
        self.board.get(node).is_some()
    }

    /// The free bytes of a node: with what the rooms of all segments take there, they are what the node has.
    pub fn free(&self, node: NodeId) -> u32
        requires { node.0 < self.now.script.nodes }
        ensures value { result ≡ slice_index self.now.pools.free node.0 }
        ensures sums { result + bytes_on node.0 (all_rooms self.now.segs) ≡ self.now.script.capacity }
    {
        self.pools.free(node)
    }
}

impl<H: Shelf + Drop> Machine for Replay<H> {
    ghost course = { course_of };

    ghost world = { world_in };

    ghost work = { work_of };

    ghost most = { most_of };

    ghost takes = { λ x who a b. Takes x who (moment_of a) (moment_of b) };

    fn clients(&self) -> u32 {
        self.count()
    }

    fn schedule(&self) -> &[u32] {
        self.scenario.schedule()
    }

    fn turn(&mut self, client: u32) -> Turned {
        Replay::turn(self, client)
    }

    fn is_ended(&self) -> bool {
        self.has_ended()
    }
}

/// A board keeps the clock of a kill's caller where that has 32 bits.
fn clock_on_board(clock: u64) -> u32
    ensures { result ≡ board_clock clock }
{
    if clock < 1 << 32 { clock as u32 } else { 0 }
}

/// What came of an event is what came of its turn.
fn turn_of(outcome: Outcome) -> Turned
    ensures { result ≡ turned_by outcome }
{
    match outcome {
        Outcome::Moved => Turned::Moved,
        Outcome::Answered { position, stamp } => Turned::Answered { position, stamp },
        Outcome::Held(held) => Turned::Held {
            owner: held.owner,
            number: held.number,
        },
    }
}
