//! A client of a replay, with its lines.
ghost use Rattle.std.specs.Prelude.{◌≡◌, ◌+◌, ◌<◌, ◌^◌, ℕ, List, IfOk, Some, [], length, map, slice_index_or, slice_set, true, false};
ghost use Rattle.std.specs.List.{list_all};
ghost use Rattle.cod_board.specs.Kills.{Keeps};
ghost use Rattle.cod_chronicle.specs.Legal.{node_id};
ghost use Rattle.cod_place.specs.Rooms.{CameFrom};
ghost use Rattle.cod_script.specs.declared.line.Line.{Line as Said};
ghost use Rattle.cod_script.specs.declared.line.What.TheVariants as what;
ghost use Rattle.cod_seg.specs.Sound.{is_frail};
ghost use Rattle.cod_segment.specs.Advancing.{number_after};
ghost use Rattle.cod_segment.specs.Events.{call_in, HasRoom, IsAsked, rooms_of};
ghost use Rattle.cod_replay.specs.Serving.{done_if, HasEvent, played};
ghost use Rattle.cod_replay.specs.Tasks.{AreDated, due_of, gone_on, has_ended, IsDated, slip_in, task_of, whole_task};
ghost use Rattle.cod_replay.specs.declared.task.Due.TheVariants as due;

use crate::task::{Due, Task};
use cod_board::PlainBoard;
use cod_claims::Slip;
use cod_client::Client;
use cod_place::PlainPools;
use cod_predict::Policy;
use cod_region::Shelf;
use cod_repair::Bench;
use cod_script::{Line, What};
use cod_stripe::{Around, Outcome, Stripe};
use cod_types::{Caller, Geometry, OutOfMemory, SegId};
use std::alloc::Global;
use std::marker::Model;

/// A client with its clock and its lines.
#[derive(Drop)]
pub(crate) struct Player {
    client: Client,
    clock: u64,
    next: usize,
    tasks: Vec<Task>,
}

impl Model for Player {
    ghost use Rattle.cod_replay.specs.Tasks.{Play};

    ghost Value = { Play };

    ghost view = { λ p. record {
      caller = p.client.caller.0;
      number = p.client.number;
      clock = p.clock;
      next = p.next;
      tasks = p.tasks.items;
    } };
}

impl Player {
    /// A client that has all of these lines left. Their calls are moved into the slips.
    pub(crate) fn prepare(
        alloc: Global,
        g: &Geometry,
        caller: Caller,
        lines: Vec<Line>,
    ) -> Result<Player, OutOfMemory>
        requires { AreDated g.now lines.items }
        ensures { IfOk result (λ p. p ≡ record { caller = caller.0; number = 0; clock = 0; next = 0; tasks = map (whole_task g.now) lines.items }) }
    {
        Ok(Player {
            client: Client::new(caller),
            clock: 0,
            next: 0,
            tasks: prepare_tasks(alloc, g, lines)?,
        })
    }

    /// What it is to do next.
    pub(crate) fn due(&self) -> Due
        ensures { result ≡ due_of self.now }
    {
        if self.next < self.tasks.len() {
            match &self.tasks[self.next] {
                Task::Call { seg, .. } => Due::Call { seg: *seg },
                Task::Fail { line, node } => Due::Fail {
                    line: *line,
                    node: *node,
                },
                Task::Done => Due::Nothing,
            }
        } else {
            Due::Nothing
        }
    }

    /// Whether it has no line left.
    pub(crate) fn has_ended(&self) -> bool
        ensures { result ≡ has_ended self.now }
    {
        self.next >= self.tasks.len()
    }

    /// Its clock.
    pub(crate) fn clock(&self) -> u64
        ensures { result ≡ self.now.clock }
    {
        self.clock
    }

    /// One line more is done.
    pub(crate) fn go_on(&mut self)
        requires { self.old.next < length self.old.tasks }
        ensures { self.new ≡ gone_on self.old }
    {
        self.tasks[self.next] = Task::Done;
        self.next += 1;
    }

    /// One event of its call.
    pub(crate) fn advance<H: Shelf>(
        &mut self,
        alloc: Global,
        g: &Geometry,
        shelf: &H,
        board: &mut PlainBoard,
        pools: &mut PlainPools,
        bench: &mut Bench,
        seg: SegId,
        stripe: &mut Stripe<H::Region>,
    ) -> Outcome
        requires due { due_of self.old ≡ due.Call seg }
        requires asked { IsAsked stripe.old self.old.caller self.old.number (slip_in (task_of self.old)) (call_in (slip_in (task_of self.old))) }
        requires board { length board.old ≡ stripe.old.site.nodes }
        requires pools { length pools.old.free ≡ stripe.old.site.nodes }
        requires came { CameFrom pools.old (rooms_of stripe.old) }
        requires shelf { (node : ℕ) → node < stripe.old.site.nodes → is_frail stripe.old.frail node ≡ false → (H.regions shelf.now).never_fail (node_id node) ≡ true }
        requires bench { bench.old ≡ stripe.old.site.shape }
        requires number { self.old.number + 1 < 2 ^ 32 }
        requires room { HasRoom (stripe.old.site.shape.n + 2) stripe.old }
        ensures event { HasEvent board.old self.old.caller self.old.number self.old.clock self.new.clock result (slip_in (task_of self.old))
            (slip_in (task_of self.new)) stripe.old stripe.new pools.old pools.new }
        ensures client { self.new ≡ played result seg self.new.clock (slip_in (task_of self.new)) self.old }
        ensures board { board.new ≡ board.old }
        ensures bench { bench.new ≡ bench.old }
    {
        match &mut self.tasks[self.next] {
            Task::Call { slip, .. } => event(
                &mut self.client,
                &mut self.clock,
                slip,
                alloc,
                g,
                shelf,
                board,
                pools,
                bench,
                stripe,
            ),
            _ => unreachable!(),
        }
    }

    /// Where its call was answered, the line is done.
    pub(crate) fn settle(&mut self, outcome: &Outcome)
        requires { self.old.next < length self.old.tasks }
        ensures { self.new ≡ done_if outcome.now self.old }
    {
        if let Outcome::Answered { .. } = outcome {
            self.go_on();
        }
    }
}

/// Whether none of these clients has a line left.
pub(crate) fn all_ended(players: &[Player]) -> bool
    ensures { result ≡ list_all has_ended players.now }
{
    players.iter().all(|player| player.has_ended())
}

/// One event of a client's call, by its slip.
fn event<H: Shelf>(
    client: &mut Client,
    clock: &mut u64,
    slip: &mut Slip,
    alloc: Global,
    g: &Geometry,
    shelf: &H,
    board: &mut PlainBoard,
    pools: &mut PlainPools,
    bench: &mut Bench,
    stripe: &mut Stripe<H::Region>,
) -> Outcome
    requires asked { IsAsked stripe.old client.old.caller.0 client.old.number slip.old (call_in slip.old) }
    requires board { length board.old ≡ stripe.old.site.nodes }
    requires pools { length pools.old.free ≡ stripe.old.site.nodes }
    requires came { CameFrom pools.old (rooms_of stripe.old) }
    requires shelf { (node : ℕ) → node < stripe.old.site.nodes → is_frail stripe.old.frail node ≡ false → (H.regions shelf.now).never_fail (node_id node) ≡ true }
    requires bench { bench.old ≡ stripe.old.site.shape }
    requires number { client.old.number + 1 < 2 ^ 32 }
    requires room { HasRoom (stripe.old.site.shape.n + 2) stripe.old }
    ensures event { HasEvent board.old client.old.caller.0 client.old.number clock.old clock.new result slip.old slip.new stripe.old stripe.new pools.old pools.new }
    ensures client { client.new ≡ record client.old { number = number_after result client.old.number } }
    ensures board { board.new ≡ board.old }
    ensures bench { bench.new ≡ bench.old }
{
    let policy = Policy::of(g);
    let mut around = Around {
        alloc,
        board,
        pools,
        shelf,
        policy: &policy,
        bench,
        caller: client.caller(),
        number: client.number(),
        clock,
    };
    client.advance(slip, stripe, &mut around)
}

/// Lines with the memory of their calls.
fn prepare_tasks(alloc: Global, g: &Geometry, lines: Vec<Line>) -> Result<Vec<Task>, OutOfMemory>
    requires { AreDated g.now lines.items }
    ensures { IfOk result (λ tasks. tasks.items ≡ map (whole_task g.now) lines.items) }
{
    let mut tasks = Vec::with_capacity(alloc, lines.len())?;
    'lines: for line in lines {
        tasks.push(prepare_task(alloc, g, line)?)?;
    }
    Ok(tasks)
}

/// A line with the memory of its call.
fn prepare_task(alloc: Global, g: &Geometry, line: Line) -> Result<Task, OutOfMemory>
    requires { IsDated g.now line }
    ensures { IfOk result (λ t. t ≡ whole_task g.now line) }
{
    let Line { line, what } = line;
    match what {
        What::Segment { seg, call } => Ok(Task::Call {
            seg,
            slip: Slip::prepare(alloc, g, call)?,
        }),
        What::Fail { node } => Ok(Task::Fail { line, node }),
    }
}
