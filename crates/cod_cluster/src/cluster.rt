//! Segments, a board and pools that callers share.
ghost use Rattle.std.specs.Prelude.{◌≡◌, ◌+◌, ◌<◌, ◌≤◌, ◌^◌, [], max, Option, IfOk, length, vec_capacity, vec_len};
ghost use Rattle.cod_types.specs.declared.call.Call.TheVariants.{Upgrade};
ghost use Rattle.cod_board.specs.declared.kill.Kill.{Kill as Killed};
ghost use Rattle.cod_place.specs.Free.{HasSeen};
ghost use Rattle.cod_claims.specs.Slips.{prepared};
ghost use Rattle.cod_script.specs.Script.{Script};
ghost use Rattle.cod_seg.specs.Next.{open_in};
ghost use Rattle.cod_segment.specs.Events.{call_in};
ghost use Rattle.cod_segment.specs.Looks.{AreLooked};
ghost use Rattle.cod_turns.specs.Turns.{board_clock};
ghost use Rattle.cod_accounts.specs.Working.{HasCalled, HasKilled, HasMet};
ghost use Rattle.cod_pass.specs.States.{course_on, IsCommonOf, IsPassOf, known_by};
ghost use Rattle.cod_opening.specs.Opening.{IsOpened};
ghost use Rattle.cod_closing.specs.Closing.{IsClosedOf, IsWhole, log_of};

use cod_board::Kill;
use cod_calls::{Gate, call};
use cod_claims::Slip;
use cod_closing::{Closed, close};
use cod_opening::{Opened, open};
use cod_pass::{Pass, Rest, Shared};
use cod_region::{Region, Shelf};
use cod_script::Scenario;
use cod_stripe::Stripe;
use cod_turn::Turn;
use cod_types::{NodeId, OutOfMemory, Reply, SegId};
use std::alloc::Global;
use std::sync::Wait;

/// A scenario's segments over regions of a shelf, with a board and pools, that callers share. Each makes its calls by a pass.
#[derive(Drop)]
pub struct Cluster<R: Region, H> {
    pub turns: Vec<Turn<Stripe<R>>>,
    pub shared: Shared<H>,
}

/// What the end of a cluster needs, which callers don't share.
#[derive(Drop)]
pub struct Ending<R: Region> {
    /// The first seats, from which the passes' were split.
    pub rest: Rest<R>,
    /// No segment yet: room for them at the close.
    pub closed: Vec<Stripe<R>>,
}

/// What a call was answered, and where its entry stands.
#[derive(Debug, Drop)]
pub struct Receipt {
    pub seg: SegId,
    pub position: u64,
    pub stamp: u64,
    pub reply: Reply,
}

impl<R: Region, H: Shelf<Region = R> + Drop> Cluster<R, H> {
    /// A cluster of the scenario's segments, each with its columns at home, what its end needs, and a pass for each of so many
    /// callers, fewer than 65536, in order. It takes all memory of a cluster but that of targets and of decoding rows: also what its
    /// close needs.
    pub fn build(
        alloc: Global,
        scenario: &Scenario,
        callers: u32,
        shelf: H,
    ) -> Result<(Cluster<R, H>, Ending<R>, Vec<Pass<R>>), OutOfMemory>
        requires { callers < 65536 }
        ensures shelf { IfOk result (λ r. r.0.shared.shelf ≡ shelf) }
        ensures opened { IfOk result (λ r. IsOpened scenario.now callers
            (record { turns = r.0.turns.items; board = r.0.shared.board; pools = r.0.shared.pools; regions = H.regions r.0.shared.shelf }) r.1.rest r.2.items) }
        ensures room { IfOk result (λ r. (r.1.closed.items ≡ []) × (vec_len r.0.turns ≤ vec_capacity r.1.closed)) }
    {
        let closed = Vec::with_capacity(alloc, scenario.segments() as usize)?;
        let Opened {
            turns,
            shared,
            rest,
            passes: list,
        } = open(alloc, scenario, callers, shelf)?;
        let ending = Ending { rest, closed };
        Ok((Cluster { turns, shared }, ending, list))
    }

    /// Makes the call of a slip that was prepared for the segments' geometry, and waits until it is answered: for the segment's
    /// turn, and for other callers' calls that stand in its way. Calls pause at the gate before each of their events.
    pub fn call<G: Gate, V: Wait>(
        &self,
        rt: &V,
        pass: &mut Pass<R>,
        seg: SegId,
        slip: Slip,
        gate: &G,
    ) -> Receipt
        requires of { (x : Script) × IsCommonOf x (record { turns = self.now.turns.items; board = self.now.shared.board; pools = self.now.shared.pools; regions = H.regions self.now.shared.shelf })
            × IsPassOf x (record { turns = self.now.turns.items; board = self.now.shared.board; pools = self.now.shared.pools; regions = H.regions self.now.shared.shelf }) pass.old
            × (seg.0 < length x.segments) × (slip ≡ prepared x.shape (call_in slip)) × (call_in slip ≡ Upgrade → x.shape.version ≡ 2) }
        requires number { pass.old.number + 1 < 2 ^ 32 }
        ensures pass { (x : Script)
            → IsCommonOf x (record { turns = self.now.turns.items; board = self.now.shared.board; pools = self.now.shared.pools; regions = H.regions self.now.shared.shelf })
            → IsPassOf x (record { turns = self.now.turns.items; board = self.now.shared.board; pools = self.now.shared.pools; regions = H.regions self.now.shared.shelf }) pass.old
            → IsPassOf x (record { turns = self.now.turns.items; board = self.now.shared.board; pools = self.now.shared.pools; regions = H.regions self.now.shared.shelf }) pass.new }
        ensures called { (x : Script)
            → IsCommonOf x (record { turns = self.now.turns.items; board = self.now.shared.board; pools = self.now.shared.pools; regions = H.regions self.now.shared.shelf })
            → IsPassOf x (record { turns = self.now.turns.items; board = self.now.shared.board; pools = self.now.shared.pools; regions = H.regions self.now.shared.shelf }) pass.old
            → HasCalled log_of open_in (course_on x (H.regions self.now.shared.shelf)) seg.0 (call_in slip) result.position result.stamp result.reply
            (known_by pass.old) (known_by pass.new) }
        ensures looked { AreLooked (HasSeen pass.old.pools pass.new.pools) result.reply }
        ensures segment { result.seg ≡ seg }
    {
        let at = seg.0 as usize;
        let answer = call(
            rt,
            &self.shared,
            &self.turns[at],
            &mut pass.seats[at],
            &mut pass.desk,
            slip,
            gate,
        );
        Receipt {
            seg,
            position: answer.position,
            stamp: answer.stamp,
            reply: answer.reply,
        }
    }

    /// Kills a node by the scenario's line of this number, at least 1, unless it was killed. It doesn't wait.
    pub fn kill(&self, pass: &mut Pass<R>, node: NodeId, line: u32)
        requires of { (x : Script) × IsCommonOf x (record { turns = self.now.turns.items; board = self.now.shared.board; pools = self.now.shared.pools; regions = H.regions self.now.shared.shelf })
            × IsPassOf x (record { turns = self.now.turns.items; board = self.now.shared.board; pools = self.now.shared.pools; regions = H.regions self.now.shared.shelf }) pass.old
            × (node.0 < x.nodes) }
        requires line { 1 ≤ line }
        ensures pass { (x : Script)
            → IsCommonOf x (record { turns = self.now.turns.items; board = self.now.shared.board; pools = self.now.shared.pools; regions = H.regions self.now.shared.shelf })
            → IsPassOf x (record { turns = self.now.turns.items; board = self.now.shared.board; pools = self.now.shared.pools; regions = H.regions self.now.shared.shelf }) pass.old
            → IsPassOf x (record { turns = self.now.turns.items; board = self.now.shared.board; pools = self.now.shared.pools; regions = H.regions self.now.shared.shelf }) pass.new }
        ensures killed { (found : Option Killed) × HasKilled line node.0 found (known_by pass.old) (known_by pass.new) }
    {
        let clock = clock_on_board(pass.desk.clock);
        let desk = &mut pass.desk;
        self.shared
            .board
            .kill(&mut desk.board, node, Kill { line, clock });
    }

    /// The pass's later entries stand after this stamp, too. It doesn't wait.
    pub fn meet(&self, pass: &mut Pass<R>, stamp: u64)
        ensures pass { (x : Script)
            → IsPassOf x (record { turns = self.now.turns.items; board = self.now.shared.board; pools = self.now.shared.pools; regions = H.regions self.now.shared.shelf }) pass.old
            → IsPassOf x (record { turns = self.now.turns.items; board = self.now.shared.board; pools = self.now.shared.pools; regions = H.regions self.now.shared.shelf }) pass.new }
        ensures met { HasMet (known_by pass.old) (known_by pass.new) }
        ensures clock { pass.new.clock ≡ max pass.old.clock stamp }
    {
        pass.desk.clock = pass.desk.clock.max(stamp);
    }

    /// Ends the cluster. These are all its passes, in any order. It takes no memory.
    pub fn close(self, ending: Ending<R>, passes: Vec<Pass<R>>) -> Closed<R>
        requires whole { (x : Script) × IsWhole x (record { turns = self.turns.items; board = self.shared.board; pools = self.shared.pools; regions = H.regions self.shared.shelf }) ending.rest passes.items }
        requires room { (ending.closed.items ≡ []) × (vec_len self.turns ≤ vec_capacity ending.closed) }
        ensures { (x : Script)
            → IsWhole x (record { turns = self.turns.items; board = self.shared.board; pools = self.shared.pools; regions = H.regions self.shared.shelf }) ending.rest passes.items
            → IsClosedOf x (record { turns = self.turns.items; board = self.shared.board; pools = self.shared.pools; regions = H.regions self.shared.shelf })
            passes.items result.stripes.items result.board result.pools }
    {
        let Cluster { turns, shared } = self;
        let Ending { rest, closed } = ending;
        close(turns, shared, rest, passes, closed)
    }
}

/// A board keeps the clock of a kill's caller where that has 32 bits.
fn clock_on_board(clock: u64) -> u32
    ensures { result ≡ board_clock clock }
{
    if clock < 1 << 32 { clock as u32 } else { 0 }
}
