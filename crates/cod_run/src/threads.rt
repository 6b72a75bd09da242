//! The callers' work, each one's on a thread of its own.
ghost use Rattle.std.specs.Prelude.{◌≡◌, ◌<◌, ◌≤◌, ◌∷◌, ℕ, [], length, map, slice_index_or, vec_capacity, vec_len};
ghost use Rattle.std.specs.Prelude.{All, IfOk};
ghost use Rattle.cod_pass.specs.States.{RestState};
ghost use Rattle.cod_script.specs.Script.{Script};
ghost use Rattle.cod_shell.specs.Lines.{PrintsAs};
ghost use Rattle.cod_run.specs.Ends.{IsEnd, IsPrintable};
ghost use Rattle.cod_run.specs.Shifts.{CanWork, HasDone, IsStart, IsWorked};

use crate::job::{Job, Jobs, all_jobs};
use crate::waiting::await_all;
use cod_cluster::{Closed, Cluster, Ending, Gate, Pass};
use cod_region::{Region, Shelf};
use cod_script::Scenario;
use cod_shell::within::all_fit;
use cod_types::OutOfMemory;
use std::alloc::Global;
use std::collections::VecDeque;
use std::sync::Wait;
use std::thread;
use std::thread::Threads;

/// A caller's pass, and the jobs that are left to it.
#[derive(Drop)]
struct Shift<R: Region> {
    pass: Pass<R>,
    jobs: Jobs,
}

/// Each pass with its jobs, in order.
fn shifts<R: Region>(
    alloc: Global,
    passes: Vec<Pass<R>>,
    all: VecDeque<Jobs>,
) -> Result<Vec<Shift<R>>, OutOfMemory>
    requires { length passes.items ≡ length all.items }
    ensures passes { IfOk result (λ shifts. map (λ s. s.pass) shifts.items ≡ passes.items) }
    ensures jobs { IfOk result (λ shifts. map (λ s. s.jobs) shifts.items ≡ all.items) }
{
    let mut all = all;
    let mut shifts = Vec::with_capacity(alloc, passes.len())?;
    'shifts: for pass in passes {
        match all.pop_front() {
            Some(jobs) => shifts.push_reserved(Shift { pass, jobs }),
            None => unreachable!(),
        }
    }
    Ok(shifts)
}

/// The passes of these shifts, in order, put into the room.
fn passes_of<R: Region>(shifts: Vec<Shift<R>>, room: Vec<Pass<R>>) -> Vec<Pass<R>>
    requires empty { room.items ≡ [] }
    requires room { vec_len shifts ≤ vec_capacity room }
    ensures { result.items ≡ map (λ s. s.pass) shifts.items }
{
    let mut passes = room;
    'shifts: for shift in shifts {
        passes.push_reserved(shift.pass);
    }
    passes
}

/// Does a job.
fn work_one<R: Region, H: Shelf<Region = R> + Drop, G: Gate, V: Wait>(
    rt: &V,
    cluster: &Cluster<R, H>,
    pass: &mut Pass<R>,
    job: Job,
    gate: &G,
)
    requires { (x : Script) × CanWork x (record { turns = cluster.now.turns.items; board = cluster.now.shared.board; pools = cluster.now.shared.pools; regions = H.regions cluster.now.shared.shelf }) pass.old (job ∷ []) }
    ensures { (x : Script) (w : CanWork x (record { turns = cluster.now.turns.items; board = cluster.now.shared.board; pools = cluster.now.shared.pools; regions = H.regions cluster.now.shared.shelf }) pass.old (job ∷ [])) → HasDone x (record { turns = cluster.now.turns.items; board = cluster.now.shared.board; pools = cluster.now.shared.pools; regions = H.regions cluster.now.shared.shelf }) pass.old pass.new w.lines }
{
    match job {
        Job::Call { seg, slip } => {
            cluster.call(rt, pass, seg, slip, gate);
        }
        Job::Fail { line, node } => cluster.kill(pass, node, line),
    }
}

/// Does a caller's jobs, in order.
fn work<R: Region, H: Shelf<Region = R> + Drop, G: Gate, V: Wait>(
    rt: &V,
    cluster: &Cluster<R, H>,
    shift: &mut Shift<R>,
    gate: &G,
)
    requires { (x : Script) × CanWork x (record { turns = cluster.now.turns.items; board = cluster.now.shared.board; pools = cluster.now.shared.pools; regions = H.regions cluster.now.shared.shelf }) shift.old.pass shift.old.jobs }
    ensures { (x : Script) (w : CanWork x (record { turns = cluster.now.turns.items; board = cluster.now.shared.board; pools = cluster.now.shared.pools; regions = H.regions cluster.now.shared.shelf }) shift.old.pass shift.old.jobs) → HasDone x (record { turns = cluster.now.turns.items; board = cluster.now.shared.board; pools = cluster.now.shared.pools; regions = H.regions cluster.now.shared.shelf }) shift.old.pass shift.new.pass w.lines }
{
    'jobs: while let Some(job) = shift.jobs.next() {
        work_one(rt, cluster, &mut shift.pass, job, gate);
    }
}

/// Does all jobs of all callers, each caller's on a thread of its own where one can be started.
fn work_all<
    R: Region + Send + Sync,
    H: Shelf<Region = R> + Drop + Sync,
    G: Gate + Sync,
    V: Threads + Wait + Sync,
>(rt: &V, cluster: &Cluster<R, H>, shifts: &mut [Shift<R>], gate: &G)
    requires can { All (λ s. (x : Script) × CanWork x (record { turns = cluster.now.turns.items; board = cluster.now.shared.board; pools = cluster.now.shared.pools; regions = H.regions cluster.now.shared.shelf }) s.pass s.jobs) shifts.old }
    ensures { (i : ℕ) (d : _) → i < length shifts.old → (x : Script) (w : CanWork x (record { turns = cluster.now.turns.items; board = cluster.now.shared.board; pools = cluster.now.shared.pools; regions = H.regions cluster.now.shared.shelf }) (slice_index_or shifts.old i d).pass (slice_index_or shifts.old i d).jobs)
        → HasDone x (record { turns = cluster.now.turns.items; board = cluster.now.shared.board; pools = cluster.now.shared.pools; regions = H.regions cluster.now.shared.shelf }) (slice_index_or shifts.old i d).pass (slice_index_or shifts.new i d).pass w.lines }
{
    let count = shifts.len();
    if count == 0 {
        return;
    }
    thread::for_each_mut(
        rt,
        shifts,
        count,
        &|_: usize, shift: &mut Shift<R>|
            requires { (x : Script) × CanWork x (record { turns = cluster.now.turns.items; board = cluster.now.shared.board; pools = cluster.now.shared.pools; regions = H.regions cluster.now.shared.shelf }) shift.old.pass shift.old.jobs }
            ensures { (x : Script) (w : CanWork x (record { turns = cluster.entry.now.turns.items; board = cluster.entry.now.shared.board; pools = cluster.entry.now.shared.pools; regions = H.regions cluster.entry.now.shared.shelf }) shift.old.pass shift.old.jobs) → HasDone x (record { turns = cluster.entry.now.turns.items; board = cluster.entry.now.shared.board; pools = cluster.entry.now.shared.pools; regions = H.regions cluster.entry.now.shared.shelf }) shift.old.pass shift.new.pass w.lines }
        { work(rt, cluster, shift, gate) },
    );
}

/// Does all that the callers owe, each caller's on a thread of its own where one can be started.
fn fulfil<
    R: Region + Send + Sync,
    H: Shelf<Region = R> + Drop + Sync,
    G: Gate + Sync,
    V: Threads + Wait + Sync,
>(rt: &V, cluster: &Cluster<R, H>, shifts: &mut [Shift<R>], gate: &G)
    requires start { (x : Script) × (rest : RestState) × IsStart x (record { turns = cluster.now.turns.items; board = cluster.now.shared.board; pools = cluster.now.shared.pools; regions = H.regions cluster.now.shared.shelf }) rest (map (λ s. s.pass) shifts.old) (map (λ s. s.jobs) shifts.old) }
    ensures worked { (x : Script) (rest : RestState) → IsStart x (record { turns = cluster.now.turns.items; board = cluster.now.shared.board; pools = cluster.now.shared.pools; regions = H.regions cluster.now.shared.shelf }) rest (map (λ s. s.pass) shifts.old) (map (λ s. s.jobs) shifts.old)
        → IsWorked x (record { turns = cluster.now.turns.items; board = cluster.now.shared.board; pools = cluster.now.shared.pools; regions = H.regions cluster.now.shared.shelf }) rest (map (λ s. s.pass) shifts.new) }
    ensures count { length shifts.new ≡ length shifts.old }
{
    work_all(rt, cluster, shifts, gate);
}

/// What a run starts with: a cluster and what its end needs, each caller's pass with its jobs, and room for all passes at the end.
#[derive(Drop)]
struct Ready<R: Region, H: Shelf<Region = R> + Drop> {
    cluster: Cluster<R, H>,
    ending: Ending<R>,
    shifts: Vec<Shift<R>>,
    room: Vec<Pass<R>>,
}

/// The start of a scenario's run. The clients' lines are moved out of the scenario.
fn start<R: Region, H: Shelf<Region = R> + Drop>(
    alloc: Global,
    scenario: &mut Scenario,
    shelf: H,
) -> Result<Ready<R, H>, OutOfMemory>
    ensures ready { IfOk result (λ s. IsStart scenario.old (record { turns = s.cluster.turns.items; board = s.cluster.shared.board; pools = s.cluster.shared.pools; regions = H.regions s.cluster.shared.shelf }) s.ending.rest (map (λ t. t.pass) s.shifts.items) (map (λ t. t.jobs) s.shifts.items)) }
    ensures shelf { IfOk result (λ s. s.cluster.shared.shelf ≡ shelf) }
    ensures closed { IfOk result (λ s. (s.ending.closed.items ≡ []) × (vec_len s.cluster.turns ≤ vec_capacity s.ending.closed)) }
    ensures room { IfOk result (λ s. (s.room.items ≡ []) × (vec_len s.shifts ≤ vec_capacity s.room)) }
    ensures bare { IfOk result (λ _. PrintsAs scenario.old scenario.new) }
{
    let (workers, _) = scenario.care();
    let _sound = scenario.segments();
    let clients = scenario.clients();
    let callers = clients + workers;
    let (cluster, ending, passes) = match Cluster::build(alloc, scenario, callers, shelf) {
        Ok(parts) => parts,
        Err(refused) => return Err(refused),
    };
    let jobs = all_jobs(alloc, scenario)?;
    let room = Vec::with_capacity(alloc, callers as usize)?;
    let shifts = shifts(alloc, passes, jobs)?;
    Ok(Ready {
        cluster,
        ending,
        shifts,
        room,
    })
}

/// The run from its start to its end.
fn ended<
    R: Region + Send + Sync,
    H: Shelf<Region = R> + Drop + Sync,
    G: Gate + Sync,
    V: Threads + Wait + Sync,
>(rt: &V, start: Ready<R, H>, gate: &G) -> Closed<R>
    requires ready { (x : Script) × IsStart x (record { turns = start.cluster.turns.items; board = start.cluster.shared.board; pools = start.cluster.shared.pools; regions = H.regions start.cluster.shared.shelf }) start.ending.rest (map (λ t. t.pass) start.shifts.items) (map (λ t. t.jobs) start.shifts.items) }
    requires closed { (start.ending.closed.items ≡ []) × (vec_len start.cluster.turns ≤ vec_capacity start.ending.closed) }
    requires room { (start.room.items ≡ []) × (vec_len start.shifts ≤ vec_capacity start.room) }
    ensures end { (x : Script) → IsStart x (record { turns = start.cluster.turns.items; board = start.cluster.shared.board; pools = start.cluster.shared.pools; regions = H.regions start.cluster.shared.shelf }) start.ending.rest (map (λ t. t.pass) start.shifts.items) (map (λ t. t.jobs) start.shifts.items)
        → IsEnd (H.regions start.cluster.shared.shelf) x (record { segs = result.stripes.items; kills = result.board }) }
    ensures left { (x : Script) → IsStart x (record { turns = start.cluster.turns.items; board = start.cluster.shared.board; pools = start.cluster.shared.pools; regions = H.regions start.cluster.shared.shelf }) start.ending.rest (map (λ t. t.pass) start.shifts.items) (map (λ t. t.jobs) start.shifts.items)
        → IsPrintable x result.stripes.items result.board result.pools }
{
    let Ready {
        cluster,
        ending,
        mut shifts,
        room,
    } = start;
    fulfil(rt, &cluster, shifts.as_mut_slice(), gate);
    let closed = cluster.close(ending, passes_of(shifts, room));
    let stripes = closed.stripes.as_slice();
    await_all(rt, stripes);
    all_fit(stripes);
    closed
}

/// The run of a scenario by threads, from its start to its end. There is want of memory only before the first thread is started.
pub fn played<
    R: Region + Send + Sync,
    H: Shelf<Region = R> + Drop + Sync,
    G: Gate + Sync,
    V: Threads + Wait + Sync,
>(
    rt: &V,
    alloc: Global,
    scenario: &mut Scenario,
    shelf: H,
    gate: &G,
) -> Result<Closed<R>, OutOfMemory>
    ensures end { IfOk result (λ c. IsEnd (H.regions shelf) scenario.old (record { segs = c.stripes.items; kills = c.board })) }
    ensures left { IfOk result (λ c. IsPrintable scenario.old c.stripes.items c.board c.pools) }
    ensures bare { IfOk result (λ _. PrintsAs scenario.old scenario.new) }
{
    match start(alloc, scenario, shelf) {
        Ok(start) => Ok(ended(rt, start, gate)),
        Err(refused) => Err(refused),
    }
}
