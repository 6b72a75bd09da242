//! What callers have to do, with all memory for it.
ghost use Rattle.std.specs.Prelude.{◌≡◌, ◌∷◌, [], ◌+◌, ◌<◌, length, IfNone, IfOk, IfSome};
ghost use Rattle.std.specs.List.{list_any};
ghost use Rattle.cod_script.specs.Owed.{care_ask, has_fail, is_fail};
ghost use Rattle.cod_script.specs.Script.{without_lines};
ghost use Rattle.cod_shell.specs.Lines.{PrintsAs};
ghost use Rattle.cod_run.specs.Jobs.{AreDated, AreJobs, care_lines, IsDatedLine, job_of, jobs_of, line_for, lines_due};

use cod_care::next_job;
use cod_claims::Slip;
use cod_script::{Line, Scenario, What};
use cod_types::{Geometry, NodeId, OutOfMemory, SegId};
use std::alloc::Global;
use std::collections::VecDeque;
use std::marker::Model;

/// What a caller has to do at a time.
#[derive(Drop)]
pub enum Job {
    /// A call of a segment.
    Call { seg: SegId, slip: Slip },
    /// The failure of a node, with the line's number in the scenario.
    Fail { line: u32, node: NodeId },
}

/// A caller's jobs, in order, seen as a list.
#[derive(Drop)]
pub struct Jobs {
    list: VecDeque<Job>,
}

impl Model for Jobs {
    ghost use Rattle.std.specs.Prelude.{List};
    ghost use Rattle.cod_run.specs.declared.job.Job.{Job};

    ghost Value = { List Job };

    ghost view = { λ j. j.list.items };
}

impl Jobs {
    /// Takes the first job out. None exactly where there is none.
    pub fn next(&mut self) -> Option<Job>
        ensures some { IfSome result (λ job. self.old ≡ job ∷ self.new) }
        ensures none { IfNone result ((self.old ≡ []) × (self.new ≡ [])) }
    {
        self.list.pop_front()
    }
}

/// A line, with the memory of its call.
fn of_line(alloc: Global, g: &Geometry, line: Line) -> Result<Job, OutOfMemory>
    requires { IsDatedLine g.now line }
    ensures { IfOk result (λ job. job ≡ job_of g.now line) }
{
    let Line { line, what } = line;
    match what {
        What::Segment { seg, call } => Ok(Job::Call {
            seg,
            slip: Slip::prepare(alloc, g, call)?,
        }),
        What::Fail { node } => Ok(Job::Fail { line, node }),
    }
}

/// The jobs of these lines. Their calls are moved into the slips.
fn of_lines(alloc: Global, g: &Geometry, lines: Vec<Line>) -> Result<Jobs, OutOfMemory>
    requires { AreDated g.now lines.items }
    ensures { IfOk result (λ jobs. jobs ≡ jobs_of g.now lines.items) }
{
    let mut list = VecDeque::with_capacity(alloc, lines.len())?;
    'lines: for line in lines {
        list.push_back(of_line(alloc, g, line)?)?;
    }
    Ok(Jobs { list })
}

/// The line of a care worker's round.
fn care_line(scenario: &Scenario, worker: u32, round: u32, repair: bool) -> Line
    requires { worker < scenario.now.workers }
    ensures line { result ≡ line_for (care_ask worker scenario.now.workers (length scenario.now.segments) repair round) }
    ensures dated { IsDatedLine scenario.now.shape result }
{
    let (workers, _) = scenario.care();
    let (seg, call) = next_job(worker, workers, round, scenario.segments(), repair);
    Line {
        line: 0,
        what: What::Segment { seg, call },
    }
}

/// The jobs of a care worker: those of its rounds.
fn of_worker(
    alloc: Global,
    scenario: &Scenario,
    worker: u32,
    repair: bool,
) -> Result<Jobs, OutOfMemory>
    requires { worker < scenario.now.workers }
    ensures { IfOk result (λ jobs. jobs ≡ jobs_of scenario.now.shape
        (care_lines worker scenario.now.workers (length scenario.now.segments) repair scenario.now.rounds)) }
{
    let (_, rounds) = scenario.care();
    let mut list = VecDeque::with_capacity(alloc, rounds as usize)?;
    for round in 0..rounds {
        let line = care_line(scenario, worker, round, repair);
        list.push_back(of_line(alloc, scenario.geometry(), line)?)?;
    }
    Ok(Jobs { list })
}

/// Whether a line is the failure of a node.
fn is_failure(line: &Line) -> bool
    ensures { result ≡ is_fail line.now }
{
    match &line.what {
        What::Segment { seg: _, call: _ } => false,
        What::Fail { node: _ } => true,
    }
}

/// Whether one of these lines is.
fn any_failure(lines: &[Line]) -> bool
    ensures { result ≡ list_any is_fail lines.now }
{
    lines.iter().any(|line| is_failure(line))
}

/// Whether some client has a line that is the failure of a node.
fn has_failure(scenario: &Scenario) -> bool
    ensures { result ≡ has_fail scenario.now }
{
    for client in 0..scenario.clients() {
        if any_failure(scenario.lines(client)) {
            return true;
        }
    }
    false
}

/// The jobs of a caller: of a client, or of a care worker. A client's lines are moved out of the scenario.
fn of_caller(
    alloc: Global,
    scenario: &mut Scenario,
    caller: u32,
    repair: bool,
) -> Result<Jobs, OutOfMemory>
    requires { caller < length scenario.old.clients + scenario.old.workers }
    ensures jobs { IfOk result (λ jobs. jobs ≡ jobs_of scenario.old.shape (lines_due scenario.old repair caller)) }
    ensures rest { IfOk result (λ _. scenario.new ≡ without_lines scenario.old caller) }
{
    let _sound = scenario.segments();
    let clients = scenario.clients();
    if caller < clients {
        let g = *scenario.geometry();
        let lines = scenario.take_lines(caller);
        of_lines(alloc, &g, lines)
    } else {
        of_worker(alloc, scenario, caller - clients, repair)
    }
}

/// The jobs of each caller: of the clients, and then of the care workers. The lines are moved out of the scenario.
pub fn all_jobs(alloc: Global, scenario: &mut Scenario) -> Result<VecDeque<Jobs>, OutOfMemory>
    ensures jobs { IfOk result (λ all. AreJobs scenario.old (length scenario.old.clients + scenario.old.workers) all.items) }
    ensures bare { IfOk result (λ _. PrintsAs scenario.old scenario.new) }
{
    let (workers, _) = scenario.care();
    let _sound = scenario.segments();
    let callers = scenario.clients() + workers;
    let repair = has_failure(scenario);
    let mut all = VecDeque::with_capacity(alloc, callers as usize)?;
    'callers: for caller in 0..callers {
        all.push_back(of_caller(alloc, scenario, caller, repair)?)?;
    }
    Ok(all)
}
