//! The rules by which the next event of a call is chosen.

ghost use Rattle.std.specs.Prelude.{◌≡◌, ◌+◌, ◌<◌, ◌≤◌, ℕ, true, length};
ghost use Rattle.cod_types.specs.Limits.{segment_length};
ghost use Rattle.cod_seg.specs.Next as seg;
ghost use Rattle.cod_seg.specs.Seg.{Seg};
ghost use Rattle.cod_seg.specs.Sound.{Sound};
ghost use Rattle.cod_step.specs.Scenes.{Shows};
ghost use Rattle.cod_step.specs.Next.{drain_step, holder_among, next_step, own_rebuild_step, rebuild_of_other, rebuild_step, unless_held, write_step};

use crate::scene::{Job, Scene, count_down, first_on, too_many_down};
use crate::updating::{has_claim, next_update, wanted};
use cod_claims::Held;
use cod_seg::Step;
use cod_types::{Call, Caller, NodeId, refusal};

/// All blocks.
const ALL: u16 = u16::MAX;

/// The next step of a caller's call: that of each segment which the scene shows.
pub fn next_step(scene: &Scene<'_>, call: &Call, caller: Caller) -> Step
    ensures { (s : Seg) → Sound s → Shows scene.now.shape scene.now.live scene.now.claims.now scene.now.job s → result ≡ seg.next_step s caller.0 call.now }
{
    choose(scene, call, caller)
}

/// The same by the rules over the scene alone.
fn choose(scene: &Scene<'_>, call: &Call, caller: Caller) -> Step
    ensures { result ≡ next_step scene.now.shape scene.now.live scene.now.claims.now scene.now.job caller.0 call.now }
{
    if refusal(&scene.shape, call).is_some() {
        return Step::Refuse;
    }
    if too_many_down(&scene.shape, &scene.live) {
        return Step::Lost;
    }
    match call {
        Call::Read { .. } => Step::Read,
        Call::Merge => Step::Merge,
        Call::Tick => Step::Tick,
        Call::Upgrade => Step::Upgrade,
        Call::Put { .. } => unless_held(scene.claims.who(ALL, caller), Step::Put),
        Call::Write { off, bytes } => write_step(scene, *off, bytes.as_slice().len(), caller),
        Call::Swap { off, new, .. } => write_step(scene, *off, new.as_slice().len(), caller),
        Call::Rebuild => rebuild_step(scene, caller),
        Call::Drain { node } => drain_step(scene, *node, caller),
    }
}

/// The step, unless it has to wait.
fn unless_held(held: Option<Held>, step: Step) -> Step
    ensures { result ≡ unless_held held step }
{
    match held {
        Some(held) => Step::Held(held),
        None => step,
    }
}

/// The next step of a write or a swap of this range.
fn write_step(scene: &Scene<'_>, off: u32, len: usize, caller: Caller) -> Step
    requires { off + len ≤ segment_length scene.now.shape }
    ensures { result ≡ write_step scene.now.shape scene.now.live scene.now.claims.now caller.0 off len }
{
    if has_claim(scene.claims, caller) {
        return next_update(scene, caller);
    }
    let _most = scene.shape.bytes();
    let blocks = wanted(&scene.shape, off, len as u32);
    unless_held(scene.claims.who(blocks, caller), Step::Begin)
}

/// The rebuild in progress where it is another caller's.
fn rebuild_of_other(job: &Option<Job>, caller: Caller) -> Option<Held>
    ensures { result ≡ rebuild_of_other caller.0 job.now }
{
    match job {
        Some(job) if job.caller.0 != caller.0 => Some(Held {
            owner: job.caller,
            number: job.number,
        }),
        _ => None,
    }
}

/// The next step of a rebuild.
fn rebuild_step(scene: &Scene<'_>, caller: Caller) -> Step
    ensures { result ≡ rebuild_step scene.now.shape scene.now.live scene.now.job caller.0 }
{
    let _columns = scene.shape.k(); // the limits of a geometry are told here
    if count_down(&scene.live, scene.shape.n()) == 0 {
        return Step::Whole;
    }
    unless_held(
        rebuild_of_other(&scene.job, caller),
        own_rebuild_step(&scene.job, scene.shape.block()),
    )
}

/// The next step of a rebuild that needn't wait.
fn own_rebuild_step(job: &Option<Job>, block: u32) -> Step
    ensures { result ≡ own_rebuild_step block job.now }
{
    match job {
        Some(
            Job {
                done: Some(done),
                ..
            },
        ) => {
            if *done < block {
                Step::RebuildPiece
            } else {
                Step::RebuildEnd
            }
        }
        _ => Step::RebuildStart,
    }
}

/// The next step of a drain.
fn drain_step(scene: &Scene<'_>, node: NodeId, caller: Caller) -> Step
    ensures { result ≡ drain_step scene.now.shape.n scene.now.live scene.now.job caller.0 node.0 }
{
    let _columns = scene.shape.k(); // the limits of a geometry are told here
    if first_on(&scene.live, scene.shape.n(), node).is_none() {
        return Step::Clear;
    }
    unless_held(rebuild_of_other(&scene.job, caller), Step::Drain)
}
