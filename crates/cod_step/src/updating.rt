//! The next step of an update.
ghost use Rattle.std.specs.Prelude.{◌≡◌, ◌+◌, ◌<◌, ◌≤◌, ℕ, nat_lt};
ghost use Rattle.cod_types.specs.Limits.{segment_length};
ghost use Rattle.cod_layout.specs.Parts.{length_in};
ghost use Rattle.cod_claims.specs.Claimed.{is_wanted};
ghost use Rattle.cod_step.specs.Next.{bare_of, data_due, has_claim, is_bare, is_data_due, is_parity_due, next_update, parity_due, touches};

use crate::scene::Scene;
use cod_claims::Claims;
use cod_seg::Step;
use cod_types::{Caller, Geometry};

/// Whether a range has bytes of block j.
fn touches(g: &Geometry, off: u32, len: u32, j: u8) -> bool
    requires block { j < g.now.k }
    requires inside { off + len ≤ segment_length g.now }
    ensures { result ≡ touches g.now off len j }
{
    let _most = g.bytes();
    let base = j as u32 * g.block();
    off.max(base) < (off + len).min(base + g.block())
}

/// The blocks of a range; bit j is for block j.
pub(crate) fn wanted(g: &Geometry, off: u32, len: u32) -> u16
    requires { off + len ≤ segment_length g.now }
    ensures { (j : ℕ) → is_wanted result j ≡ touches g.now off len j }
{
    let mut blocks = 0;
    for j in 0..g.k() {
        if touches(g, off, len, j) {
            blocks |= 1 << j;
        }
    }
    blocks
}

/// Whether the caller has a claim.
pub(crate) fn has_claim(claims: &Claims, caller: Caller) -> bool
    ensures { result ≡ has_claim claims.now caller.0 }
{
    for j in 0..16u8 {
        if claims.is_of(j, caller) {
            return true;
        }
    }
    false
}

/// Whether the caller's update has a part in the block, whose column is live and doesn't have it.
fn is_data_due(scene: &Scene<'_>, caller: Caller, j: u8) -> bool
    requires { j < 16 }
    ensures { result ≡ is_data_due scene.now.live scene.now.claims.now caller.0 j }
{
    scene.claims.is_of(j, caller) && scene.is_live(j) && !scene.claims.is_applied(j)
}

/// The first block of the caller's update whose data column is live and doesn't have it.
fn data_due(scene: &Scene<'_>, caller: Caller) -> Option<u8>
    ensures { result ≡ data_due scene.now.shape.k scene.now.live scene.now.claims.now caller.0 }
{
    let k = scene.shape.k();
    for j in 0..k {
        if is_data_due(scene, caller, j) {
            return Some(j);
        }
    }
    None
}

/// Whether the column is live and has no record of the block's update.
fn is_bare(scene: &Scene<'_>, block: u8, i: u8) -> bool
    requires { i < 16 }
    ensures { result ≡ is_bare scene.now.live scene.now.claims.now block i }
{
    scene.is_live(i) && !scene.claims.is_noted(block, i)
}

/// The lowest parity column that is.
fn bare_of(scene: &Scene<'_>, block: u8) -> Option<u8>
    ensures { result ≡ bare_of scene.now.shape.k scene.now.shape.n scene.now.live scene.now.claims.now block }
{
    let k = scene.shape.k();
    let n = scene.shape.n();
    for i in k..n {
        if is_bare(scene, block, i) {
            return Some(i);
        }
    }
    None
}

/// Whether the caller's update has a part in the block of which a live parity column has no record.
fn is_parity_due(scene: &Scene<'_>, caller: Caller, j: u8) -> bool
    ensures { result ≡ is_parity_due scene.now.shape.k scene.now.shape.n scene.now.live scene.now.claims.now caller.0 j }
{
    scene.claims.is_of(j, caller) && bare_of(scene, j).is_some()
}

/// The first block of the caller's update of which a live parity column has no record.
fn parity_due(scene: &Scene<'_>, caller: Caller) -> Option<u8>
    ensures { result ≡ parity_due scene.now.shape.k scene.now.shape.n scene.now.live scene.now.claims.now caller.0 }
{
    let k = scene.shape.k();
    for j in 0..k {
        if is_parity_due(scene, caller, j) {
            return Some(j);
        }
    }
    None
}

/// The next step of an update that has its claims.
pub(crate) fn next_update(scene: &Scene<'_>, caller: Caller) -> Step
    ensures { result ≡ next_update scene.now.shape.k scene.now.shape.n scene.now.live scene.now.claims.now caller.0 }
{
    match data_due(scene, caller) {
        Some(j) => Step::Data(j),
        None => match parity_due(scene, caller) {
            Some(j) => match bare_of(scene, j) {
                Some(i) => Step::Parity(j, i),
                None => Step::Commit,
            },
            None => Step::Commit,
        },
    }
}
