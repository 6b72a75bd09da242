//! What a line adds to the weight.
ghost use Rattle.std.specs.Prelude.{◌≡◌, ◌+◌, ◌<◌, ◌^◌};
ghost use Rattle.cod_scenario.specs.Lines;
ghost use Rattle.cod_scenario.specs.Lines.{shape_of};
ghost use Rattle.cod_script.specs.Weight;

use crate::said::{Header, Said};
use cod_script::What;
use cod_types::Call;

/// The bytes of a region with its reserve.
fn region(h: &Header) -> u128
    ensures value { result ≡ Weight.region (shape_of h.now) }
    ensures bound { result < 2 ^ 33 }
{
    u128::from(h.block) + u128::from(h.reserve)
}

#[tactic(auto, unfolding(cod_script::specs::Weight::call_weight))]
fn call_weight(h: &Header, call: &Call) -> u128
    ensures { result ≡ Weight.call_weight (shape_of h.now) call.now }
{
    match call {
        Call::Read { off, len } => {
            if u128::from(*off) + u128::from(*len) <= u128::from(h.k) * u128::from(h.block) {
                u128::from(*len)
            } else {
                0
            }
        }
        Call::Write { bytes, .. } => bytes.as_slice().len() as u128,
        Call::Swap { old, new, .. } => {
            old.as_slice().len() as u128 + new.as_slice().len() as u128
        }
        Call::Put { bytes } => bytes.as_slice().len() as u128,
        Call::Rebuild | Call::Drain { .. } => region(h),
        Call::Merge | Call::Tick | Call::Upgrade => 0,
    }
}

#[tactic(auto, unfolding(crate::specs::Lines::line_weight, cod_script::specs::Weight::what_weight))]
pub fn line_weight(h: &Header, said: &Said) -> u128
    ensures { result ≡ Lines.line_weight h.now said.now }
{
    match said {
        Said::Segment(_) => u128::from(h.n) * region(h),
        Said::Does {
            what: What::Segment { call, .. },
            ..
        } => call_weight(h, call),
        Said::Care { workers, rounds } => { u128::from(*workers) * u128::from(*rounds) * region(h) }
        _ => 0,
    }
}

/// The header with what one more line says.
pub fn noted(h: &mut Header, said: &Said)
    ensures { h.new ≡ Lines.noted h.old said.now }
{
    match said {
        Said::Codfs(version) => h.version = *version,
        Said::Nodes { nodes, capacity } => {
            h.nodes = *nodes;
            h.capacity = *capacity;
        }
        Said::Code { n, k } => {
            h.n = *n;
            h.k = *k;
        }
        Said::Block(block) => h.block = *block,
        Said::Update(update) => h.update = *update,
        Said::Reserve(reserve) => h.reserve = *reserve,
        Said::Unit(unit) => h.unit = *unit,
        Said::Alpha(alpha) => h.alpha = *alpha,
        _ => {}
    }
}
