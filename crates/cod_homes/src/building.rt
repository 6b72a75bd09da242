//! The segments of a scenario, as they are when nothing has happened.
ghost use Rattle.std.specs.Prelude.{◌≡◌, IfOk, length, replicate};
ghost use Rattle.cod_homes.specs.Building.{AreBuilt};

use cod_place::PlainPools;
use cod_region::Shelf;
use cod_script::Scenario;
use cod_stripe::Stripe;
use cod_types::{OutOfMemory, SegId};
use std::alloc::Global;

/// The segments of a scenario, in order, each new, with its columns at home. The pools must be new ones of its nodes.
pub fn stripes<H: Shelf>(
    alloc: Global,
    scenario: &Scenario,
    shelf: &H,
    pools: &mut PlainPools,
) -> Result<Vec<Stripe<H::Region>>, OutOfMemory>
    requires fresh { pools.old ≡ record { capacity = scenario.now.capacity; free = replicate scenario.now.nodes scenario.now.capacity } }
    ensures { IfOk result (λ stripes. AreBuilt scenario.now (H.regions shelf.now) (length scenario.now.segments) stripes.items pools.new) }
{
    let g = *scenario.geometry();
    let count = scenario.segments();
    let mut stripes = Vec::new(alloc);
    'segments: for seg in 0..count {
        stripes.push(Stripe::build(alloc, g, SegId(seg), scenario.nodes(), shelf, pools)?)?;
    }
    Ok(stripes)
}
