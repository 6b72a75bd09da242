//! The run of a scenario.
ghost use Rattle.std.specs.Prelude.{IfOk};
ghost use Rattle.cod_tool.specs.Ends.{HasRun};

use cod_region::Shelf;
use cod_replay::Replay;
use cod_script::Scenario;
use cod_shell::within::all_fit;
use cod_types::OutOfMemory;
use std::alloc::Global;

/// The replay of a scenario, from its start to its end. There is want of memory only before the first turn.
pub fn played<H: Shelf + Drop>(
    alloc: Global,
    scenario: Scenario,
    shelf: H,
) -> Result<Replay<H>, OutOfMemory>
    ensures { IfOk result (λ r. HasRun (H.regions shelf) scenario r) }
{
    let mut replay = match Replay::build(alloc, scenario, shelf) {
        Ok(replay) => replay,
        Err(refused) => return Err(refused),
    };
    replay.run();
    all_fit(replay.stripes());
    Ok(replay)
}
