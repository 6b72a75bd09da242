//! The clients of a replay, before their first turn.
ghost use Rattle.std.specs.Prelude.{IfOk, length};
ghost use Rattle.cod_replay.specs.Building.{ArePlays};
ghost use Rattle.cod_replay.specs.Standing.{IsBareOf, UpgradesAreDated};

use crate::play::Player;
use cod_script::Scenario;
use cod_types::{Caller, OutOfMemory};
use std::alloc::Global;

/// The clients, with all that they have to do. Their lines are moved out of the scenario.
pub(crate) fn players(alloc: Global, scenario: &mut Scenario) -> Result<Vec<Player>, OutOfMemory>
    requires { UpgradesAreDated scenario.old }
    ensures players { IfOk result (λ players. ArePlays scenario.old (length scenario.old.clients) players.items) }
    ensures rest { IfOk result (λ _. IsBareOf scenario.old scenario.new) }
{
    let g = *scenario.geometry();
    let count = scenario.clients();
    let mut players = Vec::new(alloc);
    'clients: for client in 0..count {
        let lines = scenario.take_lines(client);
        players.push(Player::prepare(alloc, &g, Caller(client), lines)?)?;
    }
    Ok(players)
}
