//! A board that nobody shares.
ghost use Rattle.std.specs.Prelude.{◌≡◌, ◌<◌, ◌≤◌, None, IfOk, IfSome, length, replicate};
ghost use Rattle.cod_board.specs.Kills.{kill_of, HaveLines};

use crate::{Board, Kill};
use cod_types::{NodeId, OutOfMemory};
use std::alloc::Global;
use std::marker::Model;

/// A board that nobody shares, seen as the kill of each node, if there is one.
#[derive(Debug, Drop)]
pub struct PlainBoard {
    kills: Vec<Option<Kill>>,
}

impl Model for PlainBoard {
    ghost use Rattle.std.specs.Prelude.{List, Option};
    ghost use Rattle.cod_board.specs.declared.kill.Kill.{Kill};
    ghost use Rattle.cod_board.specs.Kills.{HaveLines};

    ghost Value = { List (Option Kill) };

    ghost view = { λ b. b.kills.items };

    ghost invariant = { λ b. HaveLines b.kills.items };
}

impl PlainBoard {
    /// A board of so many nodes, 1 to 64, all of them up.
    pub fn new(alloc: Global, nodes: u8) -> Result<PlainBoard, OutOfMemory>
        requires some { 1 ≤ nodes }
        requires most { nodes ≤ 64 }
        ensures { IfOk result (λ b. b ≡ replicate nodes None) }
    {
        Ok(PlainBoard {
            kills: vec![in alloc; None; nodes as usize]?,
        })
    }

    /// The kill of a node, if there is one.
    pub fn get(&self, node: NodeId) -> Option<Kill>
        requires { node.0 < length self.now }
        ensures value { result ≡ kill_of self.now node.0 }
        ensures line { IfSome result (λ k. 1 ≤ k.line) }
    {
        self.kills[node.0 as usize]
    }

    /// Its kills, in their place.
    pub(crate) fn into_kills(self) -> Vec<Option<Kill>>
        ensures { result.items ≡ self }
    {
        self.kills
    }

    /// A board of these kills.
    pub(crate) fn of_kills(kills: Vec<Option<Kill>>) -> PlainBoard
        requires { HaveLines kills.items }
        ensures { result ≡ kills.items }
    {
        PlainBoard { kills }
    }
}

impl Board for PlainBoard {
    ghost use Rattle.std.specs.Prelude.{◌≡◌, true};
    ghost use Rattle.std.proofs.Common.{refl, ◌∙◌};

    ghost kills = { λ b. b };

    ghost is_alone = { true };

    ghost ready = { λ _. Unit {0} };

    ghost same = { λ a b. b ≡ a };

    fn down(&mut self, node: NodeId) -> Option<Kill> {
        self.kills[node.0 as usize]
    }

    fn kill(&mut self, node: NodeId, kill: Kill) {
        let known = &mut self.kills[node.0 as usize];
        if known.is_none() {
            *known = Some(kill);
        }
    }

    ghost same_self = { λ _. refl };

    ghost same_later = { λ _ _ _ first then_. then_ ∙ first };
}
