//! A world's nodes by number.
ghost use Rattle.std.specs.Prelude.{◌≡◌, ◌<◌, ◌≤◌, IfOk, IfErr, length, map};
ghost use Rattle.std.specs.Borrow.{sem};
ghost use Rattle.ipcz_base.specs.Indexed.{place_at};
ghost use Rattle.ipcz_node.specs.Node.{bare_node};
ghost use Rattle.ipcz_world.specs.RoomyWorlds.{no_room};
ghost use Rattle.ipcz_world.specs.World.{node_limit, new_nodes, numbers_from};

use ipcz_base::Refusal;
use ipcz_node::NodeState;
use std::alloc::Global;
use std::marker::Model;

/// The nodes of the world, by number.
#[derive(Drop)]
pub(crate) struct Nodes {
    states: Vec<NodeState>,
}

impl Model for Nodes {
    ghost use Rattle.std.specs.Prelude.{map};
    ghost use Rattle.std.specs.FinMap.{code};
    ghost use Rattle.std.specs.Coded.{codes};
    ghost use Rattle.ipcz_world.specs.RoomyWorlds.{NodesValue};

    ghost Value = { NodesValue };

    ghost coded = { Prim.hlevel (codes, code) };

    ghost view = { λ a. record {
      nodes = map (λ k. k.node) a.states.items;
      rooms = map (λ k. k.room) a.states.items;
    } };
}

impl Nodes {
    ghost use Rattle.ipcz_world.specs.Lending.{LendsNode};

    /// So many nodes with their first pairs. Its only refusal is `OutOfMemory`.
    pub(crate) fn new(alloc: Global, count: u8) -> Result<Nodes, Refusal>
        requires { count ≤ node_limit }
        ensures nodes { IfOk result (λ s. s.nodes ≡ new_nodes count (numbers_from 0 count)) }
        ensures why { IfErr result (λ e. e ≡ Refusal.OutOfMemory) }
    {
        let mut states = Vec::new(alloc);
        for number in 0..count {
            let state = NodeState::new(alloc, number, count)?;
            let Ok(()) = states.push(state) else {
                return Err(Refusal::OutOfMemory);
            };
        }
        Ok(Nodes { states })
    }

    /// These nodes, by number.
    pub(crate) fn of(states: Vec<NodeState>) -> Nodes
        ensures { result.nodes ≡ map (λ k. k.node) states.items }
    {
        Nodes { states }
    }

    /// The node of a number, to read.
    pub(crate) fn node(&self, n: u8) -> &NodeState
        requires { n < length self.now.nodes }
        ensures { result.now.node ≡ place_at (bare_node 0 0) self.now.nodes n }
    {
        &self.states[n as usize]
    }

    /// The node of a number, to change.
    pub(crate) fn node_mut(&mut self, n: u8) -> &mut NodeState
        requires { n < length self.old.nodes }
        ensures* writes_back { sem 𝓛 (LendsNode self.entry n result) }
        ensures value { result.now.node ≡ place_at (bare_node 0 0) self.old.nodes n }
        ensures room { result.now.room ≡ place_at no_room self.old.rooms n }
    {
        &mut self.states[n as usize]
    }
}
