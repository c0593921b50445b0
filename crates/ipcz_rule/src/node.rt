//! A node without its room, for proofs alone.
use std::collections::VecDeque;
use std::marker::Model;

/// The state of a node without the room that it has made: its contracts see it as a `Node`. No value of it is made. A view has it instead
/// of a `NodeState`, since room is made without an atomic step.
#[derive(Drop)]
pub struct PlainNode {
    numbers: VecDeque<u64>,
}

impl Model for PlainNode {
    ghost use Rattle.std.specs.FinMap.{code};
    ghost use Rattle.std.specs.FinSet as sets;
    ghost use Rattle.std.specs.Coded.{codes};
    ghost use Rattle.ipcz_node.specs.Node.{Node, bare_node};

    ghost Value = { Node };

    ghost coded = { Prim.hlevel (codes, code, sets.code) };

    ghost view = { λ n. bare_node 0 0 };
}
