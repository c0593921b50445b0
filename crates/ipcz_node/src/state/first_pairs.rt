//! A node as it begins, with its ends of the first pairs.
ghost use Rattle.std.specs.Prelude.{◌≡◌, ◌<◌, ◌≤◌, ◌+◌, ◌*◌, [], ◌++◌, OnOk, IfOk, IfErr, replicate};
ghost use Rattle.ipcz_base.specs.Limits.{no_number};
ghost use Rattle.ipcz_node.specs.FirstPairs.{new_node, new_node_from, bare_from, add_pairs, pairs_from, first_pairs_from, first_pair_count, add_pair};
ghost use Rattle.ipcz_node.specs.FirstPairs.{HasSerials};

use super::NodeState;
use crate::directory::Directory;
use crate::outboxes::Outboxes;
use crate::spare::Spare;
use ipcz_base::{Refusal, Side};
use std::alloc::{AllocError, Global};

impl NodeState {
    /// The node of a number among so many, with its ends of the first pairs: one pair for each two nodes, numbered in the
    /// order of their nodes, side A at the lower one. Callers hold them.
    ///
    /// `count` is 1 to 64, and `number` is below it. Its only refusal is `OutOfMemory`.
    #[tactic(auto, unfolding(crate::specs::FirstPairs::new_node))]
    pub fn new(alloc: Global, number: u8, count: u8) -> Result<Self, Refusal>
        requires within { (number < count) × (count ≤ 64) }
        ensures ok { IfOk result (λ s. s.node ≡ new_node number count) }
        ensures why { IfErr result (λ e. e ≡ Refusal.OutOfMemory) }
    {
        NodeState::new_from(alloc, number, count, 0)
    }

    /// The same, with the serials of routers and of peripheral links counted from `first` on. No run reaches the last serials,
    /// so this is for those who want to see how they end.
    ///
    /// The routers of the first pairs, one for each other node, have serials below u64::MAX. Its only refusal is `OutOfMemory`.
    #[tactic(auto, using(crate::proofs::FirstPairs::first_row, crate::proofs::FirstPairs::first_serials))]
    pub fn new_from(alloc: Global, number: u8, count: u8, first: u64) -> Result<Self, Refusal>
        requires within { (number < count) × (count ≤ 64) }
        requires serials { first + count ≤ no_number + 1 }
        ensures ok { IfOk result (λ s. s.node ≡ new_node_from number count first) }
        ensures why { IfErr result (λ e. e ≡ Refusal.OutOfMemory) }
    {
        let Ok(outboxes) = Outboxes::new(alloc) else {
            return Err(Refusal::OutOfMemory);
        };
        let mut node = NodeState::bare(alloc, number, count, first, outboxes);
        match node.add_pairs(0, 1, count - 1, count - 1, 0) {
            Ok(()) => Ok(node),
            Err(_) => Err(Refusal::OutOfMemory),
        }
    }

    // A node without routers, whose serials are counted from the first one on.
    fn bare(alloc: Global, number: u8, count: u8, first: u64, outboxes: Outboxes) -> Self
        requires { outboxes.messages ≡ replicate 256 [] }
        ensures { result.node ≡ bare_from number count first }
    {
        NodeState {
            number,
            count,
            routers: Directory::new(alloc, first),
            outboxes,
            pending: Vec::new(alloc),
            strays: Vec::new(alloc),
            hand: None,
            opening: None,
            next_peripheral: first,
            moves: Spare::new(alloc),
            event_ends: Spare::new(alloc),
            alloc,
        }
    }

    // Adds the node's ends of the pairs of node `i` with `left` nodes from `j` on, and of the pairs among the `rows` nodes after
    // node `i`, numbered from `pair` on. It asks for serials for exactly these ends.
    #[tactic(auto, using(crate::proofs::FirstPairs::next_pair, crate::proofs::FirstPairs::next_row, crate::proofs::FirstPairs::no_pairs, crate::proofs::FirstPairs::next_serials, crate::proofs::FirstPairs::row_serials, crate::proofs::FirstPairs::pair_serial))]
    fn add_pairs(&mut self, i: u8, j: u8, left: u8, rows: u8, pair: u64) -> Result<(), AllocError>
        requires row { i < j }
        requires nodes { (j + left ≡ i + 1 + rows) × (j + left ≤ 64) }
        requires pairs { pair ≤ 64 * i + j }
        requires serials { HasSerials self.old.node i j left rows }
        ensures { OnOk result (self.new.node ≡ add_pairs self.old.node pair (pairs_from i j left ++ first_pairs_from (i + 1) rows)) }
    {
        if left > 0 {
            self.add_pair(i, j, pair)?;
            self.add_pairs(i, j + 1, left - 1, rows, pair + 1)
        } else if rows > 0 {
            let next = i + 1;
            self.add_pairs(next, next + 1, rows - 1, rows - 1, pair)
        } else {
            Ok(())
        }
    }

    // Adds the node's end of the first pair of two nodes, if it has one.
    fn add_pair(&mut self, i: u8, j: u8, pair: u64) -> Result<(), AllocError>
        requires lower { self.old.node.number ≡ i → self.old.node.next_router < no_number }
        requires upper { self.old.node.number ≡ j → self.old.node.next_router < no_number }
        ensures node { OnOk result (self.new.node ≡ add_pair self.old.node pair (i, j)) }
    {
        if i == self.number {
            self.routers.reserve(1, 0)?;
            self.routers.add_end(self.alloc, pair, Side::A, j);
        } else if j == self.number {
            self.routers.reserve(1, 0)?;
            self.routers.add_end(self.alloc, pair, Side::B, i);
        }
        Ok(())
    }
}

/// How many first pairs so many nodes have: each node has one with each of those behind it.
///
/// So `first_pair_count(4)` is 6.
#[tactic(auto, using(crate::proofs::FirstPairs::pair_count_is))]
pub fn first_pair_count(nodes: u8) -> u32
    ensures { result ≡ first_pair_count nodes }
{
    let count = u32::from(nodes);
    count * count.saturating_sub(1) / 2
}
