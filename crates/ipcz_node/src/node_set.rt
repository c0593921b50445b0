//! Sets of nodes: those that a turn concerns, those that something waits for.
ghost use Rattle.std.specs.Prelude.{◌≡◌, ◌<◌, ◌≤◌, ◌||◌, ◌&&◌, ℕ, nat_eq, not, true, false};
ghost use Rattle.std.specs.Int.{bit_at};
ghost use Rattle.ipcz_node.specs.NodeSets.{has_node, no_nodes};

/// A set of nodes of a table, which are below 64.
#[derive(Clone, Copy, Debug, PartialEq, Eq)]
pub struct NodeSet {
    bits: u64,
}

impl NodeSet {
    /// The set without a node.
    ///
    /// So `NodeSet::none().has(0)` is false.
    pub fn none() -> NodeSet
        ensures { result ≡ no_nodes }
    {
        NodeSet { bits: 0 }
    }

    /// Whether a node is in the set. One of 64 or more never is.
    ///
    /// Where node 0 has posted a message to node 1 in `NodeCell::acts_touching` of `ipcz_cell`, `touched.has(1)` is true.
    #[inline(always)]
    pub fn has(self, node: u8) -> bool
        ensures { result ≡ has_node self node }
    {
        node < 64 && self.bits >> node & 1 == 1
    }

    /// The set as a number whose bit `n` says whether node `n` is in it.
    ///
    /// Of the nodes 0 and 3 that is 9.
    pub fn bits(self) -> u64
        ensures { result ≡ self.bits }
    {
        let NodeSet { bits } = self;
        bits
    }

    /// Adds a node. One of 64 or more isn't added.
    ///
    /// So after `let mut set = NodeSet::none(); set.add(3);` `set.has(3)` is true, and `set.bits()` is 8.
    #[inline(always)]
    pub fn add(&mut self, node: u8)
        ensures { (n : ℕ) → n < 64 → has_node self.new n ≡ (nat_eq node n || has_node self.old n) }
    {
        if node < 64 {
            self.bits |= 1 << node;
        }
    }

    /// Takes a node out. One that isn't there is no fault.
    ///
    /// So after `set.add(3)` and `set.remove(3)` `set.has(3)` is false.
    #[inline(always)]
    pub fn remove(&mut self, node: u8)
        ensures { (n : ℕ) → n < 64 → has_node self.new n ≡ (not (nat_eq node n) && has_node self.old n) }
    {
        if node < 64 {
            self.bits &= !(1 << node);
        }
    }

    /// The lowest node of the set from one on, or 64.
    ///
    /// Of the nodes 0 and 3 `set.first_from(1)` is 3, and `set.first_from(4)` is 64.
    #[inline(always)]
    pub fn first_from(self, from: u8) -> u8
        requires { from ≤ 64 }
        ensures from { from ≤ result }
        ensures most { result ≤ 64 }
        ensures none { (n : ℕ) → from ≤ n → n < result → has_node self n ≡ false }
        ensures there { result < 64 → has_node self result ≡ true }
    {
        next_set(self.bits, from)
    }
}

/// The lowest bit of a number from one on that is set, or 64.
///
/// Of 9 `next_set(9, 1)` is 3.
#[inline(always)]
pub fn next_set(bits: u64, from: u8) -> u8
    requires { from ≤ 64 }
    ensures from { from ≤ result }
    ensures most { result ≤ 64 }
    ensures clear { (j : ℕ) → from ≤ j → j < result → bit_at bits j ≡ 0 }
    ensures set { result < 64 → bit_at bits result ≡ 1 }
{
    if from == 64 {
        return 64;
    }
    let left = bits >> from;
    if left == 0 {
        return 64;
    }
    from + left.trailing_zeros() as u8
}
