//! Nodes whose slots a cell's seat has.
ghost use Rattle.std.specs.Prelude.{◌≡◌, ◌<◌, ◌≤◌, ◌++◌, ◌∷◌, [], true, false, length, List, ℕ, IfOk, MatchOption, nat_eq};
ghost use Rattle.ipcz_rule.specs.Rule.{has_number, without_number};
ghost use Rattle.ipcz_cell.specs.Cells.{place_in, AreOnce};

use ipcz_node::NodeSet;
use std::alloc::{AllocError, Global};
use std::marker::Model;

/// Numbers below 64 in some order, none twice. There is room for each. Which there are is kept as a set beside the list, so that neither a number nor the
/// lowest one is looked for.
#[derive(Drop)]
pub(crate) struct NodeList {
    nodes: Vec<u8>,
    set: NodeSet,
}

impl Model for NodeList {
    ghost use Rattle.std.specs.Prelude.{◌≤◌, List, ℕ, vec_capacity};
    ghost use Rattle.std.specs.Coded.{codes};
    ghost use Rattle.ipcz_cell.specs.Cells.{AreOnce, AreBelow, IsSetOf};

    ghost Value = { List ℕ };

    ghost coded = { Prim.hlevel codes };

    ghost view = { λ a. a.nodes.items };

    ghost invariant = { λ a. (64 ≤ vec_capacity a.nodes) × AreOnce a.nodes.items × AreBelow 64 a.nodes.items × IsSetOf a.set a.nodes.items };
}

impl NodeList {
    /// None yet.
    pub(crate) fn new(alloc: Global) -> Result<NodeList, AllocError>
        ensures { IfOk result (λ p. p ≡ []) }
    {
        Ok(NodeList {
            nodes: Vec::with_capacity(alloc, 64)?,
            set: NodeSet::none(),
        })
    }

    /// How many there are.
    pub(crate) fn len(&self) -> usize
        ensures length { result ≡ length self.now }
        ensures few { result ≤ 64 }
    {
        self.nodes.as_slice().len()
    }

    /// Whether a number is there.
    pub(crate) fn has(&self, number: u8) -> bool
        ensures { result ≡ has_number self.now number }
    {
        self.set.has(number)
    }

    /// Takes the first number out, if there is one.
    pub(crate) fn take_first(&mut self) -> Option<u8>
        ensures first { MatchOption result (self.old ≡ []) (λ number. self.old ≡ number ∷ self.new) }
        ensures once { AreOnce self.old }
    {
        if self.nodes.is_empty() {
            return None;
        }
        let number = self.nodes.remove(0);
        self.set.remove(number);
        Some(number)
    }

    /// Whether there is none.
    pub(crate) fn is_empty(&self) -> bool
        ensures { result ≡ nat_eq (length self.now) 0 }
    {
        self.nodes.is_empty()
    }

    /// Where a number stands that is there: how many stand before it.
    pub(crate) fn place_of(&self, number: u8) -> usize
        requires { has_number self.now number ≡ true }
        ensures place { (before : List ℕ) × (after : List ℕ) × (self.now ≡ before ++ number ∷ after) × (result ≡ length before) }
        ensures once { AreOnce self.now }
    {
        place_of(self.nodes.as_slice(), number)
    }

    /// The lowest number, if there is one.
    pub(crate) fn lowest(&self) -> Option<u8>
        ensures { MatchOption result (self.now ≡ []) (λ low. (has_number self.now low ≡ true) × ((j : ℕ) → has_number self.now j ≡ true → low ≤ j)) }
    {
        let low = self.set.first_from(0);
        if low < 64 { Some(low) } else { None }
    }

    /// Adds a number, as the last.
    pub(crate) fn push(&mut self, number: u8)
        requires small { number < 64 }
        requires absent { has_number self.old number ≡ false }
        ensures { self.new ≡ self.old ++ number ∷ [] }
    {
        let _all = self.nodes.as_slice();
        self.nodes.push_reserved(number);
        self.set.add(number);
    }

    /// Adds a number, as the first.
    pub(crate) fn add(&mut self, number: u8)
        requires small { number < 64 }
        requires absent { has_number self.old number ≡ false }
        ensures { self.new ≡ number ∷ self.old }
    {
        let _all = self.nodes.as_slice();
        let Ok(()) = self.nodes.insert(0, number) else {
            unreachable!()
        };
        self.set.add(number);
    }

    /// Takes a number out, and tells how many stood before it.
    #[inline(always)]
    pub(crate) fn take(&mut self, number: u8) -> usize
        requires { has_number self.old number ≡ true }
        ensures without { self.new ≡ without_number self.old number }
        ensures place { (before : List ℕ) × (after : List ℕ) × (self.old ≡ before ++ number ∷ after) × (self.new ≡ before ++ after) ×
            (result ≡ length before) }
    {
        if self.nodes.as_slice().len() == 1 {
            self.nodes.clear();
            self.set = NodeSet::none();
            return 0;
        }
        self.take_of_many(number)
    }

    // The same, where it is looked for.
    #[inline(never)]
    fn take_of_many(&mut self, number: u8) -> usize
        requires { has_number self.old number ≡ true }
        ensures without { self.new ≡ without_number self.old number }
        ensures place { (before : List ℕ) × (after : List ℕ) × (self.old ≡ before ++ number ∷ after) × (self.new ≡ before ++ after) ×
            (result ≡ length before) }
    {
        let place = place_of(self.nodes.as_slice(), number);
        self.nodes.remove(place);
        self.set.remove(number);
        place
    }
}

// Where a number stands first in a list that has it.
fn place_of(nodes: &[u8], number: u8) -> usize
    requires { has_number nodes.now number ≡ true }
    ensures place { result ≡ place_in nodes.now number }
    ensures inside { result < length nodes.now }
{
    match nodes {
        [] => unreachable!(),
        [first, rest @ ..] => {
            if number == *first {
                0
            } else {
                place_of(rest, number) + 1
            }
        }
    }
}
