//! The ends that a script's names are bound to, in both directions.
ghost use Rattle.std.specs.Prelude.{◌≡◌, ◌≤◌, ◌+◌, ◌*◌, OnOk, IfOk};
ghost use Rattle.std.specs.FinMap.{get};
ghost use Rattle.ipcz_node.specs.FirstPairs.{pairs_from, first_pairs_from};
ghost use Rattle.ipcz_script.specs.Labels.{bind, bind_pair, bind_pairs, ends_of, first_labels};

use crate::names::Names;
use crate::text::Text;
use crate::titles::Titles;
use ipcz_base::{End, Ends, Side};
use std::alloc::{AllocError, Global};
use std::marker::Model;

/// The ends that the names of a script are bound to, and the names that its ends have (docs/SCRIPTS.md, "The script").
#[derive(Drop)]
pub struct Labels {
    names: Names,
    titles: Titles,
    alloc: Global,
}

impl Model for Labels {
    ghost use Rattle.std.specs.FinMap.{code};
    ghost use Rattle.std.specs.Coded.{codes};
    ghost use Rattle.ipcz_script.specs.Labels as value;

    ghost Value = { value.Labels };

    ghost coded = { Prim.hlevel (codes, code) };

    ghost view = { λ a. record { names = a.names; titles = a.titles } };
}

impl Labels {
    /// The names of the first pairs of so many nodes.
    pub fn first(alloc: Global, nodes: u8) -> Result<Self, AllocError>
        requires few { nodes ≤ 8 }
        ensures labels { IfOk result (λ labels. labels ≡ first_labels nodes) }
    {
        let mut labels = Labels {
            names: Names::new(alloc),
            titles: Titles::new(alloc),
            alloc,
        };
        labels.name_first_pairs(0, 0, nodes)?;
        Ok(labels)
    }

    /// The names that ends have.
    pub fn titles(&self) -> &Titles
        ensures titles { result.now ≡ self.now.titles }
    {
        &self.titles
    }

    /// The end that the name is bound to, or none.
    pub fn end_of(&self, name: &str) -> Option<End>
        ensures end { result ≡ get self.now.names name.now }
    {
        self.names.end_of(name)
    }

    /// The ends that these names are bound to, or none if one of them isn't bound.
    pub fn ends_of(&self, names: &[Text]) -> Result<Option<Ends>, AllocError>
        ensures { IfOk result (λ ends. ends ≡ ends_of self.now names.now) }
    {
        let mut ends = Vec::new(self.alloc);
        for name in names {
            let Some(end) = self.names.end_of(name.as_str()) else {
                return Ok(None);
            };
            ends.push(end)?;
        }
        Ok(Some(Ends::from_vec(ends)))
    }

    /// Binds a name to an end. After an `Err` the name may be bound without being the end's.
    pub fn bind(&mut self, name: &str, end: End) -> Result<(), AllocError>
        ensures { OnOk result (self.new ≡ bind self.old name.now end) }
    {
        self.names.bind(name, end)?;
        self.titles.bind(end, name)
    }

    // Binds the names of the first pair of two nodes.
    fn name_pair(&mut self, pair: u64, i: u8, j: u8) -> Result<(), AllocError>
        ensures { OnOk result (self.new ≡ bind_pair self.old pair i j) }
    {
        let first = End {
            pair,
            side: Side::A,
        };
        let second = End {
            pair,
            side: Side::B,
        };
        let there = format!(in self.alloc; "{i}>{j}")?;
        self.bind(there.as_str(), first)?;
        let back = format!(in self.alloc; "{j}>{i}")?;
        self.bind(back.as_str(), second)
    }

    // Binds the names of the first pairs of one node with so many others, from one on.
    fn name_pairs(&mut self, pair: u64, i: u8, j: u8, left: u8) -> Result<(), AllocError>
        requires nodes { j + left ≤ 8 }
        requires pairs { pair + left ≤ 100 }
        ensures { OnOk result (self.new ≡ bind_pairs self.old pair (pairs_from i j left)) }
    {
        if left == 0 {
            return Ok(());
        }
        self.name_pair(pair, i, j)?;
        self.name_pairs(pair + 1, i, j + 1, left - 1)
    }

    // Binds the names of the first pairs among so many nodes, from one on.
    fn name_first_pairs(&mut self, pair: u64, i: u8, left: u8) -> Result<(), AllocError>
        requires nodes { i + left ≤ 8 }
        requires pairs { pair + 8 * left ≤ 100 }
        ensures { OnOk result (self.new ≡ bind_pairs self.old pair (first_pairs_from i left)) }
    {
        if left == 0 {
            return Ok(());
        }
        let others = left - 1;
        self.name_pairs(pair, i, i + 1, others)?;
        self.name_first_pairs(pair + u64::from(others), i + 1, others)
    }
}
