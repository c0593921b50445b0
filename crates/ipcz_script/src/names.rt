//! Ends by name.
ghost use Rattle.std.specs.Prelude.{◌≡◌, OnOk, OnErr};
ghost use Rattle.std.specs.FinMap as finite;

use ipcz_base::End;
use std::alloc::{AllocError, Global};
use std::collections::BTreeMap;
use std::marker::Model;

/// Which end each name of a script is bound to (docs/SCRIPTS.md, "The script").
///
/// Contracts see a finite map from the names' bytes to ends. A name is found in logarithmic time.
#[derive(Drop)]
pub struct Names {
    alloc: Global,
    ends: BTreeMap<String, End>,
}

impl Model for Names {
    ghost use Rattle.std.specs.FinMap as finite;
    ghost use Rattle.std.specs.Coded.{coded_list, coded_ℕ};
    ghost use Rattle.ipcz_base.specs.contracts.end.End as e;
    ghost use Rattle.ipcz_script.specs.Bindings.{Bindings, bindings_of};

    ghost Value = { Bindings };

    ghost coded = { finite.code (coded_list coded_ℕ) e.the_row.coded };

    ghost view = { λ a. bindings_of a.ends.entries };
}

impl Names {
    /// No name is bound.
    pub fn new(alloc: Global) -> Self
        ensures none { result ≡ finite.empty }
    {
        Names {
            alloc,
            ends: BTreeMap::new(alloc),
        }
    }

    /// Binds the name to the end, also if it was bound to another one. No other name is touched.
    pub fn bind(&mut self, name: &str, end: End) -> Result<(), AllocError>
        ensures ok { OnOk result (self.new ≡ finite.insert self.old name.now end) }
        ensures err { OnErr result (self.new ≡ self.old) }
    {
        let name = String::from_str(self.alloc, name)?;
        self.ends.insert(name, end)?;
        Ok(())
    }

    /// The end that the name is bound to, or none.
    pub fn end_of(&self, name: &str) -> Option<End>
        ensures end { result ≡ finite.get self.now name.now }
    {
        self.ends.get(name).copied()
    }
}
