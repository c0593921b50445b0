//! Which names a script has opened.
ghost use Rattle.std.specs.Prelude.{◌≡◌, ◌||◌, List, ℕ, OnOk};
ghost use Rattle.std.specs.FinSet as finite;
ghost use Rattle.ipcz_script.specs.ScriptNames.{opens};

use crate::command::Command;
use std::alloc::{AllocError, Global};
use std::collections::BTreeSet;
use std::marker::Model;

/// The names that the commands of a script have opened so far: a set, in which a name is found in logarithmic time.
#[derive(Drop)]
pub struct OpenedNames {
    alloc: Global,
    names: BTreeSet<String>,
}

impl Model for OpenedNames {
    ghost use Rattle.std.specs.Prelude.{map, string_bytes};
    ghost use Rattle.std.specs.Ordering.{nat_cmp};
    ghost use Rattle.std.specs.Cmp.Lexicographic.{slice_cmp};
    ghost use Rattle.std.specs.Coded.{coded_list, coded_ℕ};
    ghost use Rattle.std.specs.FinSet as finite;

    ghost Value = { finite.FinSet (slice_cmp nat_cmp) };

    ghost coded = { finite.code (coded_list coded_ℕ) };

    ghost view = { λ a. finite.from_list (map string_bytes a.names.keys) };
}

impl OpenedNames {
    /// No name is opened yet.
    pub fn new(alloc: Global) -> Self
        ensures none { result ≡ finite.empty }
    {
        OpenedNames {
            alloc,
            names: BTreeSet::new(alloc),
        }
    }

    /// Whether the name was opened.
    pub fn has(&self, name: &str) -> bool
        ensures member { result ≡ finite.contains self.now name.now }
    {
        self.names.contains(name)
    }

    fn insert(&mut self, name: &str) -> Result<(), AllocError>
        ensures ok { OnOk result (self.new ≡ finite.insert self.old name.now) }
    {
        let name = String::from_str(self.alloc, name)?;
        self.names.insert(name)?;
        Ok(())
    }

    /// Takes in the names that one more command opens, if it is an open. After an `Err` the set may lack one of them.
    pub fn note(&mut self, command: &Command) -> Result<(), AllocError>
        ensures ok { OnOk result ((name : List ℕ) →
            finite.contains self.new name ≡ (finite.contains self.old name || opens name command.now)) }
    {
        if let Command::Open { first, second, .. } = command {
            self.insert(first.as_str())?;
            self.insert(second.as_str())?;
        }
        Ok(())
    }
}
