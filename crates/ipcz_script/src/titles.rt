//! Names by end.
ghost use Rattle.std.specs.Prelude.{◌≡◌, OnOk, OnErr, option_map};
ghost use Rattle.std.specs.FinMap as finite;

use crate::text::Text;
use ipcz_base::End;
use std::alloc::{AllocError, Global};
use std::collections::BTreeMap;
use std::marker::Model;

/// Which name each end of a script has (docs/SCRIPTS.md, "The script").
///
/// Contracts see a finite map from ends to the names' bytes. A name is found in logarithmic time.
#[derive(Drop)]
pub struct Titles {
    alloc: Global,
    names: BTreeMap<End, Text>,
}

impl Model for Titles {
    ghost use Rattle.std.specs.FinMap.{code};
    ghost use Rattle.std.specs.Coded.{codes};
    ghost use Rattle.ipcz_script.specs.Bindings as bindings;

    ghost Value = { bindings.Titles };

    ghost coded = { Prim.hlevel (codes, code) };

    ghost view = { λ a. bindings.titles_of a.names.entries };
}

impl Titles {
    /// No end has a name.
    pub fn new(alloc: Global) -> Self
        ensures none { result ≡ finite.empty }
    {
        Titles {
            alloc,
            names: BTreeMap::new(alloc),
        }
    }

    /// Gives the end this name, also if it had another one. No other end is touched.
    pub fn bind(&mut self, end: End, name: &str) -> Result<(), AllocError>
        ensures ok { OnOk result (self.new ≡ finite.insert self.old end name.now) }
        ensures err { OnErr result (self.new ≡ self.old) }
    {
        let name = Text::copy_of(self.alloc, name)?;
        self.names.insert(end, name)?;
        Ok(())
    }

    /// The name that the end has, or none.
    pub fn name_of(&self, end: End) -> Option<&str>
        ensures name { option_map (λ name. name.now) result ≡ finite.get self.now end }
    {
        match self.names.get(&end) {
            Some(name) => Some(name.as_str()),
            None => None,
        }
    }
}
