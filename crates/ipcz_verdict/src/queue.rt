//! The rest of a log.
ghost use Rattle.std.specs.Prelude.{◌≡◌, ◌∷◌, ◌++◌, [], slice_get, OnOk, IfSome, IfNone};
ghost use Rattle.std.specs.Option.{option_copied};

use crate::entry::Entry;
use std::alloc::{AllocError, Global};
use std::collections::VecDeque;
use std::marker::Model;

/// The lines of one log that aren't taken yet, in their order.
#[derive(Drop)]
pub(crate) struct Queue {
    entries: VecDeque<Entry>,
}

impl Model for Queue {
    ghost use Rattle.std.specs.Prelude.{List};
    ghost use Rattle.ipcz_verdict.specs.declared.entry.Entry.{Entry};

    ghost Value = { List Entry };

    ghost view = { λ a. a.entries.items };
}

impl Queue {
    /// No line.
    pub(crate) fn new(alloc: Global) -> Self
        ensures { result ≡ [] }
    {
        Queue {
            entries: VecDeque::new(alloc),
        }
    }

    /// The first line.
    pub(crate) fn first(&self) -> Option<&Entry>
        ensures { option_copied result ≡ slice_get self.now 0 }
    {
        self.entries.get(0)
    }

    /// One line more, behind all others.
    pub(crate) fn push(&mut self, entry: Entry) -> Result<(), AllocError>
        ensures { OnOk result (self.new ≡ self.old ++ entry ∷ []) }
    {
        self.entries.push_back(entry)?;
        Ok(())
    }

    /// One line more, before all others.
    pub(crate) fn put_back(&mut self, entry: Entry) -> Result<(), AllocError>
        ensures { OnOk result (self.new ≡ entry ∷ self.old) }
    {
        self.entries.push_front(entry)?;
        Ok(())
    }

    /// Takes the first line.
    pub(crate) fn pop(&mut self) -> Option<Entry>
        ensures some { IfSome result (λ entry. self.old ≡ entry ∷ self.new) }
        ensures none { IfNone result (self.old ≡ []) }
    {
        self.entries.pop_front()
    }
}
