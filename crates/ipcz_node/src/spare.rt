//! Lists with room that is kept for later.
ghost use Rattle.std.specs.Prelude.{◌≡◌, ◌≤◌, [], vec_capacity, OnOk, IsOk};

use std::alloc::{AllocError, Global};
use std::marker::Model;

/// An empty list with room, kept until something that takes no memory needs it.
#[derive(Drop)]
pub struct Spare<T> {
    items: Vec<T>,
}

impl<T> Model for Spare<T> {
    ghost use Rattle.std.specs.Prelude.{ℕ, ◌≡◌, [], vec_capacity};
    ghost use Rattle.std.specs.Coded.{coded_ℕ};

    ghost Value = { ℕ };

    ghost coded = { coded_ℕ };

    ghost view = { λ a. vec_capacity a.items };

    ghost invariant = { λ a. a.items.items ≡ [] };
}

impl<T> Spare<T> {
    /// No room.
    pub fn new(alloc: Global) -> Self
        ensures { result ≡ 0 }
    {
        Spare {
            items: Vec::new(alloc),
        }
    }

    /// Makes room for so many.
    pub fn reserve(&mut self, count: usize) -> Result<(), AllocError>
        ensures ok { OnOk result (count ≤ self.new) }
        ensures succeeds { count ≤ self.old → IsOk result }
        ensures kept { self.old ≤ self.new }
    {
        self.items.reserve(count)
    }

    /// Takes the list; there is no room then.
    pub fn take(&mut self, alloc: Global) -> Vec<T>
        ensures items { result.items ≡ [] }
        ensures capacity { vec_capacity result ≡ self.old }
    {
        std::mem::replace(&mut self.items, Vec::new(alloc))
    }
}
