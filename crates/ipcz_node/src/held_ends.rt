//! The ends that a node's callers hold.
ghost use Rattle.std.specs.Prelude.{◌≡◌, ◌<◌, ◌≤◌, ◌+◌, length, is_some, OnOk, IsOk};
ghost use Rattle.std.specs.FinSet as sets;
ghost use Rattle.ipcz_node.specs.Node.{with_ends, without_ends};

use crate::sorted_set::SortedSet;
use ipcz_base::End;
use std::alloc::{AllocError, Global};
use std::marker::Model;

/// The ends that callers of a node hold.
#[derive(Drop)]
pub struct HeldEnds {
    ends: SortedSet<End>,
}

impl Model for HeldEnds {
    ghost use Rattle.std.specs.FinSet as sets;
    ghost use Rattle.std.specs.FinMap.{code};
    ghost use Rattle.std.specs.Coded.{codes};
    ghost use Rattle.ipcz_node.specs.RoomyNodes.{RoomyEnds};

    ghost Value = { RoomyEnds };

    ghost coded = { Prim.hlevel (codes, code) };

    ghost view = { λ a. record { ends = sets.from_list a.ends.members; room = a.ends.room } };
}

impl HeldEnds {
    /// No ends.
    pub fn new(alloc: Global) -> Self
        ensures { result.ends ≡ sets.empty }
    {
        HeldEnds {
            ends: SortedSet::new(alloc),
        }
    }

    /// How many ends more there is room for.
    pub fn room(&self) -> usize
        ensures { result ≡ self.now.room }
    {
        self.ends.room()
    }

    /// Makes room for so many ends more.
    pub fn reserve(&mut self, more: usize) -> Result<(), AllocError>
        ensures ok { OnOk result (more ≤ self.new.room) }
        ensures ends { self.new.ends ≡ self.old.ends }
        ensures room { self.old.room ≤ self.new.room }
        ensures succeeds { more ≤ self.old.room → IsOk result }
    {
        self.ends.reserve(more)
    }

    /// Whether callers hold the end.
    pub fn has(&self, end: End) -> bool
        ensures { result ≡ sets.contains self.now.ends end }
    {
        self.ends.has(&end)
    }

    /// Where the end stands among those that callers hold, if they hold it.
    #[inline(always)]
    pub fn place(&self, end: End) -> Option<usize>
        ensures { is_some result ≡ sets.contains self.now.ends end }
    {
        self.ends.place(&end)
    }

    /// Callers hold the end from here on.
    pub fn insert(&mut self, end: End)
        requires { 0 < self.old.room }
        ensures ends { self.new.ends ≡ sets.insert self.old.ends end }
        ensures room { self.old.room ≤ self.new.room + 1 }
    {
        self.ends.insert(end);
    }

    /// Callers hold the end no more. One that they didn't hold is no fault.
    pub fn remove(&mut self, end: End)
        ensures ends { self.new.ends ≡ sets.remove self.old.ends end }
        ensures room { self.old.room ≤ self.new.room }
    {
        self.ends.remove(&end);
    }

    /// Callers hold these ends from here on.
    pub fn insert_all(&mut self, ends: &[End])
        requires { length ends.now ≤ self.old.room }
        ensures ends { self.new.ends ≡ with_ends self.old.ends ends.now }
        ensures room { self.old.room ≤ self.new.room + length ends.now }
    {
        for end in ends {
            self.insert(*end);
        }
    }

    /// Callers hold these ends no more.
    pub fn remove_all(&mut self, ends: &[End])
        ensures ends { self.new.ends ≡ without_ends self.old.ends ends.now }
        ensures room { self.old.room ≤ self.new.room }
    {
        for end in ends {
            self.remove(*end);
        }
    }
}
