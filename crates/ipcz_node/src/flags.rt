//! The serials of the routers that are flagged.

ghost use Rattle.std.specs.Prelude.{ℕ, ◌≡◌, ◌+◌, ◌<◌, ◌≤◌, ◌||◌, ◌&&◌, ◌==◌, not, true, [], OnOk, IsOk, IfSome, IfNone};
ghost use Rattle.std.specs.Ordering.{nat_cmp};
ghost use Rattle.ipcz_node.specs.Indexes.{IsLeast};
ghost use Rattle.ipcz_node.specs.SortedSets.{has};

use crate::serial_ring::SerialRing;
use std::alloc::{AllocError, Global};
use std::marker::Model;

/// A set of serials, of which the lowest stands apart from the others: it is asked for before each act, and mostly it is the only one. An
/// insert into room made before takes no memory.
#[derive(Drop)]
pub struct Flags {
    lowest: Option<u64>,
    others: SerialRing,
}

impl Model for Flags {
    ghost use Rattle.std.specs.Prelude.{ℕ, ◌++◌, ◌+◌, option_to_list};
    ghost use Rattle.std.specs.Coded.{coded_ℕ};
    ghost use Rattle.ipcz_node.specs.Indexes.{IsApart, lowest_room};
    ghost use Rattle.ipcz_node.specs.SortedSets.{RoomySet, roomy_code};

    ghost Value = { RoomySet ℕ };

    ghost coded = { roomy_code coded_ℕ };

    ghost view = { λ a. record {
      members = option_to_list a.lowest ++ a.others.members;
      room = lowest_room a.lowest + a.others.room;
    } };

    ghost invariant = { λ a. IsApart a.lowest a.others.members };
}

impl Flags {
    /// No serials.
    pub fn new(alloc: Global) -> Self
        ensures { result.members ≡ [] }
    {
        Flags {
            lowest: None,
            others: SerialRing::new(alloc),
        }
    }

    /// Makes room for so many more.
    #[tactic(auto, unfolding(crate::specs::Indexes::lowest_room))]
    pub fn reserve(&mut self, more: usize) -> Result<(), AllocError>
        ensures ok { OnOk result (more ≤ self.new.room) }
        ensures members { self.new.members ≡ self.old.members }
        ensures room { self.old.room ≤ self.new.room }
        ensures succeeds { more ≤ self.old.room → IsOk result }
    {
        match self.lowest {
            Some(_) => self.others.reserve(more),
            None => self.others.reserve(more.saturating_sub(1)),
        }
    }

    /// Adds a serial. One that is there stays.
    #[inline(always)]
    #[tactic(auto, unfolding(crate::specs::Indexes::lowest_room))]
    pub fn insert(&mut self, serial: u64)
        requires { 0 < self.old.room }
        ensures members { (s : ℕ) → has nat_cmp self.new.members s ≡ (serial == s || has nat_cmp self.old.members s) }
        ensures room { self.old.room ≤ self.new.room + 1 }
    {
        match self.lowest {
            None => self.lowest = Some(serial),
            Some(lowest) => {
                if lowest < serial {
                    self.others.insert(serial);
                } else if serial < lowest {
                    self.others.insert(lowest);
                    self.lowest = Some(serial);
                }
            }
        }
    }

    /// Takes a serial away that is there.
    #[inline(always)]
    #[tactic(auto, unfolding(crate::specs::Indexes::lowest_room))]
    pub fn remove(&mut self, serial: u64)
        requires { has nat_cmp self.old.members serial ≡ true }
        ensures members { (s : ℕ) → has nat_cmp self.new.members s ≡ (not (serial == s) && has nat_cmp self.old.members s) }
        ensures room { self.old.room + 1 ≤ self.new.room }
    {
        let Some(lowest) = self.lowest else {
            unreachable!()
        };
        if lowest == serial {
            self.lowest = self.others.take_first();
        } else {
            self.others.remove(serial);
        }
    }

    /// The lowest serial.
    #[inline(always)]
    pub fn first(&self) -> Option<u64>
        ensures { IsLeast (has nat_cmp self.now.members) result }
    {
        self.lowest
    }

    /// The only serial, if there is no other.
    #[inline(always)]
    pub fn only(&self) -> Option<u64>
        ensures member { IfSome result (λ serial. has nat_cmp self.now.members serial ≡ true) }
        ensures only { IfSome result (λ serial. (s : ℕ) → has nat_cmp self.now.members s ≡ true → s ≡ serial) }
        ensures none { IfNone result
            ((s : ℕ) → has nat_cmp self.now.members s ≡ true → ((q : ℕ) → has nat_cmp self.now.members q ≡ true → q ≡ s) → ⊥) }
    {
        match self.others.first() {
            Some(_) => None,
            None => self.lowest,
        }
    }
}
