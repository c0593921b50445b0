//! Serials in a ring, lowest first.

ghost use Rattle.std.specs.Prelude.{ℕ, ◌≡◌, ◌+◌, ◌<◌, ◌≤◌, ◌||◌, ◌&&◌, ◌==◌, not, true, [], length, IsTrue, OnOk, IfOk, IfErr, IfSome, IfNone, IsOk};
ghost use Rattle.std.specs.Ordering.{nat_cmp};
ghost use Rattle.std.specs.Prelude.{nat_le, false};
ghost use Rattle.std.specs.List.{AllWithin, HoldsAt};
ghost use Rattle.std.specs.List.Sorted.{IsStrictlySortedBy};
ghost use Rattle.std.specs.Ordering.{is_lt};
ghost use Rattle.std.specs.declared.cmp.Ordering.TheVariants.{Less};
ghost use Rattle.ipcz_node.specs.Indexes.{IsLeast};
ghost use Rattle.ipcz_node.specs.SortedSets.{has, IsPlaceOf, IsGapFor};

use std::alloc::{AllocError, Global};
use std::collections::VecDeque;
use std::marker::Model;

/// A set of serials kept as a sorted ring. The lowest leaves without a move of the others, and a serial that comes between others moves the
/// shorter side of the ring: a node flags routers behind or just before those that are flagged, and acts on the lowest. An insert into room
/// made before takes no memory.
#[derive(Drop)]
pub struct SerialRing {
    serials: VecDeque<u64>,
}

impl Model for SerialRing {
    ghost use Rattle.std.specs.Prelude.{ℕ};
    ghost use Rattle.std.specs.Coded.{coded_ℕ};
    ghost use Rattle.std.specs.Ordering.{nat_cmp};
    ghost use Rattle.std.specs.List.Sorted.{IsStrictlySortedBy};
    ghost use Rattle.ipcz_node.specs.SortedSets.{RoomySet, roomy_code, room_in_ring};

    ghost Value = { RoomySet ℕ };

    ghost coded = { roomy_code coded_ℕ };

    ghost view = { λ a. record { members = a.serials.items; room = room_in_ring a.serials } };

    ghost invariant = { λ a. IsStrictlySortedBy nat_cmp a.serials.items };
}

impl SerialRing {
    /// No serials.
    pub fn new(alloc: Global) -> Self
        ensures { result.members ≡ [] }
    {
        SerialRing {
            serials: VecDeque::new(alloc),
        }
    }

    /// Makes room for so many more.
    pub fn reserve(&mut self, more: usize) -> Result<(), AllocError>
        ensures ok { OnOk result (more ≤ self.new.room) }
        ensures members { self.new.members ≡ self.old.members }
        ensures room { self.old.room ≤ self.new.room }
        ensures succeeds { more ≤ self.old.room → IsOk result }
    {
        self.serials.reserve(more)
    }

    /// Adds a serial. One that is there stays.
    #[inline(always)]
    pub fn insert(&mut self, serial: u64)
        requires { 0 < self.old.room }
        ensures members { (s : ℕ) → has nat_cmp self.new.members s ≡ (serial == s || has nat_cmp self.old.members s) }
        ensures room { self.old.room ≤ self.new.room + 1 }
    {
        if self.is_above_all(serial) {
            self.serials.push_back_reserved(serial);
        } else {
            self.insert_by_search(serial);
        }
    }

    // The same for each serial: one that is below all others goes in front, without a search.
    #[inline(never)]
    fn insert_by_search(&mut self, serial: u64)
        requires { 0 < self.old.room }
        ensures members { (s : ℕ) → has nat_cmp self.new.members s ≡ (serial == s || has nat_cmp self.old.members s) }
        ensures room { self.old.room ≤ self.new.room + 1 }
    {
        if self.is_below_all(serial) {
            self.serials.push_front_reserved(serial);
        } else if let Err(at) = self.place_of(serial) {
            let Ok(()) = self.serials.insert(at, serial) else {
                unreachable!()
            };
        }
    }

    /// Takes the lowest serial out, if there is one.
    #[inline(always)]
    pub fn take_first(&mut self) -> Option<u64>
        ensures member { IfSome result (λ serial. has nat_cmp self.old.members serial ≡ true) }
        ensures least { IfSome result (λ serial. (s : ℕ) → has nat_cmp self.old.members s ≡ true → serial ≤ s) }
        ensures members { IfSome result
            (λ serial. (s : ℕ) → has nat_cmp self.new.members s ≡ (not (serial == s) && has nat_cmp self.old.members s)) }
        ensures room { IfSome result (λ _. self.old.room + 1 ≤ self.new.room) }
        ensures none { IfNone result ((self.old.members ≡ []) × (self.new ≡ self.old)) }
    {
        let Some(serial) = self.first() else {
            return None;
        };
        self.remove(serial);
        Some(serial)
    }

    /// Takes a serial away that is there.
    #[inline(never)]
    pub fn remove(&mut self, serial: u64)
        requires { has nat_cmp self.old.members serial ≡ true }
        ensures members { (s : ℕ) → has nat_cmp self.new.members s ≡ (not (serial == s) && has nat_cmp self.old.members s) }
        ensures room { self.old.room + 1 ≤ self.new.room }
    {
        if self.is_first(serial) {
            self.serials.pop_front();
        } else if let Ok(at) = self.place_of(serial) {
            self.serials.remove(at);
        }
    }

    /// The lowest serial.
    pub fn first(&self) -> Option<u64>
        ensures member { IfSome result (λ serial. has nat_cmp self.now.members serial ≡ true) }
        ensures least { IfSome result (λ serial. (s : ℕ) → has nat_cmp self.now.members s ≡ true → serial ≤ s) }
        ensures none { IfNone result (self.now.members ≡ []) }
    {
        match self.serials.front() {
            Some(serial) => Some(*serial),
            None => None,
        }
    }

    /// The lowest serial from a number on.
    pub fn first_from(&self, from: u64) -> Option<u64>
        ensures { IsLeast (λ s. nat_le from s && has nat_cmp self.now.members s) result }
    {
        match self.serials.get(self.place_from(from)) {
            Some(lowest) => Some(*lowest),
            None => None,
        }
    }

    // Where the lowest serial from a number on stands, if there is one; else how many serials there are.
    fn place_from(&self, from: u64) -> usize
        ensures before { AllWithin (λ s. nat_cmp s from ≡ Less) self.now.members 0 result }
        ensures here { result < length self.now.members → HoldsAt (λ s. is_lt (nat_cmp s from) ≡ false) self.now.members result }
    {
        let (Ok(place) | Err(place)) = self.place_of(from);
        place
    }

    // Whether the serial is greater than each that is there.
    fn is_above_all(&self, serial: u64) -> bool
        ensures { IsTrue result → IsGapFor nat_cmp self.now.members serial (length self.now.members) }
    {
        match self.serials.back() {
            Some(last) => *last < serial,
            None => true,
        }
    }

    // Whether the serial is less than each that is there, and any is.
    fn is_below_all(&self, serial: u64) -> bool
        ensures { IsTrue result → IsGapFor nat_cmp self.now.members serial 0 }
    {
        match self.serials.front() {
            Some(first) => serial < *first,
            None => false,
        }
    }

    // Whether the serial is the lowest.
    fn is_first(&self, serial: u64) -> bool
        ensures { IsTrue result → IsPlaceOf nat_cmp self.now.members serial 0 }
    {
        match self.serials.front() {
            Some(first) => *first == serial,
            None => false,
        }
    }

    // Where the serial is, or where it would go.
    fn place_of(&self, serial: u64) -> Result<usize, usize>
        ensures sorted { IsStrictlySortedBy nat_cmp self.now.members }
        ensures found { IfOk result (IsPlaceOf nat_cmp self.now.members serial) }
        ensures absent { IfErr result (IsGapFor nat_cmp self.now.members serial) }
    {
        self.serials.binary_search(&serial)
    }
}
