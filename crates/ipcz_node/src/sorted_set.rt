//! A set in a sorted vector.
ghost use Rattle.std.specs.Prelude.{◌≡◌, ◌+◌, ◌-◌, ◌<◌, ◌≤◌, ◌||◌, ◌&&◌, not, true, false, [], if◌then◌else◌, length, get_or, IsTrue, OnOk, IfOk, IfErr, IfSome, IsOk};
ghost use Rattle.std.specs.Prelude.{is_some, IfNone};
ghost use Rattle.std.specs.Ordering.{is_eq, is_lt};
ghost use Rattle.std.specs.List.Sorted.{IsStrictlySortedBy};
ghost use Rattle.std.specs.List.{AllWithin, HoldsAt};
ghost use Rattle.std.specs.declared.cmp.Ordering.TheVariants.{Less};
ghost use Rattle.ipcz_node.specs.SortedSets.{has, IsPlaceOf, IsGapFor};

use crate::numbered::{Numbered, even_guess};
use std::alloc::{AllocError, Global};
use std::marker::Model;

/// A set kept as a sorted vector: a search halves it, and an insert into room made before takes no memory.
#[derive(Drop)]
pub struct SortedSet<T: Ord> {
    items: Vec<T>,
}

impl<T: Ord> Model for SortedSet<T> {
    ghost use Rattle.std.specs.List.Sorted.{IsStrictlySortedBy};
    ghost use Rattle.ipcz_node.specs.SortedSets.{RoomySet, roomy_code, room_of};

    ghost Value = { RoomySet T };

    ghost coded = { roomy_code T.code };

    ghost view = { λ a. record { members = a.items.items; room = room_of a.items } };

    ghost invariant = { λ a. IsStrictlySortedBy T.cmp a.items.items };
}

impl<T: Ord + Copy + Numbered + Drop> SortedSet<T> {
    /// An empty set.
    pub fn new(alloc: Global) -> Self
        ensures { result.members ≡ [] }
    {
        SortedSet {
            items: Vec::new(alloc),
        }
    }

    /// How many more there is room for.
    pub fn room(&self) -> usize
        ensures { result ≡ self.now.room }
    {
        self.items.capacity() - self.items.len()
    }

    /// Makes room for so many more.
    pub fn reserve(&mut self, more: usize) -> Result<(), AllocError>
        ensures ok { OnOk result (more ≤ self.new.room) }
        ensures members { self.new.members ≡ self.old.members }
        ensures room { self.old.room ≤ self.new.room }
        ensures succeeds { more ≤ self.old.room → IsOk result }
    {
        self.items.reserve(more)
    }

    /// Adds a value. One that is there stays.
    #[inline(always)]
    pub fn insert(&mut self, value: T)
        requires { 0 < self.old.room }
        ensures members { (x : T) → has T.cmp self.new.members x ≡ (is_eq (T.cmp value x) || has T.cmp self.old.members x) }
        ensures room { self.new.room ≡ (if has T.cmp self.old.members value then self.old.room else self.old.room - 1) }
    {
        if self.is_above_all(&value) {
            self.items.push_reserved(value);
        } else {
            self.insert_by_search(value);
        }
    }

    // The same for each value.
    #[inline(never)]
    fn insert_by_search(&mut self, value: T)
        requires { 0 < self.old.room }
        ensures members { (x : T) → has T.cmp self.new.members x ≡ (is_eq (T.cmp value x) || has T.cmp self.old.members x) }
        ensures room { self.new.room ≡ (if has T.cmp self.old.members value then self.old.room else self.old.room - 1) }
    {
        if let Err(at) = self.place_of(&value) {
            let Ok(()) = self.items.insert(at, value) else {
                unreachable!()
            };
        }
    }

    /// Takes a value away. One that isn't there is no fault.
    pub fn remove(&mut self, value: &T)
        ensures members { (x : T) → has T.cmp self.new.members x ≡ (not (is_eq (T.cmp value.now x)) && has T.cmp self.old.members x) }
        ensures room { self.new.room ≡ (if has T.cmp self.old.members value.now then self.old.room + 1 else self.old.room) }
    {
        if let Ok(at) = self.place_of(value) {
            self.items.remove(at);
        }
    }

    /// How many members there are.
    pub fn len(&self) -> usize
        ensures { result ≡ length self.now.members }
    {
        self.items.len()
    }

    /// The member at a place, in their order.
    #[inline(always)]
    pub fn member(&self, place: usize) -> &T
        requires { place < length self.now.members }
        ensures here { result.now ≡ get_or self.now.members place result.now }
        ensures sorted { IsStrictlySortedBy T.cmp self.now.members }
    {
        &self.items[place]
    }

    /// Where a value is, if it is there.
    #[inline(always)]
    pub fn place(&self, value: &T) -> Option<usize>
        ensures there { is_some result ≡ has T.cmp self.now.members value.now }
        ensures found { IfSome result (IsPlaceOf T.cmp self.now.members value.now) }
    {
        match self.place_of(value) {
            Ok(place) => Some(place),
            Err(_) => None,
        }
    }

    /// Whether a value is there.
    pub fn has(&self, value: &T) -> bool
        ensures { result ≡ has T.cmp self.now.members value.now }
    {
        match self.place_of(value) {
            Ok(_) => true,
            Err(_) => false,
        }
    }

    /// The least member that is no less than the value.
    #[inline(always)]
    pub fn first_from(&self, value: &T) -> Option<&T>
        ensures member { IfSome result (λ x. (has T.cmp self.now.members x.now ≡ true) × (is_lt (T.cmp x.now value.now) ≡ false)) }
        ensures least { IfSome result (λ x. (y : T) → has T.cmp self.now.members y ≡ true → is_lt (T.cmp y value.now) ≡ false →
            is_lt (T.cmp y x.now) ≡ false) }
        ensures none { IfNone result ((y : T) → has T.cmp self.now.members y ≡ true → is_lt (T.cmp y value.now) ≡ true) }
    {
        self.items.get(self.place_from(value))
    }

    // Whether the value is greater than each member.
    fn is_above_all(&self, value: &T) -> bool
        ensures { IsTrue result → IsGapFor T.cmp self.now.members value.now (length self.now.members) }
    {
        match self.items.last() {
            Some(last) => last.cmp(value).is_lt(),
            None => true,
        }
    }

    // Where the value is, or where it would go.
    #[inline(always)]
    fn place_of(&self, value: &T) -> Result<usize, usize>
        ensures found { IfOk result (IsPlaceOf T.cmp self.now.members value.now) }
        ensures absent { IfErr result (IsGapFor T.cmp self.now.members value.now) }
    {
        match self.likely_place(value) {
            Some(place) => Ok(place),
            None => {
                // A copy, so that a value that is found at once needn't lie in memory.
                let sought = *value;
                self.searched_place(&sought)
            }
        }
    }

    // The same, if the numbers don't rise by one from it to the last member: by halving, if its even place isn't its own.
    #[cold]
    #[inline(never)]
    fn searched_place(&self, value: &T) -> Result<usize, usize>
        ensures sorted { IsStrictlySortedBy T.cmp self.now.members }
        ensures found { IfOk result (IsPlaceOf T.cmp self.now.members value.now) }
        ensures absent { IfErr result (IsGapFor T.cmp self.now.members value.now) }
    {
        if let Some(place) = self.even_place(value) {
            return Ok(place);
        }
        self.halved_place(value)
    }

    // The same by halving.
    fn halved_place(&self, value: &T) -> Result<usize, usize>
        ensures sorted { IsStrictlySortedBy T.cmp self.now.members }
        ensures found { IfOk result (IsPlaceOf T.cmp self.now.members value.now) }
        ensures absent { IfErr result (IsGapFor T.cmp self.now.members value.now) }
    {
        self.items.binary_search(value)
    }

    // Where the value is, if the numbers rise evenly from the first member to the last.
    fn even_place(&self, value: &T) -> Option<usize>
        ensures sorted { IsStrictlySortedBy T.cmp self.now.members }
        ensures found { IfSome result (IsPlaceOf T.cmp self.now.members value.now) }
    {
        let items = self.items.as_slice();
        let place = self.even_guess(value)?;
        if items[place].cmp(value).is_eq() {
            Some(place)
        } else {
            None
        }
    }

    /// A place, by how far the value's number is from the first member's to the last's.
    pub fn even_guess(&self, value: &T) -> Option<usize>
        ensures { IfSome result (λ i. i < length self.now.members) }
    {
        let first = self.items.first()?.number();
        let last = self.items.last()?.number();
        let place = even_guess(first, last, self.items.len(), value.number())?;
        if place < self.items.len() {
            Some(place)
        } else {
            None
        }
    }

    // Where the value is, if the numbers rise by one from it to the last member.
    #[inline(always)]
    fn likely_place(&self, value: &T) -> Option<usize>
        ensures { IfSome result (IsPlaceOf T.cmp self.now.members value.now) }
    {
        let place = self.guess(value)?;
        if self.items[place].cmp(value).is_eq() {
            Some(place)
        } else {
            None
        }
    }

    // Where the least member is that is no less than the value, if there is one; else how many members there are.
    #[inline(always)]
    fn place_from(&self, value: &T) -> usize
        ensures before { AllWithin (λ y. T.cmp y value.now ≡ Less) self.now.members 0 result }
        ensures here { result < length self.now.members → HoldsAt (λ y. is_lt (T.cmp y value.now) ≡ false) self.now.members result }
    {
        match self.likely_place_from(value) {
            Some(place) => place,
            None => {
                // A copy, so that a value that is found at once needn't lie in memory.
                let sought = *value;
                let (Ok(place) | Err(place)) = self.searched_place(&sought);
                place
            }
        }
    }

    // The same, if the numbers rise by one from there to the last member.
    #[inline(always)]
    fn likely_place_from(&self, value: &T) -> Option<usize>
        ensures before { IfSome result (AllWithin (λ y. T.cmp y value.now ≡ Less) self.now.members 0) }
        ensures here { IfSome result (HoldsAt (λ y. is_lt (T.cmp y value.now) ≡ false) self.now.members) }
    {
        let place = self.guess(value)?;
        if self.items[place].cmp(value).is_lt() {
            return None;
        }
        if place > 0 && !self.items[place - 1].cmp(value).is_lt() {
            return None;
        }
        Some(place)
    }

    /// A place, by how far the value's number is from the last member's.
    #[inline(always)]
    pub fn guess(&self, value: &T) -> Option<usize>
        ensures { IfSome result (λ i. i < length self.now.members) }
    {
        let last = self.items.last()?;
        let back = last.number().wrapping_sub(value.number()) as usize;
        if back < self.items.len() {
            Some(self.items.len() - 1 - back)
        } else {
            None
        }
    }
}
