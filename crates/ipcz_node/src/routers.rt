//! The routers of a node by serial.
ghost use Rattle.std.specs.Prelude.{◌≡◌, ◌+◌, ◌<◌, ◌≤◌, ◌-◌, ◌^◌, ℕ, Some, None, is_some, true, OnOk, IsOk, IfSome, MatchOption};
ghost use Rattle.std.specs.Prelude.{option_copied, option_map, length};
ghost use Rattle.std.specs.List.{AllWithin};
ghost use Rattle.std.specs.Borrow.{sem};
ghost use Rattle.std.specs.Ordering.{nat_cmp};
ghost use Rattle.std.specs.FinMap.{find, get, remove, empty, len};
ghost use Rattle.ipcz_node.specs.Directories.{passes};
ghost use Rattle.ipcz_node.specs.Finding.{IsNext, is_ready, is_terminal_in};
ghost use Rattle.ipcz_node.specs.Rooms.{RoutersValue, routers_with};
ghost use Rattle.ipcz_node.specs.Serials.{key_at, entries_by, map_by, AreRising};

use crate::held_ends::HeldEnds;
use crate::numbered::even_guess;
use ipcz_base::End;
use ipcz_router::Router;
use std::alloc::{AllocError, Global};
use std::marker::Model;

/// The routers of a node, in the order of their serials (docs/PROTOCOL.md, "Nodes").
#[derive(Drop)]
pub struct Routers {
    entries: Vec<(u64, Router)>,
    next: u64,
}

impl Model for Routers {
    ghost use Rattle.std.specs.Prelude.{◌-◌, vec_len, vec_capacity};
    ghost use Rattle.std.specs.FinMap.{code};
    ghost use Rattle.std.specs.Coded.{codes};
    ghost use Rattle.ipcz_node.specs.Rooms.{RoutersValue};
    ghost use Rattle.ipcz_node.specs.Serials.{map_by, AreRising};

    ghost Value = { RoutersValue };

    ghost coded = { Prim.hlevel (codes, code) };

    ghost view = { λ a. record {
      routers = map_by (λ x. x.router) a.entries.items;
      out_rooms = map_by (λ x. x.out_room) a.entries.items;
      in_rooms = map_by (λ x. x.in_room) a.entries.items;
      next = a.next;
      room = vec_capacity a.entries - vec_len a.entries;
    } };

    ghost invariant = { λ a. AreRising 0 a.next a.entries.items };
}

impl Routers {
    ghost use Rattle.ipcz_node.specs.Lending.{LendsRouter};

    /// No routers, and serials from the first one on.
    pub fn new(alloc: Global, first: u64) -> Self
        ensures routers { result.routers ≡ empty }
        ensures next { result.next ≡ first }
    {
        Routers {
            entries: Vec::new(alloc),
            next: first,
        }
    }

    /// The serial that the next router gets.
    pub fn next_serial(&self) -> u64
        ensures next { result ≡ self.now.next }
        ensures free { get self.now.routers self.now.next ≡ None }
    {
        self.next
    }

    /// The router of a serial, to change.
    #[inline(always)]
    pub fn router_mut(&mut self, serial: u64) -> &mut Router
        requires { is_some (get self.old.routers serial) ≡ true }
        ensures* writes_back { sem 𝓛 (LendsRouter self.entry serial result) }
        ensures value { Some result.now.router ≡ get self.old.routers serial }
        ensures room { Some result.now.out_room ≡ get self.old.out_rooms serial }
        ensures in_room { Some result.now.in_room ≡ get self.old.in_rooms serial }
    {
        let Some(place) = place_of(&self.entries, serial) else {
            unreachable!()
        };
        let entry = &mut self.entries[place];
        &mut entry.1
    }

    /// The router of a serial, to read.
    #[inline(always)]
    pub fn router(&self, serial: u64) -> Option<&Router>
        ensures { option_map (λ r. r.router) (option_copied result) ≡ get self.now.routers serial }
    {
        match place_of(&self.entries, serial) {
            Some(place) => Some(&self.entries[place].1),
            None => None,
        }
    }

    /// The routers with their serials, which rise.
    pub fn entries(&self) -> &[(u64, Router)]
        ensures routers { map_by (λ x. x.router) result.now ≡ self.now.routers }
        ensures rising { AreRising 0 self.now.next result.now }
    {
        self.entries.as_slice()
    }

    /// Makes room for so many more routers.
    pub fn reserve(&mut self, more: usize) -> Result<(), AllocError>
        ensures ok { OnOk result (more ≤ self.new.room) }
        ensures routers { self.new.routers ≡ self.old.routers }
        ensures out_rooms { self.new.out_rooms ≡ self.old.out_rooms }
        ensures in_rooms { self.new.in_rooms ≡ self.old.in_rooms }
        ensures next { self.new.next ≡ self.old.next }
        ensures room { self.old.room ≤ self.new.room }
        ensures succeeds { more ≤ self.old.room → IsOk result }
    {
        self.entries.reserve(more)
    }

    /// Adds a router under the next serial.
    pub fn add(&mut self, router: Router)
        requires room { 0 < self.old.room }
        requires serials { self.old.next < 2 ^ 64 - 1 }
        ensures { self.new ≡ routers_with self.old router }
    {
        self.entries.push_reserved((self.next, router));
        self.next += 1;
    }

    /// Takes the router of a serial out.
    pub fn remove(&mut self, serial: u64) -> Router
        requires { is_some (get self.old.routers serial) ≡ true }
        ensures router { Some result.router ≡ get self.old.routers serial }
        ensures routers { self.new.routers ≡ remove self.old.routers serial }
        ensures next { self.new.next ≡ self.old.next }
        ensures room { self.new.room ≡ self.old.room + 1 }
    {
        let Some(place) = place_of(&self.entries, serial) else {
            unreachable!()
        };
        let (_, router) = self.entries.remove(place);
        router
    }

    /// The first router from a serial on that is the open terminal of one of these ends: its serial and its end.
    pub fn first_held(&self, from: u64, ends: &HeldEnds) -> Option<(u64, End)>
        ensures { IsNext (get self.now.routers) (is_terminal_in ends.now.ends) from result }
    {
        let entries = self.entries.as_slice();
        let place = lower_in(entries, from);
        first_in(&entries[place..], from, ends)
    }

    /// The end of the router of a serial.
    pub fn end_of(&self, serial: u64) -> End
        requires { is_some (get self.now.routers serial) ≡ true }
        ensures end { option_map (λ r. r.end) (get self.now.routers serial) ≡ Some result }
        ensures below { serial < self.now.next }
    {
        let Some(place) = place_of(&self.entries, serial) else {
            unreachable!()
        };
        self.entries[place].1.end()
    }

    /// Whether the router of a serial is ready, if there is one.
    pub fn is_ready(&self, serial: u64) -> bool
        ensures { result ≡ passes is_ready self.now.routers serial }
    {
        match self.router(serial) {
            Some(router) => is_ready(router),
            None => false,
        }
    }

    /// The first dry router from a serial on: its serial and its end.
    pub fn next_dry(&self, from: u64) -> Option<(u64, End)>
        ensures found { IsNext (get self.now.routers) (λ r. r.dry) from result }
        ensures below { IfSome result (λ x. x.0 < self.now.next) }
    {
        let entries = self.entries.as_slice();
        let place = lower_in(entries, from);
        dry_in(&entries[place..], from)
    }

    /// How many routers there are.
    pub fn len(&self) -> usize
        ensures count { result ≡ len self.now.routers }
        ensures small { result < 2 ^ 63 }
    {
        self.entries.as_slice().len()
    }
}

// Where the entry of the serial stands.
#[inline(always)]
fn place_of<T>(entries: &[(u64, T)], serial: u64) -> Option<usize>
    requires { (next : ℕ) × AreRising 0 next entries.now }
    ensures found { MatchOption result (find nat_cmp serial entries.now ≡ None) (λ i. key_at entries.now i ≡ Some serial) }
    ensures within { IfSome result (λ i. i < length entries.now) }
{
    if let Some(place) = likely_place(entries, serial) {
        return Some(place);
    }
    if let Some(place) = place_from_last(entries, serial) {
        return Some(place);
    }
    searched_place(entries, serial)
}

// The same, where neither all that left was in front nor none behind it: by halving, if its even place isn't its own.
#[cold]
#[inline(never)]
fn searched_place<T>(entries: &[(u64, T)], serial: u64) -> Option<usize>
    requires { (next : ℕ) × AreRising 0 next entries.now }
    ensures found { MatchOption result (find nat_cmp serial entries.now ≡ None) (λ i. key_at entries.now i ≡ Some serial) }
    ensures within { IfSome result (λ i. i < length entries.now) }
{
    if let Some(place) = even_place(entries, serial) {
        return Some(place);
    }
    halved_place(entries, serial)
}

// The same by halving.
fn halved_place<T>(entries: &[(u64, T)], serial: u64) -> Option<usize>
    requires { (next : ℕ) × AreRising 0 next entries.now }
    ensures found { MatchOption result (find nat_cmp serial entries.now ≡ None) (λ i. key_at entries.now i ≡ Some serial) }
    ensures within { IfSome result (λ i. i < length entries.now) }
{
    match entries.binary_search_by_key(&serial, |entry| entry.0) {
        Ok(place) => Some(place),
        Err(_) => None,
    }
}

// Where the entry of the serial stands, if nothing before it has left but what was first.
fn likely_place<T>(entries: &[(u64, T)], serial: u64) -> Option<usize>
    ensures found { IfSome result (λ i. key_at entries.now i ≡ Some serial) }
    ensures within { IfSome result (λ i. i < length entries.now) }
{
    let first = entries.first()?.0;
    let place = serial.wrapping_sub(first) as usize;
    if entries.get(place)?.0 == serial {
        Some(place)
    } else {
        None
    }
}

// Where the entry of the serial stands, if none behind it has left.
fn place_from_last<T>(entries: &[(u64, T)], serial: u64) -> Option<usize>
    ensures found { IfSome result (λ i. key_at entries.now i ≡ Some serial) }
    ensures within { IfSome result (λ i. i < length entries.now) }
{
    let last = entries.last()?.0;
    let behind = last.wrapping_sub(serial) as usize;
    let place = entries.len().wrapping_sub(behind).wrapping_sub(1);
    let found = entries.get(place)?.0;
    if found == serial { Some(place) } else { None }
}

// Where the entry of the serial stands, if the serials rise evenly from the first to the last.
fn even_place<T>(entries: &[(u64, T)], serial: u64) -> Option<usize>
    ensures found { IfSome result (λ i. key_at entries.now i ≡ Some serial) }
    ensures within { IfSome result (λ i. i < length entries.now) }
{
    let first = entries.first()?.0;
    let last = entries.last()?.0;
    let place = even_guess(first, last, entries.len(), serial)?;
    let there = entries.get(place)?.0;
    if there == serial { Some(place) } else { None }
}

// How many entries have a lower serial. They stand in front.
fn lower_in<T>(entries: &[(u64, T)], from: u64) -> usize
    requires { (next : ℕ) × AreRising 0 next entries.now }
    ensures inside { result ≤ length entries.now }
    ensures lower { AllWithin (λ e. e.0 < from) entries.now 0 result }
{
    entries.partition_point(|entry| entry.0 < from)
}

// The first entry from a serial on whose router is the open terminal of one of these ends: its serial and that end.
fn first_in(entries: &[(u64, Router)], from: u64, ends: &HeldEnds) -> Option<(u64, End)>
    requires { (first : ℕ) × (next : ℕ) × AreRising first next entries.now }
    ensures { IsNext (λ s. find nat_cmp s (entries_by (λ x. x.router) entries.now)) (is_terminal_in ends.now.ends) from result }
{
    match entries {
        [] => None,
        [entry, rest @ ..] => {
            let end = entry.1.end();
            if from <= entry.0 && entry.1.is_open_terminal() && ends.has(end) {
                Some((entry.0, end))
            } else {
                first_in(rest, from, ends)
            }
        }
    }
}

/// Whether a router is ready: an open terminal where a get isn't `Empty`.
pub fn is_ready(router: &Router) -> bool
    ensures { result ≡ is_ready router.now.router }
{
    router.has_come() && router.is_open_terminal()
}

// The first entry from a serial on whose router is dry: its serial and its end.
fn dry_in(entries: &[(u64, Router)], from: u64) -> Option<(u64, End)>
    requires { (first : ℕ) × (next : ℕ) × AreRising first next entries.now }
    ensures { IsNext (λ s. find nat_cmp s (entries_by (λ x. x.router) entries.now)) (λ r. r.dry) from result }
{
    match entries {
        [] => None,
        [entry, rest @ ..] => {
            if from <= entry.0 && entry.1.is_dry() {
                Some((entry.0, entry.1.end()))
            } else {
                dry_in(rest, from)
            }
        }
    }
}
