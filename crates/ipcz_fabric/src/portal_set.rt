//! Sets of portals, at which a wait is.
ghost use Rattle.std.specs.Prelude.{◌≡◌, ◌≢◌, ◌<◌, ◌≤◌, ◌+◌, [], ℕ, true, None, Some, length, slice_get, vec_len, vec_capacity, IfOk, IfSome, MatchBool, OnErr};
ghost use Rattle.std.specs.Prelude.{is_some, nat_eq, nat_lt, if◌then◌else◌};
ghost use Rattle.std.specs.BTreeMap.{Updates, get};
ghost use Rattle.ipcz_fabric.specs.Portals.{PortalValue, portal_at};
ghost use Rattle.ipcz_fabric.specs.PortalSets.{AreOnce, IsAdded, IsNth, IsRemoved, in_round, key_cmp};
ghost use Rattle.ipcz_fabric.specs.Readiness.{EachBefore, IsThere};

use crate::portal::Portal;
use crate::portal_note::PortalNote;
use ipcz_base::End;
use ipcz_cell::FabricName;
use std::alloc::{AllocError, Global};
use std::collections::BTreeMap;
use std::marker::{Model, PhantomData};

/// The portals that a wait is at ([`Hub::wait_any`](crate::Hub::wait_any)), in the order in which they were added, and none of them twice.
///
/// It only notes which portals they are: they stay with their owners, who put, get and close there as ever. Remove one that was closed or put into a
/// parcel: nothing comes there any more.
#[derive(Drop)]
pub struct PortalSet<F: FabricName> {
    portals: Vec<PortalNote>,
    places: BTreeMap<(u8, End), usize>,
    nodes: Vec<u8>,
    of: PhantomData<F>,
}

impl<F: FabricName> Model for PortalSet<F> {
    ghost use Rattle.std.specs.Prelude.{List};
    ghost use Rattle.std.specs.Coded.{codes};
    ghost use Rattle.ipcz_fabric.specs.Portals.{PortalValue};
    ghost use Rattle.ipcz_fabric.specs.PortalSets.{AreNoted};

    ghost Value = { List PortalValue };

    ghost coded = { Prim.hlevel codes };

    ghost view = { λ a. a.portals.items };

    ghost invariant = { λ a. AreNoted F.table.count a.portals.items a.places a.nodes.items };
}

// The first place of a portal of a node, if there is one.
fn place_of_node(portals: &[PortalNote], node: u8) -> Option<usize>
    ensures there { IfSome result (λ place. IsThere portals.now place (λ p. p.node ≡ node)) }
    ensures none { result ≡ None → EachBefore portals.now (length portals.now) (λ p. p.node ≢ node) }
{
    for place in 0..portals.len() {
        if portals[place].node() == node {
            return Some(place);
        }
    }
    None
}

// The place of a node among others, if it is there.
fn place_among(nodes: &[u8], node: u8) -> Option<usize>
    ensures there { IfSome result (λ place. slice_get nodes.now place ≡ Some node) }
{
    for place in 0..nodes.len() {
        if nodes[place] == node {
            return Some(place);
        }
    }
    None
}

// Adds a node to others. One that is there stays.
fn add_node(nodes: &mut Vec<u8>, node: u8)
    requires room { vec_len nodes.old + 1 ≤ vec_capacity nodes.old }
    ensures there { (j : ℕ) × (slice_get nodes.new.items j ≡ Some node) }
    ensures kept { (j n : ℕ) → slice_get nodes.old.items j ≡ Some n → slice_get nodes.new.items j ≡ Some n }
    ensures inside { (j n : ℕ) → slice_get nodes.new.items j ≡ Some n → n ≢ node → slice_get nodes.old.items j ≡ Some n }
{
    if place_among(nodes.as_slice(), node).is_none() {
        nodes.push_reserved(node);
    }
}

// Takes a node away from among others, if none of these portals is of it. One that isn't there is no fault.
fn forget_node(portals: &[PortalNote], nodes: &mut Vec<u8>, node: u8)
    ensures kept { (k j : ℕ) (p : PortalValue) → slice_get portals.now k ≡ Some p → slice_get nodes.old.items j ≡ Some p.node →
        (i : ℕ) × (slice_get nodes.new.items i ≡ Some p.node) }
    ensures inside { (j n : ℕ) → slice_get nodes.new.items j ≡ Some n → (i : ℕ) × (slice_get nodes.old.items i ≡ Some n) }
{
    if place_of_node(portals, node).is_none() {
        remove_node(nodes, node);
    }
}

// Takes a node away from among others. One that isn't there is no fault.
fn remove_node(nodes: &mut Vec<u8>, node: u8)
    ensures kept { (j n : ℕ) → slice_get nodes.old.items j ≡ Some n → n ≢ node → (i : ℕ) × (slice_get nodes.new.items i ≡ Some n) }
    ensures inside { (j n : ℕ) → slice_get nodes.new.items j ≡ Some n → (i : ℕ) × (slice_get nodes.old.items i ≡ Some n) }
{
    if let Some(place) = place_among(nodes.as_slice(), node) {
        nodes.swap_remove(place);
    }
}

// Writes down the place of the portal that is there now, if one is. It was elsewhere before.
fn tell_place(portals: &[PortalNote], places: &mut BTreeMap<(u8, End), usize>, place: usize)
    requires known { (p : PortalValue) → slice_get portals.now place ≡ Some p → is_some (get key_cmp places.old (p.node, p.end)) ≡ true }
    ensures told { (p : PortalValue) → slice_get portals.now place ≡ Some p → Updates key_cmp places.old places.new (p.node, p.end) (Some place) }
    ensures none { length portals.now ≤ place → places.new ≡ places.old }
{
    if place < portals.len() {
        let Ok(_) = places.insert(portals[place].key(), place) else {
            unreachable!()
        };
    }
}

impl<F: FabricName> PortalSet<F> {
    /// A set without portals. It takes no memory.
    ///
    /// So `PortalSet::new(alloc).len()` is 0.
    pub fn new(alloc: Global) -> PortalSet<F>
        ensures { result ≡ [] }
    {
        PortalSet {
            portals: Vec::new(alloc),
            places: BTreeMap::new(alloc),
            nodes: Vec::new(alloc),
            of: PhantomData,
        }
    }

    /// How many portals there are.
    ///
    /// So `set.len()` is 1 behind a first `set.add(&portal)`, and behind a second one of the same portal.
    pub fn len(&self) -> usize
        ensures count { result ≡ length self.now }
        ensures once { AreOnce self.now }
    {
        self.portals.len()
    }

    /// Whether there is no portal.
    ///
    /// So `set.is_empty()` is true of a new one.
    pub fn is_empty(&self) -> bool
        ensures { result ≡ nat_eq (length self.now) 0 }
    {
        self.portals.is_empty()
    }

    /// Adds a portal behind the last one, and answers its place, from 0 on. One that is there stays where it is, and its place is the answer.
    ///
    /// Refused for want of memory: then nothing has changed.
    ///
    /// So `set.add(&portal)` is `Ok(0)` for the first one.
    pub fn add(&mut self, portal: &Portal<F>) -> Result<usize, AllocError>
        ensures added { IfOk result (λ place. IsAdded self.old portal.now place self.new) }
        ensures err { OnErr result (self.new ≡ self.old) }
    {
        let (node, end) = (portal.place(), portal.end());
        if let Some(place) = self.place_of(node, end) {
            return Ok(place);
        }
        let place = self.portals.len();
        self.portals.reserve(1)?;
        self.nodes.reserve(1)?;
        self.places.insert((node, end), place)?;
        self.portals.push_reserved(PortalNote::new(node, end));
        add_node(&mut self.nodes, node);
        Ok(place)
    }

    /// Removes the portal at a place, and answers whether there is one. The last portal takes its place, as with `Vec::swap_remove`, and the others stay
    /// where they are. It takes no memory, and is never refused.
    ///
    /// So `set.remove(0)` is true of a set of two portals, and the one that was at 1 is at 0 then.
    pub fn remove(&mut self, place: usize) -> bool
        ensures { MatchBool result (IsRemoved self.old place self.new) ((length self.old ≤ place) × (self.new ≡ self.old)) }
    {
        if place >= self.portals.len() {
            return false;
        }
        let (node, end) = self.portals.swap_remove(place).key();
        self.places.remove(&(node, end));
        tell_place(self.portals.as_slice(), &mut self.places, place);
        forget_node(self.portals.as_slice(), &mut self.nodes, node);
        true
    }

    /// The place of a portal, or none if it isn't there.
    ///
    /// So `set.place(&portal)` is `Some(0)` behind a first `set.add(&portal)`.
    pub fn place(&self, portal: &Portal<F>) -> Option<usize>
        ensures there { IfSome result (λ place. IsThere self.now place (λ p. p ≡ portal.now)) }
        ensures none { result ≡ None → EachBefore self.now (length self.now) (λ p. p ≢ portal.now) }
    {
        self.place_of(portal.node(), portal.end())
    }

    // The nodes of the portals.
    pub(crate) fn nodes(&self) -> &[u8]
        ensures all { (k : ℕ) (p : PortalValue) → slice_get self.now k ≡ Some p → (j : ℕ) × (slice_get result.now j ≡ Some p.node) }
        ensures inside { (j n : ℕ) → slice_get result.now j ≡ Some n → n < F.table.count }
    {
        self.nodes.as_slice()
    }

    // The node of all portals, if they are of one.
    pub(crate) fn only_node(&self) -> Option<u8> {
        match self.nodes.as_slice() {
            [node] => Some(*node),
            _ => None,
        }
    }

    // The first place of a portal of a node, if there is one.
    pub(crate) fn place_of_node(&self, node: u8) -> Option<usize>
        ensures { IfSome result (λ place. IsThere self.now place (λ p. p.node ≡ node)) }
    {
        place_of_node(self.portals.as_slice(), node)
    }

    // The place of the portal of an end at a node, if it is there.
    fn place_of(&self, node: u8, end: End) -> Option<usize>
        ensures there { IfSome result (λ place. IsThere self.now place (λ p. p ≡ portal_at node end)) }
        ensures first { IfSome result (λ place. EachBefore self.now place (λ p. p ≢ portal_at node end)) }
        ensures none { result ≡ None → EachBefore self.now (length self.now) (λ p. p ≢ portal_at node end) }
    {
        self.places.get(&(node, end)).copied()
    }

    // The place at which a round begins that is to begin at this one: the first place, if there is none of that number.
    pub(crate) fn beginning(&self, from: usize) -> usize
        ensures { result ≡ (if nat_lt from (length self.now) then from else 0) }
    {
        if from < self.portals.len() { from } else { 0 }
    }

    // The number of the portal of an end at a node, counted in a round that begins at a place, if it is below a limit; else the limit.
    pub(crate) fn nth_below(&self, limit: usize, from: usize, node: u8, end: End) -> usize
        requires { from ≤ length self.now }
        ensures most { result ≤ limit }
        ensures there { result < limit → IsThere (in_round self.now from) result (λ p. p ≡ portal_at node end) }
        ensures first { EachBefore (in_round self.now from) result (λ p. p ≢ portal_at node end) }
    {
        let Some(place) = self.place_of(node, end) else {
            return limit;
        };
        let nth = nth_of(self.portals.len(), from, place);
        if nth < limit { nth } else { limit }
    }

    // The place that comes as the n-th in a round that begins at a place.
    pub(crate) fn place_of_nth(&self, from: usize, nth: usize) -> usize
        requires from { from ≤ length self.now }
        requires nth { nth < length self.now }
        ensures inside { result < length self.now }
        ensures nth { IsNth (length self.now) from result nth }
    {
        let behind = self.portals.len() - from;
        if nth < behind {
            from + nth
        } else {
            nth - behind
        }
    }
}

// The number of a place, of so many, counted in a round that begins at a place.
fn nth_of(count: usize, from: usize, place: usize) -> usize
    requires from { from ≤ count }
    requires inside { place < count }
    ensures { IsNth count from place result }
{
    if place < from {
        count - from + place
    } else {
        place - from
    }
}
