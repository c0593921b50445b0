//! The bells of all chairs of a hub. Who sits on a chair sleeps on its bell, and whoever brings something to its end rings it. Clauses don't
//! speak of them: docs/TABLE.md says why no wake is lost.
use crate::waiting_room::CHAIRS;
use std::alloc::{AllocError, Global};
use std::sync::Wait;
use std::sync::atomic::{AtomicU64, Ordering};
use std::time::Duration;

/// The bells of a table's nodes, one for each chair, and how many chairs of each node are taken.
#[derive(Drop)]
pub(crate) struct ChairBells {
    // Each ring of a bell makes it the next number.
    bells: Vec<AtomicU64>,
    taken: Vec<AtomicU64>,
    // How often the bells of a node were rung for what has come there.
    wakes: Vec<AtomicU64>,
}

// So many words, which are 0.
fn words(alloc: Global, count: usize) -> Result<Vec<AtomicU64>, AllocError> {
    let mut words = Vec::with_capacity(alloc, count)?;
    for _word in 0..count {
        words.push(AtomicU64::new(0))?;
    }
    Ok(words)
}

// Where the bell of a chair stands.
fn bell_of(node: u8, place: usize) -> usize {
    usize::from(node).wrapping_mul(CHAIRS).wrapping_add(place)
}

// Wakes all that sleep on a bell.
fn ring(bell: &AtomicU64) {
    bell.fetch_add(1, Ordering::SeqCst);
    bell.wake_all();
}

impl ChairBells {
    /// Bells of so many nodes.
    pub(crate) fn new(alloc: Global, nodes: usize) -> Result<ChairBells, AllocError> {
        Ok(ChairBells {
            bells: words(alloc, nodes.wrapping_mul(CHAIRS))?,
            taken: words(alloc, nodes)?,
            wakes: words(alloc, nodes)?,
        })
    }

    /// Tells how many chairs of a node are taken now.
    pub(crate) fn tell_taken(&self, node: u8, taken: usize) {
        if let Some(told) = self.taken.get(usize::from(node)) {
            told.store(taken as u64, Ordering::SeqCst);
        }
    }

    /// How many chairs of a node are taken.
    pub(crate) fn taken(&self, node: u8) -> u64 {
        match self.taken.get(usize::from(node)) {
            Some(told) => told.load(Ordering::SeqCst),
            None => 0,
        }
    }

    /// How often somebody at a node was woken since something had come.
    pub(crate) fn wakes(&self, node: u8) -> u64 {
        match self.wakes.get(usize::from(node)) {
            Some(wakes) => wakes.load(Ordering::SeqCst),
            None => 0,
        }
    }

    /// What the bell of a chair is now: a sleep with this number ends at each ring from now on.
    pub(crate) fn watch(&self, node: u8, place: usize) -> u32 {
        match self.bells.get(bell_of(node, place)) {
            Some(bell) => (bell.load(Ordering::SeqCst) & 0xffff_ffff) as u32,
            None => 0,
        }
    }

    /// Wakes who sits on a chair.
    pub(crate) fn wake(&self, node: u8, place: usize) {
        if let Some(bell) = self.bells.get(bell_of(node, place)) {
            ring(bell);
        }
        if let Some(wakes) = self.wakes.get(usize::from(node)) {
            wakes.fetch_add(1, Ordering::SeqCst);
        }
    }

    /// Wakes all that sit on chairs of a node. If none does, it is a load.
    pub(crate) fn wake_all(&self, node: u8) {
        if self.taken(node) == 0 {
            return;
        }
        for place in 0..CHAIRS {
            if let Some(bell) = self.bells.get(bell_of(node, place)) {
                ring(bell);
            }
        }
    }

    /// Sleeps until the bell of a chair is rung, or returns at once if it was rung since it was watched. It returns when `limit` has passed, and may
    /// also return for no reason.
    pub(crate) fn sleep<R: Wait>(
        &self,
        rt: &R,
        node: u8,
        place: usize,
        number: u32,
        limit: Duration,
    ) {
        if let Some(bell) = self.bells.get(bell_of(node, place)) {
            bell.park_timeout(rt, number, limit);
        }
    }
}
