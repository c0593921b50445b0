//! Bells, one a node: a thread that waits for a node sleeps on its bell, and one that may have brought the node something rings it. One more is
//! rung with each, for a thread that waits for several nodes. They are no part of the table, and clauses speak only of the number that a ring gives
//! a bell: docs/TABLE.md says why no wake is lost.
ghost use Rattle.std.specs.Prelude.{◌≡◌, ◌+◌, ◌%◌, ◌^◌, nat_eq, if◌then◌else◌};

use std::alloc::{AllocError, Global};
use std::sync::Wait;
use std::sync::atomic::{AtomicU64, Ordering};
use std::time::Duration;

// A word to sleep on. It is odd if a thread watches it, and a ring then makes it the next even number.
#[derive(Drop)]
struct Bell {
    word: AtomicU64,
}

/// What a bell was when a thread began to watch it.
#[derive(Clone, Copy)]
pub struct Ticket {
    number: u32,
}

/// The bells of a table's nodes, and one that is rung with each of them.
#[derive(Drop)]
pub struct Bells {
    // One bell, in a list, so that it lies on the heap as those of the nodes do.
    any: Vec<Bell>,
    bells: Vec<Bell>,
}

// The number of a bell once it is rung: of one that a thread watches the next even number, and else the one that it was.
fn rung(found: u64) -> u64
    ensures { result ≡ (if nat_eq (found % 2) 1 then (found + 1) % 2 ^ 64 else found) }
{
    if found % 2 == 1 {
        return found.wrapping_add(1);
    }
    found
}

impl Bell {
    fn new() -> Bell {
        Bell {
            word: AtomicU64::new(0),
        }
    }

    // Asks for a wake at the next ring.
    fn watch(&self) -> Ticket {
        let found = self.word.fetch_or(1, Ordering::SeqCst) | 1;
        Ticket {
            number: (found & 0xffff_ffff) as u32,
        }
    }

    // Wakes all that watch. If none does, it is a load. If the exchange finds another number, another ring came first, and who has
    // begun to watch since that looks again.
    fn ring(&self) {
        let found = self.word.load(Ordering::SeqCst);
        let next = rung(found);
        if next != found {
            let exchanged = self
                .word
                .compare_exchange(found, next, Ordering::SeqCst, Ordering::SeqCst);
            if exchanged.is_ok() {
                self.word.wake_all();
            }
        }
    }
}

// How a call rings the bells.
pub(crate) trait Ringer {
    fn ring(bells: &Bells, node: u8);
}

// It wakes those that watch.
pub(crate) struct Waking;

impl Ringer for Waking {
    fn ring(bells: &Bells, node: u8) {
        bells.ring(node);
    }
}

// It wakes none.
pub(crate) struct Unheard;

impl Ringer for Unheard {
    fn ring(_bells: &Bells, _node: u8) {}
}

impl Bells {
    // Bells of so many nodes.
    pub(crate) fn new(alloc: Global, count: u8) -> Result<Bells, AllocError> {
        let mut any = Vec::with_capacity(alloc, 1)?;
        any.push(Bell::new())?;
        let mut bells = Vec::with_capacity(alloc, usize::from(count))?;
        for _bell in 0..count {
            bells.push(Bell::new())?;
        }
        Ok(Bells { any, bells })
    }

    /// Wakes all that watch the bell of a node, and those that watch the bell of all nodes. If none does, it is two loads. For a node that isn't
    /// the table's nothing is done.
    pub fn ring(&self, node: u8) {
        if let Some(bell) = self.bells.get(usize::from(node)) {
            bell.ring();
            if let Some(any) = self.any.first() {
                any.ring();
            }
        }
    }

    /// Begins to watch the bell that is rung with that of each node: a sleep by `sleep_any` with this ticket ends at each ring from now on. Look
    /// for what you wait for between the two, and never before.
    pub fn watch_any(&self) -> Ticket {
        match self.any.first() {
            Some(any) => any.watch(),
            None => Ticket { number: 0 },
        }
    }

    /// Sleeps until the bell of some node is rung, or returns at once if one was rung since the ticket was taken. It returns when `limit` has
    /// passed, and may also return for no reason.
    pub fn sleep_any<R: Wait>(&self, rt: &R, ticket: Ticket, limit: Duration) {
        if let Some(any) = self.any.first() {
            any.word.park_timeout(rt, ticket.number, limit);
        }
    }

    /// Begins to watch the bell of a node: a sleep with this ticket ends at each ring from now on. Look for what you wait for between the
    /// two, and never before.
    pub fn watch(&self, node: u8) -> Ticket {
        match self.bells.get(usize::from(node)) {
            Some(bell) => bell.watch(),
            None => Ticket { number: 0 },
        }
    }

    /// Sleeps until the bell of a node is rung, or returns at once if it was rung since the ticket was taken. It returns when `limit` has
    /// passed, may also return for no reason, and doesn't sleep for a node that isn't the table's.
    pub fn sleep<R: Wait>(&self, rt: &R, node: u8, ticket: Ticket, limit: Duration) {
        if let Some(bell) = self.bells.get(usize::from(node)) {
            bell.word.park_timeout(rt, ticket.number, limit);
        }
    }
}
