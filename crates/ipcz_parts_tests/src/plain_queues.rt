//! A gap queue written down plainly, with which the queue itself is compared: its items in the order in which they came, each
//! looked for among all of them.

use ipcz_base::Refusal;
use ipcz_seq::GapQueue;
use std::alloc::Global;

// Each history puts items under numbers below this one, so that many are taken and many have passed.
const NUMBERS: u64 = 48;

#[derive(Drop)]
struct PlainQueue {
    pairs: Vec<(u64, u64)>,
    current: u64,
}

impl PlainQueue {
    fn place_of(&self, n: u64) -> Option<usize> {
        for (place, pair) in self.pairs.iter().enumerate() {
            if pair.0 == n {
                return Some(place);
            }
        }
        None
    }

    fn has_place(&self, n: u64) -> bool {
        self.current <= n && self.place_of(n).is_none()
    }

    fn push(&mut self, n: u64, item: u64) -> Result<(), (Refusal, u64)> {
        if n < self.current {
            return Err((Refusal::Passed, item));
        }
        if self.place_of(n).is_some() {
            return Err((Refusal::Occupied, item));
        }
        match self.pairs.push((n, item)) {
            Ok(()) => Ok(()),
            Err(_) => Err((Refusal::OutOfMemory, item)),
        }
    }

    fn pop(&mut self) -> Option<u64> {
        let place = self.place_of(self.current)?;
        if place >= self.pairs.len() {
            return None;
        }
        self.current = self.current.wrapping_add(1);
        Some(self.pairs.remove(place).1)
    }

    // The first number from the current one on under which nothing stands.
    fn reach(&self) -> u64 {
        for n in self.current..NUMBERS {
            if self.place_of(n).is_none() {
                return n;
            }
        }
        NUMBERS
    }
}

// A number that follows no pattern, from the one before it.
fn drawn(last: u64) -> u64 {
    last.wrapping_mul(6_364_136_223_846_793_005)
        .wrapping_add(1_442_695_040_888_963_407)
}

/// A queue and a plain one, to which the same calls are made.
#[derive(Drop)]
struct Twins {
    queue: GapQueue<u64>,
    plain: PlainQueue,
}

impl Twins {
    fn new(alloc: Global, first: u64) -> Twins {
        Twins {
            queue: GapQueue::new_at(alloc, first),
            plain: PlainQueue {
                pairs: Vec::new(alloc),
                current: first,
            },
        }
    }

    // Puts an item into both; whether both answer the same.
    fn push(&mut self, n: u64, item: u64) -> bool {
        n != u64::MAX
            && self.queue.has_place(n) == self.plain.has_place(n)
            && self.queue.push(n, item) == self.plain.push(n, item)
    }

    // Takes an item from both; whether both answer the same.
    fn pop(&mut self) -> bool {
        self.queue.pop() == self.plain.pop()
    }

    // Whether both look the same.
    fn are_alike(&self) -> bool {
        self.queue.current() == self.plain.current
            && self.queue.reach() == self.plain.reach()
            && self.queue.len() == self.plain.pairs.len()
    }

    // Makes a hundred calls, drawn from a number on, which becomes the last one drawn; whether both do alike in each.
    fn go_alike(&mut self, chance: &mut u64) -> bool {
        for item in 0..100u64 {
            *chance = drawn(*chance);
            let went = if (*chance >> 60) % 3 == 0 {
                self.pop()
            } else {
                self.push((*chance >> 40) % NUMBERS, item)
            };
            if !went || !self.are_alike() {
                return false;
            }
        }
        true
    }
}

#[test]
fn a_queue_answers_as_a_plain_list_does(rt: HostRuntime) {
    let mut chance = 1;
    let mut alike = 0u64;
    for history in 0..200u64 {
        if Twins::new(rt.alloc(), history % 5).go_alike(&mut chance) {
            alike = alike.saturating_add(1);
        }
    }
    assert_eq!(rt; alike, 200);
}
