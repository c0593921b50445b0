//! Numbers that tell a sorted set where to look first.
use crate::link_place::LinkPlace;
use ipcz_base::{End, Side};

/// What a sorted set has as its members: each has a number, which mostly rises by one from a member to the next. It says where to look
/// first, and nothing rests on it.
pub trait Numbered {
    /// The number.
    fn number(&self) -> u64;
}

impl Numbered for End {
    fn number(&self) -> u64 {
        number_of(u64::from(self.pair), self.side)
    }
}

impl Numbered for LinkPlace {
    fn number(&self) -> u64 {
        number_of(self.link_number(), self.side())
    }
}

impl<K: Numbered> Numbered for (K, u64) {
    fn number(&self) -> u64 {
        self.0.number()
    }
}

// A number for each side of a pair or a link, by the number that it has.
fn number_of(number: u64, side: Side) -> u64 {
    let first = number.wrapping_mul(2);
    match side {
        Side::A => first,
        Side::B => first.wrapping_add(1),
    }
}

/// The place of a number among so many that rise evenly from the first to the last, if there are many. It says where to look, and nothing
/// rests on it.
pub fn even_guess(first: u64, last: u64, count: usize, number: u64) -> Option<usize> {
    if count < 16 {
        return None;
    }
    let span = last.wrapping_sub(first);
    let steps = count as u64 - 1;
    let scaled = number.wrapping_sub(first).wrapping_mul(steps);
    let place = scaled.wrapping_add(span / 2).checked_div(span)?;
    Some(place as usize)
}
