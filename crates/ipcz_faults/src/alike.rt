//! Whether worlds and answers are alike, found out without memory.
use crate::line::Line;
use crate::moves::Want;
use ipcz_base::{End, Side};
use ipcz_node::Happened;
use ipcz_world::{Reply, World};
use std::fmt::Write;

// Whether each link word has the same number in both worlds.
fn have_same_words(world: &World, twin: &World) -> bool {
    for word in 0..world.claimed() {
        if world.word(word) != twin.word(word) {
            return false;
        }
    }
    world.claimed() == twin.claimed()
}

// Whether the callers of the same node hold each end in both worlds.
fn have_same_holders(world: &World, twin: &World) -> bool {
    for pair in 0..world.claimed() {
        let end = End {
            pair,
            side: Side::A,
        };
        if world.holder_of(end) != twin.holder_of(end)
            || world.holder_of(end.opposite()) != twin.holder_of(end.opposite())
        {
            return false;
        }
    }
    true
}

// Whether each node has as many routers in both worlds.
fn have_as_many_routers(world: &World, twin: &World) -> bool {
    for node in 0..8u8 {
        if world.routers(node) != twin.routers(node) {
            return false;
        }
    }
    true
}

/// Whether two worlds are alike in all that can be read of them: the claimed words and their numbers, who holds each end, how many routers
/// each node has, how many acts are enough to settle, which is read off each router, queue and message, and whether an act is possible.
pub fn are_alike(world: &mut World, twin: &mut World) -> bool {
    have_same_words(world, twin)
        && have_same_holders(world, twin)
        && have_as_many_routers(world, twin)
        && world.settle_limit() == twin.settle_limit()
        && world.settle(0) == twin.settle(0)
}

/// Whether two answers print alike.
pub fn are_same(reply: &Reply, twin: &Reply) -> bool {
    let mut first = Line::new();
    let mut second = Line::new();
    write!(first, "{reply:?}").is_ok()
        && write!(second, "{twin:?}").is_ok()
        && first.text() == second.text()
}

// Whether what a turn did prints so.
fn prints(event: &Happened, text: &str) -> bool {
    let mut line = Line::new();
    write!(line, "{event:?}").is_ok() && line.text() == text.as_bytes()
}

/// Whether an answer is the one that a row says.
pub fn is_wanted(reply: &Reply, want: Want) -> bool {
    match (reply, want) {
        (Reply::Opened(first, second), Want::Opened(pair)) => {
            first.pair == pair && first.side == Side::A && *second == first.opposite()
        }
        (Reply::Put(number), Want::Accepted(wanted)) => *number == wanted,
        (Reply::Got(number, parcel), Want::Got(wanted, data, ends)) => *number == wanted
            && parcel.bytes.as_slice() == data
            && parcel.ends.as_slice() == ends,
        (Reply::Closed(number), Want::Closed(wanted)) => *number == wanted,
        (Reply::Refused(why), Want::Refused(wanted)) => *why == wanted,
        (Reply::Turned(event), Want::Turned(text)) => prints(event, text),
        _ => false,
    }
}
