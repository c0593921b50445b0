//! Where the messages wait that are in one outbox at once: side by side.

ghost use Rattle.std.specs.Prelude.{◌≡◌, ◌+◌, ◌≤◌, ◌<◌, length, vec_len, IfOk};
ghost use Rattle.std.specs.List.{HoldsAt};

use ipcz_messages::messages::Message;
use std::alloc::{AllocError, Global};

/// How many messages stand side by side at one wall; those that are more share the last place.
pub const SLOTS: usize = 5;

// The messages by the lines that made them.
fn by_line(
    alloc: Global,
    messages: &[Message],
    lines: usize,
) -> Result<Vec<Option<usize>>, AllocError> {
    let mut made = vec![in alloc; None; lines]?;
    for (index, message) in messages.iter().enumerate() {
        if let Some(line) = message.made
            && let Some(place) = made.get_mut(line)
        {
            *place = Some(index);
        }
    }
    Ok(made)
}

// The first place that is free at a line, if each is taken up to a line; the last one if none is.
fn free_slot(taken: &[usize], line: usize) -> usize
    requires { 0 < length taken.now }
    ensures within { result < length taken.now }
    ensures free { result + 1 < length taken.now → HoldsAt (λ until. until ≤ line) taken.now result }
{
    for slot in 0..taken.len() - 1 {
        if taken[slot] <= line {
            return slot;
        }
    }
    taken.len() - 1
}

// The wall at which a message waits, as a number: a node's left one, or its right one.
fn wall_of(message: &Message) -> Option<usize> {
    let from = message.from?;
    let side = if message.to < from { 0 } else { 1 };
    Some(usize::from(from).saturating_mul(2).saturating_add(side))
}

// Takes a place for a message that waits from one line to another.
fn take_slot(taken: &mut [usize], from: usize, to: usize) -> usize
    requires { 0 < length taken.old }
    ensures { result < length taken.old }
{
    let slot = free_slot(taken, from);
    taken[slot] = to;
    slot
}

/// The place of each message in its outbox.
pub fn slots(alloc: Global, messages: &[Message], lines: usize) -> Result<Vec<usize>, AllocError>
    ensures { IfOk result (λ slots. vec_len slots ≡ length messages.now) }
{
    let mut slots = vec![in alloc; 0usize; messages.len()]?;
    let mut taken = [[0usize; SLOTS]; 16];
    let made = by_line(alloc, messages, lines)?;
    for (line, index) in made.iter().enumerate() {
        if let Some(index) = *index
            && let Some(message) = messages.get(index)
            && let Some(posted) = message.posted
            && let Some(wall) = wall_of(message)
            && let Some(wall) = taken.get_mut(wall)
            && let Some(slot) = slots.get_mut(index)
        {
            *slot = take_slot(wall, line, posted);
        }
    }
    Ok(slots)
}
