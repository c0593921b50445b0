//! Who made a message that isn't seen handled.
//!
//! If a node was quiet, and all that it did since is seen, each message that it posts is one that it made since. So if, of
//! all that it made before a post, only one act is left that made none of the messages that were handled, the message of that
//! post is this act's.

ghost use Rattle.std.specs.Prelude.{◌≡◌, ◌<◌, ◌≤◌, length, false, true, IfSome, IfNone};
ghost use Rattle.std.specs.List.{All, AllWithin, HoldsAt};
ghost use Rattle.ipcz_messages.specs.Leftovers.{is_of, IsMadeBy, IsOnlyOf};
ghost use Rattle.ipcz_messages.specs.Messages.{AreOnce, IsMessage, KeepsWay};

use crate::messages::Message;
use crate::messages::made::Made;
use ipcz_lines::{Kind, ReadLine};

fn is_of(made: &Made, node: u8, line: usize) -> bool
    ensures { result ≡ is_of node line made.now }
{
    made.node == node && made.line < line
}

// The first act of a node before a line, among those from one index on.
fn next_of(made: &[Made], from: usize, node: u8, line: usize) -> Option<usize>
    requires { from ≤ length made.now }
    ensures behind { IfSome result (λ i. (from ≤ i) × (i < length made.now)) }
    ensures holds { IfSome result (λ i. HoldsAt (λ m. is_of node line m ≡ true) made.now i) }
    ensures first { IfSome result (AllWithin (λ m. is_of node line m ≡ false) made.now from) }
    ensures none { IfNone result (AllWithin (λ m. is_of node line m ≡ false) made.now from (length made.now)) }
{
    for i in from..made.len() {
        if is_of(&made[i], node, line) {
            return Some(i);
        }
    }
    None
}

// The only act of a node before a line.
fn only_of(made: &[Made], node: u8, line: usize) -> Option<usize>
    ensures { IsOnlyOf made.now node line result }
{
    let only = next_of(made, 0, node, line)?;
    match next_of(made, only + 1, node, line) {
        Some(_) => None,
        None => Some(only),
    }
}

// The message with what made it. Which link a begin's message names isn't seen before its hand.
fn with_maker<'a>(message: Message<'a>, made: &Made<'a>) -> Message<'a>
    ensures way { KeepsWay message.entry result }
    ensures made { IsMadeBy made.now result }
{
    let mut message = message;
    message.made = Some(made.line);
    message.maker = made.router;
    message.kind = Some(made.kind);
    message.moves = made.moves;
    if !matches!(made.kind, Kind::BypassPeer) {
        message.link = made.link;
    }
    message
}

/// A part of the lines: from one index up to another.
#[derive(Clone, Copy)]
pub struct Part {
    pub from: usize,
    pub to: usize,
}

// The only act that a message may be of, if the message was posted in a part and isn't seen handled.
fn maker_of(made: &[Made], message: &Message, part: Part) -> Option<usize>
    ensures { IfSome result (λ i. i < length made.now) }
{
    match (message.from, message.posted, message.handled) {
        (Some(node), Some(posted), None) if part.from <= posted && posted < part.to => {
            only_of(made, node, posted)
        }
        _ => None,
    }
}

fn explain_one<'a>(
    lines: &[ReadLine],
    made: &mut Vec<Made<'a>>,
    messages: &mut Vec<Message<'a>>,
    index: usize,
    part: Part,
)
    requires index { index < length messages.old.items }
    requires messages { All (IsMessage lines.now) messages.old.items }
    requires once { AreOnce lines.now messages.old.items }
    ensures each { All (IsMessage lines.now) messages.new.items }
    ensures once { AreOnce lines.now messages.new.items }
    ensures few { length messages.new.items ≡ length messages.old.items }
{
    let message = messages[index];
    if let Some(at) = maker_of(made.as_slice(), &message, part) {
        messages[index] = with_maker(message, &made[at]);
        made.remove(at);
    }
}

/// Says of the messages that were posted in a part, and that aren't seen handled, what made them, if only one act is left
/// that may have.
pub fn explain<'a>(
    lines: &[ReadLine],
    made: &mut Vec<Made<'a>>,
    messages: &mut Vec<Message<'a>>,
    part: Part,
)
    requires messages { All (IsMessage lines.now) messages.old.items }
    requires once { AreOnce lines.now messages.old.items }
    ensures each { All (IsMessage lines.now) messages.new.items }
    ensures once { AreOnce lines.now messages.new.items }
    ensures few { length messages.new.items ≡ length messages.old.items }
{
    for index in 0..messages.len() {
        explain_one(lines, made, messages, index, part);
    }
}
