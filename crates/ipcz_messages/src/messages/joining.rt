//! Which post, which look and which hand are of one message.

ghost use Rattle.std.specs.Prelude.{◌≡◌, ◌<◌, ◌≤◌, ◌+◌, None, Some, length, IfOk, OnOk};
ghost use Rattle.std.specs.List.{All, Any};
ghost use Rattle.std.specs.Bool.{MatchBool};
ghost use Rattle.ipcz_messages.specs.Joining.{AreJoined, IsFirstSeen};
ghost use Rattle.ipcz_messages.specs.Messages.{AreOnce, IsAt, IsHandOf, IsHanded, IsLooked, IsMessage, IsPosted, is_any_look, is_hand};
ghost use Rattle.ipcz_messages.specs.Messages.{is_look};
ghost use Rattle.ipcz_messages.specs.Messages.{is_post};

use crate::messages::Message;
use crate::messages::mailbox::{hand_of, is_settle, look_of, next_at_hand, next_at_mailbox};
use ipcz_lines::{Event, Line, ReadLine};
use std::alloc::{AllocError, Global};

// The message with what its hand says of it.
fn with_hand<'a>(lines: &[ReadLine<'a>], message: Message<'a>, hand: usize) -> Message<'a>
    ensures from { result.from ≡ message.entry.from }
    ensures to { result.to ≡ message.entry.to }
    ensures posted { result.posted ≡ message.entry.posted }
    ensures looked { result.looked ≡ message.entry.looked }
    ensures handled { result.handled ≡ Some hand }
{
    let mut message = message;
    message.handled = Some(hand);
    if let Some(read) = lines.get(hand)
        && let Line::Turn {
            event: Event::Hand { kind, link, unfit },
            ..
        } = read.line
    {
        message.kind = Some(kind);
        message.link = Some(link);
        message.unfit = unfit;
    }
    message
}

// The settle behind a look that hides the hand.
fn settle_behind(lines: &[ReadLine], look: usize, to: u8) -> Option<usize> {
    if look >= lines.len() {
        return None;
    }
    let next = next_at_hand(lines, look, to)?;
    if is_settle(&lines[next].line) {
        Some(next)
    } else {
        None
    }
}

// The message with its look, and with its hand, if there is one.
fn with_look<'a>(lines: &[ReadLine<'a>], message: Message<'a>, look: usize) -> Message<'a>
    requires look { IsAt (is_any_look message.to) lines.now look }
    requires unhandled { message.handled ≡ None }
    ensures from { result.from ≡ message.entry.from }
    ensures to { result.to ≡ message.entry.to }
    ensures posted { result.posted ≡ message.entry.posted }
    ensures looked { result.looked ≡ Some look }
    ensures handled { IsHandOf lines.now message.entry.to look result.handled }
{
    let mut message = message;
    message.looked = Some(look);
    match hand_of(lines, look, message.to) {
        Some(hand) => with_hand(lines, message, hand),
        None => {
            message.lost = settle_behind(lines, look, message.to);
            message
        }
    }
}

// The message that was posted at a line.
fn posted<'a>(lines: &[ReadLine<'a>], line: usize, from: u8, to: u8) -> Message<'a>
    requires { IsAt (is_post from to) lines.now line }
    ensures { IsPosted lines.now from to line result }
{
    let mut message = Message::unseen(Some(from), to, None);
    message.posted = Some(line);
    match look_of(lines, line, from, to) {
        Some(look) => with_look(lines, message, look),
        None => {
            message.lost = next_at_mailbox(lines, line, from, to);
            message
        }
    }
}

// The message that came into sight at a look.
fn looked<'a>(
    lines: &[ReadLine<'a>],
    line: usize,
    from: u8,
    to: u8,
    settle: Option<usize>,
) -> Message<'a>
    requires { IsAt (is_look from to) lines.now line }
    ensures { IsLooked lines.now from to line result }
{
    with_look(lines, Message::unseen(Some(from), to, settle), line)
}

// The message that came into sight at a hand.
fn handed<'a>(lines: &[ReadLine<'a>], line: usize, to: u8, settle: Option<usize>) -> Message<'a>
    requires { IsAt (is_hand to) lines.now line }
    ensures { IsHanded lines.now to line result }
{
    with_hand(lines, Message::unseen(None, to, settle), line)
}

// Whether one of the messages was looked at at a line.
fn is_looked(messages: &[Message], line: usize) -> bool
    ensures { MatchBool result (Any (λ m. m.looked ≡ Some line) messages.now) (All (λ m. m.looked ≡ Some line → ⊥) messages.now) }
{
    messages.iter().any(|m| m.looked == Some(line))
}

// Whether one of the messages was handed over at a line.
fn is_handed(messages: &[Message], line: usize) -> bool
    ensures { MatchBool result (Any (λ m. m.handled ≡ Some line) messages.now) (All (λ m. m.handled ≡ Some line → ⊥) messages.now) }
{
    messages.iter().any(|m| m.handled == Some(line))
}

// The message that comes into sight at a line.
fn first_seen<'a>(
    lines: &[ReadLine<'a>],
    line: usize,
    messages: &[Message],
    settle: Option<usize>,
) -> Option<Message<'a>>
    requires { line < length lines.now }
    ensures { IsFirstSeen lines.now line messages.now result }
{
    let Line::Turn { node, event } = lines[line].line else {
        return None;
    };
    match event {
        Event::Post { destination } => Some(posted(lines, line, node, destination)),
        Event::Look { sender } if !is_looked(messages, line) => {
            Some(looked(lines, line, sender, node, settle))
        }
        Event::Hand { .. } if !is_handed(messages, line) => {
            Some(handed(lines, line, node, settle))
        }
        _ => None,
    }
}

fn add_first_seen<'a>(
    lines: &[ReadLine<'a>],
    line: usize,
    messages: &mut Vec<Message<'a>>,
    settle: Option<usize>,
) -> Result<(), AllocError>
    requires line { line < length lines.now }
    requires messages { AreJoined lines.now line messages.old.items }
    ensures joined { OnOk result (AreJoined lines.now (line + 1) messages.new.items) }
    ensures few { OnOk result (length messages.new.items ≤ length messages.old.items + 1) }
{
    if let Some(message) = first_seen(lines, line, messages.as_slice(), settle) {
        messages.push(message)?;
    }
    Ok(())
}

/// The messages of a transcript, each with its post, its look and its hand, in the order in which they came into sight.
pub fn joined<'a>(alloc: Global, lines: &[ReadLine<'a>]) -> Result<Vec<Message<'a>>, AllocError>
    ensures each { IfOk result (λ messages. All (IsMessage lines.now) messages.items) }
    ensures once { IfOk result (λ messages. AreOnce lines.now messages.items) }
    ensures few { IfOk result (λ messages. length messages.items ≤ length lines.now) }
{
    let mut messages = Vec::new(alloc);
    let mut settle = None;
    for i in 0..lines.len() {
        add_first_seen(lines, i, &mut messages, settle)?;
        if is_settle(&lines[i].line) {
            settle = Some(i);
        }
    }
    Ok(messages)
}
