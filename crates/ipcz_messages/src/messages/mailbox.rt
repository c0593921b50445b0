//! What changes mailboxes and hands, and what does so next.

ghost use Rattle.std.specs.Prelude.{◌≡◌, ◌<◌, ◌+◌, length, false, IfSome, IfNone};
ghost use Rattle.std.specs.List.{AllWithin};
ghost use Rattle.ipcz_messages.specs.Messages.{IsAt, IsHandOf, IsLookOf, IsNext, is_hand, is_look, is_any_look, is_post, is_settle};
ghost use Rattle.ipcz_messages.specs.Messages.{touches_hand, touches_mailbox};

use ipcz_lines::{Event, Line, ReadLine};

/// Whether a line is a settle.
pub fn is_settle(line: &Line) -> bool
    ensures { result ≡ is_settle line.now }
{
    matches!(line, Line::Settled | Line::Unsettled)
}

/// Whether a line is a post from one node to another.
pub fn is_post(line: &Line, from: u8, to: u8) -> bool
    ensures { result ≡ is_post from to line.now }
{
    match line {
        Line::Turn {
            node,
            event: Event::Post { destination },
        } => *node == from && *destination == to,
        _ => false,
    }
}

/// Whether a line is a look of one node at the mailbox from another.
pub fn is_look(line: &Line, from: u8, to: u8) -> bool
    ensures { result ≡ is_look from to line.now }
{
    match line {
        Line::Turn {
            node,
            event: Event::Look { sender },
        } => *sender == from && *node == to,
        _ => false,
    }
}

fn is_any_look(line: &Line, to: u8) -> bool
    ensures { result ≡ is_any_look to line.now }
{
    match line {
        Line::Turn {
            node,
            event: Event::Look { .. },
        } => *node == to,
        _ => false,
    }
}

/// Whether a line is a hand of a node.
pub fn is_hand(line: &Line, to: u8) -> bool
    ensures { result ≡ is_hand to line.now }
{
    match line {
        Line::Turn {
            node,
            event: Event::Hand { .. },
        } => *node == to,
        _ => false,
    }
}

fn touches_mailbox(line: &Line, from: u8, to: u8) -> bool
    ensures { result ≡ touches_mailbox from to line.now }
{
    is_settle(line) || is_post(line, from, to) || is_look(line, from, to)
}

fn touches_hand(line: &Line, to: u8) -> bool
    ensures { result ≡ touches_hand to line.now }
{
    is_settle(line) || is_any_look(line, to) || is_hand(line, to)
}

/// The next line behind one that touches the mailbox between two nodes.
pub fn next_at_mailbox(lines: &[ReadLine], line: usize, from: u8, to: u8) -> Option<usize>
    requires { line < length lines.now }
    ensures some { IfSome result (IsNext (touches_mailbox from to) lines.now line) }
    ensures none { IfNone result (AllWithin (λ x. touches_mailbox from to x.line ≡ false) lines.now (line + 1) (length lines.now)) }
{
    for i in line + 1..lines.len() {
        if touches_mailbox(&lines[i].line, from, to) {
            return Some(i);
        }
    }
    None
}

/// The next line behind one that touches what a node has in hand.
pub fn next_at_hand(lines: &[ReadLine], line: usize, to: u8) -> Option<usize>
    requires { line < length lines.now }
    ensures some { IfSome result (IsNext (touches_hand to) lines.now line) }
    ensures none { IfNone result (AllWithin (λ x. touches_hand to x.line ≡ false) lines.now (line + 1) (length lines.now)) }
{
    for i in line + 1..lines.len() {
        if touches_hand(&lines[i].line, to) {
            return Some(i);
        }
    }
    None
}

/// The look that takes the message of a post.
pub fn look_of(lines: &[ReadLine], post: usize, from: u8, to: u8) -> Option<usize>
    requires { IsAt (is_post from to) lines.now post }
    ensures { IsLookOf lines.now from to post result }
{
    let next = next_at_mailbox(lines, post, from, to)?;
    if is_look(&lines[next].line, from, to) {
        Some(next)
    } else {
        None
    }
}

/// The hand of what a look took.
pub fn hand_of(lines: &[ReadLine], look: usize, to: u8) -> Option<usize>
    requires { IsAt (is_any_look to) lines.now look }
    ensures { IsHandOf lines.now to look result }
{
    let next = next_at_hand(lines, look, to)?;
    if is_hand(&lines[next].line, to) {
        Some(next)
    } else {
        None
    }
}
