//! The ends that moved before the first settle, by the links that their nodes made for them.
//!
//! Up to there each move is shown, so the links that a node makes for the ends that move from it are known by their order.

ghost use Rattle.std.specs.Prelude.{◌≡◌, IfSome};
ghost use Rattle.ipcz_messages.specs.Ends.{IsFirstSettle};

use crate::messages::is_settle;
use ipcz_lines::{End, Event, Line, Link, ReadLine, RouterEvent, end};
use std::alloc::{AllocError, Global};

/// An end that moved: the line of its send, the node that it left, the link that the node made for it, and the end.
#[derive(Clone, Copy)]
pub struct Move {
    pub line: usize,
    pub node: u8,
    pub link: Link,
    pub end: Option<End>,
}

/// The moves of node after node, each node's in order, and where each node's begin.
#[derive(Drop)]
pub struct Moves {
    pub all: Vec<Move>,
    starts: [usize; 8],
}

// The ends that move from a node at a line.
fn moved_at<'a>(line: &Line<'a>, from: u8) -> &'a [u8] {
    match line {
        Line::Turn {
            node,
            event: Event::Router {
                event: RouterEvent::Send { moves, .. },
                ..
            },
        } if *node == from => moves,
        _ => b"".as_slice(),
    }
}

/// How many lines stand before the first settle.
pub fn lines_in_sight(lines: &[ReadLine]) -> usize
    ensures { IsFirstSettle lines.now result }
{
    for i in 0..lines.len() {
        if is_settle(&lines[i].line) {
            return i;
        }
    }
    lines.len()
}

// Notes the ends that move from a node at a line; answers the serial of its next link.
fn note_moves(
    all: &mut Vec<Move>,
    ends: &[u8],
    line: usize,
    node: u8,
    serial: u64,
) -> Result<u64, AllocError> {
    let mut serial = serial;
    if ends.is_empty() {
        return Ok(serial);
    }
    for text in ends.split(|b| *b == b',') {
        all.push(Move {
            line,
            node,
            link: Link::Peripheral { node, serial },
            end: end(text),
        })?;
        serial = serial.saturating_add(1);
    }
    Ok(serial)
}

// The moves from a node.
fn note_node(all: &mut Vec<Move>, lines: &[ReadLine], node: u8) -> Result<(), AllocError> {
    let mut serial = 0;
    let count = lines_in_sight(lines);
    for (i, read) in lines.iter().enumerate() {
        if i < count {
            serial = note_moves(all, moved_at(&read.line, node), i, node, serial)?;
        }
    }
    Ok(())
}

impl Moves {
    /// The moves before the first settle.
    pub fn new(alloc: Global, lines: &[ReadLine]) -> Result<Self, AllocError> {
        let mut all = Vec::new(alloc);
        let mut starts = [0usize; 8];
        for node in 0..8u8 {
            if let Some(start) = starts.get_mut(usize::from(node)) {
                *start = all.len();
            }
            note_node(&mut all, lines, node)?;
        }
        Ok(Moves { all, starts })
    }

    /// The move for which a link was made.
    pub fn of_link(&self, link: Link) -> Option<Move>
        ensures { IfSome result (λ m. m.link ≡ link) }
    {
        let Link::Peripheral { node, serial } = link else {
            return None;
        };
        let start = *self.starts.get(usize::from(node))?;
        let moved = self.all.get(start.saturating_add(serial as usize))?;
        if moved.link == link {
            Some(*moved)
        } else {
            None
        }
    }
}
