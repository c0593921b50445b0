//! Which router a message was for, if the lines that follow its hand tell.
//!
//! Only a put, a close, a hand and a move flag routers. So if a node was seen without flagged routers, and since then one
//! message was handed to it and nothing else was done there, the next line of a router of the node is of the one that the
//! message was for.

use crate::routers::{Router, find};
use ipcz_lines::{Event, Line, ReadLine};
use std::alloc::{AllocError, Global};

/// The router, by its index, that a hand, by its line, was for.
#[derive(Clone, Copy)]
pub struct Receiver {
    pub hand: usize,
    pub router: usize,
}

// What is known of the flagged routers of a node: nothing, that there are none, or that only the one of a hand is.
#[derive(Clone, Copy)]
enum Flags {
    Unknown,
    None,
    OnlyOf(usize),
}

// The node that the portal of a name was on at first, if it is one of a first pair.
fn first_home(name: &[u8]) -> Option<usize> {
    match name {
        [first, b'>', _] => Some(usize::from(first.checked_sub(b'0')?)),
        _ => None,
    }
}

// The flags of all nodes, and whether a portal of a first pair was got from a parcel, so that it may be on another node.
#[derive(Clone, Copy)]
struct Nodes {
    flags: [Flags; 8],
    have_moved: bool,
}

impl Nodes {
    // The flags of a node, with others in their place.
    fn replace(&mut self, node: usize, flags: Flags) -> Flags {
        match self.flags.get_mut(node) {
            Some(place) => {
                let old = *place;
                *place = flags;
                old
            }
            None => Flags::Unknown,
        }
    }

    // Notes a put or a close of a portal.
    fn call(&mut self, name: &[u8]) {
        match first_home(name) {
            Some(node) if !self.have_moved => {
                self.replace(node, Flags::Unknown);
            }
            _ => self.flags = [Flags::Unknown; 8],
        }
    }

    // Notes a hand of a message that fits.
    fn hand(&mut self, node: usize, line: usize) {
        if let Flags::None = self.replace(node, Flags::Unknown) {
            self.replace(node, Flags::OnlyOf(line));
        }
    }

    // Notes a turn; answers the hand of which its router is the receiver.
    fn turn(&mut self, node: usize, event: &Event, line: usize) -> Option<usize> {
        match event {
            Event::Router { .. } => {
                if let Flags::OnlyOf(hand) = self.replace(node, Flags::Unknown) {
                    return Some(hand);
                }
            }
            Event::Hand { unfit: false, .. } => self.hand(node, line),
            Event::Idle => {
                self.replace(node, Flags::None);
            }
            Event::Close { .. } => {
                self.replace(node, Flags::Unknown);
            }
            Event::Hand { .. } | Event::Look { .. } | Event::Post { .. } | Event::Refused(_) => (),
        }
        None
    }

    // Notes a line; answers the hand of which the line's router is the receiver.
    fn follow(&mut self, line: &Line, i: usize) -> Option<usize> {
        match line {
            Line::Turn { node, event } => return self.turn(usize::from(*node), event, i),
            Line::Put { name, .. } | Line::Close { name, .. } => self.call(name),
            Line::Got { names, .. } => self.have_moved |= names.contains(&b'>'),
            Line::Settled => self.flags = [Flags::None; 8],
            Line::Unsettled => self.flags = [Flags::Unknown; 8],
            _ => (),
        }
        None
    }
}

// The router of a line.
fn router_of(line: &Line, routers: &[Router]) -> Option<usize> {
    match line {
        Line::Turn {
            node,
            event: Event::Router { serial, .. },
        } => find(routers, *node, *serial),
        _ => None,
    }
}

/// The routers that hands were for, as far as the lines of routers behind them tell.
pub fn receivers(
    alloc: Global,
    lines: &[ReadLine],
    routers: &[Router],
) -> Result<Vec<Receiver>, AllocError> {
    let mut receivers = Vec::new(alloc);
    let mut nodes = Nodes {
        flags: [Flags::None; 8],
        have_moved: false,
    };
    for (i, read) in lines.iter().enumerate() {
        if let Some(hand) = nodes.follow(&read.line, i)
            && let Some(router) = router_of(&read.line, routers)
        {
            receivers.push(Receiver { hand, router })?;
        }
    }
    Ok(receivers)
}
