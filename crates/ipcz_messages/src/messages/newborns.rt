//! Routers that moves made, known by their serials.
//!
//! A node gives its routers serials in the order in which they are made: first those of its ends of the first pairs, then two at each open
//! there, and one for each end that comes with an item. Before the first settle each move is shown. So if the number of nodes is known,
//! and of each open at which node it was, it is known which router was made for which link. A pair was opened at the node from which an
//! end of it moved first.

use crate::calls::{MOST_MOVES, Portals};
use crate::messages::Message;
use crate::messages::namings::Naming;
use crate::moves::{Move, Moves, lines_in_sight};
use crate::routers::{Router, find};
use ipcz_lines::{Event, Kind, Line, ReadLine};
use std::alloc::{AllocError, Global};

// The node from which an end of a pair moved first.
fn home_of(moves: &[Move], pair: u16) -> Option<u8> {
    let mut first: Option<Move> = None;
    for moved in moves {
        let is_of_pair = match moved.end {
            Some(end) => end.pair == pair,
            None => false,
        };
        let is_first = match first {
            Some(one) => moved.line < one.line,
            None => true,
        };
        if is_of_pair && is_first {
            first = Some(*moved);
        }
    }
    Some(first?.node)
}

// What is known while the lines are gone through: how many routers each node has made, and the links that moves made them for.
#[derive(Drop)]
struct Nursery<'a> {
    made: [u64; 8],
    namings: Vec<Naming>,
    portals: Portals<'a>,
    moves: Moves,
}

impl<'a> Nursery<'a> {
    // Counts the routers of an open, and tells whether its node is known.
    fn open(&mut self, line: usize) -> bool {
        let Some(portal) = self.portals.opened.iter().find(|p| p.line == line) else {
            return false;
        };
        let Some(node) = home_of(self.moves.all.as_slice(), portal.end.pair) else {
            return false;
        };
        if let Some(count) = self.made.get_mut(usize::from(node)) {
            *count = count.saturating_add(2);
        }
        true
    }

    // Notes the routers that were made for the ends that moved at a line to a node.
    fn bear(&mut self, routers: &[Router], node: u8, line: usize) -> Result<(), AllocError> {
        let Some(count) = self.made.get_mut(usize::from(node)) else {
            return Ok(());
        };
        for moved in &self.moves.all {
            if moved.line == line {
                if let Some(router) = find(routers, node, *count) {
                    self.namings.push(Naming {
                        node,
                        link: moved.link,
                        router,
                    })?;
                }
                *count = count.saturating_add(1);
            }
        }
        Ok(())
    }

    // Goes on by the message that was handled at a line, and tells whether it is known what it made.
    fn hand(
        &mut self,
        routers: &[Router],
        messages: &[Message],
        line: usize,
    ) -> Result<bool, AllocError> {
        let Some(message) = messages.iter().find(|m| m.handled == Some(line)) else {
            return Ok(false);
        };
        let makes = matches!(message.kind, Some(Kind::Item(_)))
            && !message.unfit
            && message.from != Some(message.to);
        if !makes {
            return Ok(true);
        }
        let Some(made) = message.made else {
            return Ok(false);
        };
        self.bear(routers, message.to, made)?;
        Ok(true)
    }
}

/// The links for which moves made routers, each as a naming by its router, as far as these are known.
pub fn newborns(
    alloc: Global,
    lines: &[ReadLine],
    routers: &[Router],
    messages: &[Message],
) -> Result<Vec<Naming>, AllocError> {
    let portals = Portals::new(alloc, lines)?;
    let nodes = portals.nodes.unwrap_or(0);
    let mut nursery = Nursery {
        made: [u64::from(nodes.saturating_sub(1)); 8],
        namings: Vec::new(alloc),
        portals,
        moves: Moves::new(alloc, lines)?,
    };
    if nodes == 0 || nursery.moves.all.len() > MOST_MOVES {
        return Ok(nursery.namings);
    }
    for (i, read) in lines[..lines_in_sight(lines)].iter().enumerate() {
        let is_known = match &read.line {
            Line::Open { refusal: None, .. } => nursery.open(i),
            Line::Turn {
                event: Event::Hand { .. },
                ..
            } => nursery.hand(routers, messages, i)?,
            _ => true,
        };
        if !is_known {
            return Ok(nursery.namings);
        }
    }
    Ok(nursery.namings)
}
