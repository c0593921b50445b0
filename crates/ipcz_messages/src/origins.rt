//! Since when a router stood that no move made, as far as the lines before the first settle tell.
//!
//! Up to there each move is shown. So a router that serves an end which hasn't moved before its first line, or only once and from
//! its node, is the one that the end began with: that of a first pair stood from the start, and that of an opened pair from its
//! open. With the move it became a proxy.

use crate::calls::{MOST_MOVES, Portals};
use crate::moves::{Move, Moves};
use crate::routers::Router;
use ipcz_lines::End;

// How an end moved before a line.
#[derive(Clone, Copy)]
enum Moved {
    Never,
    // Once, at a line.
    From { node: u8, line: usize },
    Often,
}

// How an end moved before a line.
fn moved_before(moves: &[Move], end: End, line: usize) -> Moved {
    let mut before = Moved::Never;
    for moved in moves {
        if moved.end == Some(end) && moved.line < line {
            before = match before {
                Moved::Never => Moved::From {
                    node: moved.node,
                    line: moved.line,
                },
                _ => Moved::Often,
            };
        }
    }
    before
}

// The line since which the router stood that an end began with.
fn origin_of(portals: &Portals, end: End) -> Option<usize> {
    if let Some(line) = portals.line_of(end) {
        return Some(line);
    }
    match portals.nodes_of(end) {
        Some(_) => Some(0),
        None => None,
    }
}

// Notes since when a router stands that an end began with, if it is known to be that one.
fn note_origin(router: &mut Router, moves: &[Move], portals: &Portals, end: End) {
    let Some(origin) = origin_of(portals, end) else {
        return;
    };
    match moved_before(moves, end, router.first) {
        Moved::Never => router.first = router.first.min(origin),
        Moved::From { node, line } if node == router.node => {
            router.first = router.first.min(origin);
            router.proxy = Some(router.proxy.unwrap_or(line).min(line));
        }
        _ => (),
    }
}

/// Moves the beginnings of routers up to where their ends began; so many lines stand before the first settle.
pub fn note_origins(
    routers: &mut [Router],
    moves: &Moves,
    ends: &[Option<End>],
    portals: &Portals,
    seen: usize,
) {
    if moves.all.len() > MOST_MOVES {
        return;
    }
    for (index, end) in ends.iter().enumerate() {
        if let Some(end) = end
            && let Some(router) = routers.get_mut(index)
            && router.first < seen
        {
            note_origin(router, &moves.all, portals, *end);
        }
    }
}
