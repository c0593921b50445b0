//! When a router became a proxy, and when a router was made, as far as the moves of ends tell.
//!
//! Before the first settle each move is shown, so the links that a node makes for the ends that move from it are known by
//! their order. The router of that node that names such a link is the proxy that the move left behind; the router of another
//! node that names it was made when the item was handled.

ghost use Rattle.std.specs.Prelude.{◌≡◌, length};

use crate::messages::Message;
use crate::messages::namings::{Naming, namings, sole};
use crate::messages::newborns::newborns;
use crate::moves::{Move, Moves};
use crate::routers::Router;
use ipcz_lines::{Kind, ReadLine};
use std::alloc::{AllocError, Global};

fn note_proxy(routers: &mut Vec<Router>, index: Option<usize>, line: usize)
    ensures { length routers.new.items ≡ length routers.old.items }
{
    if let Some(index) = index
        && let Some(router) = routers.get_mut(index)
    {
        router.first = router.first.min(line);
        router.proxy = match router.proxy {
            Some(known) => Some(known.min(line)),
            None => Some(line),
        };
    }
}

fn note_birth(routers: &mut Vec<Router>, index: Option<usize>, line: usize)
    ensures { length routers.new.items ≡ length routers.old.items }
{
    if let Some(index) = index
        && let Some(router) = routers.get_mut(index)
    {
        router.first = router.first.min(line);
    }
}

// The message that carried what was sent at a line, if it was handled and fit.
fn carrier<'m, 'a>(messages: &'m [Message<'a>], line: usize) -> Option<&'m Message<'a>> {
    messages.iter().find(|m| m.made == Some(line)
        && !m.unfit
        && matches!(m.kind, Some(Kind::Item(_))))
}

fn note_move(routers: &mut Vec<Router>, namings: &[Naming], messages: &[Message], moved: &Move)
    ensures { length routers.new.items ≡ length routers.old.items }
{
    let proxy = sole(namings, moved.node, moved.link, None);
    note_proxy(routers, proxy, moved.line);
    if let Some(message) = carrier(messages, moved.line)
        && let Some(line) = message.handled
        && message.to != moved.node
    {
        let newborn = sole(namings, message.to, moved.link, None);
        note_birth(routers, newborn, line);
    }
}

/// Moves the beginnings of routers up to where they were made or became proxies.
pub fn note_births(
    alloc: Global,
    lines: &[ReadLine],
    messages: &[Message],
    moves: &Moves,
    routers: &mut Vec<Router>,
) -> Result<(), AllocError>
    ensures { length routers.new.items ≡ length routers.old.items }
{
    let known = newborns(alloc, lines, routers.as_slice(), messages)?;
    let mut namings = namings(alloc, lines, routers.as_slice())?;
    namings.extend_from_slice(known.as_slice())?;
    for moved in &moves.all {
        note_move(routers, namings.as_slice(), messages, moved);
    }
    Ok(())
}
