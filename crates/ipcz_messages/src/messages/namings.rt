//! Which routers name which links in their lines.

use crate::calls::{first_end, node_count};
use crate::routers::{Router, find};
use ipcz_lines::{Event, Line, Link, ReadLine, RouterEvent};
use std::alloc::{AllocError, Global};

/// That a router, by its index, names a link in a line.
#[derive(Clone, Copy)]
pub struct Naming {
    pub node: u8,
    pub link: Link,
    pub router: usize,
}

/// The link that a router names.
pub fn link_of(event: &RouterEvent) -> Option<Link> {
    match event {
        RouterEvent::Send { link, .. }
        | RouterEvent::Finish { link, .. }
        | RouterEvent::Retire { link, .. } => Some(*link),
        RouterEvent::Word { word, .. } | RouterEvent::Begin { word } => Some(Link::Central(*word)),
        RouterEvent::Discard { .. }
        | RouterEvent::Leave
        | RouterEvent::Rest
        | RouterEvent::Claim { .. } => None,
    }
}

fn named(line: &Line, routers: &[Router]) -> Option<Naming> {
    let Line::Turn {
        node,
        event: Event::Router { serial, event },
    } = line
    else {
        return None;
    };
    Some(Naming {
        node: *node,
        link: link_of(event)?,
        router: find(routers, *node, *serial)?,
    })
}

// The first link of a router that its node has had from the start.
fn first_link(nodes: u8, index: usize, router: &Router) -> Option<Naming> {
    let end = first_end(nodes, router.node, router.serial)?;
    Some(Naming {
        node: router.node,
        link: Link::Central(end.pair),
        router: index,
    })
}

// Notes the first links of the routers that their nodes have had from the start.
fn note_first_links(
    namings: &mut Vec<Naming>,
    nodes: u8,
    routers: &[Router],
) -> Result<(), AllocError> {
    for (index, router) in routers.iter().enumerate() {
        if let Some(naming) = first_link(nodes, index, router) {
            namings.push(naming)?;
        }
    }
    Ok(())
}

/// Each naming of a link, in the order of the lines; and before them the first links of routers that were there from the start,
/// if it is known which these are.
pub fn namings(
    alloc: Global,
    lines: &[ReadLine],
    routers: &[Router],
) -> Result<Vec<Naming>, AllocError> {
    let mut namings = Vec::new(alloc);
    if let Some(nodes) = node_count(lines) {
        note_first_links(&mut namings, nodes, routers)?;
    }
    for read in lines {
        if let Some(naming) = named(&read.line, routers) {
            namings.push(naming)?;
        }
    }
    Ok(namings)
}

/// The only router of a node, apart from another, that names a link.
pub fn sole(namings: &[Naming], node: u8, link: Link, other: Option<usize>) -> Option<usize> {
    let mut sole = None;
    for naming in namings {
        if naming.node == node && naming.link == link && Some(naming.router) != other {
            if sole.is_some_and(|router| router != naming.router) {
                return None;
            }
            sole = Some(naming.router);
        }
    }
    sole
}
