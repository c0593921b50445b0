//! The bypasses that routers began, each named by the word of the link that it bypasses.

use crate::routers::{Router, find};
use ipcz_lines::{Event, Line, Link, ReadLine, RouterEvent};
use std::alloc::{AllocError, Global};

/// A bypass: the word of its old link, its proxy by index, and the proxy's inward link, once that is known.
#[derive(Clone, Copy)]
pub struct Bypass {
    pub word: u16,
    pub proxy: usize,
    pub inner: Option<Link>,
}

fn begun(line: &Line, routers: &[Router]) -> Option<Bypass> {
    let Line::Turn {
        node,
        event: Event::Router {
            serial,
            event: RouterEvent::Begin { word },
        },
    } = line
    else {
        return None;
    };
    Some(Bypass {
        word: *word,
        proxy: find(routers, *node, *serial)?,
        inner: None,
    })
}

/// Each bypass that was begun, in the order of the lines.
pub fn bypasses(
    alloc: Global,
    lines: &[ReadLine],
    routers: &[Router],
) -> Result<Vec<Bypass>, AllocError> {
    let mut bypasses = Vec::new(alloc);
    for read in lines {
        if let Some(bypass) = begun(&read.line, routers) {
            bypasses.push(bypass)?;
        }
    }
    Ok(bypasses)
}

/// The bypass of a link, by its index.
pub fn of_old_link(bypasses: &[Bypass], link: Link) -> Option<usize> {
    bypasses.iter().position(|b| Link::Central(b.word) == link)
}

/// The bypass of a proxy with this inward link, by its index.
pub fn of_inner_link(bypasses: &[Bypass], link: Link) -> Option<usize> {
    bypasses.iter().position(|b| b.inner == Some(link))
}
