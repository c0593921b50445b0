//! The routers that a transcript names, and what their lines say of them.

ghost use Rattle.std.specs.Prelude.{◌≡◌, ◌<◌, ◌≤◌, ◌+◌, length, IfSome, IfOk, OnOk};
ghost use Rattle.std.specs.List.{HoldsAt};

use crate::calls::Call;
use crate::messages::Message;
use ipcz_lines::{Event, Line, ReadLine, RouterEvent, Way};
use std::alloc::{AllocError, Global};

/// A router, with the first and the last line that it is seen at, and the lines at which it left, was known to be a proxy
/// and began its bypass, by their index.
#[derive(Clone, Copy, Debug)]
pub struct Router {
    pub node: u8,
    pub serial: u64,
    pub first: usize,
    pub last: usize,
    pub left: Option<usize>,
    pub proxy: Option<usize>,
    pub decaying: Option<usize>,
}

/// The index of a router among those that are known.
pub fn find(routers: &[Router], node: u8, serial: u64) -> Option<usize>
    ensures some { IfSome result (λ i. i < length routers.now) }
    ensures found { IfSome result (λ i. HoldsAt (λ r. (r.node ≡ node) × (r.serial ≡ serial)) routers.now i) }
{
    for (i, router) in routers.iter().enumerate() {
        if router.node == node && router.serial == serial {
            return Some(i);
        }
    }
    None
}

// Whether only a proxy does this.
fn is_of_proxy(event: &RouterEvent) -> bool {
    matches!(
        event,
        RouterEvent::Send { way: Way::In, .. }
            | RouterEvent::Finish { way: Way::In, .. }
            | RouterEvent::Claim { .. }
            | RouterEvent::Begin { .. }
            | RouterEvent::Leave
    )
}

// Whether a router is gone behind this.
fn is_last(event: &RouterEvent) -> bool {
    matches!(
        event,
        RouterEvent::Leave | RouterEvent::Retire { .. } | RouterEvent::Discard { leaves: true, .. }
    )
}

impl Router {
    // A router that is seen first at a line.
    fn seen(node: u8, serial: u64, line: usize) -> Self {
        Router {
            node,
            serial,
            first: line,
            last: line,
            left: None,
            proxy: None,
            decaying: None,
        }
    }

    // Notes what a line says of the router.
    fn note(&mut self, event: &RouterEvent, line: usize) {
        self.last = line;
        if self.proxy.is_none() && is_of_proxy(event) {
            self.proxy = Some(line);
        }
        if matches!(event, RouterEvent::Begin { .. }) {
            self.decaying = Some(line);
        }
        if is_last(event) {
            self.left = Some(line);
        }
    }
}

// Notes what a router did at a line.
fn note_event(
    routers: &mut Vec<Router>,
    node: u8,
    serial: u64,
    event: &RouterEvent,
    line: usize,
) -> Result<(), AllocError>
    ensures few { OnOk result (length routers.new.items ≤ length routers.old.items + 1) }
{
    if let Some(i) = find(routers.as_slice(), node, serial) {
        routers[i].note(event, line);
        return Ok(());
    }
    let mut router = Router::seen(node, serial, line);
    router.note(event, line);
    routers.push(router)?;
    Ok(())
}

/// The routers, in the order in which the lines name them first.
pub fn routers(alloc: Global, lines: &[ReadLine]) -> Result<Vec<Router>, AllocError>
    ensures few { IfOk result (λ routers. length routers.items ≤ length lines.now) }
{
    let mut routers = Vec::new(alloc);
    for (i, read) in lines.iter().enumerate() {
        if let Line::Turn {
            node,
            event: Event::Router { serial, event },
        } = &read.line
        {
            note_event(&mut routers, *node, *serial, event, i)?;
        }
    }
    Ok(routers)
}

impl Router {
    // Notes that the router is in sight at a line.
    fn see(&mut self, line: usize) {
        self.first = self.first.min(line);
        self.last = self.last.max(line);
    }
}

// Notes that the router of an index is in sight at a line, if both are known.
fn see_at(routers: &mut [Router], router: Option<usize>, line: Option<usize>) {
    if let (Some(router), Some(line)) = (router, line) {
        if let Some(router) = routers.get_mut(router) {
            router.see(line);
        }
    }
}

/// Notes that routers are in sight where they make messages and where they are handed some.
pub fn see_messages(routers: &mut [Router], messages: &[Message]) {
    for message in messages {
        see_at(routers, message.maker, message.made);
        see_at(routers, message.receiver, message.handled);
    }
}

/// Notes that routers are in sight where calls are at their portals.
pub fn see_calls(routers: &mut [Router], calls: &[Call]) {
    for call in calls {
        see_at(routers, Some(call.router), Some(call.line));
    }
}
