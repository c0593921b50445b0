//! Which router made a message, and which it was for.
//!
//! An item or a flush was made by the first act of its sender that names its link, and its number, and that made no message
//! yet: a link's two ends never change their nodes, and what goes over it stays in order. The messages of a bypass make one
//! another, and a bypass is named by the word of its old link.

ghost use Rattle.std.specs.Prelude.{◌≡◌, ◌<◌, ◌≤◌, length, IfOk, OnOk};
ghost use Rattle.std.specs.List.{All};
ghost use Rattle.ipcz_messages.specs.Messages.{AreOnce, IsMessage, KeepsWay};

use crate::messages::Message;
use crate::messages::bypasses::{Bypass, bypasses, of_inner_link, of_old_link};
use crate::messages::joining::joined;
use crate::messages::leftovers::{Part, explain};
use crate::messages::made::{Made, made_by, reply};
use crate::messages::namings::{Naming, namings, sole};
use crate::messages::newborns::newborns;
use crate::messages::receivers::{Receiver, receivers};
use crate::routers::{Router, find};
use ipcz_lines::{Event, Kind, Line, Link, ReadLine, RouterEvent};
use std::alloc::{AllocError, Global};

/// What is known of messages that were made, while the lines are gone through.
#[derive(Drop)]
struct Making<'a> {
    routers: Vec<Router>,
    namings: Vec<Naming>,
    bypasses: Vec<Bypass>,
    receivers: Vec<Receiver>,
    made: Vec<Made<'a>>,
    quiet: bool,
    since: usize,
}

/// Who made a message and whom it was for.
#[derive(Clone, Copy)]
struct Ways<'a> {
    made: Option<Made<'a>>,
    receiver: Option<usize>,
    bypass: Option<usize>,
}

impl<'a> Making<'a> {
    // Takes the first message of this sender, kind and link whose maker is known.
    fn take(&mut self, from: Option<u8>, kind: Kind, link: Link) -> Option<Made<'a>> {
        let at = self.made.iter().position(|m| {
            Some(m.node) == from && m.kind == kind && m.link == Some(link) && m.router.is_some()
        })?;
        Some(self.made.remove(at))
    }

    fn sole(&self, node: u8, link: Link, other: Option<usize>) -> Option<usize> {
        sole(self.namings.as_slice(), node, link, other)
    }

    fn item(&mut self, message: &Message, kind: Kind, link: Link) -> Ways<'a> {
        let made = self.take(message.from, kind, link);
        let receiver = match (message.from, made) {
            (Some(from), _) if from != message.to => self.sole(message.to, link, None),
            (Some(_), Some(made)) => self.sole(message.to, link, made.router),
            _ => None,
        };
        Ways {
            made,
            receiver,
            bypass: None,
        }
    }

    // The only bypass message of this sender that may have this inner link.
    fn take_bypass_peer(&mut self, from: Option<u8>, link: Link) -> Option<Made<'a>> {
        let proxy = match link {
            Link::Peripheral { node, .. } => self.sole(node, link, None),
            Link::Central(_) => None,
        };
        if proxy.is_none() && !self.quiet {
            return None;
        }
        let fits = |m: &Made| {
            Some(m.node) == from
                && m.kind == Kind::BypassPeer
                && (proxy.is_none() || m.router == proxy)
        };
        if self.made.iter().filter(|m| fits(m)).count() != 1 {
            return None;
        }
        let at = self.made.iter().position(|m| fits(m))?;
        Some(self.made.remove(at))
    }

    fn bypass_peer(&mut self, message: &Message, link: Link) -> Ways<'a> {
        let made = self.take_bypass_peer(message.from, link);
        let receiver = self.sole(message.to, link, None);
        let old = made.and_then(|m| m.link);
        let bypass = old.and_then(|l| of_old_link(self.bypasses.as_slice(), l));
        if let Some(k) = bypass
            && let Some(bypass) = self.bypasses.get_mut(k)
        {
            bypass.inner = Some(link);
        }
        Ways {
            made,
            receiver,
            bypass,
        }
    }

    // The proxy of a bypass, if it is on this node.
    fn proxy_on(&self, bypass: Option<usize>, node: u8) -> Option<usize> {
        let proxy = self.bypasses.get(bypass?)?.proxy;
        if self.routers.get(proxy)?.node == node {
            Some(proxy)
        } else {
            None
        }
    }

    fn accept_bypass(&mut self, message: &Message, link: Link) -> Ways<'a> {
        let bypass = of_old_link(self.bypasses.as_slice(), link);
        let receiver = match bypass {
            Some(_) => {
                let proxy = self.proxy_on(bypass, message.to);
                self.sole(message.to, link, proxy)
            }
            None => None,
        };
        Ways {
            made: self.take(message.from, Kind::AcceptBypass, link),
            receiver,
            bypass,
        }
    }

    fn stop_proxying(&mut self, message: &Message, link: Link) -> Ways<'a> {
        let bypass = of_old_link(self.bypasses.as_slice(), link);
        Ways {
            made: self.take(message.from, Kind::StopProxying, link),
            receiver: self.proxy_on(bypass, message.to),
            bypass,
        }
    }

    fn proxy_will_stop(&mut self, message: &Message, link: Link) -> Ways<'a> {
        Ways {
            made: self.take(message.from, Kind::ProxyWillStop, link),
            receiver: self.sole(message.to, link, None),
            bypass: of_inner_link(self.bypasses.as_slice(), link),
        }
    }

    // The router that a hand was for, if the next line of a router tells.
    fn next_to_act(&self, hand: usize) -> Option<usize> {
        let receiver = self.receivers.iter().find(|r| r.hand == hand)?;
        Some(receiver.router)
    }

    fn ways(&mut self, message: &Message, kind: Kind, link: Link) -> Ways<'a> {
        match kind {
            Kind::Item(_) | Kind::Flush => self.item(message, kind, link),
            Kind::BypassPeer => self.bypass_peer(message, link),
            Kind::AcceptBypass => self.accept_bypass(message, link),
            Kind::StopProxying => self.stop_proxying(message, link),
            Kind::ProxyWillStop => self.proxy_will_stop(message, link),
        }
    }

    // The link that the next message of a bypass names, if the bypass and its router are known.
    fn reply_link(&self, kind: Kind, ways: &Ways) -> Option<Link> {
        let bypass = self.bypasses.get(ways.bypass?)?;
        match kind {
            Kind::ProxyWillStop => bypass.inner,
            _ => Some(Link::Central(bypass.word)),
        }
    }

    // Notes what was made by the hand of a message.
    fn note_reply(
        &mut self,
        message: &Message,
        ways: &Ways,
        line: usize,
    ) -> Result<(), AllocError> {
        if let Some(kind) = message.kind.and_then(reply)
            && !message.unfit
        {
            let link = self.reply_link(kind, ways);
            self.made.push(Made {
                node: message.to,
                line,
                router: message.receiver,
                kind,
                link,
                moves: b"".as_slice(),
            })?;
        }
        Ok(())
    }

    // A message that was handled at a line, with who made it and whom it was for.
    fn hand(&mut self, message: Message<'a>, line: usize) -> Result<Message<'a>, AllocError>
        ensures kept { IfOk result (KeepsWay message.entry) }
    {
        let (Some(kind), Some(link)) = (message.kind, message.link) else {
            return Ok(message);
        };
        let mut message = message;
        let ways = self.ways(&message, kind, link);
        if let Some(made) = ways.made {
            message.made = Some(made.line);
            message.maker = made.router;
            message.moves = made.moves;
        }
        if !message.unfit {
            message.receiver = ways.receiver.or(self.next_to_act(line));
        }
        self.note_reply(&message, &ways, line)?;
        Ok(message)
    }

    fn act(
        &mut self,
        node: u8,
        serial: u64,
        event: &RouterEvent<'a>,
        line: usize,
    ) -> Result<(), AllocError> {
        if let Some((kind, link, moves)) = made_by(event) {
            self.made.push(Made {
                node,
                line,
                router: find(self.routers.as_slice(), node, serial),
                kind,
                link: Some(link),
                moves,
            })?;
        }
        Ok(())
    }

    // Says what made the messages that were posted from the last settle to a line and aren't seen handled, if all since
    // then is seen.
    fn explain(&mut self, lines: &[ReadLine], messages: &mut Vec<Message<'a>>, line: usize)
        requires messages { All (IsMessage lines.now) messages.old.items }
        requires once { AreOnce lines.now messages.old.items }
        ensures each { All (IsMessage lines.now) messages.new.items }
        ensures once { AreOnce lines.now messages.new.items }
        ensures few { length messages.new.items ≡ length messages.old.items }
    {
        if self.quiet && !self.made.is_empty() {
            let part = Part {
                from: self.since,
                to: line,
            };
            explain(lines, &mut self.made, messages, part);
        }
    }

    // Ends what is known at a settle.
    fn settle(
        &mut self,
        lines: &[ReadLine],
        messages: &mut Vec<Message<'a>>,
        line: usize,
        quiet: bool,
    )
        requires messages { All (IsMessage lines.now) messages.old.items }
        requires once { AreOnce lines.now messages.old.items }
        ensures each { All (IsMessage lines.now) messages.new.items }
        ensures once { AreOnce lines.now messages.new.items }
        ensures few { length messages.new.items ≡ length messages.old.items }
    {
        self.explain(lines, messages, line);
        self.made.clear();
        self.quiet = quiet;
        self.since = line;
    }

    // Goes on by one line, and says of a message that it handles who made it and whom it was for.
    fn follow(
        &mut self,
        lines: &[ReadLine<'a>],
        i: usize,
        messages: &mut Vec<Message<'a>>,
    ) -> Result<(), AllocError>
        requires line { i < length lines.now }
        requires messages { All (IsMessage lines.now) messages.old.items }
        requires once { AreOnce lines.now messages.old.items }
        ensures each { OnOk result (All (IsMessage lines.now) messages.new.items) }
        ensures once { OnOk result (AreOnce lines.now messages.new.items) }
        ensures few { OnOk result (length messages.new.items ≡ length messages.old.items) }
    {
        let read = &lines[i];
        match &read.line {
            Line::Turn {
                node,
                event: Event::Router { serial, event },
            } => self.act(*node, *serial, event, i),
            Line::Turn {
                event: Event::Hand { .. },
                ..
            } => {
                if let Some(k) = messages.iter().position(|m| m.handled == Some(i)) {
                    messages[k] = self.hand(messages[k], i)?;
                }
                Ok(())
            }
            Line::Settled => {
                self.settle(lines, messages, i, true);
                Ok(())
            }
            Line::Unsettled => {
                self.settle(lines, messages, i, false);
                Ok(())
            }
            _ => Ok(()),
        }
    }
}

// The messages of a transcript, if besides what the lines name the links of these routers are known.
fn messages_with<'a>(
    alloc: Global,
    lines: &[ReadLine<'a>],
    routers: &[Router],
    known: &[Naming],
) -> Result<Vec<Message<'a>>, AllocError>
    ensures each { IfOk result (λ messages. All (IsMessage lines.now) messages.items) }
    ensures once { IfOk result (λ messages. AreOnce lines.now messages.items) }
    ensures few { IfOk result (λ messages. length messages.items ≤ length lines.now) }
{
    let mut messages = joined(alloc, lines)?;
    let mut named = namings(alloc, lines, routers)?;
    named.extend_from_slice(known)?;
    let mut making = Making {
        routers: Vec::from_slice(alloc, routers)?,
        namings: named,
        bypasses: bypasses(alloc, lines, routers)?,
        receivers: receivers(alloc, lines, routers)?,
        made: Vec::new(alloc),
        quiet: true,
        since: 0,
    };
    for i in 0..lines.len() {
        making.follow(lines, i, &mut messages)?;
    }
    making.explain(lines, &mut messages, lines.len());
    Ok(messages)
}

/// The messages of a transcript, in the order in which they came into sight. Which message made which router is found first, and who made
/// and got each message with that.
pub fn messages<'a>(
    alloc: Global,
    lines: &[ReadLine<'a>],
    routers: &[Router],
) -> Result<Vec<Message<'a>>, AllocError>
    ensures each { IfOk result (λ messages. All (IsMessage lines.now) messages.items) }
    ensures once { IfOk result (λ messages. AreOnce lines.now messages.items) }
    ensures few { IfOk result (λ messages. length messages.items ≤ length lines.now) }
{
    let messages = messages_with(alloc, lines, routers, &[])?;
    let known = newborns(alloc, lines, routers, messages.as_slice())?;
    if known.is_empty() {
        return Ok(messages);
    }
    messages_with(alloc, lines, routers, known.as_slice())
}
