//! What makes messages.

use ipcz_lines::{Kind, Link, RouterEvent, WordStep};

/// A message that was made and not yet handled: the node and the line that made it, the router if it's known, and what is
/// known of the message.
#[derive(Clone, Copy)]
pub struct Made<'a> {
    pub node: u8,
    pub line: usize,
    pub router: Option<usize>,
    pub kind: Kind,
    pub link: Option<Link>,
    pub moves: &'a [u8],
}

/// The kind, the link and the ends that move with it of the message that a router's act makes.
pub fn made_by<'a>(event: &RouterEvent<'a>) -> Option<(Kind, Link, &'a [u8])> {
    match event {
        RouterEvent::Send {
            number,
            link,
            moves,
            ..
        } => Some((Kind::Item(*number), *link, moves)),
        RouterEvent::Retire { number, link } => Some((Kind::Item(*number), *link, b"".as_slice())),
        RouterEvent::Begin { word } => {
            Some((Kind::BypassPeer, Link::Central(*word), b"".as_slice()))
        }
        RouterEvent::Word {
            step: WordStep::Wake,
            word,
            ..
        } => Some((Kind::Flush, Link::Central(*word), b"".as_slice())),
        _ => None,
    }
}

/// What the router that handles a message of a bypass sends in turn.
pub fn reply(kind: Kind) -> Option<Kind> {
    match kind {
        Kind::BypassPeer => Some(Kind::AcceptBypass),
        Kind::AcceptBypass => Some(Kind::StopProxying),
        Kind::StopProxying => Some(Kind::ProxyWillStop),
        Kind::Item(_) | Kind::ProxyWillStop | Kind::Flush => None,
    }
}
