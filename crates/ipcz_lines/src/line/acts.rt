//! Reading what a turn was: the events of nodes and of their routers.

ghost use Rattle.std.specs.Prelude.{All, IsTrue, ◌↔◌, ◌≡◌, ◌≢◌, codes};
ghost use Rattle.ipcz_lines.specs.LineParts.{AreParted, IsEndText, IsKind, IsWordNumber, Reads, fate_text, kind_text, link_text, step_text};
ghost use Rattle.ipcz_lines.specs.LineParts.{way_text, IsLink};
ghost use Rattle.ipcz_lines.specs.Lines.{AreMoves, IsAct, IsEvent, IsRouterEvent, IsWordAct, act_text, and_more, central_text, event_text};
ghost use Rattle.ipcz_lines.specs.Lines.{moves_text, spaced};

use crate::line::parts::{Kind, Link, Way, WordStep};
use crate::line::words::{are_ends, end, halves, link, node, number, refusal, word};
use crate::line::{Event, RouterEvent};

fn way(bytes: &[u8]) -> Option<Way>
    ensures { Reads way_text (λ _. Unit {0}) bytes.now result }
{
    match bytes {
        b"out" => Some(Way::Out),
        b"in" => Some(Way::In),
        _ => None,
    }
}

fn moves(bytes: &[u8]) -> Option<&[u8]>
    ensures { Reads (λ ends. spaced (codes "moves") ends.now) (λ ends. AreParted IsEndText 44 ends.now) bytes.now result }
{
    match halves(bytes, b' ')? {
        (first, ends) if first == b"moves".as_slice() && are_ends(ends) => Some(ends),
        _ => None,
    }
}

fn link_and_moves(bytes: &[u8]) -> Option<(Link, &[u8])>
    ensures { Reads (λ x. and_more (link_text x.0) (moves_text x.1.now)) (λ x. IsLink x.0 × AreMoves x.1.now) bytes.now result }
{
    match halves(bytes, b' ') {
        None => Some((link(bytes)?, b"".as_slice())),
        Some((first, rest)) => {
            let link = link(first)?;
            let ends = moves(rest)?;
            Some((link, ends))
        }
    }
}

fn sent(bytes: &[u8]) -> Option<RouterEvent<'_>>
    ensures { Reads act_text IsAct (spaced (codes "send") bytes.now) result }
{
    let (first, rest) = halves(bytes, b' ')?;
    let (second, rest) = halves(rest, b' ')?;
    let (link, moves) = link_and_moves(rest)?;
    Some(RouterEvent::Send {
        way: way(first)?,
        number: number(second)?,
        link,
        moves,
    })
}

fn discarded(bytes: &[u8]) -> Option<RouterEvent<'_>>
    ensures { Reads act_text IsAct (spaced (codes "discard") bytes.now) result }
{
    match halves(bytes, b' ') {
        None => Some(RouterEvent::Discard {
            number: number(bytes)?,
            leaves: false,
        }),
        Some((first, rest)) if rest == b"leave".as_slice() => Some(RouterEvent::Discard {
            number: number(first)?,
            leaves: true,
        }),
        Some(_) => None,
    }
}

fn finished(bytes: &[u8]) -> Option<RouterEvent<'_>>
    ensures { Reads act_text IsAct (spaced (codes "finish") bytes.now) result }
{
    let (first, rest) = halves(bytes, b' ')?;
    Some(RouterEvent::Finish {
        way: way(first)?,
        link: link(rest)?,
    })
}

fn retired(bytes: &[u8]) -> Option<RouterEvent<'_>>
    ensures { Reads act_text IsAct (spaced (codes "retire") bytes.now) result }
{
    let (first, rest) = halves(bytes, b' ')?;
    Some(RouterEvent::Retire {
        number: number(first)?,
        link: link(rest)?,
    })
}

fn claimed(bytes: &[u8]) -> Option<RouterEvent<'_>>
    ensures { Reads act_text IsAct (spaced (codes "claim") bytes.now) result }
{
    if bytes == b"NoWord".as_slice() {
        return Some(RouterEvent::Claim { word: None });
    }
    Some(RouterEvent::Claim {
        word: Some(word(bytes)?),
    })
}

fn central(bytes: &[u8]) -> Option<u16>
    ensures { Reads central_text IsWordNumber bytes.now result }
{
    match bytes {
        [b'C', rest @ ..] => word(rest),
        _ => None,
    }
}

fn step(bytes: &[u8]) -> Option<WordStep>
    ensures { Reads step_text (λ _. Unit {0}) bytes.now result }
{
    match bytes {
        b"mark" => Some(WordStep::Mark),
        b"wake" => Some(WordStep::Wake),
        b"lock" => Some(WordStep::Lock),
        b"wait" => Some(WordStep::Wait),
        b"refused" => Some(WordStep::Refused),
        b"unlock" => Some(WordStep::Unlock),
        _ => None,
    }
}

fn stepped(first: &[u8], bytes: &[u8]) -> Option<RouterEvent<'static>>
    requires one_word { All (λ b. b ≢ 32) first.now }
    ensures { Reads act_text IsWordAct (spaced first.now bytes.now) result }
{
    let (second, third) = halves(bytes, b' ')?;
    Some(RouterEvent::Word {
        step: step(first)?,
        word: central(second)?,
        after: word(third)?,
    })
}

/// What a router did, as it stands behind the router's number.
fn act(bytes: &[u8]) -> Option<RouterEvent<'_>>
    ensures { Reads act_text IsAct bytes.now result }
{
    match halves(bytes, b' ') {
        None if bytes == b"leave".as_slice() => Some(RouterEvent::Leave),
        None if bytes == b"rest".as_slice() => Some(RouterEvent::Rest),
        None => None,
        Some((first, rest)) if first == b"send".as_slice() => sent(rest),
        Some((first, rest)) if first == b"discard".as_slice() => discarded(rest),
        Some((first, rest)) if first == b"finish".as_slice() => finished(rest),
        Some((first, rest)) if first == b"retire".as_slice() => retired(rest),
        Some((first, rest)) if first == b"claim".as_slice() => claimed(rest),
        Some((first, rest)) if first == b"begin".as_slice() => Some(RouterEvent::Begin {
            word: central(rest)?,
        }),
        Some((first, rest)) => stepped(first, rest),
    }
}

fn kind(bytes: &[u8]) -> Option<Kind>
    requires one_word { All (λ b. b ≢ 32) bytes.now }
    ensures { Reads kind_text IsKind bytes.now result }
{
    match bytes {
        _ if bytes == b"BypassPeer".as_slice() => Some(Kind::BypassPeer),
        _ if bytes == b"Flush".as_slice() => Some(Kind::Flush),
        _ if bytes == b"AcceptBypass".as_slice() => Some(Kind::AcceptBypass),
        _ if bytes == b"StopProxying".as_slice() => Some(Kind::StopProxying),
        _ if bytes == b"ProxyWillStop".as_slice() => Some(Kind::ProxyWillStop),
        _ => None,
    }
}

fn is_fate(kind: Kind, bytes: &[u8]) -> bool
    ensures { IsTrue result ↔ (fate_text kind ≡ bytes.now) }
{
    match kind {
        Kind::Flush => bytes == b"dropped".as_slice(),
        _ => bytes == b"stray".as_slice(),
    }
}

fn handed_to(kind: Kind, bytes: &[u8]) -> Option<Event<'static>>
    requires { IsKind kind }
    ensures { Reads event_text IsEvent (spaced (codes "hand") (spaced (kind_text kind) bytes.now)) result }
{
    match halves(bytes, b' ') {
        None => Some(Event::Hand {
            kind,
            link: link(bytes)?,
            unfit: false,
        }),
        Some((first, fate)) if is_fate(kind, fate) => Some(Event::Hand {
            kind,
            link: link(first)?,
            unfit: true,
        }),
        Some(_) => None,
    }
}

fn handed(bytes: &[u8]) -> Option<Event<'static>>
    ensures { Reads event_text IsEvent (spaced (codes "hand") bytes.now) result }
{
    match halves(bytes, b' ')? {
        (first, rest) if first == b"item".as_slice() => {
            let (first, rest) = halves(rest, b' ')?;
            handed_to(Kind::Item(number(first)?), rest)
        }
        (first, rest) => handed_to(kind(first)?, rest),
    }
}

fn router<'a>(first: &[u8], bytes: &'a [u8]) -> Option<Event<'a>>
    requires one_word { All (λ b. b ≢ 32) first.now }
    ensures { Reads event_text IsRouterEvent (spaced first.now bytes.now) result }
{
    match first {
        [b'r', digits @ ..] => Some(Event::Router {
            serial: number(digits)?,
            event: act(bytes)?,
        }),
        _ => None,
    }
}

fn alone(bytes: &[u8]) -> Option<Event<'static>>
    requires one_word { All (λ b. b ≢ 32) bytes.now }
    ensures { Reads event_text IsEvent bytes.now result }
{
    if bytes == b"idle".as_slice() {
        return Some(Event::Idle);
    }
    Some(Event::Refused(refusal(bytes)?))
}

fn looked(bytes: &[u8]) -> Option<Event<'static>>
    ensures { Reads event_text IsEvent (spaced (codes "look") bytes.now) result }
{
    Some(Event::Look {
        sender: node(bytes)?,
    })
}

fn posted(bytes: &[u8]) -> Option<Event<'static>>
    ensures { Reads event_text IsEvent (spaced (codes "post") bytes.now) result }
{
    Some(Event::Post {
        destination: node(bytes)?,
    })
}

fn closed(bytes: &[u8]) -> Option<Event<'static>>
    ensures { Reads event_text IsEvent (spaced (codes "close") bytes.now) result }
{
    Some(Event::Close { end: end(bytes)? })
}

/// What a turn was, as it stands behind the node's number.
pub fn event(bytes: &[u8]) -> Option<Event<'_>>
    ensures { Reads event_text IsEvent bytes.now result }
{
    match halves(bytes, b' ') {
        None => alone(bytes),
        Some((first, rest)) if first == b"hand".as_slice() => handed(rest),
        Some((first, rest)) if first == b"look".as_slice() => looked(rest),
        Some((first, rest)) if first == b"post".as_slice() => posted(rest),
        Some((first, rest)) if first == b"close".as_slice() => closed(rest),
        Some((first, rest)) => router(first, rest),
    }
}
