//! What a router does in a turn, with the answer of the words, and what that gives.

ghost use Rattle.std.specs.Prelude.{IfSome};
ghost use Rattle.ipcz_router.specs.ActEffects.{IsAnswerOf};

use super::{is_item, prints};
use ipcz_base::{Item, LinkEnd, Message};
use ipcz_router::Router;
use ipcz_router::act::{Answer, Applied, RouterAct};
use std::alloc::{AllocError, Global};

/// An act of a router with an answer of its kind.
#[derive(Clone, Copy)]
pub(super) enum Deed {
    /// A word is claimed.
    Claim(u64),
    /// No word is left to claim.
    ClaimNoWord,
    /// The side is marked, and whether the other one was waiting.
    Mark(u64, bool),
    Wake(u64),
    Lock(u64),
    Wait(u64),
    Refused(u64),
    /// An act that touches no word.
    Plain(RouterAct),
}

/// What an act gives to its node.
#[derive(Clone, Copy)]
pub(super) enum Given {
    Nothing,
    /// An item of this byte, or a mark, under its number over a link.
    Sent(LinkEnd, u64, Option<u8>),
    /// Gone under its number over a link.
    SentGone(LinkEnd, u64),
    /// An item that is dropped.
    Discarded(u64, Option<u8>),
    /// Gone that is dropped.
    DiscardedGone(u64),
    /// A message as it prints, and the node that it is for.
    Told(u8, &'static str),
}

// The act with the answer.
fn act_of(deed: Deed) -> Option<(RouterAct, Answer)>
    ensures { IfSome result (λ told. IsAnswerOf told.0 told.1) }
{
    match deed {
        Deed::Claim(word) => Some((RouterAct::Claim, Answer::Claimed(word))),
        Deed::ClaimNoWord => Some((RouterAct::Claim, Answer::NoWord)),
        Deed::Mark(word, was_waiting) => Some((RouterAct::Mark, Answer::Marked(word, was_waiting))),
        Deed::Wake(word) => Some((RouterAct::Wake, Answer::Word(word))),
        Deed::Lock(word) => Some((RouterAct::Lock, Answer::Locked(word))),
        Deed::Wait(word) => Some((RouterAct::Lock, Answer::Waiting(word))),
        Deed::Refused(word) => Some((RouterAct::Lock, Answer::Refused(word))),
        Deed::Plain(act) => plain(act),
    }
}

// An act that touches no word.
fn plain(act: RouterAct) -> Option<(RouterAct, Answer)>
    ensures { IfSome result (λ told. IsAnswerOf told.0 told.1) }
{
    match act {
        RouterAct::Claim
        | RouterAct::Mark
        | RouterAct::Wake
        | RouterAct::Lock
        | RouterAct::Unlock => None,
        _ => Some((act, Answer::Plain)),
    }
}

// Does the act that is the first possible one, if it is this one.
fn apply(router: &mut Router, deed: Deed) -> Option<Applied> {
    let (act, answer) = act_of(deed)?;
    if router.next_act() != act {
        return None;
    }
    Some(router.apply(act, answer))
}

/// Sends what is to be sent by the first possible act, if it is this one.
pub(super) fn sent(router: &mut Router, deed: Deed) -> Option<(LinkEnd, u64, Item)> {
    match apply(router, deed)? {
        Applied::Sent(link, n, item) => Some((link, n, item)),
        _ => None,
    }
}

// Whether an act gave this.
fn is_given(applied: &Applied, alloc: Global, given: Given) -> Result<bool, AllocError> {
    match (applied, given) {
        (Applied::Nothing, Given::Nothing) => Ok(true),
        (Applied::Sent(link, n, item), Given::Sent(over, number, byte)) => {
            Ok(*link == over && *n == number && is_item(item, byte))
        }
        (Applied::Sent(link, n, item), Given::SentGone(over, number)) => {
            Ok(*link == over && *n == number && item.is_gone())
        }
        (Applied::Discarded(n, item), Given::Discarded(number, byte)) => {
            Ok(*n == number && is_item(item, byte))
        }
        (Applied::Discarded(n, item), Given::DiscardedGone(number)) => {
            Ok(*n == number && item.is_gone())
        }
        (Applied::Message(to, message), Given::Told(node, text)) => {
            Ok(*to == node && prints(alloc, message, text)?)
        }
        _ => Ok(false),
    }
}

/// Does the first possible act; whether it is this one, and gives this.
pub(super) fn gives(
    router: &mut Router,
    alloc: Global,
    deed: Deed,
    given: Given,
) -> Result<bool, AllocError> {
    match apply(router, deed) {
        Some(applied) => is_given(&applied, alloc, given),
        None => Ok(false),
    }
}

/// In place of the begin or the retire that comes first, gives the lock back; whether that gives nothing.
pub(super) fn unlocks(router: &mut Router, word: u64) -> bool {
    matches!(router.next_act(), RouterAct::Begin | RouterAct::Retire)
        && router.is_possible(RouterAct::Unlock)
        && matches!(
            router.apply(RouterAct::Unlock, Answer::Word(word)),
            Applied::Nothing
        )
}
