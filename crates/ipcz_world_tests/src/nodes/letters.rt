//! Messages that are written down before they are made.

use ipcz_base::{Bytes, Descriptor, End, Item, LinkId, Message, Parcel, Sequence, Side};
use std::alloc::{AllocError, Global};

/// A message; a parcel in it has the one byte of each put. The fields are in the order of the
/// message's, and an item's are its link, side, number, ends and moves.
#[derive(Clone, Copy)]
pub(super) enum Letter {
    Parcel(LinkId, Side, u64, &'static [End], &'static [Descriptor]),
    Mark(LinkId, Side, u64),
    Gone(LinkId, Side, u64),
    BypassPeer(LinkId, Side, u64, u8, u64),
    AcceptBypass(u64, Side, u64, u64),
    StopProxying(u64, Side, u64, u64),
    ProxyWillStop(LinkId, Side, u64),
    Flush(LinkId, Side),
}

/// A copy of some bytes, ends or descriptors.
pub(super) fn listed<T: Copy + Clone + Drop>(
    alloc: Global,
    items: &[T],
) -> Result<Sequence<T>, AllocError> {
    let mut list = Vec::new(alloc);
    list.extend_from_slice(items)?;
    Ok(Sequence::from_vec(list))
}

// A parcel of one byte with these ends.
fn parcel(alloc: Global, ends: &[End]) -> Result<Item, AllocError> {
    Ok(Item::Parcel(Parcel {
        bytes: Bytes::from_slice(alloc, b"a")?,
        ends: listed(alloc, ends)?,
    }))
}

// Whether it is the parcel of one byte with these ends.
fn is_parcel(item: &Item, ends: &[End]) -> bool {
    match item {
        Item::Parcel(parcel) => {
            parcel.bytes.as_slice() == b"a".as_slice() && parcel.ends.as_slice() == ends
        }
        Item::Mark | Item::Gone => false,
    }
}

impl Letter {
    /// The message.
    pub(super) fn message(&self, alloc: Global) -> Result<Message, AllocError> {
        match *self {
            Letter::Parcel(link, side, n, ends, moves) => Ok(Message::Item {
                link,
                side,
                n,
                item: parcel(alloc, ends)?,
                moves: listed(alloc, moves)?,
            }),
            Letter::Mark(link, side, n) => Ok(Message::Item {
                link,
                side,
                n,
                item: Item::Mark,
                moves: Sequence::from_vec(Vec::new(alloc)),
            }),
            Letter::Gone(link, side, n) => Ok(Message::Item {
                link,
                side,
                n,
                item: Item::Gone,
                moves: Sequence::from_vec(Vec::new(alloc)),
            }),
            _ => Ok(self.plain_message()),
        }
    }

    // The message, if it is of a bypass.
    fn plain_message(&self) -> Message {
        match *self {
            Letter::BypassPeer(link, side, old, target, fresh) => Message::BypassPeer {
                link,
                side,
                old,
                target,
                fresh,
            },
            Letter::AcceptBypass(old, side, fresh, length) => Message::AcceptBypass {
                old,
                side,
                fresh,
                length,
            },
            Letter::StopProxying(old, side, in_length, out_length) => Message::StopProxying {
                old,
                side,
                in_length,
                out_length,
            },
            Letter::ProxyWillStop(link, side, in_length) => Message::ProxyWillStop {
                link,
                side,
                in_length,
            },
            Letter::Parcel(link, side, ..)
            | Letter::Mark(link, side, _)
            | Letter::Gone(link, side, _)
            | Letter::Flush(link, side) => Message::Flush { link, side },
        }
    }

    /// Whether it is this message.
    pub(super) fn is(&self, message: &Message) -> bool {
        match message {
            Message::Item {
                link,
                side,
                n,
                item,
                moves,
            } => self.is_item(*link, *side, *n, item, moves.as_slice()),
            Message::BypassPeer {
                link,
                side,
                old,
                target,
                fresh,
            } => match self {
                Letter::BypassPeer(l, s, o, t, f) => *l == *link
                    && *s == *side
                    && *o == *old
                    && *t == *target
                    && *f == *fresh,
                _ => false,
            },
            Message::ProxyWillStop {
                link,
                side,
                in_length,
            } => match self {
                Letter::ProxyWillStop(l, s, length) => *l == *link
                    && *s == *side
                    && *length == *in_length,
                _ => false,
            },
            _ => self.is_answer(message),
        }
    }

    // Whether it is this item.
    fn is_item(
        &self,
        on: LinkId,
        of: Side,
        number: u64,
        what: &Item,
        moved: &[Descriptor],
    ) -> bool {
        match self {
            Letter::Parcel(link, side, n, ends, moves) => *link == on
                && *side == of
                && *n == number
                && is_parcel(what, ends)
                && *moves == moved,
            Letter::Mark(link, side, n) => *link == on
                && *side == of
                && *n == number
                && what.is_mark(),
            Letter::Gone(link, side, n) => *link == on
                && *side == of
                && *n == number
                && what.is_gone(),
            _ => false,
        }
    }

    // Whether it is this message, of those that name a central link by its word, or a Flush.
    fn is_answer(&self, message: &Message) -> bool {
        match (self, message) {
            (
                Letter::AcceptBypass(o, s, f, l),
                Message::AcceptBypass {
                    old,
                    side,
                    fresh,
                    length,
                },
            ) => *o == *old && *s == *side && *f == *fresh && *l == *length,
            (
                Letter::StopProxying(o, s, i, l),
                Message::StopProxying {
                    old,
                    side,
                    in_length,
                    out_length,
                },
            ) => *o == *old && *s == *side && *i == *in_length && *l == *out_length,
            (Letter::Flush(l, s), Message::Flush { link, side }) => *l == *link && *s == *side,
            _ => false,
        }
    }
}
