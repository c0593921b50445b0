//! The acts of routers, their answers, and what they give.

use ipcz_base::{Item, LinkEnd, Message};

/// What a router can do, in the order in which it is tried (docs/PROTOCOL.md, "Turns").
#[derive(Clone, Copy, Debug, PartialEq, Eq)]
pub enum RouterAct {
    /// Sends the current item of the out queue over a link of the outward edge.
    SendOut,
    /// Sends the current item of the in queue over a link of the inward edge.
    SendIn,
    /// Drops the current item of a sink's in queue.
    Discard,
    /// Gives the decaying link of the outward edge up.
    FinishOut,
    /// Gives the decaying link of the inward edge up.
    FinishIn,
    /// Leaves its node, since it has no link any more.
    Leave,
    /// Marks its side of the primary link stable.
    Mark,
    /// Wakes the other side, which was waiting when this side was marked.
    Wake,
    /// Claims a link word for the link of its bypass.
    Claim,
    /// Tries for the lock of its primary link.
    Lock,
    /// Begins its bypass, under that lock.
    Begin,
    /// Leaves its node under that lock, since both ends of its pair are closed, and tells the other side by [`Item::Gone`].
    Retire,
    /// Gives that lock back, if a bypass finds no memory to begin, or a sink none to retire.
    Unlock,
    /// Takes its flag away, since nothing else is possible.
    Rest,
}

/// What whoever keeps the link words answers to an act of a router (docs/PROTOCOL.md, "Turns").
///
/// A number is that of the link word after the act.
#[derive(Clone, Copy, Debug, PartialEq, Eq)]
pub enum Answer {
    /// The act touches no word.
    Plain,
    /// This word is now the router's spare one.
    Claimed(u64),
    /// Each word is claimed.
    NoWord,
    /// The side is stable, and whether the other side was waiting.
    Marked(u64, bool),
    /// The lock is given back, or the other side waits no more.
    Word(u64),
    /// The side holds the lock.
    Locked(u64),
    /// The side waits for the other side to be stable.
    Waiting(u64),
    /// The lock is held already.
    Refused(u64),
}

/// What an act of a router gives to its node (docs/PROTOCOL.md, "Turns").
#[derive(Debug, Drop)]
pub enum Applied {
    Nothing,
    /// An item with its number, which is to go over a link.
    Sent(LinkEnd, u64, Item),
    /// A message, and the node that it is for.
    Message(u8, Message),
    /// An item that a sink drops, with its number: the ends in it are to be closed.
    Discarded(u64, Item),
}
