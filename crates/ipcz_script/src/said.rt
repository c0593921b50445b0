//! What a command is answered.
use ipcz_base::{Parcel, Refusal, Sequence};
use ipcz_world::Reply;

/// What a command is answered (docs/SCRIPTS.md, "The transcript").
#[derive(Debug, Drop)]
pub enum Said {
    /// The pair is opened.
    Opened,
    /// The number of the parcel.
    Put(u64),
    /// A parcel, with its number.
    Got(u64, Parcel),
    /// The number of the mark.
    Closed(u64),
    /// The reply to each turn.
    Turned(Sequence<Reply>),
    /// Nothing waits any more.
    Settled,
    /// The limit was reached, or a turn was refused.
    Unsettled,
    /// The claimed link words.
    Words(Sequence<u64>),
    /// A name of the command isn't bound.
    UnknownName,
    /// No caller holds the portal.
    Away,
    /// The call was refused.
    Refused(Refusal),
}
