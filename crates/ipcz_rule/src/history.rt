//! The history of a table's nodes, for proofs alone.
use crate::node::PlainNode;
use crate::retry::Retry;
use ipcz_base::{End, Parcel, Profile, Refusal};
use ipcz_node::Happened;
use std::collections::LinkedList;

/// What was called at a node, and what it answered. No value of it is made.
pub enum Call {
    /// The node was put behind a lock in this state.
    Entered(PlainNode),
    /// A pair was opened.
    Opened(Result<(End, End), Refusal>),
    /// A turn was taken.
    Turned(Result<Happened, Refusal>),
    /// Turns were taken, at most so many.
    Acted(u64, Result<u64, Refusal>),
    /// A proxy was let ask again for its slot.
    Retried(Retry),
    /// A parcel of a profile was put at an end.
    Put(Profile, End, LinkedList<u8>, LinkedList<End>, Result<u64, Refusal>),
    /// A parcel was got at an end, with room for its portals.
    Got(End, Result<(u64, Parcel), Refusal>),
    /// A parcel was taken at an end, without room for its portals.
    Taken(End, Result<(u64, Parcel), Refusal>),
    /// An end was closed.
    Closed(End, Result<u64, Refusal>),
}

/// An entry of the history: at which node, by which caller, and what. No value of it is made.
pub struct Entry {
    pub node: u64,
    pub by: u64,
    pub call: Call,
}

/// What a caller knows: its number, the beginning of the history that it has seen, and its own calls. No value of it is made.
pub struct CallerView {
    pub id: u64,
    pub seen: LinkedList<Entry>,
    pub mine: LinkedList<Entry>,
}
