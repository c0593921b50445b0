//! What a seat knows of the table, for proofs alone.
use crate::history::{CallerView, Entry};
use crate::node::PlainNode;
use ipcz_base::{End, Item, Message, Parcel};
use std::collections::LinkedList;

/// What a seat says of one node. No value of it is made.
pub struct Part {
    /// The node's number.
    pub node: u64,
    pub state: PlainNode,
    /// The message in the node's hand.
    pub message: Option<Message>,
    /// The nodes whose empty mailbox from this one its seat has.
    pub probed: LinkedList<u64>,
    /// What its seat still has of batches, by sender, behind the message in hand.
    pub batches: LinkedList<LinkedList<Message>>,
    /// The items that were put here, by end and number.
    pub put: LinkedList<((End, u64), Item)>,
    /// The parcels that were got here, by end and number.
    pub got: LinkedList<((End, u64), Parcel)>,
    /// The items that sinks dropped here, by end and number.
    pub gone: LinkedList<(End, u64)>,
    /// What was called here by callers whose calls are kept, in order.
    pub history: LinkedList<Entry>,
}

/// What a seat knows. No value of it is made.
pub struct View {
    pub parts: LinkedList<Part>,
    /// What its loads and exchanges found: the word and its value.
    pub seen: LinkedList<(u64, u64)>,
    /// The node whose inbox it has just found, or left, with the bit of its own node set. With each other step that is forgotten.
    pub announced: Option<u64>,
    /// What a caller knows that has the seat, or has lent its view to it.
    pub caller: Option<CallerView>,
}
