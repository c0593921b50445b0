//! What a row asks of a world, and what it says that comes of it.
use ipcz_base::{End, Refusal};

/// A step of a world: at which node, and for a put, a get and a close at which end.
#[derive(Clone, Copy)]
pub enum Ask {
    Open(u8),
    /// With the bytes of the parcel, and the ends that travel in it.
    Put(u8, End, &'static [u8], &'static [End]),
    Get(u8, End),
    Close(u8, End),
    Turn(u8),
}

/// What a step is answered.
#[derive(Clone, Copy)]
pub enum Want {
    /// The ends of the pair of this number.
    Opened(u64),
    /// The number of the parcel that was put.
    Accepted(u64),
    /// The parcel that is got: its number, its bytes and its ends.
    Got(u64, &'static [u8], &'static [End]),
    /// The number of the mark.
    Closed(u64),
    Refused(Refusal),
    /// What a turn did, as its value prints.
    Turned(&'static str),
}

/// A move of a row.
#[derive(Clone, Copy)]
pub enum Move {
    /// A step, with its answer.
    Call(Ask, Want),
    /// Turns of a node, which do this as their values print.
    Turns(u8, &'static [&'static str]),
    /// The nodes act until all is quiet, and take no more acts than this.
    Settle(u64),
    /// The claimed words have these numbers.
    Words(&'static [u64]),
    /// The node whose callers hold an end.
    Holder(End, Option<u8>),
}

/// A run of a world of so many nodes and link words.
pub struct Row {
    pub name: &'static str,
    pub nodes: u8,
    pub words: u32,
    pub moves: &'static [Move],
}
