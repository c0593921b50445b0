//! What the lines of a transcript are made of.

/// The side of a pair of portals.
#[derive(Clone, Copy, Debug, PartialEq, Eq)]
pub enum Side {
    A,
    B,
}

/// One end of a pair, as `3B`.
#[derive(Clone, Copy, Debug, PartialEq, Eq)]
pub struct End {
    pub pair: u16,
    pub side: Side,
}

/// A link: the central one of a word, as `C3`, or one that a node made when an end moved, as `P0.1`.
#[derive(Clone, Copy, Debug, PartialEq, Eq)]
pub enum Link {
    Central(u16),
    Peripheral { node: u8, serial: u64 },
}

/// Away from the router's own portal, or towards it.
#[derive(Clone, Copy, Debug, PartialEq, Eq)]
pub enum Way {
    Out,
    In,
}

/// What a router did with a link word.
#[derive(Clone, Copy, Debug, PartialEq, Eq)]
pub enum WordStep {
    Mark,
    Wake,
    Lock,
    Wait,
    Refused,
    Unlock,
}

/// The kind of a message, of an item with its number.
#[derive(Clone, Copy, Debug, PartialEq, Eq)]
pub enum Kind {
    Item(u64),
    BypassPeer,
    AcceptBypass,
    StopProxying,
    ProxyWillStop,
    Flush,
}

/// Why a command or a turn was refused.
#[derive(Clone, Copy, Debug, PartialEq, Eq)]
pub enum Refusal {
    OutOfMemory,
    Empty,
    PeerClosed,
    NoWord,
    SelfAttach,
    PeerAttach,
    Stranger,
    NumbersEnd,
    BadData,
    TooMany,
    Raced,
    Occupied,
    Passed,
    Forged,
    UnknownName,
    Away,
}

/// What a put or a close was answered.
#[derive(Clone, Copy, Debug, PartialEq, Eq)]
pub enum Answer {
    Number(u64),
    Refused(Refusal),
}

/// Why a script was none.
#[derive(Clone, Copy, Debug, PartialEq, Eq)]
pub enum Fault {
    NotJson,
    TooLong,
    /// The first command that is none, counted from 1; or 0.
    BadShape(u64),
}
