//! The lines of a transcript: what each says (docs/SCRIPTS.md, "The transcript" and "Events").
//!
//! A line refers to the bytes that it was read from for names, lists and data. Every number in it is one of 64 bits at most,
//! as all of a run are.

mod acts;
mod parts;
mod reading;
mod words;

pub use acts::event as read_event;
pub use parts::{Answer, End, Fault, Kind, Link, Refusal, Side, Way, WordStep};
pub use reading::read;
pub use words::{end, halves, number, word};

/// What a router did in a turn of its node.
#[derive(Clone, Copy)]
pub enum RouterEvent<'a> {
    /// Sent an item on a link; `moves` are the ends that went with it, as `1A,1B`, or nothing.
    Send {
        way: Way,
        number: u64,
        link: Link,
        moves: &'a [u8],
    },
    /// Discarded an item, and left with it if that was the last one.
    Discard {
        number: u64,
        leaves: bool,
    },
    /// Finished a decaying edge.
    Finish {
        way: Way,
        link: Link,
    },
    Leave,
    Rest,
    /// Changed or asked the word of a central link; `after` is the word's value after that.
    Word {
        step: WordStep,
        word: u16,
        after: u16,
    },
    /// Claimed a word, if there was one.
    Claim {
        word: Option<u16>,
    },
    /// Began the bypass of the central link of a word.
    Begin {
        word: u16,
    },
    /// Sent the item behind its mark, and left.
    Retire {
        number: u64,
        link: Link,
    },
}

/// What a turn of a node was.
#[derive(Clone, Copy)]
pub enum Event<'a> {
    /// Handled a message; an unfit one became a stray, or was dropped if it was a flush.
    Hand { kind: Kind, link: Link, unfit: bool },
    Look { sender: u8 },
    Post { destination: u8 },
    Close { end: End },
    Router { serial: u64, event: RouterEvent<'a> },
    Idle,
    Refused(Refusal),
}

/// A line of a transcript.
#[derive(Clone, Copy)]
pub enum Line<'a> {
    /// A pair was opened under two names, or not.
    Open {
        first: &'a [u8],
        second: &'a [u8],
        refusal: Option<Refusal>,
    },
    Put {
        name: &'a [u8],
        answer: Answer,
    },
    Close {
        name: &'a [u8],
        answer: Answer,
    },
    /// A get that got nothing.
    Missed {
        name: &'a [u8],
        refusal: Refusal,
    },
    /// A get that got a parcel; `names` are the names of its portals, as `x,y`, or nothing; `data` stands without its quotes.
    Got {
        name: &'a [u8],
        number: u64,
        names: &'a [u8],
        data: &'a [u8],
    },
    Turn {
        node: u8,
        event: Event<'a>,
    },
    Settled,
    Unsettled,
    /// The values of the claimed words, with a space between each two.
    Words(&'a [u8]),
    /// The script was none.
    Refused(Fault),
}

/// A line with its text, without the line feed.
#[derive(Clone, Copy)]
pub struct ReadLine<'a> {
    pub text: &'a [u8],
    pub line: Line<'a>,
}

/// Why bytes weren't read as a transcript.
#[derive(Clone, Copy, Debug, PartialEq, Eq)]
pub enum Unread {
    OutOfMemory,
    /// The first line that is of no known form, counted from 1; or 0, if there are too many bytes.
    Refused { line: usize },
}

/// The most bytes of a transcript that is read.
pub const LONGEST: usize = 262_144;
