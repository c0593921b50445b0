//! The rows: what is asked of a world, and what comes of it by docs/PROTOCOL.md.
mod bypass;
mod retiring;

use crate::moves::Ask::{Close, Get, Open, Put};
use crate::moves::Move::{Call, Holder, Settle, Turns, Words};
use crate::moves::Want::{Accepted, Closed, Got, Opened, Refused};
use crate::moves::{Move, Row};
use ipcz_base::{End, Refusal, Side};

const A0: End = End {
    pair: 0,
    side: Side::A,
};

const B0: End = End {
    pair: 0,
    side: Side::B,
};

const A1: End = End {
    pair: 1,
    side: Side::A,
};

const B1: End = End {
    pair: 1,
    side: Side::B,
};

const A2: End = End {
    pair: 2,
    side: Side::A,
};

/// The rows, each on a world of its own.
pub const ROWS: [Row; 9] = [
    Row {
        name: "two parcels on one pair",
        nodes: 1,
        words: 1,
        moves: &TWO_PARCELS,
    },
    Row {
        name: "a parcel by its node's own mailbox, and a close",
        nodes: 2,
        words: 4,
        moves: &OWN_MAILBOX,
    },
    Row {
        name: "a portal moves with what waits in it",
        nodes: 2,
        words: 4,
        moves: &MOVED,
    },
    Row {
        name: "closing, and a portal in a parcel that is dropped",
        nodes: 1,
        words: 2,
        moves: &CLOSED,
    },
    Row {
        name: "no word for an open and a proxy",
        nodes: 2,
        words: 2,
        moves: &NO_WORD,
    },
    Row {
        name: "one bypass",
        nodes: 2,
        words: 4,
        moves: &bypass::BYPASS,
    },
    Row {
        name: "a bypass that grows where it begins",
        nodes: 2,
        words: 4,
        moves: &bypass::GROWING,
    },
    Row {
        name: "a closed pair leaves its node",
        nodes: 1,
        words: 1,
        moves: &retiring::ONE_NODE,
    },
    Row {
        name: "a sink that grows where it retires",
        nodes: 2,
        words: 1,
        moves: &retiring::GROWING,
    },
];

const TWO_PARCELS: [Move; 8] = [
    Call(Open(0), Opened(0)),
    Call(Put(0, A0, b"a", &[]), Accepted(0)),
    Call(Put(0, A0, b"b", &[]), Accepted(1)),
    Call(Get(0, B0), Refused(Refusal::Empty)),
    Settle(100),
    Call(Get(0, B0), Got(0, b"a", &[])),
    Call(Get(0, B0), Got(1, b"b", &[])),
    Call(Get(0, B0), Refused(Refusal::Empty)),
];

const OWN_MAILBOX: [Move; 5] = [
    Call(Open(0), Opened(1)),
    Call(Put(0, A1, b"a", &[]), Accepted(0)),
    Turns(
        0,
        &[
            "SendOut { serial: 1, n: 0, link: Central(1), moved: Sequence { items: [] } }",
            "Post(0)",
            "Look(0)",
            "Hand { kind: Item(0), link: Central(1), unfit: false }",
            "Rest(1)",
            "Rest(2)",
        ],
    ),
    Call(Get(0, B1), Got(0, b"a", &[])),
    Call(Close(0, A1), Closed(1)),
];

// 1B moves from node 0 to node 1 while three parcels wait in it, and its proxy is bypassed.
const MOVED: [Move; 15] = [
    Call(Open(0), Opened(1)),
    Call(Put(0, A1, b"a", &[]), Accepted(0)),
    Call(Put(0, A1, b"b", &[]), Accepted(1)),
    Call(Put(0, A1, b"c", &[]), Accepted(2)),
    Call(Put(0, A1, b"d", &[]), Accepted(3)),
    Settle(100),
    Call(Get(0, B1), Got(0, b"a", &[])),
    Call(Put(0, A0, b"m", &[B1]), Accepted(0)),
    Settle(1000),
    Call(Get(1, B0), Got(0, b"m", &[B1])),
    Call(Get(1, B1), Got(1, b"b", &[])),
    Call(Get(1, B1), Got(2, b"c", &[])),
    Call(Get(1, B1), Got(3, b"d", &[])),
    Call(Get(1, B1), Refused(Refusal::Empty)),
    Words(&[3, 547, 3]),
];

// 1B travels in a parcel to 0B, which is closed: it is closed too, as its peer hears.
const CLOSED: [Move; 15] = [
    Call(Open(0), Opened(0)),
    Call(Open(0), Opened(1)),
    Call(Put(0, A0, b"c", &[B1]), Accepted(0)),
    Settle(100),
    Call(Close(0, B0), Closed(0)),
    Call(Put(0, A0, b"late", &[]), Accepted(1)),
    Settle(100),
    Call(Put(0, A0, b"more", &[]), Refused(Refusal::PeerClosed)),
    Call(Get(0, A0), Refused(Refusal::PeerClosed)),
    Call(Get(0, A1), Refused(Refusal::PeerClosed)),
    Holder(B1, None),
    Call(Get(0, B1), Refused(Refusal::Stranger)),
    Holder(B0, None),
    Call(Close(0, B0), Refused(Refusal::Stranger)),
    Holder(A1, Some(0)),
];

// The proxy of 1B finds no word and stays: what is put at 1A goes by it.
const NO_WORD: [Move; 10] = [
    Call(Open(0), Opened(1)),
    Call(Open(0), Refused(Refusal::NoWord)),
    Call(Get(0, A2), Refused(Refusal::Stranger)),
    Call(Put(0, A0, b"m", &[B1]), Accepted(0)),
    Settle(1000),
    Call(Get(1, B0), Got(0, b"m", &[B1])),
    Call(Put(0, A1, b"hi", &[]), Accepted(0)),
    Settle(1000),
    Call(Get(1, B1), Got(0, b"hi", &[])),
    Words(&[3, 3]),
];
