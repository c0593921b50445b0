//! One bypass, each turn of it with what it is seen to do; and one of which the begin has to grow.

use super::{A0, A1, B0, B1};
use crate::moves::Ask::{Get, Open, Put};
use crate::moves::Move;
use crate::moves::Move::{Call, Settle, Turns, Words};
use crate::moves::Want::{Accepted, Got, Opened};

// The terminal of 1B moves from node 0 to node 1, and the proxy that it leaves, router 2, is bypassed: C1 by C2. What is put at the moved end
// comes over the new link.
pub const BYPASS: [Move; 15] = [
    Call(Open(0), Opened(1)),
    Call(Put(0, A0, b"m", &[B1]), Accepted(0)),
    Turns(
        0,
        &[
            "SendOut { serial: 0, n: 0, link: Central(0), moved: Sequence { items: [End { pair: 1, side: B }] } }",
            "Post(1)",
            "Rest(0)",
            "Claim(2, 2)",
            "Lock(2, Central(1), 547)",
            "Begin(2, Central(1))",
            "Rest(2)",
            "Idle",
        ],
    ),
    Words(&[3, 547, 0]),
    Turns(1, &ITEM),
    Turns(0, &["Post(1)", "Idle"]),
    Turns(1, &ASKED),
    Turns(0, &PROXY_LEAVES),
    Words(&[3, 547, 1]),
    Turns(1, &STOPPED),
    Words(&[3, 547, 3]),
    Call(Get(1, B0), Got(0, b"m", &[B1])),
    Call(Put(1, B1, b"r", &[]), Accepted(0)),
    Settle(100),
    Call(Get(0, A1), Got(0, b"r", &[])),
];

// The parcel comes to node 1.
const ITEM: [&str; 4] = [
    "Look(0)",
    "Hand { kind: Item(0), link: Central(0), unfit: false }",
    "Rest(0)",
    "Idle",
];

// Node 1 is told whom to take for its peer, and tells that peer.
const ASKED: [&str; 5] = [
    "Look(0)",
    "Hand { kind: BypassPeer, link: Peripheral { node: 0, serial: 0 }, unfit: false }",
    "Post(0)",
    "Rest(1)",
    "Idle",
];

// Node 0 takes the new link, and its proxy leaves.
const PROXY_LEAVES: [&str; 13] = [
    "Look(1)",
    "Hand { kind: AcceptBypass, link: Central(1), unfit: false }",
    "Post(0)",
    "Look(0)",
    "Hand { kind: StopProxying, link: Central(1), unfit: false }",
    "Post(1)",
    "FinishOut(1, Central(1))",
    "Mark(1, Central(2), 1)",
    "Rest(1)",
    "FinishOut(2, Central(1))",
    "FinishIn(2, Peripheral { node: 0, serial: 0 })",
    "Leave(2)",
    "Idle",
];

// Node 1 gives up the link to the proxy.
const STOPPED: [&str; 5] = [
    "Look(0)",
    "Hand { kind: ProxyWillStop, link: Peripheral { node: 0, serial: 0 }, unfit: false }",
    "FinishOut(1, Peripheral { node: 0, serial: 0 })",
    "Mark(1, Central(2), 3)",
    "Rest(1)",
];

// A second parcel waits for node 1 when the bypass begins, so that its first message finds the outbox in use.
pub const GROWING: [Move; 16] = [
    Call(Open(0), Opened(1)),
    Call(Put(0, A0, b"m", &[B1]), Accepted(0)),
    Call(Put(0, A0, b"n", &[]), Accepted(1)),
    Turns(
        0,
        &[
            "SendOut { serial: 0, n: 0, link: Central(0), moved: Sequence { items: [End { pair: 1, side: B }] } }",
            "Post(1)",
            "SendOut { serial: 0, n: 1, link: Central(0), moved: Sequence { items: [] } }",
            "Rest(0)",
            "Claim(2, 2)",
            "Lock(2, Central(1), 547)",
            "Begin(2, Central(1))",
            "Rest(2)",
            "Idle",
        ],
    ),
    Words(&[3, 547, 0]),
    Turns(1, &ITEM),
    Turns(0, &["Post(1)", "Idle"]),
    Turns(
        1,
        &[
            "Look(0)",
            "Hand { kind: Item(1), link: Central(0), unfit: false }",
            "Rest(0)",
            "Idle",
        ],
    ),
    Turns(0, &["Post(1)", "Idle"]),
    Settle(100),
    Words(&[3, 547, 3]),
    Call(Get(1, B0), Got(0, b"m", &[B1])),
    Call(Get(1, B0), Got(1, b"n", &[])),
    Call(Put(1, B1, b"r", &[]), Accepted(0)),
    Settle(100),
    Call(Get(0, A1), Got(0, b"r", &[])),
];
