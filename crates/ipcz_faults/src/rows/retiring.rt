//! Pairs whose both ends are closed, each turn of them with what it is seen to do; of one the first sink has to grow when it retires.

use super::{A0, B0};
use crate::moves::Ask::{Close, Open, Put};
use crate::moves::Move;
use crate::moves::Move::{Call, Holder, Turns, Words};
use crate::moves::Want::{Accepted, Closed, Opened};

// Each end hears the other's mark. The first to have dropped it locks the link and retires, and Gone takes the other away.
pub const ONE_NODE: [Move; 7] = [
    Call(Open(0), Opened(0)),
    Call(Close(0, A0), Closed(0)),
    Call(Close(0, B0), Closed(0)),
    Turns(
        0,
        &[
            "SendOut { serial: 0, n: 0, link: Central(0), moved: Sequence { items: [] } }",
            "Post(0)",
            "Look(0)",
            "Hand { kind: Item(0), link: Central(0), unfit: false }",
            "Rest(0)",
            "SendOut { serial: 1, n: 0, link: Central(0), moved: Sequence { items: [] } }",
            "Post(0)",
            "Look(0)",
            "Hand { kind: Item(0), link: Central(0), unfit: false }",
            "Discard(0, 0)",
            "Lock(0, Central(0), 19)",
            "Retire(0, 1, Central(0))",
            "Post(0)",
            "Look(0)",
            "Hand { kind: Item(1), link: Central(0), unfit: false }",
            "Discard(1, 0)",
            "DiscardLeave(1, 1)",
            "Idle",
        ],
    ),
    Holder(A0, None),
    Holder(B0, None),
    Words(&[19]),
];

// The mark waits to be posted behind a parcel when the sink of 0B retires, so that Gone finds the outbox in use.
pub const GROWING: [Move; 11] = [
    Call(Put(1, B0, b"a", &[]), Accepted(0)),
    Call(Close(1, B0), Closed(1)),
    Call(Close(0, A0), Closed(0)),
    Turns(
        0,
        &[
            "SendOut { serial: 0, n: 0, link: Central(0), moved: Sequence { items: [] } }",
            "Post(1)",
            "Rest(0)",
            "Idle",
        ],
    ),
    Turns(
        1,
        &[
            "Look(0)",
            "Hand { kind: Item(0), link: Central(0), unfit: false }",
            "SendOut { serial: 0, n: 0, link: Central(0), moved: Sequence { items: [] } }",
            "Post(0)",
            "SendOut { serial: 0, n: 1, link: Central(0), moved: Sequence { items: [] } }",
            "Discard(0, 0)",
            "Lock(0, Central(0), 35)",
            "Retire(0, 2, Central(0))",
            "Idle",
        ],
    ),
    Turns(
        0,
        &[
            "Look(1)",
            "Hand { kind: Item(0), link: Central(0), unfit: false }",
            "Discard(0, 0)",
            "Rest(0)",
            "Idle",
        ],
    ),
    Turns(1, &["Post(0)", "Idle"]),
    Turns(
        0,
        &[
            "Look(1)",
            "Hand { kind: Item(1), link: Central(0), unfit: false }",
            "Discard(0, 1)",
            "Refused(0, Central(0), 35)",
            "Rest(0)",
            "Idle",
        ],
    ),
    Turns(1, &["Post(0)", "Idle"]),
    Turns(
        0,
        &[
            "Look(1)",
            "Hand { kind: Item(2), link: Central(0), unfit: false }",
            "DiscardLeave(0, 2)",
            "Idle",
        ],
    ),
    Words(&[35]),
];
