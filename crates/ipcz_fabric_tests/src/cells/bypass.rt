//! One bypass, each turn of it with what it is seen to do.

use super::Call::{Get, Open, Put, Turns};
use super::{A0, A1, B0, B1, Call, routers_of};

// The terminal of 1B moves from node 0 to node 1, and the proxy it leaves, router 2, is bypassed: C1 by C2.
pub(super) static CALLS: [(usize, Call); 9] = [
    (0, Open(A1, B1)),
    (0, Put(A0, b"m", &[B1], 0)),
    (
        0,
        Turns(&[
            "SendOut { serial: 0, n: 0, link: Central(0), moved: Sequence { items: [End { pair: 1, side: B }] } }",
            "Post(1)",
            "Rest(0)",
            "Claim(2, 2)",
            "Lock(2, Central(1), 547)",
            "Begin(2, Central(1))",
            "Rest(2)",
            "Idle",
        ]),
    ),
    (
        1,
        Turns(&[
            "Look(0)",
            "Hand { kind: Item(0), link: Central(0), unfit: false }",
            "Rest(0)",
            "Idle",
        ]),
    ),
    (0, Turns(&["Post(1)", "Idle"])),
    (
        1,
        Turns(&[
            "Look(0)",
            "Hand { kind: BypassPeer, link: Peripheral { node: 0, serial: 0 }, unfit: false }",
            "Post(0)",
            "Rest(1)",
            "Idle",
        ]),
    ),
    (
        0,
        Turns(&[
            "Look(1)",
            "Hand { kind: AcceptBypass, link: Central(1), unfit: false }",
            "Post(0)",
            "Look(0)",
            "Hand { kind: StopProxying, link: Central(1), unfit: false }",
            "Post(1)",
            "FinishOut(1, Central(1))",
            "Mark(1, Central(2), 1)",
            "Rest(1)",
            "FinishOut(2, Central(1))",
            "FinishIn(2, Peripheral { node: 0, serial: 0 })",
            "Leave(2)",
            "Idle",
        ]),
    ),
    (
        1,
        Turns(&[
            "Look(0)",
            "Hand { kind: ProxyWillStop, link: Peripheral { node: 0, serial: 0 }, unfit: false }",
            "FinishOut(1, Peripheral { node: 0, serial: 0 })",
            "Mark(1, Central(2), 3)",
            "Rest(1)",
            "Idle",
        ]),
    ),
    (1, Get(B0, b"m", &[B1], 0)),
];

// Then what is put at the moved end comes over the new link.
static PARCEL: [(usize, Call); 4] = [
    (1, Put(B1, b"r", &[], 0)),
    (
        1,
        Turns(&[
            "SendOut { serial: 1, n: 0, link: Central(2), moved: Sequence { items: [] } }",
            "Post(0)",
            "Rest(1)",
            "Idle",
        ]),
    ),
    (
        0,
        Turns(&[
            "Look(1)",
            "Hand { kind: Item(0), link: Central(2), unfit: false }",
            "Rest(1)",
            "Idle",
        ]),
    ),
    (0, Get(A1, b"r", &[], 0)),
];

#[test]
fn a_bypass_turn_by_turn(rt: HostRuntime) {
    let routers = routers_of(rt.alloc(), 2, 4, &CALLS, &PARCEL);
    assert_eq!(rt; routers, Some([Some(2), Some(2)]));
}
