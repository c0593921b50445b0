//! One bypass, each turn of it with what it is seen to do.

use super::calls::Call;
use super::{A0, A1, B0, B1, all_go};

// The terminal of 1B moves from node 0 to node 1, and the proxy it leaves, router 2, is bypassed: C1 by C2. Then what is put at the moved end
// comes over the new link.
static CALLS: [Call; 37] = [
    Call::Open(0, A1, B1),
    Call::Put(0, A0, b"m", &[B1], 0),
    Call::Turns(
        0,
        &[
            "SendOut { serial: 0, n: 0, link: Central(0), moved: Sequence { items: [End { pair: 1, side: B }] } }",
            "Post(1)",
            "Rest(0)",
            "Claim(2, 2)",
            "Lock(2, Central(1), 547)",
            "Begin(2, Central(1))",
            "Rest(2)",
            "Idle",
        ],
    ),
    Call::Word(0, Some(3)),
    Call::Word(1, Some(547)),
    Call::Word(2, Some(0)),
    Call::Word(3, None),
    Call::Turns(
        1,
        &[
            "Look(0)",
            "Hand { kind: Item(0), link: Central(0), unfit: false }",
            "Rest(0)",
            "Idle",
        ],
    ),
    Call::Word(0, Some(3)),
    Call::Word(1, Some(547)),
    Call::Word(2, Some(0)),
    Call::Word(3, None),
    Call::Turns(0, &["Post(1)", "Idle"]),
    Call::Word(0, Some(3)),
    Call::Word(1, Some(547)),
    Call::Word(2, Some(0)),
    Call::Word(3, None),
    Call::Turns(
        1,
        &[
            "Look(0)",
            "Hand { kind: BypassPeer, link: Peripheral { node: 0, serial: 0 }, unfit: false }",
            "Post(0)",
            "Rest(1)",
            "Idle",
        ],
    ),
    Call::Word(0, Some(3)),
    Call::Word(1, Some(547)),
    Call::Word(2, Some(0)),
    Call::Word(3, None),
    Call::Turns(
        0,
        &[
            "Look(1)",
            "Hand { kind: AcceptBypass, link: Central(1), unfit: false }",
            "Post(0)",
            "Look(0)",
            "Hand { kind: StopProxying, link: Central(1), unfit: false }",
            "Post(1)",
            "FinishOut(1, Central(1))",
            "Mark(1, Central(2), 1)",
            "Rest(1)",
            "FinishOut(2, Central(1))",
            "FinishIn(2, Peripheral { node: 0, serial: 0 })",
            "Leave(2)",
            "Idle",
        ],
    ),
    Call::Word(0, Some(3)),
    Call::Word(1, Some(547)),
    Call::Word(2, Some(1)),
    Call::Word(3, None),
    Call::Turns(
        1,
        &[
            "Look(0)",
            "Hand { kind: ProxyWillStop, link: Peripheral { node: 0, serial: 0 }, unfit: false }",
            "FinishOut(1, Peripheral { node: 0, serial: 0 })",
            "Mark(1, Central(2), 3)",
            "Rest(1)",
            "Idle",
        ],
    ),
    Call::Word(0, Some(3)),
    Call::Word(1, Some(547)),
    Call::Word(2, Some(3)),
    Call::Word(3, None),
    Call::Settle(0, Some(0)),
    Call::Get(1, B0, 0, b"m", &[B1]),
    Call::Put(1, B1, b"r", &[], 0),
    Call::Settle(100, Some(6)),
    Call::Get(0, A1, 0, b"r", &[]),
];

#[test]
fn a_bypass_turn_by_turn(rt: HostRuntime) {
    all_go(&rt, rt.alloc(), 2, 4, &CALLS);
}
