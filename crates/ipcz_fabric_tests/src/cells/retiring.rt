//! Pairs whose both ends are closed: by turns of cells, and nothing else, no router of theirs is left.

use super::Call::{Close, Open, Turns, Word};
use super::{A0, A1, B0, B1, Call, bypass, routers_of};

// The first sink locks the link, with no source, and retires; Gone takes the other away.
static ONE_NODE: [(usize, Call); 5] = [
    (0, Open(A0, B0)),
    (0, Close(A0, 0)),
    (0, Close(B0, 0)),
    (
        0,
        Turns(&[
            "SendOut { serial: 0, n: 0, link: Central(0), moved: Sequence { items: [] } }",
            "Post(0)",
            "Look(0)",
            "Hand { kind: Item(0), link: Central(0), unfit: false }",
            "Rest(0)",
            "SendOut { serial: 1, n: 0, link: Central(0), moved: Sequence { items: [] } }",
            "Post(0)",
            "Look(0)",
            "Hand { kind: Item(0), link: Central(0), unfit: false }",
            "Discard(0, 0)",
            "Lock(0, Central(0), 19)",
            "Retire(0, 1, Central(0))",
            "Post(0)",
            "Look(0)",
            "Hand { kind: Item(1), link: Central(0), unfit: false }",
            "Discard(1, 0)",
            "DiscardLeave(1, 1)",
            "Idle",
        ]),
    ),
    (0, Word(0, 19)),
];

#[test]
fn a_closed_pair_leaves_one_node(rt: HostRuntime) {
    let routers = routers_of(rt.alloc(), 1, 1, &ONE_NODE, &[]);
    assert_eq!(rt; routers, Some([Some(0), None]));
}

// Both ends are closed, each on its node, after a bypass. The first pair is open.
static TWO_NODES: [(usize, Call); 9] = [
    (0, Close(A1, 0)),
    (1, Close(B1, 0)),
    (
        0,
        Turns(&[
            "SendOut { serial: 1, n: 0, link: Central(2), moved: Sequence { items: [] } }",
            "Post(1)",
            "Rest(1)",
            "Idle",
        ]),
    ),
    (
        1,
        Turns(&[
            "Look(0)",
            "Hand { kind: Item(0), link: Central(2), unfit: false }",
            "SendOut { serial: 1, n: 0, link: Central(2), moved: Sequence { items: [] } }",
            "Post(0)",
            "Discard(1, 0)",
            "Lock(1, Central(2), 35)",
            "Retire(1, 1, Central(2))",
            "Idle",
        ]),
    ),
    (
        0,
        Turns(&[
            "Look(1)",
            "Hand { kind: Item(0), link: Central(2), unfit: false }",
            "Discard(1, 0)",
            "Refused(1, Central(2), 35)",
            "Rest(1)",
            "Idle",
        ]),
    ),
    (1, Turns(&["Post(0)", "Idle"])),
    (
        0,
        Turns(&[
            "Look(1)",
            "Hand { kind: Item(1), link: Central(2), unfit: false }",
            "DiscardLeave(1, 1)",
            "Idle",
        ]),
    ),
    (0, Word(1, 547)),
    (1, Word(2, 35)),
];

#[test]
fn a_closed_pair_leaves_two_nodes_after_a_bypass(rt: HostRuntime) {
    let routers = routers_of(rt.alloc(), 2, 4, &bypass::CALLS, &TWO_NODES);
    assert_eq!(rt; routers, Some([Some(1), Some(1)]));
}
