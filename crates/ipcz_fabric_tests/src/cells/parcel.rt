//! A parcel from one end of a pair to the other on one node, and what cells do by turns that aren't told.

use super::Call::{Acts, Arrived, Close, Get, Look, Open, Put, Touches, Turns};
use super::{A0, A1, B0, B1, Call, all_go};
use ipcz_base::{PortalStatus, Sizes};

static CALLS: [(usize, Call); 5] = [
    (0, Open(A1, B1)),
    (0, Put(A1, b"a", &[], 0)),
    (
        0,
        Turns(&[
            "SendOut { serial: 1, n: 0, link: Central(1), moved: Sequence { items: [] } }",
            "Post(0)",
            "Look(0)",
            "Hand { kind: Item(0), link: Central(1), unfit: false }",
            "Rest(1)",
            "Rest(2)",
        ]),
    ),
    (0, Get(B1, b"a", &[], 0)),
    (0, Close(A1, 1)),
];

#[test]
fn a_parcel_goes_by_its_own_mailbox(rt: HostRuntime) {
    all_go(&rt, rt.alloc(), 4, &CALLS);
}

// The same parcel by turns that aren't told; then an end goes to the other node, and a parcel behind it.
static UNTOLD: [(usize, Call); 19] = [
    (0, Open(A1, B1)),
    (0, Put(A1, b"a", &[], 0)),
    (0, Acts(4, 4)),
    (0, Get(B1, b"a", &[], 0)),
    (0, Acts(100, 2)),
    (0, Acts(100, 0)),
    (0, Put(A0, b"b", &[B1], 0)),
    (0, Put(A1, b"c", &[], 1)),
    (0, Acts(0, 0)),
    (0, Acts(100, 13)),
    (1, Acts(100, 3)),
    (1, Get(B0, b"b", &[B1], 0)),
    (0, Acts(100, 1)),
    (1, Acts(100, 3)),
    (0, Acts(100, 1)),
    (1, Acts(100, 4)),
    (0, Acts(100, 12)),
    (1, Acts(100, 5)),
    (1, Get(B1, b"c", &[], 1)),
];

#[test]
fn turns_that_are_not_told_pass_parcels(rt: HostRuntime) {
    all_go(&rt, rt.alloc(), 4, &UNTOLD);
}

// A send touches the node that it posts to, a hand the one whose message it handles, and no other turn any: on a way from node 0 to node 1, and from one end
// to the other on node 0.
static TOUCHING: [(usize, Call); 10] = [
    (0, Put(A0, b"a", &[], 0)),
    (0, Touches(1, 1, 0)),
    (0, Touches(100, 2, 2)),
    (0, Touches(100, 0, 0)),
    (1, Touches(1, 1, 0)),
    (1, Touches(100, 2, 1)),
    (1, Get(B0, b"a", &[], 0)),
    (0, Open(A1, B1)),
    (0, Put(A1, b"b", &[], 0)),
    (0, Touches(100, 6, 1)),
];

#[test]
fn turns_tell_which_nodes_they_touch(rt: HostRuntime) {
    all_go(&rt, rt.alloc(), 4, &TOUCHING);
}

// Parcels of one byte at B1: the first of two is the next, and then none is.
const TWO_WAIT: PortalStatus = PortalStatus {
    next: 0,
    sizes: Some(Sizes { bytes: 1, ends: 0 }),
    waiting: 2,
    peer_closed: false,
};

const CLOSED: PortalStatus = PortalStatus {
    next: 2,
    sizes: None,
    waiting: 0,
    peer_closed: true,
};

// A look takes nothing, and tells of no end that the node doesn't hold.
static LOOKS: [(usize, Call); 11] = [
    (0, Open(A1, B1)),
    (0, Put(A1, b"a", &[], 0)),
    (0, Put(A1, b"b", &[], 1)),
    (0, Acts(100, 10)),
    (0, Look(B1, Some(TWO_WAIT))),
    (1, Look(B1, None)),
    (0, Get(B1, b"a", &[], 0)),
    (0, Get(B1, b"b", &[], 1)),
    (0, Close(A1, 2)),
    (0, Acts(100, 6)),
    (0, Look(B1, Some(CLOSED))),
];

#[test]
fn a_look_at_a_cell_takes_nothing(rt: HostRuntime) {
    all_go(&rt, rt.alloc(), 4, &LOOKS);
}

// An end has arrived where it was opened. Moved to node 1 it stands on the link of its proxy, until node 0 has bypassed that one: four
// messages, the last of which is for it.
static ARRIVES: [(usize, Call); 17] = [
    (0, Open(A1, B1)),
    (0, Arrived(A1, Some(true))),
    (0, Arrived(B1, Some(true))),
    (1, Arrived(B1, None)),
    (0, Put(A0, b"m", &[B1], 0)),
    (0, Arrived(B1, None)),
    (0, Acts(100, 7)),
    (1, Acts(100, 3)),
    (1, Get(B0, b"m", &[B1], 0)),
    (1, Arrived(B1, Some(false))),
    (0, Acts(100, 1)),
    (1, Acts(100, 4)),
    (1, Arrived(B1, Some(false))),
    (0, Acts(100, 12)),
    (1, Acts(100, 5)),
    (1, Arrived(B1, Some(true))),
    (0, Arrived(A1, Some(true))),
];

#[test]
fn an_end_that_moved_has_arrived_once_its_proxy_is_bypassed(rt: HostRuntime) {
    all_go(&rt, rt.alloc(), 4, &ARRIVES);
}
