//! Messages that no trusted node sends, each for one cause: it is kept as a stray, nothing else changes, and the turns that
//! follow go on as without it.

use super::Step::{Deliver, DeliverWhere, Get, GetParcel, Open, Posted, Put, Quiet, Return, Turn};
use super::aside::{Aside, Run, all_go_aside};
use super::deeds::Deed::{
    Begin, Claim, FinishIn, FinishOut, Idle, Leave, Lock, Mark, Post, Rest, SendOut,
};
use super::letters::Letter::{AcceptBypass, BypassPeer, Parcel, ProxyWillStop, StopProxying};
use super::{A0, A1, B0, B1, C0, C1, C2, Step};
use ipcz_base::Side::{A, B};
use ipcz_base::{Descriptor, End, LinkId};
use std::test::Fail;

const INWARD: LinkId = LinkId::Peripheral { node: 0, serial: 0 };

// Node 0 of two. A parcel comes for 0A, 1B moves to node 1, and its proxy is bypassed: router 1 serves 1A, which gets the fresh
// link C2 and uses it both ways.
static RUN_OF_NODE_0: Run = Run {
    node: 0,
    first: 0,
    steps: &[
        Open(1),
        Deliver(1, Parcel(C0, A, 0, &[], &[]), true),
        GetParcel(A0, 0, b"a", &[]),
        Deliver(1, Parcel(C0, A, 1, &[], &[]), true),
        Put(A0, &[B1], Ok(0)),
        Turn(SendOut(0, 0, C0, &[B1])),
        Turn(Post(1)),
        Turn(Rest(0)),
        Turn(Claim(2, 2)),
        Turn(Lock(2, C1, 547)),
        Turn(Begin(2, C1)),
        Turn(Post(1)),
        Posted(BypassPeer(INWARD, B, 1, 0, 2)),
        Turn(Rest(2)),
        Turn(Idle),
        Deliver(1, AcceptBypass(1, A, 2, 0), true),
        Turn(Post(0)),
        Posted(StopProxying(1, B, 0, 0)),
        Return,
        Turn(Post(1)),
        Posted(ProxyWillStop(INWARD, B, 0)),
        Turn(FinishOut(1, C1)),
        Turn(Mark(1, C2, 1)),
        Turn(Rest(1)),
        Turn(FinishOut(2, C1)),
        Turn(FinishIn(2, INWARD)),
        Turn(Leave(2)),
        Turn(Idle),
        Put(A1, &[], Ok(0)),
        Turn(SendOut(1, 0, C2, &[])),
        Turn(Post(1)),
        Posted(Parcel(C2, B, 0, &[], &[])),
        Deliver(1, Parcel(C2, A, 0, &[], &[]), true),
        GetParcel(A1, 0, b"a", &[]),
        Get(A0, Ok(1)),
        Turn(Rest(1)),
        Quiet(true),
    ],
};

// After the bypass began, and after its AcceptBypass came.
const BEGAN: usize = 14;

const ACCEPTED: usize = 16;

static OF_NODE_0_ASIDE: [Aside; 15] = [
    Aside {
        why: "the number has passed",
        after: 3,
        step: Deliver(1, Parcel(C0, A, 0, &[], &[]), false),
    },
    Aside {
        why: "the number is occupied",
        after: 4,
        step: Deliver(1, Parcel(C0, A, 1, &[], &[]), false),
    },
    Aside {
        why: "the number is no item's",
        after: 4,
        step: Deliver(1, Parcel(C0, A, 18446744073709551615, &[], &[]), false),
    },
    Aside {
        why: "no router has the old link",
        after: BEGAN,
        step: Deliver(1, AcceptBypass(3, A, 2, 0), false),
    },
    Aside {
        why: "the router at that side has it no more as primary link",
        after: BEGAN,
        step: Deliver(1, AcceptBypass(1, B, 2, 0), false),
    },
    Aside {
        why: "the edge decays",
        after: ACCEPTED,
        step: Deliver(1, AcceptBypass(2, A, 4, 0), false),
    },
    Aside {
        why: "the fresh link is named here at that side",
        after: BEGAN,
        step: Deliver(1, AcceptBypass(1, A, 0, 0), false),
    },
    Aside {
        why: "the old link's word names no source",
        after: BEGAN,
        step: DeliverWhere(None, 1, AcceptBypass(1, A, 2, 0), false),
    },
    Aside {
        why: "the old link's word names another source",
        after: BEGAN,
        step: DeliverWhere(Some(1), 0, AcceptBypass(1, A, 2, 0), false),
    },
    Aside {
        why: "no router has the old link",
        after: BEGAN,
        step: Deliver(1, StopProxying(3, B, 0, 0), false),
    },
    Aside {
        why: "the router at that side has no decaying link",
        after: BEGAN,
        step: Deliver(1, StopProxying(1, A, 0, 0), false),
    },
    Aside {
        why: "the links of the proxy don't decay yet",
        after: 10,
        step: Deliver(1, StopProxying(1, B, 0, 0), false),
    },
    Aside {
        why: "the router has no inward link",
        after: ACCEPTED,
        step: Deliver(1, StopProxying(1, A, 0, 0), false),
    },
    Aside {
        why: "the lengths are known",
        after: 19,
        step: Deliver(1, StopProxying(1, B, 0, 0), false),
    },
    Aside {
        why: "the proxy has left",
        after: 28,
        step: Deliver(1, StopProxying(1, B, 0, 0), false),
    },
];

#[test]
fn an_accept_bypass_or_a_stop_proxying_that_is_forged_changes_nothing(rt: HostRuntime) {
    all_go_aside(&rt, rt.alloc(), &RUN_OF_NODE_0, &OF_NODE_0_ASIDE);
}

const MOVED_1B: Descriptor = Descriptor {
    end: B1,
    link: INWARD,
    next_out: 0,
    next_in: 0,
};

// Node 1 of two. 1B moves here from node 0; it puts over the link of the move, and then over the fresh one.
static RUN_OF_NODE_1: Run = Run {
    node: 1,
    first: 0,
    steps: &[
        Deliver(0, Parcel(C0, B, 0, &[B1], &[MOVED_1B]), true),
        Turn(Rest(0)),
        Get(B0, Ok(0)),
        Put(B1, &[], Ok(0)),
        Turn(SendOut(1, 0, INWARD, &[])),
        Turn(Post(0)),
        Turn(Rest(1)),
        Turn(Idle),
        Deliver(0, BypassPeer(INWARD, B, 1, 0, 2), true),
        Turn(Post(0)),
        Posted(AcceptBypass(1, A, 2, 1)),
        Turn(Rest(1)),
        Put(B1, &[], Ok(1)),
        Turn(SendOut(1, 1, C2, &[])),
        Turn(Post(0)),
        Turn(Rest(1)),
        Deliver(0, ProxyWillStop(INWARD, B, 0), true),
        Turn(FinishOut(1, INWARD)),
        Turn(Mark(1, C2, 3)),
        Turn(Rest(1)),
        Deliver(0, Parcel(C2, B, 0, &[], &[]), true),
        Turn(Rest(1)),
        GetParcel(B1, 0, b"a", &[]),
        Quiet(true),
    ],
};

// After 1B came, and after its BypassPeer came.
const CAME: usize = 4;

const LEAVES: usize = 9;

const NEXT_INWARD: LinkId = LinkId::Peripheral { node: 0, serial: 1 };

const A5: End = End { pair: 5, side: A };

const B6: End = End { pair: 6, side: B };

const MOVED_5A: Descriptor = Descriptor {
    end: A5,
    link: NEXT_INWARD,
    next_out: 0,
    next_in: 0,
};

const MOVED_6B: Descriptor = Descriptor {
    end: B6,
    link: LinkId::Peripheral { node: 0, serial: 2 },
    next_out: 0,
    next_in: 0,
};

const ON_THE_SAME_LINK: Descriptor = Descriptor {
    end: B6,
    link: NEXT_INWARD,
    next_out: 0,
    next_in: 0,
};

const NAMED: Descriptor = Descriptor {
    end: A5,
    link: INWARD,
    next_out: 0,
    next_in: 0,
};

const HIGH: Descriptor = Descriptor {
    end: A5,
    link: NEXT_INWARD,
    next_out: 18446744073709551614,
    next_in: 0,
};

static ITEMS_ASIDE: [Aside; 12] = [
    Aside {
        why: "no router has the link",
        after: CAME,
        step: Deliver(0, Parcel(C1, B, 1, &[], &[]), false),
    },
    Aside {
        why: "no router has the link at that side",
        after: CAME,
        step: Deliver(0, Parcel(C0, A, 1, &[], &[]), false),
    },
    Aside {
        why: "the number has passed",
        after: CAME,
        step: Deliver(0, Parcel(C0, B, 0, &[], &[]), false),
    },
    Aside {
        why: "the number is occupied",
        after: 1,
        step: Deliver(0, Parcel(C0, B, 0, &[], &[]), false),
    },
    Aside {
        why: "the number is no item's",
        after: CAME,
        step: Deliver(0, Parcel(C0, B, 18446744073709551615, &[], &[]), false),
    },
    Aside {
        why: "an end has no move",
        after: CAME,
        step: Deliver(0, Parcel(C0, B, 1, &[A5, B6], &[MOVED_5A]), false),
    },
    Aside {
        why: "a move has no end",
        after: CAME,
        step: Deliver(0, Parcel(C0, B, 1, &[], &[MOVED_5A]), false),
    },
    Aside {
        why: "the moves are in another order",
        after: CAME,
        step: Deliver(0, Parcel(C0, B, 1, &[A5, B6], &[MOVED_6B, MOVED_5A]), false),
    },
    Aside {
        why: "the link of a move is named here at side B",
        after: CAME,
        step: Deliver(0, Parcel(C0, B, 1, &[A5], &[NAMED]), false),
    },
    Aside {
        why: "two moves have one link",
        after: CAME,
        step: Deliver(
            0,
            Parcel(C0, B, 1, &[A5, B6], &[MOVED_5A, ON_THE_SAME_LINK]),
            false,
        ),
    },
    Aside {
        why: "the next number of a move is above the last",
        after: CAME,
        step: Deliver(0, Parcel(C0, B, 1, &[A5], &[HIGH]), false),
    },
    Aside {
        why: "moves come from the same node",
        after: CAME,
        step: Deliver(1, Parcel(C0, B, 1, &[A5], &[MOVED_5A]), false),
    },
];

#[test]
fn an_item_that_is_forged_changes_nothing(rt: HostRuntime) {
    all_go_aside(&rt, rt.alloc(), &RUN_OF_NODE_1, &ITEMS_ASIDE);
}

static OF_NODE_1_ASIDE: [Aside; 9] = [
    Aside {
        why: "no router has the link as outward primary link",
        after: CAME,
        step: Deliver(0, BypassPeer(NEXT_INWARD, B, 1, 0, 2), false),
    },
    Aside {
        why: "the link isn't peripheral",
        after: CAME,
        step: Deliver(0, BypassPeer(C0, B, 1, 0, 2), false),
    },
    Aside {
        why: "the edge decays",
        after: LEAVES,
        step: Deliver(0, BypassPeer(INWARD, B, 1, 0, 4), false),
    },
    Aside {
        why: "the target is no node",
        after: CAME,
        step: Deliver(0, BypassPeer(INWARD, B, 1, 2, 2), false),
    },
    Aside {
        why: "the fresh link is named here at the router's side",
        after: CAME,
        step: Deliver(0, BypassPeer(INWARD, B, 1, 0, 0), false),
    },
    Aside {
        why: "no router has the link",
        after: LEAVES,
        step: Deliver(0, ProxyWillStop(NEXT_INWARD, B, 0), false),
    },
    Aside {
        why: "the link doesn't decay yet",
        after: CAME,
        step: Deliver(0, ProxyWillStop(INWARD, B, 0), false),
    },
    Aside {
        why: "no router has the link at that side",
        after: LEAVES,
        step: Deliver(0, ProxyWillStop(INWARD, A, 0), false),
    },
    Aside {
        why: "the length is known",
        after: 17,
        step: Deliver(0, ProxyWillStop(INWARD, B, 0), false),
    },
];

#[test]
fn a_bypass_peer_or_a_proxy_will_stop_that_is_forged_changes_nothing(rt: HostRuntime) {
    all_go_aside(&rt, rt.alloc(), &RUN_OF_NODE_1, &OF_NODE_1_ASIDE);
}
