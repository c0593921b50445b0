//! Which messages are strays, each cause once, on node 0 of two.

use super::Step::{Deliver, DeliverWhere, Get, GetParcel, Posted, Quiet, Strays, Turn};
use super::deeds::Deed;
use super::letters::Letter;
use super::{A0, C0, C2, Step, all_go};
use ipcz_base::{Descriptor, End, LinkId, Refusal, Side};
use std::test::Fail;

const FROM_NODE_1: LinkId = LinkId::Peripheral { node: 1, serial: 0 };

const NEXT_FROM_NODE_1: LinkId = LinkId::Peripheral { node: 1, serial: 1 };

const A5: End = End {
    pair: 5,
    side: Side::A,
};

const B6: End = End {
    pair: 6,
    side: Side::B,
};

const MOVE_5A: Descriptor = Descriptor {
    end: A5,
    link: FROM_NODE_1,
    next_out: 0,
    next_in: 0,
};

const MOVE_6B: Descriptor = Descriptor {
    end: B6,
    link: NEXT_FROM_NODE_1,
    next_out: 0,
    next_in: 0,
};

// The parcel of a number without ends, for the router of 0A.
const FIRST: Letter = Letter::Parcel(C0, Side::A, 0, &[], &[]);

// At first its number is free, then it is occupied, and then it has passed.
static COMES_ONCE: [Step; 8] = [
    Deliver(1, Letter::StopProxying(0, Side::A, 0, 0), false),
    Deliver(1, FIRST, true),
    Deliver(1, FIRST, false),
    Strays(2),
    GetParcel(A0, 0, b"a", &[]),
    Deliver(1, FIRST, false),
    Strays(3),
    Get(A0, Err(Refusal::Empty)),
];

#[test]
fn an_item_comes_once(rt: HostRuntime) {
    all_go(&rt, rt.alloc(), 0, 2, &[&COMES_ONCE]);
}

const OWN_PERIPHERAL: LinkId = LinkId::Peripheral { node: 0, serial: 0 };

static HAS_A_PLACE: [Step; 6] = [
    Deliver(1, Letter::Parcel(C0, Side::B, 0, &[], &[]), false),
    Deliver(
        1,
        Letter::Parcel(LinkId::Central(1), Side::A, 0, &[], &[]),
        false,
    ),
    Deliver(
        1,
        Letter::Parcel(OWN_PERIPHERAL, Side::A, 0, &[], &[]),
        false,
    ),
    Deliver(
        1,
        Letter::Parcel(C0, Side::A, 18446744073709551615, &[], &[]),
        false,
    ),
    Deliver(
        1,
        Letter::Parcel(C0, Side::A, 18446744073709551614, &[], &[]),
        true,
    ),
    Strays(4),
];

#[test]
fn an_item_has_a_router_and_a_number(rt: HostRuntime) {
    all_go(&rt, rt.alloc(), 0, 2, &[&HAS_A_PLACE]);
}

const HIGH: Descriptor = Descriptor {
    end: A5,
    link: FROM_NODE_1,
    next_out: 18446744073709551614,
    next_in: 0,
};

const LAST: Descriptor = Descriptor {
    end: A5,
    link: FROM_NODE_1,
    next_out: 18446744073709551613,
    next_in: 0,
};

const SAME_LINK: Descriptor = Descriptor {
    end: B6,
    link: FROM_NODE_1,
    next_out: 0,
    next_in: 0,
};

const HERE: Descriptor = Descriptor {
    end: A0,
    link: LinkId::Central(8),
    next_out: 0,
    next_in: 0,
};

static HAS_ITS_MOVES: [Step; 13] = [
    // One move for each end, in order.
    Deliver(1, Letter::Parcel(C0, Side::A, 0, &[A5], &[]), false),
    Deliver(1, Letter::Parcel(C0, Side::A, 0, &[], &[MOVE_5A]), false),
    Deliver(
        1,
        Letter::Parcel(C0, Side::A, 0, &[A5, B6], &[MOVE_5A]),
        false,
    ),
    Deliver(
        1,
        Letter::Parcel(C0, Side::A, 0, &[A5], &[MOVE_5A, MOVE_6B]),
        false,
    ),
    Deliver(
        1,
        Letter::Parcel(C0, Side::A, 0, &[A5, B6], &[MOVE_6B, MOVE_5A]),
        false,
    ),
    // Each on a link of its own, and with a number up to the last.
    Deliver(
        1,
        Letter::Parcel(C0, Side::A, 0, &[A5, B6], &[MOVE_5A, SAME_LINK]),
        false,
    ),
    Deliver(1, Letter::Parcel(C0, Side::A, 0, &[A5], &[HIGH]), false),
    // None from the same node.
    Deliver(0, Letter::Parcel(C0, Side::A, 0, &[A5], &[MOVE_5A]), false),
    Deliver(0, Letter::Parcel(C0, Side::A, 0, &[A5], &[]), true),
    Deliver(1, Letter::Parcel(C0, Side::A, 1, &[A5], &[LAST]), true),
    // The link stands here by now.
    Deliver(
        1,
        Letter::Parcel(C0, Side::A, 2, &[B6], &[SAME_LINK]),
        false,
    ),
    // A central link, or an end that has a terminal here, makes no stray.
    Deliver(1, Letter::Parcel(C0, Side::A, 2, &[A0], &[HERE]), true),
    Strays(9),
];

#[test]
fn an_item_has_its_moves(rt: HostRuntime) {
    all_go(&rt, rt.alloc(), 0, 2, &[&HAS_ITS_MOVES]);
}

// The terminal of 5A moves here from node 1.
static MOVES: [Step; 1] = [Deliver(1, Letter::Parcel(C0, Side::A, 0, &[A5], &[MOVE_5A]), true)];

// Its bypass: the link to node 1 decays, and the fresh one is C2.
const BYPASS_BY_2: Letter = Letter::BypassPeer(FROM_NODE_1, Side::B, 9, 1, 2);

static HAS_ITS_TERMINAL: [Step; 8] = [
    // No router here has the link at the side.
    Deliver(
        1,
        Letter::BypassPeer(NEXT_FROM_NODE_1, Side::B, 9, 1, 2),
        false,
    ),
    Deliver(1, Letter::BypassPeer(FROM_NODE_1, Side::A, 9, 1, 2), false),
    // The link isn't peripheral.
    Deliver(1, Letter::BypassPeer(C0, Side::A, 9, 1, 2), false),
    // The target is no node.
    Deliver(1, Letter::BypassPeer(FROM_NODE_1, Side::B, 9, 2, 2), false),
    // The fresh link is named here at side A already.
    Deliver(1, Letter::BypassPeer(FROM_NODE_1, Side::B, 9, 1, 0), false),
    // It comes once: then the link decays.
    Deliver(1, BYPASS_BY_2, true),
    Deliver(1, Letter::BypassPeer(FROM_NODE_1, Side::B, 9, 1, 3), false),
    Strays(6),
];

#[test]
fn a_bypass_peer_has_its_terminal(rt: HostRuntime) {
    all_go(&rt, rt.alloc(), 0, 2, &[&MOVES, &HAS_ITS_TERMINAL]);
}

// The router of 5A has C2 as primary link, and its old one decays.
static DOES_NOT_DECAY: [Step; 11] = [
    Deliver(1, BYPASS_BY_2, true),
    // No router here has the old link at the side.
    Deliver(1, Letter::AcceptBypass(3, Side::A, 4, 0), false),
    Deliver(1, Letter::AcceptBypass(0, Side::B, 4, 0), false),
    // Its edge decays.
    Deliver(1, Letter::AcceptBypass(2, Side::A, 4, 0), false),
    // The fresh link is named here at the side already.
    Deliver(1, Letter::AcceptBypass(0, Side::A, 0, 0), false),
    Deliver(1, Letter::AcceptBypass(0, Side::A, 2, 0), false),
    // It comes once: then the old link is no primary link.
    Deliver(1, Letter::AcceptBypass(0, Side::A, 4, 0), true),
    Deliver(1, Letter::AcceptBypass(0, Side::A, 6, 0), false),
    // That router has no inward link that decays, and knows both lengths.
    Deliver(1, Letter::StopProxying(0, Side::A, 0, 0), false),
    Deliver(1, Letter::ProxyWillStop(C0, Side::A, 0), false),
    Strays(8),
];

#[test]
fn an_accept_bypass_has_a_router_that_does_not_decay(rt: HostRuntime) {
    all_go(&rt, rt.alloc(), 0, 2, &[&MOVES, &DOES_NOT_DECAY]);
}

// The word of the old link names the node that may send its AcceptBypass: no node, this one, and then
// the sender, whose message fits. The answer goes to the other side of the old link.
static IS_OF_THE_SOURCE: [Step; 10] = [
    DeliverWhere(None, 1, Letter::AcceptBypass(0, Side::A, 2, 0), false),
    DeliverWhere(Some(0), 1, Letter::AcceptBypass(0, Side::A, 2, 0), false),
    Strays(2),
    Quiet(true),
    DeliverWhere(Some(1), 1, Letter::AcceptBypass(0, Side::A, 2, 0), true),
    Strays(2),
    Turn(Deed::Post(1)),
    Posted(Letter::StopProxying(0, Side::B, 0, 0)),
    // No other message asks for it.
    DeliverWhere(None, 1, Letter::ProxyWillStop(C0, Side::A, 0), false),
    DeliverWhere(None, 1, Letter::Flush(C2, Side::A), true),
];

#[test]
fn an_accept_bypass_is_of_the_source_that_the_word_names(rt: HostRuntime) {
    all_go(&rt, rt.alloc(), 0, 2, &[&IS_OF_THE_SOURCE]);
}

static TELLS_A_LENGTH: [Step; 6] = [
    // The link doesn't decay yet.
    Deliver(1, Letter::ProxyWillStop(FROM_NODE_1, Side::B, 0), false),
    Deliver(1, BYPASS_BY_2, true),
    // The other side is asked, then this one, and then the length is known.
    Deliver(1, Letter::ProxyWillStop(FROM_NODE_1, Side::A, 0), false),
    Deliver(1, Letter::ProxyWillStop(FROM_NODE_1, Side::B, 0), true),
    Deliver(1, Letter::ProxyWillStop(FROM_NODE_1, Side::B, 0), false),
    Strays(3),
];

#[test]
fn a_proxy_will_stop_tells_an_unknown_length(rt: HostRuntime) {
    all_go(&rt, rt.alloc(), 0, 2, &[&MOVES, &TELLS_A_LENGTH]);
}

static IS_DROPPED: [Step; 5] = [
    Deliver(1, Letter::Flush(C0, Side::B), false),
    Quiet(true),
    Deliver(1, Letter::Flush(C0, Side::A), true),
    Quiet(false),
    Strays(0),
];

#[test]
fn a_flush_is_dropped_and_never_kept(rt: HostRuntime) {
    all_go(&rt, rt.alloc(), 0, 2, &[&IS_DROPPED]);
}
