//! Portals that move: what goes with them, and how their links are numbered.

use super::Step::{Deliver, Get, Holds, Open, Posted, Put, Quiet, Return, Turn};
use super::deeds::Deed::{Begin, Claim, Idle, Lock, Post, Rest, SendIn, SendOut};
use super::letters::Letter;
use super::{A0, A1, B0, B1, C0, C1, C2, Step, all_go};
use ipcz_base::{Descriptor, End, LinkId, Side};
use std::test::Fail;

const INWARD: LinkId = LinkId::Peripheral { node: 0, serial: 0 };

// Four parcels are put at 1A, and one of them is got at 1B.
static ONE_OF_FOUR: [Step; 21] = [
    Open(1),
    Put(A1, &[], Ok(0)),
    Put(A1, &[], Ok(1)),
    Put(A1, &[], Ok(2)),
    Put(A1, &[], Ok(3)),
    Turn(SendOut(1, 0, C1, &[])),
    Turn(Post(0)),
    Return,
    Turn(SendOut(1, 1, C1, &[])),
    Turn(Post(0)),
    Return,
    Turn(SendOut(1, 2, C1, &[])),
    Turn(Post(0)),
    Return,
    Turn(SendOut(1, 3, C1, &[])),
    Turn(Post(0)),
    Return,
    Turn(Rest(1)),
    Turn(Rest(2)),
    Turn(Idle),
    Get(B1, Ok(0)),
];

const MOVED_1B: Descriptor = Descriptor {
    end: B1,
    link: INWARD,
    next_out: 0,
    next_in: 1,
};

// Then 1B moves from node 0 to node 1. What its callers had not got follows over the link of the
// move.
static MOVES_1B: [Step; 22] = [
    Put(A0, &[B1], Ok(0)),
    Holds(B1, false),
    Turn(SendOut(0, 0, C0, &[B1])),
    Turn(Post(1)),
    Posted(Letter::Parcel(C0, Side::B, 0, &[B1], &[MOVED_1B])),
    Turn(Rest(0)),
    Turn(SendIn(2, 1, INWARD, &[])),
    Turn(Post(1)),
    Posted(Letter::Parcel(INWARD, Side::B, 1, &[], &[])),
    Turn(SendIn(2, 2, INWARD, &[])),
    Turn(Post(1)),
    Posted(Letter::Parcel(INWARD, Side::B, 2, &[], &[])),
    Turn(SendIn(2, 3, INWARD, &[])),
    Turn(Post(1)),
    Posted(Letter::Parcel(INWARD, Side::B, 3, &[], &[])),
    Turn(Claim(2, 2)),
    Turn(Lock(2, C1, 35)),
    Turn(Begin(2, C1)),
    Turn(Post(1)),
    Posted(Letter::BypassPeer(INWARD, Side::B, 1, 0, 2)),
    Turn(Rest(2)),
    Quiet(true),
];

#[test]
fn a_moved_end_goes_with_its_numbers(rt: HostRuntime) {
    all_go(&rt, rt.alloc(), 0, 2, &[&ONE_OF_FOUR, &MOVES_1B]);
}

const A2: End = End {
    pair: 2,
    side: Side::A,
};

const A5: End = End {
    pair: 5,
    side: Side::A,
};

const FIRST_OF_1: LinkId = LinkId::Peripheral { node: 1, serial: 0 };

const MOVED_0B: Descriptor = Descriptor {
    end: B0,
    link: FIRST_OF_1,
    next_out: 0,
    next_in: 0,
};

// From node 0, and then on from node 1.
const MOVED_5A: Descriptor = Descriptor {
    end: A5,
    link: INWARD,
    next_out: 7,
    next_in: 3,
};

const MOVED_5A_ON: Descriptor = Descriptor {
    end: A5,
    link: LinkId::Peripheral { node: 1, serial: 1 },
    next_out: 7,
    next_in: 3,
};

// On node 1 of three 0B moves on to node 2, and then a parcel with 5A comes for it from node 0.
// Router 0 serves 0B, router 1 serves 2A, and router 2 is the terminal of 5A.
static MOVES_ON: [Step; 10] = [
    Put(A2, &[B0], Ok(0)),
    Turn(SendOut(1, 0, C2, &[B0])),
    Turn(Post(2)),
    Posted(Letter::Parcel(C2, Side::B, 0, &[B0], &[MOVED_0B])),
    Deliver(0, Letter::Parcel(C0, Side::B, 0, &[A5], &[MOVED_5A]), true),
    Turn(SendIn(0, 0, FIRST_OF_1, &[A5])),
    Turn(Post(2)),
    Posted(Letter::Parcel(FIRST_OF_1, Side::B, 0, &[A5], &[MOVED_5A_ON])),
    Holds(A5, false),
    Holds(B0, false),
];

#[test]
fn a_proxy_moves_the_ends_that_it_passes_on(rt: HostRuntime) {
    all_go(&rt, rt.alloc(), 1, 3, &[&MOVES_ON]);
}

// 0A goes from 1A to 1B, both on node 0. It has its terminal, and no caller holds it until the
// parcel is got.
static GOES_WITHIN: [Step; 14] = [
    Open(1),
    Put(A1, &[A0], Ok(0)),
    Holds(A0, false),
    Turn(SendOut(1, 0, C1, &[])),
    Turn(Post(0)),
    Posted(Letter::Parcel(C1, Side::B, 0, &[A0], &[])),
    Return,
    Holds(A0, false),
    Get(B1, Ok(0)),
    Holds(A0, true),
    Turn(Rest(1)),
    Turn(Rest(2)),
    Turn(Idle),
    Put(A0, &[], Ok(0)),
];

#[test]
fn no_end_moves_within_a_node(rt: HostRuntime) {
    all_go(&rt, rt.alloc(), 0, 2, &[&GOES_WITHIN]);
}
