//! Turns of a node: which act comes first, and what it posts.

use super::Step::{Close, Deliver, First, Get, Holds, Open, Posted, Put, Quiet, Return, See, Turn};
use super::deeds::Deed::{self, Discard, Idle, Look, Post, Rest, SendOut};
use super::letters::Letter;
use super::{A0, A1, B0, B1, C0, C1, C2, CLEAR, JAMMED, Sight, Step, all_go};
use ipcz_base::{End, Refusal, Side};
use ipcz_node::Act;
use ipcz_router::act::RouterAct;
use std::test::Fail;

const A2: End = End {
    pair: 2,
    side: Side::A,
};

// A message has come from each node, there or not.
const ALL_COME: Sight = Sight {
    full: [true; 8],
    empty: [true; 8],
};

// Messages have come from nodes 1 and 2, and none can be posted.
const FROM_1_AND_2: Sight = Sight {
    full: [false, true, true, false, false, false, false, false],
    empty: [false; 8],
};

const FROM_0_AND_2: Sight = Sight {
    full: [true, false, true, false, false, false, false, false],
    empty: [false; 8],
};

const FROM_2: Sight = Sight {
    full: [false, false, true, false, false, false, false, false],
    empty: [false; 8],
};

// Messages of nodes that aren't there.
const FROM_3_AND_7: Sight = Sight {
    full: [false, false, false, true, false, false, false, true],
    empty: [false; 8],
};

// Messages can be posted only to nodes 1 and 2, and none has come.
const TO_1_AND_2: Sight = Sight {
    full: [false; 8],
    empty: [false, true, true, false, false, false, false, false],
};

const TO_1: Sight = Sight {
    full: [false; 8],
    empty: [false, true, false, false, false, false, false, false],
};

const TO_3_AND_7: Sight = Sight {
    full: [false; 8],
    empty: [false, false, false, true, false, false, false, true],
};

// Node 1 of three: router 0 serves 0B, toward node 0, and router 1 serves 2A, toward node 2. Each
// of the outboxes to these has a message at the end, and router 1 is flagged.
static FILLS_OUTBOXES: [Step; 13] = [
    First(Act::Idle),
    Quiet(true),
    Put(A2, &[], Ok(0)),
    First(Act::Router(1, RouterAct::SendOut)),
    Put(B0, &[], Ok(0)),
    First(Act::Router(0, RouterAct::SendOut)),
    See(JAMMED),
    Turn(SendOut(0, 0, C0, &[])),
    First(Act::Router(0, RouterAct::Rest)),
    Turn(Rest(0)),
    First(Act::Router(1, RouterAct::SendOut)),
    Turn(SendOut(1, 0, C2, &[])),
    First(Act::Router(1, RouterAct::Rest)),
];

static CHOOSES: [Step; 20] = [
    See(CLEAR),
    First(Act::Post(0)),
    See(TO_1_AND_2),
    First(Act::Post(2)),
    See(TO_1),
    First(Act::Router(1, RouterAct::Rest)),
    See(FROM_1_AND_2),
    First(Act::Look(1)),
    See(FROM_2),
    First(Act::Look(2)),
    See(ALL_COME),
    First(Act::Look(0)),
    // There are no such nodes.
    See(FROM_3_AND_7),
    First(Act::Router(1, RouterAct::Rest)),
    See(TO_3_AND_7),
    First(Act::Router(1, RouterAct::Rest)),
    // With its routers at rest the node has nothing that it can do, and isn't quiet.
    See(JAMMED),
    Turn(Rest(1)),
    First(Act::Idle),
    Quiet(false),
];

#[test]
fn a_look_comes_before_a_post_and_both_before_routers(rt: HostRuntime) {
    all_go(&rt, rt.alloc(), 1, 3, &[&FILLS_OUTBOXES, &CHOOSES]);
}

// The lowest destination comes first, and over one link the lower number.
static POSTS: [Step; 17] = [
    Put(A2, &[], Ok(0)),
    Put(A2, &[], Ok(1)),
    Put(B0, &[], Ok(0)),
    See(JAMMED),
    Turn(SendOut(0, 0, C0, &[])),
    Turn(Rest(0)),
    Turn(SendOut(1, 0, C2, &[])),
    Turn(SendOut(1, 1, C2, &[])),
    Turn(Rest(1)),
    See(CLEAR),
    Turn(Post(0)),
    Posted(Letter::Parcel(C0, Side::A, 0, &[], &[])),
    Turn(Post(2)),
    Posted(Letter::Parcel(C2, Side::B, 0, &[], &[])),
    Turn(Post(2)),
    Posted(Letter::Parcel(C2, Side::B, 1, &[], &[])),
    Quiet(true),
];

#[test]
fn posts_go_by_destination_and_then_in_the_order_of_sending(rt: HostRuntime) {
    all_go(&rt, rt.alloc(), 1, 3, &[&POSTS]);
}

// Whatever else has come or waits, also if a message of another node is delivered, or the act is
// committed.
static STAYS_IN_HAND: [Step; 17] = [
    See(FROM_0_AND_2),
    Turn(Look(0)),
    Deliver(2, Letter::Parcel(C2, Side::A, 0, &[], &[]), true),
    First(Act::Hand(0)),
    See(JAMMED),
    First(Act::Hand(0)),
    See(CLEAR),
    First(Act::Hand(0)),
    Turn(Idle),
    First(Act::Hand(0)),
    Quiet(false),
    Deliver(0, Letter::Parcel(C0, Side::B, 0, &[], &[]), true),
    First(Act::Router(0, RouterAct::Rest)),
    See(FROM_2),
    First(Act::Look(2)),
    Turn(Look(2)),
    First(Act::Hand(2)),
];

#[test]
fn a_message_stays_in_hand_until_it_is_delivered(rt: HostRuntime) {
    all_go(&rt, rt.alloc(), 1, 3, &[&STAYS_IN_HAND]);
}

// A message that doesn't fit is out of the hand, too.
static STRAYS_FROM_HAND: [Step; 6] = [
    See(FROM_0_AND_2),
    Turn(Look(0)),
    Deliver(2, Letter::StopProxying(2, Side::A, 0, 0), false),
    First(Act::Hand(0)),
    Deliver(0, Letter::StopProxying(0, Side::B, 0, 0), false),
    First(Act::Look(0)),
];

#[test]
fn a_stray_leaves_the_hand(rt: HostRuntime) {
    all_go(&rt, rt.alloc(), 1, 3, &[&STRAYS_FROM_HAND]);
}

// The terminal of 1B is closed, and a parcel that carries 0A comes to it. The mark of 1B is sent
// before anything is dropped, and posted; the mark of 0A goes to node 1.
static DROPS: [Step; 24] = [
    Open(1),
    Put(A1, &[A0], Ok(0)),
    Close(B1, Ok(0)),
    Close(B1, Err(Refusal::Stranger)),
    Get(B1, Err(Refusal::Stranger)),
    Put(B1, &[], Err(Refusal::Stranger)),
    Turn(SendOut(1, 0, C1, &[])),
    Turn(Post(0)),
    Return,
    Turn(Rest(1)),
    Turn(SendOut(2, 0, C1, &[])),
    Turn(Post(0)),
    Posted(Letter::Mark(C1, Side::A, 0)),
    Turn(Discard(2, 0)),
    First(Act::Close(A0)),
    Turn(Deed::Close(A0)),
    Turn(SendOut(0, 0, C0, &[])),
    Turn(Post(1)),
    Posted(Letter::Mark(C0, Side::B, 0)),
    Turn(Rest(0)),
    Turn(Rest(2)),
    Turn(Idle),
    Holds(A0, false),
    Quiet(true),
];

#[test]
fn a_sink_drops_a_parcel_and_the_ends_in_it_are_closed(rt: HostRuntime) {
    all_go(&rt, rt.alloc(), 0, 2, &[&DROPS]);
}
