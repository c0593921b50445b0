//! A pair whose both ends are closed leaves its routers: a sink retires under the lock, and Gone takes the others away.

use super::Step::{
    self, Close, Deliver, First, GetParcel, Open, Posted, Put, Quiet, Return, Routers, See, Source,
    Strays, Turn, Unlock, Waits, Word,
};
use super::deeds::Deed::{
    ClaimNoWord, Discard, DiscardLeave, Idle, Leave, Lock, Post, Refused, Rest, Retire, SendIn,
    SendOut, Wait,
};
use super::letters::Letter;
use super::{A0, A1, B0, B1, C0, C1, JAMMED, all_go};
use ipcz_base::{Descriptor, LinkId, Side};
use ipcz_node::Act;
use ipcz_router::act::RouterAct;
use std::test::Fail;

// The pair of word 0 on one node, both ends closed, up to the lock.
static LOCKS: [Step; 15] = [
    Open(0),
    Close(A0, Ok(0)),
    Close(B0, Ok(0)),
    Turn(SendOut(0, 0, C0, &[])),
    Turn(Post(0)),
    Return,
    Turn(Rest(0)),
    Turn(SendOut(1, 0, C0, &[])),
    Turn(Post(0)),
    Posted(Letter::Mark(C0, Side::A, 0)),
    Return,
    Turn(Discard(0, 0)),
    First(Act::Router(0, RouterAct::Lock)),
    Turn(Lock(0, C0, 19)),
    First(Act::Router(0, RouterAct::Retire)),
];

static RETIRES: [Step; 16] = [
    Routers(2),
    Word(0, Some((0, Side::A))),
    // A sink has no source: nobody is to be told of a new link.
    Source(0, None),
    Turn(Retire(0, 1, C0)),
    Routers(1),
    Word(0, None),
    Source(0, None),
    Turn(Post(0)),
    Posted(Letter::Gone(C0, Side::B, 1)),
    Return,
    Turn(Discard(1, 0)),
    Turn(DiscardLeave(1, 1)),
    Turn(Idle),
    Routers(0),
    Strays(0),
    Quiet(true),
];

// A message that comes for a router which has left is a stray.
static NOBODY_IS_LEFT: [Step; 2] = [Deliver(0, Letter::Mark(C0, Side::B, 2), false), Strays(1)];

#[test]
fn a_closed_pair_leaves_its_node(rt: HostRuntime) {
    all_go(&rt, rt.alloc(), 0, 1, &[&LOCKS, &RETIRES, &NOBODY_IS_LEFT]);
}

// If Gone finds no memory, the lock is given back, and tried for again at once.
static GIVES_THE_LOCK_BACK: [Step; 4] = [
    Unlock(3),
    First(Act::Router(0, RouterAct::Lock)),
    Turn(Lock(0, C0, 19)),
    First(Act::Router(0, RouterAct::Retire)),
];

#[test]
fn a_sink_that_finds_no_memory_to_retire_tries_again(rt: HostRuntime) {
    all_go(
        &rt,
        rt.alloc(),
        0,
        1,
        &[&LOCKS, &GIVES_THE_LOCK_BACK, &RETIRES],
    );
}

// The link over which 1B moves from node 0 to node 1.
const P0: LinkId = LinkId::Peripheral { node: 0, serial: 0 };

const MOVED: Descriptor = Descriptor {
    end: B1,
    link: P0,
    next_out: 0,
    next_in: 0,
};

// Node 0 of two: 1B moves to node 1, no word is left, and 1A is closed. The proxy passes the marks on.
static MOVES: [Step; 16] = [
    Open(1),
    Put(A0, &[B1], Ok(0)),
    Turn(SendOut(0, 0, C0, &[B1])),
    Turn(Post(1)),
    Posted(Letter::Parcel(C0, Side::B, 0, &[B1], &[MOVED])),
    Turn(Rest(0)),
    Turn(ClaimNoWord(2)),
    Turn(Rest(2)),
    Close(A1, Ok(0)),
    Turn(SendOut(1, 0, C1, &[])),
    Turn(Post(0)),
    Return,
    Turn(Rest(1)),
    Turn(SendIn(2, 0, P0, &[])),
    Turn(Post(1)),
    Posted(Letter::Mark(P0, Side::B, 0)),
];

// 1B is closed on node 1: the terminal of 1A, which has the central link, retires, and the proxy leaves behind Gone, with both its
// links.
static PROXY_LEAVES: [Step; 15] = [
    Turn(Rest(2)),
    Deliver(1, Letter::Mark(P0, Side::A, 0), true),
    Turn(SendOut(2, 0, C1, &[])),
    Turn(Post(0)),
    Return,
    Turn(Discard(1, 0)),
    Turn(Lock(1, C1, 19)),
    Turn(Retire(1, 1, C1)),
    Turn(Post(0)),
    Return,
    Turn(SendIn(2, 1, P0, &[])),
    Turn(Post(1)),
    Posted(Letter::Gone(P0, Side::B, 1)),
    Turn(Leave(2)),
    Routers(1),
];

#[test]
fn a_proxy_without_a_word_leaves_behind_gone(rt: HostRuntime) {
    all_go(&rt, rt.alloc(), 0, 2, &[&MOVES, &PROXY_LEAVES]);
}

// Node 1 of two: the new terminal of 1B, on a link without a word, sends its mark, and leaves when Gone comes.
static FAR_TERMINAL: [Step; 15] = [
    Deliver(0, Letter::Parcel(C0, Side::B, 0, &[B1], &[MOVED]), true),
    Turn(Rest(0)),
    GetParcel(B0, 0, b"a", &[B1]),
    Close(B1, Ok(0)),
    Turn(SendOut(1, 0, P0, &[])),
    Turn(Post(0)),
    Posted(Letter::Mark(P0, Side::A, 0)),
    Turn(Rest(1)),
    Deliver(0, Letter::Gone(P0, Side::B, 1), true),
    Turn(Rest(1)),
    Deliver(0, Letter::Mark(P0, Side::B, 0), true),
    Turn(Discard(1, 0)),
    Routers(2),
    Turn(DiscardLeave(1, 1)),
    Routers(1),
];

#[test]
fn a_terminal_without_a_word_leaves_where_gone_comes(rt: HostRuntime) {
    all_go(&rt, rt.alloc(), 1, 2, &[&FAR_TERMINAL]);
}

// Both sides try: the one that finds the lock held rests, and Gone takes it away.
static STAYS_FOR_GONE: [Step; 9] = [
    Close(A0, Ok(0)),
    Turn(SendOut(0, 0, C0, &[])),
    Turn(Post(1)),
    Deliver(1, Letter::Mark(C0, Side::A, 0), true),
    Turn(Discard(0, 0)),
    Turn(Refused(0, C0, 35)),
    Turn(Rest(0)),
    Deliver(1, Letter::Gone(C0, Side::A, 1), true),
    Turn(DiscardLeave(0, 1)),
];

#[test]
fn a_sink_that_is_refused_the_lock_leaves_where_gone_comes(rt: HostRuntime) {
    all_go(&rt, rt.alloc(), 0, 2, &[&STAYS_FOR_GONE]);
}

// A sink that has to wait rests until a Flush wakes it.
static WAITS_FOR_THE_OTHER_SIDE: [Step; 13] = [
    Close(A0, Ok(0)),
    Turn(SendOut(0, 0, C0, &[])),
    Turn(Post(1)),
    Deliver(1, Letter::Mark(C0, Side::A, 0), true),
    Turn(Discard(0, 0)),
    Turn(Wait(0, C0, 5)),
    Turn(Rest(0)),
    Turn(Idle),
    Quiet(true),
    Deliver(1, Letter::Flush(C0, Side::A), true),
    Turn(Lock(0, C0, 19)),
    Turn(Retire(0, 1, C0)),
    Routers(0),
];

#[test]
fn a_sink_that_waits_is_woken_by_a_flush(rt: HostRuntime) {
    all_go(&rt, rt.alloc(), 0, 2, &[&WAITS_FOR_THE_OTHER_SIDE]);
}

// The mark waits before Gone in the outbox; the sink has left before either is posted.
static LEAVES_BEFORE_IT_POSTS: [Step; 15] = [
    See(JAMMED),
    Close(A0, Ok(0)),
    Turn(SendOut(0, 0, C0, &[])),
    Deliver(1, Letter::Mark(C0, Side::A, 0), true),
    Turn(Discard(0, 0)),
    Turn(Lock(0, C0, 19)),
    Waits(1, 1, None),
    Turn(Retire(0, 1, C0)),
    Routers(0),
    Waits(1, 0, Some(Letter::Mark(C0, Side::B, 0))),
    Waits(1, 1, Some(Letter::Gone(C0, Side::B, 1))),
    Waits(1, 2, None),
    Waits(0, 0, None),
    Turn(Idle),
    Quiet(false),
];

#[test]
fn a_sink_has_left_before_gone_is_posted(rt: HostRuntime) {
    all_go(&rt, rt.alloc(), 0, 2, &[&LEAVES_BEFORE_IT_POSTS]);
}
