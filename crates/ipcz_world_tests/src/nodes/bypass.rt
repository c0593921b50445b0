//! A proxy and its bypass, with the messages of the other routers brought by hand.

use super::Step::{Deliver, First, Open, Posted, Put, Strays, Turn, Unlock};
use super::deeds::Deed::{
    Begin, Claim, ClaimNoWord, FinishIn, FinishOut, Idle, Leave, Lock, Post, Refused, Rest, SendIn,
    SendOut, Wait,
};
use super::letters::Letter;
use super::{A0, B1, C0, C1, Step, all_go};
use ipcz_base::{LinkId, Side};
use ipcz_node::Act;
use ipcz_router::act::RouterAct;
use std::test::Fail;

const INWARD: LinkId = LinkId::Peripheral { node: 0, serial: 0 };

// Node 0 of two, from which 1B moves to node 1: router 1 serves 1A, and router 2 is the proxy of
// 1B, on C1.
static MOVES: [Step; 5] = [
    Open(1),
    Put(A0, &[B1], Ok(0)),
    Turn(SendOut(0, 0, C0, &[B1])),
    Turn(Post(1)),
    Turn(Rest(0)),
];

const FLUSH: Letter = Letter::Flush(C1, Side::B);

// Each word is claimed. What comes then is passed on, and no word is claimed again.
static FINDS_NO_WORD: [Step; 11] = [
    Turn(ClaimNoWord(2)),
    Turn(Rest(2)),
    Turn(Idle),
    Deliver(0, Letter::Parcel(C1, Side::B, 0, &[], &[]), true),
    Turn(SendIn(2, 0, INWARD, &[])),
    Turn(Post(1)),
    Turn(Rest(2)),
    Turn(Idle),
    Deliver(0, FLUSH, true),
    Turn(Rest(2)),
    Turn(Idle),
];

#[test]
fn a_proxy_that_has_found_no_word_claims_none_again(rt: HostRuntime) {
    all_go(&rt, rt.alloc(), 0, 2, &[&MOVES, &FINDS_NO_WORD]);
}

// Another side holds the lock, then the side of 1A isn't stable, and then the lock is got. Given
// back, it is tried for again with the word that was claimed.
static LOCKS: [Step; 18] = [
    Turn(Claim(2, 2)),
    Turn(Refused(2, C1, 19)),
    Turn(Rest(2)),
    Turn(Idle),
    Deliver(0, FLUSH, true),
    Turn(Wait(2, C1, 10)),
    Turn(Rest(2)),
    Turn(Idle),
    Deliver(0, FLUSH, true),
    Turn(Lock(2, C1, 547)),
    First(Act::Router(2, RouterAct::Begin)),
    Unlock(3),
    Turn(Lock(2, C1, 547)),
    Turn(Begin(2, C1)),
    Turn(Post(1)),
    Posted(Letter::BypassPeer(INWARD, Side::B, 1, 0, 2)),
    Turn(Rest(2)),
    Turn(Idle),
];

#[test]
fn a_lock_is_tried_for_again_after_a_flush_and_after_an_unlock(rt: HostRuntime) {
    all_go(&rt, rt.alloc(), 0, 2, &[&MOVES, &LOCKS]);
}

// A word is found, the lock is got, and the bypass begins.
static BEGINS: [Step; 6] = [
    Turn(Claim(2, 2)),
    Turn(Lock(2, C1, 547)),
    Turn(Begin(2, C1)),
    Turn(Post(1)),
    Turn(Rest(2)),
    Turn(Idle),
];

// One item comes in over C1, and two go out over it.
const STOP: Letter = Letter::StopProxying(1, Side::B, 1, 2);

// One item has gone out when the proxy is told both lengths, which it is once; it tells node 1 how
// many items come from it. It leaves once one item has come in and a second one has gone out.
static LEAVES: [Step; 21] = [
    Deliver(1, Letter::Parcel(INWARD, Side::A, 0, &[], &[]), true),
    Turn(SendOut(2, 0, C1, &[])),
    Turn(Post(0)),
    Turn(Rest(2)),
    Deliver(0, STOP, true),
    Deliver(0, STOP, false),
    Turn(Post(1)),
    Posted(Letter::ProxyWillStop(INWARD, Side::B, 1)),
    Deliver(0, Letter::Parcel(C1, Side::B, 0, &[], &[]), true),
    Turn(SendIn(2, 0, INWARD, &[])),
    Turn(Post(1)),
    Turn(Rest(2)),
    Turn(Idle),
    Deliver(1, Letter::Parcel(INWARD, Side::A, 1, &[], &[]), true),
    Turn(SendOut(2, 1, C1, &[])),
    Turn(Post(0)),
    Turn(FinishOut(2, C1)),
    Turn(FinishIn(2, INWARD)),
    Turn(Leave(2)),
    Turn(Idle),
    Strays(1),
];

#[test]
fn a_proxy_leaves_once_both_lengths_are_reached(rt: HostRuntime) {
    all_go(&rt, rt.alloc(), 0, 2, &[&MOVES, &BEGINS, &LEAVES]);
}
