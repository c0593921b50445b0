//! What a sink does when its peer is closed, too: it locks its link and retires, or Gone comes to it; and a proxy that Gone passes.

use super::Step::{self, Act, Close, Come, Get, GoneComes, Is, Move, Put, Rouse, Terminal, Unlock};
use super::all_go;
use super::deeds::Deed::{Claim, ClaimNoWord, Lock, Plain, Refused, Wait};
use super::deeds::Given::{Discarded, DiscardedGone, Nothing, Sent, SentGone};
use super::sights::Sight::{Flagged, InLast, Next, Open, OutLast, Possible, Proxy, PutRefused};
use ipcz_base::{Descriptor, End, LinkEnd, LinkId, Refusal, Side};
use ipcz_router::act::RouterAct;
use std::test::Fail;

const C0: LinkId = LinkId::Central(0);

const INWARD: LinkId = LinkId::Peripheral { node: 0, serial: 0 };

const A0: End = End {
    pair: 0,
    side: Side::A,
};

// The terminal of 0A faces that of 0B on node 0.
const ACROSS: LinkEnd = LinkEnd {
    link: C0,
    side: Side::A,
    other: 0,
};

// The link over which the terminal moves to node 1.
const AWAY: LinkEnd = LinkEnd {
    link: INWARD,
    side: Side::A,
    other: 1,
};

// A terminal that has neither sent nor got anything.
const UNUSED: Descriptor = Descriptor {
    end: A0,
    link: INWARD,
    next_out: 0,
    next_in: 0,
};

// Its own mark sent and the peer's discarded, and not before, it may try for the lock, without a spare word; if that fails it
// rests until it is roused. With the lock it retires, or gives it back and tries again.
static RETIRES: [Step; 29] = [
    Terminal(A0, ACROSS, 0),
    Is(0, Open(true)),
    Put(0, b'a', Ok(0)),
    Is(0, Open(true)),
    Close(0, Ok(1)),
    Come(0, C0, Side::A, 0, Some(b'b'), Ok(())),
    Come(0, C0, Side::A, 1, None, Ok(())),
    Is(0, PutRefused(Refusal::PeerClosed)),
    Act(0, Plain(RouterAct::SendOut), Sent(ACROSS, 0, Some(b'a'))),
    Is(0, Possible(RouterAct::Lock, false)),
    Act(0, Plain(RouterAct::SendOut), Sent(ACROSS, 1, None)),
    // The peer's mark has been seen, and isn't discarded yet.
    Is(0, Possible(RouterAct::Lock, false)),
    Act(0, Plain(RouterAct::Discard), Discarded(0, Some(b'b'))),
    Act(0, Plain(RouterAct::Discard), Discarded(1, None)),
    Is(0, Possible(RouterAct::Claim, false)),
    Is(0, Possible(RouterAct::Retire, false)),
    Act(0, Wait(7), Nothing),
    Act(0, Plain(RouterAct::Rest), Nothing),
    Rouse(0),
    Act(0, Refused(35), Nothing),
    Act(0, Plain(RouterAct::Rest), Nothing),
    Rouse(0),
    Act(0, Lock(19), Nothing),
    Is(0, Possible(RouterAct::Lock, false)),
    Is(0, Possible(RouterAct::Begin, false)),
    Unlock(0, 3),
    Is(0, Flagged(true)),
    Act(0, Lock(19), Nothing),
    Act(0, Plain(RouterAct::Retire), SentGone(ACROSS, 2)),
];

#[test]
fn a_sink_retires_once_the_mark_of_its_peer_is_discarded(rt: HostRuntime) {
    all_go(&rt, rt.alloc(), &RETIRES);
}

// The mark is the only item that was sent, and has not left.
static WAITS_TO_SEND: [Step; 8] = [
    Terminal(A0, ACROSS, 0),
    Is(0, Open(true)),
    Come(0, C0, Side::A, 0, None, Ok(())),
    Close(0, Ok(0)),
    Is(0, Possible(RouterAct::Discard, true)),
    Is(0, Next(RouterAct::SendOut)),
    Is(0, Possible(RouterAct::Lock, false)),
    Act(0, Plain(RouterAct::SendOut), Sent(ACROSS, 0, None)),
];

// With the last numbers, Gone has the one behind the last mark's.
static LAST_NUMBERS: [Step; 8] = [
    Terminal(A0, ACROSS, 18446744073709551613),
    Is(0, Open(true)),
    Close(0, Ok(18446744073709551613)),
    Come(0, C0, Side::A, 18446744073709551613, None, Ok(())),
    Act(
        0,
        Plain(RouterAct::SendOut),
        Sent(ACROSS, 18446744073709551613, None),
    ),
    Act(
        0,
        Plain(RouterAct::Discard),
        Discarded(18446744073709551613, None),
    ),
    Act(0, Lock(19), Nothing),
    Act(
        0,
        Plain(RouterAct::Retire),
        SentGone(ACROSS, 18446744073709551614),
    ),
];

#[test]
fn a_sink_sends_what_it_has_before_it_leaves(rt: HostRuntime) {
    all_go(&rt, rt.alloc(), &WAITS_TO_SEND);
    all_go(&rt, rt.alloc(), &LAST_NUMBERS);
}

// Gone comes before what stands before it. It is discarded in its turn, and never got.
static GONE_COMES: [Step; 17] = [
    Terminal(A0, ACROSS, 0),
    GoneComes(0, C0, Side::A, 1),
    Is(0, Open(true)),
    Get(0, Err(Refusal::Empty)),
    Is(0, Flagged(true)),
    Close(0, Ok(0)),
    Act(0, Plain(RouterAct::SendOut), Sent(ACROSS, 0, None)),
    Is(0, Possible(RouterAct::Discard, false)),
    Act(0, Plain(RouterAct::Rest), Nothing),
    Come(0, C0, Side::A, 0, None, Ok(())),
    Act(0, Plain(RouterAct::Discard), Discarded(0, None)),
    Is(0, Next(RouterAct::Discard)),
    Act(0, Plain(RouterAct::Discard), DiscardedGone(1)),
    // An open terminal, to which no trusted node's Gone comes.
    Terminal(A0, ACROSS, 0),
    GoneComes(1, C0, Side::A, 0),
    Is(1, Open(true)),
    Get(1, Err(Refusal::PeerClosed)),
];

static GONE_STAYS: [Step; 7] = [
    Terminal(A0, ACROSS, 0),
    Is(0, InLast(None)),
    GoneComes(0, C0, Side::A, 0),
    Is(0, Open(true)),
    Get(0, Err(Refusal::PeerClosed)),
    Get(0, Err(Refusal::PeerClosed)),
    Is(0, InLast(Some((0, true)))),
];

// Behind the peer's mark no put is taken, and Gone changes nothing of it.
static NO_PUT: [Step; 9] = [
    Terminal(A0, ACROSS, 0),
    Put(0, b'a', Ok(0)),
    Is(0, OutLast(Some(0))),
    Come(0, C0, Side::A, 0, None, Ok(())),
    Is(0, InLast(Some((0, false)))),
    Put(0, b'b', Err(Refusal::PeerClosed)),
    GoneComes(0, C0, Side::A, 1),
    Put(0, b'c', Err(Refusal::PeerClosed)),
    Get(0, Err(Refusal::PeerClosed)),
];

#[test]
fn gone_is_discarded_in_its_turn_and_is_no_parcel(rt: HostRuntime) {
    all_go(&rt, rt.alloc(), &GONE_COMES);
    all_go(&rt, rt.alloc(), &GONE_STAYS);
    all_go(&rt, rt.alloc(), &NO_PUT);
}

// A proxy sends Gone inward like any item, and leaves though both its links are there; its own act comes in between.
static PASSES: [Step; 17] = [
    Terminal(A0, ACROSS, 0),
    Is(0, Open(true)),
    Move(0, AWAY, UNUSED, 0),
    Is(0, Proxy),
    Act(0, ClaimNoWord, Nothing),
    Act(0, Plain(RouterAct::Rest), Nothing),
    Come(0, INWARD, Side::A, 0, None, Ok(())),
    Come(0, C0, Side::A, 0, None, Ok(())),
    GoneComes(0, C0, Side::A, 1),
    Act(0, Plain(RouterAct::SendOut), Sent(ACROSS, 0, None)),
    Act(0, Plain(RouterAct::SendIn), Sent(AWAY, 0, None)),
    Is(0, Possible(RouterAct::Leave, false)),
    Is(0, Possible(RouterAct::Discard, false)),
    Act(0, Plain(RouterAct::SendIn), SentGone(AWAY, 1)),
    Is(0, Possible(RouterAct::Retire, false)),
    Is(0, Next(RouterAct::Leave)),
    Act(0, Plain(RouterAct::Leave), Nothing),
];

// One that has claimed a word and not got the lock leaves in the same way. What it sends in comes before any try for the lock.
static PASSES_WITH_A_WORD: [Step; 16] = [
    Terminal(A0, ACROSS, 0),
    Is(0, Open(true)),
    Move(0, AWAY, UNUSED, 0),
    Act(0, Claim(2), Nothing),
    Act(0, Refused(35), Nothing),
    Act(0, Plain(RouterAct::Rest), Nothing),
    Come(0, C0, Side::A, 0, None, Ok(())),
    GoneComes(0, C0, Side::A, 1),
    Rouse(0),
    Is(0, Possible(RouterAct::Lock, true)),
    Act(0, Plain(RouterAct::SendIn), Sent(AWAY, 0, None)),
    Act(0, Plain(RouterAct::SendIn), SentGone(AWAY, 1)),
    Is(0, Possible(RouterAct::Lock, true)),
    Is(0, Next(RouterAct::Leave)),
    Is(0, InLast(None)),
    Act(0, Plain(RouterAct::Leave), Nothing),
];

#[test]
fn a_proxy_leaves_once_gone_has_passed(rt: HostRuntime) {
    all_go(&rt, rt.alloc(), &PASSES);
    all_go(&rt, rt.alloc(), &PASSES_WITH_A_WORD);
}
