//! What callers put, get and close, and what comes over a link.

use super::Step::{
    self, Act, Born, Carry, Close, Come, Get, Is, Move, Put, ReserveClose, StopProxying, Terminal,
};
use super::deeds::Deed::{Claim, Lock, Plain};
use super::deeds::Given::{Discarded, Nothing, Sent, Told};
use super::sights::Sight::{
    At, Flagged, Next, NodeInward, Open, Proxy, PutRefused, StandsOn, WayOut,
};
use super::{all_go, is_item, is_letter, item_of, letter};
use ipcz_base::{Descriptor, End, LinkEnd, LinkId, Refusal, Side};
use ipcz_router::Router;
use ipcz_router::act::RouterAct;
use std::alloc::{AllocError, Global};

const C1: LinkId = LinkId::Central(1);

// The end of C1 at the terminal of 1A, whose peer is on node 1.
const ACROSS: LinkEnd = LinkEnd {
    link: C1,
    side: Side::A,
    other: 1,
};

const INWARD: LinkId = LinkId::Peripheral { node: 0, serial: 0 };

// The end of the link over which the terminal moves to node 1.
const AWAY: LinkEnd = LinkEnd {
    link: INWARD,
    side: Side::A,
    other: 1,
};

const END: End = End {
    pair: 1,
    side: Side::A,
};

static LAST_NUMBERS: [Step; 13] = [
    Terminal(END, ACROSS, 18446744073709551612),
    Is(0, Open(true)),
    Put(0, b'a', Ok(18446744073709551612)),
    Is(0, Open(true)),
    Put(0, b'b', Err(Refusal::NumbersEnd)),
    Is(0, Open(true)),
    Close(0, Ok(18446744073709551613)),
    Terminal(END, ACROSS, 18446744073709551613),
    Is(1, PutRefused(Refusal::NumbersEnd)),
    Put(1, b'a', Err(Refusal::NumbersEnd)),
    Is(1, Flagged(false)),
    Is(1, Open(true)),
    Close(1, Ok(18446744073709551613)),
];

#[test]
fn the_last_numbers_are_put_and_then_the_mark_alone(rt: HostRuntime) {
    all_go(&rt, rt.alloc(), &LAST_NUMBERS);
}

static SENT_ONCE: [Step; 7] = [
    Terminal(END, ACROSS, 0),
    Is(0, StandsOn(C1, Side::A, true)),
    Put(0, b'a', Ok(0)),
    Is(0, Flagged(true)),
    Act(0, Plain(RouterAct::SendOut), Sent(ACROSS, 0, Some(b'a'))),
    Act(0, Plain(RouterAct::Rest), Nothing),
    Is(0, Flagged(false)),
];

#[test]
fn what_is_put_is_sent_once_and_then_the_router_rests(rt: HostRuntime) {
    all_go(&rt, rt.alloc(), &SENT_ONCE);
}

const A5: End = End {
    pair: 5,
    side: Side::A,
};

const MOVED: Descriptor = Descriptor {
    end: A5,
    link: INWARD,
    next_out: 3,
    next_in: u64::MAX,
};

static BORN: [Step; 6] = [
    Born(MOVED, 0),
    Is(0, StandsOn(INWARD, Side::B, true)),
    Is(0, StandsOn(INWARD, Side::A, false)),
    Is(0, At(A5)),
    Is(0, Open(true)),
    Is(0, Flagged(false)),
];

#[test]
fn a_moved_terminal_stands_on_side_b(rt: HostRuntime) {
    all_go(&rt, rt.alloc(), &BORN);
}

// A terminal that has got one parcel, and sent none.
const AFTER_ONE: Descriptor = Descriptor {
    end: END,
    link: INWARD,
    next_out: 0,
    next_in: 1,
};

static MOVES: [Step; 15] = [
    Terminal(END, ACROSS, 0),
    Come(0, C1, Side::A, 0, Some(b'a'), Ok(())),
    Come(0, C1, Side::A, 1, Some(b'a'), Ok(())),
    Come(0, C1, Side::A, 2, Some(b'a'), Ok(())),
    Come(0, C1, Side::A, 3, Some(b'a'), Ok(())),
    Is(0, Open(true)),
    Get(0, Ok((0, b'a'))),
    Is(0, Open(true)),
    Move(0, AWAY, AFTER_ONE, 0),
    Is(0, Proxy),
    Is(0, StandsOn(INWARD, Side::A, true)),
    Is(0, NodeInward(1)),
    Act(0, Plain(RouterAct::SendIn), Sent(AWAY, 1, Some(b'a'))),
    // What comes over the inward link goes out.
    Come(0, INWARD, Side::A, 0, Some(b'b'), Ok(())),
    Is(0, Next(RouterAct::SendOut)),
];

// Of four parcels that came, one is got before the move, and the proxy passes the others on.
#[test]
fn a_descriptor_goes_on_where_callers_stopped(rt: HostRuntime) {
    all_go(&rt, rt.alloc(), &MOVES);
}

static STRANGE: [Step; 11] = [
    Terminal(END, ACROSS, 0),
    Come(
        0,
        LinkId::Central(2),
        Side::A,
        0,
        Some(b'a'),
        Err(Refusal::Stranger),
    ),
    Come(0, C1, Side::B, 0, Some(b'a'), Err(Refusal::Stranger)),
    Is(0, Open(true)),
    Get(0, Err(Refusal::Empty)),
    Is(0, Flagged(false)),
    Come(0, C1, Side::A, 0, Some(b'a'), Ok(())),
    Come(0, C1, Side::A, 0, Some(b'a'), Err(Refusal::Occupied)),
    Is(0, Open(true)),
    Get(0, Ok((0, b'a'))),
    Come(0, C1, Side::A, 0, Some(b'a'), Err(Refusal::Passed)),
];

#[test]
fn what_does_not_fit_is_refused(rt: HostRuntime) {
    all_go(&rt, rt.alloc(), &STRANGE);
}

const C0: LinkId = LinkId::Central(0);

const INNER: LinkId = LinkId::Peripheral { node: 1, serial: 0 };

const B0: End = End {
    pair: 0,
    side: Side::B,
};

// A proxy on node 1 whose outward link takes items up to number 4, and is to bring number 5 yet.
static PAST_THE_LENGTH: [Step; 10] = [
    Terminal(
        B0,
        LinkEnd {
            link: C0,
            side: Side::B,
            other: 0,
        },
        5,
    ),
    Move(
        0,
        LinkEnd {
            link: INNER,
            side: Side::A,
            other: 2,
        },
        Descriptor {
            end: B0,
            link: INNER,
            next_out: 5,
            next_in: 5,
        },
        1,
    ),
    Act(0, Claim(2), Nothing),
    Act(0, Lock(35), Nothing),
    Act(
        0,
        Plain(RouterAct::Begin),
        Told(
            2,
            "BypassPeer { link: Peripheral { node: 1, serial: 0 }, side: B, old: 0, target: 0, fresh: 2 }",
        ),
    ),
    StopProxying(
        0,
        Side::B,
        [6, 5],
        Ok(Some((
            2,
            "ProxyWillStop { link: Peripheral { node: 1, serial: 0 }, side: B, in_length: 6 }",
        ))),
    ),
    Come(0, INNER, Side::A, 5, Some(b'a'), Ok(())),
    Is(0, WayOut(None)),
    Is(0, Next(RouterAct::Rest)),
    Is(0, StandsOn(C0, Side::B, true)),
];

#[test]
fn an_item_past_the_length_waits_for_a_primary_link(rt: HostRuntime) {
    all_go(&rt, rt.alloc(), &PAST_THE_LENGTH);
}

// Whether a put is done, or refused for want of memory with all as it was.
fn is_put_or_handed_back(router: &mut Router, alloc: Global) -> Result<bool, AllocError> {
    let parcel = letter(alloc, b'a')?;
    if !router.is_open_terminal() {
        return Ok(false);
    }
    match router.put(parcel) {
        Ok(n) => Ok(n == 0 && router.is_flagged()),
        Err((why, back)) => {
            Ok(why == Refusal::OutOfMemory && is_letter(&back, b'a') && !router.is_flagged())
        }
    }
}

// Whether an item is taken, or refused for want of memory with all as it was.
fn is_taken_or_handed_back(router: &mut Router, alloc: Global) -> Result<bool, AllocError> {
    let was_flagged = router.is_flagged();
    let item = item_of(alloc, Some(b'b'))?;
    match router.accept(C1, Side::A, 0, item) {
        Ok(()) => Ok(router.is_flagged()),
        Err((why, back)) => Ok(
            why == Refusal::OutOfMemory
                && is_item(&back, Some(b'b'))
                && router.is_flagged() == was_flagged,
        ),
    }
}

// With ample memory both calls are done; `rt try --test --fail-alloc N` has one of them refused.
#[test]
fn a_refused_growth_hands_the_parcel_back(rt: HostRuntime) {
    let mut router = Router::terminal(rt.alloc(), END, ACROSS, 0);
    assert_eq!(rt; is_put_or_handed_back(&mut router, rt.alloc()), Ok(true));
    assert_eq!(rt; is_taken_or_handed_back(&mut router, rt.alloc()), Ok(true));
}

static BEHIND_A_GAP: [Step; 18] = [
    Terminal(END, ACROSS, 0),
    Come(0, C1, Side::A, 1, None, Ok(())),
    Is(0, Open(true)),
    Get(0, Err(Refusal::Empty)),
    Is(0, PutRefused(Refusal::PeerClosed)),
    Put(0, b'b', Err(Refusal::PeerClosed)),
    Come(0, C1, Side::A, 0, Some(b'a'), Ok(())),
    Get(0, Ok((0, b'a'))),
    Get(0, Err(Refusal::PeerClosed)),
    Is(0, Open(true)),
    Get(0, Err(Refusal::PeerClosed)),
    ReserveClose(0),
    Close(0, Ok(0)),
    Is(0, Flagged(true)),
    Is(0, Open(false)),
    // The sink sends its own mark and drops the peer's, and then would leave.
    Act(0, Plain(RouterAct::SendOut), Sent(ACROSS, 0, None)),
    Act(0, Plain(RouterAct::Discard), Discarded(1, None)),
    Is(0, Next(RouterAct::Lock)),
];

#[test]
fn the_mark_is_seen_behind_a_gap_and_got_in_its_turn(rt: HostRuntime) {
    all_go(&rt, rt.alloc(), &BEHIND_A_GAP);
}

// A terminal that has neither sent nor got anything.
const UNUSED: Descriptor = Descriptor {
    end: END,
    link: INWARD,
    next_out: 0,
    next_in: 0,
};

static MARK_STAYS: [Step; 7] = [
    Terminal(END, ACROSS, 0),
    Come(0, C1, Side::A, 0, None, Ok(())),
    Is(0, Open(true)),
    Move(0, AWAY, UNUSED, 0),
    Put(1, b'a', Ok(0)),
    Carry(0, Plain(RouterAct::SendIn), 1, INWARD, 0),
    Is(1, PutRefused(Refusal::PeerClosed)),
];

// The peer's mark waits in the proxy's in queue; the terminal that moved away takes puts until it comes there.
#[test]
fn that_the_mark_has_come_does_not_travel(rt: HostRuntime) {
    all_go(&rt, rt.alloc(), &MARK_STAYS);
}
