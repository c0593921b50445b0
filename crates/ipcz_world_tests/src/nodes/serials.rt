//! The last serials of routers and of peripheral links, on nodes that count them from high up.

use super::Step::{
    Deliver, DeliverRefused, First, Get, HeldFrom, Open, OpenRefused, Posted, Put, Quiet, See,
    Turn, TurnRefused,
};
use super::aside::{Aside, Run, all_go_aside};
use super::deeds::Deed::{ClaimNoWord, Look, Post, Rest, SendIn, SendOut};
use super::letters::Letter::{Flush, Parcel};
use super::{A0, A1, B0, B1, C0, C1, CLEAR, Sight, Step, Trial};
use ipcz_base::Side::{A, B};
use ipcz_base::{Descriptor, End, LinkId, Refusal};
use ipcz_node::Act;
use ipcz_router::act::RouterAct;
use std::alloc::Global;
use std::test::Fail;

// The first step that doesn't give what it says, on a node that counts its serials from the first one on.
fn first_wrong(alloc: Global, count: u8, first: u64, steps: &[Step]) -> Option<usize> {
    match Trial::new_from(alloc, 0, count, first) {
        Some(mut trial) => trial.first_wrong(steps),
        None => Some(steps.len()),
    }
}

// The pair has the last serials but one; no other can be opened, and this one is used as ever.
static LAST_PAIR: [Step; 9] = [
    HeldFrom(0, None),
    Open(0),
    HeldFrom(0, Some((18446744073709551613, A0))),
    HeldFrom(18446744073709551614, Some((18446744073709551614, B0))),
    OpenRefused(Refusal::NumbersEnd),
    Put(A0, &[], Ok(0)),
    Turn(SendOut(18446744073709551613, 0, C0, &[])),
    Turn(Post(0)),
    Posted(Parcel(C0, B, 0, &[], &[])),
];

static NO_PAIR: [Step; 3] = [
    OpenRefused(Refusal::NumbersEnd),
    HeldFrom(0, None),
    Quiet(true),
];

#[test]
fn a_pair_has_serials_below_the_last(rt: HostRuntime) {
    assert_eq!(rt;
        first_wrong(rt.alloc(), 1, 18446744073709551613, &LAST_PAIR),
        None
    );
    assert_eq!(rt;
        first_wrong(rt.alloc(), 1, 18446744073709551614, &NO_PAIR),
        None
    );
}

const A5: End = End { pair: 5, side: A };

const FROM_NODE_1: LinkId = LinkId::Peripheral { node: 1, serial: 0 };

const MOVED_5A: Descriptor = Descriptor {
    end: A5,
    link: FROM_NODE_1,
    next_out: 0,
    next_in: 0,
};

// A message from node 1 has come.
const MAIL: Sight = Sight {
    full: [false, true, false, false, false, false, false, false],
    empty: [true; 8],
};

// The router of 0A has the last serial. A parcel without ends comes all the same.
static HAND: Run = Run {
    node: 0,
    first: 18446744073709551614,
    steps: &[
        HeldFrom(0, Some((18446744073709551614, A0))),
        See(MAIL),
        Turn(Look(1)),
        See(CLEAR),
        First(Act::Hand(1)),
        Deliver(1, Parcel(C0, A, 0, &[], &[]), true),
        Get(A0, Ok(0)),
        Turn(Rest(18446744073709551614)),
        Quiet(true),
    ],
};

static HAND_ASIDE: [Aside; 1] = [Aside {
    why: "no serial is left for the terminal of the end",
    after: 4,
    step: DeliverRefused(1, Parcel(C0, A, 0, &[A5], &[MOVED_5A]), Refusal::NumbersEnd),
}];

#[test]
fn a_hand_without_a_serial_is_refused_and_changes_nothing(rt: HostRuntime) {
    all_go_aside(&rt, rt.alloc(), &HAND, &HAND_ASIDE);
}

const INWARD: LinkId = LinkId::Peripheral {
    node: 0,
    serial: 18446744073709551612,
};

const MOVED_1B: Descriptor = Descriptor {
    end: B1,
    link: INWARD,
    next_out: 0,
    next_in: 0,
};

const MOVED_1A: Descriptor = Descriptor {
    end: A1,
    link: LinkId::Peripheral {
        node: 0,
        serial: 18446744073709551613,
    },
    next_out: 0,
    next_in: 0,
};

const MOVED_0A: Descriptor = Descriptor {
    end: A0,
    link: LinkId::Peripheral {
        node: 0,
        serial: 18446744073709551614,
    },
    next_out: 1,
    next_in: 0,
};

// 1B gets parcels from node 0 itself, which moves no end: with 1A, with 0A, with none, and with an end that isn't there, as no
// trusted node sends one. Then 1B moves to node 1, and what it got follows. The links of the moved ends take the last serials; what
// needs none is still sent, and what needs one waits and stops no mail.
static SENDS: Run = Run {
    node: 0,
    first: 18446744073709551612,
    steps: &[
        Open(1),
        Deliver(0, Parcel(C1, B, 0, &[A1], &[]), true),
        Deliver(0, Parcel(C1, B, 1, &[A0], &[]), true),
        Deliver(0, Parcel(C1, B, 2, &[], &[]), true),
        Deliver(0, Parcel(C1, B, 3, &[A5], &[]), true),
        Put(A0, &[B1], Ok(0)),
        Turn(SendOut(18446744073709551612, 0, C0, &[B1])),
        Turn(Post(1)),
        Posted(Parcel(C0, B, 0, &[B1], &[MOVED_1B])),
        Turn(Rest(18446744073709551612)),
        Turn(SendIn(18446744073709551614, 0, INWARD, &[A1])),
        Turn(Post(1)),
        Posted(Parcel(INWARD, B, 0, &[A1], &[MOVED_1A])),
        Turn(ClaimNoWord(18446744073709551613)),
        Turn(Rest(18446744073709551613)),
        Turn(SendIn(18446744073709551614, 1, INWARD, &[A0])),
        Turn(Post(1)),
        Posted(Parcel(INWARD, B, 1, &[A0], &[MOVED_0A])),
        Turn(ClaimNoWord(18446744073709551612)),
        Turn(Rest(18446744073709551612)),
        Turn(SendIn(18446744073709551614, 2, INWARD, &[])),
        Turn(Post(1)),
        First(Act::Router(18446744073709551614, RouterAct::SendIn)),
        See(MAIL),
        Turn(Look(1)),
        See(CLEAR),
        Deliver(1, Flush(C0, A), true),
        Turn(Rest(18446744073709551612)),
        TurnRefused(Refusal::NumbersEnd),
        Quiet(false),
    ],
};

static SENDS_ASIDE: [Aside; 1] = [Aside {
    why: "no serial is left for the link of the end",
    after: 23,
    step: TurnRefused(Refusal::NumbersEnd),
}];

#[test]
fn a_send_without_a_serial_is_refused_and_changes_nothing(rt: HostRuntime) {
    all_go_aside(&rt, rt.alloc(), &SENDS, &SENDS_ASIDE);
}
