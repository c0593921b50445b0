//! Why a put, a get or a close is refused, in the order of the tests.

use super::Step::{Close, Deliver, Get, Holds, Open, Put, PutBytes, PutWide, Quiet, Strays};
use super::letters::Letter;
use super::{A0, A1, B0, B1, C0, Step, all_go};
use ipcz_base::{Descriptor, End, LinkId, Refusal, Side};
use std::test::Fail;

// Each row has the causes of the rows after it too, as far as they can be had at once. 0B is held
// on node 1.
static REFUSED: [Step; 17] = [
    Open(1),
    PutBytes(B0, 0x7F, 257, &[B0, A0], Err(Refusal::Stranger)),
    Quiet(true),
    PutBytes(A1, 0x1F, 257, &[A1, B1, B0], Err(Refusal::TooMany)),
    Quiet(true),
    PutBytes(
        A1,
        0x1F,
        1,
        &[A1, B1, B0, A0, A0, A0, A0, A0, A0],
        Err(Refusal::TooMany),
    ),
    Quiet(true),
    PutBytes(
        A1,
        0x1F,
        256,
        &[B1, A1, B0, A0, A0, A0, A0, A0],
        Err(Refusal::BadData),
    ),
    Quiet(true),
    PutBytes(A1, 0x7F, 1, &[], Err(Refusal::BadData)),
    Quiet(true),
    PutBytes(A1, 0x20, 1, &[B0, B1, A1], Err(Refusal::SelfAttach)),
    Quiet(true),
    PutBytes(A0, 0x7E, 1, &[A1, A1, B0], Err(Refusal::PeerAttach)),
    Quiet(true),
    PutBytes(A1, 0x20, 0, &[A0, A0], Err(Refusal::Stranger)),
    Quiet(true),
];

#[test]
fn puts_are_refused_in_order(rt: HostRuntime) {
    all_go(&rt, rt.alloc(), 0, 2, &[&REFUSED]);
}

const A5: End = End {
    pair: 5,
    side: Side::A,
};

const B5: End = End {
    pair: 5,
    side: Side::B,
};

const MOVED_5A: Descriptor = Descriptor {
    end: A5,
    link: LinkId::Peripheral { node: 1, serial: 0 },
    next_out: 18446744073709551612,
    next_in: 0,
};

// 5A comes from node 1 with one number left for a put.
static TAKES_THE_LAST: [Step; 9] = [
    Deliver(1, Letter::Parcel(C0, Side::A, 0, &[A5], &[MOVED_5A]), true),
    Holds(A5, false),
    Get(A0, Ok(0)),
    Holds(A5, true),
    Put(A5, &[], Ok(18446744073709551612)),
    Put(A5, &[B5], Err(Refusal::PeerAttach)),
    Put(A5, &[A0], Err(Refusal::NumbersEnd)),
    Holds(A0, true),
    Close(A5, Ok(18446744073709551613)),
];

#[test]
fn the_last_number_is_the_marks_alone(rt: HostRuntime) {
    all_go(&rt, rt.alloc(), 0, 2, &[&TAKES_THE_LAST]);
}

const A2: End = End {
    pair: 2,
    side: Side::A,
};

const B2: End = End {
    pair: 2,
    side: Side::B,
};

const A3: End = End {
    pair: 3,
    side: Side::A,
};

const B3: End = End {
    pair: 3,
    side: Side::B,
};

const A4: End = End {
    pair: 4,
    side: Side::A,
};

const B4: End = End {
    pair: 4,
    side: Side::B,
};

const EIGHT: &[End] = &[A1, B1, A2, B2, A3, B3, A4, B4];

// No byte, the most of the least value, one of the greatest, and the most bytes with the most ends.
static ACCEPTED: [Step; 17] = [
    Open(1),
    Open(2),
    Open(3),
    Open(4),
    PutBytes(A0, 0x20, 0, &[], Ok(0)),
    PutBytes(A0, 0x20, 256, &[], Ok(1)),
    PutBytes(A0, 0x7E, 1, &[], Ok(2)),
    PutBytes(A0, 0x7E, 256, EIGHT, Ok(3)),
    Holds(A1, false),
    Holds(B1, false),
    Holds(A2, false),
    Holds(B2, false),
    Holds(A3, false),
    Holds(B3, false),
    Holds(A4, false),
    Holds(B4, false),
    Holds(A0, true),
];

#[test]
fn a_put_of_the_most_bytes_and_ends_is_accepted(rt: HostRuntime) {
    all_go(&rt, rt.alloc(), 0, 2, &[&ACCEPTED]);
}

// A wide parcel has any bytes, and more of them; its ends are tested as a printed one's are.
static WIDE: [Step; 8] = [
    Open(1),
    PutWide(A0, 0, 65_537, &[], Err(Refusal::TooMany)),
    PutWide(A0, 0x1F, 257, &[A0], Err(Refusal::SelfAttach)),
    PutWide(A0, 0x7F, 1, &[B0], Err(Refusal::PeerAttach)),
    PutWide(B0, 0, 0, &[], Err(Refusal::Stranger)),
    PutWide(A0, 0xFF, 65_536, &[A1, B1], Ok(0)),
    Holds(A1, false),
    PutWide(A0, 0, 257, &[], Ok(1)),
];

#[test]
fn a_wide_put_takes_any_bytes(rt: HostRuntime) {
    all_go(&rt, rt.alloc(), 0, 2, &[&WIDE]);
}

// The mark of 0B comes before the parcel in front of it. What is tested before it is refused before
// it.
static CLOSED: [Step; 14] = [
    Put(A0, &[], Ok(0)),
    Deliver(1, Letter::Mark(C0, Side::A, 1), true),
    Put(A0, &[], Err(Refusal::PeerClosed)),
    Put(A0, &[B0], Err(Refusal::PeerAttach)),
    Put(A0, &[A1], Err(Refusal::Stranger)),
    Get(A0, Err(Refusal::Empty)),
    Deliver(1, Letter::Parcel(C0, Side::A, 0, &[], &[]), true),
    Get(A0, Ok(0)),
    Get(A0, Err(Refusal::PeerClosed)),
    Get(A0, Err(Refusal::PeerClosed)),
    Put(A0, &[], Err(Refusal::PeerClosed)),
    Close(A0, Ok(1)),
    Get(A0, Err(Refusal::Stranger)),
    Strays(0),
];

#[test]
fn a_mark_behind_a_gap_refuses_puts_and_no_get(rt: HostRuntime) {
    all_go(&rt, rt.alloc(), 0, 2, &[&CLOSED]);
}
