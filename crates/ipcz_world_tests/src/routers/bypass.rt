//! A proxy, the routers beside it, and its bypass step by step.

use super::Step::{
    self, AcceptBypass, Act, BypassPeer, Carry, Is, Move, ProxyWillStop, Put, Rouse, StopProxying,
    Terminal, Unlock,
};
use super::deeds::Deed::{Claim, ClaimNoWord, Lock, Mark, Plain, Refused, Wait, Wake};
use super::deeds::Given::{Nothing, Told};
use super::sights::Sight::{Flagged, Inward, Next, Outward, Possible, Word};
use super::{Trial, all_go};
use ipcz_base::{Descriptor, End, LinkEnd, LinkId, Refusal, Side};
use ipcz_router::act::RouterAct;
use std::alloc::{AllocError, Global};

const OLD: LinkId = LinkId::Central(0);

const FRESH: LinkId = LinkId::Central(2);

const INNER: LinkId = LinkId::Peripheral { node: 1, serial: 0 };

const A0: End = End {
    pair: 0,
    side: Side::A,
};

const B0: End = End {
    pair: 0,
    side: Side::B,
};

// X, the terminal of 0A on node 0.
const X: usize = 0;

// Y, the router of 0B on node 1, whose terminal moves to node 2.
const Y: usize = 1;

// Z on node 2, to which the terminal of 0B has moved.
const Z: usize = 2;

// X faces node 1 over C0.
const TO_Y: LinkEnd = LinkEnd {
    link: OLD,
    side: Side::A,
    other: 1,
};

// Y faces node 0 over C0.
const TO_X: LinkEnd = LinkEnd {
    link: OLD,
    side: Side::B,
    other: 0,
};

// Y faces node 2 over the link of the move.
const TO_Z: LinkEnd = LinkEnd {
    link: INNER,
    side: Side::A,
    other: 2,
};

const AT_Z: Descriptor = Descriptor {
    end: B0,
    link: INNER,
    next_out: 0,
    next_in: 0,
};

// X's end of the fresh link.
const FRESH_X: Option<LinkEnd> = Some(LinkEnd {
    link: FRESH,
    side: Side::A,
    other: 2,
});

// Z's end of the fresh link.
const FRESH_Z: Option<LinkEnd> = Some(LinkEnd {
    link: FRESH,
    side: Side::B,
    other: 0,
});

// X, the proxy Y and Z.
static CHAIN: [Step; 3] = [
    Terminal(A0, TO_Y, 0),
    Terminal(B0, TO_X, 0),
    Move(Y, TO_Z, AT_Z, 1),
];

// Four items go inward over Y and two outward.
static USED: [Step; 18] = [
    Put(X, b'a', Ok(0)),
    Carry(X, Plain(RouterAct::SendOut), Y, OLD, 0),
    Carry(Y, Plain(RouterAct::SendIn), Z, INNER, 0),
    Put(X, b'a', Ok(1)),
    Carry(X, Plain(RouterAct::SendOut), Y, OLD, 1),
    Carry(Y, Plain(RouterAct::SendIn), Z, INNER, 1),
    Put(X, b'a', Ok(2)),
    Carry(X, Plain(RouterAct::SendOut), Y, OLD, 2),
    Carry(Y, Plain(RouterAct::SendIn), Z, INNER, 2),
    Put(X, b'a', Ok(3)),
    Carry(X, Plain(RouterAct::SendOut), Y, OLD, 3),
    Carry(Y, Plain(RouterAct::SendIn), Z, INNER, 3),
    Put(Z, b'b', Ok(0)),
    Carry(Z, Plain(RouterAct::SendOut), Y, INNER, 0),
    Carry(Y, Plain(RouterAct::SendOut), X, OLD, 0),
    Put(Z, b'b', Ok(1)),
    Carry(Z, Plain(RouterAct::SendOut), Y, INNER, 1),
    Carry(Y, Plain(RouterAct::SendOut), X, OLD, 1),
];

// Y claims C2, locks C0 and begins: both its links decay with unknown lengths, and Z is told. A fifth item goes inward over them.
static BEGIN: [Step; 11] = [
    Is(Y, Word(Some((0, Side::B)))),
    Act(Y, Claim(2), Nothing),
    Act(Y, Lock(35), Nothing),
    Act(
        Y,
        Plain(RouterAct::Begin),
        Told(
            2,
            "BypassPeer { link: Peripheral { node: 1, serial: 0 }, side: B, old: 0, target: 0, fresh: 2 }",
        ),
    ),
    Is(Y, Word(None)),
    Is(Y, Outward(None, None, None)),
    Is(Y, Inward(None, None)),
    Put(X, b'c', Ok(4)),
    Carry(X, Plain(RouterAct::SendOut), Y, OLD, 4),
    Carry(Y, Plain(RouterAct::SendIn), Z, INNER, 4),
    Act(Y, Plain(RouterAct::Rest), Nothing),
];

// Z turns to C2 at its number 2; a message for another side or of a central link doesn't fit, nor does a second one.
static Z_TURNS: [Step; 8] = [
    BypassPeer(Z, INNER, Side::A, [0, 2], 0, Err(Refusal::Stranger)),
    BypassPeer(Z, OLD, Side::B, [0, 2], 0, Err(Refusal::Stranger)),
    BypassPeer(
        Z,
        INNER,
        Side::B,
        [0, 2],
        0,
        Ok(Some((0, "AcceptBypass { old: 0, side: A, fresh: 2, length: 2 }"))),
    ),
    Is(Z, Flagged(true)),
    Is(Z, Possible(RouterAct::Wake, false)),
    Is(Z, Outward(FRESH_Z, Some(2), None)),
    BypassPeer(Z, INNER, Side::B, [0, 3], 0, Err(Refusal::Stranger)),
    Is(Z, Word(Some((2, Side::B)))),
];

// X turns to it at its number 5, toward the node that AcceptBypass came from. Its old link goes, and its side of C2 is marked.
static X_TURNS: [Step; 14] = [
    Is(X, Possible(RouterAct::Mark, false)),
    AcceptBypass(X, 2, Side::B, 2, Some(2), Err(Refusal::Stranger)),
    AcceptBypass(X, 2, Side::B, 2, None, Err(Refusal::Stranger)),
    AcceptBypass(X, 2, Side::A, 2, None, Err(Refusal::Forged)),
    AcceptBypass(X, 2, Side::A, 2, Some(1), Err(Refusal::Forged)),
    AcceptBypass(
        X,
        2,
        Side::A,
        2,
        Some(2),
        Ok(Some((
            1,
            "StopProxying { side: B, old: 0, in_length: 5, out_length: 2 }",
        ))),
    ),
    Is(X, Flagged(true)),
    Is(X, Possible(RouterAct::Wake, false)),
    Is(X, Outward(FRESH_X, Some(5), Some(2))),
    AcceptBypass(X, 2, Side::A, 2, Some(2), Err(Refusal::Stranger)),
    Act(X, Plain(RouterAct::FinishOut), Nothing),
    Act(X, Mark(1, false), Nothing),
    Is(X, Possible(RouterAct::Mark, false)),
    Act(X, Plain(RouterAct::Rest), Nothing),
];

// Y learns both lengths, the inward ones the other way round, and leaves.
static Y_STOPS: [Step; 9] = [
    StopProxying(Y, Side::A, [5, 2], Err(Refusal::Stranger)),
    StopProxying(
        Y,
        Side::B,
        [5, 2],
        Ok(Some((
            2,
            "ProxyWillStop { link: Peripheral { node: 1, serial: 0 }, side: B, in_length: 5 }",
        ))),
    ),
    Is(Y, Flagged(true)),
    Is(Y, Outward(None, Some(2), Some(5))),
    Is(Y, Inward(Some(5), Some(2))),
    StopProxying(Y, Side::B, [5, 2], Err(Refusal::Stranger)),
    Act(Y, Plain(RouterAct::FinishOut), Nothing),
    Act(Y, Plain(RouterAct::FinishIn), Nothing),
    Act(Y, Plain(RouterAct::Leave), Nothing),
];

// Z learns the length of what comes over Y, once; then what it puts comes to X over C2.
static Z_STOPS: [Step; 10] = [
    ProxyWillStop(Z, INNER, Side::A, 5, Err(Refusal::Stranger)),
    ProxyWillStop(Z, INNER, Side::B, 5, Ok(None)),
    Is(Z, Outward(FRESH_Z, Some(2), Some(5))),
    ProxyWillStop(Z, INNER, Side::B, 5, Err(Refusal::Stranger)),
    Act(Z, Plain(RouterAct::FinishOut), Nothing),
    Act(Z, Mark(3, false), Nothing),
    Is(Z, Possible(RouterAct::Mark, false)),
    Act(Z, Plain(RouterAct::Rest), Nothing),
    Put(Z, b'd', Ok(2)),
    Carry(Z, Plain(RouterAct::SendOut), X, FRESH, 2),
];

// The first part with a step that doesn't give what it says, and the place of that step there.
fn first_wrong(alloc: Global, parts: &[&[Step]]) -> Result<Option<(usize, usize)>, AllocError> {
    let mut trial = Trial::new(alloc);
    for (part, steps) in parts.iter().enumerate() {
        if let Some(place) = trial.first_wrong(*steps)? {
            return Ok(Some((part, place)));
        }
    }
    Ok(None)
}

#[test]
fn a_proxy_is_bypassed_step_by_step(rt: HostRuntime) {
    let parts = [
        CHAIN.as_slice(),
        &USED,
        &BEGIN,
        &Z_TURNS,
        &X_TURNS,
        &Y_STOPS,
        &Z_STOPS,
    ];
    assert_eq!(rt; first_wrong(rt.alloc(), &parts), Ok(None));
}

// A claim that finds no word is the last one, whatever comes.
static NO_WORD: [Step; 13] = [
    Terminal(A0, TO_Y, 0),
    Terminal(B0, TO_X, 0),
    Move(Y, TO_Z, AT_Z, 1),
    Act(Y, ClaimNoWord, Nothing),
    Act(Y, Plain(RouterAct::Rest), Nothing),
    Put(X, b'a', Ok(0)),
    Carry(X, Plain(RouterAct::SendOut), Y, OLD, 0),
    Is(Y, Flagged(true)),
    Carry(Y, Plain(RouterAct::SendIn), Z, INNER, 0),
    Act(Y, Plain(RouterAct::Rest), Nothing),
    Rouse(Y),
    Is(Y, Flagged(true)),
    Act(Y, Plain(RouterAct::Rest), Nothing),
];

#[test]
fn a_proxy_without_a_word_stays_one(rt: HostRuntime) {
    all_go(&rt, rt.alloc(), &NO_WORD);
}

// A side that waits or is refused tries again when it is roused; a lock that is given back is tried for at once.
static TRIES: [Step; 15] = [
    Terminal(A0, TO_Y, 0),
    Terminal(B0, TO_X, 0),
    Move(Y, TO_Z, AT_Z, 1),
    Act(Y, Claim(2), Nothing),
    Act(Y, Wait(10), Nothing),
    Act(Y, Plain(RouterAct::Rest), Nothing),
    Rouse(Y),
    Act(Y, Refused(19), Nothing),
    Act(Y, Plain(RouterAct::Rest), Nothing),
    Rouse(Y),
    Act(Y, Lock(35), Nothing),
    Is(Y, Next(RouterAct::Begin)),
    Unlock(Y, 3),
    Is(Y, Flagged(true)),
    Is(Y, Next(RouterAct::Lock)),
];

#[test]
fn a_try_for_the_lock_is_made_once_and_again_when_roused(rt: HostRuntime) {
    all_go(&rt, rt.alloc(), &TRIES);
}

// A terminal on the first link of a pair is marked at birth; one made from a descriptor marks no peripheral link. On a fresh link it marks
// its side and wakes the other one, which was waiting.
static MARKS: [Step; 11] = [
    Terminal(A0, TO_Y, 0),
    Terminal(B0, TO_X, 0),
    Move(Y, TO_Z, AT_Z, 1),
    Is(X, Possible(RouterAct::Mark, false)),
    Is(Z, Next(RouterAct::Rest)),
    BypassPeer(
        Z,
        INNER,
        Side::B,
        [0, 2],
        0,
        Ok(Some((0, "AcceptBypass { old: 0, side: A, fresh: 2, length: 0 }"))),
    ),
    ProxyWillStop(Z, INNER, Side::B, 0, Ok(None)),
    Act(Z, Plain(RouterAct::FinishOut), Nothing),
    Act(Z, Mark(7, true), Nothing),
    Act(Z, Wake(3), Told(0, "Flush { link: Central(2), side: A }")),
    Act(Z, Plain(RouterAct::Rest), Nothing),
];

#[test]
fn a_side_is_marked_and_the_other_one_woken(rt: HostRuntime) {
    all_go(&rt, rt.alloc(), &MARKS);
}
