//! Worlds stepped and run, and what they answer, by docs/PROTOCOL.md.
mod arrivals;
mod asking;
mod bypass;
mod calls;
mod direct;
mod limits;
mod retiring;
mod soak;
mod words;

ghost use Rattle.ipcz_world.specs.Lawful.{IsWithinLimits};

use self::calls::{Call, first_wrong};
use ipcz_base::{Bytes, End, PortalStatus, Refusal, Sequence, Side, Sizes};
use ipcz_world::{Reply, Step, World};
use std::alloc::{AllocError, Global};
use std::process::Abort;
use std::test::Fail;

const A0: End = End {
    pair: 0,
    side: Side::A,
};

const B0: End = End {
    pair: 0,
    side: Side::B,
};

const A1: End = End {
    pair: 1,
    side: Side::A,
};

const B1: End = End {
    pair: 1,
    side: Side::B,
};

const A3: End = End {
    pair: 3,
    side: Side::A,
};

const B3: End = End {
    pair: 3,
    side: Side::B,
};

// The end of side A of a pair.
fn a(pair: u64) -> End {
    End {
        pair,
        side: Side::A,
    }
}

// The end of side B of a pair.
fn b(pair: u64) -> End {
    End {
        pair,
        side: Side::B,
    }
}

// The step that puts these bytes and ends.
fn put(
    alloc: Global,
    node: u8,
    at: End,
    data: &[u8],
    attached: &[End],
) -> Result<Step, AllocError> {
    let bytes = Bytes::from_slice(alloc, data)?;
    let mut ends = Vec::new(alloc);
    ends.extend_from_slice(attached)?;
    Ok(Step::Put {
        node,
        at,
        bytes,
        ends: Sequence::from_vec(ends),
    })
}

fn get(node: u8, at: End) -> Step {
    Step::Get { node, at }
}

// Whether the reply is the put's number.
fn is_put(reply: &Reply, number: u64) -> bool {
    matches!(reply, Reply::Put(n) if *n == number)
}

// Whether the reply is the parcel of these bytes and ends, with its number.
fn is_got(reply: &Reply, number: u64, data: &[u8], attached: &[End]) -> bool {
    match reply {
        Reply::Got(n, parcel) => *n == number
            && parcel.bytes.as_slice() == data
            && parcel.ends.as_slice() == attached,
        _ => false,
    }
}

fn is_refused(reply: &Reply, want: Refusal) -> bool {
    matches!(reply, Reply::Refused(why) if *why == want)
}

// A pair on the one node of a world, with two parcels put at its side A.
fn two_parcels(alloc: Global) -> Result<[Step; 4], AllocError> {
    Ok([
        Step::Open(0),
        put(alloc, 0, a(0), b"a", &[])?,
        put(alloc, 0, a(0), b"b", &[])?,
        get(0, b(0)),
    ])
}

// Whether these are the replies to those steps.
fn are_two_parcels(replies: &[Reply]) -> bool {
    match replies {
        [Reply::Opened(first, second), one, two, three] => *first == a(0)
            && *second == b(0)
            && is_put(one, 0)
            && is_put(two, 1)
            && is_refused(three, Refusal::Empty),
        _ => false,
    }
}

// The replies to steps that are taken one by one.
fn stepped(world: &mut World, alloc: Global, steps: &[Step]) -> Result<Vec<Reply>, AllocError> {
    let mut replies = Vec::new(alloc);
    for step in steps {
        replies.push(world.step(step))?;
    }
    Ok(replies)
}

// Whether two parcels are put and looked for, step by step.
fn two_are_stepped(alloc: Global, steps: &[Step]) -> Result<bool, Refusal> {
    let mut world = World::new(alloc, 1, 1)?;
    Ok(are_two_parcels(stepped(&mut world, alloc, steps)?.as_slice()))
}

// Whether these are the replies to those steps in one run, and a run of no steps has no replies.
fn runs_two(world: &mut World, alloc: Global, steps: &[Step]) -> Result<bool, Refusal> {
    let are_two = are_two_parcels(world.run(alloc, steps)?.as_slice());
    Ok(are_two && world.run(alloc, &[])?.is_empty())
}

// Whether two parcels are put and looked for in one run.
fn two_are_run(alloc: Global, steps: &[Step]) -> Result<bool, Refusal> {
    let mut world = World::new(alloc, 1, 1)?;
    runs_two(&mut world, alloc, steps)
}

#[test]
fn steps_give_what_their_run_gives(rt: HostRuntime) -> Result<(), Fail> {
    let steps = two_parcels(rt.alloc())?;
    assert_eq!(rt; two_are_stepped(rt.alloc(), &steps), Ok(true));
    assert_eq!(rt; two_are_run(rt.alloc(), &steps), Ok(true));
    Ok(())
}

// The first call that doesn't give what it should, on a new world of so many nodes and words.
fn first_wrong_of(
    alloc: Global,
    nodes: u8,
    words: u32,
    calls: &[Call],
) -> Result<Option<usize>, Refusal>
    requires { IsWithinLimits nodes words }
{
    let mut world = World::new(alloc, nodes, words)?;
    Ok(first_wrong(&mut world, alloc, calls)?)
}

// Each call has to give what it should, on a new world of so many nodes and words. (A test that asserts this itself is several times as
// dear to prove.)
fn all_go(rt: &impl Abort, alloc: Global, nodes: u8, words: u32, calls: &[Call])
    requires { IsWithinLimits nodes words }
{
    assert_eq!(rt; first_wrong_of(alloc, nodes, words, calls), Ok(None));
}

// The caller that the README shows.
static HELLO: [Call; 3] = [
    Call::Put(0, A0, b"hello", &[], 0),
    Call::Settle(100, Some(6)),
    Call::Get(1, B0, 0, b"hello", &[]),
];

#[test]
fn carries_hello_from_node_to_node(rt: HostRuntime) {
    all_go(&rt, rt.alloc(), 2, 4, &HELLO);
}

// Two sends, a post, a look and a hand for each message, and a rest of each router.
static TEN_ACTS: [[Call; 9]; 4] = [
    [
        Call::Open(0, A0, B0),
        Call::Put(0, A0, b"a", &[], 0),
        Call::Put(0, A0, b"b", &[], 1),
        Call::Settle(100, Some(10)),
        Call::Settle(u64::MAX, Some(0)),
        Call::Settle(0, Some(0)),
        Call::Get(0, B0, 0, b"a", &[]),
        Call::Get(0, B0, 1, b"b", &[]),
        Call::GetRefused(0, B0, Refusal::Empty),
    ],
    [
        Call::Open(0, A0, B0),
        Call::Put(0, A0, b"a", &[], 0),
        Call::Put(0, A0, b"b", &[], 1),
        Call::Settle(10, Some(10)),
        Call::Settle(u64::MAX, Some(0)),
        Call::Settle(0, Some(0)),
        Call::Get(0, B0, 0, b"a", &[]),
        Call::Get(0, B0, 1, b"b", &[]),
        Call::GetRefused(0, B0, Refusal::Empty),
    ],
    [
        Call::Open(0, A0, B0),
        Call::Put(0, A0, b"a", &[], 0),
        Call::Put(0, A0, b"b", &[], 1),
        Call::Settle(9, None),
        Call::Settle(u64::MAX, Some(1)),
        Call::Settle(0, Some(0)),
        Call::Get(0, B0, 0, b"a", &[]),
        Call::Get(0, B0, 1, b"b", &[]),
        Call::GetRefused(0, B0, Refusal::Empty),
    ],
    [
        Call::Open(0, A0, B0),
        Call::Put(0, A0, b"a", &[], 0),
        Call::Put(0, A0, b"b", &[], 1),
        Call::Settle(0, None),
        Call::Settle(u64::MAX, Some(10)),
        Call::Settle(0, Some(0)),
        Call::Get(0, B0, 0, b"a", &[]),
        Call::Get(0, B0, 1, b"b", &[]),
        Call::GetRefused(0, B0, Refusal::Empty),
    ],
];

#[test]
fn settles_after_ten_acts(rt: HostRuntime) {
    for calls in TEN_ACTS.iter() {
        all_go(&rt, rt.alloc(), 1, 1, calls);
    }
}

// A parcel that is all that a world has to do: six acts, between nodes and within one, whichever of its routers has the lower serial.
static LONE_PARCELS: [Call; 19] = [
    Call::Put(0, A0, b"a", &[], 0),
    Call::Settle(6, Some(6)),
    Call::Put(1, B0, b"b", &[], 0),
    Call::Settle(u64::MAX, Some(6)),
    Call::Put(2, B1, b"c", &[], 0),
    Call::Settle(5, None),
    Call::Settle(6, Some(1)),
    Call::Get(1, B0, 0, b"a", &[]),
    Call::Get(0, A0, 0, b"b", &[]),
    Call::Get(0, A1, 0, b"c", &[]),
    Call::Open(1, A3, B3),
    Call::Put(1, A3, b"d", &[], 0),
    Call::Settle(6, Some(6)),
    Call::Put(1, B3, b"e", &[], 0),
    Call::Settle(5, None),
    Call::Settle(6, Some(1)),
    Call::Get(1, B3, 0, b"d", &[]),
    Call::Get(1, A3, 0, b"e", &[]),
    Call::Settle(0, Some(0)),
];

#[test]
fn settles_a_lone_parcel_after_six_acts(rt: HostRuntime) {
    all_go(&rt, rt.alloc(), 3, 4, &LONE_PARCELS);
}

// The sender sends, posts and rests; the receiver looks, hands and rests. In three passes node 0 sends, posts and rests, and node 1 looks
// and hands.
static PASSES: [Call; 10] = [
    Call::Quiet(true),
    Call::Put(0, A0, b"a", &[], 0),
    Call::Quiet(false),
    Call::Settle(5, None),
    Call::Turns(0, &["Idle"]),
    Call::Quiet(false),
    Call::Turns(1, &["Rest(0)"]),
    Call::Quiet(true),
    Call::Settle(0, Some(0)),
    Call::Get(1, B0, 0, b"a", &[]),
];

#[test]
fn settles_two_nodes_in_passes(rt: HostRuntime) {
    all_go(&rt, rt.alloc(), 2, 1, &PASSES);
}

// Once the second word is claimed, each is.
static OPENS: [Call; 17] = [
    Call::Claimed(1),
    Call::Left(1),
    Call::Word(0, Some(3)),
    Call::Word(1, None),
    Call::Holder(A0, Some(0)),
    Call::Holder(B0, Some(1)),
    Call::Holder(A1, None),
    Call::Open(1, A1, B1),
    Call::Claimed(2),
    Call::Left(0),
    Call::Quiet(true),
    Call::Word(1, Some(3)),
    Call::Word(2, None),
    Call::Word(u64::MAX, None),
    Call::Holder(B1, Some(1)),
    Call::OpenRefused(1, Refusal::NoWord),
    Call::Claimed(2),
];

#[test]
fn an_open_claims_the_next_word(rt: HostRuntime) {
    all_go(&rt, rt.alloc(), 2, 2, &OPENS);
}

static NO_WORDS: [Call; 2] = [Call::Claimed(0), Call::Word(0, None)];

// The last pair is that of the last two nodes.
static EIGHT_NODES: [Call; 5] = [
    Call::Claimed(28),
    Call::Word(27, Some(3)),
    Call::Word(28, None),
    Call::Holder(
        End {
            pair: 27,
            side: Side::A,
        },
        Some(6),
    ),
    Call::Holder(
        End {
            pair: 27,
            side: Side::B,
        },
        Some(7),
    ),
];

#[test]
fn worlds_of_the_limits_are_made(rt: HostRuntime) {
    all_go(&rt, rt.alloc(), 1, 0, &NO_WORDS);
    all_go(&rt, rt.alloc(), 8, 28, &EIGHT_NODES);
    all_go(&rt, rt.alloc(), 8, 4096, &EIGHT_NODES);
}

// Calls on nodes that aren't there. Then callers of node 1 don't hold the end, and each word is claimed.
static STRANGERS: [Call; 25] = [
    Call::OpenRefused(2, Refusal::Stranger),
    Call::PutRefused(2, A0, &[A0], Refusal::Stranger),
    Call::GetRefused(2, A0, Refusal::Stranger),
    Call::CloseRefused(2, A0, Refusal::Stranger),
    Call::TurnRefused(2, Refusal::Stranger),
    Call::OpenRefused(7, Refusal::Stranger),
    Call::PutRefused(7, A0, &[A0], Refusal::Stranger),
    Call::GetRefused(7, A0, Refusal::Stranger),
    Call::CloseRefused(7, A0, Refusal::Stranger),
    Call::TurnRefused(7, Refusal::Stranger),
    Call::OpenRefused(8, Refusal::Stranger),
    Call::PutRefused(8, A0, &[A0], Refusal::Stranger),
    Call::GetRefused(8, A0, Refusal::Stranger),
    Call::CloseRefused(8, A0, Refusal::Stranger),
    Call::TurnRefused(8, Refusal::Stranger),
    Call::OpenRefused(255, Refusal::Stranger),
    Call::PutRefused(255, A0, &[A0], Refusal::Stranger),
    Call::GetRefused(255, A0, Refusal::Stranger),
    Call::CloseRefused(255, A0, Refusal::Stranger),
    Call::TurnRefused(255, Refusal::Stranger),
    Call::PutRefused(1, A0, &[], Refusal::Stranger),
    Call::GetRefused(1, A0, Refusal::Stranger),
    Call::CloseRefused(1, A0, Refusal::Stranger),
    Call::OpenRefused(0, Refusal::NoWord),
    Call::Turns(1, &["Idle"]),
];

#[test]
fn a_node_that_is_not_there_is_a_stranger(rt: HostRuntime) {
    all_go(&rt, rt.alloc(), 2, 1, &STRANGERS);
}

// The mark comes behind the parcel.
static CLOSE: [Call; 9] = [
    Call::Put(0, A0, b"a", &[], 0),
    Call::Close(0, A0, 1),
    Call::CloseRefused(0, A0, Refusal::Stranger),
    Call::Holder(A0, None),
    Call::Settle(100, Some(10)),
    Call::PutRefused(1, B0, &[], Refusal::PeerClosed),
    Call::Get(1, B0, 0, b"a", &[]),
    Call::GetRefused(1, B0, Refusal::PeerClosed),
    Call::GetRefused(1, B0, Refusal::PeerClosed),
];

#[test]
fn a_close_is_heard_at_the_peer(rt: HostRuntime) {
    all_go(&rt, rt.alloc(), 2, 1, &CLOSE);
}

const ALL_BYTES: Sizes = Sizes {
    bytes: 65_536,
    ends: 0,
};

// The greatest wide parcel and an empty one, of bytes that don't print; and what a get would give, before and after it has come.
static WIDE: [Call; 10] = [
    Call::WideRefused(0, A0, 65_537, Refusal::TooMany),
    Call::PutWide(0, A0, 0xFF, 65_536, 0),
    Call::PutWide(0, A0, 0, 0, 1),
    Call::NextSizes(1, B0, None),
    Call::NextSizes(2, B0, None),
    Call::Settle(100, Some(10)),
    Call::NextSizes(1, B0, Some(ALL_BYTES)),
    Call::NextSizes(0, B0, None),
    Call::GetWide(1, B0, 0, 0xFF, 65_536),
    Call::GetWide(1, B0, 1, 0, 0),
];

#[test]
fn a_wide_parcel_has_any_bytes(rt: HostRuntime) {
    all_go(&rt, rt.alloc(), 2, 1, &WIDE);
}

// What is told before a parcel has come to B0, and while the first is the next and while the second is.
const NONE_YET: PortalStatus = PortalStatus {
    next: 0,
    sizes: None,
    waiting: 0,
    peer_closed: false,
};

const BOTH_WAIT: PortalStatus = PortalStatus {
    next: 0,
    sizes: Some(Sizes { bytes: 5, ends: 0 }),
    waiting: 2,
    peer_closed: true,
};

const ONE_WAITS: PortalStatus = PortalStatus {
    next: 1,
    sizes: Some(Sizes { bytes: 2, ends: 0 }),
    waiting: 1,
    peer_closed: true,
};

const ALL_GOT: PortalStatus = PortalStatus {
    next: 2,
    sizes: None,
    waiting: 0,
    peer_closed: true,
};

// Two parcels and the mark come, and are got one by one; no look takes anything.
static LOOKS: [Call; 15] = [
    Call::Look(0, B0, None),
    Call::Look(2, B0, None),
    Call::Look(1, B0, Some(NONE_YET)),
    Call::Put(0, A0, b"first", &[], 0),
    Call::Put(0, A0, b"it", &[], 1),
    Call::Close(0, A0, 2),
    Call::Look(1, B0, Some(NONE_YET)),
    Call::SettleWithin(100),
    Call::Look(1, B0, Some(BOTH_WAIT)),
    Call::Look(1, B0, Some(BOTH_WAIT)),
    Call::Get(1, B0, 0, b"first", &[]),
    Call::Look(1, B0, Some(ONE_WAITS)),
    Call::Get(1, B0, 1, b"it", &[]),
    Call::Look(1, B0, Some(ALL_GOT)),
    Call::GetRefused(1, B0, Refusal::PeerClosed),
];

// Node 1 has the terminal of B0 from the start, of serial 0, and those of the pair that it opens, of serials 1 and 2. A parcel comes at B0 and one at
// B1; then all is got, and the peer of B0 is closed.
static READY: [Call; 22] = [
    Call::Ready(1, 0, None),
    Call::Put(0, A0, b"first", &[], 0),
    Call::Ready(1, 0, None),
    Call::SettleWithin(100),
    Call::Ready(1, 0, Some((0, B0))),
    Call::Ready(1, 1, None),
    Call::Ready(0, 0, None),
    Call::Ready(2, 0, None),
    Call::Open(1, A1, B1),
    Call::Put(1, A1, b"it", &[], 0),
    Call::SettleWithin(100),
    Call::Ready(1, 0, Some((0, B0))),
    Call::Ready(1, 1, Some((2, B1))),
    Call::Ready(1, 3, None),
    Call::Get(1, B0, 0, b"first", &[]),
    Call::Ready(1, 0, Some((2, B1))),
    Call::Close(0, A0, 1),
    Call::SettleWithin(100),
    Call::Ready(1, 0, Some((0, B0))),
    Call::GetRefused(1, B0, Refusal::PeerClosed),
    Call::Close(1, B0, 0),
    Call::Ready(1, 0, Some((2, B1))),
];

#[test]
fn the_ends_where_something_has_come_are_told_one_by_one(rt: HostRuntime) {
    all_go(&rt, rt.alloc(), 2, 2, &READY);
}

#[test]
fn a_look_tells_what_gets_would_answer(rt: HostRuntime) {
    all_go(&rt, rt.alloc(), 2, 1, &LOOKS);
}
