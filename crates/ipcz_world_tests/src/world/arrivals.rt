//! Which ends have arrived, and how many proxies a portal leaves that travels on only once it has.

use super::calls::{Call, opens, puts};
use super::{A0, A1, A3, B0, B1, B3, a, all_go, b, is_got};
use ipcz_base::{End, Refusal};
use ipcz_world::{Step, World};
use std::alloc::Global;

// Ends of pairs that were opened at their node have arrived, and so have those of first pairs. Where callers don't hold an end none is told.
static AT_HOME: [Call; 10] = [
    Call::Arrived(0, A0, Some(true)),
    Call::Arrived(1, B0, Some(true)),
    Call::Arrived(1, A0, None),
    Call::Arrived(2, A0, None),
    Call::Open(0, A1, B1),
    Call::Arrived(0, A1, Some(true)),
    Call::Arrived(0, B1, Some(true)),
    Call::Arrived(1, B1, None),
    Call::Close(0, A1, 0),
    Call::Arrived(0, A1, None),
];

#[test]
fn an_end_that_was_opened_has_arrived(rt: HostRuntime) {
    all_go(&rt, rt.alloc(), 2, 2, &AT_HOME);
}

// The bypass of docs/PROTOCOL.md, "Bypass": the moved end stands on a peripheral link, then on the new one while the old one decays, and then
// its side isn't marked yet. Its peer has arrived until it accepts, and again when it has marked its side.
static MOVED: [Call; 24] = [
    Call::Open(0, A1, B1),
    Call::Put(0, A0, b"m", &[B1], 0),
    Call::Arrived(0, B1, None),
    Call::Turns(
        0,
        &[
            "SendOut { serial: 0, n: 0, link: Central(0), moved: Sequence { items: [End { pair: 1, side: B }] } }",
            "Post(1)",
            "Rest(0)",
            "Claim(2, 2)",
            "Lock(2, Central(1), 547)",
            "Begin(2, Central(1))",
            "Rest(2)",
            "Idle",
        ],
    ),
    Call::Turns(
        1,
        &[
            "Look(0)",
            "Hand { kind: Item(0), link: Central(0), unfit: false }",
            "Rest(0)",
            "Idle",
        ],
    ),
    Call::Get(1, B0, 0, b"m", &[B1]),
    Call::Arrived(1, B1, Some(false)),
    Call::Turns(0, &["Post(1)", "Idle"]),
    Call::Turns(
        1,
        &[
            "Look(0)",
            "Hand { kind: BypassPeer, link: Peripheral { node: 0, serial: 0 }, unfit: false }",
            "Post(0)",
            "Rest(1)",
            "Idle",
        ],
    ),
    Call::Arrived(1, B1, Some(false)),
    Call::Arrived(0, A1, Some(true)),
    Call::Turns(
        0,
        &[
            "Look(1)",
            "Hand { kind: AcceptBypass, link: Central(1), unfit: false }",
        ],
    ),
    Call::Arrived(0, A1, Some(false)),
    Call::Turns(
        0,
        &[
            "Post(0)",
            "Look(0)",
            "Hand { kind: StopProxying, link: Central(1), unfit: false }",
            "Post(1)",
            "FinishOut(1, Central(1))",
        ],
    ),
    Call::Arrived(0, A1, Some(false)),
    Call::Turns(0, &["Mark(1, Central(2), 1)"]),
    Call::Arrived(0, A1, Some(true)),
    Call::Arrived(1, B1, Some(false)),
    Call::Turns(
        1,
        &[
            "Look(0)",
            "Hand { kind: ProxyWillStop, link: Peripheral { node: 0, serial: 0 }, unfit: false }",
            "FinishOut(1, Peripheral { node: 0, serial: 0 })",
        ],
    ),
    Call::Arrived(1, B1, Some(false)),
    Call::Turns(1, &["Mark(1, Central(2), 3)"]),
    Call::Arrived(1, B1, Some(true)),
    Call::SettleWithin(100),
    Call::Routers(0, Some(2)),
];

#[test]
fn a_moved_end_has_arrived_when_its_proxy_is_bypassed(rt: HostRuntime) {
    all_go(&rt, rt.alloc(), 2, 4, &MOVED);
}

// A proxy that found no word stays in the route.
static WITHOUT_A_WORD: [Call; 6] = [
    Call::Open(0, A1, B1),
    Call::Put(0, A0, b"m", &[B1], 0),
    Call::SettleWithin(100),
    Call::Get(1, B0, 0, b"m", &[B1]),
    Call::Arrived(1, B1, Some(false)),
    Call::Routers(0, Some(3)),
];

#[test]
fn an_end_whose_proxy_found_no_word_has_not_arrived(rt: HostRuntime) {
    all_go(&rt, rt.alloc(), 2, 2, &WITHOUT_A_WORD);
}

// The nodes of the way round, and how many hops are made.
const NODES: u8 = 3;

const HOPS: u64 = 60;

// The end at which a node puts what is to go to the next one; it is got at the opposite end.
fn way_from(node: u8) -> End {
    match node {
        0 => a(0),
        1 => a(2),
        _ => b(1),
    }
}

// The node behind one.
fn behind(node: u8) -> u8 {
    match node {
        0 => 1,
        1 => 2,
        _ => 0,
    }
}

// Lets each node take a turn.
fn pass(world: &mut World) {
    for node in 0..NODES {
        let _ = world.step(&Step::Turn(node));
    }
}

// How many routers all nodes have.
fn routers_of(world: &World) -> usize {
    let mut count: usize = 0;
    for node in 0..NODES {
        count = count.saturating_add(world.routers(node).unwrap_or(0));
    }
    count
}

// Whether the portal that was sent to a node is got there, and arrives.
fn comes(world: &mut World, node: u8, from: End, hop: u64) -> bool {
    let mut is_here = false;
    for _ in 0..100 {
        if is_here && world.has_arrived(node, B3) == Some(true) {
            return true;
        }
        pass(world);
        is_here = is_here || is_got(&world.get(node, from.opposite()), hop / 3, b"m", &[B3]);
    }
    false
}

// The first hop behind which there is more than one router beside those of the first pairs and the two terminals.
fn first_crowded(world: &mut World, alloc: Global) -> Result<Option<u64>, Refusal> {
    let mut node = 0;
    for hop in 0..HOPS {
        let from = way_from(node);
        if !puts(world, alloc, node, from, (b"m", &[B3]), hop / 3)? {
            return Ok(Some(hop));
        }
        node = behind(node);
        if !comes(world, node, from, hop) || routers_of(world) > 9 {
            return Ok(Some(hop));
        }
    }
    Ok(None)
}

// The same, of a portal that was opened on node 0 of three.
fn first_crowded_of(alloc: Global) -> Result<Option<u64>, Refusal> {
    let mut world = World::new(alloc, NODES, 100)?;
    if opens(&mut world, 0, A3, B3) {
        first_crowded(&mut world, alloc)
    } else {
        Ok(Some(HOPS))
    }
}

#[test]
fn a_portal_that_travels_on_once_it_has_arrived_leaves_one_proxy(rt: HostRuntime) {
    assert_eq!(rt; first_crowded_of(rt.alloc()), Ok(None));
}
