//! Pairs whose both ends are closed: no router of theirs is left.

ghost use Rattle.ipcz_world.specs.Lawful.{IsWithinLimits};

use super::calls::{Call, first_wrong};
use super::{A0, A1, B0, B1, all_go};
use ipcz_base::Refusal;
use ipcz_world::World;
use std::alloc::Global;

// Both ends of a pair on one node are closed, and the first one retires. A word stays locked for good.
static ONE_NODE: [Call; 12] = [
    Call::Routers(0, Some(0)),
    Call::Routers(1, None),
    Call::Open(0, A0, B0),
    Call::Routers(0, Some(2)),
    Call::Close(0, A0, 0),
    Call::Close(0, B0, 0),
    // A sink is a router, though no caller holds its end.
    Call::Routers(0, Some(2)),
    Call::Turns(
        0,
        &[
            "SendOut { serial: 0, n: 0, link: Central(0), moved: Sequence { items: [] } }",
            "Post(0)",
            "Look(0)",
            "Hand { kind: Item(0), link: Central(0), unfit: false }",
            "Rest(0)",
            "SendOut { serial: 1, n: 0, link: Central(0), moved: Sequence { items: [] } }",
            "Post(0)",
            "Look(0)",
            "Hand { kind: Item(0), link: Central(0), unfit: false }",
            "Discard(0, 0)",
            "Lock(0, Central(0), 19)",
            "Retire(0, 1, Central(0))",
        ],
    ),
    Call::Routers(0, Some(1)),
    Call::Turns(
        0,
        &[
            "Post(0)",
            "Look(0)",
            "Hand { kind: Item(1), link: Central(0), unfit: false }",
            "Discard(1, 0)",
            "DiscardLeave(1, 1)",
            "Idle",
        ],
    ),
    Call::Routers(0, Some(0)),
    Call::Word(0, Some(19)),
];

#[test]
fn a_closed_pair_leaves_one_node(rt: HostRuntime) {
    all_go(&rt, rt.alloc(), 1, 1, &ONE_NODE);
}

// The end 1B moves from node 0 to node 1, where it is got.
static MOVES: [Call; 4] = [
    Call::Open(0, A1, B1),
    Call::Put(0, A0, b"m", &[B1], 0),
    Call::SettleWithin(1000),
    Call::Get(1, B0, 0, b"m", &[B1]),
];

// The proxy that it left, router 2 of node 0, has found no word, and leaves behind Gone.
static WITHOUT_A_WORD: [Call; 10] = [
    Call::Routers(0, Some(3)),
    Call::Routers(1, Some(2)),
    Call::Close(0, A1, 0),
    Call::Close(1, B1, 0),
    Call::SettleWithin(1000),
    Call::Claimed(2),
    Call::Word(0, Some(3)),
    Call::Word(1, Some(19)),
    Call::Routers(0, Some(1)),
    Call::Routers(1, Some(1)),
];

// Its proxy was bypassed, and the two terminals share a link. That of node 1 is the first to lock it.
static AFTER_A_BYPASS: [Call; 15] = [
    Call::Routers(0, Some(2)),
    Call::Routers(1, Some(2)),
    Call::Close(0, A1, 0),
    Call::Close(1, B1, 0),
    Call::Turns(
        0,
        &[
            "SendOut { serial: 1, n: 0, link: Central(2), moved: Sequence { items: [] } }",
            "Post(1)",
            "Rest(1)",
            "Idle",
        ],
    ),
    Call::Turns(
        1,
        &[
            "Look(0)",
            "Hand { kind: Item(0), link: Central(2), unfit: false }",
            "SendOut { serial: 1, n: 0, link: Central(2), moved: Sequence { items: [] } }",
            "Post(0)",
            "Discard(1, 0)",
            "Lock(1, Central(2), 35)",
            "Retire(1, 1, Central(2))",
            "Idle",
        ],
    ),
    Call::Turns(
        0,
        &[
            "Look(1)",
            "Hand { kind: Item(0), link: Central(2), unfit: false }",
            "Discard(1, 0)",
            "Refused(1, Central(2), 35)",
            "Rest(1)",
            "Idle",
        ],
    ),
    Call::Turns(1, &["Post(0)", "Idle"]),
    Call::Turns(
        0,
        &[
            "Look(1)",
            "Hand { kind: Item(1), link: Central(2), unfit: false }",
            "DiscardLeave(1, 1)",
            "Idle",
        ],
    ),
    Call::Word(0, Some(3)),
    Call::Word(1, Some(547)),
    Call::Word(2, Some(35)),
    Call::Routers(0, Some(1)),
    Call::Routers(1, Some(1)),
    Call::Routers(2, None),
];

// Whether the end moves, and then these calls give what they should.
fn moves_and_goes_on(world: &mut World, alloc: Global, calls: &[Call]) -> Result<bool, Refusal> {
    Ok(first_wrong(world, alloc, &MOVES)?.is_none() && first_wrong(world, alloc, calls)?.is_none())
}

// The same, on a new world of two nodes and so many words.
fn goes_on(alloc: Global, words: u32, calls: &[Call]) -> Result<bool, Refusal>
    requires { IsWithinLimits 2 words }
{
    let mut world = World::new(alloc, 2, words)?;
    moves_and_goes_on(&mut world, alloc, calls)
}

#[test]
fn a_proxy_without_a_word_leaves_behind_gone(rt: HostRuntime) {
    assert_eq!(rt; goes_on(rt.alloc(), 2, &WITHOUT_A_WORD), Ok(true));
}

#[test]
fn a_closed_pair_leaves_two_nodes_after_a_bypass(rt: HostRuntime) {
    assert_eq!(rt; goes_on(rt.alloc(), 8, &AFTER_A_BYPASS), Ok(true));
}

// Both ends have moved from node 0 to node 1, and neither proxy has found a word. No sink has a link with a word, so none can lock it: such
// a pair stays though both its ends are closed.
static BETWEEN_PROXIES: [Call; 10] = [
    Call::Open(0, A1, B1),
    Call::Put(0, A0, b"m", &[A1, B1], 0),
    Call::SettleWithin(1000),
    Call::Get(1, B0, 0, b"m", &[A1, B1]),
    Call::Close(1, A1, 0),
    Call::Close(1, B1, 0),
    Call::SettleWithin(1000),
    Call::Word(1, Some(3)),
    Call::Routers(0, Some(3)),
    Call::Routers(1, Some(3)),
];

#[test]
fn a_closed_pair_stays_between_two_proxies_without_a_word(rt: HostRuntime) {
    all_go(&rt, rt.alloc(), 2, 2, &BETWEEN_PROXIES);
}

// The limits of a terminal that has nothing to pass, and of each number that it has still to pass.
const TERMINAL: u64 = 41;

const NUMBER: u64 = 6;

// Once the first sink has retired, what its end has put is told only by Gone: in an outbox, in a mailbox, in hand, and in the queue of
// the other sink, which has the mark and Gone still to drop.
static LIMITS: [Call; 20] = [
    Call::Open(0, A0, B0),
    Call::Close(0, A0, 0),
    Call::Close(0, B0, 0),
    Call::Turns(
        0,
        &[
            "SendOut { serial: 0, n: 0, link: Central(0), moved: Sequence { items: [] } }",
            "Post(0)",
            "Look(0)",
            "Hand { kind: Item(0), link: Central(0), unfit: false }",
            "Rest(0)",
            "SendOut { serial: 1, n: 0, link: Central(0), moved: Sequence { items: [] } }",
            "Post(0)",
            "Look(0)",
            "Hand { kind: Item(0), link: Central(0), unfit: false }",
            "Discard(0, 0)",
            "Lock(0, Central(0), 19)",
        ],
    ),
    Call::Limit(2 * TERMINAL + NUMBER),
    Call::Turns(0, &["Retire(0, 1, Central(0))"]),
    Call::Limit(TERMINAL + 2 * NUMBER + 38),
    Call::Turns(0, &["Post(0)"]),
    Call::Limit(TERMINAL + 2 * NUMBER + 37),
    Call::Turns(0, &["Look(0)"]),
    Call::Limit(TERMINAL + 2 * NUMBER + 37),
    Call::Turns(
        0,
        &["Hand { kind: Item(1), link: Central(0), unfit: false }"],
    ),
    Call::Limit(TERMINAL + 2 * NUMBER),
    Call::Turns(0, &["Discard(1, 0)"]),
    Call::Limit(TERMINAL + NUMBER),
    Call::Settle(1, Some(1)),
    Call::Limit(0),
    Call::Routers(0, Some(0)),
    Call::Settle(0, Some(0)),
    Call::Word(0, Some(19)),
];

#[test]
fn the_limit_counts_what_gone_tells(rt: HostRuntime) {
    all_go(&rt, rt.alloc(), 1, 1, &LIMITS);
}
