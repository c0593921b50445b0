//! The limit of a world is enough for a settle if no parcel that wasn't got carries portals.

use super::calls::{Call, puts};
use super::{A0, B0, a, all_go, b, get, is_got};
use ipcz_base::Refusal;
use ipcz_world::{Settled, Step, World};
use std::alloc::{AllocError, Global};

// The limits of terminals and proxies that have passed all that was put: 6 for each of the two marks and for Gone of each end, and 17
// or 61.
const TERMINAL: u64 = 41;

const PROXY: u64 = 85;

// Takes so many turns of two nodes: twenty of the one, then twenty of the other, and again.
fn take_turns(world: &mut World, count: usize) {
    for i in 0..count {
        let node = if i / 20 % 2 == 0 { 0 } else { 1 };
        world.step(&Step::Turn(node));
    }
}

// Settles a world within the limit that it tells.
fn settles_within_its_limit(world: &mut World) -> bool {
    let Some(limit) = world.settle_limit() else {
        return false;
    };
    match world.settle(limit) {
        Ok(Settled::Settled { after }) => after <= limit,
        Ok(Settled::Unsettled) | Err(_) => false,
    }
}

// A parcel has to pass both terminals. It is sent, and waits to be posted; then it is in the mailbox, and in hand.
static CALLS: [Call; 15] = [
    Call::Limit(2 * TERMINAL),
    Call::Settle(0, Some(0)),
    Call::Put(0, A0, b"a", &[], 0),
    Call::Limit(2 * TERMINAL + 12),
    Call::Turns(
        0,
        &["SendOut { serial: 0, n: 0, link: Central(0), moved: Sequence { items: [] } }"],
    ),
    Call::Limit(2 * TERMINAL + 6 + 38),
    Call::Turns(0, &["Post(1)"]),
    Call::Limit(2 * TERMINAL + 6 + 37),
    Call::Turns(1, &["Look(0)"]),
    Call::Limit(2 * TERMINAL + 6 + 37),
    Call::Turns(
        1,
        &["Hand { kind: Item(0), link: Central(0), unfit: false }"],
    ),
    Call::Limit(2 * TERMINAL + 6),
    Call::Settle(2 * TERMINAL + 6, Some(2)),
    Call::Get(1, B0, 0, b"a", &[]),
    Call::Limit(2 * TERMINAL),
];

#[test]
fn the_limit_is_read_off_the_world(rt: HostRuntime) {
    all_go(&rt, rt.alloc(), 2, 4, &CALLS);
}

// Whether both portals of a pair are put, each in a parcel to node 1.
fn both_are_put(world: &mut World, alloc: Global) -> Result<bool, AllocError> {
    let first = puts(world, alloc, 0, a(0), (b"x", &[a(1)]), 0)?;
    let second = puts(world, alloc, 0, a(0), (b"y", &[b(1)]), 1)?;
    Ok(first && second)
}

// Whether both portals are got at node 1.
fn both_are_got(world: &mut World) -> bool {
    let first = is_got(&world.step(&get(1, b(0))), 0, b"x", &[a(1)]);
    let second = is_got(&world.step(&get(1, b(0))), 1, b"y", &[b(1)]);
    first && second
}

// Moves both portals of a pair from node 0 to node 1, where they are got: two proxies share the pair's link.
fn both_move(world: &mut World, alloc: Global) -> Result<bool, AllocError> {
    world.step(&Step::Open(0));
    let are_put = both_are_put(world, alloc)?;
    // Each parcel is sent, posted, looked at and handed over.
    for node in [0, 0, 1, 1, 0, 0, 1, 1] {
        world.step(&Step::Turn(node));
    }
    Ok(are_put && both_are_got(world))
}

/// Whether a lock was held, and whether a side waited for the other.
#[derive(Drop)]
struct Seen {
    locked: bool,
    waiting: bool,
}

// Looks at each word.
fn look(world: &World, seen: &mut Seen) {
    for word in 0..world.claimed() {
        let number = world.word(word).unwrap_or(0);
        seen.locked |= number & 48 != 0;
        seen.waiting |= number & 12 != 0;
    }
}

// Puts a parcel, and takes so many turns; whether the limit that is then told is enough, and no proxy is left.
fn both_leave(
    world: &mut World,
    alloc: Global,
    turns: usize,
    seen: &mut Seen,
) -> Result<bool, AllocError> {
    let before = world.settle_limit() == Some(4 * TERMINAL + 2 * PROXY);
    let accepted = puts(world, alloc, 1, a(1), (b"z", &[]), 0)?;
    take_turns(world, turns);
    look(world, seen);
    let settled = settles_within_its_limit(world);
    let got = is_got(&world.step(&get(1, b(1))), 0, b"z", &[]);
    let after = world.settle_limit() == Some(4 * TERMINAL);
    Ok(before && accepted && settled && got && after)
}

// The same, once both portals have moved.
fn move_and_leave(
    world: &mut World,
    alloc: Global,
    turns: usize,
    seen: &mut Seen,
) -> Result<bool, Refusal> {
    Ok(both_move(world, alloc)? && both_leave(world, alloc, turns, seen)?)
}

// The same, on a new world.
fn both_leave_after(alloc: Global, turns: usize, seen: &mut Seen) -> Result<bool, Refusal> {
    let mut world = World::new(alloc, 2, 8)?;
    move_and_leave(&mut world, alloc, turns, seen)
}

// However far the two bypasses have come: a lock is held for a while, and for a while a side waits for the other.
#[test]
fn the_limit_is_enough_while_proxies_leave(rt: HostRuntime) {
    let mut seen = Seen {
        locked: false,
        waiting: false,
    };
    for turns in 0..80usize {
        let left = both_leave_after(rt.alloc(), turns, &mut seen);
        assert_eq!(rt; left, Ok(true), "{turns}");
    }
    assert!(rt; seen.locked);
    assert!(rt; seen.waiting);
}
