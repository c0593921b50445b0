//! Link words that are used up: what an open and a proxy are answered once each word is claimed.

use super::calls::{self, Call, first_wrong};
use super::{A0, A1, B0, B1, a, b, is_refused};
use ipcz_base::{End, Refusal, Side};
use ipcz_world::{Step, World};
use std::alloc::Global;

/// As many link words as a world can have.
const WORDS: u32 = 4096;

const LAST_A: End = End {
    pair: 4095,
    side: Side::A,
};

const LAST_B: End = End {
    pair: 4095,
    side: Side::B,
};

// Whether an open on node 0 gives the pair of this number.
fn opens(world: &mut World, pair: u64) -> bool {
    calls::opens(world, 0, a(pair), b(pair))
}

// Whether opens on node 0 give each pair from the second to the last.
fn open_all(world: &mut World) -> bool {
    for pair in 1..u64::from(WORDS) {
        if !opens(world, pair) {
            return false;
        }
    }
    true
}

// The last pair's portal of side B moves from node 0 to node 1. The proxy that it leaves is router 8190, since node 0 has router 0 for the
// first pair and two for each other; it finds no word, and rests as a proxy. What is put at the other portal still comes, by the proxy.
static CALLS: [Call; 16] = [
    Call::OpenRefused(0, Refusal::NoWord),
    Call::OpenRefused(1, Refusal::NoWord),
    Call::Claimed(4096),
    Call::Word(4095, Some(3)),
    Call::Word(4096, None),
    Call::Put(0, A0, b"m", &[LAST_B], 0),
    Call::Turns(
        0,
        &[
            "SendOut { serial: 0, n: 0, link: Central(0), moved: Sequence { items: [End { pair: 4095, side: B }] } }",
            "Post(1)",
            "Rest(0)",
            "ClaimNoWord(8190)",
            "Rest(8190)",
            "Idle",
        ],
    ),
    Call::OpenRefused(0, Refusal::NoWord),
    Call::OpenRefused(1, Refusal::NoWord),
    Call::Claimed(4096),
    Call::Put(0, LAST_A, b"p", &[], 0),
    Call::Settle(1000, Some(14)),
    Call::Get(1, B0, 0, b"m", &[LAST_B]),
    Call::Get(1, LAST_B, 0, b"p", &[]),
    Call::OpenRefused(0, Refusal::NoWord),
    Call::Claimed(4096),
];

// Whether each word is claimed by an open, and then these calls give what they should.
fn goes_without_words(alloc: Global) -> Result<bool, Refusal> {
    let mut world = World::new(alloc, 2, WORDS)?;
    Ok(open_all(&mut world) && first_wrong(&mut world, alloc, &CALLS)?.is_none())
}

#[test]
fn an_open_and_a_proxy_find_each_word_claimed(rt: HostRuntime) {
    assert_eq!(rt; goes_without_words(rt.alloc()), Ok(true));
}

// Whether an open finds no word.
fn finds_none(world: &mut World) -> bool {
    is_refused(&world.step(&Step::Open(0)), Refusal::NoWord)
}

// Whether words that are added to a world without one are given to the next opens, in their order, and to no more; and whether a world is as it
// was after it was refused more than there is room for.
fn gets_words(alloc: Global) -> Result<bool, Refusal> {
    let mut world = World::new(alloc, 2, 1)?;
    let without = world.words_left() == 0 && finds_none(&mut world);
    world.add_words(2)?;
    let added = world.words_left() == 2 && world.claimed() == 1 && world.word(1).is_none();
    let refused = world.add_words(u64::MAX) == Err(Refusal::OutOfMemory);
    let kept = world.words_left() == 2 && opens(&mut world, 1) && opens(&mut world, 2);
    let used = world.words_left() == 0 && finds_none(&mut world);
    Ok(without && added && refused && kept && used)
}

#[test]
fn words_that_are_added_are_claimed_behind_the_others(rt: HostRuntime) {
    assert_eq!(rt; gets_words(rt.alloc()), Ok(true));
}

// The portal of side B of pair 1 moves from node 0 to node 1, and no word is left for the proxy that it leaves at node 0, by which it is
// reached.
static MOVES: [Call; 6] = [
    Call::Left(0),
    Call::Put(0, A0, b"m", &[B1], 0),
    Call::SettleWithin(1000),
    Call::Get(1, B0, 0, b"m", &[B1]),
    Call::Left(0),
    Call::Routers(0, Some(3)),
];

// Words alone don't make it go.
static STAYS: [Call; 4] = [
    Call::Quiet(true),
    Call::SettleWithin(1000),
    Call::Left(2),
    Call::Routers(0, Some(3)),
];

// It asks again, and goes; what is put behind it still comes.
static GOES: [Call; 8] = [
    Call::Quiet(false),
    Call::Left(2),
    Call::Routers(0, Some(3)),
    Call::SettleWithin(1000),
    Call::Left(1),
    Call::Routers(0, Some(2)),
    Call::Put(0, A1, b"p", &[], 0),
    Call::SettleWithin(1000),
];

// Whether a proxy that found no word stays after words were added, and goes once it was let ask again; and whether nothing changes where none
// waits.
fn leaves(world: &mut World, alloc: Global) -> Result<bool, Refusal> {
    let new = world.retry() == 0 && world.is_quiet() && opens(world, 1);
    let moved = first_wrong(world, alloc, &MOVES)?.is_none();
    world.add_words(2)?;
    let stays = first_wrong(world, alloc, &STAYS)?.is_none();
    let asks = world.retry() == 1 && world.retry() == 0;
    let goes = first_wrong(world, alloc, &GOES)?.is_none();
    let last = world.retry() == 0 && world.is_quiet();
    Ok(new && moved && stays && asks && goes && last)
}

// The same, in a new world. (What has several ways out borrows its world, since each at which one is dropped is dear to prove.)
fn leaves_in_time(alloc: Global) -> Result<bool, Refusal> {
    let mut world = World::new(alloc, 2, 2)?;
    leaves(&mut world, alloc)
}

#[test]
fn a_proxy_that_found_no_word_goes_once_it_may_ask_again(rt: HostRuntime) {
    assert_eq!(rt; leaves_in_time(rt.alloc()), Ok(true));
}
