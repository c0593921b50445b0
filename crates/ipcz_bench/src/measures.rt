//! What each measure does, and how long it takes.
use crate::fault::Fault;
use crate::limits::looseness_at;
use crate::trial::{
    Portal, close, first_pair, get_all, open, open_all, pass, put, put_all, settle,
};
use ipcz_world::World;
use std::fs;
use std::time::Instant;

/// The bytes of a parcel, but for the long ones.
const SHORT: usize = 16;

/// How many pairs the measures of many pairs have, and how many rounds each of these pairs has.
const PAIRS: u32 = 1000;

/// How many moves a world makes: each takes a link word, of 4,096.
const MOVES: u64 = 4000;

/// A measure that is taken in one world. It is borrowed, since each function in which a world is dropped is dear to prove.
#[derive(Clone, Copy)]
enum InOneWorld {
    /// Parcels on the last of so many pairs of one node.
    LastOf(u32),
    /// Parcels on each of 1,000 pairs of one node, in turn.
    EachPair,
    /// The same on pairs between two nodes: of each a portal has moved.
    EachMovedPair,
    /// Parcels of so many bytes between two nodes, while so many others wait to be got.
    Between(usize, u64),
    /// The acts that carry parcels between two nodes, without the puts and gets.
    ActsAlone,
    /// Pairs that are opened, used and closed, each before the next.
    Lives,
    /// What memory a pair takes on one node, once so many parcels passed on each of 4,000.
    BytesOfPairs(u64),
    /// What memory is left of a pair that was used and closed on one node, of 4,000.
    BytesOfClosedPairs,
}

use InOneWorld::{
    ActsAlone, Between, BytesOfClosedPairs, BytesOfPairs, EachMovedPair, EachPair, LastOf, Lives,
};

/// Takes a measure of so many rounds, and gives nanoseconds or bytes: the rounded-down share of one parcel, act, move or pair.
pub fn measure(rt: &HostRuntime, name: &str, rounds: u64) -> Result<u64, Fault> {
    match name {
        "one_node" => on_one_node(rt, LastOf(1), rounds),
        "last_pair" => on_one_node(rt, LastOf(4 * PAIRS), rounds),
        "each_pair" => on_one_node(rt, EachPair, rounds),
        "each_moved_pair" => on_two_nodes(rt, EachMovedPair, rounds),
        "two_nodes" => on_two_nodes(rt, Between(SHORT, 0), rounds),
        "long_parcels" => on_two_nodes(rt, Between(256, 0), rounds),
        "waiting_1" => on_two_nodes(rt, Between(SHORT, 1), rounds),
        "waiting_10" => on_two_nodes(rt, Between(SHORT, 10), rounds),
        "waiting_100" => on_two_nodes(rt, Between(SHORT, 100), rounds),
        "waiting_1000" => on_two_nodes(rt, Between(SHORT, 1000), rounds),
        "act" => on_two_nodes(rt, ActsAlone, rounds),
        "moves" => moves(rt, rounds),
        "lives" => lives(rt, rounds),
        "closed_pairs" => on_one_node(rt, BytesOfClosedPairs, rounds),
        "fresh_pairs" => on_one_node(rt, BytesOfPairs(0), rounds),
        "used_pairs" => on_one_node(rt, BytesOfPairs(1), rounds),
        "limit_least" => looseness_at(rt.alloc(), rounds, false, 0),
        "limit_median" => looseness_at(rt.alloc(), rounds, false, 50),
        "limit_worst" => looseness_at(rt.alloc(), rounds, false, 100),
        "moved_least" => looseness_at(rt.alloc(), rounds, true, 0),
        "moved_median" => looseness_at(rt.alloc(), rounds, true, 50),
        "moved_worst" => looseness_at(rt.alloc(), rounds, true, 100),
        _ => Err(Fault::Usage),
    }
}

// Takes a measure in a world of one node.
fn on_one_node(rt: &HostRuntime, measure: InOneWorld, rounds: u64) -> Result<u64, Fault> {
    let mut world = World::new(rt.alloc(), 1, 4096)?;
    take(rt, &mut world, measure, rounds)
}

// Takes a measure in a world of two nodes.
fn on_two_nodes(rt: &HostRuntime, measure: InOneWorld, rounds: u64) -> Result<u64, Fault> {
    let mut world = World::new(rt.alloc(), 2, 4096)?;
    take(rt, &mut world, measure, rounds)
}

// Takes a measure.
fn take(
    rt: &HostRuntime,
    world: &mut World,
    measure: InOneWorld,
    rounds: u64,
) -> Result<u64, Fault> {
    match measure {
        LastOf(pairs) => last_of(rt, world, pairs, rounds),
        EachPair => each_pair(rt, world, rounds),
        EachMovedPair => each_moved_pair(rt, world, rounds),
        Between(length, waiting) => between(rt, world, length, waiting, rounds),
        ActsAlone => acts_alone(rt, world, rounds),
        Lives => live_all(rt, world, rounds),
        BytesOfPairs(parcels) => bytes_of_pairs(rt, world, parcels),
        BytesOfClosedPairs => bytes_of_closed_pairs(rt, world),
    }
}

// The share of one in so many nanoseconds.
fn share(rt: &HostRuntime, start: Instant, count: u64) -> Result<u64, Fault> {
    let spent = start.elapsed(rt)?.as_nanos();
    match spent.checked_div(count as u128) {
        Some(each) if each <= u64::MAX as u128 => Ok(each as u64),
        _ => Err(Fault::Usage),
    }
}

// Parcels on the last of so many pairs of one node.
fn last_of(rt: &HostRuntime, world: &mut World, pairs: u32, rounds: u64) -> Result<u64, Fault> {
    let (from, to) = open_all(world, pairs)?;
    let start = Instant::now(rt)?;
    pass(rt.alloc(), world, from, to, SHORT, rounds)?;
    share(rt, start, rounds)
}

// A put on each pair, one settle, and a get on each.
fn visit(rt: &HostRuntime, world: &mut World, pairs: &[(Portal, Portal)]) -> Result<(), Fault> {
    for (from, _) in pairs {
        put(rt.alloc(), world, *from, SHORT, None)?;
    }
    settle(world)?;
    for (_, to) in pairs {
        get_all(world, *to, 1)?;
    }
    Ok(())
}

// 1,000 new pairs on node 0.
fn many(rt: &HostRuntime, world: &mut World) -> Result<Vec<(Portal, Portal)>, Fault> {
    let mut pairs = Vec::new(rt.alloc());
    for _ in 0..PAIRS {
        pairs.push(open(world)?)?;
    }
    Ok(pairs)
}

// Visits pairs so many times.
fn visit_all(
    rt: &HostRuntime,
    world: &mut World,
    pairs: &[(Portal, Portal)],
    visits: u64,
) -> Result<u64, Fault> {
    let start = Instant::now(rt)?;
    for _ in 0..visits {
        visit(rt, world, pairs)?;
    }
    share(rt, start, visits.saturating_mul(PAIRS as u64))
}

// Parcels on each of 1,000 pairs of one node, in turn.
fn each_pair(rt: &HostRuntime, world: &mut World, rounds: u64) -> Result<u64, Fault> {
    let pairs = many(rt, world)?;
    visit_all(rt, world, pairs.as_slice(), rounds / PAIRS as u64)
}

// 1,000 new pairs of node 0, of each of which one portal moves to node 1.
fn many_moved(rt: &HostRuntime, world: &mut World) -> Result<Vec<(Portal, Portal)>, Fault> {
    let mut pairs = Vec::new(rt.alloc());
    for _ in 0..PAIRS {
        let (still, moved) = open(world)?;
        let there = move_portal(rt, world, first_pair(), still, moved)?;
        pairs.push((still, there))?;
    }
    Ok(pairs)
}

// Parcels on each of 1,000 pairs between two nodes, in turn.
fn each_moved_pair(rt: &HostRuntime, world: &mut World, rounds: u64) -> Result<u64, Fault> {
    let pairs = many_moved(rt, world)?;
    visit_all(rt, world, pairs.as_slice(), rounds / PAIRS as u64)
}

// Parcels of so many bytes between two nodes, while others wait to be got.
fn between(
    rt: &HostRuntime,
    world: &mut World,
    length: usize,
    waiting: u64,
    rounds: u64,
) -> Result<u64, Fault> {
    let (from, to) = first_pair();
    put_all(rt.alloc(), world, from, waiting)?;
    settle(world)?;
    let start = Instant::now(rt)?;
    pass(rt.alloc(), world, from, to, length, rounds)?;
    share(rt, start, rounds)
}

// The acts that carry parcels between two nodes, without the puts and gets.
fn acts_alone(rt: &HostRuntime, world: &mut World, rounds: u64) -> Result<u64, Fault> {
    let (from, _) = first_pair();
    put_all(rt.alloc(), world, from, rounds)?;
    let start = Instant::now(rt)?;
    let acts = settle(world)?;
    share(rt, start, acts)
}

// Moves a portal from the holder of `over.0` to that of `over.1`, and ten parcels after it.
fn move_portal(
    rt: &HostRuntime,
    world: &mut World,
    over: (Portal, Portal),
    still: Portal,
    moved: Portal,
) -> Result<Portal, Fault> {
    put(rt.alloc(), world, over.0, SHORT, Some(moved.end))?;
    settle(world)?;
    get_all(world, over.1, 1)?;
    put_all(rt.alloc(), world, still, 10)?;
    settle(world)?;
    let there = Portal {
        node: over.1.node,
        end: moved.end,
    };
    get_all(world, there, 10)?;
    Ok(there)
}

// A portal that goes to and fro between two nodes.
fn go(rt: &HostRuntime, world: &mut World, count: u64) -> Result<(), Fault> {
    let (left, right) = first_pair();
    let (still, mut moved) = open(world)?;
    for _ in 0..count {
        let over = if moved.node == 0 {
            (left, right)
        } else {
            (right, left)
        };
        moved = move_portal(rt, world, over, still, moved)?;
    }
    Ok(())
}

// The same, in a world of its own.
fn go_to_and_fro(rt: &HostRuntime, count: u64) -> Result<(), Fault> {
    let mut world = World::new(rt.alloc(), 2, 4096)?;
    go(rt, &mut world, count)
}

// Moves of a portal between two nodes, in as many worlds as they take.
fn moves(rt: &HostRuntime, rounds: u64) -> Result<u64, Fault> {
    let start = Instant::now(rt)?;
    for _ in 0..rounds / MOVES {
        go_to_and_fro(rt, MOVES)?;
    }
    go_to_and_fro(rt, rounds % MOVES)?;
    share(rt, start, rounds)
}

// How many bytes of the process are in memory, as Linux tells in pages of 4,096.
fn resident(rt: &HostRuntime) -> Result<u64, Fault> {
    let text = fs::read_to_string(rt, "/proc/self/statm")?;
    let Some(pages) = text.as_str().split(' ').nth(1) else {
        return Err(Fault::System);
    };
    match pages.parse::<u64>() {
        Ok(pages) => Ok(pages.saturating_mul(4096)),
        Err(_) => Err(Fault::System),
    }
}

// What memory a pair takes on one node, once so many parcels passed on each of 4,000.
fn bytes_of_pairs(rt: &HostRuntime, world: &mut World, parcels: u64) -> Result<u64, Fault> {
    let before = resident(rt)?;
    for _ in 0..4 * PAIRS {
        let (from, to) = open(world)?;
        pass(rt.alloc(), world, from, to, SHORT, parcels)?;
        pass(rt.alloc(), world, to, from, SHORT, parcels)?;
    }
    Ok(resident(rt)?.saturating_sub(before) / (4 * PAIRS as u64))
}

// Opens a pair on one node, passes a parcel each way, and closes both of its portals.
fn live(rt: &HostRuntime, world: &mut World) -> Result<(), Fault> {
    let (from, to) = open(world)?;
    pass(rt.alloc(), world, from, to, SHORT, 1)?;
    pass(rt.alloc(), world, to, from, SHORT, 1)?;
    close(world, from)?;
    close(world, to)?;
    settle(world)?;
    Ok(())
}

// So many pairs that are opened, used and closed, each before the next.
fn live_all(rt: &HostRuntime, world: &mut World, count: u64) -> Result<u64, Fault> {
    for _ in 0..count {
        live(rt, world)?;
    }
    Ok(count)
}

// The lives of pairs, in as many worlds as they take.
fn lives(rt: &HostRuntime, rounds: u64) -> Result<u64, Fault> {
    let start = Instant::now(rt)?;
    for _ in 0..rounds / (4 * PAIRS as u64) {
        on_one_node(rt, Lives, 4 * PAIRS as u64)?;
    }
    on_one_node(rt, Lives, rounds % (4 * PAIRS as u64))?;
    share(rt, start, rounds)
}

// What memory is left of a pair that was used and closed on one node, of 4,000.
fn bytes_of_closed_pairs(rt: &HostRuntime, world: &mut World) -> Result<u64, Fault> {
    let before = resident(rt)?;
    for _ in 0..4 * PAIRS {
        live(rt, world)?;
    }
    Ok(resident(rt)?.saturating_sub(before) / (4 * PAIRS as u64))
}
