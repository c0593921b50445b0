//! Acts that are asked for by name: another order than that of turns, and acts that aren't possible.

use super::{A0, B0};
use ipcz_base::{Bytes, Refusal, Sequence};
use ipcz_node::Act;
use ipcz_router::act::RouterAct;
use ipcz_world::{NotTaken, Reply, World};
use std::alloc::{AllocError, Global};

const SEND: Act = Act::Router(0, RouterAct::SendOut);

const REST: Act = Act::Router(0, RouterAct::Rest);

// Whether a node may take these acts now.
fn may_all(world: &World, node: u8, acts: &[Act]) -> bool {
    acts.iter().all(|act| world.can_act(node, *act))
}

// Whether a node may take none of these, and is refused each.
fn may_none(world: &mut World, node: u8, acts: &[Act]) -> bool {
    for act in acts {
        if world.can_act(node, *act) {
            return false;
        }
        if !matches!(world.act(node, *act), Err(NotTaken::NotPossible)) {
            return false;
        }
    }
    true
}

// Whether a node takes an act.
fn takes(world: &mut World, node: u8, act: Act) -> bool {
    world.act(node, act).is_ok()
}

// Whether a parcel is put at node 0.
fn puts(alloc: Global, world: &mut World) -> Result<bool, AllocError> {
    let bytes = Bytes::from_slice(alloc, b"a")?;
    let ends = Sequence::from_vec(Vec::new(alloc));
    Ok(world.put(0, A0, bytes, ends).is_ok())
}

// Whether it is got on node 1.
fn gets(world: &mut World) -> bool {
    match world.get(1, B0) {
        Reply::Got(0, parcel) => parcel.bytes.as_slice() == b"a".as_slice(),
        _ => false,
    }
}

// What the nodes of a new world may do.
fn starts(world: &mut World) -> bool {
    may_all(world, 0, &[Act::Idle])
        && may_none(world, 0, &[SEND, Act::Look(1), Act::Hand(1)])
        && may_none(world, 2, &[Act::Idle])
}

// The router that sends the parcel rests before the message is posted.
fn sends(world: &mut World) -> bool {
    may_all(world, 0, &[SEND])
        && may_none(world, 0, &[REST, Act::Idle, Act::Post(1)])
        && takes(world, 0, SEND)
        && may_all(world, 0, &[REST, Act::Post(1)])
        && may_none(world, 0, &[SEND, Act::Post(0)])
        && takes(world, 0, REST)
        && takes(world, 0, Act::Post(1))
}

// It comes into the hand of node 1, and is handled.
fn arrives(world: &mut World) -> bool {
    world.hand(1).is_none()
        && takes(world, 1, Act::Look(0))
        && world.hand(1) == Some(0)
        && may_none(world, 1, &[Act::Hand(1), Act::Look(0)])
        && takes(world, 1, Act::Hand(0))
}

fn goes(alloc: Global, world: &mut World) -> Result<bool, AllocError> {
    Ok(starts(world) && puts(alloc, world)? && sends(world) && arrives(world) && gets(world))
}

fn goes_in_a_new_world(alloc: Global) -> Result<bool, Refusal> {
    let mut world = World::new(alloc, 2, 8)?;
    Ok(goes(alloc, &mut world)?)
}

#[test]
fn acts_are_taken_in_another_order(rt: HostRuntime) {
    assert_eq!(rt; goes_in_a_new_world(rt.alloc()), Ok(true));
}

// Whether these are all acts that a node may take, in their order.
fn lists(alloc: Global, world: &World, node: u8, acts: &[Act]) -> Result<bool, AllocError> {
    Ok(world.possible_acts(alloc, node)?.as_slice() == acts)
}

// Whether what may be taken next is listed, and then taken, at each step of the parcel's way.
fn lists_on_the_way(alloc: Global, world: &mut World) -> Result<bool, AllocError> {
    let starts = lists(alloc, world, 0, &[REST, Act::Idle])? && lists(alloc, world, 2, &[])?;
    let puts = puts(alloc, world)? && lists(alloc, world, 0, &[SEND])?;
    let sends = takes(world, 0, SEND) && lists(alloc, world, 0, &[Act::Post(1), REST])?;
    let posts = takes(world, 0, Act::Post(1)) && lists(alloc, world, 0, &[REST])?;
    let comes = lists(alloc, world, 1, &[Act::Look(0), REST])?;
    let looks = takes(world, 1, Act::Look(0)) && lists(alloc, world, 1, &[Act::Hand(0), REST])?;
    let hears = takes(world, 1, Act::Hand(0)) && lists(alloc, world, 1, &[REST])?;
    Ok(starts && puts && sends && posts && comes && looks && hears)
}

fn lists_in_a_new_world(alloc: Global) -> Result<bool, Refusal> {
    let mut world = World::new(alloc, 2, 8)?;
    Ok(lists_on_the_way(alloc, &mut world)?)
}

#[test]
fn possible_acts_are_listed(rt: HostRuntime) {
    assert_eq!(rt; lists_in_a_new_world(rt.alloc()), Ok(true));
}
