//! A world of one or two nodes, and parcels and portals that go through it.
use crate::fault::Fault;
use ipcz_base::{Bytes, End, Ends, Refusal, Side};
use ipcz_world::{Reply, Settled, Step, World};
use std::alloc::Global;

/// More acts than any settle of a measure takes.
const ENOUGH: u64 = 1_000_000_000;

// What parcels are made of.
static DATA: [u8; 256] = [b'x'; 256];

/// A portal that the callers of a node hold.
#[derive(Clone, Copy)]
pub struct Portal {
    pub node: u8,
    pub end: End,
}

/// The two portals of the first pair of nodes 0 and 1.
pub fn first_pair() -> (Portal, Portal) {
    let left = End {
        pair: 0,
        side: Side::A,
    };
    let right = End {
        pair: 0,
        side: Side::B,
    };
    (
        Portal { node: 0, end: left },
        Portal {
            node: 1,
            end: right,
        },
    )
}

/// A new pair on node 0.
pub fn open(world: &mut World) -> Result<(Portal, Portal), Fault> {
    match world.step(&Step::Open(0)) {
        Reply::Opened(a, b) => Ok((Portal { node: 0, end: a }, Portal { node: 0, end: b })),
        Reply::Refused(why) => Err(Fault::Refused(why)),
        _ => Err(Fault::Refused(Refusal::Stranger)),
    }
}

/// Closes a portal.
pub fn close(world: &mut World, at: Portal) -> Result<(), Fault> {
    let step = Step::Close {
        node: at.node,
        at: at.end,
    };
    match world.step(&step) {
        Reply::Closed(_) => Ok(()),
        Reply::Refused(why) => Err(Fault::Refused(why)),
        _ => Err(Fault::Refused(Refusal::Stranger)),
    }
}

/// The last of so many new pairs on node 0.
pub fn open_all(world: &mut World, pairs: u32) -> Result<(Portal, Portal), Fault> {
    let mut last = open(world)?;
    for _ in 1..pairs {
        last = open(world)?;
    }
    Ok(last)
}

/// Puts a parcel of so many bytes, with a portal or none.
pub fn put(
    alloc: Global,
    world: &mut World,
    at: Portal,
    length: usize,
    carried: Option<End>,
) -> Result<(), Fault> {
    let bytes = Bytes::from_slice(alloc, &DATA[..length.min(DATA.len())])?;
    let mut ends = Vec::new(alloc);
    if let Some(end) = carried {
        ends.try_reserve(1)?;
        ends.push_reserved(end);
    }
    match world.put(at.node, at.end, bytes, Ends::from_vec(ends)) {
        Ok(_) => Ok(()),
        Err(refused) => Err(Fault::Refused(refused.why)),
    }
}

/// Lets the world become quiet, and tells the acts.
pub fn settle(world: &mut World) -> Result<u64, Fault> {
    match world.settle(ENOUGH)? {
        Settled::Settled { after } => Ok(after),
        Settled::Unsettled => Err(Fault::Refused(Refusal::Stranger)),
    }
}

/// Takes a parcel.
pub fn get(world: &mut World, at: Portal) -> Result<(), Fault> {
    match world.get(at.node, at.end) {
        Reply::Got(_, _) => Ok(()),
        Reply::Refused(why) => Err(Fault::Refused(why)),
        _ => Err(Fault::Refused(Refusal::Stranger)),
    }
}

/// So many times a put, a settle and a get of a parcel of so many bytes.
pub fn pass(
    alloc: Global,
    world: &mut World,
    from: Portal,
    to: Portal,
    length: usize,
    rounds: u64,
) -> Result<(), Fault> {
    for _ in 0..rounds {
        put(alloc, world, from, length, None)?;
        settle(world)?;
        get(world, to)?;
    }
    Ok(())
}

/// Puts so many parcels of 16 bytes.
pub fn put_all(alloc: Global, world: &mut World, at: Portal, parcels: u64) -> Result<(), Fault> {
    for _ in 0..parcels {
        put(alloc, world, at, 16, None)?;
    }
    Ok(())
}

/// Takes so many parcels.
pub fn get_all(world: &mut World, at: Portal, parcels: u64) -> Result<(), Fault> {
    for _ in 0..parcels {
        get(world, at)?;
    }
    Ok(())
}
