//! A row on a hub: its calls take a lock each, and its portals own their ends. A call that is refused memory gives back what it was given,
//! and succeeds when it is made again.
ghost use Rattle.std.specs.Prelude.{◌≡◌};

use crate::cells::{finish_again, make_again, name};
use crate::met::{Met, Wrong};
use ipcz_base::{Bytes, Refusal};
use ipcz_fabric::{Blank, Fabric, FabricName, Got, Hub, Missed, NodeCell, Portal};
use ipcz_node::Happened;
use std::alloc::{AllocError, Global};
use std::marker::Brand;
use std::sync::Wait;
use std::time::{Clock, Duration};

// More turns than a node takes between two calls of the row.
const TURNS: u32 = 30;

// A hub, made a second time if no memory was found.
fn hub_of<F: FabricName>(
    fabric: Fabric<F>,
    cells: Vec<NodeCell<F>>,
    met: &mut Met,
) -> Result<(Hub<F>, Vec<Portal<F>>), Wrong> {
    match Hub::new(fabric, cells) {
        Ok(made) => Ok(made),
        Err((Refusal::OutOfMemory, fabric, cells)) => {
            met.add_refused();
            Hub::new(fabric, cells).map_err(|_| Wrong::RefusedAgain)
        }
        Err(_) => Err(Wrong::Answer),
    }
}

// The cells of a hub, taken out a second time if no memory was found.
fn cells_of<F: FabricName>(
    hub: Hub<F>,
    met: &mut Met,
) -> Result<(Fabric<F>, Vec<NodeCell<F>>), Wrong> {
    match hub.into_cells() {
        Ok(cells) => Ok(cells),
        Err((_, hub)) => {
            met.add_refused();
            hub.into_cells().map_err(|_| Wrong::RefusedAgain)
        }
    }
}

// Opens a pair at node 0, a second time if no memory was found.
fn open<F: FabricName, R: Wait>(
    rt: &R,
    hub: &Hub<F>,
    met: &mut Met,
) -> Result<(Portal<F>, Portal<F>), Wrong> {
    match hub.open_pair(rt, 0) {
        Ok(pair) => Ok(pair),
        Err(Refusal::OutOfMemory) => {
            met.add_refused();
            hub.open_pair(rt, 0).map_err(|_| Wrong::RefusedAgain)
        }
        Err(_) => Err(Wrong::Answer),
    }
}

// Puts a byte with these portals as the first parcel, a second time if no memory was found, with what came back.
fn put<F: FabricName, R: Wait>(
    rt: &R,
    hub: &Hub<F>,
    at: &Portal<F>,
    bytes: Bytes,
    portals: Vec<Portal<F>>,
    met: &mut Met,
) -> Result<(), Wrong> {
    let many = portals.len();
    let put = match at.put(rt, hub, bytes, portals) {
        Err(refused) => {
            if refused.why != Refusal::OutOfMemory
                || refused.bytes.as_slice() != b"m".as_slice()
                || refused.portals.len() != many
            {
                return Err(Wrong::Answer);
            }
            met.add_refused();
            at.put(rt, hub, refused.bytes, refused.portals)
        }
        put => put,
    };
    match put {
        Ok(0) => Ok(()),
        Ok(_) => Err(Wrong::Answer),
        Err(_) => Err(Wrong::RefusedAgain),
    }
}

// Gets the first parcel, a byte, a second time if no memory was found.
fn get<F: FabricName, R: Wait>(
    rt: &R,
    hub: &Hub<F>,
    at: &Portal<F>,
    met: &mut Met,
) -> Result<Got<F>, Wrong> {
    let got = match at.get(rt, hub) {
        Err(Refusal::OutOfMemory) => {
            met.add_refused();
            at.get(rt, hub).map_err(|_| Wrong::RefusedAgain)?
        }
        Ok(got) => got,
        Err(_) => return Err(Wrong::Answer),
    };
    if got.n == 0 && got.bytes.as_slice() == b"m".as_slice() {
        Ok(got)
    } else {
        Err(Wrong::Answer)
    }
}

// Closes a portal, a second time if no memory was found.
fn close<F: FabricName, R: Wait>(
    rt: &R,
    hub: &Hub<F>,
    at: Portal<F>,
    met: &mut Met,
) -> Result<(), Wrong> {
    let closed = match at.close(rt, hub) {
        Ok(n) => n,
        Err((Refusal::OutOfMemory, at)) => {
            met.add_refused();
            at.close(rt, hub).map_err(|_| Wrong::RefusedAgain)?
        }
        Err(_) => return Err(Wrong::Answer),
    };
    if closed == 0 {
        Ok(())
    } else {
        Err(Wrong::Answer)
    }
}

// Whether a get that may sleep is told that the node of a portal, to which nothing comes, is stopped for want of memory.
fn is_stopped<F: FabricName, R: Wait + Clock>(rt: &R, hub: &Hub<F>, quiet: &Portal<F>) -> bool {
    let missed = quiet.get_timeout(rt, hub, Duration::ZERO);
    matches!(missed, Err(Missed::Stopped(Refusal::OutOfMemory)))
}

// Takes a turn of a node that no memory was found for, a second time. In between the node is stopped, and not behind it. A portal of node 0 is asked, to
// which nothing comes.
fn turn_again<F: FabricName, R: Wait + Clock>(
    rt: &R,
    hub: &Hub<F>,
    node: u8,
    quiet: &Portal<F>,
) -> Result<Happened, Wrong> {
    if node == 0 && !is_stopped(rt, hub, quiet) {
        return Err(Wrong::Answer);
    }
    let happened = hub.turn(rt, node).map_err(|_| Wrong::RefusedAgain)?;
    if is_stopped(rt, hub, quiet) {
        return Err(Wrong::Answer);
    }
    Ok(happened)
}

// Takes a turn of a node, a second time if no memory was found.
fn turn<F: FabricName, R: Wait + Clock>(
    rt: &R,
    hub: &Hub<F>,
    node: u8,
    quiet: &Portal<F>,
    met: &mut Met,
) -> Result<(), Wrong> {
    let happened = match hub.turn(rt, node) {
        Ok(happened) => happened,
        Err(Refusal::OutOfMemory) => {
            met.add_refused();
            turn_again(rt, hub, node, quiet)?
        }
        Err(_) => return Err(Wrong::Answer),
    };
    if let Happened::Unlock(..) = happened {
        met.add_unlocked();
    }
    Ok(())
}

// Takes turns of both nodes, until they have nothing to do.
fn act<F: FabricName, R: Wait + Clock>(
    rt: &R,
    hub: &Hub<F>,
    quiet: &Portal<F>,
    met: &mut Met,
) -> Result<(), Wrong> {
    for _turn in 0..TURNS {
        turn(rt, hub, 0, quiet, met)?;
        turn(rt, hub, 1, quiet, met)?;
    }
    Ok(())
}

// A byte and a list with these portals, made a second time if no memory was found.
fn byte(alloc: Global, met: &mut Met) -> Result<Bytes, Wrong> {
    match Bytes::from_slice(alloc, b"m") {
        Ok(bytes) => Ok(bytes),
        Err(AllocError) => {
            met.add_beside();
            Bytes::from_slice(alloc, b"m").map_err(|_| Wrong::RefusedAgain)
        }
    }
}

// A list of one portal. None if no memory was found: its room is asked for first, and a second time.
fn one<F: FabricName>(
    alloc: Global,
    portal: Portal<F>,
    met: &mut Met,
) -> Result<Vec<Portal<F>>, Wrong> {
    let mut portals = Vec::new(alloc);
    if portals.try_reserve(1).is_err() {
        met.add_beside();
        if portals.try_reserve(1).is_err() {
            return Err(Wrong::RefusedAgain);
        }
    }
    match portals.push(portal) {
        Ok(()) => Ok(portals),
        Err(_) => Err(Wrong::RefusedAgain),
    }
}

// The first portals of the hub's two nodes, of which `portals` are all.
fn both<F: FabricName>(mut portals: Vec<Portal<F>>) -> Option<(Portal<F>, Portal<F>)> {
    let there = portals.pop()?;
    let here = portals.pop()?;
    Some((here, there))
}

// Puts a byte at a portal, with a portal or none.
fn puts<F: FabricName, R: Wait>(
    rt: &R,
    hub: &Hub<F>,
    alloc: Global,
    at: &Portal<F>,
    moved: Option<Portal<F>>,
    met: &mut Met,
) -> Result<(), Wrong> {
    let portals = match moved {
        Some(portal) => one(alloc, portal, met)?,
        None => Vec::new(alloc),
    };
    let bytes = byte(alloc, met)?;
    put(rt, hub, at, bytes, portals, met)
}

// Gets the portal that comes in the first parcel.
fn takes<F: FabricName, R: Wait>(
    rt: &R,
    hub: &Hub<F>,
    at: &Portal<F>,
    met: &mut Met,
) -> Result<Portal<F>, Wrong> {
    let mut got = get(rt, hub, at, met)?;
    match got.portals.pop() {
        Some(portal) => Ok(portal),
        None => Err(Wrong::Answer),
    }
}

// Puts a byte at the portal that was kept and gets it at its peer, which has moved.
fn reaches<F: FabricName, R: Wait + Clock>(
    rt: &R,
    hub: &Hub<F>,
    alloc: Global,
    (here, kept): (&Portal<F>, &Portal<F>),
    came: &Portal<F>,
    met: &mut Met,
) -> Result<(), Wrong> {
    puts(rt, hub, alloc, kept, None, met)?;
    act(rt, hub, here, met)?;
    let _parcel = get(rt, hub, came, met)?;
    Ok(())
}

// The same, and closes what got it.
fn use_moved<F: FabricName, R: Wait + Clock>(
    rt: &R,
    hub: &Hub<F>,
    alloc: Global,
    ends: (&Portal<F>, &Portal<F>),
    came: Portal<F>,
    met: &mut Met,
) -> Result<(), Wrong> {
    reaches(rt, hub, alloc, ends, &came, met)?;
    close(rt, hub, came, met)
}

// Opens a pair on node 0, sends its portal of side B to node 1, puts a byte at the other, gets it there, and closes what got it.
fn move_one<F: FabricName, R: Wait + Clock>(
    rt: &R,
    hub: &Hub<F>,
    alloc: Global,
    ends: (Portal<F>, Portal<F>),
    met: &mut Met,
) -> Result<(), Wrong> {
    let (here, there) = ends;
    let (kept, moved) = open(rt, hub, met)?;
    puts(rt, hub, alloc, &here, Some(moved), met)?;
    act(rt, hub, &here, met)?;
    let came = takes(rt, hub, &there, met)?;
    use_moved(rt, hub, alloc, (&here, &kept), came, met)
}

// Runs the row on the hub of a table of two nodes; the world that its cells come back to has claimed a word for each pair and the bypass.
fn run_on<F: FabricName, R: Wait + Clock>(
    rt: &R,
    alloc: Global,
    blank: Blank,
    met: &mut Met,
) -> Result<(), Wrong>
    requires { blank ≡ F.table }
{
    let (fabric, cells) = name::<F>(blank, met)?;
    let (hub, portals) = hub_of(fabric, cells, met)?;
    let Some(ends) = both(portals) else {
        return Err(Wrong::Answer);
    };
    move_one(rt, &hub, alloc, ends, met)?;
    let (fabric, cells) = cells_of(hub, met)?;
    let world = finish_again(fabric, cells, met)?;
    if world.claimed() == 3 {
        Ok(())
    } else {
        Err(Wrong::Apart)
    }
}

/// Moves a portal on a hub: how often memory was refused on the way, or what is wrong.
pub fn run_on_hub<R: Wait + Clock>(rt: &R, alloc: Global) -> Result<Met, Wrong> {
    let mut met = Met::none();
    let blank = make_again(alloc, 2, 4, &mut met)?;
    run_on::<Brand, R>(rt, alloc, blank, &mut met)?;
    Ok(met)
}
