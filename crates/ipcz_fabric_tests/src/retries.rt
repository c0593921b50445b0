//! A proxy that found no slot for its bypass, since all were in use, asks again once one has come back.
ghost use Rattle.std.specs.Prelude.{◌≡◌};

use crate::cell_tables::{named, put};
use crate::hub_tables::{both, hub_of, sends};
use crate::lasting::{LEFT, RIGHT, come_to_rest};
use ipcz_base::{End, Refusal};
use ipcz_fabric::{
    Blank, Fabric, FabricName, Gate, Hub, NodeCell, Portal, Retry, start_lasting, work,
};
use std::alloc::Global;
use std::marker::Brand;
use std::sync::Wait;
use std::test::Fail;

/// How many slots there are for links: for the pair of the two nodes, for one that is moved, and for one that is in its bypass's way.
const SLOTS: u32 = 3;

const NUMBERS: u64 = u64::MAX;

/// What a cell answers to `retry`: before a portal moves, while its proxy waits, once a slot has come back, and once the proxy has gone.
type Answers = [Retry; 4];

// Moves an end away while all slots are in use; then another pair, whose slot that is, is closed. The end that was moved, as it has come.
fn moved<F: FabricName>(
    fabric: &Fabric<F>,
    left: &mut NodeCell<F>,
    right: &mut NodeCell<F>,
    alloc: Global,
    sent: End,
) -> Option<End> {
    put(fabric, left, alloc, LEFT, b"take it", &[sent])?;
    if !come_to_rest(fabric, left, right) {
        return None;
    }
    let (_, parcel) = right.get(fabric, RIGHT).ok()?;
    parcel.ends.as_slice().first().copied()
}

// Whether a parcel that is put at one end comes to the other.
fn passes<F: FabricName>(
    fabric: &Fabric<F>,
    left: &mut NodeCell<F>,
    right: &mut NodeCell<F>,
    alloc: Global,
    ends: (End, End),
) -> bool {
    if put(fabric, left, alloc, ends.0, b"here", &[]).is_none()
        || !come_to_rest(fabric, left, right)
    {
        return false;
    }
    match right.get(fabric, ends.1) {
        Ok((0, parcel)) => parcel.bytes.as_slice() == b"here".as_slice(),
        _ => false,
    }
}

// What the first cell answers, and by how many numbers of links its bypass raises the claim count.
fn answers<F: FabricName>(
    fabric: &Fabric<F>,
    left: &mut NodeCell<F>,
    right: &mut NodeCell<F>,
    alloc: Global,
) -> Option<(Answers, u64)> {
    let (kept, sent) = left.open_pair(fabric).ok()?;
    let (first, second) = left.open_pair(fabric).ok()?;
    let before = left.retry(fabric);
    let came = moved(fabric, left, right, alloc, sent)?;
    let waiting = left.retry(fabric);
    left.close(fabric, first).ok()?;
    left.close(fabric, second).ok()?;
    if !come_to_rest(fabric, left, right) {
        return None;
    }
    let count = left.claimed(fabric);
    let again = left.retry(fabric);
    if !passes(fabric, left, right, alloc, (kept, came)) {
        return None;
    }
    let numbers = left.claimed(fabric).checked_sub(count)?;
    Some(([before, waiting, again, left.retry(fabric)], numbers))
}

// The same of both cells of a table.
fn both_answer<F: FabricName>(
    fabric: &Fabric<F>,
    cells: &mut [NodeCell<F>],
    alloc: Global,
) -> Option<(Answers, u64)> {
    match cells {
        [left, right] => answers(fabric, left, right, alloc),
        _ => None,
    }
}

fn answered<F: FabricName>(blank: Blank, alloc: Global) -> Option<(Answers, u64)>
    requires { blank ≡ F.table }
{
    let mut it = named::<F>(blank)?;
    both_answer(&it.fabric, it.cells.as_mut_slice(), alloc)
}

#[test]
fn a_proxy_without_a_slot_asks_again(rt: HostRuntime) -> Result<(), Fail> {
    let blank = start_lasting(rt.alloc(), 2, SLOTS, NUMBERS)?;
    // The routers of the first node: that of the first pair has serial 0; then those of the two pairs, of which the second one moves.
    let answers = [
        Retry::NoneWaits,
        Retry::NoSlot,
        Retry::Again(2),
        Retry::NoneWaits,
    ];
    // The link of the bypass is the first number behind the count whose slot is the one that has come back.
    assert_eq!(rt; answered::<Brand>(blank, rt.alloc()), Some((answers, 3)));
    Ok(())
}

// A gate that is always open.
#[derive(Drop)]
struct Open;

impl Gate for Open {
    fn pass(&mut self, node: u8, turns: u64) -> bool {
        let _asked = (node, turns);
        true
    }
}

// Lets the workers of both nodes take turns, one after the other, as often as it takes.
fn both_work<F: FabricName, R: Wait>(rt: &R, hub: &Hub<F>) {
    for _pass in 0..20u64 {
        work(rt, hub, 0, &mut Open, 20);
        work(rt, hub, 1, &mut Open, 20);
    }
}

// What a hub answers to `retry` of its first node, and once a pair was closed and its workers have taken turns.
fn retried<F: FabricName, R: Wait>(
    rt: &R,
    hub: &Hub<F>,
    first: Portal<F>,
    second: Portal<F>,
) -> Option<[Retry; 2]> {
    let waiting = hub.retry(rt, 0);
    let first_closed = first.close(rt, hub).is_ok();
    let both_closed = second.close(rt, hub).is_ok() && first_closed;
    both_work(rt, hub);
    match (waiting, hub.retry(rt, 0)) {
        (Ok(waiting), Ok(again)) if both_closed => Some([waiting, again]),
        _ => None,
    }
}

// What a hub answers to `retry` of its first node while a proxy of it waits, and once its workers have taken turns after a pair was closed.
fn by_workers<F: FabricName, R: Wait>(
    rt: &R,
    hub: &Hub<F>,
    alloc: Global,
    here: &Portal<F>,
) -> Option<[Retry; 2]> {
    let (_kept, sent) = hub.open_pair(rt, 0).ok()?;
    let (first, second) = hub.open_pair(rt, 0).ok()?;
    let goes = sends(rt, hub, alloc, here, sent);
    both_work(rt, hub);
    let found = retried(rt, hub, first, second);
    if goes { found } else { None }
}

// The same, with the first portals of a hub; and why a node that isn't there is refused.
fn by_all_workers<F: FabricName, R: Wait>(
    rt: &R,
    hub: &Hub<F>,
    alloc: Global,
    portals: Vec<Portal<F>>,
) -> Option<([Retry; 2], Option<Refusal>)> {
    let (here, _there) = both(portals)?;
    let answers = by_workers(rt, hub, alloc, &here)?;
    Some((answers, hub.retry(rt, 2).err()))
}

fn retried_by_workers<F: FabricName, R: Wait>(
    rt: &R,
    alloc: Global,
    blank: Blank,
) -> Option<([Retry; 2], Option<Refusal>)>
    requires { blank ≡ F.table }
{
    let (hub, portals) = hub_of::<F>(blank)?;
    by_all_workers(rt, &hub, alloc, portals)
}

#[test]
fn workers_let_proxies_ask_again(rt: HostRuntime) -> Result<(), Fail> {
    let blank = start_lasting(rt.alloc(), 2, SLOTS, NUMBERS)?;
    let found = retried_by_workers::<Brand, _>(&rt, rt.alloc(), blank);
    assert!(rt; found == Some(([Retry::NoSlot, Retry::NoneWaits], Some(Refusal::Stranger))));
    Ok(())
}
