//! Many gets that sleep at many portals of one node: each parcel is got at its own portal, and wakes the get that sleeps there and no other.
ghost use Rattle.std.specs.Prelude.{◌≡◌};

use crate::hub_tables::hub_of;
use ipcz_base::Bytes;
use ipcz_fabric::{Blank, FabricName, Hub, Portal, start};
use std::alloc::Global;
use std::marker::Brand;
use std::sync::Wait;
use std::sync::atomic::{AtomicU64, Ordering};
use std::thread::{Threads, for_each_mut, sleep};
use std::time::{Clock, Duration};

// How often a thread looks whether the others have come as far as it waits for. There is a millisecond between two looks.
const LOOKS: u64 = 20_000;

// How many parcels are put at each portal.
const ROUNDS: u64 = 3;

// How long a sleep is that no parcel ends.
fn long() -> Duration {
    Duration::from_secs(40)
}

// What a thread of a test does: one puts at the peers of all portals, and tells how often gets were woken for it; each other gets at one portal.
#[derive(Drop)]
enum Part<F: FabricName> {
    Puts {
        peers: Vec<Portal<F>>,
        wakes: Option<u64>,
    },
    Gets(Portal<F>),
}

// Waits until so many gets sleep on bells of their own at node 0, and so many parcels were got.
fn awaits<F: FabricName, R: Clock>(
    rt: &R,
    hub: &Hub<F>,
    got: &AtomicU64,
    asleep: u64,
    parcels: u64,
) -> bool {
    for _look in 0..LOOKS {
        if hub.sleepers(0) == asleep && got.load(Ordering::SeqCst) == parcels {
            return true;
        }
        sleep(rt, Duration::from_millis(1));
    }
    false
}

// Puts a parcel at each of these portals, and takes the turns that bring it to its peer.
fn puts_at_each<F: FabricName, R: Wait>(
    rt: &R,
    alloc: Global,
    hub: &Hub<F>,
    peers: &[Portal<F>],
) -> bool {
    for peer in peers {
        let put = peer.put(rt, hub, Bytes::new(), Vec::new(alloc)).is_ok();
        if !put || hub.acts(rt, 0, 100).is_err() {
            return false;
        }
    }
    true
}

// Puts parcels whenever all gets sleep, so many on bells of their own, and tells how often gets were woken at last.
fn puts_all<F: FabricName, R: Wait + Clock>(
    rt: &R,
    alloc: Global,
    hub: &Hub<F>,
    peers: &[Portal<F>],
    got: &AtomicU64,
    asleep: u64,
) -> Option<u64> {
    let each = peers.len() as u64;
    for round in 0..ROUNDS {
        if !awaits(rt, hub, got, asleep, round.wrapping_mul(each)) {
            return None;
        }
        if !puts_at_each(rt, alloc, hub, peers) {
            return None;
        }
    }
    if awaits(rt, hub, got, 0, ROUNDS.wrapping_mul(each)) {
        Some(hub.wakes(0))
    } else {
        None
    }
}

// Gets the parcels of a portal, and counts each.
fn gets_all<F: FabricName, R: Wait + Clock>(
    rt: &R,
    hub: &Hub<F>,
    portal: &Portal<F>,
    got: &AtomicU64,
) {
    for _round in 0..ROUNDS {
        if portal.get_timeout(rt, hub, long()).is_ok() {
            got.fetch_add(1, Ordering::SeqCst);
        }
    }
}

// Opens a pair of node 0, of which one portal is for a get.
fn adds_pair<F: FabricName, R: Wait>(
    rt: &R,
    hub: &Hub<F>,
    peers: &mut Vec<Portal<F>>,
    parts: &mut Vec<Part<F>>,
) -> bool {
    match hub.open_pair(rt, 0) {
        Ok((peer, portal)) => peers.push(peer).is_ok() && parts.push(Part::Gets(portal)).is_ok(),
        Err(_) => false,
    }
}

// The parts of so many pairs of node 0, and last that of the thread that puts.
fn parts_of<F: FabricName, R: Wait>(
    rt: &R,
    alloc: Global,
    hub: &Hub<F>,
    pairs: u64,
) -> Option<Vec<Part<F>>> {
    let mut peers = Vec::new(alloc);
    let mut parts = Vec::new(alloc);
    let mut good = true;
    for _pair in 0..pairs {
        good = good && adds_pair(rt, hub, &mut peers, &mut parts);
    }
    let puts = parts.push(Part::Puts { peers, wakes: None }).is_ok();
    if good && puts { Some(parts) } else { None }
}

// Does what a thread has to do.
fn does<F: FabricName, R: Wait + Clock>(
    rt: &R,
    alloc: Global,
    hub: &Hub<F>,
    part: &mut Part<F>,
    got: &AtomicU64,
    asleep: u64,
) {
    match part {
        Part::Puts { peers, wakes } => {
            *wakes = puts_all(rt, alloc, hub, peers.as_slice(), got, asleep);
        }
        Part::Gets(portal) => gets_all(rt, hub, portal, got),
    }
}

// Does all parts, each on a thread.
fn all_do<F: FabricName + Send + Sync, R: Threads + Wait + Clock + Sync>(
    rt: &R,
    alloc: Global,
    hub: &Hub<F>,
    parts: &mut [Part<F>],
    asleep: u64,
) {
    let got = AtomicU64::new(0);
    let threads = parts.len();
    if threads > 0 {
        for_each_mut(
            rt,
            parts,
            threads,
            &|_place, part| { does(rt, alloc, hub, part, &got, asleep) },
        );
    }
}

// How often gets were woken, as the last part tells.
fn wakes_told<F: FabricName>(parts: &[Part<F>]) -> Option<u64> {
    match parts {
        [.., Part::Puts { wakes, .. }] => *wakes,
        _ => None,
    }
}

// How often gets are woken where so many sleep at one node, so many of them on bells of their own.
fn wakes_of<F: FabricName + Send + Sync, R: Threads + Wait + Clock + Sync>(
    rt: &R,
    alloc: Global,
    blank: Blank,
    getters: u64,
    asleep: u64,
) -> Option<u64>
    requires { blank ≡ F.table }
{
    let (hub, _firsts) = hub_of::<F>(blank)?;
    let mut parts = parts_of(rt, alloc, &hub, getters)?;
    all_do(rt, alloc, &hub, parts.as_mut_slice(), asleep);
    wakes_told(&parts)
}

// The same, in a new table.
fn wakes<R: Threads + Wait + Clock + Sync>(
    rt: &R,
    alloc: Global,
    getters: u64,
    asleep: u64,
) -> Option<u64> {
    let blank = start(alloc, 2, 256).ok()?;
    wakes_of::<Brand, R>(rt, alloc, blank, getters, asleep)
}

// Three parcels for each of 57 gets are 171 wakes.
#[test]
fn a_parcel_wakes_the_get_that_sleeps_at_its_portal(rt: HostRuntime) {
    assert_eq!(rt; wakes(&rt, rt.alloc(), 57, 57), Some(171));
}

// A node has 64 bells for them. Who finds none free waits for each message of the node, and isn't counted.
#[test]
fn gets_without_a_bell_of_their_own_are_woken_too(rt: HostRuntime) {
    assert_eq!(rt; wakes(&rt, rt.alloc(), 70, 64).is_some(), true);
}
