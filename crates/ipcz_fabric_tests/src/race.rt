//! Two threads that try for the lock of one link at once, each with the cell of a node.
ghost use Rattle.std.specs.Prelude.{◌≡◌};

use crate::cell_tables::{named, put};
use ipcz_base::{End, LinkId, Refusal, Side};
use ipcz_cell::{Blank, Fabric, FabricName, NodeCell, start};
use ipcz_node::Happened;
use std::alloc::Global;
use std::marker::Brand;
use std::sync::atomic::{AtomicU64, Ordering};
use std::test::Fail;
use std::thread::{Threads, join, yield_now};

const TRIES: u64 = 10_000_000;

const TURNS: u64 = 100;

// Of four nodes: the first pairs of nodes 0 and 1, of nodes 0 and 2, and of nodes 1 and 3.
pub(crate) const BETWEEN: u64 = 0;

pub(crate) const TO_NODE_2: u64 = 1;

pub(crate) const TO_NODE_3: u64 = 4;

// Both sides stable, side A holds the lock, and node 2 may answer for its bypass.
const LOCKED_BY_A: u64 = 787;

// Both sides stable, side B holds the lock, and node 3 may answer for its bypass.
const LOCKED_BY_B: u64 = 1059;

pub(crate) fn a(pair: u64) -> End {
    End {
        pair,
        side: Side::A,
    }
}

// Takes turns until the node claims a word, and so whether it does.
fn claims<F: FabricName>(fabric: &Fabric<F>, cell: &mut NodeCell<F>) -> bool {
    for _turn in 0..TURNS {
        if let Ok(Happened::Claim(..)) = cell.turn(fabric) {
            return true;
        }
    }
    false
}

// Puts a byte with these ends.
pub(crate) fn puts<F: FabricName>(
    fabric: &Fabric<F>,
    cell: &mut NodeCell<F>,
    alloc: Global,
    at: End,
    attached: &[End],
) -> bool {
    put(fabric, cell, alloc, at, b"m", attached).is_some()
}

// Whether a get gives a byte with these ends.
pub(crate) fn gets<F: FabricName>(
    fabric: &Fabric<F>,
    cell: &mut NodeCell<F>,
    at: End,
    attached: &[End],
) -> bool {
    let Ok((number, parcel)) = cell.get(fabric, at) else {
        return false;
    };
    number == 0 && parcel.bytes.as_slice() == b"m".as_slice() && parcel.ends.as_slice() == attached
}

// Waits until both threads are here, and takes a turn that no other thread's step undoes.
fn tries<F: FabricName>(
    fabric: &Fabric<F>,
    cell: &mut NodeCell<F>,
    here: &AtomicU64,
) -> Option<Happened> {
    let _before = here.fetch_add(1, Ordering::SeqCst);
    for _try in 0..TRIES {
        if here.load(Ordering::SeqCst) < 2 {
            yield_now();
            continue;
        }
        match cell.turn(fabric) {
            Ok(event) => return Some(event),
            Err(Refusal::Raced) => {}
            Err(_) => return None,
        }
    }
    None
}

fn has_locked(event: &Happened, word: u64) -> bool {
    matches!(event, Happened::Lock(_, LinkId::Central(BETWEEN), after) if *after == word)
}

fn is_refused(event: &Happened, word: u64) -> bool {
    matches!(event, Happened::Refused(_, LinkId::Central(BETWEEN), found) if *found == word)
}

// Whether one side has got the lock, and the other has found just its word.
fn one_has_locked(of_a: &Happened, of_b: &Happened) -> bool {
    (has_locked(of_a, LOCKED_BY_A) && is_refused(of_b, LOCKED_BY_A))
        || (has_locked(of_b, LOCKED_BY_B) && is_refused(of_a, LOCKED_BY_B))
}

// Takes turns until the node has nothing to do.
pub(crate) fn acts<F: FabricName>(fabric: &Fabric<F>, cell: &mut NodeCell<F>) {
    for _turn in 0..TURNS {
        if let Ok(Happened::Idle) = cell.turn(fabric) {
            return;
        }
    }
}

fn all_act<F: FabricName>(fabric: &Fabric<F>, cells: &mut [NodeCell<F>]) {
    for _round in 0..20 {
        for cell in cells.iter_mut() {
            acts(fabric, cell);
        }
    }
}

// Both ends of the pair between nodes 0 and 1 move on, so that each of these has a proxy on its link, and has claimed a word.
pub(crate) fn both_move<F: FabricName>(
    fabric: &Fabric<F>,
    cells: &mut [NodeCell<F>],
    alloc: Global,
) -> bool {
    let [n0, n1, ..] = cells else {
        return false;
    };
    let (moved, other) = (a(BETWEEN), a(BETWEEN).opposite());
    puts(fabric, n0, alloc, a(TO_NODE_2), &[moved])
        && puts(fabric, n1, alloc, a(TO_NODE_3), &[other])
        && claims(fabric, n0)
        && claims(fabric, n1)
}

// Whether of two proxies on one link, whose threads try at once, one has the lock.
fn both_try<F: FabricName + Send + Sync, R: Threads>(
    rt: &R,
    fabric: &Fabric<F>,
    n0: &mut NodeCell<F>,
    n1: &mut NodeCell<F>,
) -> bool {
    let here = AtomicU64::new(0);
    let tried = join(rt, || tries(fabric, n0, &here), || tries(fabric, n1, &here));
    match &tried {
        (Some(of_a), Some(of_b)) => one_has_locked(of_a, of_b),
        _ => false,
    }
}

// The same of the first two of these cells.
fn first_try<F: FabricName + Send + Sync, R: Threads>(
    rt: &R,
    fabric: &Fabric<F>,
    cells: &mut [NodeCell<F>],
) -> bool {
    match cells {
        [n0, n1, ..] => both_try(rt, fabric, n0, n1),
        _ => false,
    }
}

// Whether the moved ends have come to nodes 2 and 3; a byte is then put at the first.
fn come<F: FabricName>(fabric: &Fabric<F>, cells: &mut [NodeCell<F>], alloc: Global) -> bool {
    let [_, _, n2, n3] = cells else {
        return false;
    };
    let (moved, other) = (a(BETWEEN), a(BETWEEN).opposite());
    gets(fabric, n2, a(TO_NODE_2).opposite(), &[moved])
        && gets(fabric, n3, a(TO_NODE_3).opposite(), &[other])
        && puts(fabric, n2, alloc, moved, &[])
}

// Whether the moved ends arrive, and what is put at one of them comes to the other.
fn arrives<F: FabricName>(fabric: &Fabric<F>, cells: &mut [NodeCell<F>], alloc: Global) -> bool {
    all_act(fabric, cells);
    let come = come(fabric, cells, alloc);
    all_act(fabric, cells);
    match cells {
        [_, _, _, n3] => come && gets(fabric, n3, a(BETWEEN).opposite(), &[]),
        _ => false,
    }
}

// Whether of two proxies on one link, whose threads try at once, one has the lock, and both are bypassed.
fn both_are_bypassed<F: FabricName + Send + Sync, R: Threads>(
    rt: &R,
    alloc: Global,
    fabric: &Fabric<F>,
    cells: &mut [NodeCell<F>],
) -> bool {
    both_move(fabric, cells, alloc) && first_try(rt, fabric, cells) && arrives(fabric, cells, alloc)
}

// The same, with the cells of a table of four nodes.
fn race<F: FabricName + Send + Sync, R: Threads>(
    rt: &R,
    alloc: Global,
    blank: Blank,
) -> Option<bool>
    requires { blank ≡ F.table }
{
    let mut it = named::<F>(blank)?;
    Some(both_are_bypassed(rt, alloc, &it.fabric, it.cells.as_mut_slice()))
}

fn race_once<R: Threads>(rt: &R, alloc: Global) -> Option<bool> {
    let blank = start(alloc, 4, 8).ok()?;
    race::<Brand, R>(rt, alloc, blank)
}

#[test]
fn one_of_two_proxies_on_a_link_has_its_lock(rt: HostRuntime) {
    for _race in 0..200 {
        assert!(rt; race_once(&rt, rt.alloc()) == Some(true));
    }
}
