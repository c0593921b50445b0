//! The lock of one link, which two threads take and give back again and again, each with the cells of two nodes.
ghost use Rattle.std.specs.Prelude.{◌≡◌};

use crate::cell_tables::named;
use crate::race::{BETWEEN, TO_NODE_2, TO_NODE_3, a, acts, both_move, gets, puts};
use ipcz_base::{End, Refusal};
use ipcz_cell::{Blank, Fabric, FabricName, NodeCell, start};
use ipcz_node::Act;
use ipcz_router::act::RouterAct;
use ipcz_word::LockPlan;
use std::alloc::Global;
use std::marker::Brand;
use std::sync::atomic::{AtomicU64, Ordering};
use std::test::Fail;
use std::thread::{Threads, join, yield_now};

const TRIES: u64 = 10_000_000;

// How often each thread takes the lock.
const LOCKS: u64 = 10_000;

// Both sides are stable, and nobody holds the lock.
const FREE: u64 = 3;

// Gives the lock back that a node's proxy has just got, and so whether nobody else had it meanwhile.
#[tactic(auto, using(crate::proofs::Unlocks::may_unlock))]
fn gives_back<F: FabricName>(
    fabric: &Fabric<F>,
    cell: &mut NodeCell<F>,
    inside: &AtomicU64,
) -> bool {
    let alone = inside.fetch_add(1, Ordering::SeqCst) == 0;
    for _turn in 0..TRIES {
        match cell.act(fabric) {
            Act::Router(serial, RouterAct::Begin) => {
                let still = inside.fetch_sub(1, Ordering::SeqCst) == 1;
                return cell.word_unlock(fabric, serial) == FREE && alone && still;
            }
            _ => {
                let _turned = cell.turn(fabric);
            }
        }
    }
    false
}

// Tries for the lock, if a node's proxy may, and gives it back: whether it was got, or none if what was found is wrong.
fn locks_once<F: FabricName>(
    fabric: &Fabric<F>,
    cell: &mut NodeCell<F>,
    inside: &AtomicU64,
) -> Option<bool> {
    let Act::Router(serial, RouterAct::Lock) = cell.act(fabric) else {
        return Some(false);
    };
    match cell.word_try_lock(fabric, serial) {
        Ok(LockPlan::Lock(_)) => gives_back(fabric, cell, inside).then_some(true),
        Ok(LockPlan::Refused) | Err(Refusal::Raced) => Some(false),
        Ok(LockPlan::Wait(_)) | Err(_) => None,
    }
}

// Has a proxy try again that was refused, once the lock is free: a parcel comes to it from the node inward of it.
fn rouses<F: FabricName>(
    fabric: &Fabric<F>,
    cell: &mut NodeCell<F>,
    inward: &mut NodeCell<F>,
    alloc: Global,
    at: End,
) {
    match cell.act(fabric) {
        Act::Router(_, RouterAct::Lock) => {}
        Act::Idle if cell.word(fabric, BETWEEN) != Some(FREE) => yield_now(),
        Act::Idle => {
            let _put = puts(fabric, inward, alloc, at, &[]);
            acts(fabric, inward);
        }
        _ => {
            let _turned = cell.turn(fabric);
        }
    }
}

// Takes the lock and gives it back, until that is done often enough.
fn locks_all<F: FabricName>(
    fabric: &Fabric<F>,
    cell: &mut NodeCell<F>,
    inward: &mut NodeCell<F>,
    alloc: Global,
    at: End,
    inside: &AtomicU64,
) -> bool {
    let mut locked = 0u64;
    for _try in 0..TRIES {
        match locks_once(fabric, cell, inside) {
            Some(true) => locked = locked.saturating_add(1),
            Some(false) => rouses(fabric, cell, inward, alloc, at),
            None => return false,
        }
        if locked == LOCKS {
            return true;
        }
    }
    false
}

// Whether an end has come to a node.
fn comes<F: FabricName>(fabric: &Fabric<F>, cell: &mut NodeCell<F>, by: u64, end: End) -> bool {
    acts(fabric, cell);
    gets(fabric, cell, a(by).opposite(), &[end])
}

// Whether the ends come to nodes 2 and 3, and two threads take the lock of their pair often enough.
fn two_lock<F: FabricName + Send + Sync, R: Threads>(
    rt: &R,
    alloc: Global,
    fabric: &Fabric<F>,
    n0: &mut NodeCell<F>,
    n1: &mut NodeCell<F>,
    n2: &mut NodeCell<F>,
    n3: &mut NodeCell<F>,
) -> bool {
    let (one, other) = (a(BETWEEN), a(BETWEEN).opposite());
    if !comes(fabric, n2, TO_NODE_2, one) || !comes(fabric, n3, TO_NODE_3, other) {
        return false;
    }
    let inside = AtomicU64::new(0);
    let (first, second) = join(
        rt,
        || locks_all(fabric, n0, n2, alloc, one, &inside),
        || locks_all(fabric, n1, n3, alloc, other, &inside),
    );
    first && second
}

// The same of cells, if they are four.
fn all_lock<F: FabricName + Send + Sync, R: Threads>(
    rt: &R,
    alloc: Global,
    fabric: &Fabric<F>,
    cells: &mut [NodeCell<F>],
) -> bool {
    match cells {
        [n0, n1, n2, n3] => two_lock(rt, alloc, fabric, n0, n1, n2, n3),
        _ => false,
    }
}

// Whether two threads take the lock of the pair between nodes 0 and 1, whose ends move on to nodes 2 and 3, often enough.
fn both_lock<F: FabricName + Send + Sync, R: Threads>(
    rt: &R,
    alloc: Global,
    fabric: &Fabric<F>,
    cells: &mut [NodeCell<F>],
) -> bool {
    both_move(fabric, cells, alloc) && all_lock(rt, alloc, fabric, cells)
}

// The same, with the cells of a table of four nodes.
fn lock<F: FabricName + Send + Sync, R: Threads>(
    rt: &R,
    alloc: Global,
    blank: Blank,
) -> Option<bool>
    requires { blank ≡ F.table }
{
    let mut it = named::<F>(blank)?;
    Some(both_lock(rt, alloc, &it.fabric, it.cells.as_mut_slice()))
}

#[test]
fn two_threads_take_a_lock_and_give_it_back(rt: HostRuntime) -> Result<(), Fail> {
    let blank = start(rt.alloc(), 4, 8)?;
    assert!(rt; lock::<Brand, _>(&rt, rt.alloc(), blank) == Some(true));
    Ok(())
}
