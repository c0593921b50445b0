//! Two threads that each own the cell of a node, and pairs that go from one to the other and are closed by both.
ghost use Rattle.std.specs.Prelude.{◌≡◌};

use crate::cell_tables::{named, put, routers_of};
use ipcz_base::{End, Parcel, Refusal, Side};
use ipcz_cell::{Blank, Fabric, FabricName, NodeCell, start};
use ipcz_node::Happened;
use std::alloc::Global;
use std::marker::Brand;
use std::sync::atomic::{AtomicU64, Ordering};
use std::test::Fail;
use std::thread::{Threads, join, yield_now};

const TRIES: u64 = 10_000_000;

/// How many pairs are opened: each takes a word, and one more for its bypass.
const PAIRS: u64 = 200;

// The end of a first pair at a side.
fn end(pair: u64, side: Side) -> End {
    End { pair, side }
}

// Takes turns until a get answers something else than that nothing has come.
fn awaits<F: FabricName>(
    fabric: &Fabric<F>,
    cell: &mut NodeCell<F>,
    at: End,
) -> Option<Result<(u64, Parcel), Refusal>> {
    for _try in 0..TRIES {
        let _turned = cell.turn(fabric);
        match cell.get(fabric, at) {
            Err(Refusal::Empty) => yield_now(),
            got => return Some(got),
        }
    }
    None
}

// Opens a pair, however often another thread comes between, or has still to let the slots of links go.
fn opens<F: FabricName>(fabric: &Fabric<F>, cell: &mut NodeCell<F>) -> Option<(End, End)> {
    for _try in 0..TRIES {
        match cell.open_pair(fabric) {
            Ok(pair) => return Some(pair),
            Err(Refusal::Raced) => yield_now(),
            Err(Refusal::NoWord) => {
                let _turned = cell.turn(fabric);
                yield_now();
            }
            Err(_) => return None,
        }
    }
    None
}

// Opens a pair, sends one of its ends over another and a parcel after it, and closes the other once the peer is closed.
fn sends_and_closes<F: FabricName>(
    fabric: &Fabric<F>,
    cell: &mut NodeCell<F>,
    alloc: Global,
    at: End,
) -> bool {
    let Some((kept, sent)) = opens(fabric, cell) else {
        return false;
    };
    if put(fabric, cell, alloc, at, &[], &[sent]).is_none()
        || put(fabric, cell, alloc, kept, &[], &[]).is_none()
    {
        return false;
    }
    let heard = awaits(fabric, cell, kept);
    matches!(heard, Some(Err(Refusal::PeerClosed))) && cell.close(fabric, kept) == Ok(1)
}

// The end that a parcel carries.
fn carried(parcel: &Parcel) -> Option<End> {
    parcel.ends.as_slice().first().copied()
}

// Gets an end and the parcel that comes to it, and closes it.
fn gets_and_closes<F: FabricName>(fabric: &Fabric<F>, cell: &mut NodeCell<F>, at: End) -> bool {
    let Some(Ok((_, parcel))) = awaits(fabric, cell, at) else {
        return false;
    };
    let Some(end) = carried(&parcel) else {
        return false;
    };
    let came = awaits(fabric, cell, end);
    matches!(came, Some(Ok((0, _)))) && cell.close(fabric, end) == Ok(0)
}

fn sends_all<F: FabricName>(
    fabric: &Fabric<F>,
    cell: &mut NodeCell<F>,
    alloc: Global,
    at: End,
    pairs: u64,
    done: &AtomicU64,
) -> bool {
    for _pair in 0..pairs {
        if !sends_and_closes(fabric, cell, alloc, at) {
            return false;
        }
    }
    done.store(1, Ordering::SeqCst);
    true
}

// Takes turns until the other thread has heard of the last close.
fn acts_until<F: FabricName>(fabric: &Fabric<F>, cell: &mut NodeCell<F>, done: &AtomicU64) -> bool {
    for _try in 0..TRIES {
        if done.load(Ordering::SeqCst) == 1 {
            return true;
        }
        let _turned = cell.turn(fabric);
        yield_now();
    }
    false
}

fn gets_all<F: FabricName>(
    fabric: &Fabric<F>,
    cell: &mut NodeCell<F>,
    at: End,
    pairs: u64,
    done: &AtomicU64,
) -> bool {
    for _pair in 0..pairs {
        if !gets_and_closes(fabric, cell, at) {
            return false;
        }
    }
    acts_until(fabric, cell, done)
}

/// Whether so many pairs go over a first pair to the other thread and are closed there, each thread with a cell of its own.
pub(crate) fn both_close<F: FabricName + Send + Sync, R: Threads>(
    rt: &R,
    alloc: Global,
    fabric: &Fabric<F>,
    left: &mut NodeCell<F>,
    right: &mut NodeCell<F>,
    over: u64,
    pairs: u64,
) -> bool {
    let done = AtomicU64::new(0);
    let (sent, got) = join(
        rt,
        || sends_all(fabric, left, alloc, end(over, Side::A), pairs, &done),
        || gets_all(fabric, right, end(over, Side::B), pairs, &done),
    );
    sent && got
}

// Whether a turn of a cell does something.
fn acts<F: FabricName>(fabric: &Fabric<F>, cell: &mut NodeCell<F>) -> bool {
    !matches!(cell.turn(fabric), Ok(Happened::Idle))
}

// Whether cells come to rest by turns.
fn come_to_rest<F: FabricName>(
    fabric: &Fabric<F>,
    left: &mut NodeCell<F>,
    right: &mut NodeCell<F>,
) -> bool {
    for _pass in 0..TRIES {
        let left_acts = acts(fabric, left);
        if !acts(fabric, right) && !left_acts {
            return true;
        }
    }
    false
}

/// Whether so many pairs are closed by two threads, and all comes to rest by the cells' turns.
pub(crate) fn close_all<F: FabricName + Send + Sync, R: Threads>(
    rt: &R,
    alloc: Global,
    fabric: &Fabric<F>,
    cells: &mut [NodeCell<F>],
    pairs: u64,
) -> bool {
    match cells {
        [left, right] => {
            both_close(rt, alloc, fabric, left, right, 0, pairs)
                && come_to_rest(fabric, left, right)
        }
        _ => false,
    }
}

// How many routers the two nodes have in the world that their cells show, once all pairs are closed.
fn left_over<F: FabricName + Send + Sync, R: Threads>(
    rt: &R,
    alloc: Global,
    blank: Blank,
) -> Option<[Option<usize>; 2]>
    requires { blank ≡ F.table }
{
    let mut it = named::<F>(blank)?;
    let closed = close_all(rt, alloc, &it.fabric, it.cells.as_mut_slice(), PAIRS);
    let routers = routers_of(it)?;
    closed.then_some(routers)
}

#[test]
fn pairs_that_two_threads_close_are_gone(rt: HostRuntime) -> Result<(), Fail> {
    let blank = start(rt.alloc(), 2, 4096)?;
    assert_eq!(rt;
        left_over::<Brand, _>(&rt, rt.alloc(), blank),
        Some([Some(1), Some(1)])
    );
    Ok(())
}
