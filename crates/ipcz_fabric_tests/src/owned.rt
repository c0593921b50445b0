//! Two threads that each own the cell of a node: no lock stands between them.
ghost use Rattle.std.specs.Prelude.{◌≡◌};

use crate::cell_tables::{named, put};
use ipcz_base::{End, Side};
use ipcz_cell::{Blank, Fabric, FabricName, NodeCell, start};
use std::alloc::Global;
use std::marker::Brand;
use std::sync::atomic::{AtomicU64, Ordering};
use std::test::Fail;
use std::thread::{Threads, join, yield_now};

const TRIES: u64 = 10_000_000;

const PARCELS: u64 = 1000;

const LEFT: End = End {
    pair: 0,
    side: Side::A,
};

const RIGHT: End = End {
    pair: 0,
    side: Side::B,
};

// Puts a number, as text.
fn puts<F: FabricName>(fabric: &Fabric<F>, cell: &mut NodeCell<F>, alloc: Global, n: u64) -> bool {
    let Ok(text) = format!(in alloc; "{n}") else {
        return false;
    };
    put(fabric, cell, alloc, LEFT, text.as_bytes(), &[]).is_some()
}

// Puts the numbers in order, and takes turns until the other side has got them.
fn puts_all<F: FabricName>(
    fabric: &Fabric<F>,
    cell: &mut NodeCell<F>,
    alloc: Global,
    done: &AtomicU64,
) -> bool {
    let mut n = 0u64;
    for _try in 0..TRIES {
        if n < PARCELS && puts(fabric, cell, alloc, n) {
            n = n.saturating_add(1);
        }
        let _turned = cell.turn(fabric);
        if done.load(Ordering::SeqCst) == 1 {
            return true;
        }
        yield_now();
    }
    false
}

// Whether a get gives a number, as text; none if nothing has come.
fn gets<F: FabricName>(
    fabric: &Fabric<F>,
    cell: &mut NodeCell<F>,
    alloc: Global,
    n: u64,
) -> Option<bool> {
    let Ok((number, parcel)) = cell.get(fabric, RIGHT) else {
        return None;
    };
    let Ok(text) = format!(in alloc; "{n}") else {
        return Some(false);
    };
    Some(number == n && parcel.bytes.as_slice() == text.as_bytes())
}

// Takes turns and gets the numbers in order.
fn gets_all<F: FabricName>(
    fabric: &Fabric<F>,
    cell: &mut NodeCell<F>,
    alloc: Global,
    done: &AtomicU64,
) -> bool {
    let mut n = 0u64;
    for _try in 0..TRIES {
        let _turned = cell.turn(fabric);
        match gets(fabric, cell, alloc, n) {
            Some(true) => n = n.saturating_add(1),
            Some(false) => return false,
            None => yield_now(),
        }
        if n == PARCELS {
            done.store(1, Ordering::SeqCst);
            return true;
        }
    }
    false
}

// Whether what one thread puts comes to the other, each with a cell of its own.
fn talks<F: FabricName + Send + Sync, R: Threads>(
    rt: &R,
    alloc: Global,
    fabric: &Fabric<F>,
    left: &mut NodeCell<F>,
    right: &mut NodeCell<F>,
) -> bool {
    let done = AtomicU64::new(0);
    let (put, got) = join(
        rt,
        || puts_all(fabric, left, alloc, &done),
        || gets_all(fabric, right, alloc, &done),
    );
    put && got
}

// The same of cells, if they are two.
fn both_talk<F: FabricName + Send + Sync, R: Threads>(
    rt: &R,
    alloc: Global,
    fabric: &Fabric<F>,
    cells: &mut [NodeCell<F>],
) -> bool {
    match cells {
        [left, right] => talks(rt, alloc, fabric, left, right),
        _ => false,
    }
}

// The same, with the cells of a table of two nodes.
fn talk<F: FabricName + Send + Sync, R: Threads>(
    rt: &R,
    alloc: Global,
    blank: Blank,
) -> Option<bool>
    requires { blank ≡ F.table }
{
    let mut it = named::<F>(blank)?;
    Some(both_talk(rt, alloc, &it.fabric, it.cells.as_mut_slice()))
}

#[test]
fn two_threads_own_a_cell_each(rt: HostRuntime) -> Result<(), Fail> {
    let blank = start(rt.alloc(), 2, 4)?;
    assert!(rt; talk::<Brand, _>(&rt, rt.alloc(), blank) == Some(true));
    Ok(())
}
