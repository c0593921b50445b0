//! Waits: each sleeps for so long if no wake comes that a wake that is lost fails the test.
ghost use Rattle.std.specs.Prelude.{◌≡◌};

use crate::cell_tables::{named, put};
use crate::hub_tables::well;
use ipcz_base::{End, Side};
use ipcz_cell::{Blank, Fabric, FabricName, NodeCell, start};
use ipcz_node::Happened;
use std::alloc::Global;
use std::marker::Brand;
use std::sync::Wait;
use std::test::Fail;
use std::thread::{Threads, join};
use std::time::{Clock, Duration, Instant};

const TURNS: u64 = 10_000_000;

const ROUNDS: u64 = 1000;

const LEFT: End = End {
    pair: 0,
    side: Side::A,
};

const RIGHT: End = End {
    pair: 0,
    side: Side::B,
};

// How long a sleep is that no wake ends. All that a test does takes far less.
fn long() -> Duration {
    Duration::from_secs(20)
}

// So long that the other threads have most likely begun to sleep.
fn short() -> Duration {
    Duration::from_millis(50)
}

// Whether no sleep has come to its end since.
fn is_soon<R: Clock>(rt: &R, begin: Instant) -> bool {
    match begin.elapsed(rt) {
        Ok(spent) => spent < long(),
        Err(_) => false,
    }
}

// Takes turns until a parcel is got, and waits at each turn that is idle.
fn awaits<F: FabricName, R: Wait>(
    rt: &R,
    fabric: &Fabric<F>,
    cell: &mut NodeCell<F>,
    at: End,
) -> bool {
    for _turn in 0..TURNS {
        match cell.turn(fabric) {
            Ok(Happened::Hand { .. }) => {
                if cell.get(fabric, at).is_ok() {
                    return true;
                }
            }
            Ok(Happened::Idle) => {
                cell.wait(rt, fabric, long());
            }
            Ok(_) | Err(_) => {}
        }
    }
    false
}

// Takes turns until one is idle.
fn acts<F: FabricName>(fabric: &Fabric<F>, cell: &mut NodeCell<F>) -> bool {
    for _turn in 0..TURNS {
        if matches!(cell.turn(fabric), Ok(Happened::Idle)) {
            return true;
        }
    }
    false
}

// Puts parcels, and gets an answer to each.
fn asks<F: FabricName, R: Wait>(
    rt: &R,
    alloc: Global,
    fabric: &Fabric<F>,
    cell: &mut NodeCell<F>,
) -> bool {
    for _round in 0..ROUNDS {
        if put(fabric, cell, alloc, LEFT, &[], &[]).is_none() || !awaits(rt, fabric, cell, LEFT) {
            return false;
        }
    }
    true
}

// Gets parcels, and puts an answer to each.
fn answers<F: FabricName, R: Wait>(
    rt: &R,
    alloc: Global,
    fabric: &Fabric<F>,
    cell: &mut NodeCell<F>,
) -> bool {
    for _round in 0..ROUNDS {
        if !awaits(rt, fabric, cell, RIGHT) || put(fabric, cell, alloc, RIGHT, &[], &[]).is_none() {
            return false;
        }
    }
    acts(fabric, cell)
}

// Takes turns in one go until a parcel is got, and waits where there is nothing to do; but gives up once a sleep has come to its end.
fn awaits_by_acts<F: FabricName, R: Wait + Clock>(
    rt: &R,
    fabric: &Fabric<F>,
    cell: &mut NodeCell<F>,
    at: End,
    begin: Instant,
) -> bool {
    for _turn in 0..TURNS {
        if !is_soon(rt, begin) {
            return false;
        }
        let ticket = fabric.bells().watch(cell.node());
        if cell.acts(fabric, TURNS).is_ok() {
            if cell.get(fabric, at).is_ok() {
                return true;
            }
            cell.wait_since(rt, fabric, ticket, long());
        }
    }
    false
}

fn puts_three<F: FabricName>(alloc: Global, fabric: &Fabric<F>, cell: &mut NodeCell<F>) -> bool {
    for _parcel in 0..3 {
        if put(fabric, cell, alloc, LEFT, &[], &[]).is_none() {
            return false;
        }
    }
    true
}

fn awaits_three<F: FabricName, R: Wait + Clock>(
    rt: &R,
    fabric: &Fabric<F>,
    cell: &mut NodeCell<F>,
    begin: Instant,
) -> bool {
    for _parcel in 0..3 {
        if !awaits_by_acts(rt, fabric, cell, RIGHT, begin) {
            return false;
        }
    }
    true
}

// Puts three parcels in a row, and gets an answer to the last. A mailbox has one message, so the sender sleeps with the second, and has to be woken
// when the first is taken.
fn asks_in_threes<F: FabricName, R: Wait + Clock>(
    rt: &R,
    alloc: Global,
    fabric: &Fabric<F>,
    cell: &mut NodeCell<F>,
    begin: Instant,
) -> bool {
    for _round in 0..ROUNDS {
        if !puts_three(alloc, fabric, cell) || !awaits_by_acts(rt, fabric, cell, LEFT, begin) {
            return false;
        }
    }
    true
}

// Gets three parcels, and puts an answer to the last.
fn answers_threes<F: FabricName, R: Wait + Clock>(
    rt: &R,
    alloc: Global,
    fabric: &Fabric<F>,
    cell: &mut NodeCell<F>,
    begin: Instant,
) -> bool {
    for _round in 0..ROUNDS {
        if !awaits_three(rt, fabric, cell, begin)
            || put(fabric, cell, alloc, RIGHT, &[], &[]).is_none()
        {
            return false;
        }
    }
    acts(fabric, cell)
}

// What is tried with two cells.
#[derive(Clone, Copy)]
enum Case {
    Talk,
    Threes,
    Rings { in_one_go: bool },
}

fn left_does<F: FabricName, R: Wait + Clock>(
    rt: &R,
    alloc: Global,
    fabric: &Fabric<F>,
    cell: &mut NodeCell<F>,
    begin: Instant,
    case: Case,
) -> bool {
    match case {
        Case::Talk => asks(rt, alloc, fabric, cell),
        _ => asks_in_threes(rt, alloc, fabric, cell, begin),
    }
}

fn right_does<F: FabricName, R: Wait + Clock>(
    rt: &R,
    alloc: Global,
    fabric: &Fabric<F>,
    cell: &mut NodeCell<F>,
    begin: Instant,
    case: Case,
) -> bool {
    match case {
        Case::Talk => answers(rt, alloc, fabric, cell),
        _ => answers_threes(rt, alloc, fabric, cell, begin),
    }
}

// Takes turns until one is idle: one by one, or in one go.
fn acts_so<F: FabricName>(fabric: &Fabric<F>, cell: &mut NodeCell<F>, in_one_go: bool) -> bool {
    if in_one_go {
        cell.acts(fabric, TURNS).is_ok()
    } else {
        acts(fabric, cell)
    }
}

// Whether the hand of a message rings for its sender and for who waits for a parcel at its node. If a bell wasn't rung, a sleep lasts.
fn rings<F: FabricName, R: Wait>(
    rt: &R,
    alloc: Global,
    fabric: &Fabric<F>,
    left: &mut NodeCell<F>,
    right: &mut NodeCell<F>,
    in_one_go: bool,
) -> bool {
    if put(fabric, left, alloc, LEFT, &[], &[]).is_none() || !acts(fabric, left) {
        return false;
    }
    let sender = fabric.bells().watch(left.node());
    let waiter = fabric.news().watch(right.node());
    let acted = acts_so(fabric, right, in_one_go);
    fabric.bells().sleep(rt, left.node(), sender, long());
    fabric.news().sleep(rt, right.node(), waiter, long());
    acted && right.get(fabric, RIGHT).is_ok()
}

// Whether a case goes well with two cells: on two threads but for the rings.
fn two_do<F: FabricName + Send + Sync, R: Threads + Wait + Clock + Sync>(
    rt: &R,
    alloc: Global,
    fabric: &Fabric<F>,
    left: &mut NodeCell<F>,
    right: &mut NodeCell<F>,
    begin: Instant,
    case: Case,
) -> bool {
    if let Case::Rings { in_one_go } = case {
        return rings(rt, alloc, fabric, left, right, in_one_go);
    }
    let (asked, answered) = join(
        rt,
        || left_does(rt, alloc, fabric, left, begin, case),
        || right_does(rt, alloc, fabric, right, begin, case),
    );
    asked && answered
}

// The same of cells, if they are two.
fn both_do<F: FabricName + Send + Sync, R: Threads + Wait + Clock + Sync>(
    rt: &R,
    alloc: Global,
    fabric: &Fabric<F>,
    cells: &mut [NodeCell<F>],
    begin: Instant,
    case: Case,
) -> bool {
    match cells {
        [left, right] => two_do(rt, alloc, fabric, left, right, begin, case),
        _ => false,
    }
}

// The same, with the cells of a table.
fn goes_well<F: FabricName + Send + Sync, R: Threads + Wait + Clock + Sync>(
    rt: &R,
    alloc: Global,
    blank: Blank,
    begin: Instant,
    case: Case,
) -> Option<bool>
    requires { blank ≡ F.table }
{
    let mut it = named::<F>(blank)?;
    Some(both_do(rt, alloc, &it.fabric, it.cells.as_mut_slice(), begin, case))
}

// Whether a case goes well on a new table, and no sleep comes to its end.
fn goes<R: Threads + Wait + Clock + Sync>(rt: &R, alloc: Global, case: Case) -> Option<bool> {
    let begin = Instant::now(rt).ok()?;
    let blank = start(alloc, 2, 4).ok()?;
    let went = goes_well::<Brand, R>(rt, alloc, blank, begin, case);
    Some(went == Some(true) && is_soon(rt, begin))
}

#[test]
fn two_cells_wait_for_each_other(rt: HostRuntime) {
    well(&rt, goes(&rt, rt.alloc(), Case::Talk));
}

#[test]
fn three_parcels_in_a_row_come_where_both_cells_wait(rt: HostRuntime) {
    well(&rt, goes(&rt, rt.alloc(), Case::Threes));
}

#[test]
fn a_hand_rings_for_its_sender_and_for_who_waits(rt: HostRuntime) {
    well(&rt, goes(&rt, rt.alloc(), Case::Rings { in_one_go: false }));
    well(&rt, goes(&rt, rt.alloc(), Case::Rings { in_one_go: true }));
}

// Whether a cell sleeps if it has nothing to do, until its time is over, and doesn't if it has something to do.
fn sleeps<F: FabricName, R: Wait + Clock>(
    rt: &R,
    alloc: Global,
    fabric: &Fabric<F>,
    cell: &mut NodeCell<F>,
) -> Option<bool> {
    let begin = Instant::now(rt).ok()?;
    let idle = cell.wait(rt, fabric, short());
    let busy = put(fabric, cell, alloc, LEFT, &[], &[]).is_some() && !cell.wait(rt, fabric, long());
    Some(idle && busy && is_soon(rt, begin))
}

fn first_sleeps<F: FabricName, R: Wait + Clock>(rt: &R, alloc: Global, blank: Blank) -> Option<bool>
    requires { blank ≡ F.table }
{
    let mut it = named::<F>(blank)?;
    match it.cells.as_mut_slice() {
        [first, ..] => sleeps(rt, alloc, &it.fabric, first),
        [] => None,
    }
}

#[test]
fn a_cell_sleeps_where_it_has_nothing_to_do(rt: HostRuntime) -> Result<(), Fail> {
    let blank = start(rt.alloc(), 2, 4)?;
    assert!(rt; first_sleeps::<Brand, _>(&rt, rt.alloc(), blank) == Some(true));
    Ok(())
}
