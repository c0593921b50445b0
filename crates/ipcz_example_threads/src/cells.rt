//! Each thread owns the cell of a node, and takes the node's turns between its own calls. No lock stands between them.
ghost use Rattle.std.specs.Prelude.{◌≡◌};

use ipcz_base::{Bytes, End, Ends, Parcel, Refusal, Side};
use ipcz_fabric::{Blank, Fabric, FabricName, NodeCell, Ticket};
use ipcz_node::Happened;
use std::alloc::Global;
use std::sync::Wait;
use std::sync::atomic::{AtomicU64, Ordering};
use std::thread::{Threads, join};
use std::time::Duration;

// The ends of the pair that joins the two nodes from the start: side A is at node 0, side B at node 1.
const LEFT: End = End {
    pair: 0,
    side: Side::A,
};

const RIGHT: End = End {
    pair: 0,
    side: Side::B,
};

// Puts a text and some ends. Up to 16 bytes take no memory.
fn put<F: FabricName>(
    alloc: Global,
    fabric: &Fabric<F>,
    cell: &mut NodeCell<F>,
    at: End,
    text: &[u8],
    ends: &[End],
) -> Result<(), Refusal> {
    let bytes = Bytes::from_slice(alloc, text)?;
    let ends = Ends::from_vec(Vec::from_slice(alloc, ends)?);
    match cell.put_wide(fabric, at, bytes, ends) {
        Ok(_number) => Ok(()),
        Err(refused) => Err(refused.why),
    }
}

// Takes a turn, and sleeps if it was idle. The ticket was taken before all that the caller has looked at.
fn turn_or_wait<F: FabricName, R: Wait>(
    rt: &R,
    fabric: &Fabric<F>,
    cell: &mut NodeCell<F>,
    ticket: Ticket,
) -> Result<(), Refusal> {
    match cell.turn(fabric) {
        Ok(Happened::Idle) => {
            cell.wait_since(rt, fabric, ticket, Duration::MAX);
            Ok(())
        }
        Ok(_) | Err(Refusal::Raced) => Ok(()),
        Err(why) => Err(why),
    }
}

// Takes turns until a parcel is got, or the other thread has ended, which is answered `Empty`.
fn get<F: FabricName, R: Wait>(
    rt: &R,
    fabric: &Fabric<F>,
    cell: &mut NodeCell<F>,
    at: End,
    ended: &AtomicU64,
) -> Result<Parcel, Refusal> {
    for _try in rt.forever() {
        let ticket = fabric.bells().watch(cell.node());
        match cell.get(fabric, at) {
            Ok((_number, parcel)) => return Ok(parcel),
            Err(Refusal::Empty) if ended.load(Ordering::SeqCst) == 0 => {}
            Err(why) => return Err(why),
        }
        turn_or_wait(rt, fabric, cell, ticket)?;
    }
    unreachable!()
}

// Node 0: opens a pair, sends one end away and a text after it, and gets the answer.
fn asks<F: FabricName, R: Wait>(
    rt: &R,
    alloc: Global,
    fabric: &Fabric<F>,
    cell: &mut NodeCell<F>,
    ended: &AtomicU64,
) -> Result<Bytes, Refusal> {
    let (kept, moved) = cell.open_pair(fabric)?;
    put(alloc, fabric, cell, LEFT, b"", &[moved])?;
    put(alloc, fabric, cell, kept, b"hello", &[])?;
    let answer = get(rt, fabric, cell, kept, ended)?;
    Ok(answer.bytes)
}

// Node 1: gets the end and the text, and puts the text back. Then it takes turns until the other thread has got it.
fn answers<F: FabricName, R: Wait>(
    rt: &R,
    alloc: Global,
    fabric: &Fabric<F>,
    cell: &mut NodeCell<F>,
    ended: &AtomicU64,
) -> Result<(), Refusal> {
    let parcel = get(rt, fabric, cell, RIGHT, ended)?;
    let [moved] = parcel.ends.as_slice() else {
        return Err(Refusal::Stranger);
    };
    let text = get(rt, fabric, cell, *moved, ended)?;
    put(alloc, fabric, cell, *moved, text.bytes.as_slice(), &[])?;
    match get(rt, fabric, cell, *moved, ended) {
        Ok(_) => Err(Refusal::Stranger),
        Err(_) => Ok(()),
    }
}

// Tells the thread of a node that the other has ended: first the flag, then the wake.
fn ends<F: FabricName>(fabric: &Fabric<F>, node: u8, ended: &AtomicU64) {
    ended.store(1, Ordering::SeqCst);
    fabric.notify_all(node);
}

// Both threads, and what node 0 gets back.
fn two_talk<F: FabricName + Send + Sync, R: Threads + Wait + Sync>(
    rt: &R,
    alloc: Global,
    fabric: &Fabric<F>,
    left: &mut NodeCell<F>,
    right: &mut NodeCell<F>,
) -> Result<Bytes, Refusal> {
    let (left_ended, right_ended) = (AtomicU64::new(0), AtomicU64::new(0));
    let (answer, _answered) = join(
        rt,
        || {
            let answer = asks(rt, alloc, fabric, left, &right_ended);
            ends(fabric, 1, &left_ended);
            answer
        },
        || {
            let answered = answers(rt, alloc, fabric, right, &left_ended);
            ends(fabric, 0, &right_ended);
            answered
        },
    );
    answer
}

// The same of cells, if they are two.
fn both_talk<F: FabricName + Send + Sync, R: Threads + Wait + Sync>(
    rt: &R,
    alloc: Global,
    fabric: &Fabric<F>,
    cells: &mut [NodeCell<F>],
) -> Result<Bytes, Refusal> {
    match cells {
        [left, right] => two_talk(rt, alloc, fabric, left, right),
        _ => Err(Refusal::Stranger),
    }
}

/// What node 0 gets back from node 1. `F` has to name the table of this blank.
pub fn talk_by_cells<F: FabricName + Send + Sync, R: Threads + Wait + Sync>(
    rt: &R,
    alloc: Global,
    blank: Blank,
) -> Result<Bytes, Refusal>
    requires { blank ≡ F.table }
{
    let (fabric, mut cells) = match blank.name::<F>() {
        Ok(named) => named,
        Err((why, _blank)) => return Err(why),
    };
    both_talk(rt, alloc, &fabric, cells.as_mut_slice())
}
