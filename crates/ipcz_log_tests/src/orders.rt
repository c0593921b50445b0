//! What is said of several logs, of which only the order within each is known.

use crate::verdicts::gives;
use ipcz_base::{Bytes, Profile, Refusal, Sequence};
use ipcz_script::Text;
use ipcz_verdict::{Entry, Found, Line, Logs};
use std::alloc::{AllocError, Global};

// What stands in a log: parcels without portals go from node 1 to node 0, by the portals of the first pair.
#[derive(Clone, Copy)]
enum Call {
    // Node 1 puts a parcel of these bytes, which gets this number.
    Put(&'static str, u64),
    // Node 0 gets it.
    Got(&'static str, u64),
    // The portal of a first pair at node 0 is closed, where nothing was put at it.
    Closed(&'static str),
    // A get at such a portal finds that its peer is closed.
    IsOver(&'static str),
}

use Call::{Closed, Got, IsOver, Put};

fn put_line(alloc: Global, bytes: &str, number: u64) -> Result<Line, AllocError> {
    Ok(Line::Put {
        node: 1,
        at: Text::copy_of(alloc, "1>0")?,
        bytes: Bytes::from_slice(alloc, bytes.as_bytes())?,
        portals: Sequence::from_vec(Vec::new(alloc)),
        number,
    })
}

fn got_line(alloc: Global, bytes: &str, number: u64) -> Result<Line, AllocError> {
    Ok(Line::Got {
        node: 0,
        at: Text::copy_of(alloc, "0>1")?,
        bytes: Bytes::from_slice(alloc, bytes.as_bytes())?,
        portals: Sequence::from_vec(Vec::new(alloc)),
        number,
    })
}

fn line_of(alloc: Global, call: Call) -> Result<Line, AllocError> {
    match call {
        Put(bytes, number) => put_line(alloc, bytes, number),
        Got(bytes, number) => got_line(alloc, bytes, number),
        Closed(at) => Ok(Line::Closed {
            node: 0,
            at: Text::copy_of(alloc, at)?,
            number: 0,
        }),
        IsOver(at) => Ok(Line::GetRefused {
            node: 0,
            at: Text::copy_of(alloc, at)?,
            why: Refusal::PeerClosed,
        }),
    }
}

// Logs with these lines, which are numbered from 1 on.
fn logs_of(alloc: Global, calls: &[(u8, Call)]) -> Result<Logs, AllocError> {
    let mut logs = Logs::new(alloc)?;
    for (i, (log, call)) in calls.iter().enumerate() {
        if *log < 64 {
            logs.push(Entry {
                log: *log,
                number: (i as u64).saturating_add(1),
                line: line_of(alloc, *call)?,
            })?;
        }
    }
    Ok(logs)
}

// What is found of these lines of logs on three nodes, in so many steps.
fn found(alloc: Global, calls: &[(u8, Call)], steps: u64) -> Result<Found, AllocError> {
    let mut logs = logs_of(alloc, calls)?;
    logs.find_order(alloc, 3, Profile::Wide, steps)
}

// The lines of logs, how many steps may be taken, and what is to be found.
type Row = (&'static [(u8, Call)], u64, Found);

// The first row of which something else is found.
fn first_other(alloc: Global, rows: &[Row]) -> Option<usize> {
    for (i, (calls, steps, want)) in rows.iter().enumerate() {
        if found(alloc, *calls, *steps) != Ok(*want) {
            return Some(i);
        }
    }
    None
}

static ORDERS: [Row; 2] = [
    // what is got stands before what is put
    (&[(0, Got("a", 0)), (1, Put("a", 0))], 1000, Found::Order),
    // two threads put at one portal, in the order that the numbers tell
    (
        &[
            (0, Put("b", 1)),
            (0, Put("c", 2)),
            (63, Put("a", 0)),
            (63, Put("d", 3)),
            (7, Got("a", 0)),
            (7, Got("b", 1)),
        ],
        1000,
        Found::Order,
    ),
];

#[test]
fn finds_an_order_that_no_log_has(rt: HostRuntime) {
    gives(&rt, first_other(rt.alloc(), &ORDERS), None);
}

// Of the two closes the one that is tried first must come last: after it nothing can be got at its portal.
static CLOSES: [Row; 1] = [(
    &[
        (0, Closed("0>1")),
        (1, Closed("0>2")),
        (1, Put("a", 0)),
        (2, Got("a", 0)),
    ],
    1000,
    Found::Order,
)];

#[test]
fn takes_a_close_back(rt: HostRuntime) {
    gives(&rt, first_other(rt.alloc(), &CLOSES), None);
}

static NO_ORDERS: [Row; 5] = [
    (
        &[(0, Put("a", 0)), (1, Got("b", 0))],
        1000,
        Found::NoOrder(2),
    ),
    // each log's own order is kept
    (
        &[
            (0, Put("a", 0)),
            (0, Put("b", 1)),
            (1, Got("b", 1)),
            (1, Got("a", 0)),
        ],
        1000,
        Found::NoOrder(3),
    ),
    (
        &[(0, IsOver("0>1")), (1, Put("a", 0))],
        1000,
        Found::NoOrder(1),
    ),
    // no line may be passed over, and none taken twice
    (&[(0, Put("a", 1))], 1000, Found::NoOrder(1)),
    (
        &[(0, Put("a", 0)), (1, Got("a", 0)), (2, Got("a", 0))],
        1000,
        Found::NoOrder(3),
    ),
];

#[test]
fn refuses_what_no_order_allows(rt: HostRuntime) {
    gives(&rt, first_other(rt.alloc(), &NO_ORDERS), None);
}

static STEPS: [Row; 5] = [
    (&[], 0, Found::Untold),
    (&[], 1, Found::Order),
    (&[(0, Got("a", 0)), (1, Put("a", 0))], 2, Found::Untold),
    (&[(0, Got("a", 0)), (1, Put("a", 0))], 3, Found::Order),
    (&[(0, Put("a", 0)), (1, Got("b", 0))], 1, Found::Untold),
];

#[test]
fn tells_nothing_without_steps(rt: HostRuntime) {
    gives(&rt, first_other(rt.alloc(), &STEPS), None);
}
