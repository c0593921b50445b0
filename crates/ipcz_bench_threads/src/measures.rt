//! What each measure does, and how long it takes.
ghost use Rattle.std.specs.Prelude.{◌≡◌};

use crate::lists::{Asks, Listed, list_behind, set_of};
use crate::loops::{
    Idly, answer, ask, get_all, get_late, get_stream, pass, pass_runs, put_all, put_late,
    put_stream, whole_runs,
};
use crate::talkers::{Own, Shared, Talker};
use ipcz_base::{End, Side};
use ipcz_fabric::{Blank, Fabric, FabricName, Hub, NodeCell, Portal, start, start_lasting};
use std::alloc::Global;
use std::marker::Brand;
use std::sync::Wait;
use std::thread::{Threads, join};
use std::time::{Clock, Instant};

const LEFT: End = End {
    pair: 0,
    side: Side::A,
};

const RIGHT: End = End {
    pair: 0,
    side: Side::B,
};

/// How two talkers pass parcels.
#[derive(Clone, Copy)]
pub enum Way {
    /// On one thread, one parcel after the other.
    Alone,
    /// On one thread, runs of parcels one after the other. Link words come back.
    Runs,
    /// One thread puts, another gets.
    Threads,
    /// One thread puts, another gets, and acknowledges what it has got. Link words come back.
    Stream,
    /// A byte there and back, between two threads.
    Trips(Idly),
    /// One thread puts a byte after so many milliseconds, and another gets it.
    Late(Idly),
}

/// What is measured.
#[derive(Clone, Copy)]
pub enum Measure {
    /// Cells that a thread owns.
    Cells(Way),
    /// Portals of a hub.
    Hub(Way),
    /// Portals of a hub, of which the getter has a list of so many.
    Lists(Asks, usize),
    /// Each of these, one after the other.
    All,
}

impl Measure {
    /// The measure of a name.
    pub fn named(name: &str) -> Option<Measure> {
        match name {
            "cells" => Some(Measure::Cells(Way::Alone)),
            "cells_in_runs" => Some(Measure::Cells(Way::Runs)),
            "cells_streaming" => Some(Measure::Cells(Way::Stream)),
            "cells_on_threads" => Some(Measure::Cells(Way::Threads)),
            "round_trips" => Some(Measure::Cells(Way::Trips(Idly::Turning))),
            "sleeping_round_trips" => Some(Measure::Cells(Way::Trips(Idly::Sleeping))),
            "late" => Some(Measure::Cells(Way::Late(Idly::Turning))),
            "sleeping_late" => Some(Measure::Cells(Way::Late(Idly::Sleeping))),
            "hub" => Some(Measure::Hub(Way::Alone)),
            "hub_in_runs" => Some(Measure::Hub(Way::Runs)),
            "hub_streaming" => Some(Measure::Hub(Way::Stream)),
            "hub_on_threads" => Some(Measure::Hub(Way::Threads)),
            "hub_round_trips" => Some(Measure::Hub(Way::Trips(Idly::Turning))),
            "hub_sleeping_round_trips" => Some(Measure::Hub(Way::Trips(Idly::Sleeping))),
            "hub_late" => Some(Measure::Hub(Way::Late(Idly::Turning))),
            "hub_sleeping_late" => Some(Measure::Hub(Way::Late(Idly::Sleeping))),
            "hub_waits_1" => Some(Measure::Lists(Asks::Waits, 1)),
            "hub_waits_100" => Some(Measure::Lists(Asks::Waits, 100)),
            "hub_asks_1" => Some(Measure::Lists(Asks::Gets, 1)),
            "hub_asks_100" => Some(Measure::Lists(Asks::Gets, 100)),
            "all" => Some(Measure::All),
            _ => None,
        }
    }
}

// Whether two talkers pass so many parcels.
fn talk<R: Threads + Clock + Sync, T: Talker + Send>(
    rt: &R,
    left: &mut T,
    right: &mut T,
    way: Way,
    rounds: u64,
) -> bool {
    let (one, two) = match way {
        Way::Alone => (pass(left, right, rounds), true),
        Way::Runs => (pass_runs(left, right, rounds), true),
        Way::Stream => join(
            rt,
            || put_stream(left, rounds),
            || get_stream(right, rounds),
        ),
        Way::Threads => join(rt, || put_all(left, rounds), || get_all(right, rounds)),
        Way::Trips(idly) => join(
            rt,
            || ask(left, idly, rounds),
            || answer(right, idly, rounds),
        ),
        Way::Late(idly) => join(rt, || put_late(rt, left, rounds), || get_late(right, idly)),
    };
    one && two
}

// So many rounds, or as many more as make the last run whole.
fn whole(way: Way, rounds: u64) -> u64 {
    match way {
        Way::Runs => whole_runs(rounds),
        _ => rounds,
    }
}

// The share of one of so many rounds in nanoseconds, if they went as they should.
fn timed<R: Threads + Clock + Sync, T: Talker + Send>(
    rt: &R,
    left: &mut T,
    right: &mut T,
    way: Way,
    rounds: u64,
) -> Option<u64> {
    let rounds = whole(way, rounds);
    let start = Instant::now(rt).ok()?;
    if !talk(rt, left, right, way, rounds) {
        return None;
    }
    let spent = start.elapsed(rt).ok()?.as_nanos();
    u64::try_from(spent.checked_div(rounds as u128)?).ok()
}

// The share of one round between two cells.
fn timed_cells<F: FabricName + Send + Sync, R: Threads + Wait + Clock + Sync>(
    rt: &R,
    alloc: Global,
    fabric: &Fabric<F>,
    left: &mut NodeCell<F>,
    right: &mut NodeCell<F>,
    way: Way,
    rounds: u64,
) -> Option<u64> {
    let mut left = Own {
        rt,
        fabric,
        cell: left,
        at: LEFT,
        alloc,
    };
    let mut right = Own {
        rt,
        fabric,
        cell: right,
        at: RIGHT,
        alloc,
    };
    timed(rt, &mut left, &mut right, way, rounds)
}

// The same of cells, if they are two.
fn timed_two<F: FabricName + Send + Sync, R: Threads + Wait + Clock + Sync>(
    rt: &R,
    alloc: Global,
    fabric: &Fabric<F>,
    cells: &mut [NodeCell<F>],
    way: Way,
    rounds: u64,
) -> Option<u64> {
    match cells {
        [left, right] => timed_cells(rt, alloc, fabric, left, right, way, rounds),
        _ => None,
    }
}

// Two cells of one table.
fn by_cells<F: FabricName + Send + Sync, R: Threads + Wait + Clock + Sync>(
    rt: &R,
    alloc: Global,
    blank: Blank,
    way: Way,
    rounds: u64,
) -> Option<u64>
    requires { blank ≡ F.table }
{
    let (fabric, mut cells) = blank.name::<F>().ok()?;
    timed_two(rt, alloc, &fabric, cells.as_mut_slice(), way, rounds)
}

// The share of one round between two portals of a hub.
fn timed_portals<F: FabricName + Send + Sync, R: Threads + Wait + Clock + Sync>(
    rt: &R,
    alloc: Global,
    hub: &Hub<F>,
    portals: &[Portal<F>],
    way: Way,
    rounds: u64,
) -> Option<u64> {
    let [left, right] = portals else {
        return None;
    };
    let mut left = Shared {
        rt,
        hub,
        portal: left,
        alloc,
    };
    let mut right = Shared {
        rt,
        hub,
        portal: right,
        alloc,
    };
    timed(rt, &mut left, &mut right, way, rounds)
}

// Two portals of one hub.
fn by_hub<F: FabricName + Send + Sync, R: Threads + Wait + Clock + Sync>(
    rt: &R,
    alloc: Global,
    blank: Blank,
    way: Way,
    rounds: u64,
) -> Option<u64>
    requires { blank ≡ F.table }
{
    let (fabric, cells) = blank.name::<F>().ok()?;
    let (hub, portals) = Hub::new(fabric, cells).ok()?;
    timed_portals(rt, alloc, &hub, portals.as_slice(), way, rounds)
}

// The share of one round between a portal and the last of so many.
fn timed_lists<F: FabricName + Send + Sync, R: Threads + Wait + Clock + Sync>(
    rt: &R,
    alloc: Global,
    hub: &Hub<F>,
    portals: &[Portal<F>],
    list: &[Portal<F>],
    asks: Asks,
    rounds: u64,
) -> Option<u64> {
    let mut left = Listed {
        rt,
        hub,
        portals,
        set: set_of(alloc, portals)?,
        node: 0,
        asks,
        alloc,
    };
    let mut right = Listed {
        rt,
        hub,
        portals: list,
        set: set_of(alloc, list)?,
        node: 1,
        asks,
        alloc,
    };
    timed(rt, &mut left, &mut right, Way::Alone, rounds)
}

// A portal of a hub, and so many at its other node.
fn by_lists<F: FabricName + Send + Sync, R: Threads + Wait + Clock + Sync>(
    rt: &R,
    alloc: Global,
    blank: Blank,
    asks: Asks,
    count: usize,
    rounds: u64,
) -> Option<u64>
    requires { blank ≡ F.table }
{
    let (fabric, cells) = blank.name::<F>().ok()?;
    let (hub, mut portals) = Hub::new(fabric, cells).ok()?;
    let right = portals.pop()?;
    let mut list = Vec::new(alloc);
    let mut others = Vec::new(alloc);
    list_behind(rt, &hub, right, count, &mut list, &mut others)?;
    let (portals, list) = (portals.as_slice(), list.as_slice());
    timed_lists(rt, alloc, &hub, portals, list, asks, rounds)
}

// The same, of a new table.
fn nanoseconds_of_lists<R: Threads + Wait + Clock + Sync>(
    rt: &R,
    alloc: Global,
    asks: Asks,
    count: usize,
    rounds: u64,
) -> Option<u64> {
    let blank = start(alloc, 2, 128).ok()?;
    by_lists::<Brand, R>(rt, alloc, blank, asks, count, rounds)
}

// A table of two nodes for a way.
fn table(alloc: Global, way: Way) -> Option<Blank> {
    match way {
        Way::Runs | Way::Stream => start_lasting(alloc, 2, 64, u64::MAX).ok(),
        _ => start(alloc, 2, 4).ok(),
    }
}

// What a parcel or a round trip takes between two nodes of a new table.
fn nanoseconds<R: Threads + Wait + Clock + Sync>(
    rt: &R,
    alloc: Global,
    is_hub: bool,
    way: Way,
    rounds: u64,
) -> Option<u64> {
    let blank = table(alloc, way)?;
    if is_hub {
        by_hub::<Brand, R>(rt, alloc, blank, way, rounds)
    } else {
        by_cells::<Brand, R>(rt, alloc, blank, way, rounds)
    }
}

// How many of the measures are taken.
fn count_all<R: Threads + Wait + Clock + Sync>(rt: &R, alloc: Global, rounds: u64) -> u64 {
    let mut count = 0u64;
    let ways = [
        Way::Alone,
        Way::Runs,
        Way::Stream,
        Way::Threads,
        Way::Trips(Idly::Turning),
        Way::Trips(Idly::Sleeping),
        Way::Late(Idly::Sleeping),
    ];
    for way in ways {
        for is_hub in [false, true] {
            if nanoseconds(rt, alloc, is_hub, way, rounds).is_some() {
                count = count.saturating_add(1);
            }
        }
    }
    for asks in [Asks::Waits, Asks::Gets] {
        for portals in [1, 100] {
            if nanoseconds_of_lists(rt, alloc, asks, portals, rounds).is_some() {
                count = count.saturating_add(1);
            }
        }
    }
    count
}

/// Takes a measure of so many rounds, and gives the rounded-down share of one in nanoseconds; of all measures how many were taken.
pub fn number<R: Threads + Wait + Clock + Sync>(
    rt: &R,
    alloc: Global,
    measure: Measure,
    rounds: u64,
) -> Option<u64> {
    match measure {
        Measure::Cells(way) => nanoseconds(rt, alloc, false, way, rounds),
        Measure::Hub(way) => nanoseconds(rt, alloc, true, way, rounds),
        Measure::Lists(asks, count) => nanoseconds_of_lists(rt, alloc, asks, count, rounds),
        Measure::All => Some(count_all(rt, alloc, rounds)),
    }
}
