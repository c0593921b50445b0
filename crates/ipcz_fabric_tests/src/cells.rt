//! Cells of one table on one thread, by lists of calls with what each gives.
//!
//! Nothing is promised of what stands here: a test's own proof would else work out the whole cell at each call. So a test is a list of calls.
mod bypass;
mod parcel;
mod retiring;
mod words;

ghost use Rattle.std.specs.Prelude.{◌≡◌};
ghost use Rattle.ipcz_world.specs.Lawful.{IsWithinLimits};

use crate::cell_tables::{self, named, put};
use ipcz_base::{End, PortalStatus, Refusal, Side};
use ipcz_cell::{Blank, Fabric, FabricName, NodeCell, NodeSet, start};
use std::alloc::Global;
use std::marker::Brand;
use std::process::Abort;

const A0: End = End {
    pair: 0,
    side: Side::A,
};

const B0: End = End {
    pair: 0,
    side: Side::B,
};

const A1: End = End {
    pair: 1,
    side: Side::A,
};

const B1: End = End {
    pair: 1,
    side: Side::B,
};

/// A call on a node's cell, with what it gives.
#[derive(Clone, Copy)]
pub(crate) enum Call {
    /// Opens a pair, which has these ends.
    Open(End, End),
    /// Opens pairs, which have the numbers from the first to the second.
    OpenAll(u64, u64),
    /// Opens a pair, which is refused.
    OpenRefused(Refusal),
    /// Puts these bytes and ends at an end, under this number.
    Put(End, &'static [u8], &'static [End], u64),
    /// Takes turns, which do this as their values print.
    Turns(&'static [&'static str]),
    /// Takes turns until one is idle, but at most so many, and tells how many.
    Acts(u64, u64),
    /// Takes turns so, and tells how many, and which nodes they touched, by their bits.
    Touches(u64, u64, u64),
    /// Gets these bytes and ends at an end, under this number.
    Get(End, &'static [u8], &'static [End], u64),
    /// What gets at an end would answer: the number of the next parcel, its sizes, how many wait, and whether the peer has closed.
    Look(End, Option<PortalStatus>),
    /// Whether an end has arrived, or none if the node's callers don't hold it.
    Arrived(End, Option<bool>),
    /// Closes an end, whose mark has this number.
    Close(End, u64),
    /// Loads how many link words were claimed.
    Claimed(u64),
    /// Loads a link word.
    Word(u64, u64),
    /// Tells whether the node has nothing to do.
    Quiet(bool),
}

// Whether an open gives a pair.
fn opens<F: FabricName>(
    fabric: &Fabric<F>,
    cell: &mut NodeCell<F>,
    pair: u64,
) -> Result<bool, Refusal> {
    let (a, b) = cell.open_pair(fabric)?;
    Ok(a.pair == pair && a.side == Side::A && b == a.opposite())
}

// Whether opens give the pairs from one number to another.
fn opens_all<F: FabricName>(
    fabric: &Fabric<F>,
    cell: &mut NodeCell<F>,
    first: u64,
    last: u64,
) -> Result<bool, Refusal> {
    for pair in first..=last {
        if !opens(fabric, cell, pair)? {
            return Ok(false);
        }
    }
    Ok(true)
}

// Whether a turn does what its value prints.
fn takes<F: FabricName>(
    fabric: &Fabric<F>,
    cell: &mut NodeCell<F>,
    alloc: Global,
    event: &str,
) -> Result<bool, Refusal> {
    let happened = cell.turn(fabric)?;
    let Ok(text) = format!(in alloc; "{happened:?}") else {
        return Err(Refusal::OutOfMemory);
    };
    Ok(text.as_str() == event)
}

// Whether turns do what their values print.
fn take_all<F: FabricName>(
    fabric: &Fabric<F>,
    cell: &mut NodeCell<F>,
    alloc: Global,
    events: &[&str],
) -> Result<bool, Refusal> {
    for event in events {
        if !takes(fabric, cell, alloc, *event)? {
            return Ok(false);
        }
    }
    Ok(true)
}

// Whether turns are so many, and touch these nodes.
fn touches<F: FabricName>(
    fabric: &Fabric<F>,
    cell: &mut NodeCell<F>,
    limit: u64,
    number: u64,
    nodes: u64,
) -> Result<bool, Refusal> {
    let mut touched = NodeSet::none();
    let taken = cell.acts_touching(fabric, limit, &mut touched)?;
    Ok(taken == number && touched.bits() == nodes && touched.has(1) == (nodes & 2 == 2))
}

// Whether a get gives these bytes and ends under this number.
fn gets<F: FabricName>(
    fabric: &Fabric<F>,
    cell: &mut NodeCell<F>,
    at: End,
    (data, ends): (&[u8], &[End]),
    number: u64,
) -> Result<bool, Refusal> {
    let (n, parcel) = cell.get(fabric, at)?;
    Ok(n == number && parcel.bytes.as_slice() == data && parcel.ends.as_slice() == ends)
}

// Whether an open gives these ends.
fn opens_ends<F: FabricName>(
    fabric: &Fabric<F>,
    cell: &mut NodeCell<F>,
    first: End,
    second: End,
) -> Result<bool, Refusal> {
    let (a, b) = cell.open_pair(fabric)?;
    Ok(a == first && b == second)
}

// Whether a call gives what it should.
fn gives<F: FabricName>(
    fabric: &Fabric<F>,
    cell: &mut NodeCell<F>,
    alloc: Global,
    call: Call,
) -> Result<bool, Refusal> {
    match call {
        Call::Open(first, second) => opens_ends(fabric, cell, first, second),
        Call::OpenAll(first, last) => opens_all(fabric, cell, first, last),
        Call::OpenRefused(why) => Ok(cell.open_pair(fabric) == Err(why)),
        Call::Put(at, data, ends, number) => {
            Ok(put(fabric, cell, alloc, at, data, ends) == Some(number))
        }
        Call::Turns(events) => take_all(fabric, cell, alloc, events),
        Call::Acts(limit, number) => Ok(cell.acts(fabric, limit)? == number),
        Call::Touches(limit, number, nodes) => touches(fabric, cell, limit, number, nodes),
        Call::Get(at, data, ends, number) => gets(fabric, cell, at, (data, ends), number),
        Call::Look(at, want) => Ok(cell.look(at) == want),
        Call::Arrived(at, want) => Ok(cell.has_arrived(at) == want),
        Call::Close(at, number) => Ok(cell.close(fabric, at)? == number),
        Call::Claimed(count) => Ok(cell.claimed(fabric) == count),
        Call::Word(i, word) => Ok(cell.word(fabric, i) == Some(word)),
        Call::Quiet(want) => Ok(cell.quiet(fabric) == want),
    }
}

/// The first of these calls on cells that doesn't give what it should.
pub(crate) fn first_wrong<F: FabricName>(
    fabric: &Fabric<F>,
    cells: &mut [NodeCell<F>],
    alloc: Global,
    calls: &[(usize, Call)],
) -> Result<Option<usize>, Refusal> {
    for (i, (node, call)) in calls.iter().enumerate() {
        let Some(cell) = cells.get_mut(*node) else {
            return Ok(Some(i));
        };
        if !gives(fabric, cell, alloc, *call)? {
            return Ok(Some(i));
        }
    }
    Ok(None)
}

/// The same, of the cells of a table.
pub(crate) fn run<F: FabricName>(
    blank: Blank,
    alloc: Global,
    calls: &[(usize, Call)],
) -> Result<Option<usize>, Refusal>
    requires { blank ≡ F.table }
{
    match named::<F>(blank) {
        Some(mut it) => first_wrong(&it.fabric, it.cells.as_mut_slice(), alloc, calls),
        None => Err(Refusal::OutOfMemory),
    }
}

// The same, of the cells of a new table of two nodes.
fn first_wrong_of(
    alloc: Global,
    words: u32,
    calls: &[(usize, Call)],
) -> Result<Option<usize>, Refusal>
    requires { IsWithinLimits 2 words }
{
    let blank = start(alloc, 2, words)?;
    run::<Brand>(blank, alloc, calls)
}

// Each call has to give what it should, on the cells of a new table of two nodes. (A test that asserts this itself is several times as dear to
// prove.)
fn all_go(rt: &impl Abort, alloc: Global, words: u32, calls: &[(usize, Call)])
    requires { IsWithinLimits 2 words }
{
    assert_eq!(rt; first_wrong_of(alloc, words, calls), Ok(None));
}

// How many routers the first two nodes have in the world that the cells of a table show, if first these calls and then those give
// what they should.
fn routers_after<F: FabricName>(
    blank: Blank,
    alloc: Global,
    first: &[(usize, Call)],
    then: &[(usize, Call)],
) -> Option<[Option<usize>; 2]>
    requires { blank ≡ F.table }
{
    let mut it = named::<F>(blank)?;
    let went = first_wrong(&it.fabric, it.cells.as_mut_slice(), alloc, first) == Ok(None)
        && first_wrong(&it.fabric, it.cells.as_mut_slice(), alloc, then) == Ok(None);
    let routers = cell_tables::routers_of(it)?;
    went.then_some(routers)
}

// The same, of the cells of a new table.
fn routers_of(
    alloc: Global,
    nodes: u8,
    words: u32,
    first: &[(usize, Call)],
    then: &[(usize, Call)],
) -> Option<[Option<usize>; 2]>
    requires { IsWithinLimits nodes words }
{
    let blank = start(alloc, nodes, words).ok()?;
    routers_after::<Brand>(blank, alloc, first, then)
}
