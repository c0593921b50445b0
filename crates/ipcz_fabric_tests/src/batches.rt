//! Batches: what cells of a table whose link words come back do with several messages for one node, turn by turn, and cells of one whose words
//! don't.
ghost use Rattle.std.specs.Prelude.{◌≡◌};

use crate::cell_tables::named;
use crate::cells::Call::{Acts, Get, Put, Quiet, Turns};
use crate::cells::{Call, first_wrong, run};
use crate::hub_tables::both;
use crate::lasting::{LEFT, RIGHT};
use ipcz_base::{End, Refusal, Side};
use ipcz_fabric::{Blank, Fabric, FabricName, Hub, NodeCell, Portal, start, start_lasting};
use std::alloc::Global;
use std::marker::Brand;
use std::sync::Wait;
use std::test::Fail;

/// How many slots there are for links: for the pairs of three nodes.
const SLOTS: u32 = 3;

const NUMBERS: u64 = u64::MAX;

// The first of these calls on the cells of a table of two nodes that doesn't give what it should. A post takes all that waits.
fn wrong_by_batches(alloc: Global, calls: &[(usize, Call)]) -> Result<Option<usize>, Refusal> {
    let blank = start_lasting(alloc, 2, SLOTS, NUMBERS)?;
    run::<Brand>(blank, alloc, calls)
}

// The same, where a post takes one message.
fn wrong_one_by_one(alloc: Global, calls: &[(usize, Call)]) -> Result<Option<usize>, Refusal> {
    let blank = start(alloc, 2, SLOTS)?;
    run::<Brand>(blank, alloc, calls)
}

// The same on three nodes, where a post takes all that waits.
fn wrong_of_three(alloc: Global, calls: &[(usize, Call)]) -> Result<Option<usize>, Refusal> {
    let blank = start_lasting(alloc, 3, SLOTS, NUMBERS)?;
    run::<Brand>(blank, alloc, calls)
}

// Of five parcels four wait at node 0: the first was posted before the second was sent.
static FIVE_WAIT: [(usize, Call); 7] = [
    (0, Put(LEFT, b"a", &[], 0)),
    (0, Put(LEFT, b"b", &[], 1)),
    (0, Put(LEFT, b"c", &[], 2)),
    (0, Put(LEFT, b"d", &[], 3)),
    (0, Put(LEFT, b"e", &[], 4)),
    (
        0,
        Turns(&[
            "SendOut { serial: 0, n: 0, link: Central(0), moved: Sequence { items: [] } }",
            "Post(1)",
            "SendOut { serial: 0, n: 1, link: Central(0), moved: Sequence { items: [] } }",
            "SendOut { serial: 0, n: 2, link: Central(0), moved: Sequence { items: [] } }",
            "SendOut { serial: 0, n: 3, link: Central(0), moved: Sequence { items: [] } }",
            "SendOut { serial: 0, n: 4, link: Central(0), moved: Sequence { items: [] } }",
            "Rest(0)",
            "Idle",
        ]),
    ),
    (0, Quiet(false)),
];

// One post takes the four that wait, and node 0 has nothing to do any more. Node 1 takes a look and a hand for each.
static IN_ONE_POST: [(usize, Call); 12] = [
    (
        1,
        Turns(&[
            "Look(0)",
            "Hand { kind: Item(0), link: Central(0), unfit: false }",
            "Rest(0)",
            "Idle",
        ]),
    ),
    (1, Quiet(true)),
    (0, Turns(&["Post(1)", "Idle", "Idle"])),
    (0, Quiet(true)),
    (
        1,
        Turns(&[
            "Look(0)",
            "Hand { kind: Item(1), link: Central(0), unfit: false }",
            "Look(0)",
            "Hand { kind: Item(2), link: Central(0), unfit: false }",
            "Look(0)",
            "Hand { kind: Item(3), link: Central(0), unfit: false }",
            "Look(0)",
            "Hand { kind: Item(4), link: Central(0), unfit: false }",
            "Rest(0)",
            "Idle",
        ]),
    ),
    (0, Turns(&["Idle"])),
    (1, Quiet(true)),
    (1, Get(RIGHT, b"a", &[], 0)),
    (1, Get(RIGHT, b"b", &[], 1)),
    (1, Get(RIGHT, b"c", &[], 2)),
    (1, Get(RIGHT, b"d", &[], 3)),
    (1, Get(RIGHT, b"e", &[], 4)),
];

// The calls of two lists, one after the other.
fn joined(
    alloc: Global,
    first: &[(usize, Call)],
    then: &[(usize, Call)],
) -> Result<Vec<(usize, Call)>, Refusal> {
    let mut calls = Vec::from_slice(alloc, first)?;
    calls.extend_from_slice(then)?;
    Ok(calls)
}

#[test]
fn a_post_takes_all_that_waits(rt: HostRuntime) -> Result<(), Fail> {
    let calls = joined(rt.alloc(), &FIVE_WAIT, &IN_ONE_POST)?;
    assert_eq!(rt; wrong_by_batches(rt.alloc(), calls.as_slice()), Ok(None));
    Ok(())
}

// Five posts, of which each but the first waits until node 1 has handled the one before.
static IN_FIVE_POSTS: [(usize, Call); 15] = [
    (
        1,
        Turns(&[
            "Look(0)",
            "Hand { kind: Item(0), link: Central(0), unfit: false }",
            "Rest(0)",
            "Idle",
        ]),
    ),
    (0, Turns(&["Post(1)", "Idle"])),
    (
        1,
        Turns(&[
            "Look(0)",
            "Hand { kind: Item(1), link: Central(0), unfit: false }",
            "Rest(0)",
            "Idle",
        ]),
    ),
    (0, Turns(&["Post(1)", "Idle"])),
    (
        1,
        Turns(&[
            "Look(0)",
            "Hand { kind: Item(2), link: Central(0), unfit: false }",
            "Rest(0)",
            "Idle",
        ]),
    ),
    (0, Turns(&["Post(1)", "Idle"])),
    (
        1,
        Turns(&[
            "Look(0)",
            "Hand { kind: Item(3), link: Central(0), unfit: false }",
            "Rest(0)",
            "Idle",
        ]),
    ),
    (0, Turns(&["Post(1)", "Idle"])),
    (
        1,
        Turns(&[
            "Look(0)",
            "Hand { kind: Item(4), link: Central(0), unfit: false }",
            "Rest(0)",
            "Idle",
        ]),
    ),
    (0, Turns(&["Idle"])),
    (1, Get(RIGHT, b"a", &[], 0)),
    (1, Get(RIGHT, b"b", &[], 1)),
    (1, Get(RIGHT, b"c", &[], 2)),
    (1, Get(RIGHT, b"d", &[], 3)),
    (1, Get(RIGHT, b"e", &[], 4)),
];

#[test]
fn a_post_takes_one_where_words_do_not_come_back(rt: HostRuntime) -> Result<(), Fail> {
    let calls = joined(rt.alloc(), &FIVE_WAIT, &IN_FIVE_POSTS)?;
    assert_eq!(rt; wrong_one_by_one(rt.alloc(), calls.as_slice()), Ok(None));
    Ok(())
}

// Node 1 has handled two of the four messages of a batch.
static HALF_TAKEN: [(usize, Call); 3] = [
    (1, Acts(100, 3)),
    (0, Turns(&["Post(1)", "Idle"])),
    (
        1,
        Turns(&[
            "Look(0)",
            "Hand { kind: Item(1), link: Central(0), unfit: false }",
            "Look(0)",
            "Hand { kind: Item(2), link: Central(0), unfit: false }",
        ]),
    ),
];

// What is put then waits until the last of the batch is handled.
static MORE_WAITS: [(usize, Call); 17] = [
    (1, Quiet(false)),
    (0, Put(LEFT, b"f", &[], 5)),
    (0, Put(LEFT, b"g", &[], 6)),
    (
        0,
        Turns(&[
            "SendOut { serial: 0, n: 5, link: Central(0), moved: Sequence { items: [] } }",
            "SendOut { serial: 0, n: 6, link: Central(0), moved: Sequence { items: [] } }",
            "Rest(0)",
            "Idle",
        ]),
    ),
    (
        1,
        Turns(&[
            "Look(0)",
            "Hand { kind: Item(3), link: Central(0), unfit: false }",
            "Look(0)",
        ]),
    ),
    (0, Turns(&["Idle"])),
    (1, Quiet(false)),
    (
        1,
        Turns(&["Hand { kind: Item(4), link: Central(0), unfit: false }"]),
    ),
    (0, Turns(&["Post(1)", "Idle"])),
    (
        1,
        Turns(&[
            "Look(0)",
            "Hand { kind: Item(5), link: Central(0), unfit: false }",
            "Look(0)",
            "Hand { kind: Item(6), link: Central(0), unfit: false }",
            "Rest(0)",
            "Idle",
        ]),
    ),
    (1, Quiet(true)),
    (1, Get(RIGHT, b"a", &[], 0)),
    (1, Get(RIGHT, b"b", &[], 1)),
    (1, Get(RIGHT, b"c", &[], 2)),
    (1, Get(RIGHT, b"d", &[], 3)),
    (1, Get(RIGHT, b"e", &[], 4)),
    (1, Get(RIGHT, b"f", &[], 5)),
];

#[test]
fn what_comes_behind_a_batch_waits(rt: HostRuntime) -> Result<(), Fail> {
    let half = joined(rt.alloc(), &FIVE_WAIT, &HALF_TAKEN)?;
    let calls = joined(rt.alloc(), half.as_slice(), &MORE_WAITS)?;
    assert_eq!(rt; wrong_by_batches(rt.alloc(), calls.as_slice()), Ok(None));
    Ok(())
}

// How many parcels a portal gets, of those with the numbers from 0 on.
fn got_in_order<F: FabricName, R: Wait>(
    rt: &R,
    hub: &Hub<F>,
    portal: &Portal<F>,
    most: u64,
) -> u64 {
    for number in 0..most {
        match portal.get(rt, hub) {
            Ok(got) if got.n == number => {}
            _ => return number,
        }
    }
    most
}

// Whether cells have half taken a batch.
fn is_half_taken<F: FabricName>(
    fabric: &Fabric<F>,
    cells: &mut [NodeCell<F>],
    alloc: Global,
) -> bool {
    first_wrong(fabric, cells, alloc, &FIVE_WAIT) == Ok(None)
        && first_wrong(fabric, cells, alloc, &HALF_TAKEN) == Ok(None)
}

// How many parcels the second portal gets, once its node has acted.
fn got_of<F: FabricName, R: Wait>(
    rt: &R,
    hub: &Hub<F>,
    portals: Vec<Portal<F>>,
    most: u64,
) -> Option<u64> {
    let (_, there) = both(portals)?;
    hub.acts(rt, 1, 100).ok()?;
    Some(got_in_order(rt, hub, &there, most))
}

// How many of five parcels are got by a hub of cells one of which has a batch half taken.
fn got_by_hub<F: FabricName, R: Wait>(rt: &R, alloc: Global, blank: Blank) -> Option<u64>
    requires { blank ≡ F.table }
{
    let mut it = named::<F>(blank)?;
    let half = is_half_taken(&it.fabric, it.cells.as_mut_slice(), alloc);
    let (hub, portals) = Hub::new(it.fabric, it.cells).ok()?;
    if half {
        got_of(rt, &hub, portals, 5)
    } else {
        None
    }
}

#[test]
fn a_hub_goes_on_with_a_batch(rt: HostRuntime) -> Result<(), Fail> {
    let blank = start_lasting(rt.alloc(), 2, SLOTS, NUMBERS)?;
    assert!(rt; got_by_hub::<Brand, _>(&rt, rt.alloc(), blank) == Some(5));
    Ok(())
}

// The ends of the pair of nodes 1 and 2, which is the third: that of nodes 0 and 2 is before it.
const MIDDLE: End = End {
    pair: 2,
    side: Side::A,
};

const LAST: End = End {
    pair: 2,
    side: Side::B,
};

// Node 1 has handled one of two messages of a batch of node 2, and looks at what node 0 posts before it goes on with that batch.
static TWO_SENDERS: [(usize, Call); 18] = [
    (2, Put(LAST, b"a", &[], 0)),
    (2, Acts(100, 3)),
    (2, Put(LAST, b"b", &[], 1)),
    (2, Put(LAST, b"c", &[], 2)),
    (2, Acts(100, 3)),
    (1, Acts(100, 3)),
    (2, Turns(&["Post(1)", "Idle"])),
    (
        1,
        Turns(&[
            "Look(2)",
            "Hand { kind: Item(1), link: Central(2), unfit: false }",
        ]),
    ),
    (0, Put(LEFT, b"d", &[], 0)),
    (
        0,
        Turns(&[
            "SendOut { serial: 0, n: 0, link: Central(0), moved: Sequence { items: [] } }",
            "Post(1)",
            "Rest(0)",
            "Idle",
        ]),
    ),
    (
        1,
        Turns(&[
            "Look(0)",
            "Hand { kind: Item(0), link: Central(0), unfit: false }",
            "Look(2)",
            "Hand { kind: Item(2), link: Central(2), unfit: false }",
            "Rest(0)",
            "Rest(1)",
            "Idle",
        ]),
    ),
    (0, Turns(&["Idle"])),
    (2, Turns(&["Idle"])),
    (1, Quiet(true)),
    (1, Get(MIDDLE, b"a", &[], 0)),
    (1, Get(MIDDLE, b"b", &[], 1)),
    (1, Get(MIDDLE, b"c", &[], 2)),
    (1, Get(RIGHT, b"d", &[], 0)),
];

#[test]
fn a_lower_sender_comes_before_the_rest_of_a_batch(rt: HostRuntime) {
    assert_eq!(rt; wrong_of_three(rt.alloc(), &TWO_SENDERS), Ok(None));
}
