//! Where routers begin, the ends that they serve, and the calls at them.

use crate::told::{ONE_BYPASS, TWO_PROXIES, Told, name_of, told_by};
use ipcz_lines::{End, Side};
use ipcz_messages::calls::{Call, Portals, calls};
use ipcz_messages::ends::ends;
use ipcz_messages::messages::note_births;
use ipcz_messages::moves::{Moves, lines_in_sight};
use ipcz_messages::origins::note_origins;
use ipcz_messages::routers::find;
use std::alloc::{AllocError, Global};

// Notes in the routers where they begin.
fn notes(alloc: Global, told: &mut Told) -> Result<(), AllocError> {
    let moves = Moves::new(alloc, &told.lines)?;
    note_births(
        alloc,
        &told.lines,
        &told.messages,
        &moves,
        &mut told.routers,
    )
}

// Whether a router begins at this line, and is a proxy from this line on.
fn begins(told: &Told, node: u8, serial: u64, first: usize, proxy: Option<usize>) -> bool {
    let Some(index) = find(&told.routers, node, serial) else {
        return false;
    };
    match told.routers.get(index) {
        Some(router) => router.first == first && router.proxy == proxy,
        None => false,
    }
}

// Whether the proxy of this serial begins at the send of this line, and the router that the move makes at that one.
fn begin_at(alloc: Global, transcript: &[u8], serial: u64, sent: usize, newborn: usize) -> bool {
    let Some(mut told) = told_by(alloc, transcript) else {
        return false;
    };
    notes(alloc, &mut told).is_ok()
        && begins(&told, 0, serial, sent, Some(sent))
        && begins(&told, 1, 1, newborn, None)
}

// A proxy begins at the send that moved its portal, a router that a move makes at the hand of the item.
#[test]
fn routers_begin_where_their_ends_moved(rt: HostRuntime) {
    assert!(rt; begin_at(rt.alloc(), ONE_BYPASS, 2, 2, 12));
    assert!(rt; begin_at(rt.alloc(), TWO_PROXIES, 1, 2, 14));
}

// The routers with their beginnings, where their ends began.
fn with_origins(alloc: Global, told: &mut Told) -> Result<(), AllocError> {
    notes(alloc, told)?;
    let moves = Moves::new(alloc, &told.lines)?;
    let portals = Portals::new(alloc, &told.lines)?;
    let ends = ends(alloc, &told.lines, &told.messages, &told.routers, &moves)?;
    let seen = lines_in_sight(&told.lines);
    note_origins(&mut told.routers, &moves, &ends, &portals, seen);
    Ok(())
}

// A router by its node and its serial, and its first line.
type Begun = (u8, u64, usize);

static BEGUN: [(&[u8], [Begun; 3]); 5] = [
    (TWO_PROXIES, [(0, 0, 0), (0, 1, 0), (0, 2, 0)]),
    (ONE_BYPASS, [(0, 0, 0), (0, 1, 0), (0, 2, 0)]),
    (ONE_BYPASS, [(1, 0, 0), (1, 1, 12), (0, 0, 0)]),
    // An open of the second line, whose side A marks and whose side B locks.
    (
        b"words 3\nopen x y ok\nn0: idle\nn0: r0 rest\nn0: r1 mark C1 3\nn0: r2 lock C1 35\n",
        [(0, 0, 0), (0, 1, 1), (0, 2, 1)],
    ),
    // Behind a settle nothing is known of what moved.
    (
        b"words 3\nopen x y ok\nsettled\nn0: r0 rest\nn0: r1 mark C1 3\nn0: r2 lock C1 35\n",
        [(0, 0, 3), (0, 1, 4), (0, 2, 5)],
    ),
];

// Whether the routers of a transcript begin at these lines.
fn all_begin(alloc: Global, transcript: &[u8], begun: &[Begun]) -> bool {
    let Some(mut told) = told_by(alloc, transcript) else {
        return false;
    };
    let Ok(()) = with_origins(alloc, &mut told) else {
        return false;
    };
    for (node, serial, first) in begun {
        match find(&told.routers, *node, *serial).and_then(|i| told.routers.get(i)) {
            Some(router) if router.first == *first => (),
            _ => return false,
        }
    }
    true
}

// The first transcript whose routers begin at other lines.
fn first_begun_elsewhere(alloc: Global) -> Option<usize> {
    for (i, row) in BEGUN.iter().enumerate() {
        let (transcript, begun) = row;
        if !all_begin(alloc, transcript, begun) {
            return Some(i);
        }
    }
    None
}

// A router of a first pair begins at the first line, one of an opened pair at its open, and one that a move makes at its hand.
#[test]
fn routers_begin_where_their_ends_began(rt: HostRuntime) {
    assert_eq!(rt; first_begun_elsewhere(rt.alloc()), None);
}

// A router by its node and its serial, and the end that it serves, if that is told.
type Served = (u8, u64, Option<End>);

const A0: Option<End> = Some(End {
    pair: 0,
    side: Side::A,
});

const B0: Option<End> = Some(End {
    pair: 0,
    side: Side::B,
});

const A1: Option<End> = Some(End {
    pair: 1,
    side: Side::A,
});

const B1: Option<End> = Some(End {
    pair: 1,
    side: Side::B,
});

const B2: Option<End> = Some(End {
    pair: 2,
    side: Side::B,
});

const A5: Option<End> = Some(End {
    pair: 5,
    side: Side::A,
});

const B5: Option<End> = Some(End {
    pair: 5,
    side: Side::B,
});

const B3: Option<End> = Some(End {
    pair: 3,
    side: Side::B,
});

static SERVED: [(&[u8], [Served; 5]); 4] = [
    // The six words of four nodes' first pairs, and routers that name no link.
    (
        b"words 3 3 3 3 3 3\nn1: r0 rest\nn2: r0 rest\nn2: r1 rest\nn2: r2 rest\nn2: r3 rest\n",
        [(1, 0, B0), (2, 0, B1), (2, 1, B3), (2, 2, A5), (2, 3, None)],
    ),
    (
        ONE_BYPASS,
        [(0, 0, A0), (0, 1, A1), (0, 2, B1), (1, 0, B0), (1, 1, B1)],
    ),
    (
        TWO_PROXIES,
        [(0, 0, A0), (0, 1, A1), (0, 2, B1), (1, 0, B0), (1, 1, A1)],
    ),
    (
        b"n0: r3 lock C2 35\nn0: r4 wait C5 7\nn0: r5 wait C5 15\nn1: r0 mark C1 1\nsettled\nn1: r1 wait C1 7\n",
        [
            (0, 3, B2),
            (0, 4, A5),
            (0, 5, B5),
            (1, 0, None),
            (1, 1, None),
        ],
    ),
];

// The ends that the routers serve.
fn ends_told(alloc: Global, told: &Told) -> Result<Vec<Option<End>>, AllocError> {
    let moves = Moves::new(alloc, &told.lines)?;
    ends(alloc, &told.lines, &told.messages, &told.routers, &moves)
}

// Whether a router serves an end, or none is told.
fn serves(told: &Told, ends: &[Option<End>], served: Served) -> bool {
    let (node, serial, end) = served;
    match find(&told.routers, node, serial) {
        Some(router) => ends.get(router).copied() == Some(end),
        None => false,
    }
}

// Whether the routers of a transcript serve these ends.
fn all_serve(alloc: Global, transcript: &[u8], served: &[Served]) -> bool {
    let Some(told) = told_by(alloc, transcript) else {
        return false;
    };
    let Ok(ends) = ends_told(alloc, &told) else {
        return false;
    };
    for one in served {
        if !serves(&told, &ends, *one) {
            return false;
        }
    }
    true
}

// The first transcript whose routers serve others.
fn first_other_ends(alloc: Global) -> Option<usize> {
    for (i, row) in SERVED.iter().enumerate() {
        let (transcript, served) = row;
        if !all_serve(alloc, *transcript, served) {
            return Some(i);
        }
    }
    None
}

// The first pair's routers are known by their message, a proxy and the router that a move makes by the link of the move, and the
// router on the other side of a proxy's first link by that.
#[test]
fn routers_serve_the_ends_that_the_lines_tell(rt: HostRuntime) {
    assert_eq!(rt; first_other_ends(rt.alloc()), None);
}

// The calls that a transcript tells.
fn calls_told(alloc: Global, told: &Told) -> Result<Vec<Call>, AllocError> {
    let moves = Moves::new(alloc, &told.lines)?;
    let ends = ends(alloc, &told.lines, &told.messages, &told.routers, &moves)?;
    let portals = Portals::new(alloc, &told.lines)?;
    calls(alloc, &told.lines, &told.routers, &moves, &ends, &portals)
}

// Whether a call of this line is at this router.
fn is_at(told: &Told, call: &Call, line: usize, router: (u8, u64)) -> bool {
    call.line == line && name_of(&told.routers, Some(call.router)) == Some(router)
}

// Whether three calls are at the routers of their portals.
fn are_at_their_routers(told: &Told, calls: &[Call]) -> bool {
    let [put, get, late] = calls else {
        return false;
    };
    is_at(told, put, 1, (0, 0)) && is_at(told, get, 43, (1, 0)) && is_at(told, late, 44, (1, 1))
}

#[test]
fn calls_are_at_the_routers_of_their_portals(rt: HostRuntime) {
    let told = told_by(rt.alloc(), ONE_BYPASS).expect(&rt, "the transcript");
    let Ok(calls) = calls_told(rt.alloc(), &told) else {
        assert!(rt; false, "no memory");
        return;
    };
    assert!(rt; are_at_their_routers(&told, &calls));
}
