//! The portals that a transcript names.

use ipcz_lines::{End, Side, read};
use ipcz_messages::calls::Portals;
use std::alloc::Global;

// A transcript, the end of `x`, and that of `2>1`.
type Row = (&'static [u8], Option<End>, Option<End>);

const A1: Option<End> = Some(End {
    pair: 1,
    side: Side::A,
});

const A3: Option<End> = Some(End {
    pair: 3,
    side: Side::A,
});

const A4: Option<End> = Some(End {
    pair: 4,
    side: Side::A,
});

const B2: Option<End> = Some(End {
    pair: 2,
    side: Side::B,
});

static ROWS: [Row; 5] = [
    (b"open a b ok\nopen x y ok\nn0: r3 claim 5\n", A4, B2),
    (b"open a b NoWord\nwords 3 3 3\nopen x y ok\n", A3, B2),
    (b"n0: r3 claim 3\nopen x y ok\n", A4, B2),
    (b"open x y ok\nn0: r3 claim 2\n", A1, None),
    (b"open x y ok\nsettled\nn0: r3 claim 4\n", None, None),
];

// Whether the end of `2>1` is between its nodes, and that of `x` has its name.
fn are_known(portals: &Portals, x: Option<End>, first: Option<End>) -> bool {
    let is_between = match first {
        Some(end) => portals.nodes_of(end) == Some((2, 1)),
        None => true,
    };
    let is_named = match x {
        Some(end) => portals.name_of(end) == Some(b"x".as_slice()),
        None => true,
    };
    is_between && is_named
}

// Whether a transcript names these ends.
fn names(alloc: Global, row: &Row) -> bool {
    let (transcript, x, first) = *row;
    let Ok(lines) = read(alloc, transcript) else {
        return false;
    };
    let Ok(portals) = Portals::new(alloc, &lines) else {
        return false;
    };
    portals.end_of(b"x") == x
        && portals.end_of(b"2>1") == first
        && portals.end_of(b"z").is_none()
        && are_known(&portals, x, first)
}

// The first transcript that names others.
fn first_other(alloc: Global) -> Option<usize> {
    for (i, row) in ROWS.iter().enumerate() {
        if !names(alloc, row) {
            return Some(i);
        }
    }
    None
}

// A claim and a line of words tell how many words were taken, and so how many first pairs there are.
#[test]
fn portals_are_the_ends_of_their_pairs(rt: HostRuntime) {
    assert_eq!(rt; first_other(rt.alloc()), None);
}
