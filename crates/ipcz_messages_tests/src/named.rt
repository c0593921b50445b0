//! The portals that a transcript names.

use ipcz_lines::read;
use ipcz_messages::named::{NamedPortal, named_portals};
use std::alloc::Global;

const TRANSCRIPT: &[u8] = b"open left right ok
put left 0
put 0>1 0
settled
get 1>0 0 [right] \"carry\"
get right 0 [] \"hello\"
get nobody UnknownName
open left other NoWord
close left 1
words 3 547 3
";

// Two portals of node 0, and one that only its close names.
const PORTALS_OF_A_NODE: &[u8] = b"put 0>2 0
put 0>1 0
close 0>2 1
close 1>2 0
get 0>1 0 [] \"hello\"
words 3 3 3
";

// A name, the node that it tells, its place in the band, its first line, and the line that closes it.
type Row = (&'static [u8], Option<u8>, usize, usize, Option<usize>);

static ROWS: [Row; 4] = [
    (b"left", None, 0, 0, Some(8)),
    (b"right", None, 1, 0, None),
    (b"0>1", Some(0), 0, 0, None),
    (b"1>0", Some(1), 0, 0, None),
];

static ROWS_OF_A_NODE: [Row; 3] = [
    (b"0>2", Some(0), 0, 0, Some(2)),
    (b"0>1", Some(0), 1, 0, None),
    (b"1>2", Some(1), 0, 0, Some(3)),
];

// Whether a portal is that of a row.
fn is_of_row(named: &[NamedPortal], rows: &[Row], row: usize) -> bool {
    match (named.get(row), rows.get(row)) {
        (Some(it), Some(row)) => {
            it.name == row.0
                && it.node == row.1
                && it.place == row.2
                && it.first == row.3
                && it.closed == row.4
        }
        _ => false,
    }
}

// The first row that no portal is of, or how many portals there are.
fn first_other(alloc: Global, transcript: &[u8], rows: &[Row]) -> Option<usize> {
    let lines = read(alloc, transcript).ok()?;
    let named = named_portals(alloc, &lines).ok()?;
    for row in 0..rows.len() {
        if !is_of_row(&named, rows, row) {
            return Some(row);
        }
    }
    Some(named.len())
}

// Runs, and how many portals are named of each: of one that settles first, of one with no more turns than settles, and of two that are neither.
static COUNTS: [(&[u8], usize); 4] = [
    (b"open left right ok\nsettled\nn0: idle\nn0: idle\n", 2),
    (b"open left right ok\nn0: idle\nunsettled\n", 2),
    (b"open left right ok\nn0: idle\nsettled\nn0: idle\n", 0),
    (b"open left right ok\nput left 0\nn0: idle\n", 0),
];

// How many portals are named of a run.
fn count_of(alloc: Global, transcript: &[u8]) -> Option<usize> {
    let lines = read(alloc, transcript).ok()?;
    let named = named_portals(alloc, &lines).ok()?;
    Some(named.len())
}

// The first run of which another number of portals is named.
fn first_other_count(alloc: Global) -> Option<usize> {
    for (i, (transcript, count)) in COUNTS.iter().enumerate() {
        if count_of(alloc, *transcript) != Some(*count) {
            return Some(i);
        }
    }
    None
}

#[test]
fn portals_of_a_run_without_turns_are_named(rt: HostRuntime) {
    assert!(rt; first_other(rt.alloc(), TRANSCRIPT, &ROWS) == Some(4));
}

#[test]
fn portals_of_a_node_have_a_place_each(rt: HostRuntime) {
    assert!(rt; first_other(rt.alloc(), PORTALS_OF_A_NODE, &ROWS_OF_A_NODE) == Some(3));
}

#[test]
fn portals_are_named_unless_a_run_tells_of_routers(rt: HostRuntime) {
    assert_eq!(rt; first_other_count(rt.alloc()), None);
}
