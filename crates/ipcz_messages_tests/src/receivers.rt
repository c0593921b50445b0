//! The routers that messages are for.

use crate::told::{name_of, told_by};
use std::alloc::Global;

// Transcripts, and the router that the first message is known to be for: a flush whose link no router names.
static RECEIVERS: [(&[u8], Option<(u8, u64)>); 11] = [
    (
        b"n1: look 0\nn1: hand Flush C2\nn1: r4 rest\n",
        Some((1, 4)),
    ),
    (
        b"unsettled\nn1: idle\nn1: look 0\nn1: hand Flush C2\nn0: r1 rest\nn1: r4 rest\n",
        Some((1, 4)),
    ),
    (
        b"put 0>1 0\nn1: look 0\nn1: hand Flush C2\nn1: r4 rest\n",
        Some((1, 4)),
    ),
    (
        b"put 1>0 0\nn1: look 0\nn1: hand Flush C2\nn1: r4 rest\n",
        None,
    ),
    (
        b"get x 0 [0>1] \"\"\nput 0>1 0\nn1: look 0\nn1: hand Flush C2\nn1: r4 rest\n",
        None,
    ),
    (
        b"n1: look 0\nn1: hand Flush C2\nput x 0\nn1: r4 rest\n",
        None,
    ),
    (
        b"n1: look 0\nn1: hand Flush C2\nn1: close 3A\nn1: r4 rest\n",
        None,
    ),
    (
        b"n1: look 0\nn1: hand Flush C2\nn1: look 0\nn1: hand Flush C3\nn1: r4 rest\n",
        None,
    ),
    (
        b"n1: look 0\nn1: hand Flush C2\nsettled\nn1: r4 rest\n",
        None,
    ),
    (
        b"unsettled\nn1: look 0\nn1: hand Flush C2\nn1: r4 rest\n",
        None,
    ),
    (
        b"n1: look 0\nn1: hand Flush C2 dropped\nn1: r4 rest\n",
        None,
    ),
];

// The router that the first message is known to be for.
fn first_receiver(alloc: Global, transcript: &[u8]) -> Option<(u8, u64)> {
    let told = told_by(alloc, transcript)?;
    name_of(&told.routers, told.messages.first()?.receiver)
}

// The first row whose message is known to be for another router.
fn first_other_receiver(alloc: Global) -> Option<usize> {
    for (i, row) in RECEIVERS.iter().enumerate() {
        let (transcript, want) = *row;
        if first_receiver(alloc, transcript) != want {
            return Some(i);
        }
    }
    None
}

// Its receiver is the only flagged router, or else isn't known.
#[test]
fn the_only_flagged_router_is_the_receiver(rt: HostRuntime) {
    assert_eq!(rt; first_other_receiver(rt.alloc()), None);
}

// Transcripts, and the router that the last message is known to be for: it comes over the link of a move, which no line of that router
// names. The number of nodes is known or not, and at which node each pair was opened.
static NEWBORNS: [(&[u8], Option<(u8, u64)>); 5] = [
    (
        b"words 3
open x y ok
n0: r0 send out 0 C0 moves 1B
n0: post 1
n1: look 0
n1: hand item 0 C0
n0: r2 send in 0 P0.0
n0: post 1
n1: look 0
n1: hand item 0 P0.0
n1: r0 rest
n1: r1 rest
",
        Some((1, 1)),
    ),
    (
        b"words 3
open x y ok
n1: r0 send out 0 C0 moves 1B
n1: post 0
n0: look 1
n0: hand item 0 C0
n1: r2 send in 0 P1.0
n1: post 0
n0: look 1
n0: hand item 0 P1.0
n0: r0 rest
n0: r1 rest
",
        Some((0, 1)),
    ),
    (
        b"words 3
open x y ok
n0: r0 send out 0 C0 moves 1A,1B
n0: post 1
n1: look 0
n1: hand item 0 C0
n0: r2 send in 0 P0.1
n0: post 1
n1: look 0
n1: hand item 0 P0.1
n1: r0 rest
n1: r2 rest
",
        Some((1, 2)),
    ),
    (
        b"words 3
open x y ok
open u v ok
n0: r0 send out 0 C0 moves 1B
n0: post 1
n1: look 0
n1: hand item 0 C0
n0: r2 send in 0 P0.0
n0: post 1
n1: look 0
n1: hand item 0 P0.0
n1: r0 rest
n1: r1 rest
",
        None,
    ),
    (
        b"open x y ok
n0: r0 send out 0 C0 moves 1B
n0: post 1
n1: look 0
n1: hand item 0 C0
n0: r2 send in 0 P0.0
n0: post 1
n1: look 0
n1: hand item 0 P0.0
n1: r0 rest
n1: r1 rest
",
        None,
    ),
];

// The router that the last message is known to be for.
fn last_receiver(alloc: Global, transcript: &[u8]) -> Option<(u8, u64)> {
    let told = told_by(alloc, transcript)?;
    name_of(&told.routers, told.messages.get(1)?.receiver)
}

// The first row whose last message is known to be for another router.
fn first_other_newborn(alloc: Global) -> Option<usize> {
    for (i, row) in NEWBORNS.iter().enumerate() {
        let (transcript, want) = *row;
        if last_receiver(alloc, transcript) != want {
            return Some(i);
        }
    }
    None
}

// It is known by its serial.
#[test]
fn a_router_that_a_move_made_is_known_by_its_serial(rt: HostRuntime) {
    assert_eq!(rt; first_other_newborn(rt.alloc()), None);
}
