//! Which messages are told as closes and as Gone.

use crate::told::{BOTH_CLOSED, Told, told_by};
use ipcz_messages::calls::Portals;
use ipcz_messages::closes::{Nature, closes, nature_of};
use ipcz_messages::ends::ends;
use ipcz_messages::moves::Moves;
use std::alloc::Global;

// A portal whose end moves, so that its proxy passes on what comes: the close of its peer inward, and Gone behind that; and its own close, which
// the router on the other node sends out to the proxy.
const PASSED_ON: &[u8] = b"open x y ok
put 0>1 0
n0: r0 send out 0 C0 moves 1B
n0: post 1
n1: look 0
n1: hand item 0 C0
get 1>0 0 [y] \"m\"
close x 0
close y 0
n0: r1 send out 0 C1
n0: post 0
n0: look 0
n0: hand item 0 C1
n0: r2 send in 0 P0.0
n0: post 1
n1: look 0
n1: hand item 0 P0.0
n0: r1 lock C1 19
n0: r1 retire 1 C1
n0: post 0
n0: look 0
n0: hand item 1 C1
n0: r2 send in 1 P0.0
n0: post 1
n1: look 0
n1: hand item 1 P0.0
n1: r1 send out 0 P0.0
n1: post 0
n0: look 1
n0: hand item 0 P0.0
n0: r1 mark C1 1
words 3 1
";

// A close that a node makes is told by the retire behind it alone.
const UNNAMED: &[u8] = b"n0: close 0A
n0: r0 send out 2 C0
n0: post 1
n1: look 0
n1: hand item 2 C0
n0: r0 retire 3 C0
n0: post 1
n1: look 0
n1: hand item 3 C0
words 3
";

static PASSED_ON_NATURES: [Nature; 6] = [
    Nature::Other,
    Nature::Close { line: 7 },
    Nature::Close { line: 7 },
    Nature::Gone,
    Nature::Gone,
    Nature::Close { line: 8 },
];

static UNNAMED_NATURES: [Nature; 2] = [Nature::Close { line: 5 }, Nature::Gone];

static BOTH_CLOSED_NATURES: [Nature; 3] = [
    Nature::Close { line: 1 },
    Nature::Close { line: 2 },
    Nature::Gone,
];

// The first message of these that is told as another, or how many messages there are.
fn first_other_in(alloc: Global, told: &Told, natures: &[Nature]) -> Option<usize> {
    let moves = Moves::new(alloc, &told.lines).ok()?;
    let portals = Portals::new(alloc, &told.lines).ok()?;
    let ends = ends(alloc, &told.lines, &told.messages, &told.routers, &moves).ok()?;
    let closed = closes(alloc, &told.lines, &told.routers, &ends, &portals).ok()?;
    for (index, message) in told.messages.iter().enumerate() {
        if natures.get(index) != Some(&nature_of(&closed, &ends, &told.lines, message)) {
            return Some(index);
        }
    }
    Some(told.messages.len())
}

// The first message of a transcript that is told as another, or how many messages it has.
fn first_other(alloc: Global, transcript: &[u8], natures: &[Nature]) -> Option<usize> {
    let told = told_by(alloc, transcript)?;
    first_other_in(alloc, &told, natures)
}

#[test]
fn a_proxy_passes_closes_and_gone_on(rt: HostRuntime) {
    assert_eq!(rt;
        first_other(rt.alloc(), PASSED_ON, &PASSED_ON_NATURES),
        Some(6)
    );
}

#[test]
fn the_close_of_a_node_is_told_by_its_retire(rt: HostRuntime) {
    assert_eq!(rt; first_other(rt.alloc(), UNNAMED, &UNNAMED_NATURES), Some(2));
}

#[test]
fn a_close_is_told_on_its_direct_way(rt: HostRuntime) {
    assert_eq!(rt;
        first_other(rt.alloc(), BOTH_CLOSED, &BOTH_CLOSED_NATURES),
        Some(3)
    );
}
