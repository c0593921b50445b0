//! Events of turns that no script shows, and how they print.

use crate::cases::gives;
use ipcz_base::{End, LinkId, Sequence, Side};
use ipcz_node::{Handed, Happened};
use ipcz_script::push_event;
use std::alloc::Global;
use std::test::Fail;

const OLD: LinkId = LinkId::Central(3);

const INNER: LinkId = LinkId::Peripheral { node: 1, serial: 2 };

fn unfit(kind: Handed, link: LinkId) -> Happened {
    Happened::Hand {
        kind,
        link,
        unfit: true,
    }
}

// Whether an event prints so.
fn prints(alloc: Global, event: &Happened, text: &str) -> bool {
    let mut out = Vec::new(alloc);
    push_event(&mut out, event).is_ok() && out.as_slice() == text.as_bytes()
}

// The first event that doesn't print so.
fn first_wrong(alloc: Global, rows: &[(Happened, &str)]) -> Option<usize> {
    for (i, (event, text)) in rows.iter().enumerate() {
        if !prints(alloc, event, *text) {
            return Some(i);
        }
    }
    None
}

// Trusted nodes make no strays, and an unlock wants a begin or a retire that finds no memory: a script can show only the dropped Flush.
#[test]
fn prints_what_no_script_shows(rt: HostRuntime) {
    let rows = [
        (unfit(Handed::Item(7), INNER), "hand item 7 P1.2 stray"),
        (
            unfit(Handed::BypassPeer, INNER),
            "hand BypassPeer P1.2 stray",
        ),
        (
            unfit(Handed::AcceptBypass, OLD),
            "hand AcceptBypass C3 stray",
        ),
        (
            unfit(Handed::StopProxying, OLD),
            "hand StopProxying C3 stray",
        ),
        (
            unfit(Handed::ProxyWillStop, INNER),
            "hand ProxyWillStop P1.2 stray",
        ),
        (unfit(Handed::Flush, OLD), "hand Flush C3 dropped"),
        (Happened::Unlock(4, OLD, 3), "r4 unlock C3 3"),
    ];
    gives(&rt, first_wrong(rt.alloc(), &rows), None);
}

// With the greatest number that Gone can have.
#[test]
fn prints_how_a_pair_leaves(rt: HostRuntime) {
    let rows = [
        (
            Happened::Retire(7, 18446744073709551614, OLD),
            "r7 retire 18446744073709551614 C3",
        ),
        (
            Happened::DiscardLeave(18446744073709551614, 2),
            "r18446744073709551614 discard 2 leave",
        ),
        (Happened::Discard(8, 2), "r8 discard 2"),
        (Happened::Leave(8), "r8 leave"),
    ];
    gives(&rt, first_wrong(rt.alloc(), &rows), None);
}

#[test]
fn prints_the_ends_that_moved(rt: HostRuntime) -> Result<(), Fail> {
    let end = End {
        pair: 4095,
        side: Side::A,
    };
    let sent = Happened::SendIn {
        serial: 1,
        n: 18446744073709551614,
        link: INNER,
        moved: Sequence::from_vec(vec![in rt.alloc(); end, end.opposite()]?),
    };
    let text = "r1 send in 18446744073709551614 P1.2 moves 4095A,4095B";
    assert!(rt; prints(rt.alloc(), &sent, text));
    Ok(())
}
