//! Link words that are used up: what an open and a proxy are answered once each word is claimed.

use super::Call::{Claimed, Get, OpenAll, OpenRefused, Put, Turns};
use super::{A0, B0, Call, all_go};
use ipcz_base::{End, Refusal, Side};

const A4095: End = End {
    pair: 4095,
    side: Side::A,
};

const B4095: End = End {
    pair: 4095,
    side: Side::B,
};

// Each word is that of a pair. The terminal of the last pair's side B, router 8190 of node 0, moves to node 1: the proxy that it leaves finds
// no word, and rests as a proxy. What is put at side A still comes, by the proxy.
static CALLS: [(usize, Call); 16] = [
    (0, OpenAll(1, 4095)),
    (0, OpenRefused(Refusal::NoWord)),
    (1, OpenRefused(Refusal::NoWord)),
    (0, Claimed(4096)),
    (0, Put(A0, b"m", &[B4095], 0)),
    (
        0,
        Turns(&[
            "SendOut { serial: 0, n: 0, link: Central(0), moved: Sequence { items: [End { pair: 4095, side: B }] } }",
            "Post(1)",
            "Rest(0)",
            "ClaimNoWord(8190)",
            "Rest(8190)",
            "Idle",
        ]),
    ),
    (0, Claimed(4096)),
    (
        1,
        Turns(&[
            "Look(0)",
            "Hand { kind: Item(0), link: Central(0), unfit: false }",
            "Rest(0)",
            "Idle",
        ]),
    ),
    (1, Get(B0, b"m", &[B4095], 0)),
    (0, Put(A4095, b"p", &[], 0)),
    (
        0,
        Turns(&[
            "SendOut { serial: 8189, n: 0, link: Central(4095), moved: Sequence { items: [] } }",
            "Post(0)",
            "Look(0)",
            "Hand { kind: Item(0), link: Central(4095), unfit: false }",
            "Rest(8189)",
            "SendIn { serial: 8190, n: 0, link: Peripheral { node: 0, serial: 0 }, moved: Sequence { items: [] } }",
            "Post(1)",
            "Rest(8190)",
            "Idle",
        ]),
    ),
    (
        1,
        Turns(&[
            "Look(0)",
            "Hand { kind: Item(0), link: Peripheral { node: 0, serial: 0 }, unfit: false }",
            "Rest(1)",
            "Idle",
        ]),
    ),
    (1, Get(B4095, b"p", &[], 0)),
    (1, OpenRefused(Refusal::NoWord)),
    (0, OpenRefused(Refusal::NoWord)),
    (0, Claimed(4096)),
];

#[test]
fn an_open_and_a_proxy_find_each_word_claimed(rt: HostRuntime) {
    all_go(&rt, rt.alloc(), 4096, &CALLS);
}
