//! The messages of a run with one bypass, of one with two proxies and of one that closes both ends, and of transcripts that no run makes.

use crate::told::{BOTH_CLOSED, ONE_BYPASS, TWO_PROXIES, Told, name_of, told_by};
use ipcz_lines::{Kind, Link, read};
use ipcz_messages::messages::{Message, messages};
use ipcz_messages::routers::Router;
use std::alloc::Global;

// The lines at which a message was made, posted, looked at and handled.
type Lines = [Option<usize>; 4];

fn lines_of(message: &Message) -> Lines {
    [
        message.made,
        message.posted,
        message.looked,
        message.handled,
    ]
}

// What a message is to be: its nodes, kind and link, the lines at which it was made, posted, looked at and handled, its maker and
// its receiver.
type Row = (u8, u8, Kind, Link, [usize; 4], (u8, u64), (u8, u64));

// Whether a message goes between these nodes, in sight all the way.
fn goes(message: &Message, from: u8, to: u8, seen: [usize; 4]) -> bool {
    let [made, posted, looked, handled] = seen;
    message.from == Some(from)
        && message.to == to
        && lines_of(message) == [Some(made), Some(posted), Some(looked), Some(handled)]
        && message.lost.is_none()
        && message.gained.is_none()
}

fn is_row(routers: &[Router], message: &Message, row: &Row) -> bool {
    let (from, to, kind, link, seen, maker, receiver) = *row;
    goes(message, from, to, seen)
        && message.kind == Some(kind)
        && message.link == Some(link)
        && name_of(routers, message.maker) == Some(maker)
        && name_of(routers, message.receiver) == Some(receiver)
}

// How many of the first messages are as these rows say, up to the first that isn't.
fn rows_told(told: &Told, rows: &[Row]) -> usize {
    for (i, row) in rows.iter().enumerate() {
        let Some(message) = told.messages.get(i) else {
            return i;
        };
        if !is_row(&told.routers, message, row) {
            return i;
        }
    }
    rows.len()
}

const OLD: Link = Link::Central(1);

const INNER: Link = Link::Peripheral { node: 0, serial: 0 };

static ONE_ROWS: [Row; 5] = [
    (
        0,
        1,
        Kind::Item(0),
        Link::Central(0),
        [2, 3, 11, 12],
        (0, 0),
        (1, 0),
    ),
    (
        0,
        1,
        Kind::BypassPeer,
        INNER,
        [7, 15, 17, 18],
        (0, 2),
        (1, 1),
    ),
    (
        1,
        0,
        Kind::AcceptBypass,
        OLD,
        [18, 19, 22, 23],
        (1, 1),
        (0, 1),
    ),
    (
        0,
        0,
        Kind::StopProxying,
        OLD,
        [23, 24, 25, 26],
        (0, 1),
        (0, 2),
    ),
    (
        0,
        1,
        Kind::ProxyWillStop,
        INNER,
        [26, 27, 36, 37],
        (0, 2),
        (1, 1),
    ),
];

// Whether the item of the first message moved these ends.
fn first_moves(messages: &[Message], moves: &[u8]) -> bool {
    match messages {
        [first, ..] => first.moves == moves,
        [] => false,
    }
}

#[test]
fn one_bypass_is_five_messages(rt: HostRuntime) {
    let told = told_by(rt.alloc(), ONE_BYPASS).expect(&rt, "the transcript");
    assert_eq!(rt; told.messages.len(), ONE_ROWS.len());
    assert_eq!(rt; rows_told(&told, &ONE_ROWS), ONE_ROWS.len());
    assert!(rt; first_moves(&told.messages, b"1B"));
}

static CLOSED_ROWS: [Row; 3] = [
    (
        0,
        0,
        Kind::Item(0),
        Link::Central(0),
        [3, 4, 5, 6],
        (0, 0),
        (0, 1),
    ),
    (
        0,
        0,
        Kind::Item(0),
        Link::Central(0),
        [8, 9, 10, 11],
        (0, 1),
        (0, 0),
    ),
    (
        0,
        0,
        Kind::Item(1),
        Link::Central(0),
        [14, 15, 16, 17],
        (0, 0),
        (0, 1),
    ),
];

// The line at which a router left, by its serial.
fn left_at(routers: &[Router], serial: u64) -> Option<usize> {
    for router in routers {
        if router.serial == serial {
            return router.left;
        }
    }
    None
}

// A retire makes a message and is the last of its router, as is the discard of that message.
#[test]
fn both_closed_are_three_messages(rt: HostRuntime) {
    let told = told_by(rt.alloc(), BOTH_CLOSED).expect(&rt, "the transcript");
    assert_eq!(rt; told.messages.len(), CLOSED_ROWS.len());
    assert_eq!(rt; rows_told(&told, &CLOSED_ROWS), CLOSED_ROWS.len());
    assert!(rt; left_at(&told.routers, 0) == Some(14));
    assert!(rt; left_at(&told.routers, 1) == Some(19));
}

static TWO_ROWS: [Row; 6] = [
    (
        0,
        1,
        Kind::Item(0),
        Link::Central(0),
        [2, 3, 13, 14],
        (0, 0),
        (1, 0),
    ),
    (
        0,
        1,
        Kind::BypassPeer,
        INNER,
        [7, 17, 19, 20],
        (0, 1),
        (1, 1),
    ),
    (
        1,
        0,
        Kind::AcceptBypass,
        OLD,
        [20, 21, 24, 25],
        (1, 1),
        (0, 2),
    ),
    (
        0,
        0,
        Kind::StopProxying,
        OLD,
        [25, 26, 27, 28],
        (0, 2),
        (0, 1),
    ),
    (
        0,
        1,
        Kind::ProxyWillStop,
        INNER,
        [28, 29, 38, 39],
        (0, 1),
        (1, 1),
    ),
    (
        1,
        0,
        Kind::Flush,
        Link::Central(2),
        [42, 43, 46, 47],
        (1, 1),
        (0, 2),
    ),
];

// Whether the last of seven messages is a BypassPeer that got out of sight in the settle, of no known link.
fn is_lost_in_the_settle(told: &Told) -> bool {
    let Some(last) = told.messages.get(6) else {
        return false;
    };
    lines_of(last) == [Some(49), Some(50), None, None]
        && name_of(&told.routers, last.maker) == Some((0, 2))
        && last.kind == Some(Kind::BypassPeer)
        && last.link.is_none()
        && last.lost == Some(53)
}

#[test]
fn a_waiting_side_is_woken_by_a_flush(rt: HostRuntime) {
    let told = told_by(rt.alloc(), TWO_PROXIES).expect(&rt, "the transcript");
    assert_eq!(rt; told.messages.len(), 7);
    assert_eq!(rt; rows_told(&told, &TWO_ROWS), TWO_ROWS.len());
    assert!(rt; is_lost_in_the_settle(&told));
}

// What is known of a message: the line that made it, its maker, kind and link, and the ends that moved with it.
type Origin = (
    Option<usize>,
    Option<(u8, u64)>,
    Option<Kind>,
    Option<Link>,
    &'static [u8],
);

const ITEM: Origin = (
    Some(0),
    Some((0, 0)),
    Some(Kind::Item(7)),
    Some(Link::Central(0)),
    b"1A,1B",
);

const FLUSH: Origin = (
    Some(2),
    Some((0, 3)),
    Some(Kind::Flush),
    Some(Link::Central(2)),
    b"",
);

const UNKNOWN: Origin = (None, None, None, None, b"");

// Transcripts, and what is known of the message of an index.
static ORIGINS: [(&[u8], usize, Origin); 9] = [
    (b"n0: r0 send out 7 C0 moves 1A,1B\nn0: post 1\n", 0, ITEM),
    (
        b"n0: r0 send out 7 C0 moves 1A,1B\nn0: post 1\nn1: look 0\nsettled\n",
        0,
        ITEM,
    ),
    (
        b"n0: r0 send out 7 C0 moves 1A,1B\nn0: post 1\nn0: r3 wake C2 3\nn1: look 0\nn0: post 1\n",
        1,
        FLUSH,
    ),
    (
        b"n0: r0 send out 7 C0\nn0: post 1\nn0: r3 wake C2 3\nn1: look 0\nn0: post 1\nn1: hand item 7 C0\n",
        1,
        FLUSH,
    ),
    (
        b"n0: r0 send out 7 C0\nn0: r0 send out 8 C0\nn0: post 1\n",
        0,
        UNKNOWN,
    ),
    (b"n1: r0 send out 7 C0\nn0: post 1\n", 0, UNKNOWN),
    (b"n0: post 1\nn0: r0 send out 7 C0\n", 0, UNKNOWN),
    (b"unsettled\nn0: r0 send out 7 C0\nn0: post 1\n", 0, UNKNOWN),
    (b"n0: r0 send out 7 C0\nsettled\nn0: post 1\n", 0, UNKNOWN),
];

// Whether this is known of the message of an index.
fn is_known(alloc: Global, transcript: &[u8], index: usize, want: Origin) -> bool {
    let Some(told) = told_by(alloc, transcript) else {
        return false;
    };
    let Some(message) = told.messages.get(index) else {
        return false;
    };
    let (made, maker, kind, link, moves) = want;
    message.made == made
        && name_of(&told.routers, message.maker) == maker
        && message.kind == kind
        && message.link == link
        && message.moves == moves
}

// The first row whose message is known otherwise.
fn first_other_origin(alloc: Global) -> Option<usize> {
    for (i, row) in ORIGINS.iter().enumerate() {
        let (transcript, index, want) = *row;
        if !is_known(alloc, transcript, index, want) {
            return Some(i);
        }
    }
    None
}

// A message that isn't seen handled is the one thing that its node made before the post and that no other message is.
#[test]
fn a_message_that_never_arrives_is_what_is_left(rt: HostRuntime) {
    assert_eq!(rt; first_other_origin(rt.alloc()), None);
}

// Whether five messages are what no run makes.
fn are_stubs(messages: &[Message]) -> bool {
    let [first, second, third, fourth, fifth] = messages else {
        return false;
    };
    lines_of(first) == [None, Some(0), None, None]
        && first.lost == Some(1)
        && lines_of(second) == [None, Some(1), Some(2), None]
        && second.lost == Some(4)
        && lines_of(third) == [None, Some(3), None, None]
        && third.lost == Some(4)
        && is_handled_behind_the_settle(fourth)
        && fifth.from.is_none()
        && lines_of(fifth) == [None, None, None, Some(7)]
}

fn is_handled_behind_the_settle(message: &Message) -> bool {
    lines_of(message) == [None, None, Some(5), Some(6)]
        && message.gained == Some(4)
        && message.unfit
}

// The messages of a transcript, if no router is known.
fn messages_alone<'a>(alloc: Global, transcript: &'a [u8]) -> Option<Vec<Message<'a>>> {
    let lines = read(alloc, transcript).ok()?;
    messages(alloc, &lines, &[]).ok()
}

// What is posted twice with no look between, looked at behind a settle, handled out of nothing, or still in a mailbox.
#[test]
fn stubs_show_what_no_run_makes(rt: HostRuntime) {
    let transcript =
        b"n0: post 1\nn0: post 1\nn1: look 0\nn0: post 1\nunsettled\nn1: look 0\nn1: hand Flush C2 dropped\nn1: hand Flush C3\n";
    let messages = messages_alone(rt.alloc(), transcript).expect(&rt, "the transcript");
    assert!(rt; are_stubs(&messages));
}
