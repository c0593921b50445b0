//! What is told of a refused line: a text that is allowed in its place, and of an act all that its node could take.

use crate::logs::LINES;
use ipcz_events::{Verdict, judge_log};
use ipcz_node::Act;
use ipcz_router::act::RouterAct;
use std::alloc::{AllocError, Global};

// A line that stands at this place of the log in its stead, where it is refused, and what is told of it: the text, if one is, and the acts of
// this node.
struct Told {
    at: usize,
    line: &'static str,
    instead: Option<&'static str>,
    acting: Option<u8>,
}

// What node 0 could take where router 2 locks its word: a message waits for node 1, whose mailbox is empty, and the two other routers have nothing
// to do.
static AT_THE_LOCK: [Act; 4] = [
    Act::Post(1),
    Act::Router(0, RouterAct::Rest),
    Act::Router(1, RouterAct::Rest),
    Act::Router(2, RouterAct::Lock),
];

// And node 1 with a message in its hand: it looks at no other, and its router has nothing to do.
static WITH_A_MESSAGE: [Act; 2] = [Act::Hand(0), Act::Router(0, RouterAct::Rest)];

// The acts of a node, if some are told.
fn acts_of(acting: Option<u8>) -> &'static [Act] {
    match acting {
        Some(0) => &AT_THE_LOCK,
        Some(_) => &WITH_A_MESSAGE,
        None => &[],
    }
}

static TOLD: [Told; 9] = [
    // of a try for the lock what that is answered: both sides of the link are stable, so router 2 gets the lock, for node 1
    Told {
        at: 5,
        line: "{\"node\": 0, \"event\": \"r2 wait C1 547\"}",
        instead: Some("r2 lock C1 547"),
        acting: Some(0),
    },
    // of a message in hand what it is
    Told {
        at: 11,
        line: "{\"node\": 1, \"event\": \"hand item 1 C0\"}",
        instead: Some("hand item 0 C0"),
        acting: Some(1),
    },
    // of a call what it is answered: of a show the words, of a put the number of its parcel, of a get the parcel
    Told {
        at: 9,
        line: "{\"call\": [\"show\"], \"answer\": \"words 3 547 1\"}",
        instead: Some("words 3 547 0"),
        acting: None,
    },
    Told {
        at: 38,
        line: "{\"call\": [\"put\", \"y\", \"r\"], \"answer\": \"put y 1\"}",
        instead: Some("put y 0"),
        acting: None,
    },
    Told {
        at: 45,
        line: "{\"call\": [\"get\", \"x\"], \"answer\": \"get x Empty\"}",
        instead: Some("get x 0 [] \"r\""),
        acting: None,
    },
    // a router that isn't about to try for a lock
    Told {
        at: 5,
        line: "{\"node\": 0, \"event\": \"r1 lock C1 547\"}",
        instead: None,
        acting: Some(0),
    },
    // a node that isn't there
    Told {
        at: 5,
        line: "{\"node\": 2, \"event\": \"r2 lock C1 547\"}",
        instead: None,
        acting: None,
    },
    // a text that names no act
    Told {
        at: 5,
        line: "{\"node\": 0, \"event\": \"r2 fly C1 547\"}",
        instead: None,
        acting: Some(0),
    },
    // a command that is no call
    Told {
        at: 2,
        line: "{\"call\": [\"turn\", 0, 1], \"answer\": \"n0: r0 send out 0 C0 moves 1B\"}",
        instead: None,
        acting: None,
    },
];

// The text of the log, with its header, and with this line in its place.
fn text_with(alloc: Global, told: &Told) -> Result<Vec<u8>, AllocError> {
    let mut text = Vec::new(alloc);
    text.extend_from_slice(b"{\"nodes\": 2, \"words\": 4}\n")?;
    for (at, line) in LINES.iter().enumerate() {
        let line = if at == told.at { told.line } else { *line };
        text.extend_from_slice(line.as_bytes())?;
        text.push(b'\n')?;
    }
    Ok(text)
}

// Whether the text that is told is the one that is to be told, if one is.
fn is_same(told: Option<&[u8]>, text: Option<&str>) -> bool {
    match (told, text) {
        (Some(bytes), Some(text)) => bytes == text.as_bytes(),
        (None, None) => true,
        _ => false,
    }
}

// Whether the verdict refuses the line, which has the number `at + 2` in the text, and tells what is to be told.
fn tells(verdict: &Verdict, told: &Told) -> bool {
    let Verdict::Refused {
        line,
        instead,
        possible,
    } = verdict
    else {
        return false;
    };
    let is_there = line.checked_sub(2) == Some(told.at as u64);
    let text = instead.as_ref().map(|bytes| bytes.as_slice());
    is_there && is_same(text, told.instead) && possible.as_slice() == acts_of(told.acting)
}

// The first of which something else is told.
fn first_other(alloc: Global) -> Result<Option<usize>, AllocError> {
    for (i, told) in TOLD.iter().enumerate() {
        let text = text_with(alloc, told)?;
        if !tells(&judge_log(alloc, &text)?, told) {
            return Ok(Some(i));
        }
    }
    Ok(None)
}

#[test]
fn what_is_allowed_in_place_of_a_refused_line_is_told(rt: HostRuntime) {
    assert_eq!(rt; first_other(rt.alloc()), Ok(None));
}
