//! Logs of one bypass, whose lines were drawn by `tools/judge_events.py`, and changes of them.

use ipcz_events::{Entry, entry_in, first_refused};
use serde_json::Value;
use std::alloc::{AllocError, Global};

// A portal moves to node 1 and the proxy that it leaves is bypassed. The order of the acts isn't that of turns: on node 0 the proxy claims a word before
// the router that has sent the parcel rests, and begins its bypass before the parcel is posted.
pub(crate) static LINES: [&str; 46] = [
    "{\"call\": [\"open\", 0, \"x\", \"y\"], \"answer\": \"open x y ok\"}",
    "{\"call\": [\"put\", \"0>1\", \"m\", [\"y\"]], \"answer\": \"put 0>1 0\"}",
    "{\"node\": 0, \"event\": \"r0 send out 0 C0 moves 1B\"}",
    "{\"node\": 0, \"event\": \"r2 claim 2\"}",
    "{\"node\": 0, \"event\": \"r0 rest\"}",
    "{\"node\": 0, \"event\": \"r2 lock C1 547\"}",
    "{\"node\": 0, \"event\": \"r2 begin C1\"}",
    "{\"node\": 0, \"event\": \"post 1\"}",
    "{\"node\": 0, \"event\": \"r2 rest\"}",
    "{\"call\": [\"show\"], \"answer\": \"words 3 547 0\"}",
    "{\"node\": 1, \"event\": \"look 0\"}",
    "{\"node\": 1, \"event\": \"hand item 0 C0\"}",
    "{\"node\": 1, \"event\": \"r0 rest\"}",
    "{\"node\": 0, \"event\": \"post 1\"}",
    "{\"node\": 1, \"event\": \"look 0\"}",
    "{\"node\": 1, \"event\": \"hand BypassPeer P0.0\"}",
    "{\"node\": 1, \"event\": \"post 0\"}",
    "{\"node\": 1, \"event\": \"r1 rest\"}",
    "{\"node\": 0, \"event\": \"look 1\"}",
    "{\"node\": 0, \"event\": \"hand AcceptBypass C1\"}",
    "{\"node\": 0, \"event\": \"post 0\"}",
    "{\"node\": 0, \"event\": \"look 0\"}",
    "{\"node\": 0, \"event\": \"hand StopProxying C1\"}",
    "{\"node\": 0, \"event\": \"r2 finish in P0.0\"}",
    "{\"node\": 0, \"event\": \"post 1\"}",
    "{\"node\": 0, \"event\": \"r1 finish out C1\"}",
    "{\"node\": 0, \"event\": \"r2 finish out C1\"}",
    "{\"node\": 0, \"event\": \"r2 leave\"}",
    "{\"node\": 0, \"event\": \"r1 mark C2 1\"}",
    "{\"node\": 0, \"event\": \"r1 rest\"}",
    "{\"call\": [\"show\"], \"answer\": \"words 3 547 1\"}",
    "{\"node\": 1, \"event\": \"look 0\"}",
    "{\"node\": 1, \"event\": \"hand ProxyWillStop P0.0\"}",
    "{\"node\": 1, \"event\": \"r1 finish out P0.0\"}",
    "{\"node\": 1, \"event\": \"r1 mark C2 3\"}",
    "{\"node\": 1, \"event\": \"r1 rest\"}",
    "{\"call\": [\"show\"], \"answer\": \"words 3 547 3\"}",
    "{\"call\": [\"get\", \"1>0\"], \"answer\": \"get 1>0 0 [y] \\\"m\\\"\"}",
    "{\"call\": [\"put\", \"y\", \"r\"], \"answer\": \"put y 0\"}",
    "{\"node\": 1, \"event\": \"r1 send out 0 C2\"}",
    "{\"node\": 1, \"event\": \"post 0\"}",
    "{\"node\": 0, \"event\": \"look 1\"}",
    "{\"node\": 1, \"event\": \"r1 rest\"}",
    "{\"node\": 0, \"event\": \"hand item 0 C2\"}",
    "{\"node\": 0, \"event\": \"r1 rest\"}",
    "{\"call\": [\"get\", \"x\"], \"answer\": \"get x 0 [] \\\"r\\\"\"}",
];

// A line that stands at this place in its stead, and the first line that is refused then, counted from 0.
struct Change {
    at: usize,
    line: &'static str,
    first: Option<usize>,
}

static CHANGES: [Change; 23] = [
    // a try for the lock is answered as a wait
    Change {
        at: 5,
        line: "{\"node\": 0, \"event\": \"r2 wait C1 547\"}",
        first: Some(5),
    },
    // another word
    Change {
        at: 5,
        line: "{\"node\": 0, \"event\": \"r2 lock C1 546\"}",
        first: Some(5),
    },
    // another link
    Change {
        at: 5,
        line: "{\"node\": 0, \"event\": \"r2 lock C2 547\"}",
        first: Some(5),
    },
    // another router
    Change {
        at: 5,
        line: "{\"node\": 0, \"event\": \"r1 lock C1 547\"}",
        first: Some(5),
    },
    // another node
    Change {
        at: 5,
        line: "{\"node\": 1, \"event\": \"r2 lock C1 547\"}",
        first: Some(5),
    },
    // a node that isn't there
    Change {
        at: 5,
        line: "{\"node\": 2, \"event\": \"r2 lock C1 547\"}",
        first: Some(5),
    },
    // a bypass begins before the lock
    Change {
        at: 5,
        line: "{\"node\": 0, \"event\": \"r2 begin C1\"}",
        first: Some(5),
    },
    // a router rests that can act
    Change {
        at: 3,
        line: "{\"node\": 0, \"event\": \"r2 rest\"}",
        first: Some(3),
    },
    // a post before its look
    Change {
        at: 10,
        line: "{\"node\": 1, \"event\": \"post 0\"}",
        first: Some(10),
    },
    // a look with a full hand
    Change {
        at: 11,
        line: "{\"node\": 1, \"event\": \"look 0\"}",
        first: Some(11),
    },
    // another number
    Change {
        at: 11,
        line: "{\"node\": 1, \"event\": \"hand item 1 C0\"}",
        first: Some(11),
    },
    // a turn is a command of scripts
    Change {
        at: 2,
        line: "{\"call\": [\"turn\", 0, 1], \"answer\": \"n0: r0 send out 0 C0 moves 1B\"}",
        first: Some(2),
    },
    // other words
    Change {
        at: 9,
        line: "{\"call\": [\"show\"], \"answer\": \"words 3 547 1\"}",
        first: Some(9),
    },
    // another number of a parcel
    Change {
        at: 38,
        line: "{\"call\": [\"put\", \"y\", \"r\"], \"answer\": \"put y 1\"}",
        first: Some(38),
    },
    // an idle node that isn't
    Change {
        at: 3,
        line: "{\"node\": 0, \"event\": \"idle\"}",
        first: Some(3),
    },
    // an idle node
    Change {
        at: 2,
        line: "{\"node\": 1, \"event\": \"idle\"}",
        first: Some(3),
    },
    // no text
    Change {
        at: 5,
        line: "{\"node\": 0, \"event\": \"\"}",
        first: Some(5),
    },
    // a router alone
    Change {
        at: 5,
        line: "{\"node\": 0, \"event\": \"r2\"}",
        first: Some(5),
    },
    // what no router does
    Change {
        at: 5,
        line: "{\"node\": 0, \"event\": \"r2 fly C1 547\"}",
        first: Some(5),
    },
    // a serial with a needless zero
    Change {
        at: 5,
        line: "{\"node\": 0, \"event\": \"r02 lock C1 547\"}",
        first: Some(5),
    },
    // a node of more than 8 bits
    Change {
        at: 10,
        line: "{\"node\": 1, \"event\": \"look 256\"}",
        first: Some(10),
    },
    // the act that comes, and more behind it
    Change {
        at: 5,
        line: "{\"node\": 0, \"event\": \"r2 lock C1 547 \"}",
        first: Some(5),
    },
    // a turn that is refused
    Change {
        at: 5,
        line: "{\"node\": 0, \"event\": \"Raced\"}",
        first: Some(5),
    },
];

// Adds the line of a log that this text is.
fn push_line(alloc: Global, log: &mut Vec<Entry>, text: &str) -> Result<bool, AllocError> {
    let Ok(value) = Value::from_slice(alloc, text.as_bytes()) else {
        return Ok(false);
    };
    match entry_in(alloc, 2, &value)? {
        Some(entry) => {
            log.push(entry)?;
            Ok(true)
        }
        None => Ok(false),
    }
}

// The log with a change, or as it is.
fn log_with(alloc: Global, change: Option<&Change>) -> Result<Option<Vec<Entry>>, AllocError> {
    let mut log = Vec::new(alloc);
    for (at, line) in LINES.iter().enumerate() {
        let text = match change {
            Some(change) if change.at == at => change.line,
            _ => *line,
        };
        if !push_line(alloc, &mut log, text)? {
            return Ok(None);
        }
    }
    Ok(Some(log))
}

// What is said of it.
fn first_of(alloc: Global, change: Option<&Change>) -> Result<Option<Option<usize>>, AllocError> {
    match log_with(alloc, change)? {
        Some(log) => Ok(Some(first_refused(alloc, 2, 4, &log)?)),
        None => Ok(None),
    }
}

// The first change of which something else is said.
fn first_other(alloc: Global) -> Option<usize> {
    for (i, change) in CHANGES.iter().enumerate() {
        if first_of(alloc, Some(change)) != Ok(Some(change.first)) {
            return Some(i);
        }
    }
    None
}

#[test]
fn acts_in_another_order_are_allowed(rt: HostRuntime) {
    assert_eq!(rt; first_of(rt.alloc(), None), Ok(Some(None)));
}

#[test]
fn changed_lines_are_refused(rt: HostRuntime) {
    assert_eq!(rt; first_other(rt.alloc()), None);
}
