//! Transcripts that are read, and bytes that aren't.

use crate::told::gives;
use ipcz_lines::{Event, LONGEST, Line, Link, ReadLine, RouterEvent, Unread, Way, WordStep, read};
use std::alloc::Global;

// One line of each form, and of each alternative in it.
const FORMS: &[u8] = b"open x y ok
open left_0 right NoWord
put 0>1 18446744073709551615
put x SelfAttach
close x 3
close x UnknownName
get x Empty
get 1>0 0 [] \"\"
get 1>0 7 [y,z] \"a \"b\"] \"
n0: hand item 0 C0
n7: hand item 12 P1.2 stray
n0: hand BypassPeer P0.0
n0: hand AcceptBypass C1
n0: hand StopProxying C4095 stray
n0: hand ProxyWillStop P7.18446744073709551615
n0: hand Flush C2
n0: hand Flush C2 dropped
n0: look 1
n0: post 7
n0: close 3B
n0: r0 send out 0 C0
n0: r0 send in 5 P1.0 moves 1A,4095B
n0: r2 discard 0
n0: r2 discard 1 leave
n0: r1 finish out C1
n0: r1 finish in P0.0
n0: r1 leave
n0: r1 rest
n0: r1 mark C2 1
n0: r1 wake C2 3
n0: r1 lock C1 35
n0: r1 wait C2 10
n0: r1 refused C1 4095
n0: r1 unlock C0 3
n0: r1 claim 2
n0: r1 claim NoWord
n0: r1 begin C1
n0: r1 retire 1 C0
n0: idle
n0: NumbersEnd
n0: OutOfMemory
settled
unsettled
words
words 3 35 0
refused NotJson
refused TooLong
refused BadShape 3
";

// Lines of no form.
static NO_FORMS: [&[u8]; 36] = [
    b"",
    b" ",
    b"idle",
    b"settled ",
    b"open x y",
    b"open x y Ok",
    b"open x  ok",
    b"open x-1 y ok",
    b"open abcdefghijklmnopq y ok",
    b"put x 00",
    b"put x 01",
    b"put x +1",
    b"put x 18446744073709551616",
    b"put x Nothing",
    b"get x 0 [y] \"",
    b"get x 0 [y,] \"\"",
    b"get x 0 y \"\"",
    b"get x 0 [] \"a\" ",
    b"n8: idle",
    b"n0: idle ",
    b"n0 idle",
    b"n0: look 8",
    b"n0: post 00",
    b"n0: hand item C0",
    b"n0: hand item 0 C0 dropped",
    b"n0: hand Flush C0 stray",
    b"n0: r0 send up 0 C0",
    b"n0: r0 send out 0 C0 moves",
    b"n0: r0 send out 0 C0 moves 1C",
    b"n0: r0 mark P0.0 3",
    b"n0: r0 mark C0 4096",
    b"n0: r0 claim 4096",
    b"n0: r01 rest",
    b"words ",
    b"words 3  3",
    b"refused BadShape",
];

// Whether a line is read by itself.
fn is_a_line(alloc: Global, text: &[u8]) -> bool {
    let Ok(one) = [text, b"\n".as_slice()].concat(alloc) else {
        return false;
    };
    match read(alloc, one.as_slice()) {
        Ok(lines) => lines.len() == 1,
        Err(_) => false,
    }
}

// How many lines are read, if each is read by itself, too.
fn lines_read(alloc: Global, text: &[u8]) -> Option<usize> {
    let lines = read(alloc, text).ok()?;
    for line in &lines {
        if !is_a_line(alloc, line.text) {
            return None;
        }
    }
    Some(lines.len())
}

#[test]
fn reads_each_form(rt: HostRuntime) {
    gives(&rt, lines_read(rt.alloc(), FORMS), Some(48));
}

// Whether a line is a send.
fn is_send(line: &Line) -> bool {
    match line {
        Line::Turn {
            node: 1,
            event: Event::Router {
                serial: 12,
                event: RouterEvent::Send {
                    way: Way::In,
                    number: 5,
                    link: Link::Peripheral { node: 3, serial: 4 },
                    moves,
                },
            },
        } => *moves == b"1A,2B".as_slice(),
        _ => false,
    }
}

// Whether a line is a get of a parcel.
fn is_parcel(line: &Line) -> bool {
    match line {
        Line::Got {
            name,
            number: 7,
            names,
            data,
        } => {
            *name == b"1>0".as_slice() && *names == b"y,z".as_slice() && *data == b"a\"b".as_slice()
        }
        _ => false,
    }
}

// Whether a line is a wait.
fn is_wait(line: &Line) -> bool {
    matches!(
        line,
        Line::Turn {
            node: 2,
            event: Event::Router {
                serial: 3,
                event: RouterEvent::Word {
                    step: WordStep::Wait,
                    word: 9,
                    after: 10,
                },
            },
        }
    )
}

// The first of three lines whose parts are others, or how many lines there are.
fn first_other_of(lines: &[ReadLine]) -> Option<usize> {
    let [send, parcel, wait] = lines else {
        return None;
    };
    if !is_send(&send.line) {
        return Some(0);
    }
    if !is_parcel(&parcel.line) {
        return Some(1);
    }
    if !is_wait(&wait.line) {
        return Some(2);
    }
    Some(3)
}

// The same of the lines that are read.
fn first_other_line(alloc: Global, text: &[u8]) -> Option<usize> {
    let lines = read(alloc, text).ok()?;
    first_other_of(&lines)
}

#[test]
fn tells_the_parts_of_a_line(rt: HostRuntime) {
    let text = b"n1: r12 send in 5 P3.4 moves 1A,2B\nget 1>0 7 [y,z] \"a\"b\"\nn2: r3 wait C9 10\n";
    gives(&rt, first_other_line(rt.alloc(), text), Some(3));
}

// The line at which bytes are refused; none if they are read.
fn refused_at(alloc: Global, input: &[u8]) -> Option<usize> {
    match read(alloc, input) {
        Err(Unread::Refused { line }) => Some(line),
        _ => None,
    }
}

// The line at which a text is refused as the second of three lines.
fn refused_between(alloc: Global, text: &[u8]) -> Option<usize> {
    let input = [b"settled\n".as_slice(), text, b"\nsettled\n"]
        .concat(alloc)
        .ok()?;
    refused_at(alloc, input.as_slice())
}

// The first line of no form that isn't refused.
fn first_with_form(alloc: Global) -> Option<usize> {
    for (i, text) in NO_FORMS.iter().enumerate() {
        if refused_between(alloc, *text) != Some(2) {
            return Some(i);
        }
    }
    None
}

#[test]
fn refuses_lines_of_no_form(rt: HostRuntime) {
    gives(&rt, first_with_form(rt.alloc()), None);
}

// Bytes, and the line at which they are refused.
static OTHER_BYTES: [(&[u8], usize); 5] = [
    (b"settled", 1),
    (b"settled\nn0: idle", 2),
    (b"get x 0 [] \"\x7f\"\n", 1),
    (b"settled\nget x 0 [] \"\t\"\n", 2),
    (b"\n", 1),
];

// The first of these bytes that aren't refused at their line.
fn first_refused_elsewhere(alloc: Global) -> Option<usize> {
    for (i, (input, line)) in OTHER_BYTES.iter().enumerate() {
        if refused_at(alloc, *input) != Some(*line) {
            return Some(i);
        }
    }
    None
}

#[test]
fn refuses_other_bytes(rt: HostRuntime) {
    gives(&rt, first_refused_elsewhere(rt.alloc()), None);
    gives(&rt, lines_read(rt.alloc(), b""), Some(0));
}

// The line at which so many empty lines are refused.
fn empty_refused_at(alloc: Global, count: usize) -> Option<usize> {
    let lines = vec![in alloc; 10u8; count].ok()?;
    refused_at(alloc, lines.as_slice())
}

#[test]
fn refuses_too_many_bytes(rt: HostRuntime) {
    gives(&rt, empty_refused_at(rt.alloc(), LONGEST), Some(1));
    gives(&rt, empty_refused_at(rt.alloc(), LONGEST + 1), Some(0));
}
