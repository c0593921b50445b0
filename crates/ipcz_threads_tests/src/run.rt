//! What `ipcz_run` writes, and with which status it ends.

use crate::arguments::Arguments;
use crate::cases::gives;
use ipcz_device::Device;
use ipcz_device::slow::{SlowReader, SlowWriter};
use ipcz_threads::program::{Asked, asked_for, run_program};
use std::alloc::{AllocError, Global};
use std::thread::Threads;

const NAME: &[u8] = b"ipcz_run";

static ASKED: [(&[&[u8]], Asked); 13] = [
    (&[], Asked::Script),
    (&[NAME], Asked::Script),
    (&[NAME, b"threads"], Asked::Threads),
    (&[NAME, b"--help"], Asked::Help),
    (&[NAME, b"-h"], Asked::Help),
    (&[NAME, b"--help", b"threads"], Asked::Usage),
    (&[NAME, b"help"], Asked::Usage),
    (&[NAME, b"threads", b"x"], Asked::Usage),
    (&[NAME, b"x", b"threads"], Asked::Usage),
    (&[NAME, b"Threads"], Asked::Usage),
    (&[NAME, b""], Asked::Usage),
    (&[NAME, b"x", b"y"], Asked::Usage),
    (&[NAME, b"\xff"], Asked::Usage),
];

// Whether this is asked for by these arguments.
fn is_asked(alloc: Global, given: &[&[u8]], want: Asked) -> bool {
    let arguments = (Arguments { given }, alloc);
    asked_for(&arguments) == Ok(want)
}

// The first arguments that ask for something else.
fn first_other_asked(alloc: Global) -> Option<usize> {
    for (i, row) in ASKED.iter().enumerate() {
        let (given, want) = *row;
        if !is_asked(alloc, given, want) {
            return Some(i);
        }
    }
    None
}

#[test]
fn asks_for_what_its_arguments_say(rt: HostRuntime) {
    gives(&rt, first_other_asked(rt.alloc()), None);
}

const SCRIPT: &str = r#"{"nodes":1,"words":1,"commands":[["open",0,"x","y"],["get","y"]]}"#;

const AT_ITS_LIMIT: &str =
    r#"{"nodes":1,"words":1,"commands":[["open",0,"x","y"],["put","x","a"],["settle",1]]}"#;

// A script, the status that it ends with, and what it writes.
static ENDINGS: [(&str, u8, &str); 3] = [
    (SCRIPT, 0, "open x y ok\nget y Empty\n"),
    ("[]", 2, "refused BadShape 0\n"),
    (AT_ITS_LIMIT, 4, "open x y ok\nput x 0\nunsettled\n"),
];

// Whether a script ends with this status, and writes this.
fn ends<T: Threads + Sync>(rt: &T, alloc: Global, row: (&str, u8, &str)) -> bool {
    let (script, status, text) = row;
    let mut out = Vec::new(alloc);
    let ended = run_program(
        rt,
        alloc,
        Ok(Asked::Script),
        &mut Device::new(script.as_bytes()),
        &mut Device::new(&mut out),
    );
    ended == status && out.as_slice() == text.as_bytes()
}

// The first script that ends otherwise.
fn first_other<T: Threads + Sync>(rt: &T, alloc: Global) -> Option<usize> {
    for (i, row) in ENDINGS.iter().enumerate() {
        if !ends(rt, alloc, *row) {
            return Some(i);
        }
    }
    None
}

#[test]
fn ends_with_the_status_of_the_script(rt: HostRuntime) {
    gives(&rt, first_other(&rt, rt.alloc()), None);
}

// Whether the program ends with status 1 if its reader fails at its tenth read, and writes nothing.
fn ends_after_a_failed_read<T: Threads + Sync>(rt: &T, alloc: Global) -> bool {
    let mut out = Vec::new(alloc);
    let ended = run_program(
        rt,
        alloc,
        Ok(Asked::Script),
        &mut Device::new(SlowReader {
            bytes: SCRIPT.as_bytes(),
            at_once: 1,
            reads_left: 9,
        }),
        &mut Device::new(&mut out),
    );
    ended == 1 && out.is_empty()
}

// Whether the program ends with status 1 if its writer fails at its third write, and what is written up to there is this.
fn ends_after_a_failed_write<T: Threads + Sync>(rt: &T, alloc: Global, text: &[u8]) -> bool {
    let mut out = Vec::new(alloc);
    let ended = run_program(
        rt,
        alloc,
        Ok(Asked::Script),
        &mut Device::new(SCRIPT.as_bytes()),
        &mut Device::new(SlowWriter {
            taken: &mut out,
            at_once: 3,
            writes_left: 2,
            fails: true,
        }),
    );
    ended == 1 && out.as_slice() == text
}

#[test]
fn ends_with_status_1_after_a_failed_read_or_write(rt: HostRuntime) {
    assert!(rt; ends_after_a_failed_read(&rt, rt.alloc()));
    assert!(rt; ends_after_a_failed_write(&rt, rt.alloc(), b"open x"));
}

// Whether the program ends with this status and this text, and its reader, which would fail at its first read, hasn't failed.
fn reads_nothing<T: Threads + Sync>(
    rt: &T,
    alloc: Global,
    asked: Result<Asked, AllocError>,
    writes_left: usize,
    status: u8,
    text: &[u8],
) -> bool {
    let mut out = Vec::new(alloc);
    let mut reader = Device::new(SlowReader {
        bytes: SCRIPT.as_bytes(),
        at_once: 1,
        reads_left: 0,
    });
    let ended = run_program(
        rt,
        alloc,
        asked,
        &mut reader,
        &mut Device::new(SlowWriter {
            taken: &mut out,
            at_once: 3,
            writes_left,
            fails: true,
        }),
    );
    ended == status && !reader.failed() && out.as_slice() == text
}

#[test]
fn reads_nothing_where_there_are_arguments(rt: HostRuntime) {
    let usage = b"usage: ipcz_run [--help] [threads] < SCRIPT\n";
    assert!(rt; reads_nothing(&rt, rt.alloc(), Ok(Asked::Usage), 15, 2, usage));
    assert!(rt; reads_nothing(&rt, rt.alloc(), Ok(Asked::Usage), 2, 1, b"usage:"));
    assert!(rt; reads_nothing(&rt, rt.alloc(), Ok(Asked::Help), 2, 1, b"usage:"));
    assert!(rt; reads_nothing(&rt, rt.alloc(), Err(AllocError), 9, 3, b""));
}
