//! With which status the program ends, and what it writes.

use crate::verdicts::gives;
use ipcz_device::Device;
use ipcz_device::slow::SlowReader;
use ipcz_log::program::{Asked, run_program};
use std::alloc::{AllocError, Global};

// Whether a log gets this status and this text.
fn says(alloc: Global, log: &str, status: u8, text: &str) -> bool {
    let mut out = Vec::new(alloc);
    let ended = run_program(
        alloc,
        Ok(Asked::Log),
        &mut Device::new(log.as_bytes()),
        &mut Device::new(&mut out),
    );
    ended == status && out.as_slice() == text.as_bytes()
}

// Logs, the status that each gets, and the text.
static STATUSES: [(&str, u8, &str); 4] = [
    ("{\"nodes\":1}\n", 0, "allowed\n"),
    (
        "{\"nodes\":1}\n{\"node\":0,\"op\":\"close\",\"at\":\"x\",\"n\":0}",
        2,
        "line 2: refused\n",
    ),
    ("{\"nodes\":1}\n7", 2, "line 2: no line of a log\n"),
    (
        "{\"nodes\":1,\"logs\":1}\n{\"log\":0,\"node\":0,\"op\":\"close\",\"at\":\"x\",\"n\":0}",
        2,
        "line 2: refused in every order\n",
    ),
];

// The first log that gets another status or text.
fn first_other(alloc: Global) -> Option<usize> {
    for (i, (log, status, text)) in STATUSES.iter().enumerate() {
        if !says(alloc, *log, *status, *text) {
            return Some(i);
        }
    }
    None
}

#[test]
fn ends_with_the_status_of_the_verdict(rt: HostRuntime) {
    gives(&rt, first_other(rt.alloc()), None);
}

// The status where a read fails.
fn unread(alloc: Global) -> u8 {
    let mut out = Vec::new(alloc);
    run_program(
        alloc,
        Ok(Asked::Log),
        &mut Device::new(SlowReader {
            bytes: b"{\"nodes\":1}\n",
            at_once: 4,
            reads_left: 2,
        }),
        &mut Device::new(&mut out),
    )
}

#[test]
fn ends_with_status_1_where_a_read_fails(rt: HostRuntime) {
    assert_eq!(rt; unread(rt.alloc()), 1);
}

// The status without memory for the arguments.
fn forgotten(alloc: Global) -> u8 {
    let mut out = Vec::new(alloc);
    let log: &[u8] = b"";
    run_program(
        alloc,
        Err(AllocError),
        &mut Device::new(log),
        &mut Device::new(&mut out),
    )
}

#[test]
fn ends_with_status_3_without_memory(rt: HostRuntime) {
    assert_eq!(rt; forgotten(rt.alloc()), 3);
}
