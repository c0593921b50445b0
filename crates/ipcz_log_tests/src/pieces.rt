//! Logs that come in pieces.

use crate::verdicts::gives;
use ipcz_device::slow::SlowReader;
use ipcz_device::{Device, Fault};
use ipcz_log::program::{Asked, run_program};
use ipcz_log::{Verdict, judge_log};
use std::alloc::{AllocError, Global};

// A log whose third line is refused, with a line behind it.
const REFUSED: &str =
    "{\"nodes\":2}\n{\"node\":0,\"op\":\"put\",\"at\":\"0>1\",\"bytes\":\"a\",\"n\":0}\n{\"node\":0,\"op\":\"get\",\"at\":\"0>1\",\"bytes\":\"a\",\"n\":0}\n{}\n";

// What is said of a text that comes in pieces of so many bytes, if no more than so many reads are made.
fn judged(alloc: Global, text: &str, at_once: usize, reads: usize) -> Result<Verdict, Fault> {
    judge_log(
        alloc,
        &mut Device::new(SlowReader {
            bytes: text.as_bytes(),
            at_once,
            reads_left: reads,
        }),
    )
}

// The first size of pieces, of 1 to 9 bytes, with which something else is said of a text.
fn first_other(alloc: Global, text: &str, want: Verdict) -> Option<usize> {
    for at_once in 1..10 {
        if judged(alloc, text, at_once, 1000) != Ok(want) {
            return Some(at_once);
        }
    }
    None
}

// Texts, and what is said of them in pieces of any size.
static TEXTS: [(&str, Verdict); 8] = [
    (REFUSED, Verdict::Refused(3)),
    ("{\"nodes\":2}", Verdict::Allowed),
    ("{\"nodes\":2}\n", Verdict::Allowed),
    ("{\"nodes\":2}\n\n", Verdict::NoLog(2)),
    ("{\"nodes\":2}\n{}", Verdict::NoLog(2)),
    ("\n{\"nodes\":2}\n", Verdict::NoLog(1)),
    ("", Verdict::NoLog(1)),
    (
        "{\"nodes\":2,\"logs\":2}\n{\"log\":1,\"node\":1,\"op\":\"get\",\"at\":\"1>0\",\"bytes\":\"a\",\"n\":0}\n{\"log\":0,\"node\":0,\"op\":\"put\",\"at\":\"0>1\",\"bytes\":\"a\",\"n\":0}",
        Verdict::Allowed,
    ),
];

// The first text of which something else is said in pieces of some size.
fn first_other_text(alloc: Global) -> Option<usize> {
    for (i, (text, want)) in TEXTS.iter().enumerate() {
        if first_other(alloc, *text, *want).is_some() {
            return Some(i);
        }
    }
    None
}

#[test]
fn says_the_same_of_any_pieces(rt: HostRuntime) {
    gives(&rt, first_other_text(rt.alloc()), None);
}

// A log of one put of so many bytes, which is got with one of them less or not.
fn long_lines(alloc: Global, put: usize, got: usize) -> Result<String, AllocError> {
    let mut log = String::from_str(
        alloc,
        "{\"nodes\":2}\n{\"node\":0,\"op\":\"put\",\"at\":\"0>1\",\"n\":0,\"bytes\":\"",
    )?;
    for _ in 0..put {
        log.push_str("a")?;
    }
    log.push_str("\"}\n{\"node\":1,\"op\":\"get\",\"at\":\"1>0\",\"n\":0,\"bytes\":\"")?;
    for _ in 0..got {
        log.push_str("a")?;
    }
    log.push_str("\"}\n")?;
    Ok(log)
}

// What is said of such a log, which is read in pieces of 4,096 bytes.
fn long_verdict(alloc: Global, put: usize, got: usize) -> Result<Verdict, Fault> {
    let log = long_lines(alloc, put, got)?;
    judge_log(alloc, &mut Device::new(log.as_bytes()))
}

// How many bytes are put and got, and what is said of that.
static LONG_LINES: [(usize, usize, Verdict); 4] = [
    (20_000, 20_000, Verdict::Allowed),
    (20_000, 19_999, Verdict::Refused(3)),
    (65_536, 65_536, Verdict::Allowed),
    (65_537, 65_537, Verdict::Refused(2)),
];

// The first of these of which something else is said.
fn first_other_length(alloc: Global) -> Option<usize> {
    for (i, (put, got, want)) in LONG_LINES.iter().enumerate() {
        if long_verdict(alloc, *put, *got) != Ok(*want) {
            return Some(i);
        }
    }
    None
}

#[test]
fn joins_lines_that_are_longer_than_pieces(rt: HostRuntime) {
    gives(&rt, first_other_length(rt.alloc()), None);
}

// Texts that are read byte by byte, how many reads may be made before one fails, and what is said.
static READS: [(&str, usize, Result<Verdict, Fault>); 7] = [
    // the third line ends in the 114th byte: one read more would fail
    (REFUSED, 113, Err(Fault::Read)),
    (REFUSED, 114, Ok(Verdict::Refused(3))),
    // of several logs, too, the first that is none
    (
        "{\"nodes\":1,\"logs\":1}\n7\n8\n",
        23,
        Ok(Verdict::NoLog(2)),
    ),
    ("7\n8\n", 2, Ok(Verdict::NoLog(1))),
    // else all is read, and that nothing comes behind it
    ("{\"nodes\":1}\n", 12, Err(Fault::Read)),
    ("{\"nodes\":1}\n", 13, Ok(Verdict::Allowed)),
    ("{\"nodes\":1}", 12, Ok(Verdict::Allowed)),
];

// The first of these texts of which something else is said.
fn first_other_read(alloc: Global) -> Option<usize> {
    for (i, (text, reads, want)) in READS.iter().enumerate() {
        if judged(alloc, *text, 1, *reads) != *want {
            return Some(i);
        }
    }
    None
}

#[test]
fn reads_up_to_the_line_that_decides(rt: HostRuntime) {
    gives(&rt, first_other_read(rt.alloc()), None);
}

// Whether a log that can't be read to the end of its second line gets status 1, and nothing is written.
fn is_given_up(alloc: Global) -> bool {
    let mut out = Vec::new(alloc);
    let status = run_program(
        alloc,
        Ok(Asked::Log),
        &mut Device::new(SlowReader {
            bytes: REFUSED.as_bytes(),
            at_once: 7,
            reads_left: 5,
        }),
        &mut Device::new(&mut out),
    );
    status == 1 && out.is_empty()
}

#[test]
fn gives_up_where_a_read_fails_within_a_line(rt: HostRuntime) {
    assert!(rt; is_given_up(rt.alloc()));
}
