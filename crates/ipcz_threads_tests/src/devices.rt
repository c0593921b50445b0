//! Devices that fail at each of their calls in turn.

use crate::one_bypass::{TRANSCRIPT, script};
use ipcz_device::Device;
use ipcz_device::slow::{SlowReader, SlowWriter};
use ipcz_script::{Outcome, RunFault, run_script};
use std::alloc::Global;
use std::test::Fail;

// Whether the run of some bytes of which so many are read at once ends so, and writes this, if so many reads are made.
fn ends_after_reads(
    alloc: Global,
    bytes: &[u8],
    at_once: usize,
    reads_left: usize,
    want: Result<Outcome, RunFault>,
    text: &[u8],
) -> bool {
    let mut out = Vec::new(alloc);
    let ending = run_script(
        alloc,
        &mut Device::new(SlowReader {
            bytes,
            at_once,
            reads_left,
        }),
        &mut Device::new(&mut out),
    );
    ending == want && out.as_slice() == text
}

// The first read that may fail without a fault of the run: the one after the last.
fn first_unread(alloc: Global, bytes: &[u8], at_once: usize, reads: usize) -> Option<usize> {
    for reads_left in 0..reads {
        if !ends_after_reads(alloc, bytes, at_once, reads_left, Err(RunFault::Read), b"") {
            return Some(reads_left);
        }
    }
    None
}

// Whether a read that fails is a fault of the run, up to the last of so many.
fn each_read_counts(alloc: Global, bytes: &[u8], at_once: usize, reads: usize) -> bool {
    let text = TRANSCRIPT.as_bytes();
    first_unread(alloc, bytes, at_once, reads).is_none()
        && ends_after_reads(alloc, bytes, at_once, reads, Ok(Outcome::Done), text)
}

// The script is 245 bytes long; after the last of them a read finds the end.
#[test]
fn nothing_is_written_after_a_read_that_fails(rt: HostRuntime) -> Result<(), Fail> {
    let bytes = script(rt.alloc(), None)?;
    for (at_once, reads) in [(1, 246), (7, 36), (244, 3)] {
        assert!(rt;
            each_read_counts(rt.alloc(), &bytes, at_once, reads),
            "{at_once}"
        );
    }
    Ok(())
}

// Whether the run of some bytes ends so, and writes this, if so many writes are made of so many bytes each; the next one fails, or
// takes none.
fn ends_after_writes(
    alloc: Global,
    bytes: &[u8],
    fails: bool,
    at_once: usize,
    writes_left: usize,
    want: Result<Outcome, RunFault>,
) -> bool {
    let mut out = Vec::new(alloc);
    let ending = run_script(
        alloc,
        &mut Device::new(bytes),
        &mut Device::new(SlowWriter {
            taken: &mut out,
            at_once,
            writes_left,
            fails,
        }),
    );
    let text = TRANSCRIPT.as_bytes();
    let length = text.len().min(at_once.saturating_mul(writes_left));
    let (front, _) = text.split_at(length);
    ending == want && out.as_slice() == front
}

// The first write that may fail without a fault of the run: the one after the last.
fn first_unwritten(
    alloc: Global,
    bytes: &[u8],
    fails: bool,
    at_once: usize,
    writes: usize,
) -> Option<usize> {
    for writes_left in 0..writes {
        if !ends_after_writes(
            alloc,
            bytes,
            fails,
            at_once,
            writes_left,
            Err(RunFault::Write),
        ) {
            return Some(writes_left);
        }
    }
    None
}

// Whether a write that fails, or takes nothing, is a fault of the run, up to the last of so many.
fn each_write_counts(
    alloc: Global,
    bytes: &[u8],
    fails: bool,
    at_once: usize,
    writes: usize,
) -> bool {
    first_unwritten(alloc, bytes, fails, at_once, writes).is_none()
        && ends_after_writes(alloc, bytes, fails, at_once, writes, Ok(Outcome::Done))
}

// The transcript is 685 bytes long.
#[test]
fn a_front_is_written_before_a_write_that_fails_or_takes_nothing(
    rt: HostRuntime,
) -> Result<(), Fail> {
    let bytes = script(rt.alloc(), None)?;
    for (at_once, writes) in [(3, 229), (100, 7), (684, 2)] {
        let fail = each_write_counts(rt.alloc(), &bytes, true, at_once, writes);
        let take_nothing = each_write_counts(rt.alloc(), &bytes, false, at_once, writes);
        assert!(rt; fail && take_nothing, "{at_once}");
    }
    Ok(())
}
