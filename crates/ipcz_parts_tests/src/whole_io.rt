//! A device read and written whole, in small pieces.

use ipcz_device::slow::{SlowReader, SlowWriter};
use ipcz_device::{Device, Fault, read_up_to, write_whole};
use std::alloc::Global;

// Whether up to so many bytes of a device that gives one at a time are these, or none if a read fails.
fn reads(alloc: Global, limit: usize, reads_left: usize, want: Option<&[u8]>) -> bool {
    let mut reader = Device::new(SlowReader {
        bytes: b"settled".as_slice(),
        at_once: 1,
        reads_left,
    });
    match read_up_to(alloc, &mut reader, limit) {
        Ok(bytes) => Some(bytes.as_slice()) == want,
        Err(why) => why == Fault::Read && want.is_none() && reader.failed(),
    }
}

#[test]
fn reads_to_the_end(rt: HostRuntime) {
    for (limit, reads_left, want) in [
        (9, 9, Some(b"settled".as_slice())),
        (3, 3, Some(b"set".as_slice())),
        (9, 7, None),
    ] {
        assert!(rt; reads(rt.alloc(), limit, reads_left, want));
    }
}

// Whether a device that takes three bytes at a time, so many times, is written whole.
fn is_written(taken: &mut Vec<u8>, writes_left: usize, ends_well: bool) -> bool {
    let mut writer = Device::new(SlowWriter {
        taken,
        at_once: 3,
        writes_left,
        fails: false,
    });
    let ending = write_whole(&mut writer, b"settled");
    ending.is_ok() == ends_well && writer.failed() != ends_well
}

// The same, and whether it has taken these bytes.
fn writes(alloc: Global, writes_left: usize, want: &[u8], ends_well: bool) -> bool {
    let mut taken = Vec::new(alloc);
    is_written(&mut taken, writes_left, ends_well) && taken.as_slice() == want
}

#[test]
fn writes_to_the_end(rt: HostRuntime) {
    for (writes_left, want, ends_well) in [
        (3, b"settled".as_slice(), true),
        (2, b"settle".as_slice(), false),
    ] {
        assert!(rt; writes(rt.alloc(), writes_left, want, ends_well));
    }
}
