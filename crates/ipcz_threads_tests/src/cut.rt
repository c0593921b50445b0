//! A script that is cut, or that has a command without a shape.

use crate::cases::gives;
use crate::one_bypass::{COMMANDS, TRANSCRIPT, script};
use ipcz_device::Device;
use ipcz_script::{Outcome, RunFault, ScriptFault, run_script};
use std::alloc::Global;
use std::test::Fail;

// Runs some bytes; how that ends, and what is written.
fn run(alloc: Global, bytes: &[u8]) -> (Result<Outcome, RunFault>, Vec<u8>) {
    let mut out = Vec::new(alloc);
    let ending = run_script(alloc, &mut Device::new(bytes), &mut Device::new(&mut out));
    (ending, out)
}

// Whether some bytes are refused for this fault, with this line.
fn is_refused(alloc: Global, bytes: &[u8], why: ScriptFault, line: &[u8]) -> bool {
    let (ending, out) = run(alloc, bytes);
    ending == Ok(Outcome::Refused(why)) && out.as_slice() == line
}

// The first length at which a front of the bytes isn't refused as no JSON.
fn first_read(alloc: Global, bytes: &[u8]) -> Option<usize> {
    for length in 0..bytes.len() {
        let (front, _) = bytes.split_at(length);
        if !is_refused(alloc, front, ScriptFault::NotJson, b"refused NotJson\n") {
            return Some(length);
        }
    }
    None
}

// Whether a script is run, and none of its fronts is.
fn is_whole(alloc: Global, bytes: &[u8]) -> bool {
    let (ending, out) = run(alloc, bytes);
    ending == Ok(Outcome::Done)
        && out.as_slice() == TRANSCRIPT.as_bytes()
        && first_read(alloc, bytes).is_none()
}

#[test]
fn a_script_that_is_cut_at_any_byte_is_no_json(rt: HostRuntime) -> Result<(), Fail> {
    let bytes = script(rt.alloc(), None)?;
    assert!(rt; is_whole(rt.alloc(), &bytes));
    Ok(())
}

static LINES: [&str; 15] = [
    "refused BadShape 1\n",
    "refused BadShape 2\n",
    "refused BadShape 3\n",
    "refused BadShape 4\n",
    "refused BadShape 5\n",
    "refused BadShape 6\n",
    "refused BadShape 7\n",
    "refused BadShape 8\n",
    "refused BadShape 9\n",
    "refused BadShape 10\n",
    "refused BadShape 11\n",
    "refused BadShape 12\n",
    "refused BadShape 13\n",
    "refused BadShape 14\n",
    "refused BadShape 15\n",
];

// The first command whose empty list isn't refused with its number.
fn first_empty(alloc: Global) -> Option<usize> {
    for (i, line) in LINES.iter().enumerate() {
        let Ok(bytes) = script(alloc, Some(i)) else {
            return Some(i);
        };
        let why = ScriptFault::BadShape(i as u32 + 1);
        if !is_refused(alloc, &bytes, why, line.as_bytes()) {
            return Some(i);
        }
    }
    None
}

#[test]
fn an_empty_list_for_a_command_has_no_shape(rt: HostRuntime) {
    assert_eq!(rt; LINES.len(), COMMANDS.len());
    gives(&rt, first_empty(rt.alloc()), None);
}
