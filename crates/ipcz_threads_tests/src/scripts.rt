//! Scripts on one thread.

use crate::cases::{cases, gives};
use ipcz_device::Device;
use ipcz_script::{Outcome, RunFault, ScriptFault, run_script};
use std::alloc::Global;

// Runs the script, with its transcript behind what `out` holds.
fn run(alloc: Global, script: &[u8], out: &mut Vec<u8>) -> Result<Outcome, RunFault> {
    let mut reader = Device::new(script);
    let mut writer = Device::new(out);
    run_script(alloc, &mut reader, &mut writer)
}

// Whether a script ends so, and writes this.
fn ends(alloc: Global, script: &[u8], want: Outcome, text: &str) -> bool {
    let mut out = Vec::new(alloc);
    let ending = run(alloc, script, &mut out);
    ending == Ok(want) && out.as_slice() == text.as_bytes()
}

// The first case that ends or writes otherwise.
fn first_other_case(alloc: Global) -> Option<usize> {
    for (i, case) in cases().iter().enumerate() {
        if !ends(
            alloc,
            case.script.as_bytes(),
            case.outcome(),
            case.transcript,
        ) {
            return Some(i);
        }
    }
    None
}

#[test]
fn writes_the_transcripts_of_worked_scripts(rt: HostRuntime) {
    gives(&rt, first_other_case(rt.alloc()), None);
}

// Bytes that are no script, the fault that they have, and what is written.
static NO_SCRIPTS: [(&[u8], ScriptFault, &str); 4] = [
    (br#"{"nodes":2,"#, ScriptFault::NotJson, "refused NotJson\n"),
    (
        br#"{"nodes":1,"words":0,"commands":[["fly"]]}"#,
        ScriptFault::BadShape(1),
        "refused BadShape 1\n",
    ),
    (
        br#"{"nodes":1,"words":1,"commands":[["open",0,"x","y"],["fly"],["get"]]}"#,
        ScriptFault::BadShape(2),
        "refused BadShape 2\n",
    ),
    (
        br#"{"nodes":1,"commands":[]}"#,
        ScriptFault::BadShape(0),
        "refused BadShape 0\n",
    ),
];

// The first of them that ends or writes otherwise.
fn first_other_fault(alloc: Global) -> Option<usize> {
    for (i, (script, why, text)) in NO_SCRIPTS.iter().enumerate() {
        if !ends(alloc, *script, Outcome::Refused(*why), *text) {
            return Some(i);
        }
    }
    None
}

// Whether so many blanks are too long.
fn are_too_long(alloc: Global, count: usize) -> bool {
    match vec![in alloc; b' '; count] {
        Ok(blanks) => ends(
            alloc,
            &blanks,
            Outcome::Refused(ScriptFault::TooLong),
            "refused TooLong\n",
        ),
        Err(_) => false,
    }
}

#[test]
fn says_why_bytes_are_no_script(rt: HostRuntime) {
    gives(&rt, first_other_fault(rt.alloc()), None);
    assert!(rt; are_too_long(rt.alloc(), 1_048_577));
}
