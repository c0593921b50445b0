//! `ipcz_judge_events` reads from standard input a log of the calls and of the nodes' acts of another implementation, and writes to standard output
//! whether the rules allow it, and if not, which is the first line that they don't (docs/JUDGE.md, "Events"). With the argument `run` it reads a script,
//! and writes the log of a run of it whose order of acts is drawn.
//!
//! All but its arguments and devices stands in `ipcz_events`.
#![tactic(auto)]

use ipcz_device::Device;
use ipcz_events::program::{asked_for, run_program};
use std::io;
use std::process::ExitCode;

fn main(rt: HostRuntime) -> ExitCode {
    let mut reader = Device::new(rt.reader());
    let mut writer = Device::new(io::writer(&rt));
    ExitCode::from(run_program(rt.alloc(), asked_for(&rt), &mut reader, &mut writer))
}
