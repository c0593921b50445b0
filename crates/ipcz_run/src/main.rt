//! `ipcz_run` reads a script from standard input, runs it, and writes its transcript to standard output.
//!
//! All but its arguments and devices stands in `ipcz_threads`.
#![tactic(auto)]

use ipcz_device::Device;
use ipcz_threads::program::{asked_for, run_program};
use std::io;
use std::process::ExitCode;

fn main(rt: HostRuntime) -> ExitCode {
    let mut reader = Device::new(rt.reader());
    let mut writer = Device::new(io::writer(&rt));
    ExitCode::from(run_program(&rt, rt.alloc(), asked_for(&rt), &mut reader, &mut writer))
}
