//! `ipcz_check` reads a script of `ipcz_run` from standard input, and writes to standard output what is wrong with it and where, or what
//! each of its commands does.
//!
//! All but its arguments and devices stands in `ipcz_report`.
#![tactic(auto)]

use ipcz_device::Device;
use ipcz_report::program::{asked_for, run_program};
use std::io;
use std::process::ExitCode;

fn main(rt: HostRuntime) -> ExitCode {
    let mut reader = Device::new(rt.reader());
    let mut writer = Device::new(io::writer(&rt));
    ExitCode::from(run_program(rt.alloc(), asked_for(&rt), &mut reader, &mut writer))
}
