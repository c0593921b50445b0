//! `ipcz_judge` reads from standard input the calls that another implementation has recorded, with their answers, and writes to standard
//! output whether the promise allows them, and if not, which is the first line that it doesn't.
//!
//! All but its arguments and devices stands in `ipcz_log`.
#![tactic(auto)]

use ipcz_device::Device;
use ipcz_log::program::{asked_for, run_program};
use std::io;
use std::process::ExitCode;

fn main(rt: HostRuntime) -> ExitCode {
    let mut reader = Device::new(rt.reader());
    let mut writer = Device::new(io::writer(&rt));
    ExitCode::from(run_program(rt.alloc(), asked_for(&rt), &mut reader, &mut writer))
}
