//! `ipcz_draw` reads a transcript of `ipcz_run` from standard input, and writes a picture of it, an SVG, to standard output; with
//! two arguments, the numbers of a first and a last line, the picture of these lines; with `--used` in front without the nodes that take no
//! part.
//!
//! All but its arguments and devices stands in `ipcz_picture`.
#![tactic(auto)]

use ipcz_device::Device;
use ipcz_picture::program::{asked_for, run_program};
use std::io;
use std::process::ExitCode;

fn main(rt: HostRuntime) -> ExitCode {
    let mut reader = Device::new(rt.reader());
    let mut writer = Device::new(io::writer(&rt));
    ExitCode::from(run_program(rt.alloc(), asked_for(&rt), &mut reader, &mut writer))
}
