//! Scripts whose settles run a thread for each node (docs/THREADS.md, "Scripts on threads"), and the program `ipcz_run` but for its
//! arguments and devices.
#![tactic(auto)]

mod call;
mod lending;
pub mod program;
mod run;
mod session;
mod worker;
mod workers;

pub use run::{run_gated, run_threads};
