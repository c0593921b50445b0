//! Devices: readers and writers that remember whether a call of them failed, read and written as a whole.
#![tactic(auto)]

mod device;
mod fault;
pub mod slow;
mod whole_io;

pub use device::Device;
pub use fault::Fault;
pub use whole_io::{read_up_to, write_whole};
