//! How a measurement fails.
use ipcz_base::Refusal;
use std::alloc::{AllocError, AllocFailed};
use std::io;

/// Why there is no number.
#[derive(Clone, Copy, Debug)]
pub enum Fault {
    /// The arguments name no measure.
    Usage,
    /// A call of the world was refused, or answered what it can't answer in a measure.
    Refused(Refusal),
    /// The clock, the arguments or the process's own figures couldn't be read.
    System,
}

impl From<Refusal> for Fault {
    fn from(why: Refusal) -> Fault {
        Fault::Refused(why)
    }
}

impl From<AllocError> for Fault {
    fn from(_: AllocError) -> Fault {
        Fault::Refused(Refusal::OutOfMemory)
    }
}

impl<T: Drop> From<AllocFailed<T>> for Fault {
    fn from(_: AllocFailed<T>) -> Fault {
        Fault::Refused(Refusal::OutOfMemory)
    }
}

impl From<io::Error> for Fault {
    fn from(_: io::Error) -> Fault {
        Fault::System
    }
}
