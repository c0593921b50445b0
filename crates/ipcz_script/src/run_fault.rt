//! How a run fails.
use ipcz_device::Fault;
use std::alloc::{AllocError, AllocFailed};
use thiserror::Error;

/// Why a run of a script was given up (docs/PROTOCOL.md, "Devices").
///
/// `Read` and `Write`: a call of the reader or the writer failed. `OutOfMemory`: no memory was found, and nothing was
/// written.
#[derive(Clone, Copy, Debug, PartialEq, Eq, Error)]
pub enum RunFault {
    #[error("the script couldn't be read")]
    Read,
    #[error("the transcript couldn't be written")]
    Write,
    #[error("no memory was found")]
    OutOfMemory,
}

impl From<AllocError> for RunFault {
    ghost use Rattle.std.specs.Prelude.{◌≡◌};
    ghost use Rattle.ipcz_script.specs.declared.run_fault.RunFault.TheVariants.{OutOfMemory};

    ghost from_gives = { λ _ fault. fault ≡ OutOfMemory };

    fn from(_error: AllocError) -> RunFault {
        RunFault::OutOfMemory
    }
}

impl<T: Drop> From<AllocFailed<T>> for RunFault {
    ghost use Rattle.std.specs.Prelude.{◌≡◌};
    ghost use Rattle.ipcz_script.specs.declared.run_fault.RunFault.TheVariants.{OutOfMemory};

    ghost from_gives = { λ _ fault. fault ≡ OutOfMemory };

    fn from(_error: AllocFailed<T>) -> RunFault {
        RunFault::OutOfMemory
    }
}

impl From<Fault> for RunFault {
    ghost use Rattle.std.specs.Prelude.{◌≡◌};
    ghost use Rattle.ipcz_script.specs.Faults.{run_fault};

    ghost from_gives = { λ fault given. given ≡ run_fault fault };

    fn from(fault: Fault) -> RunFault {
        match fault {
            Fault::Read => RunFault::Read,
            Fault::Write => RunFault::Write,
            Fault::OutOfMemory => RunFault::OutOfMemory,
        }
    }
}
