//! Why bytes are no script.
use std::alloc::{AllocError, AllocFailed};
use thiserror::Error;

/// Why some bytes are no script, or that no memory was found to read them (docs/SCRIPTS.md, "The script").
///
/// `NotJson`: the bytes are no JSON text. `BadShape(0)`: the JSON value is no object of the three members. `BadShape(n)`:
/// the command with the number `n`, counted from 1, is the first that has none of the shapes. `TooLong`: there are more
/// than 1,048,576 bytes.
#[derive(Clone, Copy, Debug, PartialEq, Eq, Error)]
pub enum ScriptFault {
    #[error("the script isn't JSON")]
    NotJson,
    #[error("command {0} of the script has no known shape")]
    BadShape(u32),
    #[error("the script has more than 1048576 bytes")]
    TooLong,
    #[error("no memory was found")]
    OutOfMemory,
}

impl From<AllocError> for ScriptFault {
    ghost use Rattle.std.specs.Prelude.{◌≡◌};
    ghost use Rattle.ipcz_script.specs.declared.script_fault.ScriptFault.TheVariants.{OutOfMemory};

    ghost from_gives = { λ _ fault. fault ≡ OutOfMemory };

    fn from(_error: AllocError) -> ScriptFault {
        ScriptFault::OutOfMemory
    }
}

impl<T: Drop> From<AllocFailed<T>> for ScriptFault {
    ghost use Rattle.std.specs.Prelude.{◌≡◌};
    ghost use Rattle.ipcz_script.specs.declared.script_fault.ScriptFault.TheVariants.{OutOfMemory};

    ghost from_gives = { λ _ fault. fault ≡ OutOfMemory };

    fn from(_error: AllocFailed<T>) -> ScriptFault {
        ScriptFault::OutOfMemory
    }
}
