//! What a report says of some bytes.
use ipcz_script::ScriptFault;

/// What is said of some bytes: they are a script, or why they are none.
#[derive(Clone, Copy, Debug, PartialEq, Eq)]
pub enum Verdict {
    Valid,
    Refused(ScriptFault),
}
