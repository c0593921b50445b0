//! What comes of bytes that are to be run in a drawn order.
use crate::ending::Ending;
use ipcz_script::ScriptFault;

/// What came of bytes that were to be run as a script in a drawn order of acts.
#[derive(Debug, Drop)]
pub enum Ran {
    /// They are a script, and its run ended so.
    Ended(Ending),
    /// They are none, for this reason.
    Refused(ScriptFault),
}
