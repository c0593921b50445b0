//! How the run of a script ends.
use crate::script_fault::ScriptFault;

/// How a run of a script ended, whose transcript was written whole (docs/SCRIPTS.md, "The transcript").
///
/// `Unsettled`: each command was run, and some settle came to its limit. `Refused`: the bytes are no script, and the
/// transcript is the one line that says so.
#[derive(Clone, Copy, Debug, PartialEq, Eq)]
pub enum Outcome {
    Done,
    Unsettled,
    Refused(ScriptFault),
}
