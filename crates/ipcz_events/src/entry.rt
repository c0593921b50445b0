//! The lines of a log with events.
use ipcz_script::{Command, Text};

/// One line of a log with events (docs/JUDGE.md, "Events").
#[derive(Debug, Drop)]
pub enum Entry {
    /// A call of a caller, as a script has it, and the line of a transcript that its answer prints, without its line feed.
    Call { command: Command, line: Text },
    /// An act of a node, by what it was seen to do, as a transcript prints it behind the node.
    Acted { node: u8, event: Text },
}
