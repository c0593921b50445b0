//! The commands of a script whose acts come in a drawn order.
use ipcz_script::{Command, Text};

/// A command of a script that is run in a drawn order of acts (docs/JUDGE.md, "Drawing an order of acts").
#[derive(Debug, Drop)]
pub enum Order {
    /// One that each script may have.
    Command(Command),
    /// A node takes the act that an event with these words begins with.
    Act { node: u8, words: Text },
}
