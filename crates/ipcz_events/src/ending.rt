//! How a run ends whose order of acts is drawn.
use ipcz_base::Sequence;
use ipcz_node::Act;

/// How the run of a script ends whose order of acts is drawn.
#[derive(Debug, Drop)]
pub enum Ending {
    /// Behind its last command.
    Whole,
    /// Before this command, counted from 1, which asks for an act that its node can't take there. These are those that it can take.
    Stopped {
        command: u64,
        possible: Sequence<Act>,
    },
}
