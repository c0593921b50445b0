//! What is said of a line of a log.
use ipcz_base::Bytes;

/// What is said of the next line of a log with events.
#[derive(Debug, Drop)]
pub enum Judged {
    /// The rules allow it.
    Allowed,
    /// They don't. If there is a text, the line is allowed with it in place of its own; if there is none, it is no call, or no act that the event
    /// begins with can be taken.
    Refused(Option<Bytes>),
}
