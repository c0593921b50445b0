//! What a judge says of a whole text.
use ipcz_base::{Bytes, Sequence};
use ipcz_node::Act;

/// What a judge says of the text of a log with events.
#[derive(Debug, Drop)]
pub enum Verdict {
    /// The rules allow each line.
    Allowed,
    /// They allow the lines before this one, and not those up to it. Lines are counted from 1, which is the header. If there is a text, the rules
    /// allow the line with it in place of its own, as `Judged::Refused` tells. Of an act all that its node could take there is told, too, each
    /// once; of a call, and of a node that isn't there, nothing.
    Refused {
        line: u64,
        instead: Option<Bytes>,
        possible: Sequence<Act>,
    },
    /// The lines before this one are allowed, and it is no line of a log (or, if it is the first, no header).
    NoLog(u64),
}
