//! What is said of a line of a text.
use ipcz_base::{Bytes, Sequence};
use ipcz_node::Act;

// What is said of the next line of a text.
#[derive(Drop)]
pub(crate) enum Heard {
    // The rules allow it.
    Allowed,
    // They don't: a text that is allowed in its place, if one is told, and the acts that its node could take.
    Refused(Option<Bytes>, Sequence<Act>),
    // It is no line of a log.
    NoLine,
}
