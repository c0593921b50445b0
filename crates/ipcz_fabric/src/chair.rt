//! A chair of a node, on which a get sleeps until something comes.
use ipcz_base::End;

/// A chair of a node.
#[derive(Clone, Copy)]
pub(crate) enum Chair {
    /// Nobody sits there.
    Free,
    /// Who sits there sleeps until something comes at this end.
    Waits(End),
    /// Who sits there was woken, since something has come.
    Woken,
}
