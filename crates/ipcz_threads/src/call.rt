//! The calls on a node's cell.
use ipcz_base::{Bytes, End, Ends};

/// A call on a node's cell.
#[derive(Drop)]
pub(crate) enum Call {
    Open,
    Put { at: End, bytes: Bytes, ends: Ends },
    Get { at: End },
    Close { at: End },
    Turn,
}
