//! What a line of a log says.
use ipcz_base::{Bytes, Refusal, Sequence};
use ipcz_script::Text;

/// One line of a log: a call that was made on a node of the recorded implementation, with its answer (docs/JUDGE.md, "A line").
///
/// The names are those of the log, and the numbers those that the implementation has answered.
#[derive(Debug, Drop)]
pub enum Line {
    /// An open: the callers of the node got two portals, which the log calls so.
    Opened {
        node: u8,
        first: Text,
        second: Text,
    },
    /// A put that was accepted, with the parcel's number at its portal.
    Put {
        node: u8,
        at: Text,
        bytes: Bytes,
        portals: Sequence<Text>,
        number: u64,
    },
    /// A get that gave a parcel, with its number. A portal in it has a name that is bound to it, or gets a new one.
    Got {
        node: u8,
        at: Text,
        bytes: Bytes,
        portals: Sequence<Text>,
        number: u64,
    },
    /// A close, with the number of parcels that were put at the portal.
    Closed {
        node: u8,
        at: Text,
        number: u64,
    },
    OpenRefused {
        node: u8,
        why: Refusal,
    },
    PutRefused {
        node: u8,
        at: Text,
        bytes: Bytes,
        portals: Sequence<Text>,
        why: Refusal,
    },
    GetRefused {
        node: u8,
        at: Text,
        why: Refusal,
    },
    CloseRefused {
        node: u8,
        at: Text,
        why: Refusal,
    },
}
