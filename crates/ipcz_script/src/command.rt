//! The commands of a script.
use crate::text::Text;
use ipcz_base::Sequence;

/// One command of a script (docs/SCRIPTS.md, "The script").
///
/// A `node` is below the number of nodes, and a name is 1 to 16 bytes.
#[derive(Debug, Drop)]
pub enum Command {
    /// Makes a pair of portals on a node, and gives its side A the name `first` and its side B the name `second`.
    Open {
        node: u8,
        first: Text,
        second: Text,
    },
    /// Puts a parcel of the bytes `data` and the portals `ends` at the portal `at`.
    Put {
        at: Text,
        data: Text,
        ends: Sequence<Text>,
    },
    /// Gets a parcel at the portal `at`.
    Get {
        at: Text,
    },
    /// Closes the portal `at`.
    Close {
        at: Text,
    },
    /// Lets a node take so many turns, from 1 to 1,000,000, ended at the first that is idle.
    Turn {
        node: u8,
        count: u32,
    },
    /// Lets the nodes act until they have nothing left to do, and at most `limit` times, from 0 to 1,000,000.
    Settle {
        limit: u32,
    },
    /// Writes the claimed link words.
    Show,
}
