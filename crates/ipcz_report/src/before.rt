//! What the commands before one have done with the portals that it names.

use ipcz_script::{Command, Text};
use std::alloc::{AllocError, Global};
use std::collections::BTreeMap;

/// Which portals the commands of a script have opened and closed so far, by their names.
#[derive(Drop)]
pub struct Before {
    alloc: Global,
    nodes: u8,
    peers: BTreeMap<String, String>,
    closed: BTreeMap<String, usize>,
}

// Whether a byte is the number of a node.
fn is_node(nodes: u8, byte: u8) -> bool {
    byte.is_ascii_digit() && byte - b'0' < nodes
}

// Whether a name is that of a first pair's portal.
fn is_first(nodes: u8, name: &[u8]) -> bool {
    match name {
        [here, b'>', there] => is_node(nodes, *here) && is_node(nodes, *there) && here != there,
        _ => false,
    }
}

// Whether a name is that of a first pair's portal turned round.
fn is_turned(one: &[u8], other: &[u8]) -> bool {
    match (one, other) {
        ([here, b'>', there], [from, b'>', to]) => here == to && there == from,
        _ => false,
    }
}

impl Before {
    /// No command has opened or closed a portal yet; there are those of the first pairs.
    pub fn new(alloc: Global, nodes: u8) -> Self {
        Before {
            alloc,
            nodes,
            peers: BTreeMap::new(alloc),
            closed: BTreeMap::new(alloc),
        }
    }

    /// Whether a portal of this name was opened, or is one of a first pair.
    pub fn has(&self, name: &Text) -> bool {
        is_first(self.nodes, name.as_bytes()) || self.peers.contains_key(name.as_str())
    }

    /// Whether these are the names of the two portals of one pair.
    pub fn are_pair(&self, one: &Text, other: &Text) -> bool {
        if is_first(self.nodes, one.as_bytes()) {
            return is_turned(one.as_bytes(), other.as_bytes());
        }
        match self.peers.get(one.as_str()) {
            Some(peer) => peer.as_str() == other.as_str(),
            None => false,
        }
    }

    /// The number of the first command that closes the portal of this name.
    pub fn closed_by(&self, name: &Text) -> Option<usize> {
        self.closed.get(name.as_str()).copied()
    }

    fn join(&mut self, name: &Text, peer: &Text) -> Result<(), AllocError> {
        let name = String::from_str(self.alloc, name.as_str())?;
        let peer = String::from_str(self.alloc, peer.as_str())?;
        self.peers.insert(name, peer)?;
        Ok(())
    }

    /// Takes in what one more command, which has this number, opens or closes.
    pub fn note(&mut self, number: usize, command: &Command) -> Result<(), AllocError> {
        match command {
            Command::Open { first, second, .. } => {
                self.join(first, second)?;
                self.join(second, first)
            }
            Command::Close { at } if self.closed_by(at).is_none() => {
                let name = String::from_str(self.alloc, at.as_str())?;
                self.closed.insert(name, number)?;
                Ok(())
            }
            _ => Ok(()),
        }
    }
}
