//! A script as it was read.
use crate::command::Command;
use ipcz_base::Sequence;

/// A script: how many nodes and link words its world has, and the commands in the order in which they are run
/// (docs/SCRIPTS.md, "The script").
///
/// `nodes` is from 1 to 8, and `words` from the number of first pairs to 4096, which is the limit of scripts and not that of worlds.
#[derive(Debug, Drop)]
pub struct Script {
    pub nodes: u8,
    pub words: u32,
    pub commands: Sequence<Command>,
}
