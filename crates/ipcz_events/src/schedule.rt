//! A script that is run in a drawn order of acts.
use crate::order::Order;
use ipcz_base::Sequence;

/// A script that is run in a drawn order of acts: how many nodes and link words its world has, within the limits of scripts, and the commands in
/// the order in which they are run.
#[derive(Debug, Drop)]
pub struct Schedule {
    pub nodes: u8,
    pub words: u32,
    pub orders: Sequence<Order>,
}
