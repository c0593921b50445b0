//! A message on its way to a node.
use ipcz_base::Message;

/// A message with the node that it goes to.
#[derive(Debug, Drop)]
pub struct Sending {
    pub to: u8,
    pub message: Message,
}
