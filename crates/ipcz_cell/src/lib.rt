//! Nodes on one table, each with a seat of its own: a thread that owns a node's cell acts on the table without any lock
//! (docs/THREADS.md).
#![tactic(auto)]

mod acts;
mod bells;
mod callers;
mod cell;
mod claims;
mod ending;
mod fabric;
mod holds;
mod inbox;
pub mod laws;
mod letting;
mod mail;
mod making;
mod node_list;
mod opens;
mod plays;
mod quiet;
mod retry;
mod seat;
mod sizes;
mod slots;
mod turns;
mod twins;
mod waits;
mod words;

pub use bells::{Bells, Ticket};
pub use callers::{CallName, CallerSeat};
pub use cell::NodeCell;
pub use ending::finish;
pub use fabric::{Fabric, FabricName};
pub use ipcz_node::NodeSet;
pub use ipcz_rule::Retry;
pub use making::{Blank, start, start_lasting};
