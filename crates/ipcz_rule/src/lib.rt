//! The rule of the one table that the nodes of a fabric share: what its words, slots and views show, and each kind of atomic step on it.
#![tactic(auto)]

pub mod batch_mail;
pub mod batches;
mod history;
pub mod kinds;
pub mod lasting;
mod law;
pub mod laws;
mod node;
mod retry;
mod view;

pub use history::{Call, CallerView, Entry};
pub use law::{FabricLaw, Size};
pub use node::PlainNode;
pub use retry::Retry;
pub use view::{Part, View};
