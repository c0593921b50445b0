//! A node: its routers, what it has to send, and what it does with what comes.
#![tactic(auto)]

mod act;
mod batch;
mod directory;
mod flags;
mod happened;
mod held_ends;
mod index;
mod link_place;
mod node_set;
mod numbered;
mod outbox;
mod outboxes;
mod routers;
mod serial_ring;
mod sorted_set;
mod spare;
mod state;

pub use act::{Act, MailSeen};
pub use batch::Batch;
pub use happened::{Handed, Happened};
pub use node_set::{NodeSet, next_set};
pub use outbox::Outbox;
pub use state::{NodeState, PutRefused, Told, first_pair_count};
