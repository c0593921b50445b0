//! The world: nodes, the link words that they share and the mailboxes between them; and the laws of worlds and of their runs.
#![tactic(auto)]

pub mod laws;
mod link_words;
mod mail;
mod mailboxes;
mod nodes;
mod state;
mod step;
mod tallies;
mod word_answers;
mod world;

pub use mail::Mail;
pub use step::{NotTaken, Reply, Settled, Step};
pub use word_answers::{Answered, answer_act};
pub use world::World;
