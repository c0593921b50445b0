//! A judge of logs: whether the promise allows the calls that another implementation has recorded, with their answers.
#![tactic(auto)]

mod books;
mod calls;
mod entry;
mod judge;
mod line;
mod portal;
mod queue;
mod search;

pub use entry::Entry;
pub use judge::{Judge, what_is_allowed};
pub use line::Line;
pub use search::{Found, Logs};
