//! What the lines of a transcript tell: the messages between nodes, and the routers.
#![tactic(auto)]

pub mod calls;
pub mod closes;
pub mod ends;
pub mod messages;
pub mod moves;
pub mod named;
pub mod origins;
pub mod routers;
