//! Routers: what an end's terminal does with the parcels of its callers, what a proxy passes on, and which act comes next.
#![tactic(auto)]

pub mod act;
mod brought;
mod filing;
mod outlook;
mod router;
mod sending;
mod source;

pub use act::{Answer, Applied, RouterAct};
pub use brought::links_brought;
pub use filing::Filing;
pub use outlook::Outlook;
pub use router::Router;
pub use sending::Sending;
pub use source::is_source;
