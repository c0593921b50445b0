//! Places in a text: the line and column of an offset, where the values of a JSON text begin, where a text stops being JSON, and what to show of it.
#![tactic(auto)]

mod broken;
mod number;
mod place;
mod quoted;
mod shown;
mod values;
mod walk;

pub use broken::{Broken, JsonFault};
pub use place::{Place, place_at, start};
pub use shown::{push_excerpt, push_shown};
pub use values::{Member, end_of_value, excerpt, first_value, items, members};
pub use walk::json_fault;
