//! The markup of a picture: a writer whose documents are well formed, shapes, and how they look.
#![tactic(auto)]

mod arrow_looks;
mod class;
mod shapes;
pub mod style;
mod writer;

pub use arrow_looks::{Look, Stroke};
pub use class::Class;
pub use writer::{Key, Tag, Writer};
