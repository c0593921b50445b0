//! The picture of a transcript, an SVG: its rows, and where messages and routers stand; and the program that draws it, but for its
//! arguments and devices.
#![tactic(auto)]

mod arrow_title;
mod arrows;
pub mod bands;
mod calls;
mod ending;
mod ground;
mod heading;
mod known_words;
mod lanes;
mod lifelines;
mod marks;
mod names;
mod outboxes;
mod output;
pub mod part;
mod picture;
mod portals;
pub mod program;
mod row;
mod rows;
mod scene;
mod word_bars;
mod word_cells;
