//! The promise of the portals, one page (specs/Promise), carried by calls on a world.
#![tactic(auto)]

mod calls;
pub mod laws;

pub use calls::{
    add_words, close, get, holder_of, is_quiet, new_world, open, play, put, put_wide, ready_from,
    retry, run, settle, step, turn, words_left,
};
