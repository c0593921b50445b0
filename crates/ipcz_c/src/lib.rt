//! The portal routers for C: a world behind a handle, and the calls on it; and cells of nodes, each behind a handle of its own.
#![tactic(auto)]

mod calls;
mod cell_handle;
mod cell_making;
mod cell_pointer;
mod cells;
mod handle;
mod making;
mod member;
mod parts;
mod pointer;
mod portal;
mod status;
mod tell;

pub use cell_handle::CellHandle;
pub use cell_pointer::CellPointer;
pub use handle::Handle;
pub use member::Member;
pub use pointer::WorldPointer;
pub use portal::{Portal, Seen};
