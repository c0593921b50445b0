//! Nodes that threads share: a hub keeps the cells of a table (`ipcz_cell`), a lock round each, and callers have portals in place of ends
//! (docs/THREADS.md). What a caller needs of cells is passed on.
#![tactic(auto)]

mod caller;
mod chair;
mod chair_bells;
mod comings;
mod deadline;
mod desk;
mod hub;
mod missed;
mod portal;
mod portal_note;
mod portal_set;
mod portals;
mod readiness;
mod rest;
mod scoped;
mod selecting;
mod sorting;
mod waiting_room;
mod workers;

pub use caller::Caller;
pub use hub::Hub;
pub use ipcz_cell::{
    Bells, Blank, Fabric, FabricName, NodeCell, Retry, Ticket, finish, start, start_lasting,
};
pub use missed::Missed;
pub use portal::{Got, Portal, PortalPutRefused};
pub use portal_set::PortalSet;
pub use portals::{Arrival, Portals};
pub use scoped::ScopedPortal;
pub use selecting::NoneGot;
pub use workers::{Gate, Worker, run_worker, work, work_waiting};
