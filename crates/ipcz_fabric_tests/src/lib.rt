//! Tests of cells, and of hubs, portals and workers, through their public calls. They stand in a crate of their own, so that `ipcz_cell` and
//! `ipcz_fabric` are proved once, and in one, so that the drops of what a cell holds are.
#![tactic(auto)]

#[cfg(test)]
mod batches;
#[cfg(test)]
mod cell_tables;
#[cfg(test)]
mod cell_waits;
#[cfg(test)]
mod cells;
#[cfg(test)]
mod closes;
#[cfg(test)]
mod counts;
#[cfg(test)]
mod ends;
#[cfg(test)]
mod getters;
#[cfg(test)]
mod hub_tables;
#[cfg(test)]
mod hub_waits;
#[cfg(test)]
mod hubs;
#[cfg(test)]
mod lasting;
#[cfg(test)]
mod locks;
#[cfg(test)]
mod opens;
#[cfg(test)]
mod owned;
#[cfg(test)]
mod portals;
#[cfg(test)]
mod race;
#[cfg(test)]
mod readiness;
#[cfg(test)]
mod retries;
#[cfg(test)]
mod selecting;
#[cfg(test)]
mod talking;
#[cfg(test)]
mod wide_cells;
