//! Tests of routers, nodes and worlds through their public calls. They stand in a crate of their own, so that `ipcz_router`, `ipcz_node` and
//! `ipcz_world` are proved once, and in one, so that the drops of what a world holds are.
#![tactic(auto)]

#[cfg(test)]
mod nodes;
#[cfg(test)]
mod routers;
#[cfg(test)]
mod world;
