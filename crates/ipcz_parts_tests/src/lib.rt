//! Tests of what routers are made of: names and sequences of `ipcz_base`, edges, link words, and gap queues; and of devices. They stand in a
//! crate of their own, so that those crates are proved once.
#![tactic(auto)]

#[cfg(test)]
mod devices;
#[cfg(test)]
mod edges;
#[cfg(test)]
mod names;
#[cfg(test)]
mod plain_queues;
#[cfg(test)]
mod queues;
#[cfg(test)]
mod whole_io;
#[cfg(test)]
mod words;
