//! Tests of the lines of a transcript, and of what they tell, through the public calls of `ipcz_lines` and `ipcz_messages`. They stand in a
//! crate of their own, so that these are proved once.
//!
//! Nothing is promised of the functions here: a test's own proof would else work out what each transcript tells. So a test is a list
//! of rows, which a function goes over up to the first that differs.
#![tactic(auto)]

#[cfg(test)]
mod closes;
#[cfg(test)]
mod lines;
#[cfg(test)]
mod messages;
#[cfg(test)]
mod named;
#[cfg(test)]
mod portals;
#[cfg(test)]
mod receivers;
#[cfg(test)]
mod routers;
#[cfg(test)]
mod told;
