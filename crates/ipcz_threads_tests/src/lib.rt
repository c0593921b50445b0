//! Tests of scripts, on one thread and with their settles on threads: what is read and printed, whole ones from bytes to bytes, input that is
//! cut or short of a part, and devices that fail. And of the three programs but for their devices: what arguments ask for, what is written,
//! and with which status each ends. They stand in a crate of their own, so that `ipcz_script` and the programs are proved once.
//!
//! Nothing is promised of the functions here, and most of what is wanted stands in lists: a test's own proof would else work out each
//! of them.
#![tactic(auto)]

#[cfg(test)]
mod arguments;
#[cfg(test)]
mod cases;
#[cfg(test)]
mod check;
#[cfg(test)]
mod cut;
#[cfg(test)]
mod devices;
#[cfg(test)]
mod draw;
#[cfg(test)]
mod events;
#[cfg(test)]
mod labels;
#[cfg(test)]
mod lines;
#[cfg(test)]
mod one_bypass;
#[cfg(test)]
mod reading;
#[cfg(test)]
mod run;
#[cfg(test)]
mod scripts;
#[cfg(test)]
mod threads;
