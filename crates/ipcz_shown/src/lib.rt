//! What a table that cells share shows, told by the page of the promise (specs/Promise of `ipcz_promise`).
#![tactic(auto)]

pub mod laws;
