//! What there is to say of a script: what is wrong with it and where, or what each of its commands does; and the program that says it, but
//! for its arguments and devices.
#![tactic(auto)]

mod again;
mod before;
mod doom;
mod doubts;
mod faults;
mod judging;
mod no_json;
mod outline;
pub mod program;
mod remark;
mod reporting;
mod telling;
mod values;
mod verdict;
mod words;
mod wrong;

pub use doom::{Doom, doom_of};
pub use faults::faults_of;
pub use judging::wrong_in;
pub use reporting::report;
pub use verdict::Verdict;
pub use wrong::{Fault, Key, Kind, Wanted, Wrong};
