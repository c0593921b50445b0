//! Logs of calls, a JSON value a line: how they are read, and what a judge says of them.
#![tactic(auto)]

mod answers;
mod header;
mod judging;
mod lines;
pub mod program;
mod reading;
mod verdict;

pub use header::Header;
pub use judging::judge_log;
pub use verdict::Verdict;
