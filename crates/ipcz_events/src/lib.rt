//! A judge of logs with events: whether the rules allow the calls that another implementation has recorded together with each act of its nodes,
//! in whatever order these come. And runs of scripts in an order of acts that a seed draws, with their logs.
#![tactic(auto)]

mod draw;
mod ending;
mod entry;
mod entry_lines;
mod header;
mod heard;
mod judged;
mod judging;
pub mod laws;
mod log_text;
mod naming;
mod obeying;
mod order;
pub mod program;
mod ran;
mod reading;
mod run;
mod run_text;
mod schedule;
mod scheduling;
mod telling;
mod verdict;
mod who;

pub use ending::Ending;
pub use entry::Entry;
pub use header::{Header, header_in};
pub use judged::Judged;
pub use judging::{first_refused, judge};
pub use log_text::judge_log;
pub use order::Order;
pub use ran::Ran;
pub use reading::entry_in;
pub use schedule::Schedule;
pub use scheduling::read_schedule;
pub use verdict::Verdict;
