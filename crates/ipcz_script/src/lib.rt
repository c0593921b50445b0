//! Scripts: what they are made of, how they are read, and how their transcripts are written.
#![tactic(auto)]

mod command;
mod events;
mod labels;
pub mod laws;
mod lines;
mod names;
mod opened_names;
mod outcome;
mod reading;
mod run;
mod run_fault;
mod said;
mod script;
mod script_fault;
mod session;
mod shapes;
mod text;
mod titles;

pub use command::Command;
pub use events::push_event;
pub use labels::Labels;
pub use opened_names::OpenedNames;
pub use outcome::Outcome;
pub use reading::{one_reading, read_script};
pub use run::{push_answer, refused_output, run_script};
pub use run_fault::RunFault;
pub use said::Said;
pub use script::Script;
pub use script_fault::ScriptFault;
pub use session::{Session, answer_to, is_idle, is_want};
pub use shapes::{command_in, number_within, values_of};
pub use text::Text;
pub use titles::Titles;
