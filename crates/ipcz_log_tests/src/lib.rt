//! Tests of logs: what is said of them, with what docs/JUDGE.md says.
#![tactic(auto)]

#[cfg(test)]
mod orders;
#[cfg(test)]
mod pieces;
#[cfg(test)]
mod statuses;
#[cfg(test)]
mod verdicts;
