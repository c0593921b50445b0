//! Tests of logs with events: which are allowed, which line of the others is the first that isn't, and what is told of that; and of runs whose order
//! of acts is drawn.
#![tactic(auto)]

#[cfg(test)]
mod logs;
#[cfg(test)]
mod runs;
#[cfg(test)]
mod told;
