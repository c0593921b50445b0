//! A line of one of several logs.
use crate::line::Line;

/// A line of one of several logs, of which only the order within each log is known (docs/JUDGE.md, "Several logs").
#[derive(Debug, Drop)]
pub struct Entry {
    /// The log that it stands in: they are numbered from 0 to 63.
    pub log: u8,
    /// The caller's own number of the line, by which it is told; no rule looks at it.
    pub number: u64,
    pub line: Line,
}
