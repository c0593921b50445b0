//! What a judge of calls says of a log.

/// What a judge says of a log.
#[derive(Clone, Copy, Debug, PartialEq, Eq)]
pub enum Verdict {
    /// The promise allows each call, with its answer.
    Allowed,
    /// It allows the calls before this line, and not those up to it. Lines are counted from 1, which is the header.
    Refused(u64),
    /// Of several logs: no order of all lines that keeps each log's own is allowed. The number is that of the first line which isn't in the longest order
    /// of first lines of each log that was found to be allowed.
    NoOrder(u64),
    /// Of several logs: so many steps weren't enough to find an order that is allowed, or that there is none. Nothing is said of them.
    Untold,
    /// The calls before this line are allowed, and this one is no line of a log (or, if it is the first, no header).
    NoLog(u64),
}
