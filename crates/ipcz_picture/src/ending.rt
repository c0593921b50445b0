//! What came of a transcript.

/// A picture was drawn, or the line of a number was refused, 0 if the transcript is too long.
#[derive(Clone, Copy, Debug, PartialEq, Eq)]
pub enum Ending {
    Drawn,
    Refused(usize),
}
