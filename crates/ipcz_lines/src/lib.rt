//! The lines of a transcript of `ipcz_run`: which bytes are one, and what each says.
#![tactic(auto)]

mod line;

pub use line::{
    Answer, End, Event, Fault, Kind, LONGEST, Line, Link, ReadLine, Refusal, RouterEvent, Side,
    Unread, Way, WordStep, end, halves, number, read, read_event, word,
};
