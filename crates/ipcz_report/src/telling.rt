//! What is said of a command.

use crate::before::Before;
use crate::doubts::push_doubts;
use ipcz_script::{Command, Text};
use std::alloc::AllocError;
use std::io;
use std::io::Write;

// Writes the names of a put's portals.
fn push_names(out: &mut Vec<u8>, names: &[Text]) -> io::Result<()> {
    let mut between = " with the portals ";
    for name in names {
        write!(out, "{between}")?;
        out.write_all(name.as_bytes())?;
        between = ", ";
    }
    Ok(())
}

// Writes what a command does.
fn push_deed(out: &mut Vec<u8>, command: &Command) -> io::Result<()> {
    match command {
        Command::Open {
            node,
            first,
            second,
        } => {
            write!(out, "opens the pair ")?;
            out.write_all(first.as_bytes())?;
            write!(out, " and ")?;
            out.write_all(second.as_bytes())?;
            write!(out, " on node {node}")
        }
        Command::Put { at, data, ends } => {
            let length = data.len();
            write!(out, "puts a parcel of length {length} at ")?;
            out.write_all(at.as_bytes())?;
            push_names(out, ends.as_slice())
        }
        Command::Get { at } => {
            write!(out, "gets the next parcel at ")?;
            out.write_all(at.as_bytes())
        }
        Command::Close { at } => {
            write!(out, "closes ")?;
            out.write_all(at.as_bytes())
        }
        Command::Turn { node, count } => {
            write!(out, "lets node {node} take turns, at most {count}")
        }
        Command::Settle { limit } => {
            write!(
                out,
                "lets all nodes act until they rest, at most {limit} times"
            )
        }
        Command::Show => write!(out, "prints the link words"),
    }
}

/// Writes what a command does, and what is to be said of its names and its parcel.
pub fn push_command(
    out: &mut Vec<u8>,
    before: &Before,
    command: &Command,
) -> Result<(), AllocError> {
    let (Ok(()), Ok(())) = (push_deed(out, command), push_doubts(out, before, command)) else {
        return Err(AllocError);
    };
    Ok(())
}
