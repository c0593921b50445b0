//! What is said of a command's names and of its parcel, if the command will hardly do what it is written for.

use crate::before::Before;
use crate::doom::{Doom, doom_of};
use ipcz_script::{Command, Text};
use std::io;
use std::io::Write;

// Writes that no command opens a name, if none does, behind these words, and gives those to stand before the next such name.
fn push_unknown(
    out: &mut Vec<u8>,
    before: &Before,
    name: &Text,
    words: &'static str,
) -> io::Result<&'static str> {
    if before.has(name) {
        return Ok(words);
    }
    write!(out, "{words}")?;
    out.write_all(name.as_bytes())?;
    Ok(", ")
}

// Writes which of these names no command before opens.
fn push_unknowns(out: &mut Vec<u8>, before: &Before, at: &Text, names: &[Text]) -> io::Result<()> {
    let mut words = push_unknown(out, before, at, "; no command before it opens ")?;
    for name in names {
        words = push_unknown(out, before, name, words)?;
    }
    Ok(())
}

// Writes which command closes a name, if one before does.
fn push_closed(out: &mut Vec<u8>, before: &Before, name: &Text) -> io::Result<()> {
    let Some(number) = before.closed_by(name) else {
        return Ok(());
    };
    write!(out, "; command {number} closes ")?;
    out.write_all(name.as_bytes())
}

// Why a put is refused.
fn words_of(doom: Doom) -> &'static str {
    match doom {
        Doom::TooLong => "a parcel has at most 256 bytes",
        Doom::TooMany => "a parcel takes at most 8 portals",
        Doom::Unprinted => "a byte of it isn't from 0x20 to 0x7E",
        Doom::Itself => "a portal can't travel through itself",
        Doom::Twice => "a portal is attached twice",
    }
}

// Whether one of these portals is the peer of the one that a parcel is put at.
fn has_peer(before: &Before, at: &Text, names: &[Text]) -> bool {
    names.iter().any(|name| before.are_pair(at, name))
}

// Writes why a put is refused, if it is whatever the nodes do.
fn push_doom(
    out: &mut Vec<u8>,
    before: &Before,
    at: &Text,
    data: &Text,
    names: &[Text],
) -> io::Result<()> {
    match doom_of(at, data, names) {
        Some(doom) => {
            let why = words_of(doom);
            write!(out, "; it is refused, since {why}")
        }
        None if has_peer(before, at, names) => {
            write!(
                out,
                "; it is refused, since a portal can't travel to its peer"
            )
        }
        None => Ok(()),
    }
}

/// Writes which of a command's names no command before it opens, and which one before closes; and of a put why it is refused, if it is
/// whatever the nodes do.
pub fn push_doubts(out: &mut Vec<u8>, before: &Before, command: &Command) -> io::Result<()> {
    match command {
        Command::Put { at, data, ends } => {
            push_unknowns(out, before, at, ends.as_slice())?;
            push_closed(out, before, at)?;
            for name in ends.as_slice() {
                push_closed(out, before, name)?;
            }
            push_doom(out, before, at, data, ends.as_slice())
        }
        Command::Get { at } | Command::Close { at } => {
            push_unknowns(out, before, at, &[])?;
            push_closed(out, before, at)
        }
        _ => Ok(()),
    }
}
