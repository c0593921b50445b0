//! The lines of the transcript (docs/SCRIPTS.md, "The transcript").

ghost use Rattle.std.specs.Prelude.{◌≡◌, ◌++◌, OnOk, codes};
ghost use Rattle.std.specs.Fmt.{decimal};
ghost use Rattle.ipcz_script.specs.Lines.{head_of, line, lines_of, lines_of_turns, more_titles, parcel_text, refused_line, tail_of};
ghost use Rattle.ipcz_script.specs.Lines.{title_of, titles_text, turn_lines, turn_text, words_text};

use crate::command::Command;
use crate::events::push_event;
use crate::said::Said;
use crate::script_fault::ScriptFault;
use crate::titles::Titles;
use ipcz_base::{End, Parcel};
use ipcz_world::Reply;
use std::io;
use std::io::Write;

fn push_head(out: &mut Vec<u8>, command: &Command) -> io::Result<()>
    ensures { OnOk result (out.new.items ≡ out.old.items ++ head_of command.now) }
{
    match command {
        Command::Open { first, second, .. } => {
            let first = first.as_str();
            let second = second.as_str();
            write!(out, "open {first} {second} ")
        }
        Command::Put { at, .. } => {
            let at = at.as_str();
            write!(out, "put {at} ")
        }
        Command::Get { at } => {
            let at = at.as_str();
            write!(out, "get {at} ")
        }
        Command::Close { at } => {
            let at = at.as_str();
            write!(out, "close {at} ")
        }
        Command::Turn { .. } | Command::Settle { .. } | Command::Show => Ok(()),
    }
}

fn push_title(out: &mut Vec<u8>, titles: &Titles, end: End) -> io::Result<()>
    ensures { OnOk result (out.new.items ≡ out.old.items ++ title_of titles.now end) }
{
    match titles.name_of(end) {
        Some(name) => write!(out, "{name}"),
        None => Ok(()),
    }
}

fn push_more_titles(out: &mut Vec<u8>, titles: &Titles, ends: &[End]) -> io::Result<()>
    ensures { OnOk result (out.new.items ≡ out.old.items ++ more_titles titles.now ends.now) }
{
    match ends {
        [] => Ok(()),
        [end, rest @ ..] => {
            write!(out, ",")?;
            push_title(out, titles, *end)?;
            push_more_titles(out, titles, rest)
        }
    }
}

fn push_titles(out: &mut Vec<u8>, titles: &Titles, ends: &[End]) -> io::Result<()>
    ensures { OnOk result (out.new.items ≡ out.old.items ++ titles_text titles.now ends.now) }
{
    match ends {
        [] => Ok(()),
        [end, rest @ ..] => {
            push_title(out, titles, *end)?;
            push_more_titles(out, titles, rest)
        }
    }
}

fn push_parcel(out: &mut Vec<u8>, titles: &Titles, number: u64, parcel: &Parcel) -> io::Result<()>
    ensures { OnOk result (out.new.items ≡ out.old.items ++ parcel_text titles.now number parcel.now) }
{
    write!(out, "{number} [")?;
    push_titles(out, titles, parcel.ends.as_slice())?;
    write!(out, "] \"")?;
    out.extend_from_slice(parcel.bytes.as_slice())?;
    write!(out, "\"")
}

fn push_words(out: &mut Vec<u8>, words: &[u64]) -> io::Result<()>
    ensures { OnOk result (out.new.items ≡ out.old.items ++ words_text words.now) }
{
    for word in words {
        let word = *word;
        write!(out, " {word}")?;
    }
    Ok(())
}

fn push_tail(out: &mut Vec<u8>, titles: &Titles, said: &Said) -> io::Result<()>
    ensures { OnOk result (out.new.items ≡ out.old.items ++ tail_of titles.now said.now) }
{
    match said {
        Said::Opened => write!(out, "ok"),
        Said::Put(number) => write!(out, "{number}"),
        Said::Got(number, parcel) => push_parcel(out, titles, *number, parcel),
        Said::Closed(number) => write!(out, "{number}"),
        Said::Turned(_) => Ok(()),
        Said::Settled => write!(out, "settled"),
        Said::Unsettled => write!(out, "unsettled"),
        Said::Words(words) => {
            write!(out, "words")?;
            push_words(out, words.as_slice())
        }
        Said::UnknownName => write!(out, "UnknownName"),
        Said::Away => write!(out, "Away"),
        Said::Refused(why) => {
            let name = why.name();
            write!(out, "{name}")
        }
    }
}

fn push_turn(out: &mut Vec<u8>, reply: &Reply) -> io::Result<()>
    ensures { OnOk result (out.new.items ≡ out.old.items ++ turn_text reply.now) }
{
    match reply {
        Reply::Turned(event) => push_event(out, event),
        Reply::Refused(why) => {
            let name = why.name();
            write!(out, "{name}")
        }
        _ => Ok(()),
    }
}

fn push_turn_line(out: &mut Vec<u8>, node: u8, reply: &Reply) -> io::Result<()>
    ensures { OnOk result (out.new.items ≡ out.old.items ++ line (codes "n" ++ decimal node ++ codes ": " ++ turn_text reply.now)) }
{
    write!(out, "n{node}: ")?;
    push_turn(out, reply)?;
    write!(out, "\n")
}

fn push_turns(out: &mut Vec<u8>, node: u8, replies: &[Reply]) -> io::Result<()>
    ensures { OnOk result (out.new.items ≡ out.old.items ++ turn_lines node replies.now) }
{
    for reply in replies {
        push_turn_line(out, node, reply)?;
    }
    Ok(())
}

fn push_turned(out: &mut Vec<u8>, node: u8, said: &Said) -> io::Result<()>
    ensures { OnOk result (out.new.items ≡ out.old.items ++ lines_of_turns node said.now) }
{
    match said {
        Said::Turned(replies) => push_turns(out, node, replies.as_slice()),
        _ => Ok(()),
    }
}

fn push_one(out: &mut Vec<u8>, titles: &Titles, command: &Command, said: &Said) -> io::Result<()>
    ensures { OnOk result (out.new.items ≡ out.old.items ++ line (head_of command.now ++ tail_of titles.now said.now)) }
{
    push_head(out, command)?;
    push_tail(out, titles, said)?;
    write!(out, "\n")
}

// Adds the lines of a command and its answer. After an `Err`, which is want of memory, some front of the lines may stand behind what was
// there.
pub(crate) fn push_lines(
    out: &mut Vec<u8>,
    titles: &Titles,
    command: &Command,
    said: &Said,
) -> io::Result<()>
    ensures lines { OnOk result (out.new.items ≡ out.old.items ++ lines_of titles.now command.now said.now) }
{
    match command {
        Command::Turn { node, .. } => push_turned(out, *node, said),
        _ => push_one(out, titles, command, said),
    }
}

// Adds the one line that says why some bytes are no script. `ScriptFault::OutOfMemory` adds nothing: it is no refusal. After an `Err` some
// front of the line may stand behind what was there.
pub(crate) fn push_refused(out: &mut Vec<u8>, why: ScriptFault) -> io::Result<()>
    ensures line { OnOk result (out.new.items ≡ out.old.items ++ refused_line why) }
{
    match why {
        ScriptFault::NotJson => write!(out, "refused NotJson\n"),
        ScriptFault::BadShape(number) => write!(out, "refused BadShape {number}\n"),
        ScriptFault::TooLong => write!(out, "refused TooLong\n"),
        ScriptFault::OutOfMemory => Ok(()),
    }
}
