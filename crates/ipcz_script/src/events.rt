//! How what a turn did prints (docs/SCRIPTS.md, "Events").

ghost use Rattle.std.specs.Prelude.{◌≡◌, ◌++◌, OnOk};
ghost use Rattle.ipcz_script.specs.EventTexts.{event_text, hand_text, kind_text, link_event, more_ends, moved_text, sent_text, unfit_text};
ghost use Rattle.ipcz_script.specs.EventTexts.{word_text};

use ipcz_base::{End, LinkId};
use ipcz_node::{Handed, Happened};
use std::io;
use std::io::Write;

fn push_kind(out: &mut Vec<u8>, kind: &Handed) -> io::Result<()>
    ensures { OnOk result (out.new.items ≡ out.old.items ++ kind_text kind.now) }
{
    match kind {
        Handed::Item(n) => write!(out, "item {n}"),
        Handed::BypassPeer => write!(out, "BypassPeer"),
        Handed::AcceptBypass => write!(out, "AcceptBypass"),
        Handed::StopProxying => write!(out, "StopProxying"),
        Handed::ProxyWillStop => write!(out, "ProxyWillStop"),
        Handed::Flush => write!(out, "Flush"),
    }
}

fn push_unfit(out: &mut Vec<u8>, kind: &Handed) -> io::Result<()>
    ensures { OnOk result (out.new.items ≡ out.old.items ++ unfit_text kind.now) }
{
    match kind {
        Handed::Flush => write!(out, " dropped"),
        _ => write!(out, " stray"),
    }
}

fn push_hand(out: &mut Vec<u8>, kind: &Handed, link: LinkId, unfit: bool) -> io::Result<()>
    ensures { OnOk result (out.new.items ≡ out.old.items ++ hand_text kind.now link unfit) }
{
    write!(out, "hand ")?;
    push_kind(out, kind)?;
    write!(out, " {link}")?;
    if unfit {
        return push_unfit(out, kind);
    }
    Ok(())
}

fn push_more(out: &mut Vec<u8>, ends: &[End]) -> io::Result<()>
    ensures { OnOk result (out.new.items ≡ out.old.items ++ more_ends ends.now) }
{
    match ends {
        [] => Ok(()),
        [end, rest @ ..] => {
            write!(out, ",{end}")?;
            push_more(out, rest)
        }
    }
}

fn push_moved(out: &mut Vec<u8>, ends: &[End]) -> io::Result<()>
    ensures { OnOk result (out.new.items ≡ out.old.items ++ moved_text ends.now) }
{
    match ends {
        [] => Ok(()),
        [end, rest @ ..] => {
            write!(out, " moves {end}")?;
            push_more(out, rest)
        }
    }
}

fn push_sent(
    out: &mut Vec<u8>,
    serial: u64,
    way: &str,
    n: u64,
    link: LinkId,
    moved: &[End],
) -> io::Result<()>
    ensures { OnOk result (out.new.items ≡ out.old.items ++ sent_text serial way.now n link moved.now) }
{
    write!(out, "r{serial} send {way} {n} {link}")?;
    push_moved(out, moved)
}

fn push_link(out: &mut Vec<u8>, serial: u64, verb: &str, link: LinkId) -> io::Result<()>
    ensures { OnOk result (out.new.items ≡ out.old.items ++ link_event serial verb.now link) }
{
    write!(out, "r{serial} {verb} {link}")
}

fn push_word(out: &mut Vec<u8>, serial: u64, verb: &str, link: LinkId, word: u64) -> io::Result<()>
    ensures { OnOk result (out.new.items ≡ out.old.items ++ word_text serial verb.now link word) }
{
    write!(out, "r{serial} {verb} {link} {word}")
}

// A discard of Gone, with which the router leaves.
fn push_left(out: &mut Vec<u8>, serial: u64, n: u64) -> io::Result<()>
    ensures { OnOk result (out.new.items ≡ out.old.items ++ event_text (Happened.DiscardLeave serial n)) }
{
    write!(out, "r{serial} discard {n} leave")
}

fn push_retired(out: &mut Vec<u8>, serial: u64, n: u64, link: LinkId) -> io::Result<()>
    ensures { OnOk result (out.new.items ≡ out.old.items ++ event_text (Happened.Retire serial n link)) }
{
    write!(out, "r{serial} retire {n} {link}")
}

/// Adds the text of what a turn did.
///
/// After an `Err`, which is want of memory, some front of the text may stand behind what was there.
pub fn push_event(out: &mut Vec<u8>, event: &Happened) -> io::Result<()>
    ensures { OnOk result (out.new.items ≡ out.old.items ++ event_text event.now) }
{
    match event {
        Happened::Hand { kind, link, unfit } => push_hand(out, kind, *link, *unfit),
        Happened::Look(sender) => write!(out, "look {sender}"),
        Happened::Post(to) => write!(out, "post {to}"),
        Happened::Close(end) => write!(out, "close {end}"),
        Happened::SendOut {
            serial,
            n,
            link,
            moved,
        } => push_sent(out, *serial, "out", *n, *link, moved.as_slice()),
        Happened::SendIn {
            serial,
            n,
            link,
            moved,
        } => push_sent(out, *serial, "in", *n, *link, moved.as_slice()),
        Happened::Discard(serial, n) => write!(out, "r{serial} discard {n}"),
        Happened::DiscardLeave(serial, n) => push_left(out, *serial, *n),
        Happened::FinishOut(serial, link) => push_link(out, *serial, "finish out", *link),
        Happened::FinishIn(serial, link) => push_link(out, *serial, "finish in", *link),
        Happened::Leave(serial) => write!(out, "r{serial} leave"),
        Happened::Mark(serial, link, word) => push_word(out, *serial, "mark", *link, *word),
        Happened::Wake(serial, link, word) => push_word(out, *serial, "wake", *link, *word),
        Happened::Claim(serial, word) => write!(out, "r{serial} claim {word}"),
        Happened::ClaimNoWord(serial) => write!(out, "r{serial} claim NoWord"),
        Happened::Lock(serial, link, word) => push_word(out, *serial, "lock", *link, *word),
        Happened::Wait(serial, link, word) => push_word(out, *serial, "wait", *link, *word),
        Happened::Refused(serial, link, word) => push_word(out, *serial, "refused", *link, *word),
        Happened::Begin(serial, link) => push_link(out, *serial, "begin", *link),
        Happened::Retire(serial, n, link) => push_retired(out, *serial, *n, *link),
        Happened::Unlock(serial, link, word) => push_word(out, *serial, "unlock", *link, *word),
        Happened::Rest(serial) => write!(out, "r{serial} rest"),
        Happened::Idle => write!(out, "idle"),
    }
}
