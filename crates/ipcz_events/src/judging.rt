//! Judging a log with events: the session takes each call and each act that the text of an event begins with, and what these print is compared.

ghost use Rattle.std.specs.Prelude.{◌≡◌, ◌≢◌, ◌-◌, ◌++◌, ◌∷◌, [], true, length, take, Some, MatchBool, IfOk, IfSome};
ghost use Rattle.ipcz_node.specs.declared.act.Act.{Act};
ghost use Rattle.ipcz_world.specs.Asking.{can_act};
ghost use Rattle.ipcz_script.specs.EventTexts.{event_text};
ghost use Rattle.ipcz_script.specs.Lines.{lines_of};
ghost use Rattle.ipcz_script.specs.ScriptLimits.{HasScriptLimits};
ghost use Rattle.ipcz_events.specs.Judging.{BeginsWith, IsCompared, Judges};
ghost use Rattle.ipcz_events.specs.Naming.{NameHasBits, name_of};
ghost use Rattle.ipcz_events.specs.Rules.{ActHasBits, IsVerdictOf, is_call};

use crate::entry::Entry;
use crate::judged::Judged;
use crate::naming::{Named, named_in};
use ipcz_base::{Bytes, Refusal};
use ipcz_node::{Act, Happened};
use ipcz_script::{Command, Said, Session, Titles, push_answer, push_event};
use ipcz_world::NotTaken;
use std::alloc::{AllocError, Global};

// Whether a command is a call, or shows the words.
fn is_call(command: &Command) -> bool
    ensures { result ≡ is_call command.now }
{
    match command {
        Command::Turn { .. } | Command::Settle { .. } => false,
        Command::Open { .. }
        | Command::Put { .. }
        | Command::Get { .. }
        | Command::Close { .. }
        | Command::Show => true,
    }
}

// Whether two texts are the same.
#[tactic(auto, using(crate::proofs::Texts::decided))]
fn is_same(text: &[u8], other: &[u8]) -> bool
    ensures { MatchBool result (text.now ≡ other.now) (text.now ≢ other.now) }
{
    text == other
}

// What is said of a line with this text where that one is allowed.
fn compared(printed: Vec<u8>, text: &str) -> Judged
    ensures { IsCompared printed.items text.now result }
{
    if is_same(&printed, text.as_bytes()) {
        Judged::Allowed
    } else {
        Judged::Refused(Some(Bytes::from_vec(printed)))
    }
}

// The text of an event.
pub(crate) fn printed(alloc: Global, event: &Happened) -> Result<Vec<u8>, AllocError>
    ensures { IfOk result (λ text. text.items ≡ event_text event.now) }
{
    let mut text = Vec::new(alloc);
    let Ok(()) = push_event(&mut text, event) else {
        return Err(AllocError);
    };
    Ok(text)
}

// A text without its last byte.
fn without_last(text: &[u8]) -> &[u8]
    ensures { result.now ≡ take (length text.now - 1) text.now }
{
    &text[..text.len().saturating_sub(1)]
}

// The line that a call's answer prints, without its line feed.
pub(crate) fn answered(
    alloc: Global,
    titles: &Titles,
    command: &Command,
    said: &Said,
) -> Result<Vec<u8>, AllocError>
    requires { is_call command.now ≡ true }
    ensures { IfOk result (λ line. lines_of titles.now command.now said.now ≡ line.items ++ 10 ∷ []) }
{
    let mut text = Vec::new(alloc);
    push_answer(&mut text, titles, command, said)?;
    Vec::from_slice(alloc, without_last(text.as_slice()))
}

// The only act of a node that can be the one that is named, if some can.
fn act_of(session: &Session, node: u8, name: Named) -> Option<Act>
    requires bits { NameHasBits name }
    ensures some { IfSome result (λ act. ActHasBits act) }
    ensures named { IfSome result (λ act. name_of act ≡ name) }
    ensures only { (act : Act) → name_of act ≡ name → can_act session.now.world node act ≡ true → result ≡ Some act }
{
    match name {
        Named::Hand => match session.hand(node) {
            Some(sender) => Some(Act::Hand(sender)),
            None => None,
        },
        Named::Look(sender) => Some(Act::Look(sender)),
        Named::Post(to) => Some(Act::Post(to)),
        Named::Close(end) => Some(Act::Close(end)),
        Named::Router(serial, act) => Some(Act::Router(serial, act)),
        Named::Idle => Some(Act::Idle),
    }
}

// Judges a call, with the line that its answer prints.
fn judge_call(
    alloc: Global,
    session: &mut Session,
    command: &Command,
    line: &str,
) -> Result<Judged, AllocError>
    ensures { IfOk result (λ judged. Judges session.old (Entry.Call command.now line.now) judged session.new) }
{
    if !is_call(command) {
        return Ok(Judged::Refused(None));
    }
    let said = session.run(command)?;
    let text = answered(alloc, session.titles(), command, &said)?;
    Ok(compared(text, line))
}

// The only act of a node that the text of an event can begin with, if some can.
pub(crate) fn act_begun(session: &Session, node: u8, text: &str) -> Option<Act>
    ensures some { IfSome result (λ act. ActHasBits act) }
    ensures named { IfSome result (λ act. BeginsWith text.now act) }
    ensures only { (act : Act) → ActHasBits act → BeginsWith text.now act → can_act session.now.world node act ≡ true → result ≡ Some act }
{
    match named_in(text.as_bytes()) {
        Some(name) => act_of(session, node, name),
        None => None,
    }
}

// Judges what a node was seen to do.
fn judge_act(
    alloc: Global,
    session: &mut Session,
    node: u8,
    text: &str,
) -> Result<Judged, AllocError>
    ensures { IfOk result (λ judged. Judges session.old (Entry.Acted node text.now) judged session.new) }
{
    let Some(act) = act_begun(session, node, text) else {
        return Ok(Judged::Refused(None));
    };
    match session.act(node, act) {
        Ok(happened) => {
            let seen = printed(alloc, &happened)?;
            Ok(compared(seen, text))
        }
        Err(NotTaken::NotPossible) => Ok(Judged::Refused(None)),
        Err(NotTaken::Refused(Refusal::NumbersEnd)) => Ok(Judged::Refused(None)),
        Err(NotTaken::Refused(_)) => Err(AllocError),
    }
}

/// Judges the next line of a log, in the session that the lines before it led to: whether the rules allow it there, in which case the session is
/// the one behind it. Else no act that is possible there is seen to do what the line says, or the call isn't answered so. Then a text is told that
/// is allowed in place of the line's own, of a call and of an event that begins with an act that the node can take; and the session is of no more
/// use, as after an `Err`.
///
/// So where a router locks its word, an event `r2 wait C1 547` is refused, and `r2 lock C1 547` is told.
pub fn judge(alloc: Global, session: &mut Session, entry: &Entry) -> Result<Judged, AllocError>
    ensures { IfOk result (λ judged. Judges session.old entry.now judged session.new) }
{
    match entry {
        Entry::Call { command, line } => judge_call(alloc, session, command, line.as_str()),
        Entry::Acted { node, event } => judge_act(alloc, session, *node, event.as_str()),
    }
}

/// The first line of a log, counted from 0, that the rules don't allow behind those before it; none if they allow the whole log, of an
/// implementation with so many nodes and link words.
///
/// So a log in which a node of a new world looks into an empty mailbox is refused at that line.
pub fn first_refused(
    alloc: Global,
    nodes: u8,
    words: u32,
    log: &[Entry],
) -> Result<Option<usize>, AllocError>
    requires within { HasScriptLimits nodes words }
    ensures { IfOk result (λ at. IsVerdictOf nodes words log.now at) }
{
    let mut session = Session::new(alloc, nodes, words)?;
    let mut number = 0usize;
    for entry in log {
        match judge(alloc, &mut session, entry)? {
            Judged::Allowed => {}
            Judged::Refused(_) => return Ok(Some(number)),
        }
        number = number.checked_add(1).ok_or(AllocError)?;
    }
    Ok(None)
}
