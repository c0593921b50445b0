//! Judging the text of a log with events, line by line.

ghost use Rattle.std.specs.Prelude.{◌≡◌, ◌≤◌, ◌<◌, ◌+◌, [], length, drop, option_map, IfOk, IfSome, OnOk};
ghost use Rattle.serde_json.specs.View.{view};
ghost use Rattle.ipcz_script.specs.Reading.{IsJson};
ghost use Rattle.ipcz_script.specs.Sessions.{Session as SessionValue};
ghost use Rattle.ipcz_script.specs.ScriptLimits.{HasScriptLimits};
ghost use Rattle.ipcz_events.specs.Hearing.{Hears};
ghost use Rattle.ipcz_events.specs.Judging.{AreToldActs};
ghost use Rattle.ipcz_events.specs.Rules.{MayEntry};
ghost use Rattle.ipcz_events.specs.Verdicts.{IsHeader, IsLine, IsSaidOf, IsVerdict, line_len, text_lines};

use crate::entry::Entry;
use crate::header::{Header, header_in};
use crate::heard::Heard;
use crate::judged::Judged;
use crate::judging::judge;
use crate::reading::entry_in;
use crate::verdict::Verdict;
use ipcz_base::Sequence;
use ipcz_node::Act;
use ipcz_script::Session;
use serde_json::Value;
use std::alloc::{AllocError, Global};

// How many bytes stand before the first line feed, or at all.
fn line_len(text: &[u8]) -> usize
    ensures len { result ≡ line_len text.now }
    ensures within { result ≤ length text.now }
{
    for i in 0..text.len() {
        if text[i] == b'\n' {
            return i;
        }
    }
    text.len()
}

// The JSON value that the bytes are, if they are one.
fn read_json(alloc: Global, bytes: &[u8]) -> Result<Option<Value>, AllocError>
    ensures { IfOk result (λ value. IsJson bytes.now (option_map view value)) }
{
    match Value::from_slice(alloc, bytes) {
        Ok(value) => Ok(Some(value)),
        Err(error) if error.is_memory() => Err(AllocError),
        Err(_) => Ok(None),
    }
}

// The line of a log that the bytes are, if they are one.
fn read_line(alloc: Global, nodes: u8, bytes: &[u8]) -> Result<Option<Entry>, AllocError>
    requires some_node { 0 < nodes }
    ensures { IfOk result (λ entry. IsLine nodes bytes.now entry) }
{
    let Some(value) = read_json(alloc, bytes)? else {
        return Ok(None);
    };
    entry_in(alloc, nodes, &value)
}

// The header that the bytes are, if they are one.
fn read_header(alloc: Global, bytes: &[u8]) -> Result<Option<Header>, AllocError>
    ensures header { IfOk result (λ header. IsHeader bytes.now header) }
    ensures limits { IfOk result (λ header. IfSome header (λ header. HasScriptLimits header.nodes header.words)) }
{
    let Some(value) = read_json(alloc, bytes)? else {
        return Ok(None);
    };
    Ok(header_in(&value))
}

// Lets a session take a line that is allowed there.
fn follow(alloc: Global, session: &mut Session, entry: &Entry) -> Result<(), AllocError>
    requires { (t : SessionValue) × MayEntry session.old entry.now t }
    ensures { OnOk result (MayEntry session.old entry.now session.new) }
{
    match judge(alloc, session, entry)? {
        Judged::Allowed => Ok(()),
        Judged::Refused(_) => unreachable!(),
    }
}

// All acts that the node of a line may take, if it is an act.
fn possible_acts(
    alloc: Global,
    session: &Session,
    entry: &Entry,
) -> Result<Sequence<Act>, AllocError>
    ensures { IfOk result (λ acts. AreToldActs session.now entry.now acts) }
{
    match entry {
        Entry::Call { .. } => Ok(Sequence::from_vec(Vec::new(alloc))),
        Entry::Acted { node, .. } => Ok(Sequence::from_vec(session.possible_acts(*node)?)),
    }
}

// What the judge says of the next line. The second session is as the first one, and takes the line behind it, if it is allowed; so it tells what was
// possible where a line isn't, since the first one is of no more use then.
fn hear(
    alloc: Global,
    session: &mut Session,
    behind: &mut Session,
    nodes: u8,
    bytes: &[u8],
) -> Result<Heard, AllocError>
    requires some_node { 0 < nodes }
    requires alike { behind.old ≡ session.old }
    ensures heard { IfOk result (λ heard. Hears session.old nodes bytes.now heard session.new) }
    ensures alike { IfOk result (λ heard. heard ≡ Heard.Allowed → behind.new ≡ session.new) }
{
    let Some(entry) = read_line(alloc, nodes, bytes)? else {
        return Ok(Heard::NoLine);
    };
    match judge(alloc, session, &entry)? {
        Judged::Allowed => {
            follow(alloc, behind, &entry)?;
            Ok(Heard::Allowed)
        }
        Judged::Refused(instead) => {
            let possible = possible_acts(alloc, behind, &entry)?;
            Ok(Heard::Refused(instead, possible))
        }
    }
}

// The bytes behind the first line and its line feed.
fn behind(text: &[u8], len: usize) -> &[u8]
    requires { len ≤ length text.now }
    ensures { result.now ≡ drop (len + 1) text.now }
{
    if len < text.len() {
        &text[len + 1..]
    } else {
        &[]
    }
}

// What is said of the lines of a text behind a header.
fn judge_lines(alloc: Global, header: Header, text: &[u8]) -> Result<Verdict, AllocError>
    requires within { HasScriptLimits header.nodes header.words }
    ensures { IfOk result (λ verdict. IsSaidOf header.nodes header.words [] 2 (text_lines text.now) verdict) }
{
    let mut session = Session::new(alloc, header.nodes, header.words)?;
    let mut follower = Session::new(alloc, header.nodes, header.words)?;
    let mut rest = text;
    let mut line = 2u64;
    while !rest.is_empty() {
        let len = line_len(rest);
        match hear(
            alloc,
            &mut session,
            &mut follower,
            header.nodes,
            &rest[..len],
        )? {
            Heard::Allowed => {}
            Heard::Refused(instead, possible) => {
                return Ok(Verdict::Refused {
                    line,
                    instead,
                    possible,
                });
            }
            Heard::NoLine => return Ok(Verdict::NoLog(line)),
        }
        rest = behind(rest, len);
        line = line.checked_add(1).ok_or(AllocError)?;
    }
    Ok(Verdict::Allowed)
}

/// What is said of the text of a log: whether its first line is a header and each other one a line of a log that the rules allow behind those
/// before it; and if not, which is the first that isn't so. Of one that isn't allowed a text is told, too, that is allowed in place of its own, where
/// `judge` tells one; and if it is an act, each act that its node could take there.
///
/// So of an empty text it is said that line 1 is no line of a log.
pub fn judge_log(alloc: Global, text: &[u8]) -> Result<Verdict, AllocError>
    ensures { IfOk result (λ verdict. IsVerdict text.now verdict) }
{
    let len = line_len(text);
    let Some(header) = read_header(alloc, &text[..len])? else {
        return Ok(Verdict::NoLog(1));
    };
    judge_lines(alloc, header, behind(text, len))
}
