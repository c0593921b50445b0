//! Reading a line of a log: the call and its answer.
ghost use Rattle.std.specs.Prelude.{◌≡◌, ◌<◌, map, IfOk, IfSome};
ghost use Rattle.serde_json.specs.View.{view};
ghost use Rattle.serde_json.specs.Find.{as_str};
ghost use Rattle.ipcz_script.specs.Each.{each_of};
ghost use Rattle.ipcz_log.specs.Logs.{close_in, entry_in, get_in, got_in, line_in, names_in, node_in, open_in, put_in};

use crate::answers::{Answer, answer_in, number_in, text_in};
use ipcz_base::{Bytes, Sequence};
use ipcz_script::{Text, values_of};
use ipcz_verdict::{Entry, Line};
use serde_json::Value;
use std::alloc::{AllocError, Global};

// The texts that these values are, or none if one of them is no text.
fn texts_of(alloc: Global, values: &[Value]) -> Result<Option<Sequence<Text>>, AllocError>
    ensures { IfOk result (λ names. names ≡ each_of as_str (map view values.now)) }
{
    let mut names = Vec::new(alloc);
    for value in values {
        let Some(name) = value.as_str() else {
            return Ok(None);
        };
        names.push(Text::copy_of(alloc, name)?)?;
    }
    Ok(Some(Sequence::from_vec(names)))
}

// The names of the portals in a line's parcel: none if nothing is said.
fn names_in(alloc: Global, value: &Value) -> Result<Option<Sequence<Text>>, AllocError>
    ensures { IfOk result (λ names. names ≡ names_in (view value.now)) }
{
    let Some(value) = value.get("portals") else {
        return Ok(Some(Sequence::from_vec(Vec::new(alloc))));
    };
    let Some(values) = values_of(value) else {
        return Ok(None);
    };
    texts_of(alloc, values)
}

// The node of a line.
fn node_in(value: &Value) -> Option<u8>
    ensures { result ≡ node_in (view value.now) }
{
    match number_in(value, "node") {
        Some(node) if node <= 255 => Some(node as u8),
        _ => None,
    }
}

// A line of an open.
fn open_in(alloc: Global, node: u8, value: &Value) -> Result<Option<Line>, AllocError>
    ensures { IfOk result (λ line. line ≡ open_in node (view value.now)) }
{
    if let Some(Answer::Refused(why)) = answer_in(value) {
        return Ok(Some(Line::OpenRefused { node, why }));
    }
    let Some(first) = text_in(value, "first") else {
        return Ok(None);
    };
    let Some(second) = text_in(value, "second") else {
        return Ok(None);
    };
    Ok(Some(Line::Opened {
        node,
        first: Text::copy_of(alloc, first)?,
        second: Text::copy_of(alloc, second)?,
    }))
}

// A line of a put.
fn put_in(alloc: Global, node: u8, value: &Value) -> Result<Option<Line>, AllocError>
    ensures { IfOk result (λ line. line ≡ put_in node (view value.now)) }
{
    let Some(at) = text_in(value, "at") else {
        return Ok(None);
    };
    let Some(text) = text_in(value, "bytes") else {
        return Ok(None);
    };
    let Some(portals) = names_in(alloc, value)? else {
        return Ok(None);
    };
    let Some(answer) = answer_in(value) else {
        return Ok(None);
    };
    let at = Text::copy_of(alloc, at)?;
    let bytes = Bytes::from_slice(alloc, text.as_bytes())?;
    match answer {
        Answer::Number(number) => Ok(Some(Line::Put {
            node,
            at,
            bytes,
            portals,
            number,
        })),
        Answer::Refused(why) => Ok(Some(Line::PutRefused {
            node,
            at,
            bytes,
            portals,
            why,
        })),
    }
}

// A line of a get that gave a parcel.
fn got_in(
    alloc: Global,
    node: u8,
    at: &str,
    number: u64,
    value: &Value,
) -> Result<Option<Line>, AllocError>
    ensures { IfOk result (λ line. line ≡ got_in node at.now number (view value.now)) }
{
    let Some(text) = text_in(value, "bytes") else {
        return Ok(None);
    };
    let Some(portals) = names_in(alloc, value)? else {
        return Ok(None);
    };
    Ok(Some(Line::Got {
        node,
        at: Text::copy_of(alloc, at)?,
        bytes: Bytes::from_slice(alloc, text.as_bytes())?,
        portals,
        number,
    }))
}

// A line of a get.
fn get_in(alloc: Global, node: u8, value: &Value) -> Result<Option<Line>, AllocError>
    ensures { IfOk result (λ line. line ≡ get_in node (view value.now)) }
{
    let Some(at) = text_in(value, "at") else {
        return Ok(None);
    };
    let Some(answer) = answer_in(value) else {
        return Ok(None);
    };
    match answer {
        Answer::Number(number) => got_in(alloc, node, at, number, value),
        Answer::Refused(why) => Ok(Some(Line::GetRefused {
            node,
            at: Text::copy_of(alloc, at)?,
            why,
        })),
    }
}

// A line of a close.
fn close_in(alloc: Global, node: u8, value: &Value) -> Result<Option<Line>, AllocError>
    ensures { IfOk result (λ line. line ≡ close_in node (view value.now)) }
{
    let Some(at) = text_in(value, "at") else {
        return Ok(None);
    };
    let Some(answer) = answer_in(value) else {
        return Ok(None);
    };
    let at = Text::copy_of(alloc, at)?;
    match answer {
        Answer::Number(number) => Ok(Some(Line::Closed { node, at, number })),
        Answer::Refused(why) => Ok(Some(Line::CloseRefused { node, at, why })),
    }
}

/// The line that a value is, if it is one.
pub(crate) fn line_in(alloc: Global, value: &Value) -> Result<Option<Line>, AllocError>
    ensures { IfOk result (λ line. line ≡ line_in (view value.now)) }
{
    let Some(node) = node_in(value) else {
        return Ok(None);
    };
    let Some(op) = text_in(value, "op") else {
        return Ok(None);
    };
    if op == "open" {
        open_in(alloc, node, value)
    } else if op == "put" {
        put_in(alloc, node, value)
    } else if op == "get" {
        get_in(alloc, node, value)
    } else if op == "close" {
        close_in(alloc, node, value)
    } else {
        Ok(None)
    }
}

/// The line with this number, of one of so many logs, that a value is, if it is one.
pub(crate) fn entry_in(
    alloc: Global,
    count: u8,
    number: u64,
    value: &Value,
) -> Result<Option<Entry>, AllocError>
    ensures entry { IfOk result (λ entry. entry ≡ entry_in count number (view value.now)) }
    ensures log { IfOk result (λ entry. IfSome entry (λ entry. entry.log < count)) }
{
    let Some(log) = number_in(value, "log") else {
        return Ok(None);
    };
    if log >= u64::from(count) {
        return Ok(None);
    }
    let Some(line) = line_in(alloc, value)? else {
        return Ok(None);
    };
    Ok(Some(Entry {
        log: log as u8,
        number,
        line,
    }))
}
