//! Reading a line of a log with events out of a JSON value.

ghost use Rattle.std.specs.Prelude.{◌≡◌, ◌<◌, codes, option_map, IfOk};
ghost use Rattle.serde_json.specs.View.{view};
ghost use Rattle.ipcz_events.specs.Reading.{acted_by, call_in, called_by, entry_in, node_in, text_in};

use crate::entry::Entry;
use ipcz_script::{Command, OpenedNames, Text, command_in, values_of};
use serde_json::Value;
use std::alloc::{AllocError, Global};

fn text_in<'v>(value: &'v Value, member: &str) -> Option<&'v str>
    ensures { option_map (λ text. text.now) result ≡ text_in member.now (view value.now) }
{
    value.get(member)?.as_str()
}

fn node_in(value: &Value) -> Option<u8>
    ensures { result ≡ node_in (view value.now) }
{
    match value.get("node")?.as_u64() {
        Some(node) if node <= 255 => Some(node as u8),
        _ => None,
    }
}

// The act of a node that a value is, which has this text.
fn acted_in(alloc: Global, value: &Value, event: &str) -> Result<Option<Entry>, AllocError>
    ensures { IfOk result (λ entry. entry ≡ acted_by (node_in (view value.now)) event.now) }
{
    let Some(node) = node_in(value) else {
        return Ok(None);
    };
    Ok(Some(Entry::Acted {
        node,
        event: Text::copy_of(alloc, event)?,
    }))
}

fn call_in(alloc: Global, nodes: u8, value: &Value) -> Result<Option<Command>, AllocError>
    requires some_node { 0 < nodes }
    ensures { IfOk result (λ command. command ≡ call_in nodes (view value.now)) }
{
    let Some(list) = value.get("call") else {
        return Ok(None);
    };
    let Some(values) = values_of(list) else {
        return Ok(None);
    };
    command_in(alloc, nodes, &OpenedNames::new(alloc), values)
}

// The call that a value is.
fn called_in(alloc: Global, nodes: u8, value: &Value) -> Result<Option<Entry>, AllocError>
    requires some_node { 0 < nodes }
    ensures { IfOk result (λ entry. entry ≡ called_by (text_in (codes "answer") (view value.now)) (call_in nodes (view value.now))) }
{
    let Some(answer) = text_in(value, "answer") else {
        return Ok(None);
    };
    let Some(command) = call_in(alloc, nodes, value)? else {
        return Ok(None);
    };
    Ok(Some(Entry::Call {
        command,
        line: Text::copy_of(alloc, answer)?,
    }))
}

/// The line of a log with events that a JSON value is, of an implementation with so many nodes; none if it is none (docs/JUDGE.md, "Events"). A
/// command that takes turns or settles is read, and so is an event that no act prints as, but no log with them is allowed.
pub fn entry_in(alloc: Global, nodes: u8, value: &Value) -> Result<Option<Entry>, AllocError>
    requires some_node { 0 < nodes }
    ensures { IfOk result (λ entry. entry ≡ entry_in nodes (view value.now)) }
{
    match text_in(value, "event") {
        Some(event) => acted_in(alloc, value, event),
        None => called_in(alloc, nodes, value),
    }
}
