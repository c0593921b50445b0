//! From JSON values to the commands of a script.
ghost use Rattle.std.specs.Prelude.{◌≡◌, ◌<◌, ◌≤◌, Some, map, option_map, IfOk, IfSome};
ghost use Rattle.std.specs.List.{list_all};
ghost use Rattle.std.specs.FinSet.{contains};
ghost use Rattle.serde_json.specs.View.{view};
ghost use Rattle.serde_json.specs.Find.{as_str};
ghost use Rattle.ipcz_script.specs.Each.{each_of};
ghost use Rattle.ipcz_script.specs.ScriptNames.{is_name, is_name_byte, has_angle};
ghost use Rattle.ipcz_script.specs.Shapes.{values_of, number_within, name_in, new_name_in, names_in, open_in, put_of, put_in};
ghost use Rattle.ipcz_script.specs.Shapes.{get_in, close_in, turn_in, settle_in, show_in, command_named, command_in};

use crate::command::Command;
use crate::opened_names::OpenedNames;
use crate::text::Text;
use ipcz_base::Sequence;
use serde_json::Value;
use std::alloc::{AllocError, Global};

const MAX_COUNT: u32 = 1_000_000;

/// The values of an array, if the value is one.
pub fn values_of(value: &Value) -> Option<&[Value]>
    ensures { option_map (λ values. map view values.now) result ≡ values_of (view value.now) }
{
    let values = value.as_array()?;
    Some(values.as_slice())
}

// ---- words of a command

fn has_name_bytes(text: &str) -> bool
    ensures { result ≡ list_all is_name_byte text.now }
{
    text.bytes()
        .all(|b| b.is_ascii_alphanumeric() || b == b'_' || b == b'>')
}

fn has_angle(text: &str) -> bool
    ensures { result ≡ has_angle text.now }
{
    text.bytes().any(|b| b == b'>')
}

fn is_name(text: &str) -> bool
    ensures { result ≡ is_name text.now }
{
    1 <= text.len() && text.len() <= 16 && has_name_bytes(text)
}

fn name_in(value: &Value) -> Option<&str>
    ensures { option_map (λ name. name.now) result ≡ name_in (view value.now) }
{
    match value.as_str() {
        Some(text) if is_name(text) => Some(text),
        _ => None,
    }
}

fn new_name_in<'v>(opened: &OpenedNames, value: &'v Value) -> Option<&'v str>
    ensures { option_map (λ name. name.now) result ≡ new_name_in (contains opened.now) (view value.now) }
{
    match name_in(value) {
        Some(name) if !has_angle(name) && !opened.has(name) => Some(name),
        _ => None,
    }
}

/// The number from `low` to `high` that a JSON value is.
pub fn number_within(low: u32, high: u32, value: &Value) -> Option<u32>
    ensures number { result ≡ number_within low high (view value.now) }
    ensures within { IfSome result (λ n. (low ≤ n) × (n ≤ high)) }
{
    match value.as_u64() {
        Some(n) if u64::from(low) <= n && n <= u64::from(high) => Some(n as u32),
        _ => None,
    }
}

// ---- the words behind a command's first

fn open_in(
    alloc: Global,
    nodes: u8,
    opened: &OpenedNames,
    args: &[Value],
) -> Result<Option<Command>, AllocError>
    requires { 0 < nodes }
    ensures { IfOk result (λ command.
        command ≡ open_in nodes (contains opened.now) (map view args.now)) }
{
    let [node, first, second] = args else {
        return Ok(None);
    };
    let Some(node) = number_within(0, u32::from(nodes - 1), node) else {
        return Ok(None);
    };
    let Some(first) = new_name_in(opened, first) else {
        return Ok(None);
    };
    let Some(second) = new_name_in(opened, second) else {
        return Ok(None);
    };
    if first == second {
        return Ok(None);
    }
    Ok(Some(Command::Open {
        node: node as u8,
        first: Text::copy_of(alloc, first)?,
        second: Text::copy_of(alloc, second)?,
    }))
}

// The names that these values are, or none if one of them is no name.
fn names_from(alloc: Global, values: &[Value]) -> Result<Option<Sequence<Text>>, AllocError>
    ensures { IfOk result (λ names. names ≡ each_of name_in (map view values.now)) }
{
    let mut names = Vec::new(alloc);
    for value in values {
        let Some(name) = name_in(value) else {
            return Ok(None);
        };
        names.push(Text::copy_of(alloc, name)?)?;
    }
    Ok(Some(Sequence::from_vec(names)))
}

fn names_in(alloc: Global, value: &Value) -> Result<Option<Sequence<Text>>, AllocError>
    ensures { IfOk result (λ names. names ≡ names_in (view value.now)) }
{
    let Some(values) = values_of(value) else {
        return Ok(None);
    };
    names_from(alloc, values)
}

// A put of these three words.
fn put_of(
    alloc: Global,
    at: &Value,
    text: &Value,
    ends: Sequence<Text>,
) -> Result<Option<Command>, AllocError>
    ensures { IfOk result (λ command. command ≡ put_of (name_in (view at.now)) (as_str (view text.now)) (Some ends)) }
{
    let Some(at) = name_in(at) else {
        return Ok(None);
    };
    let Some(text) = text.as_str() else {
        return Ok(None);
    };
    Ok(Some(Command::Put {
        at: Text::copy_of(alloc, at)?,
        data: Text::copy_of(alloc, text)?,
        ends,
    }))
}

fn put_in(alloc: Global, args: &[Value]) -> Result<Option<Command>, AllocError>
    ensures { IfOk result (λ command. command ≡ put_in (map view args.now)) }
{
    match args {
        [at, text] => put_of(alloc, at, text, Sequence::from_vec(Vec::new(alloc))),
        [at, text, ends] => {
            let Some(ends) = names_in(alloc, ends)? else {
                return Ok(None);
            };
            put_of(alloc, at, text, ends)
        }
        _ => Ok(None),
    }
}

fn get_in(alloc: Global, args: &[Value]) -> Result<Option<Command>, AllocError>
    ensures { IfOk result (λ command. command ≡ get_in (map view args.now)) }
{
    let [at] = args else {
        return Ok(None);
    };
    let Some(at) = name_in(at) else {
        return Ok(None);
    };
    Ok(Some(Command::Get {
        at: Text::copy_of(alloc, at)?,
    }))
}

fn close_in(alloc: Global, args: &[Value]) -> Result<Option<Command>, AllocError>
    ensures { IfOk result (λ command. command ≡ close_in (map view args.now)) }
{
    let [at] = args else {
        return Ok(None);
    };
    let Some(at) = name_in(at) else {
        return Ok(None);
    };
    Ok(Some(Command::Close {
        at: Text::copy_of(alloc, at)?,
    }))
}

fn turn_in(nodes: u8, args: &[Value]) -> Option<Command>
    requires { 0 < nodes }
    ensures { result ≡ turn_in nodes (map view args.now) }
{
    let [node, count] = args else {
        return None;
    };
    let node = number_within(0, u32::from(nodes - 1), node)?;
    let count = number_within(1, MAX_COUNT, count)?;
    Some(Command::Turn {
        node: node as u8,
        count,
    })
}

fn settle_in(args: &[Value]) -> Option<Command>
    ensures { result ≡ settle_in (map view args.now) }
{
    let [limit] = args else {
        return None;
    };
    let limit = number_within(0, MAX_COUNT, limit)?;
    Some(Command::Settle { limit })
}

fn show_in(args: &[Value]) -> Option<Command>
    ensures { result ≡ show_in (map view args.now) }
{
    match args {
        [] => Some(Command::Show),
        _ => None,
    }
}

// ---- whole commands

fn command_named(
    alloc: Global,
    nodes: u8,
    opened: &OpenedNames,
    word: &str,
    args: &[Value],
) -> Result<Option<Command>, AllocError>
    requires { 0 < nodes }
    ensures { IfOk result (λ command.
        command ≡ command_named nodes (contains opened.now) word.now (map view args.now)) }
{
    if word == "open" {
        open_in(alloc, nodes, opened, args)
    } else if word == "put" {
        put_in(alloc, args)
    } else if word == "get" {
        get_in(alloc, args)
    } else if word == "close" {
        close_in(alloc, args)
    } else if word == "turn" {
        Ok(turn_in(nodes, args))
    } else if word == "settle" {
        Ok(settle_in(args))
    } else if word == "show" {
        Ok(show_in(args))
    } else {
        Ok(None)
    }
}

/// The command that a list of JSON values is, if there are so many nodes and these names were opened before it.
pub fn command_in(
    alloc: Global,
    nodes: u8,
    opened: &OpenedNames,
    values: &[Value],
) -> Result<Option<Command>, AllocError>
    requires some_node { 0 < nodes }
    ensures command { IfOk result (λ command.
        command ≡ command_in nodes (contains opened.now) (map view values.now)) }
{
    let [word, args @ ..] = values else {
        return Ok(None);
    };
    let Some(word) = word.as_str() else {
        return Ok(None);
    };
    command_named(alloc, nodes, opened, word, args)
}
