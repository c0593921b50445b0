//! The lines of a log that are written.

ghost use Rattle.std.specs.Prelude.{◌≡◌, ◌≤◌, ◌<◌, ◌^◌, ◌++◌, ◌∷◌, [], ℕ, List, false, true, IfOk, OnOk};
ghost use Rattle.serde_json.specs.Data.{array, depth};
ghost use Rattle.serde_json.specs.Read.{max_depth};
ghost use Rattle.serde_json.specs.View.{view};
ghost use Rattle.serde_json.specs.Written.{has_float};
ghost use Rattle.ipcz_script.specs.EventTexts.{event_text};
ghost use Rattle.ipcz_script.specs.ReadBack.{lacks};
ghost use Rattle.ipcz_events.specs.declared.entry.Entry.TheVariants as entries;
ghost use Rattle.ipcz_events.specs.Written.{Adds, IsTextOf, IsWritten, call_items, entry_data, header_data, texts};

use crate::judging::printed;
use ipcz_node::Happened;
use ipcz_script::{Command, Text};
use serde_json::{Value, json};
use std::alloc::{AllocError, Global};

// The value of a list of names.
fn names_value(alloc: Global, names: &[Text]) -> Result<Value, AllocError>
    ensures { IfOk result (λ value. view value ≡ array (texts names.now)) }
{
    let mut values = Vec::new(alloc);
    for name in names {
        values.push(Value::try_from_str(alloc, name.as_str())?)?;
    }
    Ok(Value::Array(values))
}

// The value of a call, as a script has it; of turns and settles, which aren't logged, their name.
fn call_value(alloc: Global, command: &Command) -> Result<Value, AllocError>
    ensures { IfOk result (λ value. view value ≡ array (call_items command.now)) }
{
    match command {
        Command::Open {
            node,
            first,
            second,
        } => json!(in alloc; ["open", *node, first.as_str(), second.as_str()]),
        Command::Put { at, data, ends } => {
            let names = names_value(alloc, ends.as_slice())?;
            json!(in alloc; ["put", at.as_str(), data.as_str(), names])
        }
        Command::Get { at } => json!(in alloc; ["get", at.as_str()]),
        Command::Close { at } => json!(in alloc; ["close", at.as_str()]),
        Command::Show => json!(in alloc; ["show"]),
        Command::Turn { .. } => json!(in alloc; ["turn"]),
        Command::Settle { .. } => json!(in alloc; ["settle"]),
    }
}

// The text of a value without floats that isn't deep.
fn text_of(alloc: Global, value: &Value) -> Result<Vec<u8>, AllocError>
    requires whole { has_float (view value.now) ≡ false }
    requires flat { depth (view value.now) ≤ max_depth }
    ensures { IfOk result (λ text. IsTextOf text.items (view value.now)) }
{
    let text = value.to_vec(alloc)?;
    Ok(text)
}

// The line that stands for what has no text.
fn no_text(alloc: Global) -> Result<Vec<u8>, AllocError>
    ensures { IfOk result (λ text. lacks 10 text.items ≡ true) }
{
    Vec::from_slice(alloc, b"null")
}

// The value of a call with its answer.
fn call_entry(alloc: Global, command: &Command, answer: &str) -> Result<Value, AllocError>
    ensures { IfOk result (λ value. view value ≡ entry_data (entries.Call command.now answer.now)) }
{
    let call = call_value(alloc, command)?;
    json!(in alloc; {"answer": answer, "call": call})
}

// The value of a node with what it was seen to do.
fn acted_entry(alloc: Global, node: u8, event: &str) -> Result<Value, AllocError>
    ensures { IfOk result (λ value. view value ≡ entry_data (entries.Acted node event.now)) }
{
    json!(in alloc; {"event": event, "node": node})
}

// The text of a call with its answer.
fn call_text(alloc: Global, command: &Command, answer: &str) -> Result<Vec<u8>, AllocError>
    ensures { IfOk result (λ text. IsTextOf text.items (entry_data (entries.Call command.now answer.now))) }
{
    let value = call_entry(alloc, command, answer)?;
    let text = text_of(alloc, &value)?;
    Ok(text)
}

// The text of a node with what it was seen to do.
fn acted_text(alloc: Global, node: u8, event: &str) -> Result<Vec<u8>, AllocError>
    ensures { IfOk result (λ text. IsTextOf text.items (entry_data (entries.Acted node event.now))) }
{
    let value = acted_entry(alloc, node, event)?;
    let text = text_of(alloc, &value)?;
    Ok(text)
}

// The same number, which has 8 bits.
fn byte_of(node: u8) -> u8
    ensures same { result ≡ node }
    ensures bits { result < 2 ^ 8 }
{
    node
}

// The line of a call, with what it was answered.
fn call_line(alloc: Global, command: &Command, answer: &[u8]) -> Result<Vec<u8>, AllocError>
    ensures { IfOk result (λ text. IsWritten (entries.Call command.now answer.now) text.items) }
{
    match str::from_utf8(answer) {
        Ok(answer) => {
            let line = call_text(alloc, command, answer)?;
            Ok(line)
        }
        Err(_) => {
            let none = no_text(alloc)?;
            Ok(none)
        }
    }
}

// The line of a node, with what it was seen to do.
fn acted_line(alloc: Global, node: u8, event: &[u8]) -> Result<Vec<u8>, AllocError>
    ensures { IfOk result (λ text. IsWritten (entries.Acted node event.now) text.items) }
{
    let byte = byte_of(node);
    match str::from_utf8(event) {
        Ok(event) => {
            let line = acted_text(alloc, byte, event)?;
            Ok(line)
        }
        Err(_) => {
            let none = no_text(alloc)?;
            Ok(none)
        }
    }
}

// Adds a line.
fn push_line(out: &mut Vec<u8>, line: &[u8]) -> Result<(), AllocError>
    ensures { OnOk result (out.new.items ≡ out.old.items ++ (line.now ++ 10 ∷ [])) }
{
    out.extend_from_slice(line)?;
    out.push(b'\n')?;
    Ok(())
}

/// Adds the line of a call, with what it was answered.
pub(crate) fn push_call(
    alloc: Global,
    out: &mut Vec<u8>,
    command: &Command,
    answer: &[u8],
) -> Result<(), AllocError>
    ensures { OnOk result (Adds (entries.Call command.now answer.now ∷ []) out.old.items out.new.items) }
{
    let line = call_line(alloc, command, answer)?;
    push_line(out, line.as_slice())?;
    Ok(())
}

/// Adds the line of a node, with what it was seen to do.
pub(crate) fn push_acted(
    alloc: Global,
    out: &mut Vec<u8>,
    node: u8,
    event: &Happened,
) -> Result<(), AllocError>
    ensures { OnOk result (Adds (entries.Acted node (event_text event.now) ∷ []) out.old.items out.new.items) }
{
    let text = printed(alloc, event)?;
    let line = acted_line(alloc, node, text.as_slice())?;
    push_line(out, line.as_slice())?;
    Ok(())
}

// The value of the first line of the log of a run.
fn header_value(alloc: Global, nodes: u8, words: u32, seed: u64) -> Result<Value, AllocError>
    ensures { IfOk result (λ value. view value ≡ header_data nodes words seed) }
{
    json!(in alloc; {"nodes": nodes, "seed": seed, "words": words})
}

/// Adds the first line of the log of a run.
pub(crate) fn push_header(
    alloc: Global,
    out: &mut Vec<u8>,
    nodes: u8,
    words: u32,
    seed: u64,
) -> Result<(), AllocError>
    ensures { OnOk result ((line : List ℕ) × IsTextOf line (header_data nodes words seed) × (out.new.items ≡ out.old.items ++ (line ++ 10 ∷ []))) }
{
    let value = header_value(alloc, nodes, words, seed)?;
    let line = text_of(alloc, &value)?;
    push_line(out, line.as_slice())?;
    Ok(())
}
