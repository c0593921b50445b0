//! From bytes to a script.
ghost use Rattle.std.specs.Prelude.{◌≡◌, ◌<◌, ◌≤◌, length, Some, Err, List, ℕ, [], Result, map, option_map, IfOk, IfSome};
ghost use Rattle.std.specs.FinSet.{contains};
ghost use Rattle.serde_json.specs.Data.{Data};
ghost use Rattle.serde_json.specs.View.{view};
ghost use Rattle.ipcz_script.specs.declared.script.Script.{Script};
ghost use Rattle.ipcz_script.specs.declared.script_fault.ScriptFault.{ScriptFault};
ghost use Rattle.ipcz_script.specs.declared.script_fault.ScriptFault.TheVariants as fault;
ghost use Rattle.ipcz_node.specs.FirstPairs.{first_pair_count};
ghost use Rattle.ipcz_script.specs.Faults.{Gives};
ghost use Rattle.ipcz_script.specs.Reading.{max_bytes, IsScript, IsAnswer};
ghost use Rattle.ipcz_script.specs.Scripts.{commands_from, nodes_in, words_in, values_in, has_three_members, script_of};
ghost use Rattle.ipcz_script.specs.ScriptLimits.{HasScriptLimits};
ghost use Rattle.ipcz_script.specs.Shapes.{command_of};

use crate::command::Command;
use crate::opened_names::OpenedNames;
use crate::script::Script;
use crate::script_fault::ScriptFault;
use crate::shapes::{command_in, number_within, values_of};
use ipcz_base::Sequence;
use ipcz_node::first_pair_count;
use serde_json::Value;
use std::alloc::{AllocError, Global};

const MAX_BYTES: usize = 1_048_576;

const MAX_NODES: u32 = 8;

const MAX_WORDS: u32 = 4096;

// ---- the commands

fn command_of(
    alloc: Global,
    nodes: u8,
    opened: &OpenedNames,
    value: &Value,
) -> Result<Option<Command>, AllocError>
    requires { 0 < nodes }
    ensures { IfOk result (λ command. command ≡ command_of nodes (contains opened.now) (view value.now)) }
{
    let Some(values) = values_of(value) else {
        return Ok(None);
    };
    command_in(alloc, nodes, opened, values)
}

fn commands_of(alloc: Global, nodes: u8, values: &[Value]) -> Result<Sequence<Command>, ScriptFault>
    requires some_node { 0 < nodes }
    requires few { length values.now ≤ max_bytes }
    ensures { Gives result (commands_from nodes [] (map view values.now)) }
{
    let mut commands = Vec::new(alloc);
    let mut opened = OpenedNames::new(alloc);
    for value in values {
        let Some(command) = command_of(alloc, nodes, &opened, value)? else {
            return Err(ScriptFault::BadShape(commands.len() as u32 + 1));
        };
        opened.note(&command)?;
        commands.push(command)?;
    }
    Ok(Sequence::from_vec(commands))
}

// ---- the members

fn nodes_in(value: &Value) -> Option<u8>
    ensures value { result ≡ nodes_in (view value.now) }
    ensures within { IfSome result (λ nodes. (1 ≤ nodes) × (nodes ≤ 8)) }
{
    let nodes = number_within(1, MAX_NODES, value.get("nodes")?)?;
    Some(nodes as u8)
}

fn words_in(value: &Value, nodes: u8) -> Option<u32>
    requires { nodes ≤ 8 }
    ensures value { result ≡ words_in (view value.now) nodes }
    ensures within { IfSome result (λ words. (first_pair_count nodes ≤ words) × (words ≤ 4096)) }
{
    number_within(first_pair_count(nodes), MAX_WORDS, value.get("words")?)
}

fn values_in(value: &Value) -> Option<&[Value]>
    ensures { option_map (λ values. map view values.now) result ≡ values_in (view value.now) }
{
    values_of(value.get("commands")?)
}

fn has_three_members(value: &Value) -> bool
    ensures { result ≡ has_three_members (view value.now) }
{
    match value.as_object() {
        Some(members) => members.len() == 3,
        None => false,
    }
}

// ---- the whole

fn script_of(alloc: Global, value: &Value) -> Result<Script, ScriptFault>
    requires few { (values : List Data) →
        values_in (view value.now) ≡ Some values → length values ≤ max_bytes }
    ensures gives { Gives result (script_of (view value.now)) }
    ensures limits { IfOk result (λ script. HasScriptLimits script.nodes script.words) }
    ensures words { IfOk result (λ script. script.words ≤ 4096) }
{
    if !has_three_members(value) {
        return Err(ScriptFault::BadShape(0));
    }
    let Some(nodes) = nodes_in(value) else {
        return Err(ScriptFault::BadShape(0));
    };
    let Some(words) = words_in(value, nodes) else {
        return Err(ScriptFault::BadShape(0));
    };
    let Some(values) = values_in(value) else {
        return Err(ScriptFault::BadShape(0));
    };
    let commands = commands_of(alloc, nodes, values)?;
    Ok(Script {
        nodes,
        words,
        commands,
    })
}

/// The script that the bytes are (docs/SCRIPTS.md, "The script").
///
/// The refusals, each before the next: `TooLong` if there are more than 1,048,576 bytes, `NotJson` if the bytes are
/// no JSON text, `BadShape(0)` if the value isn't an object of exactly the three members, and `BadShape(n)` for the
/// first value that is no command. `OutOfMemory` says nothing of the bytes.
pub fn read_script(alloc: Global, bytes: &[u8]) -> Result<Script, ScriptFault>
    ensures answer { IsAnswer bytes.now result }
    ensures limits { IfOk result (λ script. HasScriptLimits script.nodes script.words) }
    ensures words { IfOk result (λ script. script.words ≤ 4096) }
    ensures too_long { max_bytes < length bytes.now → result ≡ Err fault.TooLong }
{
    if bytes.len() > MAX_BYTES {
        return Err(ScriptFault::TooLong);
    }
    match Value::from_slice(alloc, bytes) {
        Ok(value) => script_of(alloc, &value),
        Err(error) if error.is_memory() => Err(ScriptFault::OutOfMemory),
        Err(_) => Err(ScriptFault::NotJson),
    }
}

/// The law of reading: some bytes are one script, or are refused for one reason.
pub fn one_reading()
    ensures law { (bytes : List ℕ) (a b : Result Script ScriptFault) →
        IsScript bytes a → IsScript bytes b → a ≡ b }
{}
