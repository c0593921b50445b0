//! What is wrong with a script.

ghost use Rattle.std.specs.Prelude.{◌≡◌, ◌<◌, ◌≤◌, ◌||◌, true, false, List, ℕ, [], Some, is_some, map, option_map, IfOk, OnOk, IfSome};
ghost use Rattle.std.specs.FinSet.{contains};
ghost use Rattle.serde_json.specs.View.{view};
ghost use Rattle.ipcz_node.specs.FirstPairs.{first_pair_count};
ghost use Rattle.ipcz_script.specs.declared.command.Command.{Command};
ghost use Rattle.ipcz_script.specs.ScriptNames.{opens};
ghost use Rattle.ipcz_script.specs.Scripts.{nodes_in, values_in};
ghost use Rattle.ipcz_script.specs.Shapes.{command_of};
ghost use Rattle.ipcz_report.specs.Faults.{has, has_members, has_right, key_text, known_members, AreFaults, AreFaultsOf, AreHeadFaults, AddsFault, Judges};

use crate::judging::wrong_in;
use crate::wrong::{Fault, Key, Wrong};
use ipcz_node::first_pair_count;
use ipcz_script::{OpenedNames, command_in, number_within, values_of};
use serde_json::Value;
use std::alloc::{AllocError, Global};

// ---- the commands

// Takes in the names that a value opens, if it is a command that opens some.
fn note(alloc: Global, nodes: u8, opened: &mut OpenedNames, value: &Value) -> Result<(), AllocError>
    requires { 0 < nodes }
    ensures { OnOk result ((c : Command) → command_of nodes (contains opened.old) (view value.now) ≡ Some c → (name : List ℕ) →
        contains opened.new name ≡ (contains opened.old name || opens name c)) }
{
    let Some(values) = values_of(value) else {
        return Ok(());
    };
    let Some(command) = command_in(alloc, nodes, opened, values)? else {
        return Ok(());
    };
    opened.note(&command)
}

// Judges a value: takes in the names that it opens if it is a command, and else takes down what is wrong with it.
fn judge(
    alloc: Global,
    nodes: u8,
    opened: &mut OpenedNames,
    faults: &mut Vec<Fault>,
    number: usize,
    value: &Value,
) -> Result<(), AllocError>
    requires { 0 < nodes }
    ensures { OnOk result
        (Judges nodes (contains opened.old) (contains opened.new) number (view value.now) faults.old.items faults.new.items) }
{
    let Some(wrong) = wrong_in(nodes, opened, value) else {
        return note(alloc, nodes, opened, value);
    };
    faults.push(Fault { number, wrong })?;
    Ok(())
}

// The faults of the values that are to be commands.
fn command_faults(alloc: Global, nodes: u8, values: &[Value]) -> Result<Vec<Fault>, AllocError>
    requires some_node { 0 < nodes }
    ensures { IfOk result (λ faults. AreFaults nodes [] 1 (map view values.now) faults.items) }
{
    let mut faults = Vec::new(alloc);
    let mut opened = OpenedNames::new(alloc);
    let mut number = 1;
    for value in values {
        judge(alloc, nodes, &mut opened, &mut faults, number, value)?;
        number += 1;
    }
    Ok(faults)
}

// ---- the members

/// The number of nodes, if it is one from 1 to 8.
pub fn nodes_in(value: &Value) -> Option<u8>
    ensures value { result ≡ nodes_in (view value.now) }
    ensures within { IfSome result (λ nodes. (1 ≤ nodes) × (nodes ≤ 8)) }
{
    let nodes = number_within(1, 8, value.get("nodes")?)?;
    Some(nodes as u8)
}

fn values_in(value: &Value) -> Option<&[Value]>
    ensures { option_map (λ values. map view values.now) result ≡ values_in (view value.now) }
{
    values_of(value.get("commands")?)
}

/// How many link words a script has to have at least, as far as its number of nodes is known.
pub fn least_words(value: &Value) -> u32
    ensures least { (nodes : ℕ) → nodes_in (view value.now) ≡ Some nodes → result ≡ first_pair_count nodes }
{
    match nodes_in(value) {
        Some(nodes) => first_pair_count(nodes),
        None => 0,
    }
}

fn has_words(value: &Value) -> bool
    ensures right { result ≡ true → is_some (nodes_in (view value.now)) ≡ true → has_right Key.Words (view value.now) ≡ true }
    ensures wrong { result ≡ false → has_right Key.Words (view value.now) ≡ false }
{
    match value.get("words") {
        Some(words) => number_within(least_words(value), 4096, words).is_some(),
        None => false,
    }
}

// Whether there is a member of this name, as a number.
fn has(value: &Value, name: &str) -> usize
    ensures number { result ≡ has name.now (view value.now) }
    ensures few { result ≤ 1 }
{
    if value.get(name).is_some() { 1 } else { 0 }
}

// How many of a script's three members an object has.
fn known_members(value: &Value) -> usize
    ensures { result ≡ known_members (view value.now) }
{
    has(value, "nodes") + has(value, "words") + has(value, "commands")
}

// Takes down what is wrong with a member, if it isn't as it has to be.
fn judge_member(
    faults: &mut Vec<Fault>,
    value: &Value,
    key: Key,
    name: &str,
    is_right: bool,
) -> Result<(), AllocError>
    requires name { name.now ≡ key_text key }
    requires wrong { is_right ≡ false → has_right key (view value.now) ≡ false }
    ensures { OnOk result (AddsFault (view value.now) is_right faults.old.items faults.new.items) }
{
    if is_right {
        return Ok(());
    }
    let wrong = if value.get(name).is_some() {
        Wrong::Member(key)
    } else {
        Wrong::Missing(key)
    };
    faults.push(Fault { number: 0, wrong })?;
    Ok(())
}

// Takes down that there is a member more, if there is one.
fn judge_count(faults: &mut Vec<Fault>, value: &Value, is_right: bool) -> Result<(), AllocError>
    requires { is_right ≡ has_members (known_members (view value.now)) (view value.now) }
    ensures { OnOk result (AddsFault (view value.now) is_right faults.old.items faults.new.items) }
{
    if is_right {
        return Ok(());
    }
    let wrong = Wrong::Extra;
    faults.push(Fault { number: 0, wrong })?;
    Ok(())
}

// The faults of a script's members.
fn head_faults(alloc: Global, value: &Value) -> Result<Vec<Fault>, AllocError>
    ensures { IfOk result (λ faults. AreHeadFaults (view value.now) faults.items) }
{
    let mut faults = Vec::new(alloc);
    let Some(members) = value.as_object() else {
        let wrong = Wrong::NoObject;
        faults.push(Fault { number: 0, wrong })?;
        return Ok(faults);
    };
    judge_member(
        &mut faults,
        value,
        Key::Nodes,
        "nodes",
        nodes_in(value).is_some(),
    )?;
    judge_member(&mut faults, value, Key::Words, "words", has_words(value))?;
    judge_member(
        &mut faults,
        value,
        Key::Commands,
        "commands",
        values_in(value).is_some(),
    )?;
    judge_count(&mut faults, value, members.len() == known_members(value))?;
    Ok(faults)
}

// ---- the whole

/// What is wrong with a script: its members, or, if they are as they have to be, its commands.
pub fn faults_of(alloc: Global, value: &Value) -> Result<Vec<Fault>, AllocError>
    ensures faults { IfOk result (λ faults. AreFaultsOf (view value.now) faults.items) }
{
    let faults = head_faults(alloc, value)?;
    if !faults.is_empty() {
        return Ok(faults);
    }
    let Some(nodes) = nodes_in(value) else {
        return Ok(faults);
    };
    let Some(values) = values_in(value) else {
        return Ok(faults);
    };
    command_faults(alloc, nodes, values)
}
