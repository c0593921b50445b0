//! Reading a script that is run in a drawn order of acts.

ghost use Rattle.std.specs.Prelude.{◌≡◌, ◌<◌, ◌≤◌, ◌||◌, ℕ, length, Some, List, [], map, option_map, IfOk, OnOk};
ghost use Rattle.std.specs.FinSet.{contains};
ghost use Rattle.serde_json.specs.Data.{Data};
ghost use Rattle.serde_json.specs.View.{view};
ghost use Rattle.ipcz_script.specs.Faults.{Gives};
ghost use Rattle.ipcz_script.specs.Reading.{max_bytes};
ghost use Rattle.ipcz_script.specs.ScriptLimits.{HasScriptLimits};
ghost use Rattle.ipcz_script.specs.Scripts.{has_three_members, values_in};
ghost use Rattle.ipcz_events.specs.Schedules.{IsRead, act_in, asks, order_in, order_of, order_opens, orders_from, schedule_of};

use crate::header::header_in;
use crate::order::Order;
use crate::schedule::Schedule;
use ipcz_base::Sequence;
use ipcz_script::{OpenedNames, ScriptFault, Text, command_in, number_within, values_of};
use serde_json::Value;
use std::alloc::{AllocError, Global};

const MAX_BYTES: usize = 1_048_576;

// ---- the commands

// Whether the first word of a list is `act`.
fn asks(values: &[Value]) -> bool
    ensures { result ≡ asks (map view values.now) }
{
    let [word, ..] = values else {
        return false;
    };
    match word.as_str() {
        Some(word) => word == "act",
        None => false,
    }
}

// The command that asks for an act that a list is.
fn act_in(alloc: Global, nodes: u8, values: &[Value]) -> Result<Option<Order>, AllocError>
    requires { 0 < nodes }
    ensures { IfOk result (λ order. order ≡ act_in nodes (map view values.now)) }
{
    let [_, node, words] = values else {
        return Ok(None);
    };
    let Some(node) = number_within(0, u32::from(nodes - 1), node) else {
        return Ok(None);
    };
    let Some(words) = words.as_str() else {
        return Ok(None);
    };
    Ok(Some(Order::Act {
        node: node as u8,
        words: Text::copy_of(alloc, words)?,
    }))
}

// The command that a list is.
fn order_in(
    alloc: Global,
    nodes: u8,
    opened: &OpenedNames,
    values: &[Value],
) -> Result<Option<Order>, AllocError>
    requires { 0 < nodes }
    ensures { IfOk result (λ order. order ≡ order_in nodes (contains opened.now) (map view values.now)) }
{
    if asks(values) {
        return act_in(alloc, nodes, values);
    }
    match command_in(alloc, nodes, opened, values)? {
        Some(command) => Ok(Some(Order::Command(command))),
        None => Ok(None),
    }
}

fn order_of(
    alloc: Global,
    nodes: u8,
    opened: &OpenedNames,
    value: &Value,
) -> Result<Option<Order>, AllocError>
    requires { 0 < nodes }
    ensures { IfOk result (λ order. order ≡ order_of nodes (contains opened.now) (view value.now)) }
{
    match values_of(value) {
        Some(values) => order_in(alloc, nodes, opened, values),
        None => Ok(None),
    }
}

// Takes in the names that a command opens.
fn note(opened: &mut OpenedNames, order: &Order) -> Result<(), AllocError>
    ensures { OnOk result ((name : List ℕ) → contains opened.new name ≡ (contains opened.old name || order_opens name order.now)) }
{
    match order {
        Order::Command(command) => opened.note(command),
        Order::Act { .. } => Ok(()),
    }
}

fn orders_of(alloc: Global, nodes: u8, values: &[Value]) -> Result<Sequence<Order>, ScriptFault>
    requires some_node { 0 < nodes }
    requires few { length values.now ≤ max_bytes }
    ensures { Gives result (orders_from nodes [] (map view values.now)) }
{
    let mut orders = Vec::new(alloc);
    let mut opened = OpenedNames::new(alloc);
    for value in values {
        let Some(order) = order_of(alloc, nodes, &opened, value)? else {
            return Err(ScriptFault::BadShape(orders.len() as u32 + 1));
        };
        note(&mut opened, &order)?;
        orders.push(order)?;
    }
    Ok(Sequence::from_vec(orders))
}

// ---- the whole

fn values_in(value: &Value) -> Option<&[Value]>
    ensures { option_map (λ values. map view values.now) result ≡ values_in (view value.now) }
{
    values_of(value.get("commands")?)
}

fn has_three_members(value: &Value) -> bool
    ensures { result ≡ has_three_members (view value.now) }
{
    match value.as_object() {
        Some(members) => members.len() == 3,
        None => false,
    }
}

fn schedule_of(alloc: Global, value: &Value) -> Result<Schedule, ScriptFault>
    requires few { (values : List Data) → values_in (view value.now) ≡ Some values → length values ≤ max_bytes }
    ensures gives { Gives result (schedule_of (view value.now)) }
    ensures limits { IfOk result (λ schedule. HasScriptLimits schedule.nodes schedule.words) }
{
    if !has_three_members(value) {
        return Err(ScriptFault::BadShape(0));
    }
    let Some(header) = header_in(value) else {
        return Err(ScriptFault::BadShape(0));
    };
    let Some(values) = values_in(value) else {
        return Err(ScriptFault::BadShape(0));
    };
    let orders = orders_of(alloc, header.nodes, values)?;
    Ok(Schedule {
        nodes: header.nodes,
        words: header.words,
        orders,
    })
}

/// The script that the bytes are, which is one of docs/SCRIPTS.md, "The script", but may have commands `["act", node, "words"]`, too.
///
/// The refusals are those of `ipcz_script::read_script`: `TooLong`, `NotJson`, `BadShape(0)`, and `BadShape(n)` for the first value that is no
/// command. So `["act", 8, "idle"]` has no known shape, since no script has nine nodes; whether the words name an act is seen when it is run.
pub fn read_schedule(alloc: Global, bytes: &[u8]) -> Result<Schedule, ScriptFault>
    ensures answer { IsRead bytes.now result }
    ensures limits { IfOk result (λ schedule. HasScriptLimits schedule.nodes schedule.words) }
{
    if bytes.len() > MAX_BYTES {
        return Err(ScriptFault::TooLong);
    }
    match Value::from_slice(alloc, bytes) {
        Ok(value) => schedule_of(alloc, &value),
        Err(error) if error.is_memory() => Err(ScriptFault::OutOfMemory),
        Err(_) => Err(ScriptFault::NotJson),
    }
}
