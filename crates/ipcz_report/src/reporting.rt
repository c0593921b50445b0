//! What is written of some bytes.

ghost use Rattle.std.specs.Prelude.{◌≡◌, ◌≤◌, ◌++◌, List, ℕ, length, map, Err, IfOk, OnOk};
ghost use Rattle.std.specs.List.{All};
ghost use Rattle.ipcz_places.specs.Values.{MembersBegin};
ghost use Rattle.ipcz_script.specs.Reading.{IsAnswer, IsScript, max_bytes};
ghost use Rattle.ipcz_script.specs.declared.script_fault.ScriptFault.TheVariants as faults;
ghost use Rattle.ipcz_report.specs.Notes.{AreNotes};
ghost use Rattle.ipcz_report.specs.Reports.{long_text, numbers, valid_line, IsJsonText, IsRefusedText, IsReport, IsShapeText, IsValidText, TellsAll};

use crate::again::notes;
use crate::before::Before;
use crate::faults::{faults_of, least_words, nodes_in};
use crate::no_json::json_remark;
use crate::outline::{Outline, outline_of};
use crate::remark::{Remark, push_remarks};
use crate::telling::push_command;
use crate::verdict::Verdict;
use crate::words::{Bounds, push_spelling, push_wrong};
use crate::wrong::Fault;
use ipcz_places::{excerpt, push_excerpt};
use ipcz_script::{Command, Script, ScriptFault, read_script};
use serde_json::Value;
use std::alloc::{AllocError, Global};
use std::io;
use std::io::Write;

// ---- members that stand again

// Adds the lines of the remarks on members whose names stand again behind them.
fn push_notes(
    alloc: Global,
    out: &mut Vec<u8>,
    input: &[u8],
    parts: &Outline,
) -> Result<(), AllocError>
    requires members { All (MembersBegin input.now) parts.now.members.items }
    ensures notes { OnOk result ((lines : List ℕ) × AreNotes input.now lines × (out.new.items ≡ out.old.items ++ lines)) }
{
    let notes = notes(alloc, input, parts.members())?;
    push_remarks(out, input, &notes)
}

// ---- a script

// The remark on a command.
fn told_command(
    alloc: Global,
    before: &Before,
    parts: &Outline,
    number: usize,
    command: &Command,
) -> Result<Remark, AllocError>
    ensures { IfOk result (λ remark. remark.number ≡ number) }
{
    let mut words = Vec::new(alloc);
    push_command(&mut words, before, command)?;
    Ok(Remark {
        offset: parts.command(number),
        number,
        words,
    })
}

// The remarks on these commands.
fn told_commands(
    alloc: Global,
    nodes: u8,
    parts: &Outline,
    commands: &[Command],
) -> Result<Vec<Remark>, AllocError>
    ensures { IfOk result (λ remarks. map (λ remark. remark.number) remarks.items ≡ numbers 1 commands.now) }
{
    let mut remarks = Vec::new(alloc);
    let mut before = Before::new(alloc, nodes);
    let mut number = 1;
    for command in commands {
        let remark = told_command(alloc, &before, parts, number, command)?;
        remarks.push(remark)?;
        before.note(number, command)?;
        number += 1;
    }
    Ok(remarks)
}

// Writes the last line of the report on a script of so many commands.
fn push_valid(out: &mut Vec<u8>, nodes: u8, words: u32, commands: usize) -> io::Result<()>
    ensures { OnOk result (out.new.items ≡ out.old.items ++ valid_line nodes words commands) }
{
    write!(
        out,
        "valid: nodes {nodes}, words {words}, commands {commands}\n"
    )
}

fn valid_text(alloc: Global, input: &[u8], script: &Script) -> Result<Vec<u8>, AllocError>
    ensures { IfOk result (λ text. IsValidText input.now script.now text.items) }
{
    let parts = outline_of(alloc, input)?;
    let remarks = told_commands(alloc, script.nodes, &parts, script.commands.as_slice())?;
    let mut text = Vec::new(alloc);
    push_remarks(&mut text, input, &remarks)?;
    push_notes(alloc, &mut text, input, &parts)?;
    let Ok(()) = push_valid(&mut text, script.nodes, script.words, script.commands.len()) else {
        return Err(AllocError);
    };
    Ok(text)
}

// ---- no script

fn push_long(out: &mut Vec<u8>) -> io::Result<()>
    ensures { OnOk result (out.new.items ≡ out.old.items ++ long_text) }
{
    writeln!(
        out,
        "line 1, column 1: the script is too long; expected at most 1048576 bytes"
    )
}

fn long_text(alloc: Global) -> Result<Vec<u8>, AllocError>
    ensures { IfOk result (λ text. text.items ≡ long_text) }
{
    let mut text = Vec::new(alloc);
    let Ok(()) = push_long(&mut text) else {
        return Err(AllocError);
    };
    Ok(text)
}

fn json_text(alloc: Global, input: &[u8]) -> Result<Vec<u8>, AllocError>
    ensures { IfOk result (λ text. IsJsonText input.now text.items) }
{
    let mut remarks = Vec::new(alloc);
    remarks.push(json_remark(alloc, input)?)?;
    let mut text = Vec::new(alloc);
    push_remarks(&mut text, input, &remarks)?;
    Ok(text)
}

// The remark on a fault.
fn told_fault(
    alloc: Global,
    input: &[u8],
    parts: &Outline,
    bounds: Bounds,
    fault: Fault,
) -> Result<Remark, AllocError>
    ensures { IfOk result (λ remark. remark.number ≡ fault.number) }
{
    let offset = parts.offset_of(alloc, input, fault)?;
    let mut shown = Vec::new(alloc);
    push_excerpt(&mut shown, input, offset)?;
    let mut words = Vec::new(alloc);
    let (Ok(()), Ok(())) = (
        push_wrong(&mut words, bounds, &shown, fault.wrong),
        push_spelling(&mut words, fault.wrong, excerpt(input, offset)),
    ) else {
        return Err(AllocError);
    };
    Ok(Remark {
        offset,
        number: fault.number,
        words,
    })
}

// The remarks on these faults.
fn told_faults(
    alloc: Global,
    input: &[u8],
    parts: &Outline,
    bounds: Bounds,
    faults: &[Fault],
) -> Result<Vec<Remark>, AllocError>
    ensures { IfOk result (λ remarks. TellsAll faults.now remarks.items) }
{
    let mut remarks = Vec::new(alloc);
    for fault in faults {
        remarks.push(told_fault(alloc, input, parts, bounds, *fault)?)?;
    }
    Ok(remarks)
}

fn bounds_of(value: &Value) -> Bounds {
    Bounds {
        nodes: nodes_in(value).unwrap_or(8),
        least_words: least_words(value),
    }
}

fn shape_text(alloc: Global, input: &[u8], first: u32) -> Result<Vec<u8>, AllocError>
    requires few { length input.now ≤ max_bytes }
    requires refused { IsScript input.now (Err (faults.BadShape first)) }
    ensures { IfOk result (λ text. IsShapeText input.now first text.items) }
{
    let Ok(value) = Value::from_slice(alloc, input) else {
        return Err(AllocError);
    };
    let faults = faults_of(alloc, &value)?;
    let parts = outline_of(alloc, input)?;
    let remarks = told_faults(alloc, input, &parts, bounds_of(&value), &faults)?;
    let mut text = Vec::new(alloc);
    push_remarks(&mut text, input, &remarks)?;
    push_notes(alloc, &mut text, input, &parts)?;
    Ok(text)
}

fn refused_text(alloc: Global, input: &[u8], why: ScriptFault) -> Result<Vec<u8>, AllocError>
    requires refused { IsAnswer input.now (Err why) }
    ensures { IfOk result (λ text. IsScript input.now (Err why) × IsRefusedText input.now why text.items) }
{
    match why {
        ScriptFault::TooLong => long_text(alloc),
        ScriptFault::NotJson => json_text(alloc, input),
        ScriptFault::BadShape(first) => shape_text(alloc, input, first),
        ScriptFault::OutOfMemory => Err(AllocError),
    }
}

/// What is written of some bytes: a line for each command of the script that they are, or for each of their faults.
///
/// `read_script` is the judge.
pub fn report(alloc: Global, input: &[u8]) -> Result<(Verdict, Vec<u8>), AllocError>
    ensures report { IfOk result (λ written. IsReport input.now written.0 written.1.items) }
{
    match read_script(alloc, input) {
        Ok(script) => Ok((Verdict::Valid, valid_text(alloc, input, &script)?)),
        Err(why) => Ok((Verdict::Refused(why), refused_text(alloc, input, why)?)),
    }
}
