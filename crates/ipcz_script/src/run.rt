//! From bytes that are read to lines that are written.
ghost use Rattle.std.specs.Prelude.{◌≡◌, ◌↔◌, ◌++◌, false, IsTrue, IsErrOf, IfOk, OnOk};
ghost use Rattle.ipcz_script.specs.ScriptLimits.{HasScriptLimits};
ghost use Rattle.ipcz_script.specs.Lines.{lines_of, refused_line};
ghost use Rattle.ipcz_script.specs.Transcript.{is_unsettled, IsOutput, IsRunOutput, IsTranscript, ReadsAndWrites, Writes};

use crate::command::Command;
use crate::lines::{push_lines, push_refused};
use crate::outcome::Outcome;
use crate::reading::read_script;
use crate::run_fault::RunFault;
use crate::said::Said;
use crate::script::Script;
use crate::script_fault::ScriptFault;
use crate::session::Session;
use crate::titles::Titles;
use ipcz_device::{Device, read_up_to, write_whole};
use std::alloc::{AllocError, Global};
use std::io::{Read, Write};

const MOST_READ: usize = 1_048_577;

/// Adds the lines of a command and its answer to a transcript, and says whether the answer is that of a settle that came to its
/// limit (docs/SCRIPTS.md, "The transcript").
///
/// After an `Err` some front of the lines may stand behind what was there.
#[tactic(auto, unfolding(crate::specs::Transcript::is_unsettled))]
pub fn push_answer(
    text: &mut Vec<u8>,
    titles: &Titles,
    command: &Command,
    said: &Said,
) -> Result<bool, AllocError>
    ensures lines { OnOk result (text.new.items ≡ text.old.items ++ lines_of titles.now command.now said.now) }
    ensures unsettled { IfOk result (λ unsettled. unsettled ≡ is_unsettled said.now) }
{
    let Ok(()) = push_lines(text, titles, command, said) else {
        return Err(AllocError);
    };
    Ok(matches!(said, Said::Unsettled))
}

// Runs the commands in order and gives their lines; and whether some settle came to its limit.
fn run_commands(
    alloc: Global,
    session: &mut Session,
    commands: &[Command],
) -> Result<(bool, Vec<u8>), AllocError>
    ensures { IfOk result (λ written. Writes session.old commands.now written.1.items written.0 session.new) }
{
    let mut text = Vec::new(alloc);
    let mut unsettled = false;
    for command in commands {
        let said = session.run(command)?;
        let stopped = push_answer(&mut text, session.titles(), command, &said)?;
        unsettled |= stopped;
    }
    Ok((unsettled, text))
}

// A transcript of a script; and whether some settle came to its limit.
fn transcript(alloc: Global, script: &Script) -> Result<(bool, Vec<u8>), AllocError>
    requires { HasScriptLimits script.now.nodes script.now.words }
    ensures { IfOk result (λ written. IsTranscript script.now written.1.items written.0) }
{
    let mut session = Session::new(alloc, script.nodes, script.words)?;
    run_commands(alloc, &mut session, script.commands.as_slice())
}

fn run_output(alloc: Global, script: &Script) -> Result<(Outcome, Vec<u8>), AllocError>
    requires { HasScriptLimits script.now.nodes script.now.words }
    ensures { IfOk result (λ written. IsRunOutput script.now written.0 written.1.items) }
{
    let (unsettled, text) = transcript(alloc, script)?;
    if unsettled {
        return Ok((Outcome::Unsettled, text));
    }
    Ok((Outcome::Done, text))
}

// What is written for these bytes, and how their run ends.
fn output(alloc: Global, input: &[u8]) -> Result<(Outcome, Vec<u8>), AllocError>
    ensures { IfOk result (λ written. IsOutput input.now written.0 written.1.items) }
{
    match read_script(alloc, input) {
        Ok(script) => run_output(alloc, &script),
        Err(ScriptFault::OutOfMemory) => Err(AllocError),
        Err(why) => refused_output(alloc, why),
    }
}

/// The one line for bytes that are no script, and how their run ends (docs/SCRIPTS.md, "The transcript").
///
/// For `ScriptFault::OutOfMemory`, which is no refusal, there is no line.
pub fn refused_output(alloc: Global, why: ScriptFault) -> Result<(Outcome, Vec<u8>), AllocError>
    ensures output { IfOk result (λ written. (written.0 ≡ Outcome.Refused why) × (written.1.items ≡ refused_line why)) }
{
    let mut text = Vec::new(alloc);
    let Ok(()) = push_refused(&mut text, why) else {
        return Err(AllocError);
    };
    Ok((Outcome::Refused(why), text))
}

/// Reads a script to its end, runs it, and writes its transcript, whole and in one go after the last command
/// (docs/SCRIPTS.md, "The script" and "The transcript").
///
/// At most 1,048,577 bytes are read. Bytes that are no script make one line that says why. `RunFault::Read` and
/// `RunFault::Write` say that the reader or the writer has failed; `RunFault::OutOfMemory` that no memory was found, in which
/// case nothing was written, as after a failed read.
pub fn run_script<R: Read, W: Write>(
    alloc: Global,
    reader: &mut Device<R>,
    writer: &mut Device<W>,
) -> Result<Outcome, RunFault>
    requires reader_works { reader.old.failed ≡ false }
    requires writer_works { writer.old.failed ≡ false }
    ensures run { ReadsAndWrites (R.remaining reader.old.inner) (R.remaining reader.new.inner)
        (W.contents writer.old.inner) (W.contents writer.new.inner) result }
    ensures read { IsErrOf result RunFault.Read ↔ IsTrue reader.new.failed }
    ensures write { IsErrOf result RunFault.Write ↔ IsTrue writer.new.failed }
{
    let input = read_up_to(alloc, reader, MOST_READ)?;
    let Ok((outcome, text)) = output(alloc, &input) else {
        return Err(RunFault::OutOfMemory);
    };
    let Ok(()) = write_whole(writer, &text) else {
        return Err(RunFault::Write);
    };
    Ok(outcome)
}
