//! The text of a run whose order of acts is drawn.

ghost use Rattle.std.specs.Prelude.{◌≡◌, ◌++◌, IfOk, OnOk};
ghost use Rattle.ipcz_script.specs.Lines.{refused_line};
ghost use Rattle.ipcz_script.specs.ScriptLimits.{HasScriptLimits};
ghost use Rattle.ipcz_events.specs.Outputs.{acts_text};
ghost use Rattle.ipcz_events.specs.RunOutputs.{IsEndedText, IsRunOutput, IsRunText, ending_text, stop_text};

use crate::ending::Ending;
use crate::entry_lines::push_header;
use crate::program::push_acts;
use crate::ran::Ran;
use crate::run::Run;
use crate::schedule::Schedule;
use crate::scheduling::read_schedule;
use ipcz_node::Act;
use ipcz_script::{ScriptFault, Session, refused_output};
use std::alloc::{AllocError, Global};
use std::io;
use std::io::Write;

// Adds the line that tells which command couldn't be obeyed.
fn push_stop(out: &mut Vec<u8>, command: u64) -> io::Result<()>
    ensures { OnOk result (out.new.items ≡ out.old.items ++ stop_text command) }
{
    writeln!(out, "command {command}: not possible")
}

// Adds the lines that tell which command couldn't be obeyed, and what its node could do there.
fn push_stopped(out: &mut Vec<u8>, command: u64, possible: &[Act]) -> io::Result<()>
    ensures { OnOk result (out.new.items ≡ out.old.items ++ (stop_text command ++ acts_text possible.now)) }
{
    push_stop(out, command)?;
    push_acts(out, possible)
}

// Adds what is written behind a log.
fn push_ending(out: &mut Vec<u8>, ending: &Ending) -> io::Result<()>
    ensures { OnOk result (out.new.items ≡ out.old.items ++ ending_text ending.now) }
{
    match ending {
        Ending::Whole => Ok(()),
        Ending::Stopped { command, possible } => push_stopped(out, *command, possible.as_slice()),
    }
}

// The same, where want of memory is the one fault.
fn push_end(out: &mut Vec<u8>, ending: &Ending) -> Result<(), AllocError>
    ensures { OnOk result (out.new.items ≡ out.old.items ++ ending_text ending.now) }
{
    let Ok(()) = push_ending(out, ending) else {
        return Err(AllocError);
    };
    Ok(())
}

// What is written of the run of a script, and how it ends.
fn run_text(alloc: Global, schedule: &Schedule, seed: u64) -> Result<(Ending, Vec<u8>), AllocError>
    requires { HasScriptLimits schedule.now.nodes schedule.now.words }
    ensures { IfOk result (λ written. IsRunText schedule.now seed written.0 written.1.items) }
{
    let mut text = Vec::new(alloc);
    push_header(alloc, &mut text, schedule.nodes, schedule.words, seed)?;
    let session = Session::new(alloc, schedule.nodes, schedule.words)?;
    let mut run = Run {
        session,
        state: seed,
    };
    let ending = run.obey_all(alloc, schedule.nodes, &mut text, schedule.orders.as_slice())?;
    push_end(&mut text, &ending)?;
    Ok((ending, text))
}

// The same, as what came of some bytes.
fn ended_text(alloc: Global, schedule: &Schedule, seed: u64) -> Result<(Ran, Vec<u8>), AllocError>
    requires { HasScriptLimits schedule.now.nodes schedule.now.words }
    ensures { IfOk result (λ written. IsEndedText schedule.now seed written.0 written.1.items) }
{
    let (ending, text) = run_text(alloc, schedule, seed)?;
    Ok((Ran::Ended(ending), text))
}

fn refused_text(alloc: Global, why: ScriptFault) -> Result<(Ran, Vec<u8>), AllocError>
    ensures { IfOk result (λ written. (written.0 ≡ Ran.Refused why) × (written.1.items ≡ refused_line why)) }
{
    let (_, text) = refused_output(alloc, why)?;
    Ok((Ran::Refused(why), text))
}

/// What is written for bytes that are to be run as a script in an order of acts that a seed draws, and what comes of them.
pub(crate) fn run_output(
    alloc: Global,
    input: &[u8],
    seed: u64,
) -> Result<(Ran, Vec<u8>), AllocError>
    ensures { IfOk result (λ written. IsRunOutput seed input.now written.0 written.1.items) }
{
    match read_schedule(alloc, input) {
        Ok(schedule) => ended_text(alloc, &schedule, seed),
        Err(ScriptFault::OutOfMemory) => Err(AllocError),
        Err(why) => refused_text(alloc, why),
    }
}
