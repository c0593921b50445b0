//! The program `ipcz_judge_events`, but for its arguments and devices.

ghost use Rattle.std.specs.Prelude.{◌≡◌, ◌↔◌, ◌++◌, ℕ, false, Ok, OnErr, OnOk, IsErrOf, IfOk, IsTrue, codes};
ghost use Rattle.ipcz_script.specs.Transcript.{ReadsAndWritesBy};
ghost use Rattle.ipcz_events.specs.Outputs.{acts_text, help, Judges, IsText, line, place_text, ReadsAndWrites, status, usage, verdict_text, Writes};
ghost use Rattle.ipcz_events.specs.RunOutputs.{IsRunOutput, RunsScript, run_status};

use crate::ending::Ending;
use crate::log_text::judge_log;
use crate::ran::Ran;
use crate::run_text::run_output;
use crate::telling::push_act;
use crate::verdict::Verdict;
use ipcz_base::Bytes;
use ipcz_device::{Device, read_up_to, write_whole};
use ipcz_lines::number;
use ipcz_node::Act;
use ipcz_script::RunFault;
use std::alloc::{AllocError, Global};
use std::env;
use std::env::Env;
use std::io::{self, ErrorKind, Read, Write};

const MOST_READ: usize = 1_073_741_825;

const MOST_OF_A_SCRIPT: usize = 1_048_577;

const USAGE: &[u8] =
    b"usage: ipcz_judge_events [--help] < LOG, or ipcz_judge_events run [--seed N] < SCRIPT\n";

const HELP: &[u8] =
    b"usage: ipcz_judge_events [--help] < LOG, or ipcz_judge_events run [--seed N] < SCRIPT\n\nReads a log of the calls and events of another implementation, a JSON value a line, and says whether the rules allow it: ends with\nstatus 0 if they do, and else with status 2 and the first line that they don't allow, or that is none of a log.\nOf one that they don't allow a second line tells a text that is allowed in its place, if one is known; and of an act\nfurther lines tell each act that its node could take there.\n\nWith run it reads a script, runs it in an order of acts that the seed N draws (0 if none is given), and writes a log of its calls and events: ends with\nstatus 0, or with status 2 if it is no script or asks for an act that isn't possible.\n";

/// What the arguments of the program ask for.
#[derive(Clone, Copy, Debug, PartialEq, Eq)]
pub enum Asked {
    /// There is none: a log is judged.
    Log,
    /// There is the one word `run`, or `run --seed N`: a script is run in an order of acts that this seed draws, 0 if none is given.
    Run(u64),
    /// There is the one word `--help` or `-h`: what the program does.
    Help,
    /// There are others: how the program is called.
    Usage,
}

/// What the arguments of the program after its name ask for, or that no memory was found to look at them.
///
/// One that is not UTF-8 counts.
pub fn asked_for(rt: &(impl Env + Alloc)) -> Result<Asked, AllocError> {
    let mut arguments = match env::args(rt) {
        Ok(arguments) => arguments,
        Err(why) if why.kind() == ErrorKind::OutOfMemory => return Err(AllocError),
        Err(_) => return Ok(Asked::Usage),
    };
    let _name = arguments.next();
    let first = arguments.next();
    let second = arguments.next();
    let third = arguments.next();
    if arguments.next().is_some() {
        return Ok(Asked::Usage);
    }
    Ok(asked_by(
        first.as_ref().map(|word| word.as_bytes()),
        second.as_ref().map(|word| word.as_bytes()),
        third.as_ref().map(|word| word.as_bytes()),
    ))
}

// What the first three words ask for, if there are no more.
fn asked_by(first: Option<&[u8]>, second: Option<&[u8]>, third: Option<&[u8]>) -> Asked {
    match (first, second, third) {
        (None, _, _) => Asked::Log,
        (Some(b"--help" | b"-h"), None, _) => Asked::Help,
        (Some(b"run"), None, _) => Asked::Run(0),
        (Some(b"run"), Some(b"--seed"), Some(digits)) => match number(digits) {
            Some(seed) => Asked::Run(seed),
            None => Asked::Usage,
        },
        _ => Asked::Usage,
    }
}

// Adds the line that tells a text.
fn push_told(out: &mut Vec<u8>, text: &[u8]) -> io::Result<()>
    ensures { OnOk result (out.new.items ≡ out.old.items ++ codes "in its place: " ++ line text.now) }
{
    write!(out, "in its place: ")?;
    out.extend_from_slice(text)?;
    writeln!(out)
}

// Adds the line that tells what is allowed in place of a refused one, if something is told.
fn push_place(out: &mut Vec<u8>, told: &Option<Bytes>) -> io::Result<()>
    ensures { OnOk result (out.new.items ≡ out.old.items ++ place_text told.now) }
{
    match told {
        Some(text) => push_told(out, text.as_slice()),
        None => Ok(()),
    }
}

/// Adds the lines that tell acts.
pub(crate) fn push_acts(out: &mut Vec<u8>, acts: &[Act]) -> io::Result<()>
    ensures { OnOk result (out.new.items ≡ out.old.items ++ acts_text acts.now) }
{
    for act in acts {
        write!(out, "possible: ")?;
        push_act(out, *act)?;
        writeln!(out)?;
    }
    Ok(())
}

// Adds what is written for a verdict.
fn push_verdict(out: &mut Vec<u8>, verdict: &Verdict) -> io::Result<()>
    ensures { OnOk result (out.new.items ≡ out.old.items ++ verdict_text verdict.now) }
{
    match verdict {
        Verdict::Allowed => writeln!(out, "allowed"),
        Verdict::Refused {
            line,
            instead,
            possible,
        } => {
            writeln!(out, "line {line}: refused")?;
            push_place(out, instead)?;
            push_acts(out, possible.as_slice())
        }
        Verdict::NoLog(line) => writeln!(out, "line {line}: no line of a log"),
    }
}

// What is written for a verdict.
fn text_of(alloc: Global, verdict: &Verdict) -> Result<Vec<u8>, AllocError>
    ensures { IfOk result (λ text. IsText verdict.now text.items) }
{
    let mut text = Vec::new(alloc);
    match push_verdict(&mut text, verdict) {
        Ok(()) => Ok(text),
        Err(_) => Err(AllocError),
    }
}

/// Reads a log to its end, judges it, and writes what is said of it.
///
/// At most 1,073,741,825 bytes are read. `RunFault::Read` and `RunFault::Write` say that the reader or the writer has failed;
/// `RunFault::OutOfMemory` that no memory was found, in which case nothing was written, as after a failed read.
pub fn check<R: Read, W: Write>(
    alloc: Global,
    reader: &mut Device<R>,
    writer: &mut Device<W>,
) -> Result<Verdict, RunFault>
    requires reader_works { reader.old.failed ≡ false }
    requires writer_works { writer.old.failed ≡ false }
    ensures run { ReadsAndWrites (R.remaining reader.old.inner) (R.remaining reader.new.inner)
        (W.contents writer.old.inner) (W.contents writer.new.inner) result }
    ensures read { IsErrOf result RunFault.Read ↔ IsTrue reader.new.failed }
    ensures write { IsErrOf result RunFault.Write ↔ IsTrue writer.new.failed }
{
    let input = read_up_to(alloc, reader, MOST_READ)?;
    let verdict = judge_log(alloc, &input)?;
    let text = text_of(alloc, &verdict)?;
    let Ok(()) = write_whole(writer, &text) else {
        return Err(RunFault::Write);
    };
    Ok(verdict)
}

// The status of a verdict: 0 allowed, 1 a read or write failed, 2 refused or no log, 3 want of memory.
#[tactic(auto, unfolding(crate::specs::Outputs::status))]
fn status_of(ending: Result<Verdict, RunFault>) -> u8
    ensures { result ≡ status ending }
{
    match ending {
        Ok(Verdict::Allowed) => 0,
        Err(RunFault::Read | RunFault::Write) => 1,
        Ok(Verdict::Refused { .. } | Verdict::NoLog(_)) => 2,
        Err(RunFault::OutOfMemory) => 3,
    }
}

// Writes a text, and gives the status, or 1 if a write failed.
fn write_text<W: Write>(writer: &mut Device<W>, text: &[u8], status: u8) -> u8
    requires { writer.old.failed ≡ false }
    ensures { Writes text.now status (W.contents writer.old.inner) (W.contents writer.new.inner) writer.new.failed result }
{
    match write_whole(writer, text) {
        Ok(()) => status,
        Err(_) => 1,
    }
}

// Judges the log that the reader gives, and gives the status.
fn judge_to_status<R: Read, W: Write>(
    alloc: Global,
    reader: &mut Device<R>,
    writer: &mut Device<W>,
) -> u8
    requires reader_works { reader.old.failed ≡ false }
    requires writer_works { writer.old.failed ≡ false }
    ensures { Judges (R.remaining reader.old.inner) (R.remaining reader.new.inner)
        (W.contents writer.old.inner) (W.contents writer.new.inner) reader.new.failed writer.new.failed result }
{
    status_of(check(alloc, reader, writer))
}

/// Reads a script to its end, runs it in an order of acts that a seed draws, and writes the log of that, whole and in one go at its end
/// (docs/JUDGE.md, "Drawing an order of acts").
///
/// At most 1,048,577 bytes are read. Bytes that are no script make one line that says why; behind the log of one with a command that asks for an
/// act that its node can't take there, some lines tell which it is, and which acts the node could take. The faults are those of `check`.
pub fn run_drawn<R: Read, W: Write>(
    alloc: Global,
    seed: u64,
    reader: &mut Device<R>,
    writer: &mut Device<W>,
) -> Result<Ran, RunFault>
    requires reader_works { reader.old.failed ≡ false }
    requires writer_works { writer.old.failed ≡ false }
    ensures run { ReadsAndWritesBy (IsRunOutput seed) (R.remaining reader.old.inner) (R.remaining reader.new.inner)
        (W.contents writer.old.inner) (W.contents writer.new.inner) result }
    ensures read { IsErrOf result RunFault.Read ↔ IsTrue reader.new.failed }
    ensures write { IsErrOf result RunFault.Write ↔ IsTrue writer.new.failed }
{
    let input = read_up_to(alloc, reader, MOST_OF_A_SCRIPT)?;
    let Ok((ran, text)) = run_output(alloc, &input, seed) else {
        return Err(RunFault::OutOfMemory);
    };
    let Ok(()) = write_whole(writer, &text) else {
        return Err(RunFault::Write);
    };
    Ok(ran)
}

// The status of a run: 0 each command was obeyed, 1 a read or write failed, 2 one couldn't be obeyed or there is no script, 3 want of memory.
#[tactic(auto, unfolding(crate::specs::RunOutputs::run_status))]
fn status_of_run(ending: Result<Ran, RunFault>) -> u8
    ensures { result ≡ run_status ending }
{
    match ending {
        Ok(Ran::Ended(Ending::Whole)) => 0,
        Err(RunFault::Read | RunFault::Write) => 1,
        Ok(Ran::Ended(Ending::Stopped { .. }) | Ran::Refused(_)) => 2,
        Err(RunFault::OutOfMemory) => 3,
    }
}

// Runs the script that the reader gives, and gives the status.
fn run_to_status<R: Read, W: Write>(
    alloc: Global,
    seed: u64,
    reader: &mut Device<R>,
    writer: &mut Device<W>,
) -> u8
    requires reader_works { reader.old.failed ≡ false }
    requires writer_works { writer.old.failed ≡ false }
    ensures { RunsScript seed (R.remaining reader.old.inner) (R.remaining reader.new.inner)
        (W.contents writer.old.inner) (W.contents writer.new.inner) reader.new.failed writer.new.failed result }
{
    status_of_run(run_drawn(alloc, seed, reader, writer))
}

/// The program but for its arguments and devices, which it is given: it judges the log that the reader gives, and answers the status
/// (docs/JUDGE.md, "Statuses").
///
/// `asked` is what `asked_for` answered. If a run is, the script that the reader gives is run as by `run_drawn`; the status is 0 if each command was
/// obeyed, 1 if a read or a write failed, 2 if one couldn't be obeyed or the bytes are no script, and 3 if no memory was found. If the help is asked for, it is written, nothing is read, and the status is 0; if the
/// usage is, its line is written, nothing is read, and the status is 2; and 1 if a write failed. If no memory was found to look at the
/// arguments, nothing is read or written, and the status is 3. Else the status is 0 if the log is allowed, 1 if a read or a
/// write failed, 2 if a line of it isn't allowed or is none, and 3 if no memory was found.
pub fn run_program<R: Read, W: Write>(
    alloc: Global,
    asked: Result<Asked, AllocError>,
    reader: &mut Device<R>,
    writer: &mut Device<W>,
) -> u8
    requires reader_works { reader.old.failed ≡ false }
    requires writer_works { writer.old.failed ≡ false }
    ensures log { asked ≡ Ok Asked.Log → Judges (R.remaining reader.old.inner) (R.remaining reader.new.inner)
        (W.contents writer.old.inner) (W.contents writer.new.inner) reader.new.failed writer.new.failed result }
    ensures drawn { (seed : ℕ) → asked ≡ Ok (Asked.Run seed) → RunsScript seed (R.remaining reader.old.inner) (R.remaining reader.new.inner)
        (W.contents writer.old.inner) (W.contents writer.new.inner) reader.new.failed writer.new.failed result }
    ensures help { asked ≡ Ok Asked.Help →
        Writes help 0 (W.contents writer.old.inner) (W.contents writer.new.inner) writer.new.failed result }
    ensures usage { asked ≡ Ok Asked.Usage →
        Writes usage 2 (W.contents writer.old.inner) (W.contents writer.new.inner) writer.new.failed result }
    ensures unread_help { asked ≡ Ok Asked.Help → reader.new ≡ reader.old }
    ensures unread_usage { asked ≡ Ok Asked.Usage → reader.new ≡ reader.old }
    ensures no_memory { OnErr asked ((result ≡ 3) × (reader.new ≡ reader.old) × (writer.new ≡ writer.old)) }
{
    match asked {
        Ok(Asked::Log) => judge_to_status(alloc, reader, writer),
        Ok(Asked::Run(seed)) => run_to_status(alloc, seed, reader, writer),
        Ok(Asked::Help) => write_text(writer, HELP, 0),
        Ok(Asked::Usage) => write_text(writer, USAGE, 2),
        Err(AllocError) => 3,
    }
}
