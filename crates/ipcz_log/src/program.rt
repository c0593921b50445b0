//! The program, but for its arguments and devices.

ghost use Rattle.std.specs.Prelude.{◌≡◌, ◌↔◌, false, Ok, OnErr, IsErrOf, IfOk, IsTrue, string_bytes};
ghost use Rattle.ipcz_log.specs.Outputs.{help, Judges, IsText, ReadsAndWrites, status, usage, Writes};

use crate::judging::judge_log;
use crate::verdict::Verdict;
use ipcz_device::{Device, write_whole};
use ipcz_script::RunFault;
use std::alloc::{AllocError, Global};
use std::env;
use std::env::Env;
use std::io::{ErrorKind, Read, Write};

const USAGE: &[u8] = b"usage: ipcz_judge [--help] < LOG\n";

const HELP: &[u8] =
    b"usage: ipcz_judge [--help] < LOG\n\nReads a log of calls of another implementation, a JSON value a line, and says whether the promise allows them: ends with status 0\nif it does, and else with status 2 and the first line that it doesn't allow, or that is none of a log.\n";

/// What the arguments of the program ask for.
#[derive(Clone, Copy, Debug, PartialEq, Eq)]
pub enum Asked {
    /// There is none: a log is judged.
    Log,
    /// There is the one word `--help` or `-h`: what the program does.
    Help,
    /// There are others: how the program is called.
    Usage,
}

/// What the arguments of the program after its name ask for, or that no memory was found to look at them.
///
/// One that is not UTF-8 counts.
pub fn asked_for(rt: &(impl Env + Alloc)) -> Result<Asked, AllocError> {
    let mut arguments = match env::args(rt) {
        Ok(arguments) => arguments,
        Err(why) if why.kind() == ErrorKind::OutOfMemory => return Err(AllocError),
        Err(_) => return Ok(Asked::Usage),
    };
    let _name = arguments.next();
    let Some(word) = arguments.next() else {
        return Ok(Asked::Log);
    };
    let is_help = word.as_str() == "--help" || word.as_str() == "-h";
    if is_help && arguments.next().is_none() {
        Ok(Asked::Help)
    } else {
        Ok(Asked::Usage)
    }
}

// The line that is written for a verdict.
fn text_of(alloc: Global, verdict: Verdict) -> Result<String, AllocError>
    ensures { IfOk result (λ text. IsText verdict (string_bytes text)) }
{
    match verdict {
        Verdict::Allowed => String::from_str(alloc, "allowed\n"),
        Verdict::Refused(line) => format!(in alloc; "line {line}: refused\n"),
        Verdict::NoOrder(line) => format!(in alloc; "line {line}: refused in every order\n"),
        Verdict::Untold => String::from_str(alloc, "no order found in ten million steps\n"),
        Verdict::NoLog(line) => format!(in alloc; "line {line}: no line of a log\n"),
    }
}

/// Reads a log up to what decides it, judges it, and writes what is said of it.
///
/// `RunFault::Read` and `RunFault::Write` say that the reader or the writer has failed; `RunFault::OutOfMemory` that no memory was found, or that a line has more
/// than 1,073,741,824 bytes. In both cases nothing was written, as after a failed read.
pub fn check<R: Read, W: Write>(
    alloc: Global,
    reader: &mut Device<R>,
    writer: &mut Device<W>,
) -> Result<Verdict, RunFault>
    requires reader_works { reader.old.failed ≡ false }
    requires writer_works { writer.old.failed ≡ false }
    ensures run { ReadsAndWrites (R.remaining reader.old.inner) (R.remaining reader.new.inner)
        (W.contents writer.old.inner) (W.contents writer.new.inner) result }
    ensures read { IsErrOf result RunFault.Read ↔ IsTrue reader.new.failed }
    ensures write { IsErrOf result RunFault.Write ↔ IsTrue writer.new.failed }
{
    let verdict = judge_log(alloc, reader)?;
    let text = text_of(alloc, verdict)?;
    let Ok(()) = write_whole(writer, text.as_bytes()) else {
        return Err(RunFault::Write);
    };
    Ok(verdict)
}

// The status of a verdict: 0 allowed, 1 a read or write failed, 2 refused or no log, 3 want of memory, 4 not told.
#[tactic(auto, unfolding(crate::specs::Outputs::status))]
fn status_of(ending: Result<Verdict, RunFault>) -> u8
    ensures { result ≡ status ending }
{
    match ending {
        Ok(Verdict::Allowed) => 0,
        Err(RunFault::Read | RunFault::Write) => 1,
        Ok(Verdict::Refused(_) | Verdict::NoOrder(_) | Verdict::NoLog(_)) => 2,
        Err(RunFault::OutOfMemory) => 3,
        Ok(Verdict::Untold) => 4,
    }
}

// Writes a text, and gives the status, or 1 if a write failed.
fn write_text<W: Write>(writer: &mut Device<W>, text: &[u8], status: u8) -> u8
    requires { writer.old.failed ≡ false }
    ensures { Writes text.now status (W.contents writer.old.inner) (W.contents writer.new.inner) writer.new.failed result }
{
    match write_whole(writer, text) {
        Ok(()) => status,
        Err(_) => 1,
    }
}

// Judges the log that the reader gives, and gives the status.
fn judge_to_status<R: Read, W: Write>(
    alloc: Global,
    reader: &mut Device<R>,
    writer: &mut Device<W>,
) -> u8
    requires reader_works { reader.old.failed ≡ false }
    requires writer_works { writer.old.failed ≡ false }
    ensures { Judges (R.remaining reader.old.inner) (R.remaining reader.new.inner)
        (W.contents writer.old.inner) (W.contents writer.new.inner) reader.new.failed writer.new.failed result }
{
    status_of(check(alloc, reader, writer))
}

/// The program but for its arguments and devices, which it is given: it judges the log that the reader gives, and answers the status
/// (docs/JUDGE.md, "Statuses").
///
/// `asked` is what `asked_for` answered. If the help is asked for, it is written, nothing is read, and the status is 0; if the
/// usage is, its line is written, nothing is read, and the status is 2; and 1 if a write failed. If no memory was found to look at the
/// arguments, nothing is read or written, and the status is 3. Else the status is 0 if the log is allowed, 1 if a read or a
/// write failed, 2 if a line of it isn't allowed or is none, 3 if no memory was found, and 4 if of several logs nothing was told in ten million steps.
pub fn run_program<R: Read, W: Write>(
    alloc: Global,
    asked: Result<Asked, AllocError>,
    reader: &mut Device<R>,
    writer: &mut Device<W>,
) -> u8
    requires reader_works { reader.old.failed ≡ false }
    requires writer_works { writer.old.failed ≡ false }
    ensures log { asked ≡ Ok Asked.Log → Judges (R.remaining reader.old.inner) (R.remaining reader.new.inner)
        (W.contents writer.old.inner) (W.contents writer.new.inner) reader.new.failed writer.new.failed result }
    ensures help { asked ≡ Ok Asked.Help →
        Writes help 0 (W.contents writer.old.inner) (W.contents writer.new.inner) writer.new.failed result }
    ensures usage { asked ≡ Ok Asked.Usage →
        Writes usage 2 (W.contents writer.old.inner) (W.contents writer.new.inner) writer.new.failed result }
    ensures unread_help { asked ≡ Ok Asked.Help → reader.new ≡ reader.old }
    ensures unread_usage { asked ≡ Ok Asked.Usage → reader.new ≡ reader.old }
    ensures no_memory { OnErr asked ((result ≡ 3) × (reader.new ≡ reader.old) × (writer.new ≡ writer.old)) }
{
    match asked {
        Ok(Asked::Log) => judge_to_status(alloc, reader, writer),
        Ok(Asked::Help) => write_text(writer, HELP, 0),
        Ok(Asked::Usage) => write_text(writer, USAGE, 2),
        Err(AllocError) => 3,
    }
}
