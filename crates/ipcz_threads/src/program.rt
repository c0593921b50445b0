//! The program: its arguments, its texts and its statuses.
ghost use Rattle.std.specs.Prelude.{◌≡◌, false, Ok, OnErr};
ghost use Rattle.ipcz_threads.specs.Statuses.{help, status, usage, RunsOnThreads, RunsScript, Writes};

use crate::run::run_threads;
use ipcz_device::{Device, write_whole};
use ipcz_script::{Outcome, RunFault, run_script};
use std::alloc::{AllocError, Global};
use std::env;
use std::env::Env;
use std::io::{ErrorKind, Read, Write};
use std::thread::Threads;

const USAGE: &[u8] = b"usage: ipcz_run [--help] [threads] < SCRIPT\n";

const HELP: &[u8] =
    b"usage: ipcz_run [--help] [threads] < SCRIPT\n\nReads a script from standard input, runs it, and writes to standard output what each command came to and what each node did. With\nthe word threads the settles run on threads, one for each node. Ends with status 0 if the script was run, 4 if it was and a settle\ncame to its limit, and 2 if it is no script; ipcz_check tells why it is none.\n";

/// What the arguments of the program ask for.
#[derive(Clone, Copy, Debug, PartialEq, Eq)]
pub enum Asked {
    /// There is none: a script is run on one thread.
    Script,
    /// There is the one word `threads`: the settles of a script run on threads.
    Threads,
    /// There is the one word `--help` or `-h`: what the program does.
    Help,
    /// There are others: how the program is called.
    Usage,
}

/// What the arguments of the program after its name ask for, or that no memory was found to look at them.
///
/// One that is not UTF-8 counts.
pub fn asked_for(rt: &(impl Env + Alloc)) -> Result<Asked, AllocError> {
    let mut arguments = match env::args(rt) {
        Ok(arguments) => arguments,
        Err(why) if why.kind() == ErrorKind::OutOfMemory => return Err(AllocError),
        Err(_) => return Ok(Asked::Usage),
    };
    let _name = arguments.next();
    let Some(word) = arguments.next() else {
        return Ok(Asked::Script);
    };
    match arguments.next() {
        None if word.as_str() == "threads" => Ok(Asked::Threads),
        None if word.as_str() == "--help" || word.as_str() == "-h" => Ok(Asked::Help),
        _ => Ok(Asked::Usage),
    }
}

// The status of a run: 0 done, 1 a read or write failed, 2 the script was refused, 3 want of memory, 4 a settle was
// unsettled.
#[tactic(auto, unfolding(crate::specs::Statuses::status))]
fn status_of(ending: Result<Outcome, RunFault>) -> u8
    ensures { result ≡ status ending }
{
    match ending {
        Ok(Outcome::Done) => 0,
        Err(RunFault::Read | RunFault::Write) => 1,
        Ok(Outcome::Refused(_)) => 2,
        Err(RunFault::OutOfMemory) => 3,
        Ok(Outcome::Unsettled) => 4,
    }
}

// Writes a text, and gives the status, or 1 if a write failed.
fn write_text<W: Write>(writer: &mut Device<W>, text: &[u8], status: u8) -> u8
    requires { writer.old.failed ≡ false }
    ensures { Writes text.now status (W.contents writer.old.inner) (W.contents writer.new.inner) writer.new.failed result }
{
    match write_whole(writer, text) {
        Ok(()) => status,
        Err(_) => 1,
    }
}

// Runs the script that the reader gives, and gives the status.
fn run_to_status<R: Read, W: Write>(
    alloc: Global,
    reader: &mut Device<R>,
    writer: &mut Device<W>,
) -> u8
    requires reader_works { reader.old.failed ≡ false }
    requires writer_works { writer.old.failed ≡ false }
    ensures { RunsScript (R.remaining reader.old.inner) (R.remaining reader.new.inner)
        (W.contents writer.old.inner) (W.contents writer.new.inner) reader.new.failed writer.new.failed result }
{
    status_of(run_script(alloc, reader, writer))
}

// Runs the script that the reader gives with its settles on threads, and gives the status.
fn run_on_threads<T: Threads + Sync, R: Read, W: Write>(
    rt: &T,
    alloc: Global,
    reader: &mut Device<R>,
    writer: &mut Device<W>,
) -> u8
    requires reader_works { reader.old.failed ≡ false }
    requires writer_works { writer.old.failed ≡ false }
    ensures { RunsOnThreads (R.remaining reader.old.inner) (R.remaining reader.new.inner)
        (W.contents writer.old.inner) (W.contents writer.new.inner) reader.new.failed writer.new.failed result }
{
    status_of(run_threads(rt, alloc, reader, writer))
}

/// The program but for its arguments and devices, which it is given: it runs the script that the reader gives, and answers
/// the status (docs/SCRIPTS.md, "The program").
///
/// `asked` is what `asked_for` answered. If `threads` is asked for, the settles of the script run on threads
/// (docs/THREADS.md, "Scripts on threads"). If the help is asked for, it is written, nothing is read, and the status is 0; if the usage
/// is, its line is written, nothing is read, and the status is 2; and 1 if a write failed. If no memory was found to look at the
/// arguments, nothing is read or written, and the status is 3. Else the status is 0 if the script was run, 1 if a read or a write
/// failed, 2 if the script was refused, 3 if no memory was found, and 4 if a settle came to its limit.
pub fn run_program<T: Threads + Sync, R: Read, W: Write>(
    rt: &T,
    alloc: Global,
    asked: Result<Asked, AllocError>,
    reader: &mut Device<R>,
    writer: &mut Device<W>,
) -> u8
    requires reader_works { reader.old.failed ≡ false }
    requires writer_works { writer.old.failed ≡ false }
    ensures script { asked ≡ Ok Asked.Script → RunsScript (R.remaining reader.old.inner) (R.remaining reader.new.inner)
        (W.contents writer.old.inner) (W.contents writer.new.inner) reader.new.failed writer.new.failed result }
    ensures threads { asked ≡ Ok Asked.Threads → RunsOnThreads (R.remaining reader.old.inner) (R.remaining reader.new.inner)
        (W.contents writer.old.inner) (W.contents writer.new.inner) reader.new.failed writer.new.failed result }
    ensures help { asked ≡ Ok Asked.Help →
        Writes help 0 (W.contents writer.old.inner) (W.contents writer.new.inner) writer.new.failed result }
    ensures usage { asked ≡ Ok Asked.Usage →
        Writes usage 2 (W.contents writer.old.inner) (W.contents writer.new.inner) writer.new.failed result }
    ensures unread_help { asked ≡ Ok Asked.Help → reader.new ≡ reader.old }
    ensures unread { asked ≡ Ok Asked.Usage → reader.new ≡ reader.old }
    ensures no_memory { OnErr asked ((result ≡ 3) × (reader.new ≡ reader.old) × (writer.new ≡ writer.old)) }
{
    match asked {
        Ok(Asked::Script) => run_to_status(alloc, reader, writer),
        Ok(Asked::Threads) => run_on_threads(rt, alloc, reader, writer),
        Ok(Asked::Help) => write_text(writer, HELP, 0),
        Ok(Asked::Usage) => write_text(writer, USAGE, 2),
        Err(AllocError) => 3,
    }
}
