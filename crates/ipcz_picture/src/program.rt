//! The program, but for its arguments and devices.

ghost use Rattle.std.specs.Prelude.{◌≡◌, false, Ok, OnErr, Option};
ghost use Rattle.ipcz_picture.specs.Outputs.{help, status, usage, Draws, Writes};

use crate::bands::Bands;
use crate::ending::Ending;
use crate::output::draw;
use crate::part::{Part, part_of};
use ipcz_device::{Device, Fault, write_whole};
use std::alloc::{AllocError, Global};
use std::env;
use std::env::Env;
use std::io::{ErrorKind, Read, Write};

const USAGE: &[u8] = b"usage: ipcz_draw [--help] [--used] [FROM TO] < TRANSCRIPT\n";

const HELP: &[u8] =
    b"usage: ipcz_draw [--help] [--used] [FROM TO] < TRANSCRIPT\n\nReads a transcript of ipcz_run from standard input, and writes a picture of it, an SVG, to standard output: of all its lines, or of\nthose from line FROM to line TO, which are counted from 1; with --used without the nodes that take no part. Ends with status 2, and\nnames the line, if one is none of a transcript.\n";

/// What the arguments of the program ask for.
#[derive(Clone, Copy, Debug, PartialEq, Eq)]
pub enum Asked {
    /// A picture of a part, or of all if there is none, with the bands of these nodes.
    Picture(Option<Part>, Bands),
    /// There is the one word `--help` or `-h`: what the program does.
    Help,
    /// How the program is called.
    Usage,
}

// What two words ask for: a part, if they are the numbers of its first line and its last one.
fn asked_part(from: &[u8], to: &[u8], bands: Bands) -> Asked {
    match part_of(from, to) {
        Some(part) => Asked::Picture(Some(part), bands),
        None => Asked::Usage,
    }
}

/// What the arguments of the program after its name ask for, or that no memory was found to look at them.
///
/// One that is not UTF-8 counts.
pub fn asked_for(rt: &(impl Env + Alloc)) -> Result<Asked, AllocError> {
    let mut arguments = match env::args(rt) {
        Ok(arguments) => arguments,
        Err(why) if why.kind() == ErrorKind::OutOfMemory => return Err(AllocError),
        Err(_) => return Ok(Asked::Usage),
    };
    let _name = arguments.next();
    let (bands, from) = match arguments.next() {
        Some(word) if word.as_str() == "--used" => (Bands::Used, arguments.next()),
        word => (Bands::All, word),
    };
    let Some(from) = from else {
        return Ok(Asked::Picture(None, bands));
    };
    let is_help = bands == Bands::All && (from.as_str() == "--help" || from.as_str() == "-h");
    match (arguments.next(), arguments.next()) {
        (None, _) if is_help => Ok(Asked::Help),
        (Some(to), None) => Ok(asked_part(from.as_bytes(), to.as_bytes(), bands)),
        _ => Ok(Asked::Usage),
    }
}

// The status: 0 drawn, 1 a read or write failed, 2 a line was refused, 3 want of memory.
#[tactic(auto, unfolding(crate::specs::Outputs::status))]
fn status_of(ending: Result<Ending, Fault>) -> u8
    ensures { result ≡ status ending }
{
    match ending {
        Ok(Ending::Drawn) => 0,
        Err(Fault::Read | Fault::Write) => 1,
        Ok(Ending::Refused(_)) => 2,
        Err(Fault::OutOfMemory) => 3,
    }
}

// Writes a text, and gives the status, or 1 if a write failed.
fn write_text<W: Write>(writer: &mut Device<W>, text: &[u8], status: u8) -> u8
    requires { writer.old.failed ≡ false }
    ensures { Writes text.now status (W.contents writer.old.inner) (W.contents writer.new.inner) writer.new.failed result }
{
    match write_whole(writer, text) {
        Ok(()) => status,
        Err(_) => 1,
    }
}

// Draws a part of the transcript that the reader gives, or all of it, and gives the status.
fn draw_to_status<R: Read, W: Write>(
    alloc: Global,
    part: Option<Part>,
    bands: Bands,
    reader: &mut Device<R>,
    writer: &mut Device<W>,
) -> u8
    requires reader_works { reader.old.failed ≡ false }
    requires writer_works { writer.old.failed ≡ false }
    ensures { Draws part (R.remaining reader.old.inner) (R.remaining reader.new.inner)
        (W.contents writer.old.inner) (W.contents writer.new.inner) reader.new.failed writer.new.failed result }
{
    status_of(draw(alloc, part, bands, reader, writer))
}

/// The program but for its arguments and devices, which it is given: it draws the transcript that the reader gives, and
/// answers the status.
///
/// `asked` is what `asked_for` answered. If the help is asked for, it is written, nothing is read, and the status is 0; if the usage is, its line
/// is written, nothing is read, and the status is 2; and 1 if a write failed. If no memory was found to look at the arguments, nothing is read or written, and the
/// status is 3. Else the status is 0 if the transcript, or the part that is asked for, was drawn, 1 if a read or a write
/// failed, 2 if a line was refused, and 3 if no memory was found.
pub fn run_program<R: Read, W: Write>(
    alloc: Global,
    asked: Result<Asked, AllocError>,
    reader: &mut Device<R>,
    writer: &mut Device<W>,
) -> u8
    requires reader_works { reader.old.failed ≡ false }
    requires writer_works { writer.old.failed ≡ false }
    ensures picture { (part : Option Part) (bands : Bands) → asked ≡ Ok (Asked.Picture part bands) → Draws part (R.remaining reader.old.inner) (R.remaining reader.new.inner)
        (W.contents writer.old.inner) (W.contents writer.new.inner) reader.new.failed writer.new.failed result }
    ensures help { asked ≡ Ok Asked.Help →
        Writes help 0 (W.contents writer.old.inner) (W.contents writer.new.inner) writer.new.failed result }
    ensures usage { asked ≡ Ok Asked.Usage →
        Writes usage 2 (W.contents writer.old.inner) (W.contents writer.new.inner) writer.new.failed result }
    ensures unread_help { asked ≡ Ok Asked.Help → reader.new ≡ reader.old }
    ensures unread { asked ≡ Ok Asked.Usage → reader.new ≡ reader.old }
    ensures no_memory { OnErr asked ((result ≡ 3) × (reader.new ≡ reader.old) × (writer.new ≡ writer.old)) }
{
    match asked {
        Ok(Asked::Picture(part, bands)) => draw_to_status(alloc, part, bands, reader, writer),
        Ok(Asked::Help) => write_text(writer, HELP, 0),
        Ok(Asked::Usage) => write_text(writer, USAGE, 2),
        Err(AllocError) => 3,
    }
}
