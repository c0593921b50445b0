//! A transcript to the picture of a part of it, from bytes to bytes.

ghost use Rattle.std.specs.Prelude.{◌≡◌, ◌↔◌, ◌++◌, false, IsTrue, IsErrOf, IfOk, OnOk};
ghost use Rattle.ipcz_picture.specs.Outputs.{bad_line, long_line, refused_line, IsOutput, ReadsAndWrites};

use crate::bands::Bands;
use crate::ending::Ending;
use crate::part::{Part, bounds_of};
use crate::picture::picture;
use ipcz_device::{Device, Fault, read_up_to, write_whole};
use ipcz_lines::{Unread, read};
use std::alloc::{AllocError, Global};
use std::io;
use std::io::{Read, Write};

const MOST_READ: usize = 262_145;

// Writes that a transcript is too long.
fn push_long(out: &mut Vec<u8>) -> io::Result<()>
    ensures { OnOk result (out.new.items ≡ out.old.items ++ long_line) }
{
    write!(out, "refused line 0: more than 262144 bytes\n")
}

// Writes which line is none of a transcript.
fn push_bad(out: &mut Vec<u8>, line: usize) -> io::Result<()>
    ensures { OnOk result (out.new.items ≡ out.old.items ++ bad_line line) }
{
    write!(out, "refused line {line}: not a line of a transcript\n")
}

// Writes which line is refused.
fn push_refused(out: &mut Vec<u8>, line: usize) -> io::Result<()>
    ensures { OnOk result (out.new.items ≡ out.old.items ++ refused_line line) }
{
    if line == 0 {
        push_long(out)
    } else {
        push_bad(out, line)
    }
}

fn refused_output(alloc: Global, line: usize) -> Result<(Ending, Vec<u8>), AllocError>
    ensures { IfOk result (λ written. (written.0 ≡ Ending.Refused line) × (written.1.items ≡ refused_line line)) }
{
    let mut text = Vec::new(alloc);
    let Ok(()) = push_refused(&mut text, line) else {
        return Err(AllocError);
    };
    Ok((Ending::Refused(line), text))
}

// What is written for a part of these bytes' lines.
fn output(
    alloc: Global,
    input: &[u8],
    part: Option<Part>,
    bands: Bands,
) -> Result<(Ending, Vec<u8>), AllocError>
    ensures { IfOk result (λ written. IsOutput input.now part written.0 written.1.items) }
{
    match read(alloc, input) {
        Ok(lines) => {
            let bounds = bounds_of(part, lines.len());
            let text = picture(alloc, lines.as_slice(), bounds, bands)?;
            Ok((Ending::Drawn, text))
        }
        Err(Unread::Refused { line }) => refused_output(alloc, line),
        Err(Unread::OutOfMemory) => Err(AllocError),
    }
}

/// Reads a transcript to its end, and writes the picture of a part, or of all of it, with these nodes' bands, whole and in one go.
///
/// At most 262,145 bytes are read. Bytes that are no transcript make one line that says which line is refused.
/// `Fault::Read` and `Fault::Write` say that the reader or the writer has failed; `Fault::OutOfMemory` that no memory was
/// found, in which case nothing was written, as after a failed read.
pub fn draw<R: Read, W: Write>(
    alloc: Global,
    part: Option<Part>,
    bands: Bands,
    reader: &mut Device<R>,
    writer: &mut Device<W>,
) -> Result<Ending, Fault>
    requires reader_works { reader.old.failed ≡ false }
    requires writer_works { writer.old.failed ≡ false }
    ensures run { ReadsAndWrites (R.remaining reader.old.inner) (R.remaining reader.new.inner)
        (W.contents writer.old.inner) (W.contents writer.new.inner) part result }
    ensures read { IsErrOf result Fault.Read ↔ IsTrue reader.new.failed }
    ensures write { IsErrOf result Fault.Write ↔ IsTrue writer.new.failed }
{
    let input = read_up_to(alloc, reader, MOST_READ)?;
    let Ok((ending, text)) = output(alloc, &input, part, bands) else {
        return Err(Fault::OutOfMemory);
    };
    let Ok(()) = write_whole(writer, &text) else {
        return Err(Fault::Write);
    };
    Ok(ending)
}
