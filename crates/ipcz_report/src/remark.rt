//! The lines of a report.

ghost use Rattle.std.specs.Prelude.{◌≡◌, ◌++◌, OnOk};
ghost use Rattle.ipcz_report.specs.Remarks.{number_text, place_text, remarks_text};

use ipcz_places::{place_at, start};
use std::alloc::AllocError;
use std::io;
use std::io::Write;

/// What is said of a place of a script. The number is that of a command, counted from 1; 0 is the script itself.
#[derive(Drop)]
pub struct Remark {
    pub offset: usize,
    pub number: usize,
    pub words: Vec<u8>,
}

// Adds which command is meant.
fn push_number(out: &mut Vec<u8>, number: usize) -> io::Result<()>
    ensures { OnOk result (out.new.items ≡ out.old.items ++ number_text number) }
{
    if number == 0 {
        return Ok(());
    }
    write!(out, "command {number}: ")
}

// Adds a line with its place, and the number of a command.
fn push_line(
    out: &mut Vec<u8>,
    line: usize,
    column: usize,
    number: usize,
    words: &[u8],
) -> io::Result<()>
    ensures line { OnOk result (out.new.items ≡ out.old.items ++ place_text line column number words.now) }
{
    write!(out, "line {line}, column {column}: ")?;
    push_number(out, number)?;
    out.extend_from_slice(words)?;
    writeln!(out)
}

/// Adds the lines of these remarks, with their places in the text.
pub fn push_remarks(out: &mut Vec<u8>, text: &[u8], remarks: &[Remark]) -> Result<(), AllocError>
    ensures lines { OnOk result (out.new.items ≡ out.old.items ++ remarks_text text.now remarks.now) }
{
    let mut place = start(text);
    for remark in remarks {
        place = place_at(text, place, remark.offset);
        let Ok(()) = push_line(out, place.line, place.column, remark.number, &remark.words) else {
            return Err(AllocError);
        };
    }
    Ok(())
}
