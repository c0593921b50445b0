//! The lines of a text that a reader gives.

ghost use Rattle.std.specs.Prelude.{◌≡◌, ◌≤◌, ◌+◌, ◌++◌, [], drop, take, length, true, false, nat_lt, if◌then◌else◌, IfErr, IfOk, OnOk};
ghost use Rattle.std.specs.Io.KnownBytes.{IsAtEnd};
ghost use Rattle.ipcz_device.specs.declared.fault.Fault.TheVariants as fault;
ghost use Rattle.ipcz_log.specs.Pieces.{ConsumesSome, ReadsLine, ReadsPiece};
ghost use Rattle.ipcz_log.specs.Verdicts.{line_len};

use ipcz_device::{Device, Fault};
use std::alloc::Global;
use std::io::Read;
use std::marker::Model;

// So many bytes are asked for at a time.
const PIECE: usize = 4096;

// For a longer line no memory is taken.
const MOST_BYTES: usize = 1_073_741_824;

/// The lines of a text that a reader gives, one after the other. Of the text no more is kept than one line, and what was read together with its end.
#[derive(Drop)]
pub(crate) struct Lines {
    line: Vec<u8>,
    // What was read last, of which so many bytes are in lines.
    piece: Vec<u8>,
    given: usize,
    ended: bool,
}

impl Model for Lines {
    ghost use Rattle.std.specs.Prelude.{drop};
    ghost use Rattle.ipcz_log.specs.Pieces as value;

    ghost Value = { value.Pieces };

    ghost view = { λ a. record { line = a.line.items; unread = drop a.given a.piece.items; ended = a.ended } };
}

// How many bytes stand before the first newline, or at all.
fn line_len(text: &[u8]) -> usize
    ensures len { result ≡ line_len text.now }
    ensures within { result ≤ length text.now }
{
    for i in 0..text.len() {
        if text[i] == b'\n' {
            return i;
        }
    }
    text.len()
}

impl Lines {
    /// Nothing was read yet.
    pub(crate) fn new(alloc: Global) -> Self
        ensures unread { result.unread ≡ [] }
        ensures ended { result.ended ≡ false }
    {
        Lines {
            line: Vec::new(alloc),
            piece: Vec::new(alloc),
            given: 0,
            ended: false,
        }
    }

    /// The line that was read last, without its newline.
    pub(crate) fn line(&self) -> &[u8]
        ensures { result.now ≡ self.now.line }
    {
        &self.line
    }

    // The line goes on with what isn't in a line yet, up to its newline: whether that stands there.
    fn go_on(&mut self) -> Result<bool, Fault>
        ensures line { OnOk result (self.new.line ≡ self.old.line ++ take (line_len self.old.unread) self.old.unread) }
        ensures unread { OnOk result (self.new.unread ≡ drop (line_len self.old.unread + 1) self.old.unread) }
        ensures ended { OnOk result (self.new.ended ≡ self.old.ended) }
        ensures few { OnOk result (length self.new.line ≤ 1073741824) }
        ensures whole { IfOk result (λ whole. whole ≡ nat_lt (line_len self.old.unread) (length self.old.unread)) }
        ensures fault { IfErr result (λ why. why ≡ fault.OutOfMemory) }
    {
        let from = self.given.min(self.piece.len());
        let unread = &self.piece[from..];
        let len = line_len(unread);
        let whole = len < unread.len();
        if len > MOST_BYTES || self.line.len() > MOST_BYTES - len {
            return Err(Fault::OutOfMemory);
        }
        self.line.extend_from_slice(&unread[..len])?;
        self.given = from + len + 1;
        Ok(whole)
    }

    // Reads a piece in place of the last one, which is in lines; none comes at the end of the text.
    fn read_piece<R: Read>(&mut self, reader: &mut Device<R>) -> Result<(), Fault>
        requires works { reader.old.failed ≡ false }
        ensures line { self.new.line ≡ self.old.line }
        ensures piece { OnOk result (ReadsPiece (R.remaining reader.old.inner) (R.remaining reader.new.inner) self.new) }
        ensures taken { ConsumesSome (R.remaining reader.old.inner) (R.remaining reader.new.inner) }
        ensures ok { OnOk result (reader.new.failed ≡ false) }
        ensures fault { IfErr result (λ why. why ≡ (if reader.new.failed then fault.Read else fault.OutOfMemory)) }
    {
        let mut piece = [0u8; PIECE];
        let Ok(count) = reader.read(&mut piece) else {
            return Err(Fault::Read);
        };
        self.piece.clear();
        self.given = 0;
        self.ended = count == 0;
        self.piece.extend_from_slice(&piece[..count])?;
        Ok(())
    }

    /// Reads the next line, up to its newline or to the end of the text: whether there is one.
    pub(crate) fn next<R: Read>(&mut self, reader: &mut Device<R>) -> Result<bool, Fault>
        requires works { reader.old.failed ≡ false }
        ensures line { (self.old.ended ≡ true → IsAtEnd (R.remaining reader.old.inner)) → IfOk result (λ some.
            ReadsLine (R.remaining reader.old.inner) (R.remaining reader.new.inner) self.old self.new some) }
        ensures taken { ConsumesSome (R.remaining reader.old.inner) (R.remaining reader.new.inner) }
        ensures ok { OnOk result (reader.new.failed ≡ false) }
        ensures fault { IfErr result (λ why. why ≡ (if reader.new.failed then fault.Read else fault.OutOfMemory)) }
    {
        self.line.clear();
        'reading: while !self.go_on()? {
            if self.ended {
                return Ok(!self.line.is_empty());
            }
            self.read_piece(reader)?;
        }
        Ok(true)
    }
}
