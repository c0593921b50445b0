//! Judging a log line by line as it is read, and several logs once all of them are read.
ghost use Rattle.std.specs.Prelude.{◌≡◌, ◌≤◌, ◌<◌, [], ℕ, List, Option, false, option_map, if◌then◌else◌, IfErr, IfOk, IfSome, OnOk};
ghost use Rattle.serde_json.specs.View.{view};
ghost use Rattle.ipcz_base.specs.declared.profile.Profile.{Profile};
ghost use Rattle.ipcz_device.specs.declared.fault.Fault.TheVariants as fault;
ghost use Rattle.ipcz_script.specs.Reading.{IsJson};
ghost use Rattle.ipcz_verdict.specs.Searches.{HasEntries};
ghost use Rattle.ipcz_log.specs.Pieces.{ConsumesSome, HoldsOfInput};
ghost use Rattle.ipcz_log.specs.Steps.{AreRead, Goes, JudgesLine};
ghost use Rattle.ipcz_log.specs.Verdicts.{IsEntry, IsHeader, IsLine, IsSaidOf, IsSaidOfLogs, IsVerdict};

use crate::header::{Header, header_in};
use crate::lines::Lines;
use crate::reading::{entry_in, line_in};
use crate::verdict::Verdict;
use ipcz_device::{Device, Fault};
use ipcz_verdict::{Entry, Found, Judge, Line, Logs};
use serde_json::Value;
use std::alloc::{AllocError, Global};
use std::io::Read;

// The most steps of a search for an order of several logs.
const MOST_STEPS: u64 = 10_000_000;

/// What came of a line.
#[derive(Clone, Copy, Debug, PartialEq, Eq)]
pub(crate) enum Heard {
    Allowed,
    Refused,
    NoLine,
}

// The JSON value that the bytes are, if they are one.
fn read_json(alloc: Global, bytes: &[u8]) -> Result<Option<Value>, AllocError>
    ensures { IfOk result (λ value. IsJson bytes.now (option_map view value)) }
{
    match Value::from_slice(alloc, bytes) {
        Ok(value) => Ok(Some(value)),
        Err(error) if error.is_memory() => Err(AllocError),
        Err(_) => Ok(None),
    }
}

// The line of a log that the bytes are, if they are one.
fn read_line(alloc: Global, bytes: &[u8]) -> Result<Option<Line>, AllocError>
    ensures { IfOk result (λ line. IsLine bytes.now line) }
{
    let Some(value) = read_json(alloc, bytes)? else {
        return Ok(None);
    };
    line_in(alloc, &value)
}

// The header that the bytes are, if they are one.
fn read_header(alloc: Global, bytes: &[u8]) -> Result<Option<Header>, AllocError>
    ensures header { IfOk result (λ header. IsHeader bytes.now header) }
    ensures nodes { IfOk result (λ header. IfSome header (λ header. (1 ≤ header.nodes) × (header.nodes ≤ 8))) }
    ensures logs { IfOk result (λ header. IfSome header (λ header. IfSome header.logs (λ logs. logs ≤ 64))) }
{
    let Some(value) = read_json(alloc, bytes)? else {
        return Ok(None);
    };
    Ok(header_in(&value))
}

// What the judge says of the next line.
fn hear(alloc: Global, judge: &mut Judge, bytes: &[u8]) -> Result<Heard, AllocError>
    ensures { IfOk result (λ heard. JudgesLine judge.old bytes.now heard judge.new) }
{
    let Some(line) = read_line(alloc, bytes)? else {
        return Ok(Heard::NoLine);
    };
    if judge.take(&line)? {
        Ok(Heard::Allowed)
    } else {
        Ok(Heard::Refused)
    }
}

// What is said of the lines of one log.
fn judge_lines<R: Read>(
    alloc: Global,
    header: Header,
    lines: &mut Lines,
    reader: &mut Device<R>,
) -> Result<Verdict, Fault>
    requires some { 1 ≤ header.nodes }
    requires few { header.nodes ≤ 8 }
    requires works { reader.old.failed ≡ false }
    ensures said { (before : Option (List ℕ)) → Goes before (R.remaining reader.old.inner) lines.old (IsSaidOf header.nodes header.profile [] 2) →
        IfOk result (λ verdict. HoldsOfInput before (R.remaining reader.new.inner) (λ input. IsVerdict input verdict)) }
    ensures taken { ConsumesSome (R.remaining reader.old.inner) (R.remaining reader.new.inner) }
    ensures ok { OnOk result (reader.new.failed ≡ false) }
    ensures fault { IfErr result (λ why. why ≡ (if reader.new.failed then fault.Read else fault.OutOfMemory)) }
{
    let mut judge = Judge::new(alloc, header.nodes, header.profile)?;
    let mut number = 2u64;
    'judging: while lines.next(reader)? {
        match hear(alloc, &mut judge, lines.line())? {
            Heard::Allowed => {}
            Heard::Refused => return Ok(Verdict::Refused(number)),
            Heard::NoLine => return Ok(Verdict::NoLog(number)),
        }
        number = number.checked_add(1).ok_or(AllocError)?;
    }
    Ok(Verdict::Allowed)
}

// The line of one of so many logs that the bytes are, if they are one.
fn read_entry(
    alloc: Global,
    count: u8,
    number: u64,
    bytes: &[u8],
) -> Result<Option<Entry>, AllocError>
    ensures entry { IfOk result (λ entry. IsEntry count number bytes.now entry) }
    ensures log { IfOk result (λ entry. IfSome entry (λ entry. entry.log < count)) }
{
    let Some(value) = read_json(alloc, bytes)? else {
        return Ok(None);
    };
    entry_in(alloc, count, number, &value)
}

// Reads the lines of so many logs, or says which is the first that is no line of one.
fn read_lines<R: Read>(
    alloc: Global,
    logs: &mut Logs,
    count: u8,
    lines: &mut Lines,
    reader: &mut Device<R>,
) -> Result<Option<u64>, Fault>
    requires count { count ≤ 64 }
    requires works { reader.old.failed ≡ false }
    ensures read { (before : Option (List ℕ)) (nodes : ℕ) (profile : Profile) → HasEntries logs.old [] →
        Goes before (R.remaining reader.old.inner) lines.old (IsSaidOfLogs nodes profile count [] 2) →
        IfOk result (λ wrong. AreRead before (R.remaining reader.new.inner) nodes profile logs.new wrong) }
    ensures taken { ConsumesSome (R.remaining reader.old.inner) (R.remaining reader.new.inner) }
    ensures ok { OnOk result (reader.new.failed ≡ false) }
    ensures fault { IfErr result (λ why. why ≡ (if reader.new.failed then fault.Read else fault.OutOfMemory)) }
{
    let mut number: u64 = 2;
    'collecting: while lines.next(reader)? {
        let Some(entry) = read_entry(alloc, count, number, lines.line())? else {
            return Ok(Some(number));
        };
        logs.push(entry)?;
        number = number.checked_add(1).ok_or(AllocError)?;
    }
    Ok(None)
}

// What is said of the lines of several logs, all of which are read before.
fn judge_logs<R: Read>(
    alloc: Global,
    header: Header,
    count: u8,
    lines: &mut Lines,
    reader: &mut Device<R>,
) -> Result<Verdict, Fault>
    requires some { 1 ≤ header.nodes }
    requires few { header.nodes ≤ 8 }
    requires count { count ≤ 64 }
    requires works { reader.old.failed ≡ false }
    ensures said { (before : Option (List ℕ)) → Goes before (R.remaining reader.old.inner) lines.old (IsSaidOfLogs header.nodes header.profile count [] 2) →
        IfOk result (λ verdict. HoldsOfInput before (R.remaining reader.new.inner) (λ input. IsVerdict input verdict)) }
    ensures taken { ConsumesSome (R.remaining reader.old.inner) (R.remaining reader.new.inner) }
    ensures ok { OnOk result (reader.new.failed ≡ false) }
    ensures fault { IfErr result (λ why. why ≡ (if reader.new.failed then fault.Read else fault.OutOfMemory)) }
{
    let mut logs = Logs::new(alloc)?;
    if let Some(number) = read_lines(alloc, &mut logs, count, lines, reader)? {
        return Ok(Verdict::NoLog(number));
    }
    match logs.find_order(alloc, header.nodes, header.profile, MOST_STEPS)? {
        Found::Order => Ok(Verdict::Allowed),
        Found::NoOrder(number) => Ok(Verdict::NoOrder(number)),
        Found::Untold => Ok(Verdict::Untold),
    }
}

/// What is said of what a reader gives: whether it is a log, and one that the promise allows, and if not, which is the first line that isn't.
///
/// One log is judged line by line, as it comes, and read up to the first line that decides; of it no more is kept than one line, and what was read together with
/// its end. Of several logs all lines are kept, up to the first that is none. The answer is `Fault::Read` if a read fails, and `Fault::OutOfMemory` if no memory
/// is found, or a line has more than 1,073,741,824 bytes.
pub fn judge_log<R: Read>(alloc: Global, reader: &mut Device<R>) -> Result<Verdict, Fault>
    requires works { reader.old.failed ≡ false }
    ensures verdict { IfOk result (λ verdict.
        HoldsOfInput (R.remaining reader.old.inner) (R.remaining reader.new.inner) (λ input. IsVerdict input verdict)) }
    ensures taken { ConsumesSome (R.remaining reader.old.inner) (R.remaining reader.new.inner) }
    ensures ok { OnOk result (reader.new.failed ≡ false) }
    ensures fault { IfErr result (λ why. why ≡ (if reader.new.failed then fault.Read else fault.OutOfMemory)) }
{
    let mut lines = Lines::new(alloc);
    lines.next(reader)?;
    let Some(header) = read_header(alloc, lines.line())? else {
        return Ok(Verdict::NoLog(1));
    };
    match header.logs {
        Some(count) => judge_logs(alloc, header, count, &mut lines, reader),
        None => judge_lines(alloc, header, &mut lines, reader),
    }
}
