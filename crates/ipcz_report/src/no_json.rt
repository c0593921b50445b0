//! What is said of bytes that are no JSON text.

ghost use Rattle.std.specs.Prelude.{◌≡◌, ◌≤◌, length, IfOk};

use crate::remark::Remark;
use ipcz_places::{Broken, JsonFault, json_fault, place_at, push_excerpt, push_shown, start};
use serde_json::Value;
use std::alloc::{AllocError, Global};
use std::io;
use std::io::Write;

// Writes which bracket closes the list or the object that begins at an offset, and where that is.
fn push_closing(out: &mut Vec<u8>, input: &[u8], bracket: usize) -> io::Result<()> {
    let place = place_at(input, start(input), bracket);
    let (line, column) = (place.line, place.column);
    if input.get(bracket) == Some(&b'{') {
        write!(
            out,
            "}}, which closes the {{ of line {line}, column {column}"
        )
    } else {
        write!(out, "], which closes the [ of line {line}, column {column}")
    }
}

// Writes what is wrong at the text's end, or with the whole of it, or with a bracket.
fn push_outer(out: &mut Vec<u8>, input: &[u8], shown: &[u8], why: Broken) -> io::Result<()> {
    match why {
        Broken::Empty => write!(
            out,
            "the script is empty; expected an object with the members nodes, words and commands"
        ),
        Broken::Cut(bracket) => {
            write!(out, "the script ends too early; expected ")?;
            push_closing(out, input, bracket)
        }
        Broken::Unmatched(bracket) => {
            out.write_all(shown)?;
            write!(out, " doesn't fit; expected ")?;
            push_closing(out, input, bracket)
        }
        Broken::NoComma(bracket) => {
            out.write_all(shown)?;
            write!(out, " is no JSON here; expected a comma, or ")?;
            push_closing(out, input, bracket)
        }
        _ => {
            out.write_all(shown)?;
            write!(out, " is no JSON here; expected a value")
        }
    }
}

// What is wrong with what stands at the place, and behind a semicolon what was expected, for what needs no place of another bracket.
fn words_of(why: Broken) -> Option<&'static str> {
    match why {
        Broken::Mark => Some(" is a byte order mark; expected a script without one"),
        Broken::Behind => Some(" stands behind the script; expected its end"),
        Broken::NoColon => Some(" is no JSON here; expected a colon"),
        Broken::NoMember => Some(" is no JSON here; expected the name of a member in quotes"),
        Broken::NoValue => Some(" is no JSON here; expected a value"),
        Broken::TooDeep => Some(" is more than 127 levels deep; expected fewer"),
        Broken::LargeNumber => Some(" is too large a number; expected one below 1e308"),
        Broken::OpenText => Some(" has no quotation mark at its end; expected one"),
        Broken::OpenLine => Some(" has no quotation mark at its end; expected one on this line"),
        Broken::Control => Some(" stands in a text; expected an escape such as \\u0009"),
        Broken::Escape => Some(
            " has no meaning in a text; expected \\ and one of \" \\ / b f n r t u",
        ),
        Broken::Digits => Some(" has no four hex digits; expected some such as \\u0041"),
        Broken::Surrogate => Some(" is half of a surrogate pair; expected both halves"),
        Broken::Utf8 => Some(" is no character in UTF-8; expected one"),
        _ => None,
    }
}

fn push_broken(out: &mut Vec<u8>, input: &[u8], shown: &[u8], why: Broken) -> io::Result<()> {
    match words_of(why) {
        Some(words) => {
            out.write_all(shown)?;
            write!(out, "{words}")
        }
        None => push_outer(out, input, shown, why),
    }
}

// How many bytes show a mistake within a text, or at the script's beginning; of others the excerpt does.
fn shown_bytes(why: Broken) -> Option<usize> {
    match why {
        Broken::Control | Broken::Utf8 => Some(1),
        Broken::Escape | Broken::Digits => Some(2),
        Broken::Mark => Some(3),
        Broken::Surrogate => Some(6),
        _ => None,
    }
}

// Writes what stands at the place of a mistake.
fn push_mistake(out: &mut Vec<u8>, input: &[u8], fault: JsonFault) -> Result<(), AllocError> {
    let from = fault.offset.min(input.len());
    match shown_bytes(fault.why) {
        Some(count) => push_shown(
            out,
            &input[from..from.saturating_add(count).min(input.len())],
        ),
        None => push_excerpt(out, input, from),
    }
}

// The remark on a place at which a mistake was found.
fn broken_remark(alloc: Global, input: &[u8], fault: JsonFault) -> Result<Remark, AllocError>
    ensures { IfOk result (λ remark. (remark.number ≡ 0) × (remark.offset ≡ fault.offset)) }
{
    let mut shown = Vec::new(alloc);
    push_mistake(&mut shown, input, fault)?;
    let mut words = Vec::new(alloc);
    let Ok(()) = push_broken(&mut words, input, &shown, fault.why) else {
        return Err(AllocError);
    };
    Ok(Remark {
        offset: fault.offset,
        number: 0,
        words,
    })
}

// The offset of a line and a column, or the text's end.
fn offset_at(text: &[u8], line: usize, column: usize) -> usize
    ensures { result ≤ length text.now }
{
    let mut lines_left = line;
    for i in 0..text.len() {
        if lines_left <= 1 {
            return i.saturating_add(column.saturating_sub(1)).min(text.len());
        }
        if text[i] == b'\n' {
            lines_left -= 1;
        }
    }
    text.len()
}

// The remark on the place that the parser tells, where no mistake was found: a number that is hardly too large.
fn parser_remark(alloc: Global, input: &[u8]) -> Result<Remark, AllocError>
    ensures { IfOk result (λ remark. (remark.number ≡ 0) × (remark.offset ≤ length input.now)) }
{
    let Err(error) = Value::from_slice(alloc, input) else {
        return Err(AllocError);
    };
    if error.is_memory() {
        return Err(AllocError);
    }
    let mut words = Vec::new(alloc);
    let Ok(()) = write!(
        words,
        "a number before this is too large; expected one below 1e308"
    ) else {
        return Err(AllocError);
    };
    Ok(Remark {
        offset: offset_at(input, error.line(), error.column()),
        number: 0,
        words,
    })
}

/// The remark on the place at which some bytes that are no JSON text stop being one.
pub fn json_remark(alloc: Global, input: &[u8]) -> Result<Remark, AllocError>
    ensures script { IfOk result (λ remark. remark.number ≡ 0) }
    ensures within { IfOk result (λ remark. remark.offset ≤ length input.now) }
{
    match json_fault(alloc, input)? {
        Some(fault) => broken_remark(alloc, input, fault),
        None => parser_remark(alloc, input),
    }
}
