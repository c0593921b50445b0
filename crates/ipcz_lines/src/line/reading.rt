//! Reading a line of a transcript, and a transcript.

ghost use Rattle.std.specs.Prelude.{◌≡◌, ◌≢◌, ◌↔◌, ◌<◌, ◌≤◌, ◌+◌, ◌++◌, IfSome, IfNone, IfOk, OnOk, IfErr, IsTrue, codes, length};
ghost use Rattle.std.specs.List.{All};
ghost use Rattle.ipcz_lines.specs.LineParts.{IsAnswer, IsFault, IsName, Reads, answer_text, fault_text};
ghost use Rattle.ipcz_lines.specs.Lines.{AreNames, BeginsWithNoLine, FitsLine, IsTurn, IsPrintable, IsRead, IsReadLine, IsRefused};
ghost use Rattle.ipcz_lines.specs.Lines.{with_line_feed, line_text, opened_text, spaced};

use crate::line::acts::event;
use crate::line::parts::{Answer, Fault, Refusal};
use crate::line::words::{are_names, are_words, halves, is_name, node, number, refusal};
use crate::line::{LONGEST, Line, ReadLine, Unread};
use std::alloc::Global;

fn opened(bytes: &[u8]) -> Option<Line<'_>>
    ensures { Reads line_text FitsLine (spaced (codes "open") bytes.now) result }
{
    let (first, rest) = halves(bytes, b' ')?;
    let (second, why) = halves(rest, b' ')?;
    if !is_name(first) || !is_name(second) {
        return None;
    }
    Some(Line::Open {
        first,
        second,
        refusal: opening(why)?,
    })
}

fn opening(bytes: &[u8]) -> Option<Option<Refusal>>
    ensures { Reads opened_text (λ _. Unit {0}) bytes.now result }
{
    if bytes == b"ok".as_slice() {
        return Some(None);
    }
    Some(Some(refusal(bytes)?))
}

fn answer(bytes: &[u8]) -> Option<Answer>
    ensures { Reads answer_text IsAnswer bytes.now result }
{
    match number(bytes) {
        Some(n) => Some(Answer::Number(n)),
        None => Some(Answer::Refused(refusal(bytes)?)),
    }
}

fn name_and_answer(bytes: &[u8]) -> Option<(&[u8], Answer)>
    ensures { Reads (λ x. spaced x.0.now (answer_text x.1)) (λ x. IsName x.0.now × IsAnswer x.1) bytes.now result }
{
    let (name, rest) = halves(bytes, b' ')?;
    if !is_name(name) {
        return None;
    }
    Some((name, answer(rest)?))
}

fn put(bytes: &[u8]) -> Option<Line<'_>>
    ensures { Reads line_text FitsLine (spaced (codes "put") bytes.now) result }
{
    let (name, answer) = name_and_answer(bytes)?;
    Some(Line::Put { name, answer })
}

fn closed(bytes: &[u8]) -> Option<Line<'_>>
    ensures { Reads line_text FitsLine (spaced (codes "close") bytes.now) result }
{
    let (name, answer) = name_and_answer(bytes)?;
    Some(Line::Close { name, answer })
}

fn are_any_names(text: &[u8]) -> bool
    ensures { IsTrue result ↔ AreNames text.now }
{
    text.is_empty() || are_names(text)
}

fn parcel<'a>(name: &'a [u8], first: &[u8], bytes: &'a [u8]) -> Option<Line<'a>>
    requires name { IsName name.now }
    requires one_word { All (λ b. b ≢ 32) first.now }
    ensures { Reads line_text FitsLine (spaced (codes "get") (spaced name.now (spaced first.now bytes.now))) result }
{
    let number = number(first)?;
    let (names, rest) = match bytes {
        [b'[', rest @ ..] => halves(rest, b']')?,
        _ => return None,
    };
    match rest {
        [b' ', b'"', data @ .., b'"'] if are_any_names(names) => Some(Line::Got {
            name,
            number,
            names,
            data,
        }),
        _ => None,
    }
}

fn got(bytes: &[u8]) -> Option<Line<'_>>
    ensures { Reads line_text FitsLine (spaced (codes "get") bytes.now) result }
{
    let (name, rest) = halves(bytes, b' ')?;
    if !is_name(name) {
        return None;
    }
    match halves(rest, b' ') {
        None => Some(Line::Missed {
            name,
            refusal: refusal(rest)?,
        }),
        Some((first, behind)) => parcel(name, first, behind),
    }
}

fn bad_shape(bytes: &[u8]) -> Option<Fault>
    ensures { Reads fault_text IsFault (spaced (codes "BadShape") bytes.now) result }
{
    Some(Fault::BadShape(number(bytes)?))
}

fn fault(bytes: &[u8]) -> Option<Fault>
    ensures { Reads fault_text IsFault bytes.now result }
{
    match halves(bytes, b' ') {
        None if bytes == b"NotJson".as_slice() => Some(Fault::NotJson),
        None if bytes == b"TooLong".as_slice() => Some(Fault::TooLong),
        Some((first, rest)) if first == b"BadShape".as_slice() => bad_shape(rest),
        _ => None,
    }
}

fn refused(bytes: &[u8]) -> Option<Line<'static>>
    ensures { Reads line_text FitsLine (spaced (codes "refused") bytes.now) result }
{
    Some(Line::Refused(fault(bytes)?))
}

fn turn<'a>(first: &[u8], bytes: &'a [u8]) -> Option<Line<'a>>
    requires one_word { All (λ b. b ≢ 32) first.now }
    ensures { Reads line_text IsTurn (spaced first.now bytes.now) result }
{
    match first {
        [b'n', digits @ .., b':'] => Some(Line::Turn {
            node: node(digits)?,
            event: event(bytes)?,
        }),
        _ => None,
    }
}

fn lone_word(bytes: &[u8]) -> Option<Line<'static>>
    requires one_word { All (λ b. b ≢ 32) bytes.now }
    ensures { Reads line_text FitsLine bytes.now result }
{
    match bytes {
        _ if bytes == b"settled".as_slice() => Some(Line::Settled),
        _ if bytes == b"unsettled".as_slice() => Some(Line::Unsettled),
        _ if bytes == b"words".as_slice() => Some(Line::Words(b"".as_slice())),
        _ => None,
    }
}

fn words(bytes: &[u8]) -> Option<Line<'_>>
    ensures { Reads line_text FitsLine (spaced (codes "words") bytes.now) result }
{
    if are_words(bytes) {
        Some(Line::Words(bytes))
    } else {
        None
    }
}

/// The line whose text, without the line feed, these bytes are.
fn form(bytes: &[u8]) -> Option<Line<'_>>
    ensures { Reads line_text FitsLine bytes.now result }
{
    match halves(bytes, b' ') {
        None => lone_word(bytes),
        Some((first, rest)) if first == b"open".as_slice() => opened(rest),
        Some((first, rest)) if first == b"put".as_slice() => put(rest),
        Some((first, rest)) if first == b"close".as_slice() => closed(rest),
        Some((first, rest)) if first == b"get".as_slice() => got(rest),
        Some((first, rest)) if first == b"words".as_slice() => words(rest),
        Some((first, rest)) if first == b"refused".as_slice() => refused(rest),
        Some((first, rest)) => turn(first, rest),
    }
}

fn are_printable(bytes: &[u8]) -> bool
    ensures { IsTrue result ↔ All IsPrintable bytes.now }
{
    bytes.iter().all(|b| *b >= b' ' && *b <= b'~')
}

/// The first line of these bytes, and what stands behind it.
fn first_line(bytes: &[u8]) -> Option<(ReadLine<'_>, &[u8])>
    ensures read { IfSome result (λ x. IsReadLine x.0 × (bytes.now ≡ with_line_feed x.0 ++ x.1.now)) }
    ensures none { IfNone result (BeginsWithNoLine bytes.now) }
{
    let (text, rest) = halves(bytes, b'\n')?;
    if !are_printable(text) {
        return None;
    }
    let line = form(text)?;
    Some((ReadLine { text, line }, rest))
}

// The line behind those that were read is refused.
fn refused_behind(lines: &[ReadLine]) -> Unread
    ensures { result ≡ Unread.Refused (length lines.now + 1) }
{
    Unread::Refused {
        line: lines.len() + 1,
    }
}

// The lines of a transcript, however many bytes it has.
fn read_lines(alloc: Global, input: &[u8]) -> Result<Vec<ReadLine<'_>>, Unread>
    ensures read { IfOk result (λ lines. IsRead input.now lines.items) }
    ensures refused { IfErr result (IsRefused input.now) }
{
    let mut lines = Vec::new(alloc);
    let mut rest = input;
    while !rest.is_empty() {
        let Some((line, behind)) = first_line(rest) else {
            return Err(refused_behind(lines.as_slice()));
        };
        if lines.push(line).is_err() {
            return Err(Unread::OutOfMemory);
        }
        rest = behind;
    }
    Ok(lines)
}

/// Reads a transcript.
pub fn read(alloc: Global, input: &[u8]) -> Result<Vec<ReadLine<'_>>, Unread>
    ensures read { IfOk result (λ lines. IsRead input.now lines.items) }
    ensures short { OnOk result (length input.now ≤ LONGEST) }
    ensures too_long { LONGEST < length input.now → result ≡ Err (Unread.Refused 0) }
    ensures refused { IfErr result (IsRefused input.now) }
{
    if input.len() > LONGEST {
        return Err(Unread::Refused { line: 0 });
    }
    read_lines(alloc, input)
}
