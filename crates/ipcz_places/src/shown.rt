//! What is shown of a text, in printed ASCII alone.

ghost use Rattle.std.specs.Prelude.{◌<◌, ◌≤◌, ◌+◌, length, IfOk, OnOk};
ghost use Rattle.ipcz_places.specs.Shown.{AddsPrinted, IsPrinted};

use crate::quoted::character_length;
use crate::values::{end_of_value, excerpt};
use std::alloc::AllocError;

// The hex digit of a number below 16, of others that of their last four bits.
fn hex_digit(number: u32) -> u8
    ensures { IsPrinted result }
{
    let low = (number & 15) as u8;
    if low < 10 {
        b'0' + low
    } else {
        b'a' + (low - 10)
    }
}

// Adds a backslash, a letter and the last four hex digits of a number.
fn push_unit(out: &mut Vec<u8>, unit: u32) -> Result<(), AllocError>
    ensures { OnOk result (AddsPrinted out.old.items out.new.items) }
{
    out.push(b'\\')?;
    out.push(b'u')?;
    out.push(hex_digit(unit >> 12))?;
    out.push(hex_digit(unit >> 8))?;
    out.push(hex_digit(unit >> 4))?;
    out.push(hex_digit(unit))?;
    Ok(())
}

// The number of the character of two to four bytes that begins here.
fn code_at(text: &[u8], at: usize, count: usize) -> u32
    requires { (2 ≤ count) × (at + count ≤ length text.now) }
{
    let first = text[at] as u32;
    let mut code = match count {
        2 => first & 0x1f,
        3 => first & 0x0f,
        _ => first & 0x07,
    };
    for byte in &text[at + 1..at + count] {
        code = (code << 6) | (*byte as u32 & 0x3f);
    }
    code
}

// Adds a character as JSON's escapes write it.
#[tactic(auto, using(crate::proofs::Adding::adds_twice))]
fn push_code(out: &mut Vec<u8>, code: u32) -> Result<(), AllocError>
    ensures { OnOk result (AddsPrinted out.old.items out.new.items) }
{
    if code < 0x10000 {
        return push_unit(out, code);
    }
    let above = code - 0x10000;
    push_unit(out, 0xd800 | (above >> 10))?;
    push_unit(out, 0xdc00 | (above & 0x3ff))?;
    Ok(())
}

// Adds a byte that is no character by itself.
fn push_byte(out: &mut Vec<u8>, byte: u8) -> Result<(), AllocError>
    ensures { OnOk result (AddsPrinted out.old.items out.new.items) }
{
    out.push(b'\\')?;
    out.push(b'x')?;
    out.push(hex_digit(byte as u32 >> 4))?;
    out.push(hex_digit(byte as u32))?;
    Ok(())
}

// Adds what stands here of a text, and gives the offset behind it.
fn push_at(out: &mut Vec<u8>, text: &[u8], at: usize) -> Result<usize, AllocError>
    requires { at < length text.now }
    ensures { IfOk result (λ next. (at < next) × (next ≤ length text.now) × AddsPrinted out.old.items out.new.items) }
{
    let byte = text[at];
    if byte >= b' ' && byte < 0x7f {
        out.push(byte)?;
        return Ok(at + 1);
    }
    match character_length(text, at) {
        Some(count) if byte >= 0x80 => {
            push_code(out, code_at(text, at, count))?;
            Ok(at + count)
        }
        _ => {
            push_byte(out, byte)?;
            Ok(at + 1)
        }
    }
}

/// Adds a text in printed ASCII: its printed characters as they are, other characters as JSON's escapes write them (`\u00e9`), and bytes that
/// are no character as `\xe9`.
pub fn push_shown(out: &mut Vec<u8>, text: &[u8]) -> Result<(), AllocError>
    ensures printed { OnOk result (AddsPrinted out.old.items out.new.items) }
{
    let mut at = 0;
    'showing: while at < text.len() {
        at = push_at(out, text, at)?;
    }
    Ok(())
}

// The offset up to which is shown what stands here: one byte of what stands between values or is no text, and else the first line of the value, and
// at most 40 bytes of it.
fn end_of_shown(text: &[u8], at: usize) -> usize
    requires { at < length text.now }
    ensures { (at < result) × (result ≤ length text.now) }
{
    let shown = excerpt(text, at);
    match text[at] {
        b',' | b':' | b']' | b'}' => at + 1,
        _ if shown.is_empty() => at + 1,
        _ => (at + shown.len()).min(text.len()),
    }
}

// Whether more of the value that begins here follows an offset.
fn goes_on(text: &[u8], at: usize, end: usize) -> bool
    requires { at < length text.now }
{
    match text[at] {
        b',' | b':' | b']' | b'}' | 0..=31 => false,
        _ => end < end_of_value(text, at),
    }
}

/// Adds what stands here of a text, in printed ASCII as `push_shown` writes it: the first line of a value and at most 40 bytes of it, and two points
/// if it goes on. Nothing at the text's end.
pub fn push_excerpt(out: &mut Vec<u8>, text: &[u8], at: usize) -> Result<(), AllocError>
    ensures printed { OnOk result (AddsPrinted out.old.items out.new.items) }
{
    if at >= text.len() {
        return push_shown(out, b"");
    }
    let end = end_of_shown(text, at);
    push_shown(out, &text[at..end])?;
    push_shown(out, if goes_on(text, at, end) { b".." } else { b"" })?;
    Ok(())
}
