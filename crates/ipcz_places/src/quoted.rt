//! Texts in quotes within a JSON text.

ghost use Rattle.std.specs.Prelude.{◌≡◌, ◌<◌, ◌≤◌, ◌+◌, true, length, Err, IfSome};
ghost use Rattle.ipcz_places.specs.Faults.{Passes, StandsAt};

use crate::broken::{Broken, JsonFault};

fn fault(offset: usize, why: Broken) -> Result<usize, JsonFault>
    ensures { result ≡ Err (record { offset = offset; why = why }) }
{
    Err(JsonFault { offset, why })
}

// How many bytes a character takes that begins here with a byte from 128 on; none if it is no character.
pub(crate) fn character_length(text: &[u8], at: usize) -> Option<usize>
    requires { at < length text.now }
    ensures { IfSome result (λ n. (2 ≤ n) × (at + n ≤ length text.now)) }
{
    for n in 2..5 {
        if n <= text.len() - at && str::from_utf8(&text[at..at + n]).is_ok() {
            return Some(n);
        }
    }
    None
}

// The value of a hex digit.
fn digit_of(byte: u8) -> Option<u32>
    ensures { IfSome result (λ n. n < 16) }
{
    match byte {
        b'0'..=b'9' => Some((byte - b'0') as u32),
        b'a'..=b'f' => Some((byte - b'a') as u32 + 10),
        b'A'..=b'F' => Some((byte - b'A') as u32 + 10),
        _ => None,
    }
}

// The number that four hex digits from here on are.
fn unit_at(text: &[u8], at: usize) -> Option<u32>
    ensures { IfSome result (λ n. at + 4 ≤ length text.now) }
{
    if at > text.len() || text.len() - at < 4 {
        return None;
    }
    let high = digit_of(text[at])? * 16 + digit_of(text[at + 1])?;
    let low = digit_of(text[at + 2])? * 16 + digit_of(text[at + 3])?;
    Some(high * 256 + low)
}

// Whether the second half of a surrogate pair is written here.
fn is_low_half(text: &[u8], at: usize) -> bool
    ensures { result ≡ true → at + 6 ≤ length text.now }
{
    if at > text.len() || text.len() - at < 6 || text[at] != b'\\' || text[at + 1] != b'u' {
        return false;
    }
    match unit_at(text, at + 2) {
        Some(unit) => unit >= 0xdc00 && unit < 0xe000,
        None => false,
    }
}

// The offset behind the `\u` that begins here, and behind the second one of a surrogate pair.
fn behind_unit(text: &[u8], at: usize) -> Result<usize, JsonFault>
    requires { StandsAt text.now at 92 }
    ensures { Passes text.now at result }
{
    let Some(unit) = unit_at(text, at + 2) else {
        return fault(at, Broken::Digits);
    };
    if unit < 0xd800 || unit >= 0xe000 {
        return Ok(at + 6);
    }
    if unit < 0xdc00 && is_low_half(text, at + 6) {
        return Ok(at + 12);
    }
    fault(at, Broken::Surrogate)
}

// The offset behind the escape whose backslash stands here, in a text that begins at another offset.
fn behind_escape(text: &[u8], quote: usize, at: usize) -> Result<usize, JsonFault>
    requires quote { StandsAt text.now quote 34 }
    requires here { StandsAt text.now at 92 }
    ensures { Passes text.now at result }
{
    if at + 1 >= text.len() {
        return fault(quote, Broken::OpenText);
    }
    match text[at + 1] {
        b'u' => behind_unit(text, at),
        b'"' | b'\\' | b'/' | b'b' | b'f' | b'n' | b'r' | b't' => Ok(at + 2),
        _ => fault(at, Broken::Escape),
    }
}

// The offset behind what stands here for a character of a text that begins at another offset.
fn behind_character(text: &[u8], quote: usize, at: usize) -> Result<usize, JsonFault>
    requires quote { StandsAt text.now quote 34 }
    requires within { at < length text.now }
    ensures { Passes text.now at result }
{
    match text[at] {
        b'\n' | b'\r' => fault(quote, Broken::OpenLine),
        0..=31 => fault(at, Broken::Control),
        b'\\' => behind_escape(text, quote, at),
        32..=127 => Ok(at + 1),
        _ => match character_length(text, at) {
            Some(length) => Ok(at + length),
            None => fault(at, Broken::Utf8),
        },
    }
}

/// The offset behind the text whose quotation mark stands here, or where it stops being one.
pub fn behind_text(text: &[u8], quote: usize) -> Result<usize, JsonFault>
    requires here { StandsAt text.now quote 34 }
    ensures passes { Passes text.now quote result }
{
    let mut at = quote + 1;
    'reading: while at < text.len() {
        if text[at] == b'"' {
            return Ok(at + 1);
        }
        at = behind_character(text, quote, at)?;
    }
    fault(quote, Broken::OpenText)
}
