//! Numbers and the three words of a JSON text.

ghost use Rattle.std.specs.Prelude.{◌≤◌, length, IfSome};
ghost use Rattle.ipcz_places.specs.Faults.{Passes};
ghost use Rattle.ipcz_places.specs.Values.{BeginsIn};

use crate::broken::{Broken, JsonFault};

// The greatest number that is read has 309 digits before its point.
const MOST_DIGITS: usize = 309;

// Whether a byte may stand in a word or in a number.
fn is_of_word(byte: u8) -> bool {
    byte.is_ascii_alphanumeric() || byte == b'-' || byte == b'+' || byte == b'.' || byte == b'_'
}

// The offset behind the word or the number that begins here.
fn end_of_word(text: &[u8], from: usize) -> usize
    requires { from ≤ length text.now }
    ensures { (from ≤ result) × (result ≤ length text.now) }
{
    for i in from..text.len() {
        if !is_of_word(text[i]) {
            return i;
        }
    }
    text.len()
}

// The offset behind the digits that begin here.
fn end_of_digits(word: &[u8], from: usize) -> usize
    requires { from ≤ length word.now }
    ensures { (from ≤ result) × (result ≤ length word.now) }
{
    for i in from..word.len() {
        if !word[i].is_ascii_digit() {
            return i;
        }
    }
    word.len()
}

// The offset behind a sign, if one of the two stands here.
fn behind_sign(word: &[u8], from: usize) -> usize
    requires { from ≤ length word.now }
    ensures { (from ≤ result) × (result ≤ length word.now) }
{
    if from < word.len() && (word[from] == b'-' || word[from] == b'+') {
        from + 1
    } else {
        from
    }
}

// The offset behind the whole part of a number: 0, or digits of which the first isn't 0; none if there is no such part.
fn end_of_whole(word: &[u8]) -> Option<usize>
    ensures { IfSome result (λ end. end ≤ length word.now) }
{
    let from = if word.len() > 0 && word[0] == b'-' {
        1
    } else {
        0
    };
    let end = end_of_digits(word, from);
    if end == from || (word[from] == b'0' && end > from + 1) {
        return None;
    }
    Some(end)
}

// The offset behind the fraction that begins here, or the same one if none does; none if a point has no digits.
fn end_of_fraction(word: &[u8], from: usize) -> Option<usize>
    requires { from ≤ length word.now }
    ensures { IfSome result (λ end. end ≤ length word.now) }
{
    if from >= word.len() || word[from] != b'.' {
        return Some(from);
    }
    let end = end_of_digits(word, from + 1);
    if end > from + 1 { Some(end) } else { None }
}

// The offset behind the exponent that begins here, or the same one if none does; none if an exponent has no digits.
fn end_of_exponent(word: &[u8], from: usize) -> Option<usize>
    requires { from ≤ length word.now }
    ensures { IfSome result (λ end. end ≤ length word.now) }
{
    if from >= word.len() || (word[from] != b'e' && word[from] != b'E') {
        return Some(from);
    }
    let digits = behind_sign(word, from + 1);
    let end = end_of_digits(word, digits);
    if end > digits { Some(end) } else { None }
}

fn is_number(word: &[u8]) -> bool {
    let Some(whole) = end_of_whole(word) else {
        return false;
    };
    let Some(fraction) = end_of_fraction(word, whole) else {
        return false;
    };
    end_of_exponent(word, fraction) == Some(word.len())
}

// The offset of the `e` of a number, or the number's end.
fn exponent_of(word: &[u8]) -> usize
    ensures { result ≤ length word.now }
{
    for i in 0..word.len() {
        if word[i] == b'e' || word[i] == b'E' {
            return i;
        }
    }
    word.len()
}

// The number that these digits are, or a greater one if it is above all that matter.
fn value_of(digits: &[u8]) -> usize {
    let mut value: usize = 0;
    for digit in digits {
        value = value
            .saturating_mul(10)
            .saturating_add(digit.saturating_sub(b'0') as usize);
    }
    value
}

// How many digits stand from the first one that isn't 0 on up to the point; none if there is no such digit before it.
fn digits_before(front: &[u8]) -> Option<usize> {
    for i in 0..front.len() {
        if front[i] >= b'1' && front[i] <= b'9' {
            return Some(end_of_digits(front, i) - i);
        }
        if front[i] == b'.' {
            return None;
        }
    }
    None
}

// Whether a number that isn't below 1 without its exponent is above all that are read.
fn is_large(word: &[u8]) -> bool {
    let at = exponent_of(word);
    let Some(digits) = digits_before(&word[..at]) else {
        return false;
    };
    if at == word.len() {
        return digits > MOST_DIGITS;
    }
    let from = behind_sign(word, at + 1);
    let exponent = value_of(&word[from..]);
    if word[at + 1..from].contains(&b'-') {
        return digits > exponent.saturating_add(MOST_DIGITS);
    }
    exponent.saturating_add(digits) > MOST_DIGITS
}

fn is_word(word: &[u8]) -> bool {
    word == b"true".as_slice() || word == b"false".as_slice() || word == b"null".as_slice()
}

/// The offset behind the word or the number that begins here, or that it is none, or too large a number.
pub fn behind_word(text: &[u8], from: usize) -> Result<usize, JsonFault>
    requires here { BeginsIn text.now from }
    ensures passes { Passes text.now from result }
{
    let end = end_of_word(text, from);
    let word = &text[from..end];
    if end == from || !(is_word(word) || is_number(word)) {
        return Err(JsonFault {
            offset: from,
            why: Broken::NoValue,
        });
    }
    if is_number(word) && is_large(word) {
        return Err(JsonFault {
            offset: from,
            why: Broken::LargeNumber,
        });
    }
    Ok(end)
}
