//! Reading the parts of a line: numbers, ends, links, names and lists, each from all the bytes that it is given.

ghost use Rattle.std.specs.Prelude.{◌≡◌, ◌≢◌, ◌↔◌, ◌++◌, ◌∷◌, All, IfSome, IfNone, IsTrue};
ghost use Rattle.std.specs.Fmt.{decimal};
ghost use Rattle.ipcz_lines.specs.LineParts.{AreParted, BeginsPlainly, IsEnd, IsEndText, IsLink, IsName, IsNodeNumber, IsNumber};
ghost use Rattle.ipcz_lines.specs.LineParts.{IsWordNumber, IsWordText, Reads, end_text, is_name_byte, link_text, refusal_text};

use crate::line::parts::{End, Link, Refusal, Side};
use std::str;

/// Whether a number may begin so: without a sign, and without a zero that more digits follow.
fn begins_plainly(bytes: &[u8]) -> bool
    ensures { IsTrue result ↔ BeginsPlainly bytes.now }
{
    match bytes {
        [b'+', ..] => false,
        [b'0', rest @ ..] => rest.is_empty(),
        _ => true,
    }
}

#[tactic(auto, using(crate::proofs::Numbers::reads_decimal))]
fn parsed(text: &str) -> Option<u64>
    requires { BeginsPlainly text.now }
    ensures { Reads decimal IsNumber text.now result }
{
    text.parse::<u64>().ok()
}

/// The number that these bytes write in decimal, without needless zeros.
pub fn number(bytes: &[u8]) -> Option<u64>
    ensures { Reads decimal IsNumber bytes.now result }
{
    if !begins_plainly(bytes) {
        return None;
    }
    match str::from_utf8(bytes) {
        Ok(text) => parsed(text),
        Err(_) => None,
    }
}

/// The number of a node.
pub fn node(bytes: &[u8]) -> Option<u8>
    ensures { Reads decimal IsNodeNumber bytes.now result }
{
    match number(bytes) {
        Some(n) if n < 8 => Some(n as u8),
        _ => None,
    }
}

/// The number of a word or of a pair, or the value of a word.
pub fn word(bytes: &[u8]) -> Option<u16>
    ensures { Reads decimal IsWordNumber bytes.now result }
{
    match number(bytes) {
        Some(n) if n < 4096 => Some(n as u16),
        _ => None,
    }
}

/// What stands before the first byte that is the separator `mark`, and what stands behind it.
pub fn halves(bytes: &[u8], mark: u8) -> Option<(&[u8], &[u8])>
    ensures joined { IfSome result (λ parts. bytes.now ≡ parts.0.now ++ mark ∷ parts.1.now) }
    ensures first { IfSome result (λ parts. All (λ b. b ≢ mark) parts.0.now) }
    ensures none { IfNone result (All (λ b. b ≢ mark) bytes.now) }
{
    let at = bytes.iter().position(|b| *b == mark)?;
    Some((&bytes[..at], &bytes[at + 1..]))
}

/// The end that these bytes name, as `3B`.
pub fn end(bytes: &[u8]) -> Option<End>
    ensures { Reads end_text IsEnd bytes.now result }
{
    let (pair, side) = match bytes {
        [pair @ .., b'A'] => (pair, Side::A),
        [pair @ .., b'B'] => (pair, Side::B),
        _ => return None,
    };
    Some(End {
        pair: word(pair)?,
        side,
    })
}

fn peripheral(bytes: &[u8]) -> Option<Link>
    ensures { Reads link_text IsLink (80 ∷ bytes.now) result }
{
    let (first, second) = halves(bytes, b'.')?;
    Some(Link::Peripheral {
        node: node(first)?,
        serial: number(second)?,
    })
}

/// The link that these bytes name, as `C3` or `P0.1`.
pub fn link(bytes: &[u8]) -> Option<Link>
    ensures { Reads link_text IsLink bytes.now result }
{
    match bytes {
        [b'C', rest @ ..] => Some(Link::Central(word(rest)?)),
        [b'P', rest @ ..] => peripheral(rest),
        _ => None,
    }
}

/// The refusal of this name.
pub fn refusal(bytes: &[u8]) -> Option<Refusal>
    ensures { Reads refusal_text (λ _. Unit {0}) bytes.now result }
{
    match bytes {
        _ if bytes == b"Empty".as_slice() => Some(Refusal::Empty),
        _ if bytes == b"PeerClosed".as_slice() => Some(Refusal::PeerClosed),
        _ if bytes == b"NoWord".as_slice() => Some(Refusal::NoWord),
        _ if bytes == b"SelfAttach".as_slice() => Some(Refusal::SelfAttach),
        _ if bytes == b"PeerAttach".as_slice() => Some(Refusal::PeerAttach),
        _ if bytes == b"Stranger".as_slice() => Some(Refusal::Stranger),
        _ if bytes == b"NumbersEnd".as_slice() => Some(Refusal::NumbersEnd),
        _ if bytes == b"BadData".as_slice() => Some(Refusal::BadData),
        _ if bytes == b"TooMany".as_slice() => Some(Refusal::TooMany),
        _ if bytes == b"Raced".as_slice() => Some(Refusal::Raced),
        _ if bytes == b"Occupied".as_slice() => Some(Refusal::Occupied),
        _ if bytes == b"Passed".as_slice() => Some(Refusal::Passed),
        _ if bytes == b"Forged".as_slice() => Some(Refusal::Forged),
        _ if bytes == b"Away".as_slice() => Some(Refusal::Away),
        _ if bytes == b"OutOfMemory".as_slice() => Some(Refusal::OutOfMemory),
        _ if bytes == b"UnknownName".as_slice() => Some(Refusal::UnknownName),
        _ => None,
    }
}

fn is_name_byte(byte: u8) -> bool
    ensures { result ≡ is_name_byte byte }
{
    byte.is_ascii_alphanumeric() || byte == b'_' || byte == b'>'
}

/// Whether these bytes may be the name of a portal.
pub fn is_name(bytes: &[u8]) -> bool
    ensures { IsTrue result ↔ IsName bytes.now }
{
    !bytes.is_empty() && bytes.len() <= 16 && bytes.iter().all(|b| is_name_byte(*b))
}

/// Whether these are names, parted by commas.
pub fn are_names(text: &[u8]) -> bool
    ensures { IsTrue result ↔ AreParted IsName 44 text.now }
{
    match halves(text, b',') {
        None => is_name(text),
        Some((first, rest)) => is_name(first) && are_names(rest),
    }
}

fn is_end(text: &[u8]) -> bool
    ensures { IsTrue result ↔ IsEndText text.now }
{
    end(text).is_some()
}

/// Whether these are ends, parted by commas.
pub fn are_ends(text: &[u8]) -> bool
    ensures { IsTrue result ↔ AreParted IsEndText 44 text.now }
{
    match halves(text, b',') {
        None => is_end(text),
        Some((first, rest)) => is_end(first) && are_ends(rest),
    }
}

fn is_word(text: &[u8]) -> bool
    ensures { IsTrue result ↔ IsWordText text.now }
{
    word(text).is_some()
}

/// Whether these are values of words, parted by spaces.
pub fn are_words(text: &[u8]) -> bool
    ensures { IsTrue result ↔ AreParted IsWordText 32 text.now }
{
    match halves(text, b' ') {
        None => is_word(text),
        Some((first, rest)) => is_word(first) && are_words(rest),
    }
}
