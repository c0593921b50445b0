//! Where a text stops being JSON, for people who look for their mistake. Whether it is JSON is for a parser to say.

ghost use Rattle.std.specs.Prelude.{◌≡◌, ◌<◌, ◌≤◌, true, ℕ, List, length, None, Some, IfOk, IfSome};
ghost use Rattle.ipcz_places.specs.Faults.{Grounds, Opens, Passes, StandsAt};
ghost use Rattle.ipcz_places.specs.Values.{BeginsIn};
ghost use Rattle.ipcz_places.specs.Walks.{Goes, IsWalk};

use crate::broken::{Broken, JsonFault};
use crate::number::behind_word;
use crate::quoted::behind_text;
use crate::values::behind_spaces;
use std::alloc::{AllocError, Global};

// How many lists and objects may stand within one another.
const MOST_LEVELS: usize = 127;

// What may stand next.
#[derive(Clone, Copy, Debug, PartialEq, Eq)]
enum Expected {
    Value,
    // a value, or the list's end
    First,
    Member,
    // a member, or the object's end
    FirstMember,
    Colon,
    // a comma or a bracket, or the text's end
    Next,
}

// How far a text is JSON: where the next token may begin, where the lists and objects begin that are open, and what may stand next.
#[derive(Drop)]
pub(crate) struct Walk {
    at: usize,
    brackets: Vec<usize>,
    expected: Expected,
}

fn fault(offset: usize, why: Broken) -> Option<JsonFault>
    ensures { result ≡ Some (record { offset = offset; why = why }) }
{
    Some(JsonFault { offset, why })
}

// The offset at which the innermost list or object begins that is open.
fn innermost(text: &[u8], walk: &Walk) -> Option<usize>
    requires { IsWalk text.now walk.now }
    ensures { IfSome result (λ bracket. Opens text.now bracket) }
{
    Some(*walk.brackets.as_slice().last()?)
}

// Passes a list's or an object's last bracket.
fn close(text: &[u8], walk: &mut Walk)
    requires walk { IsWalk text.now walk.old }
    requires within { walk.old.at < length text.now }
    ensures { Goes text.now walk.old walk.new None }
{
    walk.brackets.pop();
    walk.at += 1;
    walk.expected = Expected::Next;
}

// Passes the bracket that begins a list or an object.
fn begin(text: &[u8], walk: &mut Walk, expected: Expected) -> Result<Option<JsonFault>, AllocError>
    requires walk { IsWalk text.now walk.old }
    requires opens { Opens text.now walk.old.at }
    ensures { IfOk result (λ found. Goes text.now walk.old walk.new found) }
{
    let at = walk.at;
    if walk.brackets.len() >= MOST_LEVELS {
        return Ok(fault(at, Broken::TooDeep));
    }
    walk.brackets.push(at)?;
    walk.at = at + 1;
    walk.expected = expected;
    Ok(None)
}

// Passes a text, a number or a word, of which the end is known, or stops there.
fn pass(walk: &mut Walk, end: Result<usize, JsonFault>, expected: Expected) -> Option<JsonFault>
    ensures { (text : List ℕ) → IsWalk text walk.old → Passes text walk.old.at end → Goes text walk.old walk.new result }
{
    match end {
        Ok(end) => {
            walk.at = end;
            walk.expected = expected;
            None
        }
        Err(found) => Some(found),
    }
}

// Passes a value, or its first bracket.
fn pass_value(text: &[u8], walk: &mut Walk) -> Result<Option<JsonFault>, AllocError>
    requires walk { IsWalk text.now walk.old }
    requires begins { BeginsIn text.now walk.old.at }
    ensures { IfOk result (λ found. Goes text.now walk.old walk.new found) }
{
    let at = walk.at;
    match text[at] {
        b'[' => begin(text, walk, Expected::First),
        b'{' => begin(text, walk, Expected::FirstMember),
        b'"' => Ok(pass(walk, behind_text(text, at), Expected::Next)),
        _ => Ok(pass(walk, behind_word(text, at), Expected::Next)),
    }
}

// Passes the name of a member.
fn pass_name(text: &[u8], walk: &mut Walk) -> Option<JsonFault>
    requires walk { IsWalk text.now walk.old }
    requires begins { BeginsIn text.now walk.old.at }
    ensures { Goes text.now walk.old walk.new result }
{
    let at = walk.at;
    if text[at] != b'"' {
        return fault(at, Broken::NoMember);
    }
    pass(walk, behind_text(text, at), Expected::Colon)
}

fn pass_colon(text: &[u8], walk: &mut Walk) -> Option<JsonFault>
    requires walk { IsWalk text.now walk.old }
    requires begins { BeginsIn text.now walk.old.at }
    ensures { Goes text.now walk.old walk.new result }
{
    if text[walk.at] != b':' {
        return fault(walk.at, Broken::NoColon);
    }
    walk.at += 1;
    walk.expected = Expected::Value;
    None
}

// Whether the one bracket closes what the other one begins.
fn is_closed_by(begun: u8, byte: u8) -> bool {
    (begun == b'[' && byte == b']') || (begun == b'{' && byte == b'}')
}

// Passes what stands behind a value of a list or an object.
fn pass_next(text: &[u8], walk: &mut Walk, bracket: usize) -> Option<JsonFault>
    requires walk { IsWalk text.now walk.old }
    requires begins { BeginsIn text.now walk.old.at }
    requires opens { Opens text.now bracket }
    ensures { Goes text.now walk.old walk.new result }
{
    let byte = text[walk.at];
    if byte == b',' {
        walk.at += 1;
        walk.expected = if text[bracket] == b'{' {
            Expected::Member
        } else {
            Expected::Value
        };
        return None;
    }
    if is_closed_by(text[bracket], byte) {
        close(text, walk);
        return None;
    }
    match byte {
        b']' | b'}' => fault(walk.at, Broken::Unmatched(bracket)),
        _ => fault(walk.at, Broken::NoComma(bracket)),
    }
}

// Passes the token that stands here.
fn pass_token(text: &[u8], walk: &mut Walk) -> Result<Option<JsonFault>, AllocError>
    requires walk { IsWalk text.now walk.old }
    requires begins { BeginsIn text.now walk.old.at }
    ensures { IfOk result (λ found. Goes text.now walk.old walk.new found) }
{
    match walk.expected {
        Expected::First if text[walk.at] == b']' => {
            close(text, walk);
            Ok(None)
        }
        Expected::FirstMember if text[walk.at] == b'}' => {
            close(text, walk);
            Ok(None)
        }
        Expected::Value | Expected::First => pass_value(text, walk),
        Expected::Member | Expected::FirstMember => Ok(pass_name(text, walk)),
        Expected::Colon => Ok(pass_colon(text, walk)),
        Expected::Next => match innermost(text, walk) {
            Some(bracket) => Ok(pass_next(text, walk, bracket)),
            None => Ok(fault(walk.at, Broken::Behind)),
        },
    }
}

// Passes spaces, and a token if one stands behind them.
fn step(text: &[u8], walk: &mut Walk) -> Result<Option<JsonFault>, AllocError>
    requires walk { IsWalk text.now walk.old }
    requires within { walk.old.at < length text.now }
    ensures { IfOk result (λ found. Goes text.now walk.old walk.new found) }
{
    walk.at = behind_spaces(text, walk.at);
    if walk.at == text.len() {
        return Ok(None);
    }
    pass_token(text, walk)
}

// What is wrong at the text's end.
fn fault_at_end(text: &[u8], walk: &Walk) -> Option<JsonFault>
    requires { IsWalk text.now walk.now }
    ensures { IfSome result (λ found. Grounds text.now found.offset found.why) }
{
    match innermost(text, walk) {
        Some(bracket) => fault(text.len(), Broken::Cut(bracket)),
        None if walk.expected == Expected::Next => None,
        None => fault(text.len(), Broken::Empty),
    }
}

fn has_mark(text: &[u8]) -> bool
    ensures { result ≡ true → StandsAt text.now 0 239 }
{
    text.len() >= 3 && text[0] == 0xef && text[1] == 0xbb && text[2] == 0xbf
}

/// Where a text stops being JSON, and why; none if it doesn't, or if no mistake is found. Values may stand in 127 others.
///
/// Numbers are asked for their size roughly: some above all that a parser reads pass.
#[tactic(auto, using(crate::proofs::Grounding::grounds_within))]
pub fn json_fault(alloc: Global, text: &[u8]) -> Result<Option<JsonFault>, AllocError>
    ensures ground { IfOk result (λ found. IfSome found (λ fault. Grounds text.now fault.offset fault.why)) }
    ensures within { IfOk result (λ found. IfSome found (λ fault. fault.offset ≤ length text.now)) }
{
    if has_mark(text) {
        return Ok(fault(0, Broken::Mark));
    }
    let mut walk = Walk {
        at: 0,
        brackets: Vec::new(alloc),
        expected: Expected::Value,
    };
    'walking: while walk.at < text.len() {
        if let Some(found) = step(text, &mut walk)? {
            return Ok(Some(found));
        }
    }
    Ok(fault_at_end(text, &walk))
}
