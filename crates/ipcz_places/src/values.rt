//! Where the values of a JSON text begin, and where they end. Of a text that is no JSON some offsets are told, too.

ghost use Rattle.std.specs.Prelude.{◌≡◌, ◌<◌, ◌≤◌, length, IfOk};
ghost use Rattle.std.specs.List.{All};
ghost use Rattle.ipcz_places.specs.Values.{is_space, BeginsIn, MembersBegin};

use std::alloc::{AllocError, Global};

/// The offsets at which a member's name and its value begin.
#[derive(Clone, Copy, Debug, PartialEq, Eq)]
pub struct Member {
    pub name: usize,
    pub value: usize,
}

fn is_space(byte: u8) -> bool
    ensures { result ≡ is_space byte }
{
    byte == b' ' || byte == b'\t' || byte == b'\n' || byte == b'\r'
}

// The first offset from one on at which no space stands, or the text's end.
pub(crate) fn behind_spaces(text: &[u8], from: usize) -> usize
    requires { from ≤ length text.now }
    ensures forward { (from ≤ result) × (result ≤ length text.now) }
    ensures begins { result < length text.now → BeginsIn text.now result }
{
    for i in from..text.len() {
        if !is_space(text[i]) {
            return i;
        }
    }
    text.len()
}

// The offset behind a string whose quotation mark stands here.
fn behind_string(text: &[u8], from: usize) -> usize
    requires { from < length text.now }
    ensures { (from < result) × (result ≤ length text.now) }
{
    let mut escaped = false;
    for i in from + 1..text.len() {
        match text[i] {
            b'"' if !escaped => return i + 1,
            b'\\' if !escaped => escaped = true,
            _ => escaped = false,
        }
    }
    text.len()
}

// Whether a byte ends a value that stands in no list or object of its own.
fn is_end(byte: u8) -> bool {
    is_space(byte) || byte == b',' || byte == b':' || byte == b']' || byte == b'}'
}

// How many lists and objects are open behind a byte.
fn depth_behind(depth: usize, byte: u8) -> usize {
    match byte {
        b'[' | b'{' => depth.saturating_add(1),
        b']' | b'}' => depth.saturating_sub(1),
        _ => depth,
    }
}

/// The offset behind the value that begins here: at least one byte further.
pub fn end_of_value(text: &[u8], from: usize) -> usize
    requires within { from < length text.now }
    ensures behind { (from < result) × (result ≤ length text.now) }
{
    let mut depth = 0;
    let mut end = from;
    'passing: while end < text.len() {
        let byte = text[end];
        if depth == 0 && end > from && is_end(byte) {
            return end;
        }
        let was = depth;
        depth = depth_behind(depth, byte);
        end = if byte == b'"' {
            behind_string(text, end)
        } else {
            end + 1
        };
        if depth < was && depth == 0 {
            return end;
        }
    }
    end
}

// The offset of what stands behind a value and a comma.
fn next_item(text: &[u8], from: usize) -> usize
    requires { from < length text.now }
    ensures forward { (from < result) × (result ≤ length text.now) }
    ensures begins { result < length text.now → BeginsIn text.now result }
{
    let end = behind_spaces(text, end_of_value(text, from));
    if end < text.len() && text[end] == b',' {
        behind_spaces(text, end + 1)
    } else {
        end
    }
}

/// The offsets of the values of the list that begins here; none if it is no list.
pub fn items(alloc: Global, text: &[u8], at: usize) -> Result<Vec<usize>, AllocError>
    ensures begin { IfOk result (λ starts. All (BeginsIn text.now) starts.items) }
{
    let mut starts = Vec::new(alloc);
    if at >= text.len() || text[at] != b'[' {
        return Ok(starts);
    }
    let mut from = behind_spaces(text, at + 1);
    'walking: while from < text.len() && text[from] != b']' {
        starts.push(from)?;
        from = next_item(text, from);
    }
    Ok(starts)
}

// The member whose name begins here.
fn member_at(text: &[u8], name: usize) -> Member
    requires { BeginsIn text.now name }
    ensures { (result.name ≡ name) × (name ≤ result.value) × BeginsIn text.now result.value }
{
    let colon = behind_spaces(text, behind_string(text, name));
    if colon < text.len() {
        let value = behind_spaces(text, colon + 1);
        if value < text.len() {
            return Member { name, value };
        }
    }
    Member { name, value: name }
}

/// The offsets of the members of the object that begins here; none if it is no object.
pub fn members(alloc: Global, text: &[u8], at: usize) -> Result<Vec<Member>, AllocError>
    ensures begin { IfOk result (λ found. All (MembersBegin text.now) found.items) }
{
    let mut found = Vec::new(alloc);
    if at >= text.len() || text[at] != b'{' {
        return Ok(found);
    }
    let mut from = behind_spaces(text, at + 1);
    'walking: while from < text.len() && text[from] != b'}' {
        let member = member_at(text, from);
        found.push(member)?;
        from = next_item(text, member.value);
    }
    Ok(found)
}

// The last offset up to one at which a character may begin.
fn character_start(text: &[u8], from: usize, end: usize) -> usize
    requires { (from ≤ end) × (end ≤ length text.now) }
    ensures { (from ≤ result) × (result ≤ end) }
{
    let mut start = end;
    'backing: while start > from && start < text.len() && text[start] & 0xc0 == 0x80 {
        start -= 1;
    }
    start
}

// The first offset from one up to another at which a control character stands, or the other.
fn end_of_line(text: &[u8], from: usize, end: usize) -> usize
    requires { (from ≤ end) × (end ≤ length text.now) }
    ensures { (from ≤ result) × (result ≤ end) }
{
    for i in from..end {
        if text[i] < b' ' {
            return i;
        }
    }
    end
}

/// What to show of the value that begins here: its first line, and at most 40 bytes of it. Empty at the text's end.
pub fn excerpt(text: &[u8], from: usize) -> &[u8]
    ensures few { length result.now ≤ 40 }
{
    if from >= text.len() {
        return &[];
    }
    let end = end_of_value(text, from);
    let end = character_start(text, from, end.min(from + 40));
    &text[from..end_of_line(text, from, end)]
}

/// The offset of the value that the text is, or the text's end.
pub fn first_value(text: &[u8]) -> usize
    ensures within { result ≤ length text.now }
    ensures begins { result < length text.now → BeginsIn text.now result }
{
    behind_spaces(text, 0)
}
