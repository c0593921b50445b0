//! Members of a script whose names stand again behind them.

ghost use Rattle.std.specs.Prelude.{◌≡◌, ◌≤◌, true, length, IfOk, IfSome, OnOk};
ghost use Rattle.std.specs.List.{All};
ghost use Rattle.ipcz_places.specs.Values.{MembersBegin};
ghost use Rattle.ipcz_report.specs.Notes.{is_named, quoted_name, IsNote};

use crate::remark::Remark;
use crate::wrong::Key;
use ipcz_places::Member;
use std::alloc::{AllocError, Global};

/// The name of a member as it stands in a script.
pub fn quoted_name(key: Key) -> &'static [u8]
    ensures name { result.now ≡ quoted_name key }
{
    match key {
        Key::Nodes => b"\"nodes\"",
        Key::Words => b"\"words\"",
        Key::Commands => b"\"commands\"",
    }
}

// Whether this name stands here.
fn is_named(text: &[u8], at: usize, key: Key) -> bool
    requires { at ≤ length text.now }
    ensures { result ≡ is_named text.now at key }
{
    text[at..].starts_with(quoted_name(key))
}

// Which of the three names stands here.
fn key_at(text: &[u8], at: usize) -> Option<Key>
    requires { at ≤ length text.now }
    ensures { IfSome result (λ key. is_named text.now at key ≡ true) }
{
    if is_named(text, at, Key::Nodes) {
        Some(Key::Nodes)
    } else if is_named(text, at, Key::Words) {
        Some(Key::Words)
    } else if is_named(text, at, Key::Commands) {
        Some(Key::Commands)
    } else {
        None
    }
}

// The offset of the first of these members that has this name.
fn first_named(text: &[u8], members: &[Member], key: Key) -> Option<usize>
    requires { All (MembersBegin text.now) members.now }
    ensures { IfSome result (λ at. is_named text.now at key ≡ true) }
{
    for member in members {
        if is_named(text, member.name, key) {
            return Some(member.name);
        }
    }
    None
}

// What is said of such a member.
fn words_of(key: Key) -> &'static [u8] {
    match key {
        Key::Nodes => b"nodes stands again behind this; the last one counts",
        Key::Words => b"words stands again behind this; the last one counts",
        Key::Commands => b"commands stands again behind this; the last one counts",
    }
}

// The remark on a member whose name stands again among those behind it, if it does.
fn note_of(
    alloc: Global,
    text: &[u8],
    member: Member,
    behind: &[Member],
) -> Result<Option<Remark>, AllocError>
    requires member { MembersBegin text.now member }
    requires behind { All (MembersBegin text.now) behind.now }
    ensures note { IfOk result (λ note. IfSome note (IsNote text.now)) }
{
    let Some(key) = key_at(text, member.name) else {
        return Ok(None);
    };
    match first_named(text, behind, key) {
        Some(later) if member.name < later => Ok(Some(Remark {
            offset: member.name,
            number: 0,
            words: Vec::from_slice(alloc, words_of(key))?,
        })),
        _ => Ok(None),
    }
}

// Adds the remark on a member whose name stands again among those behind it, if it does.
fn push_note(
    alloc: Global,
    text: &[u8],
    notes: &mut Vec<Remark>,
    member: Member,
    behind: &[Member],
) -> Result<(), AllocError>
    requires member { MembersBegin text.now member }
    requires behind { All (MembersBegin text.now) behind.now }
    ensures notes { OnOk result (All (IsNote text.now) notes.old.items → All (IsNote text.now) notes.new.items) }
{
    let Some(note) = note_of(alloc, text, member, behind)? else {
        return Ok(());
    };
    notes.push(note)?;
    Ok(())
}

/// The remarks on those of a script's members whose names stand again behind them: the last member of a name is the one that counts.
pub fn notes(alloc: Global, text: &[u8], members: &[Member]) -> Result<Vec<Remark>, AllocError>
    requires members { All (MembersBegin text.now) members.now }
    ensures notes { IfOk result (λ notes. All (IsNote text.now) notes.items) }
{
    let mut notes = Vec::new(alloc);
    for i in 0..members.len() {
        push_note(alloc, text, &mut notes, members[i], &members[i + 1..])?;
    }
    Ok(notes)
}
