//! Where the parts of a script stand in its text.

ghost use Rattle.std.specs.Prelude.{◌≡◌, IfOk};
ghost use Rattle.std.specs.List.{All};
ghost use Rattle.ipcz_places.specs.Values.{MembersBegin};

use crate::again::quoted_name;
use crate::wrong::{Fault, Key, Wrong};
use ipcz_places::{Member, excerpt, first_value, items, members};
use std::alloc::{AllocError, Global};

/// The offsets of a script, of its members and of its commands.
#[derive(Drop)]
pub struct Outline {
    whole: usize,
    members: Vec<Member>,
    commands: Vec<usize>,
}

// The offset of the value of the last member with this name.
fn value_of(text: &[u8], members: &[Member], key: Key) -> Option<usize> {
    let mut found = None;
    for member in members {
        if excerpt(text, member.name) == quoted_name(key) {
            found = Some(member.value);
        }
    }
    found
}

fn is_known(text: &[u8], member: &Member) -> bool {
    let name = excerpt(text, member.name);
    name == quoted_name(Key::Nodes)
        || name == quoted_name(Key::Words)
        || name == quoted_name(Key::Commands)
}

// The offset of the first member whose name is none of the three.
fn first_extra(text: &[u8], members: &[Member]) -> Option<usize> {
    for member in members {
        if !is_known(text, member) {
            return Some(member.name);
        }
    }
    None
}

/// Where the parts of a script stand.
pub fn outline_of(alloc: Global, text: &[u8]) -> Result<Outline, AllocError>
    ensures members { IfOk result (λ parts. All (MembersBegin text.now) parts.members.items) }
{
    let whole = first_value(text);
    let members = members(alloc, text, whole)?;
    let commands = match value_of(text, &members, Key::Commands) {
        Some(at) => items(alloc, text, at)?,
        None => Vec::new(alloc),
    };
    Ok(Outline {
        whole,
        members,
        commands,
    })
}

// The offset of the item with this number, counted from 0, or of the list.
fn item_of(alloc: Global, text: &[u8], list: usize, index: usize) -> Result<usize, AllocError> {
    let starts = items(alloc, text, list)?;
    match starts.as_slice().get(index) {
        Some(start) => Ok(*start),
        None => Ok(list),
    }
}

impl Outline {
    /// The members of the script.
    pub fn members(&self) -> &[Member]
        ensures members { result.now ≡ self.now.members.items }
    {
        self.members.as_slice()
    }

    /// The offset of the command with this number, counted from 1, or of the script.
    pub fn command(&self, number: usize) -> usize {
        match self.commands.as_slice().get(number.saturating_sub(1)) {
            Some(start) => *start,
            None => self.whole,
        }
    }

    /// The offset at which a fault is told.
    pub fn offset_of(&self, alloc: Global, text: &[u8], fault: Fault) -> Result<usize, AllocError> {
        let command = self.command(fault.number);
        match fault.wrong {
            Wrong::NoObject | Wrong::Missing(_) => Ok(self.whole),
            Wrong::Member(key) => { Ok(value_of(text, &self.members, key).unwrap_or(self.whole)) }
            Wrong::Extra => Ok(first_extra(text, &self.members).unwrap_or(self.whole)),
            Wrong::NoList | Wrong::NoWord | Wrong::Number { .. } => Ok(command),
            Wrong::UnknownWord => item_of(alloc, text, command, 0),
            Wrong::Value { place, .. } => item_of(alloc, text, command, place),
            Wrong::Item { place } => {
                let names = item_of(alloc, text, command, 3)?;
                item_of(alloc, text, names, place.saturating_sub(1))
            }
            Wrong::SameNames => item_of(alloc, text, command, 3),
        }
    }
}
