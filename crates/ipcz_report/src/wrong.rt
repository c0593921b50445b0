//! What can be wrong with a script.

/// The first word of a command.
#[derive(Clone, Copy, Debug, PartialEq, Eq)]
pub enum Kind {
    Open,
    Put,
    Get,
    Close,
    Turn,
    Settle,
    Show,
}

/// A member of a script.
#[derive(Clone, Copy, Debug, PartialEq, Eq)]
pub enum Key {
    Nodes,
    Words,
    Commands,
}

/// What a value of a command has to be.
#[derive(Clone, Copy, Debug, PartialEq, Eq)]
pub enum Wanted {
    /// A node of the script.
    Node,
    /// How many turns, from 1 to 1,000,000.
    Count,
    /// How many acts at most, up to 1,000,000.
    Limit,
    /// The name of a portal.
    Name,
    /// A name without `>`.
    PlainName,
    /// A name that no command before it has opened.
    FreshName,
    /// Any text.
    Data,
    /// A list.
    List,
}

/// What is wrong with a script or with a command of it.
#[derive(Clone, Copy, Debug, PartialEq, Eq)]
pub enum Wrong {
    /// The script is no object.
    NoObject,
    /// A member is missing.
    Missing(Key),
    /// A member isn't what it has to be.
    Member(Key),
    /// There is a member that a script doesn't have.
    Extra,
    /// A command is no list.
    NoList,
    /// A command doesn't begin with a text.
    NoWord,
    /// A command begins with a word that is none of the seven.
    UnknownWord,
    /// A command has so many values behind its word, which are too few or too many.
    Number { kind: Kind, count: usize },
    /// The value with this number behind the word, counted from 1, isn't what it has to be.
    Value { place: usize, wanted: Wanted },
    /// The item with this number, counted from 1, of the names of a put is no name.
    Item { place: usize },
    /// The two names of an open are one.
    SameNames,
}

/// Something that is wrong, and the number of its command, counted from 1; 0 is the script itself.
#[derive(Clone, Copy, Debug, PartialEq, Eq)]
pub struct Fault {
    pub number: usize,
    pub wrong: Wrong,
}
