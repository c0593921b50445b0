//! What is said of a fault: what is wrong, and what was expected.

ghost use Rattle.std.specs.Prelude.{◌≡◌};
ghost use Rattle.std.specs.List.{list_any};
ghost use Rattle.ipcz_report.specs.Judging.{is_number_mark};

use crate::wrong::{Key, Kind, Wanted, Wrong};
use std::io;
use std::io::Write;

const COMMANDS: &str = "; expected open, put, get, close, turn, settle or show";

/// What a script's numbers may be: its nodes, and how many link words it has at least.
#[derive(Clone, Copy, Debug, PartialEq, Eq)]
pub struct Bounds {
    pub nodes: u8,
    pub least_words: u32,
}

fn word_of(kind: Kind) -> &'static str {
    match kind {
        Kind::Open => "open",
        Kind::Put => "put",
        Kind::Get => "get",
        Kind::Close => "close",
        Kind::Turn => "turn",
        Kind::Settle => "settle",
        Kind::Show => "show",
    }
}

// A command of this kind, as it is written.
fn shape_of(kind: Kind) -> &'static str {
    match kind {
        Kind::Open => "[\"open\", node, \"name\", \"name\"]",
        Kind::Put =>
            "[\"put\", \"name\", \"data\"] or [\"put\", \"name\", \"data\", [\"name\", ..]]",
        Kind::Get => "[\"get\", \"name\"]",
        Kind::Close => "[\"close\", \"name\"]",
        Kind::Turn => "[\"turn\", node, count]",
        Kind::Settle => "[\"settle\", limit]",
        Kind::Show => "[\"show\"]",
    }
}

fn name_of(key: Key) -> &'static str {
    match key {
        Key::Nodes => "nodes",
        Key::Words => "words",
        Key::Commands => "commands",
    }
}

// What a member has to be.
fn push_member(out: &mut Vec<u8>, bounds: Bounds, key: Key) -> io::Result<()> {
    let least = bounds.least_words;
    match key {
        Key::Nodes => write!(out, "a number from 1 to 8"),
        Key::Words => write!(out, "a number from {least} to 4096"),
        Key::Commands => write!(out, "a list of commands"),
    }
}

// Why a value isn't what it has to be, and what that is.
fn push_value(out: &mut Vec<u8>, bounds: Bounds, wanted: Wanted) -> io::Result<()> {
    let last = bounds.nodes.saturating_sub(1);
    match wanted {
        Wanted::Node => write!(out, " is no node; expected a number from 0 to {last}"),
        Wanted::Count => write!(
            out,
            " is no count of turns; expected a number from 1 to 1000000"
        ),
        Wanted::Limit => write!(out, " is no limit; expected a number from 0 to 1000000"),
        Wanted::Name => write!(
            out,
            " is no name; expected 1 to 16 letters, digits, _ or > in quotes"
        ),
        Wanted::PlainName => write!(
            out,
            " has a >; expected a name without it, as only first pairs have one"
        ),
        Wanted::FreshName => write!(
            out,
            " was opened before; expected a name that no command before it opens"
        ),
        Wanted::Data => write!(out, " is no data; expected a text in quotes"),
        Wanted::List => write!(out, " is no list; expected a list of names"),
    }
}

// Writes what is wrong with the script or one of its members.
fn push_head(out: &mut Vec<u8>, bounds: Bounds, shown: &[u8], key: Option<Key>) -> io::Result<()> {
    let Some(key) = key else {
        return write!(
            out,
            "the script is no object; expected one with the members nodes, words and commands"
        );
    };
    let name = name_of(key);
    write!(out, "{name} is ")?;
    out.write_all(shown)?;
    write!(out, "; expected ")?;
    push_member(out, bounds, key)
}

fn push_missing(out: &mut Vec<u8>, bounds: Bounds, key: Key) -> io::Result<()> {
    let name = name_of(key);
    write!(out, "the member {name} is missing; expected ")?;
    push_member(out, bounds, key)
}

// How many values stand behind a word.
fn count_of(kind: Kind) -> &'static str {
    match kind {
        Kind::Open => "3",
        Kind::Put => "2 or 3",
        Kind::Turn => "2",
        Kind::Get | Kind::Close | Kind::Settle => "1",
        Kind::Show => "none",
    }
}

fn push_number(out: &mut Vec<u8>, kind: Kind, count: usize) -> io::Result<()> {
    let word = word_of(kind);
    let wanted = count_of(kind);
    let shape = shape_of(kind);
    match count {
        0 => write!(out, "no value stands behind {word}")?,
        1 => write!(out, "1 value stands behind {word}")?,
        _ => write!(out, "{count} values stand behind {word}")?,
    }
    write!(out, "; expected {wanted}, as in {shape}")
}

// Writes a few words, what stands at the place, and what was expected.
fn push_around(out: &mut Vec<u8>, before: &str, shown: &[u8], behind: &str) -> io::Result<()> {
    write!(out, "{before}")?;
    out.write_all(shown)?;
    write!(out, "{behind}")
}

// Whether this is said of a value that has to be a number.
fn wants_number(wrong: Wrong) -> bool {
    matches!(
        wrong,
        Wrong::Member(Key::Nodes | Key::Words)
            | Wrong::Value {
                wanted: Wanted::Node | Wanted::Count | Wanted::Limit,
                ..
            }
    )
}

// Whether a sign, a point or the letter of an exponent stands in a text.
fn has_number_mark(text: &[u8]) -> bool
    ensures { result ≡ list_any is_number_mark text.now }
{
    text.iter()
        .any(|b| matches!(*b, b'-' | b'+' | b'.' | b'e' | b'E'))
}

// Whether a value is written as a number that has a sign, a point or an exponent, which no number of a script has.
fn is_marked_number(value: &[u8]) -> bool {
    match value {
        [b'-' | b'0'..=b'9', ..] => has_number_mark(value),
        _ => false,
    }
}

/// Writes how a number of a script is written, if one was expected and what begins at the place is a number that is written otherwise.
pub fn push_spelling(out: &mut Vec<u8>, wrong: Wrong, value: &[u8]) -> io::Result<()> {
    if wants_number(wrong) && is_marked_number(value) {
        write!(out, " without sign, point or exponent")?;
    }
    Ok(())
}

/// Writes what is wrong, and behind a semicolon what was expected. `shown` is what stands at the place.
pub fn push_wrong(out: &mut Vec<u8>, bounds: Bounds, shown: &[u8], wrong: Wrong) -> io::Result<()> {
    match wrong {
        Wrong::NoObject => push_head(out, bounds, shown, None),
        Wrong::Missing(key) => push_missing(out, bounds, key),
        Wrong::Member(key) => push_head(out, bounds, shown, Some(key)),
        Wrong::Extra => push_around(
            out,
            "unknown member ",
            shown,
            "; expected nodes, words and commands only",
        ),
        Wrong::NoList => push_around(
            out,
            "",
            shown,
            " is no command; expected a list such as [\"show\"]",
        ),
        Wrong::NoWord => push_around(out, "the command begins with no word", b"", COMMANDS),
        Wrong::UnknownWord => push_around(out, "unknown command ", shown, COMMANDS),
        Wrong::Number { kind, count } => push_number(out, kind, count),
        Wrong::Value { wanted, .. } => {
            out.write_all(shown)?;
            push_value(out, bounds, wanted)
        }
        Wrong::Item { .. } => {
            out.write_all(shown)?;
            push_value(out, bounds, Wanted::Name)
        }
        Wrong::SameNames => push_around(
            out,
            "both names are ",
            shown,
            "; expected two that differ",
        ),
    }
}
