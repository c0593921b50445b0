//! Which nodes have a band in a picture.

ghost use Rattle.std.specs.Prelude.{◌≡◌};
ghost use Rattle.ipcz_picture.specs.Bands.{is_of, is_shown, is_told, meets, takes_part};
ghost use Rattle.ipcz_picture.specs.Rows.{is_idle_turn};

use ipcz_lines::{Event, Line, ReadLine};
use ipcz_messages::named::{NamedPortal, count_of};

/// Which nodes have a band.
#[derive(Clone, Copy, Debug, PartialEq, Eq)]
pub enum Bands {
    /// Each node up to the greatest that a line names.
    All,
    /// Of these the nodes that take part: that do something, send a message or are sent one, or have a portal that is named.
    Used,
}

// Whether a turn did nothing.
fn is_idle(event: &Event) -> bool
    ensures { result ≡ is_idle_turn event.now }
{
    matches!(event, Event::Idle)
}

// Whether a turn's node has taken a message of this node, or posted one for it.
fn meets(event: &Event, node: u8) -> bool
    ensures { result ≡ meets node event.now }
{
    match event {
        Event::Look { sender } => *sender == node,
        Event::Post { destination } => *destination == node,
        _ => false,
    }
}

// Whether a line tells that a node takes part.
fn is_of(line: &Line, node: u8) -> bool
    ensures { result ≡ is_of node line.now }
{
    match line {
        Line::Turn { node: own, event } => *own == node && !is_idle(event) || meets(event, node),
        _ => false,
    }
}

// Whether some line tells that a node takes part.
fn is_told(lines: &[ReadLine], node: u8) -> bool
    ensures { result ≡ is_told node lines.now }
{
    lines.iter().any(|read| is_of(&read.line, node))
}

// Whether a node takes part.
fn takes_part(lines: &[ReadLine], named: &[NamedPortal], node: u8) -> bool
    ensures { result ≡ takes_part lines.now named.now node }
{
    is_told(lines, node) || count_of(named, Some(node)) > 0
}

/// Whether a node has a band.
pub fn is_shown(bands: Bands, lines: &[ReadLine], named: &[NamedPortal], node: u8) -> bool
    ensures { result ≡ is_shown bands lines.now named.now node }
{
    match bands {
        Bands::All => true,
        Bands::Used => takes_part(lines, named, node),
    }
}
