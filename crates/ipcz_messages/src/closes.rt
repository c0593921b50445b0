//! Which items are closes, and which are Gone.
//!
//! A close of a portal travels as an item, its mark. It is the last item of its end, apart from Gone, which a sink sends behind it when it
//! retires. So the number that a close is answered, and the number of a retire, tell the mark and Gone, wherever they are sent on.

ghost use Rattle.std.specs.Prelude.{◌≡◌, ◌<◌, ◌≤◌, length, IfOk, IfSome};
ghost use Rattle.ipcz_messages.specs.Closes.{AreToldBy, IsNature, IsNatureOfItem, IsNatureOfMade, IsNatureOfSent, IsPlaceOfClose, TellsClose};
ghost use Rattle.ipcz_messages.specs.Closes.{end_of_item, is_retire, item_sent, line_at, served_at};

use crate::calls::Portals;
use crate::ends::opposite;
use crate::messages::Message;
use crate::routers::{Router, find};
use ipcz_lines::{Answer, End, Event, Line, ReadLine, RouterEvent, Way};
use std::alloc::{AllocError, Global};

/// A close: its end, the number of its mark, and the line that tells it.
#[derive(Clone, Copy)]
pub struct Closed {
    pub end: End,
    pub number: u64,
    pub line: usize,
}

/// What a message is: the mark of a close, by the line that tells it first, or Gone, or another.
#[derive(Clone, Copy, Debug, PartialEq, Eq)]
pub enum Nature {
    Close { line: usize },
    Gone,
    Other,
}

// The end that a router serves.
fn served_at(ends: &[Option<End>], router: Option<usize>) -> Option<End>
    ensures { result ≡ served_at ends.now router }
{
    *ends.get(router?)?
}

// The end and the number of the close that a call at a portal tells, if it is known which end that is.
fn close_called(line: &Line, portals: &Portals) -> Option<(End, u64)>
    ensures { IfSome result (λ c. TellsClose c.1 line.now) }
{
    let Line::Close {
        name,
        answer: Answer::Number(number),
    } = line
    else {
        return None;
    };
    Some((portals.end_of(name)?, *number))
}

// The end and the number of the close that a retire tells: Gone is the item behind its mark.
fn close_retired(line: &Line, routers: &[Router], ends: &[Option<End>]) -> Option<(End, u64)>
    ensures { IfSome result (λ c. TellsClose c.1 line.now) }
{
    let Line::Turn {
        node,
        event: Event::Router {
            serial,
            event: RouterEvent::Retire { number, .. },
        },
    } = line
    else {
        return None;
    };
    Some((
        served_at(ends, find(routers, *node, *serial))?,
        number.checked_sub(1)?,
    ))
}

// The end and the number of the close that a line tells.
fn close_told(
    line: &Line,
    routers: &[Router],
    ends: &[Option<End>],
    portals: &Portals,
) -> Option<(End, u64)>
    ensures { IfSome result (λ c. TellsClose c.1 line.now) }
{
    match close_called(line, portals) {
        Some(told) => Some(told),
        None => close_retired(line, routers, ends),
    }
}

// Whether a line is a retire.
fn is_retire(line: &Line) -> bool
    ensures { result ≡ is_retire line.now }
{
    matches!(
        line,
        Line::Turn {
            event: Event::Router {
                event: RouterEvent::Retire { .. },
                ..
            },
            ..
        }
    )
}

// Which way a line sends an item, and the number of that.
fn item_sent(line: &Line) -> Option<(Way, u64)>
    ensures { result ≡ item_sent line.now }
{
    match line {
        Line::Turn {
            event: Event::Router {
                event: RouterEvent::Send { way, number, .. },
                ..
            },
            ..
        } => Some((*way, *number)),
        _ => None,
    }
}

// The end at which an item was put that a router sends this way, by the end that the router serves.
fn end_of_item(way: Way, served: End) -> End
    ensures { result ≡ end_of_item way served }
{
    match way {
        Way::Out => served,
        Way::In => opposite(served),
    }
}

// The index of the first close of an end whose mark has this number.
fn close_of(closed: &[Closed], end: End, number: u64) -> Option<usize>
    ensures few { IfSome result (λ i. i < length closed.now) }
    ensures found { IsPlaceOfClose end number closed.now result }
{
    closed
        .iter()
        .position(|it| it.end == end && it.number == number)
}

// What the item of an end with this number is.
fn nature_of_item(closed: &[Closed], end: End, number: u64) -> Nature
    ensures { IsNatureOfItem closed.now end number result }
{
    if let Some(index) = close_of(closed, end, number) {
        return Nature::Close {
            line: closed[index].line,
        };
    }
    if let Some(mark) = number.checked_sub(1)
        && close_of(closed, end, mark).is_some()
    {
        return Nature::Gone;
    }
    Nature::Other
}

// What it is that a router of this end has sent, if it is known which end that is and what it has sent.
fn nature_of_sent(closed: &[Closed], served: Option<End>, sent: Option<(Way, u64)>) -> Nature
    ensures { IsNatureOfSent closed.now served sent result }
{
    match (served, sent) {
        (Some(served), Some((way, number))) => {
            nature_of_item(closed, end_of_item(way, served), number)
        }
        _ => Nature::Other,
    }
}

// What it is that a router of this end has made at a line.
fn nature_of_made(closed: &[Closed], served: Option<End>, line: &Line) -> Nature
    ensures { IsNatureOfMade closed.now served line.now (is_retire line.now) result }
{
    if is_retire(line) {
        return Nature::Gone;
    }
    nature_of_sent(closed, served, item_sent(line))
}

/// The closes that the lines tell, by the ends that these routers serve.
pub fn closes(
    alloc: Global,
    lines: &[ReadLine],
    routers: &[Router],
    ends: &[Option<End>],
    portals: &Portals,
) -> Result<Vec<Closed>, AllocError>
    ensures few { IfOk result (λ closed. length closed.items ≤ length lines.now) }
    ensures told { IfOk result (λ closed. AreToldBy lines.now closed.items) }
{
    let mut closed = Vec::new(alloc);
    for line in 0..lines.len() {
        if let Some((end, number)) = close_told(&lines[line].line, routers, ends, portals) {
            closed.push(Closed { end, number, line })?;
        }
    }
    Ok(closed)
}

/// What a message is, by the line that made it: Gone if that is a retire. Of an item that was sent its number tells it, and the end at which it
/// was put, which the way tells that it was sent.
pub fn nature_of(
    closed: &[Closed],
    ends: &[Option<End>],
    lines: &[ReadLine],
    message: &Message,
) -> Nature
    ensures { IsNature closed.now (served_at ends.now message.now.maker) (line_at lines.now message.now.made) result }
{
    let Some(made) = message.made else {
        return Nature::Other;
    };
    let Some(read) = lines.get(made) else {
        return Nature::Other;
    };
    nature_of_made(closed, served_at(ends, message.maker), &read.line)
}
