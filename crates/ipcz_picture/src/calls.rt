//! The calls of callers, at the routers of their portals, and what portals routers serve.

ghost use Rattle.std.specs.Prelude.{◌≡◌, ◌*◌, ◌≤◌, length, if◌then◌else◌};
ghost use Rattle.ipcz_markup.specs.Markup.{Grows, Keeps};
ghost use Rattle.ipcz_picture.specs.Marks.{call_note, is_refused};

use crate::scene::Scene;
use ipcz_lines::{Answer, End, Line, Refusal, Side};
use ipcz_markup::{Class, Writer};
use ipcz_messages::calls::{Call, Portals};

/// The front of a text that has room.
pub fn front(text: &[u8], room: usize) -> &[u8]
    ensures few { length result.now ≤ room }
{
    &text[..text.len().min(room)]
}

// What a call is, and whether it was refused.
fn note_of(line: &Line) -> &'static [u8]
    ensures same { result.now ≡ call_note line.now }
    ensures few { length result.now ≤ 13 }
{
    match line {
        Line::Put {
            answer: Answer::Refused(_),
            ..
        } => b"put refused",
        Line::Put { .. } => b"put",
        Line::Close {
            answer: Answer::Refused(_),
            ..
        } => b"close refused",
        Line::Close { .. } => b"close",
        Line::Missed {
            refusal: Refusal::Empty,
            ..
        } => b"get: empty",
        Line::Missed { .. } => b"get refused",
        _ => b"get",
    }
}

// Whether a call was refused.
fn is_refused(line: &Line) -> bool
    ensures { result ≡ is_refused line.now }
{
    matches!(
        line,
        Line::Put {
            answer: Answer::Refused(_),
            ..
        } | Line::Close {
            answer: Answer::Refused(_),
            ..
        } | Line::Missed { .. }
    )
}

// The looks of a call's square and of its note: the square of one that was refused is hollow.
fn looks_of(line: &Line) -> (Class, Class)
    ensures square { result.0 ≡ (if is_refused line.now then Class.RefusedCall else Class.CallDot) }
{
    if is_refused(line) {
        (Class::RefusedCall, Class::Refused)
    } else {
        (Class::CallDot, Class::CallNote)
    }
}

/// The call of a line, so far to the right.
pub fn draw_call(out: &mut Writer, scene: &Scene, x: u64, line: usize)
    ensures keeps { Keeps out.old out.new }
    ensures few { Grows out.old out.new 740 }
{
    let Some(read) = scene.lines.get(line) else {
        return;
    };
    let y = scene.middle_of(line);
    let (square, note) = looks_of(&read.line);
    out.pill(x.saturating_sub(4), y.saturating_sub(4), 8, 8, 1, square);
    out.label(
        x.saturating_add(8),
        y.saturating_add(4),
        note,
        note_of(&read.line),
    );
}

/// All calls that are shown whose routers are known, but for those that stand at their portals.
pub fn draw_calls(out: &mut Writer, scene: &Scene, calls: &[Call])
    ensures keeps { Keeps out.old out.new }
    ensures few { Grows out.old out.new (740 * length calls.now) }
{
    for (index, call) in calls.iter().enumerate() {
        if scene.shows(call.line) && scene.portal_called(call.line).is_none() {
            draw_call(out, scene, scene.across_of(call.router), call.line);
        }
    }
}

// The letter of a side.
fn letter_of(side: Side) -> &'static [u8]
    ensures { length result.now ≤ 1 }
{
    match side {
        Side::A => b"A",
        Side::B => b"B",
    }
}

/// An end, and the portal that it is, as far as its name is known and has room.
pub fn write_end(out: &mut Writer, end: End, portals: &Portals)
    ensures keeps { Keeps out.old out.new }
    ensures few { Grows out.old out.new 80 }
{
    out.number(end.pair as u64);
    out.text(letter_of(end.side));
    if let Some((one, other)) = portals.nodes_of(end) {
        out.text(b" ");
        out.number(one as u64);
        out.text(b">");
        out.number(other as u64);
    } else if let Some(name) = portals.name_of(end) {
        out.text(b" ");
        out.text(front(name, 6));
    }
}
