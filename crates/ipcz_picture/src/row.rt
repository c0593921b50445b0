//! A row of a picture: its title, and its number and line in the gutter.

ghost use Rattle.std.specs.Prelude.{◌++◌, ◌+◌, ◌*◌, ◌^◌, ◌≤◌, ◌<◌, ◌∷◌, [], List, length};
ghost use Rattle.ipcz_markup.specs.declared.writer.Tag.{Tag};
ghost use Rattle.ipcz_markup.specs.Markup.{Grows, InText, Keeps, Row, Stands};
ghost use Rattle.std.specs.List.{HoldsAt};
ghost use Rattle.ipcz_picture.specs.Rows.{row_at, IsPlace};
ghost use Rattle.ipcz_picture.specs.Sizes.{most_place};

use crate::known_words::KnownWords;
use crate::marks::draw_marks;
use crate::rows::{Place, UNIT};
use crate::scene::Scene;
use ipcz_lines::{Answer, Event, Line, ReadLine, Refusal, RouterEvent};
use ipcz_markup::{Class, Tag, Writer};

/// The most bytes of a line that stand in the gutter.
pub const GUTTER: usize = 40;

// The front of a text that has room, whether or not that is all of it.
fn front(text: &[u8], room: usize) -> &[u8]
    ensures few { length result.now ≤ room }
{
    &text[..text.len().min(room)]
}

// The look of a line in the gutter.
fn gutter_class(line: &Line) -> Class {
    match line {
        Line::Refused(_)
        | Line::Unsettled
        | Line::Missed {
            refusal: Refusal::PeerClosed | Refusal::UnknownName | Refusal::Away,
            ..
        }
        | Line::Open {
            refusal: Some(_),
            ..
        }
        | Line::Put {
            answer: Answer::Refused(_),
            ..
        }
        | Line::Close {
            answer: Answer::Refused(_),
            ..
        }
        | Line::Turn {
            event: Event::Refused(_) | Event::Hand { unfit: true, .. },
            ..
        } => Class::GutterBad,
        Line::Turn {
            event: Event::Idle
            | Event::Look { .. }
            | Event::Router {
                event: RouterEvent::Rest,
                ..
            },
            ..
        } => Class::GutterDim,
        Line::Turn { .. } => Class::Gutter,
        Line::Words(_) => Class::GutterWord,
        Line::Settled => Class::GutterSettle,
        _ => Class::GutterCall,
    }
}

// A text that is cut if it is longer than a gutter is wide.
fn draw_cut(out: &mut Writer, x: u64, y: u64, class: Class, text: &[u8])
    ensures keeps { Keeps out.old out.new }
    ensures few { Grows out.old out.new 520 }
{
    out.begin_label(x, y, class);
    if text.len() > GUTTER {
        out.text(front(text, GUTTER - 2));
        out.text(b"..");
    } else {
        out.text(front(text, GUTTER));
    }
    out.close(Tag::Text);
}

// Whether a line is a settle, whose row is two units high.
fn is_settle(line: &Line) -> bool {
    matches!(line, Line::Settled | Line::Unsettled)
}

// The number and the text of a line that has its own row.
fn draw_gutter(out: &mut Writer, number: u64, read: &ReadLine)
    ensures keeps { Keeps out.old out.new }
    ensures few { Grows out.old out.new 810 }
{
    let base = if is_settle(&read.line) { 22 } else { 13 };
    out.begin_label(48, base, Class::RowNumber);
    out.number(number);
    out.close(Tag::Text);
    draw_cut(out, 56, base, gutter_class(&read.line), read.text);
}

// The number of the first of some idle lines, and how many they are.
fn draw_run_gutter(out: &mut Writer, number: u64, count: u64)
    ensures keeps { Keeps out.old out.new }
    ensures few { Grows out.old out.new 620 }
{
    out.begin_label(48, 13, Class::RowNumber);
    out.number(number);
    out.text(b"-");
    out.close(Tag::Text);
    out.begin_label(56, 13, Class::GutterDim);
    out.text(b"idle x");
    out.number(count);
    out.close(Tag::Text);
}

// Begins the row at a place, and its title.
fn begin_place(out: &mut Writer, lines: &[ReadLine], place: &Place)
    requires many { length lines.now < 2 ^ 32 }
    requires place { IsPlace lines.now place.now }
    ensures begins { (rows : List Row) (u : Tag) (s : List Tag) → Stands out.old rows InText (u ∷ s) →
        Stands out.new (rows ++ (row_at lines.now place.now) ∷ []) InText (Tag.Title ∷ Tag.G ∷ u ∷ s) }
    ensures few { HoldsAt (λ x. Grows out.old out.new (210 + 6 * length x.text.now)) lines.now place.now.first }
{
    let number = place.first as u64 + 1;
    if place.count == 1 {
        out.begin_row(number, lines[place.first].text, place.top);
    } else {
        out.begin_run(number, place.count as u64, place.top);
    }
}

// The number and the text of the row at a place.
fn draw_place_gutter(out: &mut Writer, lines: &[ReadLine], place: &Place)
    requires many { length lines.now < 2 ^ 32 }
    requires place { IsPlace lines.now place.now }
    ensures keeps { Keeps out.old out.new }
    ensures few { Grows out.old out.new 1140 }
{
    let number = place.first as u64 + 1;
    if place.first % 2 == 0 && !is_settle(&lines[place.first].line) {
        out.rect(8, 0, 344, UNIT, Class::Stripe);
    }
    if place.count == 1 {
        draw_gutter(out, number, &lines[place.first]);
    } else {
        draw_run_gutter(out, number, place.count as u64);
    }
}

/// The row at a place, with what the lines above it tell of words' values; what it tells of them itself is known then.
pub fn draw_row(
    out: &mut Writer,
    scene: &Scene,
    lines: &[ReadLine],
    place: &Place,
    known: &mut KnownWords,
)
    requires many { length lines.now < 2 ^ 32 }
    requires place { IsPlace lines.now place.now }
    ensures draws { (rows : List Row) (u : Tag) (s : List Tag) → Stands out.old rows InText (u ∷ s) →
        Stands out.new (rows ++ (row_at lines.now place.now) ∷ []) InText (u ∷ s) }
    ensures few { Grows out.old out.new (most_place lines.now place.now) }
{
    begin_place(out, lines, place);
    out.close(Tag::Title);
    draw_place_gutter(out, lines, place);
    draw_marks(out, scene, &lines[place.first], known);
    known.see(&lines[place.first].line);
    out.close(Tag::G);
}
