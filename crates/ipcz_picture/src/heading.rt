//! The heading of a picture: what it is, and what its signs mean.

ghost use Rattle.std.specs.Prelude.{◌+◌, ◌*◌, length};
ghost use Rattle.ipcz_markup.specs.Markup.{Grows, Keeps};

use crate::part::Bounds;
use ipcz_markup::{Class, Look, Stroke, Tag, Writer};

const ARROWS: u64 = 46;

const DISCS: u64 = 66;

const SIGNS: u64 = 86;

// A kind of message, by an arrow of its look.
fn draw_arrow_key(out: &mut Writer, x: u64, look: Look, stroke: Stroke, words: &[u8])
    ensures keeps { Keeps out.old out.new }
    ensures few { Grows out.old out.new (600 + 6 * length words.now) }
{
    out.begin_arrow(look, stroke);
    out.point(b'M', x, ARROWS);
    out.step(b'H', x.saturating_add(22));
    out.end_path();
    out.label(x.saturating_add(28), ARROWS + 4, Class::Legend, words);
}

// What a lifeline is, by a piece of it.
fn draw_bar_key(out: &mut Writer, x: u64, class: Class, words: &[u8])
    ensures keeps { Keeps out.old out.new }
    ensures few { Grows out.old out.new (600 + 6 * length words.now) }
{
    out.rect(x, ARROWS - 7, 6, 14, class);
    out.label(x.saturating_add(14), ARROWS + 4, Class::Legend, words);
}

// What a letter means.
fn draw_disc_key(out: &mut Writer, x: u64, letter: u8, class: Class, words: &[u8])
    ensures keeps { Keeps out.old out.new }
    ensures few { Grows out.old out.new (900 + 6 * length words.now) }
{
    out.disc(x, DISCS, letter, class);
    out.label(x.saturating_add(11), DISCS + 4, Class::Legend, words);
}

// What lines and bars mean.
fn draw_line_keys(out: &mut Writer)
    ensures keeps { Keeps out.old out.new }
    ensures few { Grows out.old out.new 4500 }
{
    draw_arrow_key(out, 16, Look::Item, Stroke::Full, b"item");
    draw_arrow_key(out, 86, Look::Bypass, Stroke::Full, b"bypass message");
    draw_arrow_key(out, 214, Look::Flush, Stroke::Dashed, b"flush");
    draw_bar_key(out, 294, Class::Router, b"router");
    draw_bar_key(out, 360, Class::Proxy, b"proxy");
    draw_bar_key(out, 420, Class::Decaying, b"proxy, bypass begun");
}

// Where a message is, by a piece of its way from one point to another.
fn draw_way_key(out: &mut Writer, from: u64, to: u64, stroke: Stroke, words: &[u8])
    ensures keeps { Keeps out.old out.new }
    ensures few { Grows out.old out.new (600 + 6 * length words.now) }
{
    out.begin_arrow(Look::Item, stroke);
    out.point(b'M', from, ARROWS - 6);
    out.point(b'L', to, ARROWS + 6);
    out.end_path();
    out.label(to.saturating_add(7), ARROWS + 4, Class::Legend, words);
}

// What the ways of messages mean.
fn draw_way_keys(out: &mut Writer)
    ensures keeps { Keeps out.old out.new }
    ensures few { Grows out.old out.new 3600 }
{
    draw_way_key(out, 562, 562, Stroke::Thin, b"in outbox");
    draw_way_key(out, 634, 650, Stroke::Full, b"in mailbox");
    draw_way_key(out, 730, 730, Stroke::Full, b"in hand");
    draw_arrow_key(out, 792, Look::Item, Stroke::Thick, b"+1B: 1B moves");
    draw_arrow_key(out, 910, Look::Item, Stroke::Dotted, b"not seen");
}

// What a small shape means.
fn draw_shape_key(out: &mut Writer, x: u64, size: u64, radius: u64, class: Class, words: &[u8])
    ensures keeps { Keeps out.old out.new }
    ensures few { Grows out.old out.new (622 + 6 * length words.now) }
{
    let half = size / 2;
    out.pill(
        x.saturating_sub(half),
        SIGNS.saturating_sub(half),
        size,
        size,
        radius,
        class,
    );
    out.label(x.saturating_add(11), SIGNS + 4, Class::Legend, words);
}

// What small shapes, grounds and dim words mean.
fn draw_sign_keys(out: &mut Writer)
    ensures keeps { Keeps out.old out.new }
    ensures few { Grows out.old out.new 7000 }
{
    draw_shape_key(out, 22, 8, 4, Class::ItemDot, b"send");
    draw_shape_key(out, 72, 4, 2, Class::RestDot, b"rest");
    draw_shape_key(out, 122, 8, 1, Class::CallDot, b"call at a portal");
    draw_shape_key(out, 890, 8, 1, Class::RefusedCall, b"refused call");
    draw_shape_key(out, 242, 13, 0, Class::Turn, b"its turn");
    draw_shape_key(out, 314, 13, 3, Class::Settle, b"settled");
    draw_shape_key(out, 380, 13, 3, Class::Fault, b"unsettled");
    out.label(460, SIGNS + 4, Class::Source, b"2");
    out.label(471, SIGNS + 4, Class::Legend, b"node that may answer");
    out.label(606, SIGNS + 4, Class::NodeNote, b"S  S");
    out.label(636, SIGNS + 4, Class::Legend, b"a word as it was");
}

// What the letters of routers mean.
fn draw_letter_keys(out: &mut Writer)
    ensures keeps { Keeps out.old out.new }
    ensures few { Grows out.old out.new 12000 }
{
    draw_disc_key(out, 22, b'M', Class::WordDisc, b"mark");
    draw_disc_key(out, 72, b'L', Class::WordDisc, b"lock");
    draw_disc_key(out, 122, b'W', Class::WordDisc, b"wait");
    draw_disc_key(out, 172, b'R', Class::BadDisc, b"refused");
    draw_disc_key(out, 242, b'U', Class::WordDisc, b"unlock");
    draw_disc_key(out, 306, b'K', Class::WakeDisc, b"wake");
    draw_disc_key(out, 356, b'+', Class::WordDisc, b"claim");
    draw_disc_key(out, 414, b'B', Class::BypassDisc, b"begin bypass");
    draw_disc_key(out, 514, b'F', Class::BypassDisc, b"finish");
    draw_disc_key(out, 578, b'X', Class::BadDisc, b"leave");
    draw_disc_key(out, 636, b'D', Class::DimDisc, b"discard");
}

// What a cell of a link word means.
fn draw_cell_key(out: &mut Writer, x: u64, class: Class, letter: u8, words: &[u8])
    ensures keeps { Keeps out.old out.new }
    ensures few { Grows out.old out.new (900 + 6 * length words.now) }
{
    out.rect(x, DISCS - 7, 15, 13, class);
    out.label(x.saturating_add(7), DISCS + 3, Class::CellText, &[letter]);
    out.label(x.saturating_add(20), DISCS + 4, Class::Legend, words);
}

// Which lines have rows, if these aren't all.
fn write_bounds(out: &mut Writer, lines: usize, bounds: Bounds)
    ensures keeps { Keeps out.old out.new }
    ensures few { Grows out.old out.new 120 }
{
    let Bounds { first, end } = bounds;
    if end.saturating_sub(first) == lines {
        return;
    }
    if first < end {
        out.text(b": lines ");
        out.number((first as u64).saturating_add(1));
        out.text(b" to ");
        out.number(end as u64);
    } else {
        out.text(b": none of them");
    }
}

/// What a picture is called: how many lines the run has, and which of them have rows, if these aren't all.
pub fn write_caption(out: &mut Writer, lines: usize, bounds: Bounds)
    ensures keeps { Keeps out.old out.new }
    ensures few { Grows out.old out.new 280 }
{
    out.text(b"A run of ipcz in ");
    out.number(lines as u64);
    out.text(b" lines");
    write_bounds(out, lines, bounds);
}

/// The heading of a picture of so many lines, of which those within the bounds have rows.
pub fn draw_heading(out: &mut Writer, lines: usize, bounds: Bounds)
    ensures keeps { Keeps out.old out.new }
    ensures few { Grows out.old out.new 31000 }
{
    out.begin_label(16, 26, Class::Heading);
    write_caption(out, lines, bounds);
    out.close(Tag::Text);
    draw_line_keys(out);
    draw_way_keys(out);
    draw_letter_keys(out);
    draw_sign_keys(out);
    draw_cell_key(out, 700, Class::CellStable, b'S', b"stable");
    draw_cell_key(out, 768, Class::CellWaiting, b'W', b"waiting");
    draw_cell_key(out, 842, Class::CellLocked, b'L', b"locked");
}
