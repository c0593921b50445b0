//! The values of link words: a name and two cells, one for each side. In a line that tells all words, one that is as it was
//! known stands without cells, and dim.

ghost use Rattle.std.specs.Prelude.{◌+◌, ◌*◌, ◌≤◌, ◌≢◌, ◌↔◌, length, IsTrue, Some};
ghost use Rattle.ipcz_markup.specs.Markup.{Grows, Keeps};
ghost use Rattle.ipcz_picture.specs.Marks.{IsSource};

use crate::known_words::{KnownWords, first_value};
use crate::rows::UNIT;
use crate::scene::{Scene, WORDS};
use ipcz_markup::{Class, Tag, Writer};

// What a side's bits of a word say: stable, waiting, locked.
#[derive(Clone, Copy)]
struct SideBits {
    stable: bool,
    waiting: bool,
    locked: bool,
}

// The bits of side A, or of side B, which stand one to the left.
fn bits_of(value: u16, is_b: bool) -> SideBits {
    let side = if is_b { value / 2 } else { value };
    SideBits {
        stable: side % 2 == 1,
        waiting: side / 4 % 2 == 1,
        locked: side / 16 % 2 == 1,
    }
}

fn cell_class(bits: SideBits) -> Class {
    if bits.locked {
        Class::CellLocked
    } else if bits.waiting {
        Class::CellWaiting
    } else if bits.stable {
        Class::CellStable
    } else {
        Class::CellNone
    }
}

// The letters of a side's bits.
fn letters(bits: SideBits) -> &'static [u8]
    ensures { length result.now ≤ 3 }
{
    match (bits.stable, bits.waiting, bits.locked) {
        (false, false, false) => b"-",
        (true, false, false) => b"S",
        (false, true, false) => b"W",
        (false, false, true) => b"L",
        (true, true, false) => b"SW",
        (true, false, true) => b"SL",
        (false, true, true) => b"WL",
        (true, true, true) => b"SWL",
    }
}

// The node that may answer a word's link while a side is locked, which stands above the sides' bits.
fn source_of(value: u16) -> Option<u16>
    ensures { IsSource value result }
{
    let source = value / 256;
    if source == 0 {
        return None;
    }
    Some(source - 1)
}

// The number of the node that may answer, behind the cells of a word.
fn draw_source(out: &mut Writer, x: u64, y: u64, value: u16, class: Class)
    ensures keeps { Keeps out.old out.new }
    ensures few { Grows out.old out.new 280 }
{
    if let Some(node) = source_of(value) {
        out.begin_label(x.saturating_add(74), y.saturating_add(3), class);
        out.number(node as u64);
        out.close(Tag::Text);
    }
}

// A side's cell.
fn draw_cell(out: &mut Writer, x: u64, y: u64, bits: SideBits)
    ensures keeps { Keeps out.old out.new }
    ensures few { Grows out.old out.new 601 }
{
    out.rect(x, y.saturating_sub(7), 21, 14, cell_class(bits));
    out.label(
        x.saturating_add(10),
        y.saturating_add(3),
        Class::CellText,
        letters(bits),
    );
}

// The cells of a word, and the node that may answer.
fn draw_value(out: &mut Writer, x: u64, y: u64, value: u16)
    ensures keeps { Keeps out.old out.new }
    ensures few { Grows out.old out.new 1490 }
{
    draw_cell(out, x.saturating_add(29), y, bits_of(value, false));
    draw_cell(out, x.saturating_add(51), y, bits_of(value, true));
    draw_source(out, x, y, value, Class::Source);
}

/// A word's name and value, with the middle of its row at `y`.
pub fn draw_word(out: &mut Writer, x: u64, y: u64, word: u64, value: u16)
    ensures keeps { Keeps out.old out.new }
    ensures few { Grows out.old out.new 1800 }
{
    out.begin_label(x.saturating_add(26), y.saturating_add(3), Class::WordName);
    out.text(b"C");
    out.number(word);
    out.close(Tag::Text);
    draw_value(out, x, y, value);
}

// Whether a word isn't known to have had this value before.
fn is_changed(before: Option<u16>, value: u16) -> bool
    ensures { IsTrue result ↔ (before ≢ Some value) }
{
    before != Some(value)
}

// The title of a word's name: the word, and the values before, if that is known, and after.
fn draw_change_title(out: &mut Writer, word: u64, before: Option<u16>, value: u16)
    ensures keeps { Keeps out.old out.new }
    ensures few { Grows out.old out.new 120 }
{
    out.open(Tag::Title);
    out.enter();
    out.text(b"C");
    out.number(word);
    out.text(b" ");
    if let Some(before) = before {
        out.number(before as u64);
        out.text(b" -> ");
    }
    out.number(value as u64);
    out.close(Tag::Title);
}

// A word that has changed, with its value before as a title of its name.
fn draw_changed(out: &mut Writer, x: u64, y: u64, word: u64, before: Option<u16>, value: u16)
    ensures keeps { Keeps out.old out.new }
    ensures few { Grows out.old out.new 1890 }
{
    out.begin_label(x.saturating_add(26), y.saturating_add(3), Class::WordName);
    out.text(b"C");
    out.number(word);
    draw_change_title(out, word, before, value);
    out.close(Tag::Text);
    draw_value(out, x, y, value);
}

// A word that is as it was known: what else it would have, dim and without cells, its sides' letters beside its bar.
fn draw_same(out: &mut Writer, x: u64, y: u64, word: u64, value: u16)
    ensures keeps { Keeps out.old out.new }
    ensures few { Grows out.old out.new 1200 }
{
    let base = y.saturating_add(3);
    out.begin_label(x.saturating_add(26), base, Class::RowNumber);
    out.text(b"C");
    out.number(word);
    out.close(Tag::Text);
    out.label(
        x.saturating_add(46),
        base,
        Class::RowNumber,
        letters(bits_of(value, false)),
    );
    out.label(
        x.saturating_add(55),
        base,
        Class::NodeNote,
        letters(bits_of(value, true)),
    );
    draw_source(out, x, y, value, Class::NodeNote);
}

// A word of a line that tells all of them; each six words stand side by side.
fn draw_listed(out: &mut Writer, scene: &Scene, word: usize, before: Option<u16>, value: u16)
    ensures keeps { Keeps out.old out.new }
    ensures few { Grows out.old out.new 1890 }
{
    let x = scene.across_of_word(word);
    let y = ((word / WORDS) as u64)
        .saturating_mul(UNIT)
        .saturating_add(UNIT / 2);
    if is_changed(before, value) {
        draw_changed(out, x, y, word as u64, before, value);
    } else {
        draw_same(out, x, y, word as u64, value);
    }
}

/// The words whose values a line tells, from the first on, in a row that begins at the top; those that are as they were known
/// stand back.
pub fn draw_words(out: &mut Writer, scene: &Scene, values: &[u8], known: &KnownWords)
    ensures keeps { Keeps out.old out.new }
    ensures few { Grows out.old out.new (1890 * (length values.now + 1)) }
{
    let mut rest = values;
    let mut word = 0usize;
    'drawing: while !rest.is_empty() && word < 4096 {
        let (value, others) = first_value(rest);
        if let Some(value) = value {
            draw_listed(out, scene, word, known.value_of(word), value);
        }
        rest = others;
        word += 1;
    }
}
