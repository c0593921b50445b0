//! The bars of link words: how long a value stands, from the step that made it to the next step of a word in its column. At
//! the head of a part stand the values whose bars come in from above.

ghost use Rattle.std.specs.Prelude.{◌≡◌, ◌*◌, ◌<◌, ◌≤◌, length};
ghost use Rattle.ipcz_markup.specs.Markup.{Grows, Keeps};
ghost use Rattle.ipcz_picture.specs.Marks.{column_of, ends_bar, IsBarEnd};

use crate::known_words::step_of;
use crate::rows::{TOP, UNIT};
use crate::scene::{Scene, WORDS};
use crate::word_cells::draw_word;
use ipcz_lines::{Event, Line, ReadLine, RouterEvent};
use ipcz_markup::{Class, Writer};

// The column of the word that a line changes, if it changes one.
fn column_of(line: &Line) -> Option<usize>
    ensures { result ≡ column_of line.now }
{
    match line {
        Line::Turn {
            event: Event::Router {
                event: RouterEvent::Word { word, .. } | RouterEvent::Claim { word: Some(word) },
                ..
            },
            ..
        } => Some(*word as usize % WORDS),
        _ => None,
    }
}

// Whether a bar in a column ends at a line: at a step of a word there, or at a settle, within which steps aren't seen.
fn ends_bar(line: &Line, column: usize) -> bool
    ensures { result ≡ ends_bar column line.now }
{
    match line {
        Line::Settled | Line::Unsettled => true,
        _ => column_of(line) == Some(column),
    }
}

// The line at which a bar ends that begins at a line: the next one behind it, or the index behind the last line.
fn end_of_bar(lines: &[ReadLine], line: usize, column: usize) -> usize
    requires { line < length lines.now }
    ensures { IsBarEnd lines.now line column result }
{
    for i in line + 1..lines.len() {
        if ends_bar(&lines[i].line, column) {
            return i;
        }
    }
    lines.len()
}

// How far down a bar begins: below the cells of its line, or at the head.
fn begin_of_bar(scene: &Scene, line: usize) -> u64 {
    if line < scene.bounds.first {
        TOP
    } else {
        scene.top_of(line).saturating_add(16)
    }
}

// The bar of a line that changes a word.
fn draw_bar(out: &mut Writer, scene: &Scene, line: usize, column: usize)
    requires { line < length scene.now.lines.now }
    ensures keeps { Keeps out.old out.new }
    ensures few { Grows out.old out.new 327 }
{
    let end = end_of_bar(scene.lines, line, column);
    let from = begin_of_bar(scene, line);
    let to = scene.top_of(end).saturating_add(2);
    if from < to {
        let x = scene.across_of_word(column).saturating_add(50);
        out.rect(x, from, 1, to - from, Class::WordBar);
    }
}

/// The bars of all steps of words.
pub fn draw_word_bars(out: &mut Writer, scene: &Scene)
    ensures keeps { Keeps out.old out.new }
    ensures few { Grows out.old out.new (327 * length scene.now.lines.now) }
{
    for line in 0..scene.lines.len() {
        if let Some(column) = column_of(&scene.lines[line].line) {
            draw_bar(out, scene, line, column);
        }
    }
}

// The value that a line above the rows made, if it stands up to them.
fn draw_head_word(out: &mut Writer, scene: &Scene, line: usize)
    requires { line < length scene.now.lines.now }
    ensures keeps { Keeps out.old out.new }
    ensures few { Grows out.old out.new 1800 }
{
    if let Some((word, value)) = step_of(&scene.lines[line].line) {
        let column = word as usize % WORDS;
        let end = end_of_bar(scene.lines, line, column);
        if scene.sees(line, end) {
            let x = scene.across_of_word(column);
            draw_word(out, x, TOP - UNIT / 2, word as u64, value);
        }
    }
}

/// The values of words that stand where the rows begin, above them.
pub fn draw_head_words(out: &mut Writer, scene: &Scene)
    requires { scene.now.bounds.first ≤ length scene.now.lines.now }
    ensures keeps { Keeps out.old out.new }
    ensures few { Grows out.old out.new (1800 * scene.now.bounds.first) }
{
    for line in 0..scene.bounds.first {
        draw_head_word(out, scene, line);
    }
}
