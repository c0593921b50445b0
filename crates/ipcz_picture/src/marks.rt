//! The signs in a row: what a router did, a node's close, an idle turn, words.

ghost use Rattle.std.specs.Prelude.{◌≡◌, ◌+◌, ◌*◌, ◌≤◌, length};
ghost use Rattle.ipcz_lines.specs.LineParts.{fate_text};
ghost use Rattle.ipcz_markup.specs.Markup.{Grows, Keeps};
ghost use Rattle.ipcz_picture.specs.Marks.{settle_note};
ghost use Rattle.ipcz_picture.specs.Sizes.{most_marks};

use crate::arrow_title::write_link;
use crate::known_words::KnownWords;
use crate::scene::Scene;
use crate::word_cells::{draw_word, draw_words};
use ipcz_lines::{Event, Kind, Line, Link, ReadLine, RouterEvent, WordStep};
use ipcz_markup::{Class, Tag, Writer};

// The middle of a row, from its top.
const MIDDLE: u64 = 9;

const BASE: u64 = 13;

// The front of a text that has room.
fn front(text: &[u8], room: usize) -> &[u8]
    ensures few { length result.now ≤ room }
{
    &text[..text.len().min(room)]
}

// A note on the right of a router: a few words, and a number behind them.
fn draw_note(out: &mut Writer, x: u64, words: &[u8], number: u64)
    ensures keeps { Keeps out.old out.new }
    ensures few { Grows out.old out.new (276 + 6 * length words.now) }
{
    out.begin_label(x.saturating_add(10), BASE, Class::Note);
    out.text(words);
    out.number(number);
    out.close(Tag::Text);
}

// The word whose link is bypassed, on the left of a proxy: its message goes off on the right.
fn draw_begin_note(out: &mut Writer, x: u64, word: u16)
    ensures keeps { Keeps out.old out.new }
    ensures few { Grows out.old out.new 400 }
{
    out.begin_label(x.saturating_sub(10), BASE, Class::NoteEnd);
    out.text(b"bypass C");
    out.number(word as u64);
    out.close(Tag::Text);
}

// The letter, the look and the words of what was done with a word.
fn step_mark(step: WordStep) -> (u8, Class, &'static [u8])
    ensures { length result.2.now ≤ 9 }
{
    match step {
        WordStep::Mark => (b'M', Class::WordDisc, b"mark C"),
        WordStep::Wake => (b'K', Class::WakeDisc, b"wake C"),
        WordStep::Lock => (b'L', Class::WordDisc, b"lock C"),
        WordStep::Wait => (b'W', Class::WordDisc, b"wait C"),
        WordStep::Refused => (b'R', Class::BadDisc, b"refused C"),
        WordStep::Unlock => (b'U', Class::WordDisc, b"unlock C"),
    }
}

// What a router did with a word, and the word's value after it.
fn draw_word_step(out: &mut Writer, scene: &Scene, x: u64, step: WordStep, word: u16, after: u16)
    ensures keeps { Keeps out.old out.new }
    ensures few { Grows out.old out.new 3000 }
{
    let (letter, class, words) = step_mark(step);
    out.disc(x, MIDDLE, letter, class);
    draw_note(out, x, words, word as u64);
    draw_word(
        out,
        scene.across_of_word(word as usize),
        MIDDLE,
        word as u64,
        after,
    );
}

// A claim, of a word or of none.
fn draw_claim(out: &mut Writer, scene: &Scene, x: u64, word: Option<u16>)
    ensures keeps { Keeps out.old out.new }
    ensures few { Grows out.old out.new 3000 }
{
    match word {
        Some(word) => {
            out.disc(x, MIDDLE, b'+', Class::WordDisc);
            draw_note(out, x, b"claim C", word as u64);
            draw_word(
                out,
                scene.across_of_word(word as usize),
                MIDDLE,
                word as u64,
                0,
            );
        }
        None => {
            out.disc(x, MIDDLE, b'+', Class::BadDisc);
            out.label(x.saturating_add(10), BASE, Class::Note, b"no word");
        }
    }
}

// A disc with a letter, and a word beside it.
fn draw_act(out: &mut Writer, x: u64, letter: u8, class: Class, words: &[u8])
    ensures keeps { Keeps out.old out.new }
    ensures few { Grows out.old out.new (886 + 6 * length words.now) }
{
    out.disc(x, MIDDLE, letter, class);
    out.label(x.saturating_add(10), BASE, Class::Note, words);
}

// A discarded item; a router leaves with that of Gone alone.
fn draw_discard(out: &mut Writer, x: u64, number: u64, leaves: bool)
    ensures keeps { Keeps out.old out.new }
    ensures few { Grows out.old out.new 3000 }
{
    if leaves {
        out.disc(x, MIDDLE, b'X', Class::BadDisc);
        draw_note(out, x, b"leaves with Gone, item ", number);
    } else {
        out.disc(x, MIDDLE, b'D', Class::DimDisc);
        draw_note(out, x, b"item ", number);
    }
}

// The link that an edge finishes with.
fn draw_finish(out: &mut Writer, x: u64, link: &Link)
    ensures keeps { Keeps out.old out.new }
    ensures few { Grows out.old out.new 3000 }
{
    out.disc(x, MIDDLE, b'F', Class::BypassDisc);
    out.begin_label(x.saturating_add(10), BASE, Class::Note);
    out.text(b"ends");
    write_link(out, link);
    out.close(Tag::Text);
}

// What a router did.
fn draw_router_event(out: &mut Writer, scene: &Scene, x: u64, event: &RouterEvent)
    ensures keeps { Keeps out.old out.new }
    ensures few { Grows out.old out.new 3000 }
{
    match event {
        RouterEvent::Send { .. } => out.pill(
            x.saturating_sub(4),
            MIDDLE - 4,
            8,
            8,
            4,
            Class::ItemDot,
        ),
        RouterEvent::Discard { number, leaves } => draw_discard(out, x, *number, *leaves),
        RouterEvent::Finish { link, .. } => draw_finish(out, x, link),
        RouterEvent::Leave => draw_act(out, x, b'X', Class::BadDisc, b"leaves"),
        RouterEvent::Rest => out.pill(x.saturating_sub(2), MIDDLE - 2, 4, 4, 2, Class::RestDot),
        RouterEvent::Word { step, word, after } => draw_word_step(
            out, scene, x, *step, *word, *after,
        ),
        RouterEvent::Claim { word } => draw_claim(out, scene, x, *word),
        RouterEvent::Begin { word } => {
            out.disc(x, MIDDLE, b'B', Class::BypassDisc);
            draw_begin_note(out, x, *word);
        }
        RouterEvent::Retire { .. } => draw_act(out, x, b'X', Class::BadDisc, b"retires"),
    }
}

// What became of a message that didn't fit, as the transcript has it.
fn fate(kind: Kind) -> &'static [u8]
    ensures same { result.now ≡ fate_text kind }
    ensures few { length result.now ≤ 7 }
{
    match kind {
        Kind::Flush => b"dropped",
        _ => b"stray",
    }
}

// What the row of a settle says.
fn note_of_settle(line: &Line) -> &'static [u8]
    ensures same { result.now ≡ settle_note line.now }
    ensures few { length result.now ≤ 90 }
{
    match line {
        Line::Unsettled =>
            b"unsettled: the limit came first; the turns up to here are not in the transcript",
        _ => b"settled: the turns up to here are not in the transcript",
    }
}

// What a settle's row says; one that came to its limit is a fault.
fn draw_settle(out: &mut Writer, scene: &Scene, line: &Line)
    ensures keeps { Keeps out.old out.new }
    ensures few { Grows out.old out.new 800 }
{
    let class = match line {
        Line::Unsettled => Class::FaultText,
        _ => Class::SettleText,
    };
    let x = scene.walls_of(0).left;
    out.label(x, BASE + 9, class, note_of_settle(line));
}

// What a turn of a node was, but for messages.
fn draw_turn(out: &mut Writer, scene: &Scene, node: u8, event: &Event, text: &[u8])
    ensures keeps { Keeps out.old out.new }
    ensures few { Grows out.old out.new 3000 }
{
    let left = scene.walls_of(node).left;
    match event {
        Event::Router { serial, event } => {
            draw_router_event(out, scene, scene.across_of_serial(node, *serial), event)
        }
        Event::Idle if scene.has_band(node) => {
            out.begin_label(left.saturating_add(3), BASE, Class::NodeNote);
            out.text(b"n");
            out.number(node as u64);
            out.close(Tag::Text);
        }
        Event::Close { .. } => out.label(
            left.saturating_add(6),
            BASE,
            Class::Note,
            front(text, 24),
        ),
        Event::Refused(_) => out.label(
            left.saturating_add(6),
            BASE,
            Class::Refused,
            front(text, 24),
        ),
        Event::Hand {
            unfit: true,
            kind,
            ..
        } => out.label(left.saturating_add(6), BASE, Class::Refused, fate(*kind)),
        _ => {}
    }
}

/// The signs of a line, with what the lines above it tell of words' values.
pub fn draw_marks(out: &mut Writer, scene: &Scene, read: &ReadLine, known: &KnownWords)
    ensures keeps { Keeps out.old out.new }
    ensures few { Grows out.old out.new (most_marks read.now.line) }
{
    match &read.line {
        Line::Turn { node, event } => draw_turn(out, scene, *node, event, read.text),
        Line::Words(values) => draw_words(out, scene, values, known),
        Line::Settled | Line::Unsettled => draw_settle(out, scene, &read.line),
        _ => {}
    }
}
