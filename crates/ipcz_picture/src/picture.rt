//! A picture: its heading, its ground, and a row for each line of a part.

ghost use Rattle.std.specs.Prelude.{◌≡◌, ◌^◌, ◌≤◌, ◌<◌, ◌∷◌, [], List, length, map, take, IfOk};
ghost use Rattle.ipcz_markup.specs.declared.writer.Tag.{Tag};
ghost use Rattle.ipcz_markup.specs.Markup.{Grows, InTag, InText, Keeps, KeepsTag, Row, Stands};
ghost use Rattle.std.specs.List.{sum_by};
ghost use Rattle.ipcz_picture.specs.Rows.{row_at, Follow, IsPicture};
ghost use Rattle.ipcz_picture.specs.Sizes.{most_picture, most_row};

use crate::arrows::draw_messages;
use crate::bands::Bands;
use crate::calls::draw_calls;
use crate::ground::draw_ground;
use crate::heading::{draw_heading, write_caption};
use crate::known_words::{KnownWords, known_before};
use crate::lanes::lanes;
use crate::lifelines::{draw_lifelines, draw_names};
use crate::names::draw_names_again;
use crate::outboxes::slots;
use crate::part::Bounds;
use crate::portals::{draw_portal_calls, draw_portals};
use crate::row::draw_row;
use crate::rows::{Place, places};
use crate::scene::Scene;
use crate::word_bars::{draw_head_words, draw_word_bars};
use ipcz_lines::{End, ReadLine};
use ipcz_markup::{Key, Tag, Writer, style};
use ipcz_messages::calls::{Portals, calls};
use ipcz_messages::closes::{Closed, closes};
use ipcz_messages::ends::ends;
use ipcz_messages::messages::{Message, messages, note_births};
use ipcz_messages::moves::{Moves, lines_in_sight};
use ipcz_messages::named::{NamedPortal, named_portals};
use ipcz_messages::origins::note_origins;
use ipcz_messages::routers::{Router, routers, see_calls, see_messages};
use std::alloc::{AllocError, Global};

// The size of the picture, as attributes of its root.
fn draw_size(out: &mut Writer, width: u64, height: u64)
    ensures keeps { KeepsTag out.old out.new }
    ensures few { Grows out.old out.new 190 }
{
    out.measure(Key::Width, width);
    out.measure(Key::Height, height);
    out.begin_value(Key::ViewBox);
    out.text(b"0 0 ");
    out.number(width);
    out.text(b" ");
    out.number(height);
    out.end_value();
}

// What the root says of itself.
fn draw_root(out: &mut Writer, width: u64, height: u64)
    ensures enters { (rows : List Row) (s : List Tag) → Stands out.old rows InTag s → Stands out.new rows InText s }
    ensures few { Grows out.old out.new 500 }
{
    out.words(Key::Xmlns, b"http://www.w3.org/2000/svg");
    draw_size(out, width, height);
    out.words(Key::Role, b"img");
    out.words(Key::LabelledBy, b"t");
    out.enter();
}

// What the picture is called.
fn draw_title(out: &mut Writer, lines: usize, bounds: Bounds)
    ensures keeps { Keeps out.old out.new }
    ensures few { Grows out.old out.new 320 }
{
    out.open(Tag::Title);
    out.words(Key::Id, b"t");
    out.enter();
    write_caption(out, lines, bounds);
    out.close(Tag::Title);
}

// The style sheet.
fn draw_style(out: &mut Writer)
    ensures keeps { Keeps out.old out.new }
    ensures few { Grows out.old out.new 25000 }
{
    out.open(Tag::Style);
    out.enter();
    out.text(style::forms());
    out.text(style::light());
    out.text(b"@media(prefers-color-scheme:dark){");
    out.text(style::dark());
    out.text(b"}");
    out.close(Tag::Style);
}

// A row at each place, in order.
fn draw_rows(
    out: &mut Writer,
    scene: &Scene,
    lines: &[ReadLine],
    placed: &[Place],
    bottom: u64,
    known: &mut KnownWords,
)
    requires many { length lines.now < 2 ^ 32 }
    requires part { lines.now ≡ take scene.now.bounds.end scene.now.lines.now }
    requires follow { Follow lines.now scene.now.bounds.first 136 placed.now (length lines.now) bottom }
    ensures drawn { Stands out.old [] InText (Tag.Svg ∷ []) →
        Stands out.new (map (row_at lines.now) placed.now) InText (Tag.Svg ∷ []) }
    ensures few { Grows out.old out.new (sum_by most_row scene.now.lines.now) }
{
    for place in placed {
        draw_row(out, scene, lines, place, known);
    }
}

// The portals that are named. How many there are is all that the size of a picture needs of them.
fn named<'a>(alloc: Global, lines: &[ReadLine<'a>]) -> Result<Vec<NamedPortal<'a>>, AllocError>
    ensures few { IfOk result (λ named. length named.items ≤ 32) }
{
    named_portals(alloc, lines)
}

// The messages that the lines tell of. How many there are is all that the size of a picture needs of them.
fn told<'a>(
    alloc: Global,
    lines: &[ReadLine<'a>],
    routers: &[Router],
) -> Result<Vec<Message<'a>>, AllocError>
    ensures few { IfOk result (λ messages. length messages.items ≤ length lines.now) }
{
    messages(alloc, lines, routers)
}

// The closes that travel, which the size of a picture needs nothing of.
fn closed(
    alloc: Global,
    lines: &[ReadLine],
    routers: &[Router],
    ends: &[Option<End>],
    portals: &Portals,
) -> Result<Vec<Closed>, AllocError> {
    closes(alloc, lines, routers, ends, portals)
}

/// The picture of the lines within the bounds, with these nodes' bands; what it tells of them is found from all lines.
pub fn picture(
    alloc: Global,
    lines: &[ReadLine],
    bounds: Bounds,
    bands: Bands,
) -> Result<Vec<u8>, AllocError>
    requires many { length lines.now < 2 ^ 32 }
    requires within { (bounds.first ≤ bounds.end) × (bounds.end ≤ length lines.now) }
    ensures picture { IfOk result (λ text. IsPicture (take bounds.end lines.now) bounds.first text.items) }
    ensures few { IfOk result (λ text. length text.items ≤ most_picture lines.now) }
{
    let shown = &lines[..bounds.end];
    let (placed, bottom) = places(alloc, shown, bounds.first)?;
    let mut routers = routers(alloc, lines)?;
    let messages = told(alloc, lines, &routers)?;
    let moves = Moves::new(alloc, lines)?;
    note_births(alloc, lines, &messages, &moves, &mut routers)?;
    see_messages(&mut routers, &messages);
    let portals = Portals::new(alloc, lines)?;
    let ends = ends(alloc, lines, &messages, &routers, &moves)?;
    note_origins(&mut routers, &moves, &ends, &portals, lines_in_sight(lines));
    let calls = calls(alloc, lines, &routers, &moves, &ends, &portals)?;
    see_calls(&mut routers, &calls);
    let lanes = lanes(alloc, lines, &routers)?;
    let slots = slots(alloc, &messages, lines.len())?;
    let named = named(alloc, lines)?;
    let closed = closed(alloc, lines, &routers, &ends, &portals)?;
    let scene = Scene::new(
        alloc, lines, bounds, bands, &routers, &lanes, &named, &placed, bottom,
    )?;
    let mut known = known_before(alloc, &lines[..bounds.first], scene.words)?;
    let mut out = Writer::new(alloc);
    draw_root(&mut out, scene.width, bottom.saturating_add(26));
    draw_title(&mut out, lines.len(), bounds);
    draw_style(&mut out);
    draw_ground(&mut out, &scene);
    draw_heading(&mut out, lines.len(), bounds);
    draw_word_bars(&mut out, &scene);
    draw_head_words(&mut out, &scene);
    draw_lifelines(&mut out, &scene);
    draw_messages(&mut out, &scene, &messages, &slots, &ends, &closed);
    draw_calls(&mut out, &scene, &calls);
    draw_portals(&mut out, &scene);
    draw_portal_calls(&mut out, &scene);
    draw_names(&mut out, &scene, &ends, &portals);
    draw_names_again(&mut out, &scene, &placed);
    draw_rows(&mut out, &scene, shown, &placed, bottom, &mut known);
    out.close(Tag::Svg);
    out.finish()
}
