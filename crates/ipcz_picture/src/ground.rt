//! The ground of a picture: stripes, the nodes' bands, and whose turn it is.

ghost use Rattle.std.specs.Prelude.{◌+◌, ◌*◌, length};
ghost use Rattle.ipcz_markup.specs.Markup.{Grows, Keeps};

use crate::rows::{TOP, UNIT};
use crate::scene::{Scene, Walls};
use ipcz_lines::{Event, Line};
use ipcz_markup::{Class, Tag, Writer};

// A band, without its name.
fn draw_walls(out: &mut Writer, walls: Walls, bottom: u64)
    ensures keeps { Keeps out.old out.new }
    ensures few { Grows out.old out.new 1050 }
{
    let Walls { left, right } = walls;
    let low = bottom.saturating_add(6);
    let high = TOP - 26;
    let width = right.saturating_sub(left);
    out.pill(left, high, width, low.saturating_sub(high), 6, Class::Node);
    out.line(left, high, left, low, Class::Hair);
    out.line(right, high, right, low, Class::Hair);
}

// Where the name of a band stands, from the left.
fn middle_of_band(walls: Walls) -> u64 {
    let width = walls.right.saturating_sub(walls.left);
    walls.left.saturating_add(width / 2)
}

// The band of a node, with its name above it.
fn draw_band(out: &mut Writer, node: u64, walls: Walls, bottom: u64)
    ensures keeps { Keeps out.old out.new }
    ensures few { Grows out.old out.new 1400 }
{
    draw_walls(out, walls, bottom);
    out.begin_label(middle_of_band(walls), TOP - 32, Class::NodeName);
    out.text(b"node ");
    out.number(node);
    out.close(Tag::Text);
}

// The band of the opened portals that are named, whose nodes aren't known.
fn draw_opened_band(out: &mut Writer, walls: Walls, bottom: u64)
    ensures keeps { Keeps out.old out.new }
    ensures few { Grows out.old out.new 1400 }
{
    draw_walls(out, walls, bottom);
    out.label(middle_of_band(walls), TOP - 32, Class::NodeName, b"opened");
}

// The bands of the nodes.
fn draw_bands(out: &mut Writer, walls: &[Option<Walls>], bottom: u64)
    ensures keeps { Keeps out.old out.new }
    ensures few { Grows out.old out.new (1400 * length walls.now) }
{
    for (node, walls) in walls.iter().enumerate() {
        if let Some(walls) = walls {
            draw_band(out, node as u64, *walls, bottom);
        }
    }
}

// The ground under a settle.
fn draw_settle_ground(out: &mut Writer, scene: &Scene, top: u64, class: Class)
    ensures keeps { Keeps out.old out.new }
    ensures few { Grows out.old out.new 366 }
{
    let width = scene.width.saturating_sub(16);
    out.pill(8, top.saturating_add(3), width, 2 * UNIT - 6, 3, class);
}

// The ground under a line of words: across the whole row, however high it is.
fn draw_words_ground(out: &mut Writer, scene: &Scene, index: usize)
    ensures keeps { Keeps out.old out.new }
    ensures few { Grows out.old out.new 400 }
{
    let top = scene.top_of(index);
    let height = scene.top_of(index.saturating_add(1)).saturating_sub(top);
    let width = scene.width.saturating_sub(16);
    out.rect(8, top, width, height, Class::Stripe);
}

// The ground under a line's row.
fn draw_line_ground(out: &mut Writer, scene: &Scene, index: usize, line: &Line)
    ensures keeps { Keeps out.old out.new }
    ensures few { Grows out.old out.new 400 }
{
    let top = scene.top_of(index);
    match line {
        Line::Turn {
            event: Event::Idle,
            ..
        } => {}
        Line::Turn { node, .. } => {
            let Walls { left, right } = scene.walls_of(*node);
            out.rect(left, top, right.saturating_sub(left), UNIT, Class::Turn);
        }
        Line::Settled => draw_settle_ground(out, scene, top, Class::Settle),
        Line::Unsettled => draw_settle_ground(out, scene, top, Class::Fault),
        Line::Words(_) => draw_words_ground(out, scene, index),
        _ => {}
    }
}

// The ground under each row.
fn draw_lines_ground(out: &mut Writer, scene: &Scene)
    ensures keeps { Keeps out.old out.new }
    ensures few { Grows out.old out.new (400 * length scene.now.lines.now) }
{
    for (index, read) in scene.lines.iter().enumerate() {
        if scene.shows(index) {
            draw_line_ground(out, scene, index, &read.line);
        }
    }
}

/// What everything else stands on.
pub fn draw_ground(out: &mut Writer, scene: &Scene)
    ensures keeps { Keeps out.old out.new }
    ensures few { Grows out.old out.new (2500 + 1400 * length scene.now.nodes.items + 400 * length scene.now.lines.now) }
{
    out.rect(
        0,
        0,
        scene.width,
        scene.bottom.saturating_add(26),
        Class::Page,
    );
    draw_bands(out, scene.nodes.as_slice(), scene.bottom);
    if let Some(walls) = scene.opened {
        draw_opened_band(out, walls, scene.bottom);
    }
    if scene.words > 0 {
        out.label(
            scene.words_left,
            TOP - 32,
            Class::WordHeading,
            b"link words",
        );
        out.label(
            scene.words_left,
            TOP - 18,
            Class::NodeNote,
            b"after the step: A | B",
        );
    }
    draw_lines_ground(out, scene);
}
