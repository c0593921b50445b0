//! The names of nodes and routers, which stand again each so many rows, so that one needn't look up to the top for them.

ghost use Rattle.std.specs.Prelude.{◌≡◌, ◌*◌, ◌<◌, ◌≤◌, length};
ghost use Rattle.ipcz_markup.specs.Markup.{Grows, Keeps};
ghost use Rattle.ipcz_picture.specs.Marks.{has_marks};

use crate::lanes::Lane;
use crate::rows::Place;
use crate::scene::{Scene, Walls};
use ipcz_lines::{Event, Line, ReadLine};
use ipcz_markup::{Class, Tag, Writer};
use ipcz_messages::routers::Router;

/// How many rows there are between two with names.
pub const ROWS_APART: usize = 16;

// The most routers whose names stand again in one row.
const MOST_NAMES: usize = 64;

// Whether signs or arrows end in the row of a line, so that names would stand on them.
fn has_marks(line: &Line) -> bool
    ensures { result ≡ has_marks line.now }
{
    matches!(
        line,
        Line::Turn {
            event: Event::Router { .. } | Event::Hand { .. },
            ..
        } | Line::Settled
            | Line::Unsettled
    )
}

// The first of eight rows from one on without signs, or the first of them.
fn row_with_room(lines: &[ReadLine], placed: &[Place], from: usize) -> usize
    requires { from < length placed.now }
    ensures within { (from ≤ result) × (result < length placed.now) }
{
    for row in from..placed.len().min(from + 8) {
        if let Some(read) = lines.get(placed[row].first)
            && !has_marks(&read.line)
        {
            return row;
        }
    }
    from
}

// Whether a router's name is to stand again at a line: its bar passes there, and neither began nor ends near.
fn stands_again(router: &Router, lane: &Lane, line: usize) -> bool {
    router.first.saturating_add(4) < line && line.saturating_add(1) < lane.until
}

// The name of a router, on the left of its bar.
fn draw_name_again(out: &mut Writer, scene: &Scene, index: usize, serial: u64, top: u64)
    ensures keeps { Keeps out.old out.new }
    ensures few { Grows out.old out.new 290 }
{
    let x = scene.across_of(index).saturating_sub(8);
    out.begin_label(x, top.saturating_add(13), Class::RouterName);
    out.text(b"r");
    out.number(serial);
    out.close(Tag::Text);
}

// The names of the routers that are in sight in a row, as far as there is room for them.
fn draw_routers_again(out: &mut Writer, scene: &Scene, line: usize, top: u64)
    ensures keeps { Keeps out.old out.new }
    ensures few { Grows out.old out.new 18560 }
{
    let mut count = 0usize;
    for (index, router) in scene.routers.iter().enumerate() {
        if let Some(lane) = scene.lanes.get(index)
            && count < MOST_NAMES
            && stands_again(router, lane, line)
        {
            draw_name_again(out, scene, index, router.serial, top);
            count += 1;
        }
    }
}

// The name of a node, at its left wall.
fn draw_node_again(out: &mut Writer, node: usize, walls: Walls, top: u64)
    ensures keeps { Keeps out.old out.new }
    ensures few { Grows out.old out.new 290 }
{
    out.begin_label(
        walls.left.saturating_add(3),
        top.saturating_add(13),
        Class::RouterEnd,
    );
    out.text(b"n");
    out.number(node as u64);
    out.close(Tag::Text);
}

// The names of the nodes.
fn draw_nodes_again(out: &mut Writer, walls: &[Option<Walls>], top: u64)
    ensures keeps { Keeps out.old out.new }
    ensures few { Grows out.old out.new (290 * length walls.now) }
{
    for (node, walls) in walls.iter().enumerate() {
        if let Some(walls) = walls {
            draw_node_again(out, node, *walls, top);
        }
    }
}

/// The names of nodes and routers in every sixteenth row, or in the next one without signs.
pub fn draw_names_again(out: &mut Writer, scene: &Scene, placed: &[Place])
    requires { length scene.now.nodes.items ≤ 8 }
    ensures keeps { Keeps out.old out.new }
    ensures few { Grows out.old out.new (1400 * length placed.now) }
{
    for k in 0..placed.len() / ROWS_APART {
        let row = row_with_room(scene.lines, placed, ROWS_APART * k + (ROWS_APART - 1));
        let place = &placed[row];
        draw_nodes_again(out, &scene.nodes, place.top);
        draw_routers_again(out, scene, place.first, place.top);
    }
}
