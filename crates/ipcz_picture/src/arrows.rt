//! The messages: from the router that made one to the wall of its node, between the walls, and from the wall to the router
//! that it was handed to. Of one that is under way where the rows begin or end, the part within them is drawn.

ghost use Rattle.std.specs.Prelude.{◌*◌, ◌∷◌, List, length};
ghost use Rattle.ipcz_markup.specs.declared.writer.Tag.{Tag};
ghost use Rattle.ipcz_markup.specs.Markup.{Grows, InText, InValue, Keeps, KeepsValue, Row, Stands};

use crate::arrow_title::{draw_arrow_label, draw_arrow_title, look_of, number_of, stroke_of};
use crate::rows::UNIT;
use crate::scene::Scene;
use ipcz_lines::End;
use ipcz_markup::{Stroke, Tag, Writer};
use ipcz_messages::closes::{Closed, Nature, nature_of};
use ipcz_messages::messages::Message;

// A place at a node's wall: how far across the wall is, and whether it is the right one.
#[derive(Clone, Copy)]
struct Wall {
    across: u64,
    is_right: bool,
}

impl Wall {
    // The wall of a node that faces another node; a node faces itself on the right.
    fn facing(scene: &Scene, node: u8, other: u8) -> Self {
        let walls = scene.walls_of(node);
        if other < node {
            Wall {
                across: walls.left,
                is_right: false,
            }
        } else {
            Wall {
                across: walls.right,
                is_right: true,
            }
        }
    }

    // So far within the node.
    fn inside(self, by: u64) -> u64 {
        if self.is_right {
            self.across.saturating_sub(by)
        } else {
            self.across.saturating_add(by)
        }
    }

    // So far outside of the node.
    fn outside(self, by: u64) -> u64 {
        if self.is_right {
            self.across.saturating_add(by)
        } else {
            self.across.saturating_sub(by)
        }
    }
}

// The head of an arrow whose tip is here, and that comes from the right or from the left.
fn draw_head(out: &mut Writer, message: &Message, x: u64, y: u64, from_right: bool)
    ensures keeps { Keeps out.old out.new }
    ensures few { Grows out.old out.new 500 }
{
    let back = if from_right {
        x.saturating_add(7)
    } else {
        x.saturating_sub(7)
    };
    out.begin_way(look_of(message), Stroke::Filled, number_of(message));
    out.point(b'M', x, y);
    out.point(b'L', back, y.saturating_sub(4));
    out.step(b'V', y.saturating_add(4));
    out.end_path();
}

// A step along a row, if a line has one.
fn step_along(out: &mut Writer, scene: &Scene, line: usize, to: u64)
    ensures keeps { KeepsValue out.old out.new }
    ensures few { Grows out.old out.new 26 }
{
    if scene.shows(line) {
        out.step(b'H', to);
    }
}

// Where a path begins and goes along the row of a line; if that has no row, the path begins at the end of its step.
fn begin_along(out: &mut Writer, scene: &Scene, line: usize, from: u64, to: u64)
    ensures keeps { KeepsValue out.old out.new }
    ensures few { Grows out.old out.new 78 }
{
    let begin = if scene.shows(line) { from } else { to };
    out.point(b'M', begin, scene.middle_of(line));
    step_along(out, scene, line, to);
}

// From the act that made a message to the wall, where it is posted.
fn draw_outbox(
    out: &mut Writer,
    scene: &Scene,
    message: &Message,
    slot: usize,
    wall: Wall,
    posted: usize,
)
    ensures keeps { Keeps out.old out.new }
    ensures few { Grows out.old out.new 500 }
{
    let wait = (slot as u64).saturating_mul(4).saturating_add(6);
    out.begin_way(look_of(message), Stroke::Thin, number_of(message));
    match (message.made, message.maker) {
        (Some(line), Some(maker)) => {
            begin_along(out, scene, line, scene.across_of(maker), wall.inside(wait));
            out.step(b'V', scene.middle_of(posted));
        }
        _ => out.point(b'M', wall.inside(6), scene.middle_of(posted)),
    }
    step_along(out, scene, posted, wall.across);
    out.end_path();
}

// Ends a path with the title of its message.
fn end_titled(out: &mut Writer, scene: &Scene, message: &Message, nature: Nature)
    ensures ends { (rows : List Row) (s : List Tag) →
        Stands out.old rows InValue (Tag.Path ∷ s) → Stands out.new rows InText s }
    ensures few { Grows out.old out.new 1165 }
{
    out.end_value();
    out.enter();
    draw_arrow_title(out, scene.lines, scene.routers, message, nature);
    out.close(Tag::Path);
}

// From wall to wall, where a message waits to be looked at.
fn draw_way(
    out: &mut Writer,
    scene: &Scene,
    message: &Message,
    nature: Nature,
    from: Wall,
    posted: usize,
    to: Wall,
    looked: usize,
)
    ensures keeps { Keeps out.old out.new }
    ensures few { Grows out.old out.new 1500 }
{
    out.begin_way(look_of(message), stroke_of(message), number_of(message));
    if message.from == Some(message.to) {
        begin_along(out, scene, posted, from.across, from.outside(12));
        out.step(b'V', scene.middle_of(looked));
        step_along(out, scene, looked, from.across);
    } else {
        out.point(b'M', from.across, scene.middle_of(posted));
        out.point(b'L', to.across, scene.middle_of(looked));
    }
    end_titled(out, scene, message, nature);
}

// The line at which a message is lost from sight: a settle, or the one behind the last.
fn lost_at(scene: &Scene, message: &Message) -> usize {
    match message.lost {
        Some(line) => line,
        None => scene.lines.len(),
    }
}

// How far down a message is lost from sight: above a settle, or at the end.
fn end_of_sight(scene: &Scene, message: &Message) -> u64 {
    let line = lost_at(scene, message);
    let top = scene.top_of(line);
    if scene.shows(line) {
        top.saturating_add(4)
    } else {
        top
    }
}

// From a wall to where a message is lost from sight.
fn draw_lost(
    out: &mut Writer,
    scene: &Scene,
    message: &Message,
    nature: Nature,
    from: Wall,
    posted: usize,
)
    ensures keeps { Keeps out.old out.new }
    ensures few { Grows out.old out.new 1500 }
{
    out.begin_way(look_of(message), Stroke::Dotted, number_of(message));
    out.point(b'M', from.across, scene.middle_of(posted));
    out.point(b'L', from.outside(12), end_of_sight(scene, message));
    end_titled(out, scene, message, nature);
}

// Where the arrow of a message ends at the router that it was handed to.
fn tip_of(scene: &Scene, message: &Message, wall: Wall) -> u64 {
    match message.receiver {
        Some(router) => {
            let across = scene.across_of(router);
            if wall.is_right {
                across.saturating_add(4)
            } else {
                across.saturating_sub(4)
            }
        }
        None => wall.inside(14),
    }
}

// From the wall to the router that a message was handed to.
fn draw_hand(
    out: &mut Writer,
    scene: &Scene,
    message: &Message,
    wall: Wall,
    looked: usize,
    handled: usize,
)
    ensures keeps { Keeps out.old out.new }
    ensures few { Grows out.old out.new 1000 }
{
    let tip = tip_of(scene, message, wall);
    let height = scene.middle_of(handled);
    out.begin_way(look_of(message), stroke_of(message), number_of(message));
    begin_along(out, scene, looked, wall.across, wall.inside(12));
    out.step(b'V', height);
    step_along(out, scene, handled, tip);
    out.end_path();
    if scene.shows(handled) {
        draw_head(out, message, tip, height, wall.is_right);
    }
}

// A message in a node's hand that isn't seen handed on.
fn draw_held(out: &mut Writer, scene: &Scene, message: &Message, wall: Wall, looked: usize)
    ensures keeps { Keeps out.old out.new }
    ensures few { Grows out.old out.new 500 }
{
    out.begin_way(look_of(message), Stroke::Dotted, number_of(message));
    begin_along(out, scene, looked, wall.across, wall.inside(12));
    out.step(b'V', end_of_sight(scene, message));
    out.end_path();
}

// How far down a message is seen first that comes out of a settle: below that.
fn begin_of_sight(scene: &Scene, settle: usize) -> u64 {
    let top = scene.top_of(settle);
    if scene.shows(settle) {
        top.saturating_add(2 * UNIT - 4)
    } else {
        top
    }
}

// The way of a message that comes out of a settle, or out of nowhere.
fn draw_gained(
    out: &mut Writer,
    scene: &Scene,
    message: &Message,
    nature: Nature,
    wall: Wall,
    looked: usize,
)
    ensures keeps { Keeps out.old out.new }
    ensures few { Grows out.old out.new 1500 }
{
    let begin = match message.gained {
        Some(settle) => begin_of_sight(scene, settle),
        None => scene.middle_of(looked),
    };
    out.begin_way(look_of(message), Stroke::Dotted, number_of(message));
    out.point(b'M', wall.outside(14), begin);
    out.point(b'L', wall.across, scene.middle_of(looked));
    end_titled(out, scene, message, nature);
}

// How far down the label of a message stands at a line: above the begin of its way, at its post, and else below its end. Since each way goes
// down, it goes through no label of its own.
fn label_height(scene: &Scene, message: &Message, line: usize) -> u64 {
    let middle = scene.middle_of(line);
    if message.posted == Some(line) {
        middle.saturating_sub(3)
    } else {
        middle.saturating_add(9)
    }
}

// The label of a message at a wall, if a line has a row.
fn draw_label_at(
    out: &mut Writer,
    scene: &Scene,
    message: &Message,
    nature: Nature,
    wall: Wall,
    line: usize,
)
    ensures keeps { Keeps out.old out.new }
    ensures few { Grows out.old out.new 500 }
{
    if scene.shows(line) {
        let y = label_height(scene, message, line);
        draw_arrow_label(out, message, nature, wall.outside(4), y, wall.is_right);
    }
}

// The way of a message that was posted, and its label: at the post, or at the look, if only that has a row.
fn draw_posted(
    out: &mut Writer,
    scene: &Scene,
    message: &Message,
    nature: Nature,
    wall: Wall,
    from: u8,
    posted: usize,
)
    ensures keeps { Keeps out.old out.new }
    ensures few { Grows out.old out.new 2500 }
{
    let mut label = (wall, posted);
    match message.looked {
        Some(looked) => {
            let other = Wall::facing(scene, message.to, from);
            draw_way(out, scene, message, nature, wall, posted, other, looked);
            if !scene.shows(posted) {
                label = (other, looked);
            }
        }
        None => draw_lost(out, scene, message, nature, wall, posted),
    }
    draw_label_at(out, scene, message, nature, label.0, label.1);
}

// The part of a message's way on its sender's side, as far as it is seen.
fn draw_sent(
    out: &mut Writer,
    scene: &Scene,
    message: &Message,
    nature: Nature,
    slot: usize,
    from: u8,
    posted: usize,
)
    ensures keeps { Keeps out.old out.new }
    ensures few { Grows out.old out.new 3000 }
{
    let wall = Wall::facing(scene, from, message.to);
    if scene.sees(message.made.unwrap_or(posted), posted) {
        draw_outbox(out, scene, message, slot, wall, posted);
    }
    if scene.sees(posted, message.looked.unwrap_or(lost_at(scene, message))) {
        draw_posted(out, scene, message, nature, wall, from, posted);
    }
}

// The part of a message's way on its receiver's side, from the line at which it is seen there first, as far as it is seen.
fn draw_received(out: &mut Writer, scene: &Scene, message: &Message, nature: Nature, seen: usize)
    ensures keeps { Keeps out.old out.new }
    ensures few { Grows out.old out.new 2500 }
{
    let other = match message.from {
        Some(from) => from,
        None => message.to,
    };
    let wall = Wall::facing(scene, message.to, other);
    if message.posted.is_none() && scene.sees(message.gained.unwrap_or(seen), seen) {
        draw_gained(out, scene, message, nature, wall, seen);
    }
    if scene.sees(seen, message.handled.unwrap_or(lost_at(scene, message))) {
        match message.handled {
            Some(handled) => draw_hand(out, scene, message, wall, seen, handled),
            None => draw_held(out, scene, message, wall, seen),
        }
    }
}

// A message.
fn draw_message(out: &mut Writer, scene: &Scene, message: &Message, nature: Nature, slot: usize)
    ensures keeps { Keeps out.old out.new }
    ensures few { Grows out.old out.new 5500 }
{
    if let (Some(from), Some(posted)) = (message.from, message.posted) {
        draw_sent(out, scene, message, nature, slot, from, posted);
    }
    if let Some(seen) = message.looked.or(message.handled) {
        draw_received(out, scene, message, nature, seen);
    }
}

/// All messages, each with its place in its outbox, and by its name if it is a close that is told, or Gone.
pub fn draw_messages(
    out: &mut Writer,
    scene: &Scene,
    messages: &[Message],
    slots: &[usize],
    ends: &[Option<End>],
    closed: &[Closed],
)
    ensures keeps { Keeps out.old out.new }
    ensures few { Grows out.old out.new (5500 * length messages.now) }
{
    for (index, message) in messages.iter().enumerate() {
        let slot = slots.get(index).copied().unwrap_or(0);
        let nature = nature_of(closed, ends, scene.lines, message);
        draw_message(out, scene, message, nature, slot);
    }
}
