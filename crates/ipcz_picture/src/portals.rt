//! The portals that are named: a bar up to the first turn or settle, from where on their nodes aren't known a hair, and the calls at them.

ghost use Rattle.std.specs.Prelude.{◌+◌, ◌*◌, length};
ghost use Rattle.ipcz_markup.specs.Markup.{Grows, Keeps};

use crate::calls::{draw_call, front};
use crate::rows::TOP;
use crate::scene::Scene;
use ipcz_markup::{Class, Tag, Writer};
use ipcz_messages::named::{NamedPortal, lines_at_rest};

// How far down the bar of a portal ends, and then its hair.
fn ends_of(scene: &Scene, portal: &NamedPortal) -> (u64, u64) {
    let end = match portal.closed {
        Some(line) => scene.middle_of(line),
        None => scene.bottom,
    };
    (scene.top_of(lines_at_rest(scene.lines)).min(end), end)
}

// The bar and the hair of a portal.
fn draw_bar(out: &mut Writer, scene: &Scene, portal: &NamedPortal)
    ensures keeps { Keeps out.old out.new }
    ensures few { Grows out.old out.new 660 }
{
    let x = scene.across_of_portal(portal);
    let begin = scene.middle_of(portal.first);
    let (stirred, end) = ends_of(scene, portal);
    if begin < stirred {
        out.rect(
            x.saturating_sub(3),
            begin,
            6,
            stirred - begin,
            Class::Router,
        );
    }
    if stirred.max(begin) < end {
        out.line(x, stirred.max(begin), x, end, Class::Hair);
    }
}

// The name of a portal, above where its bar begins.
fn draw_name(out: &mut Writer, scene: &Scene, portal: &NamedPortal)
    ensures keeps { Keeps out.old out.new }
    ensures few { Grows out.old out.new 330 }
{
    let x = scene.across_of_portal(portal).saturating_sub(8);
    let y = scene.middle_of(portal.first).saturating_sub(6).max(TOP - 6);
    out.begin_label(x, y, Class::RouterName);
    out.text(front(portal.name, 10));
    out.close(Tag::Text);
}

// What a hair is, behind the other signs.
fn draw_sign(out: &mut Writer)
    ensures keeps { Keeps out.old out.new }
    ensures few { Grows out.old out.new 800 }
{
    out.line(746, 80, 746, 92, Class::Hair);
    out.label(754, 90, Class::Legend, b"portal, at some node");
}

/// The portals that are named.
pub fn draw_portals(out: &mut Writer, scene: &Scene)
    ensures keeps { Keeps out.old out.new }
    ensures few { Grows out.old out.new (800 + 990 * length scene.now.named.now) }
{
    if !scene.named.is_empty() {
        draw_sign(out);
    }
    for (index, portal) in scene.named.iter().enumerate() {
        draw_bar(out, scene, portal);
        draw_name(out, scene, portal);
    }
}

// The call of a line at a portal that is named, if it is one.
fn draw_portal_call(out: &mut Writer, scene: &Scene, line: usize)
    ensures keeps { Keeps out.old out.new }
    ensures few { Grows out.old out.new 740 }
{
    if let Some(index) = scene.portal_called(line)
        && let Some(portal) = scene.named.get(index)
    {
        draw_call(out, scene, scene.across_of_portal(portal), line);
    }
}

/// The calls of the lines that have rows at portals that are named.
pub fn draw_portal_calls(out: &mut Writer, scene: &Scene)
    ensures keeps { Keeps out.old out.new }
    ensures few { Grows out.old out.new (740 * length scene.now.lines.now) }
{
    for line in 0..scene.lines.len() {
        if scene.shows(line) {
            draw_portal_call(out, scene, line);
        }
    }
}
