//! The lifelines of routers: full, hollow for a proxy, dashed once its bypass has begun.

ghost use Rattle.std.specs.Prelude.{◌*◌, length};
ghost use Rattle.ipcz_markup.specs.Markup.{Grows, Keeps};

use crate::calls::write_end;
use crate::lanes::Lane;
use crate::rows::TOP;
use crate::scene::Scene;
use ipcz_lines::End;
use ipcz_markup::{Class, Tag, Writer};
use ipcz_messages::calls::Portals;
use ipcz_messages::routers::Router;

// A part of a lifeline, from one height down to another.
fn draw_part(out: &mut Writer, x: u64, from: u64, to: u64, class: Class)
    ensures keeps { Keeps out.old out.new }
    ensures few { Grows out.old out.new 327 }
{
    if from < to {
        out.rect(x.saturating_sub(3), from, 6, to - from, class);
    }
}

// Where a lifeline ends: in the middle of the row at which its router leaves, else above the settle or the end.
fn end_of(scene: &Scene, router: &Router, lane: &Lane) -> u64 {
    match router.left {
        Some(left) => scene.middle_of(left),
        None => scene.top_of(lane.until),
    }
}

// The lifeline of a router.
fn draw_lifeline(out: &mut Writer, scene: &Scene, index: usize, router: &Router, lane: &Lane)
    ensures keeps { Keeps out.old out.new }
    ensures few { Grows out.old out.new 981 }
{
    let x = scene.across_of(index);
    let begin = scene.middle_of(router.first);
    let end = end_of(scene, router, lane);
    let proxy = match router.proxy {
        Some(line) => scene.middle_of(line).min(end),
        None => end,
    };
    let decaying = match router.decaying {
        Some(line) => scene.middle_of(line).max(proxy).min(end),
        None => end,
    };
    draw_part(out, x, begin, proxy, Class::Router);
    draw_part(out, x, proxy, decaying, Class::Proxy);
    draw_part(out, x, decaying, end, Class::Decaying);
}

// Whether a router is in sight: its first line has a row, or its lifeline comes in from above.
fn is_in_sight(scene: &Scene, router: &Router, lane: &Lane) -> bool {
    scene.shows(router.first)
        || router.first < scene.bounds.first && TOP < end_of(scene, router, lane)
}

// The name of a router, above where its lifeline begins, so that a message that is handed to it there has its way.
fn draw_name(out: &mut Writer, scene: &Scene, index: usize, router: &Router)
    ensures keeps { Keeps out.old out.new }
    ensures few { Grows out.old out.new 290 }
{
    let x = scene.across_of(index).saturating_sub(8);
    out.begin_label(
        x,
        scene.middle_of(router.first).saturating_sub(6),
        Class::RouterName,
    );
    out.text(b"r");
    out.number(router.serial);
    out.close(Tag::Text);
}

// The end that a router serves, on the right of its bar, as high as its name.
fn draw_end(
    out: &mut Writer,
    scene: &Scene,
    index: usize,
    router: &Router,
    end: End,
    portals: &Portals,
)
    ensures keeps { Keeps out.old out.new }
    ensures few { Grows out.old out.new 350 }
{
    let x = scene.across_of(index).saturating_add(6);
    let y = scene.middle_of(router.first).saturating_sub(6);
    out.begin_label(x, y, Class::RouterEnd);
    write_end(out, end, portals);
    out.close(Tag::Text);
}

// The name of a router, and its end, if that is known.
fn draw_name_and_end(
    out: &mut Writer,
    scene: &Scene,
    index: usize,
    router: &Router,
    ends: &[Option<End>],
    portals: &Portals,
)
    ensures keeps { Keeps out.old out.new }
    ensures few { Grows out.old out.new 640 }
{
    draw_name(out, scene, index, router);
    if let Some(Some(end)) = ends.get(index) {
        draw_end(out, scene, index, router, *end, portals);
    }
}

/// The lifelines of all routers.
pub fn draw_lifelines(out: &mut Writer, scene: &Scene)
    ensures keeps { Keeps out.old out.new }
    ensures few { Grows out.old out.new (981 * length scene.now.routers.now) }
{
    for (index, router) in scene.routers.iter().enumerate() {
        if let Some(lane) = scene.lanes.get(index) {
            draw_lifeline(out, scene, index, router, lane);
        }
    }
}

/// The names of all routers that are in sight, and the ends that they serve.
pub fn draw_names(out: &mut Writer, scene: &Scene, ends: &[Option<End>], portals: &Portals)
    ensures keeps { Keeps out.old out.new }
    ensures few { Grows out.old out.new (640 * length scene.now.routers.now) }
{
    for (index, router) in scene.routers.iter().enumerate() {
        if let Some(lane) = scene.lanes.get(index)
            && is_in_sight(scene, router, lane)
        {
            draw_name_and_end(out, scene, index, router, ends, portals);
        }
    }
}
