//! Where things stand in a picture.

ghost use Rattle.std.specs.Prelude.{◌≡◌, ◌≤◌, ◌<◌, ◌↔◌, length, slice_get, IfOk, IsTrue};
ghost use Rattle.ipcz_picture.specs.Bands.{is_shown, HaveBands};
ghost use Rattle.ipcz_picture.specs.Parts.{IsWithin, Meets};
ghost use Rattle.ipcz_picture.specs.Scenes.{across_of_portal, across_of_router, column_at, has_walls, walls_of, IsPlaceOfCall, IsPortalCalled};

use crate::bands::{Bands, is_shown};
use crate::lanes::Lane;
use crate::part::Bounds;
use crate::rows::{Place, TOP, UNIT, value_count};
use ipcz_lines::{Event, Line, Link, ReadLine, RouterEvent};
use ipcz_messages::calls::portal_of;
use ipcz_messages::named::{NamedPortal, count_of, portal_named};
use ipcz_messages::routers::{Router, find};
use std::alloc::{AllocError, Global};

const COLUMN: u64 = 80;

const LEFT_PAD: u64 = 44;

const RIGHT_PAD: u64 = 72;

const GAP: u64 = 92;

const FIRST_BAND: u64 = 384;

const WORD_COLUMN: u64 = 88;

/// How many words stand side by side.
pub const WORDS: usize = 6;

/// The walls of a node's band.
#[derive(Clone, Copy, Debug)]
pub struct Walls {
    pub left: u64,
    pub right: u64,
}

/// What is drawn: all lines, which of them have rows, how far down the row of each of those begins, the routers with their
/// lanes, the portals that are named, the walls of the nodes that have a band and those of the opened portals, where the link words begin,
/// and the size of it all.
#[derive(Drop)]
pub struct Scene<'a> {
    pub lines: &'a [ReadLine<'a>],
    pub bounds: Bounds,
    pub routers: &'a [Router],
    pub lanes: &'a [Lane],
    pub named: &'a [NamedPortal<'a>],
    pub tops: Vec<u64>,
    pub nodes: Vec<Option<Walls>>,
    pub opened: Option<Walls>,
    pub words: usize,
    pub words_left: u64,
    pub width: u64,
    pub bottom: u64,
}

// One more than the greatest node that a line names, or 0.
fn nodes_of_link(link: &Link) -> u8 {
    match link {
        Link::Peripheral { node, .. } => node.saturating_add(1),
        Link::Central(_) => 0,
    }
}

fn nodes_of_act(event: &RouterEvent) -> u8 {
    match event {
        RouterEvent::Send { link, .. }
        | RouterEvent::Finish { link, .. }
        | RouterEvent::Retire { link, .. } => nodes_of_link(link),
        _ => 0,
    }
}

fn nodes_of_event(event: &Event) -> u8 {
    match event {
        Event::Look { sender } => sender.saturating_add(1),
        Event::Post { destination } => destination.saturating_add(1),
        Event::Hand { link, .. } => nodes_of_link(link),
        Event::Router { event, .. } => nodes_of_act(event),
        _ => 0,
    }
}

// How many nodes the turns name: one more than the greatest.
fn nodes_of_turns(lines: &[ReadLine]) -> u8 {
    let mut count = 0;
    for read in lines {
        if let Line::Turn { node, event } = &read.line {
            count = count.max(node.saturating_add(1)).max(nodes_of_event(event));
        }
    }
    count
}

// How many nodes the lines name, by their turns or by portals: one more than the greatest.
fn node_count(lines: &[ReadLine], named: &[NamedPortal]) -> u8
    ensures few { result ≤ 8 }
{
    let mut count = nodes_of_turns(lines);
    for portal in named {
        if let Some(node) = portal.node {
            count = count.max(node.saturating_add(1));
        }
    }
    count.min(8)
}

// One more than the greatest word that a line tells the value of, or 0.
fn words_of_line(line: &Line) -> usize {
    match line {
        Line::Turn {
            event: Event::Router {
                event: RouterEvent::Word { word, .. } | RouterEvent::Claim { word: Some(word) },
                ..
            },
            ..
        } => *word as usize + 1,
        Line::Words(values) => value_count(values),
        _ => 0,
    }
}

// How many columns of words a line needs for those that it tells the value of.
fn columns_of_line(line: &Line) -> usize {
    match line {
        Line::Words(_) => words_of_line(line).min(WORDS),
        _ => match words_of_line(line).checked_sub(1) {
            Some(word) => word % WORDS + 1,
            None => 0,
        },
    }
}

// How many columns of words the lines need.
fn word_columns(lines: &[ReadLine]) -> usize
    ensures few { result ≤ 6 }
{
    let mut count = 0;
    for read in lines {
        count = count.max(columns_of_line(&read.line));
    }
    count.min(WORDS)
}

fn word_count(lines: &[ReadLine]) -> usize {
    let mut count = 0;
    for read in lines {
        count = count.max(words_of_line(&read.line));
    }
    count
}

// How many columns the routers of a node take.
fn router_columns(routers: &[Router], lanes: &[Lane], node: u8) -> usize {
    let mut count = 0;
    for (router, lane) in routers.iter().zip(lanes) {
        if router.node == node {
            count = count.max(lane.column.saturating_add(1));
        }
    }
    count
}

// The walls of a band of so many columns, at least one, that begins after the band before it.
fn walls_behind(before: Option<Walls>, columns: usize) -> Walls {
    let left = match before {
        Some(walls) => walls.right.saturating_add(GAP),
        None => FIRST_BAND,
    };
    let width = (columns as u64)
        .saturating_sub(1)
        .saturating_mul(COLUMN)
        .saturating_add(LEFT_PAD + RIGHT_PAD);
    Walls {
        left,
        right: left.saturating_add(width),
    }
}

// The walls of the last node that has a band.
fn last_walls(nodes: &[Option<Walls>]) -> Option<Walls> {
    let mut last = None;
    for walls in nodes {
        last = (*walls).or(last);
    }
    last
}

// The walls of the nodes that have a band.
fn node_walls(
    alloc: Global,
    bands: Bands,
    lines: &[ReadLine],
    routers: &[Router],
    lanes: &[Lane],
    named: &[NamedPortal],
) -> Result<Vec<Option<Walls>>, AllocError>
    ensures bands { IfOk result (λ walls. HaveBands (is_shown bands lines.now named.now) walls.items) }
    ensures few { IfOk result (λ walls. length walls.items ≤ 8) }
{
    let mut walls = Vec::new(alloc);
    for node in 0..node_count(lines, named) {
        if is_shown(bands, lines, named, node) {
            let portals = count_of(named, Some(node));
            let columns = portals.saturating_add(router_columns(routers, lanes, node));
            let next = walls_behind(last_walls(walls.as_slice()), columns);
            walls.push(Some(next))?;
        } else {
            walls.push(None)?;
        }
    }
    Ok(walls)
}

// The walls of the opened portals, if there are any, behind those of the nodes.
fn opened_walls(nodes: &[Option<Walls>], named: &[NamedPortal]) -> Option<Walls> {
    match count_of(named, None) {
        0 => None,
        columns => Some(walls_behind(last_walls(nodes), columns)),
    }
}

// How far to the right a column of a band is, by the band's left wall.
fn column_at(left: u64, column: usize) -> u64
    ensures { result ≡ column_at left column }
{
    left.saturating_add(LEFT_PAD)
        .saturating_add((column as u64).saturating_mul(COLUMN))
}

// How far down the row of each line begins that has a place.
fn tops(alloc: Global, placed: &[Place]) -> Result<Vec<u64>, AllocError> {
    let mut tops = Vec::new(alloc);
    for place in placed {
        for _ in 0..place.count {
            tops.push(place.top)?;
        }
    }
    Ok(tops)
}

// The index of the portal at which a line is a call that found it.
fn place_of_call(named: &[NamedPortal], line: &Line) -> Option<usize>
    ensures { IsPlaceOfCall named.now line.now result }
{
    let Some(name) = portal_of(line) else {
        return None;
    };
    portal_named(named, name)
}

impl<'a> Scene<'a> {
    /// The scene of these lines, of which those within the bounds have the places.
    pub fn new(
        alloc: Global,
        lines: &'a [ReadLine<'a>],
        bounds: Bounds,
        bands: Bands,
        routers: &'a [Router],
        lanes: &'a [Lane],
        named: &'a [NamedPortal<'a>],
        placed: &[Place],
        bottom: u64,
    ) -> Result<Self, AllocError>
        ensures lines { IfOk result (λ scene. scene.lines.now ≡ lines.now) }
        ensures bounds { IfOk result (λ scene. scene.bounds ≡ bounds) }
        ensures routers { IfOk result (λ scene. scene.routers.now ≡ routers.now) }
        ensures named { IfOk result (λ scene. scene.named.now ≡ named.now) }
        ensures bands { IfOk result (λ scene. HaveBands (is_shown bands lines.now named.now) scene.nodes.items) }
        ensures nodes { IfOk result (λ scene. length scene.nodes.items ≤ 8) }
    {
        let nodes = node_walls(alloc, bands, lines, routers, lanes, named)?;
        let opened = opened_walls(nodes.as_slice(), named);
        let words = word_count(lines);
        let inner = match opened.or(last_walls(nodes.as_slice())) {
            Some(walls) => walls.right,
            None => FIRST_BAND - 34,
        };
        let words_left = inner.saturating_add(66);
        let beside = word_columns(lines) as u64 * WORD_COLUMN;
        Ok(Scene {
            lines,
            bounds,
            routers,
            lanes,
            named,
            tops: tops(alloc, placed)?,
            nodes,
            opened,
            words,
            words_left,
            width: words_left
                .saturating_add(beside)
                .saturating_add(16)
                .max(1000),
            bottom,
        })
    }

    /// Whether a line has a row.
    pub fn shows(&self, line: usize) -> bool
        ensures { IsTrue result ↔ IsWithin self.now.bounds line }
    {
        self.bounds.first <= line && line < self.bounds.end
    }

    /// Whether something is seen in the rows that goes on from one line to another.
    pub fn sees(&self, from: usize, to: usize) -> bool
        ensures { IsTrue result ↔ Meets self.now.bounds from to }
    {
        from < self.bounds.end && self.bounds.first <= to
    }

    /// How far down the row of a line begins; of a line above the rows, where they begin, and of one below them, where the
    /// picture ends.
    pub fn top_of(&self, line: usize) -> u64
        ensures above { line < self.now.bounds.first → result ≡ 136 }
    {
        if line < self.bounds.first {
            return TOP;
        }
        match self.tops.as_slice().get(line - self.bounds.first) {
            Some(top) => *top,
            None => self.bottom,
        }
    }

    /// How far down the middle of a line's row is; of a line that has none, where the rows begin or end.
    pub fn middle_of(&self, line: usize) -> u64
        ensures above { line < self.now.bounds.first → result ≡ 136 }
    {
        let top = self.top_of(line);
        if self.shows(line) {
            top.saturating_add(UNIT / 2)
        } else {
            top
        }
    }

    /// The walls of a node; of one that has no band, where the first one would begin.
    pub fn walls_of(&self, node: u8) -> Walls
        ensures { result ≡ walls_of self.now.nodes.items node }
    {
        match self.nodes.as_slice().get(node as usize) {
            Some(Some(walls)) => *walls,
            _ => Walls {
                left: FIRST_BAND,
                right: FIRST_BAND,
            },
        }
    }

    /// Whether a node has a band.
    pub fn has_band(&self, node: u8) -> bool
        ensures { result ≡ has_walls self.now.nodes.items node }
    {
        matches!(self.nodes.as_slice().get(node as usize), Some(Some(_)))
    }

    /// How far to the right a router stands: behind the portals that are named of its node.
    pub fn across_of(&self, router: usize) -> u64
        ensures { result ≡ across_of_router self.now.nodes.items self.now.named.now (slice_get self.now.routers.now router) (slice_get self.now.lanes.now router) }
    {
        match (self.routers.get(router), self.lanes.get(router)) {
            (Some(router), Some(lane)) => {
                let portals = count_of(self.named, Some(router.node));
                column_at(
                    self.walls_of(router.node).left,
                    portals.saturating_add(lane.column),
                )
            }
            _ => 0,
        }
    }

    /// How far to the right a portal stands.
    pub fn across_of_portal(&self, portal: &NamedPortal) -> u64
        ensures { result ≡ across_of_portal self.now.nodes.items self.now.opened portal.now.node portal.now.place }
    {
        match (portal.node, self.opened) {
            (Some(node), _) => column_at(self.walls_of(node).left, portal.place),
            (None, Some(walls)) => column_at(walls.left, portal.place),
            (None, None) => 0,
        }
    }

    /// The index of the portal, of those that are named, at which a line is a call that found it.
    pub fn portal_called(&self, line: usize) -> Option<usize>
        ensures { IsPortalCalled self.now.named.now (slice_get self.now.lines.now line) result }
    {
        match self.lines.get(line) {
            Some(read) => place_of_call(self.named, &read.line),
            None => None,
        }
    }

    /// How far to the right the router of a node with a serial stands.
    pub fn across_of_serial(&self, node: u8, serial: u64) -> u64 {
        match find(self.routers, node, serial) {
            Some(router) => self.across_of(router),
            None => 0,
        }
    }

    /// How far to the right the column of a word begins.
    pub fn across_of_word(&self, word: usize) -> u64 {
        self.words_left
            .saturating_add((word % WORDS) as u64 * WORD_COLUMN)
    }
}
