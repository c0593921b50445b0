//! The calls of callers, each at the router of its portal, as far as the lines before the first settle tell.
//!
//! An open takes the next unclaimed word, and its pair has the number of that word. The first words are those of the first
//! pairs, of each two nodes one. So the first claim, or the first line that tells all words, says how many first pairs there
//! are, and with that which portal is which end.

ghost use Rattle.std.specs.Prelude.{◌≡◌, ◌≤◌, ◌<◌, ◌+◌, ◌*◌, ◌-◌, ◌/◌, ℕ, List, length, IfOk, IfNone, IfSome, MatchOption};
ghost use Rattle.std.specs.List.{Any};
ghost use Rattle.ipcz_messages.specs.Named.{IsCallAt, IsFirstName};

use crate::messages::namings::{Naming, namings};
use crate::moves::{Move, Moves, lines_in_sight};
use crate::routers::Router;
use ipcz_lines::{Answer, End, Event, Line, ReadLine, Refusal, RouterEvent, Side};
use std::alloc::{AllocError, Global};

/// The most opened portals whose names are known.
const MOST_PORTALS: usize = 512;

/// If more ends moved than so many, no calls and no origins are looked for.
pub const MOST_MOVES: usize = 512;

/// An opened portal, by its name, with the line of its open.
#[derive(Clone, Copy)]
pub struct Portal<'a> {
    pub name: &'a [u8],
    pub end: End,
    pub line: usize,
}

/// A call, by its line, and the router of its portal.
#[derive(Clone, Copy)]
pub struct Call {
    pub line: usize,
    pub router: usize,
}

/// Which portals are which ends.
#[derive(Drop)]
pub struct Portals<'a> {
    pub opened: Vec<Portal<'a>>,
    /// How many nodes there are, if that is known.
    pub nodes: Option<u8>,
}

// How many values a line of words has.
fn value_count(values: &[u8]) -> usize {
    if values.is_empty() {
        return 0;
    }
    values.split(|b| *b == b' ').count()
}

// How many words were taken before a line, if it tells that.
fn words_before(line: &Line) -> Option<usize> {
    match line {
        Line::Words(values) => Some(value_count(values)),
        Line::Turn {
            event: Event::Router {
                event: RouterEvent::Claim { word: Some(word) },
                ..
            },
            ..
        } => Some(usize::from(*word)),
        _ => None,
    }
}

// How many first pairs there are, by the first line that tells how many words were taken.
fn first_pairs(lines: &[ReadLine]) -> Option<usize> {
    let mut opened = 0usize;
    for read in lines {
        if let Some(count) = words_before(&read.line) {
            return count.checked_sub(opened);
        }
        if matches!(read.line, Line::Open { refusal: None, .. }) {
            opened = opened.saturating_add(1);
        }
    }
    None
}

// How many nodes have so many first pairs.
fn nodes_with(pairs: usize) -> Option<u8>
    ensures { IfSome result (λ n. (0 < n) × (n * (n - 1) / 2 ≡ pairs)) }
{
    for nodes in 1..9u8 {
        if usize::from(nodes) * (usize::from(nodes) - 1) / 2 == pairs {
            return Some(nodes);
        }
    }
    None
}

// Whether a line claims a word.
fn is_claim(line: &Line) -> bool {
    matches!(
        line,
        Line::Turn {
            event: Event::Router {
                event: RouterEvent::Claim { word: Some(_) },
                ..
            },
            ..
        }
    )
}

// Notes the portals that were opened, if the words that were taken before the first line are so many.
fn note_opened<'a>(
    opened: &mut Vec<Portal<'a>>,
    lines: &[ReadLine<'a>],
    taken: usize,
) -> Result<(), AllocError> {
    let mut word = taken;
    for (line, read) in lines.iter().enumerate() {
        if let Line::Open {
            first,
            second,
            refusal: None,
        } = read.line
        {
            if word < 4096 && opened.len() < MOST_PORTALS {
                let pair = word as u16;
                opened.push(Portal {
                    name: first,
                    end: End {
                        pair,
                        side: Side::A,
                    },
                    line,
                })?;
                opened.push(Portal {
                    name: second,
                    end: End {
                        pair,
                        side: Side::B,
                    },
                    line,
                })?;
            }
            word = word.saturating_add(1);
        } else if is_claim(&read.line) {
            word = word.saturating_add(1);
        }
    }
    Ok(())
}

// The number of a first pair of two nodes.
fn first_pair(nodes: u8, low: u8, high: u8) -> u16 {
    let mut pair = 0u16;
    for node in 0..low {
        pair = pair.saturating_add(u16::from(nodes.saturating_sub(1).saturating_sub(node)));
    }
    pair.saturating_add(u16::from(high.saturating_sub(low).saturating_sub(1)))
}

/// How many nodes there are, as far as the lines before the first settle tell.
pub fn node_count(lines: &[ReadLine]) -> Option<u8> {
    let pairs = first_pairs(&lines[..lines_in_sight(lines)])?;
    nodes_with(pairs)
}

/// The end that a router serves which its node has had from the start: those are the node's ends of the first pairs, by the
/// pairs' numbers.
pub fn first_end(nodes: u8, node: u8, serial: u64) -> Option<End> {
    if node >= nodes || serial >= u64::from(nodes.saturating_sub(1)) {
        return None;
    }
    if serial < u64::from(node) {
        return Some(End {
            pair: first_pair(nodes, serial as u8, node),
            side: Side::B,
        });
    }
    Some(End {
        pair: first_pair(nodes, node, serial as u8 + 1),
        side: Side::A,
    })
}

// The node of a digit.
fn node_of(digit: u8, nodes: u8) -> Option<u8>
    ensures { MatchOption result ((n : ℕ) → n < nodes → digit ≡ 48 + n → ⊥) (λ n. (n < nodes) × (digit ≡ 48 + n)) }
{
    let node = digit.checked_sub(b'0')?;
    if node < nodes { Some(node) } else { None }
}

/// The two nodes of a first pair, of so many, by the name of a portal of it, as 0 and 1 by `0>1`.
pub fn nodes_of_name(name: &[u8], nodes: u8) -> Option<(u8, u8)>
    ensures named { IfSome result (λ p. IsFirstName nodes name.now p.0 p.1) }
    ensures other { IfNone result ((node other : ℕ) → IsFirstName nodes name.now node other → ⊥) }
{
    let [one, b'>', other] = name else {
        return None;
    };
    let (Some(node), Some(peer)) = (node_of(*one, nodes), node_of(*other, nodes)) else {
        return None;
    };
    if node == peer {
        None
    } else {
        Some((node, peer))
    }
}

impl<'a> Portals<'a> {
    /// The portals that the lines before the first settle tell of.
    pub fn new(alloc: Global, lines: &[ReadLine<'a>]) -> Result<Self, AllocError> {
        let seen = &lines[..lines_in_sight(lines)];
        let mut opened = Vec::new(alloc);
        let pairs = first_pairs(seen);
        if let Some(pairs) = pairs {
            note_opened(&mut opened, seen, pairs)?;
        }
        Ok(Portals {
            opened,
            nodes: node_count(lines),
        })
    }

    // The end of a first pair by its name, as `0>1`.
    fn first_end(&self, name: &[u8]) -> Option<End> {
        let nodes = self.nodes?;
        let (one, other) = nodes_of_name(name, nodes)?;
        if one < other {
            Some(End {
                pair: first_pair(nodes, one, other),
                side: Side::A,
            })
        } else {
            Some(End {
                pair: first_pair(nodes, other, one),
                side: Side::B,
            })
        }
    }

    /// The end that a portal is.
    pub fn end_of(&self, name: &[u8]) -> Option<End> {
        for portal in &self.opened {
            if portal.name == name {
                return Some(portal.end);
            }
        }
        self.first_end(name)
    }

    /// The nodes of a first pair's end, its own and the other's.
    pub fn nodes_of(&self, end: End) -> Option<(u8, u8)> {
        let nodes = self.nodes?;
        for low in 0..nodes {
            for high in low + 1..nodes {
                if first_pair(nodes, low, high) == end.pair {
                    return match end.side {
                        Side::A => Some((low, high)),
                        Side::B => Some((high, low)),
                    };
                }
            }
        }
        None
    }

    /// The line of the open that an end is of.
    pub fn line_of(&self, end: End) -> Option<usize>
        ensures { IfSome result (λ line. Any (λ p. (p.line ≡ line) × (p.end ≡ end)) self.now.opened.items) }
    {
        for portal in &self.opened {
            if end == portal.end {
                return Some(portal.line);
            }
        }
        None
    }

    /// The name of the opened portal that an end is.
    pub fn name_of(&self, end: End) -> Option<&'a [u8]>
        ensures { IfSome result (λ name. Any (λ p. (p.name ≡ name) × (p.end ≡ end)) self.now.opened.items) }
    {
        for portal in &self.opened {
            if portal.end == end {
                return Some(portal.name);
            }
        }
        None
    }
}

// What tells the router of a portal.
#[derive(Clone, Copy)]
struct Known<'a> {
    routers: &'a [Router],
    namings: &'a [Naming],
    moves: &'a [Move],
    ends: &'a [Option<End>],
    seen: usize,
}

impl<'a> Known<'a> {
    // The last move of an end before a line.
    fn move_before(self, end: End, line: usize) -> Option<Move> {
        let mut last: Option<Move> = None;
        for moved in self.moves {
            if moved.end == Some(end)
                && moved.line < line
                && last.is_none_or(|m| m.line <= moved.line)
            {
                last = Some(*moved);
            }
        }
        last
    }

    // The first move of an end from a line on.
    fn move_behind(self, end: End, line: usize) -> Option<Move> {
        let mut first: Option<Move> = None;
        for moved in self.moves {
            if moved.end == Some(end)
                && moved.line >= line
                && first.is_none_or(|m| moved.line < m.line)
            {
                first = Some(*moved);
            }
        }
        first
    }

    // The router that names the link of a move, on the node that the end left, or on the other.
    fn router_of(self, moved: &Move, is_behind: bool) -> Option<usize> {
        let mut found = None;
        for naming in self.namings {
            if naming.link == moved.link && (naming.node != moved.node) == is_behind {
                if found.is_some_and(|router| router != naming.router) {
                    return None;
                }
                found = Some(naming.router);
            }
        }
        found
    }

    // The router in sight that serves an end which didn't move.
    fn router_at_home(self, end: End) -> Option<usize> {
        for (index, router) in self.routers.iter().enumerate() {
            if router.first < self.seen && self.ends.get(index) == Some(&Some(end)) {
                return Some(index);
            }
        }
        None
    }

    // The router that serves an end at a line.
    fn serving(self, end: End, line: usize) -> Option<usize> {
        match (self.move_before(end, line), self.move_behind(end, line)) {
            (Some(moved), _) => self.router_of(&moved, true),
            (None, Some(moved)) => self.router_of(&moved, false),
            (None, None) => self.router_at_home(end),
        }
    }
}

/// The portal at which a line is a call that found it.
pub fn portal_of<'a>(line: &Line<'a>) -> Option<&'a [u8]>
    ensures called { IfSome result (λ name. IsCallAt name.now line.now) }
    ensures other { IfNone result ((name : List ℕ) → IsCallAt name line.now → ⊥) }
{
    match line {
        Line::Put {
            answer: Answer::Refused(Refusal::UnknownName | Refusal::Away),
            ..
        }
        | Line::Close {
            answer: Answer::Refused(Refusal::UnknownName | Refusal::Away),
            ..
        }
        | Line::Missed {
            refusal: Refusal::UnknownName | Refusal::Away,
            ..
        } => None,
        Line::Put { name, .. }
        | Line::Close { name, .. }
        | Line::Missed { name, .. }
        | Line::Got { name, .. } => Some(name),
        _ => None,
    }
}

/// The calls before the first settle whose routers are known.
pub fn calls(
    alloc: Global,
    lines: &[ReadLine],
    routers: &[Router],
    moves: &Moves,
    ends: &[Option<End>],
    portals: &Portals,
) -> Result<Vec<Call>, AllocError>
    ensures few { IfOk result (λ calls. length calls.items ≤ length lines.now) }
{
    let namings = namings(alloc, lines, routers)?;
    let known = Known {
        routers,
        namings: &namings,
        moves: &moves.all,
        ends,
        seen: lines_in_sight(lines),
    };
    let mut calls = Vec::new(alloc);
    if moves.all.len() > MOST_MOVES {
        return Ok(calls);
    }
    for line in 0..known.seen.min(lines.len()) {
        if let Some(name) = portal_of(&lines[line].line)
            && let Some(end) = portals.end_of(name)
            && let Some(router) = known.serving(end, line)
        {
            calls.push(Call { line, router })?;
        }
    }
    Ok(calls)
}
