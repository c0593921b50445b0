//! Which end of a pair each router serves, as far as the lines before the first settle tell.
//!
//! The number of a pair is that of the word of its first link. So a word that nobody claims is the first link of the pair with
//! its number, and one that is claimed is of the claimer's pair. Two routers with one central link serve opposite ends; a link
//! that was made for an end that moved is of that end.

ghost use Rattle.std.specs.Prelude.{◌≡◌, ◌<◌, length, vec_len, IfOk};
ghost use Rattle.ipcz_messages.specs.Closes.{other_end};
ghost use Rattle.ipcz_messages.specs.Ends.{IsLoneSide};

use crate::calls::{first_end, node_count};
use crate::messages::Message;
use crate::messages::namings::{Naming, namings};
use crate::moves::{Moves, lines_in_sight};
use crate::routers::{Router, find};
use ipcz_lines::{End, Event, Kind, Line, Link, ReadLine, RouterEvent, Side, WordStep};
use std::alloc::{AllocError, Global};

// The most words.
const WORDS: usize = 4096;

/// The other end of a pair.
pub fn opposite(end: End) -> End
    ensures pair { result.pair ≡ end.pair }
    ensures side { (result.side ≡ end.side) → ⊥ }
    ensures other { result ≡ other_end end }
{
    let side = match end.side {
        Side::A => Side::B,
        Side::B => Side::A,
    };
    End {
        pair: end.pair,
        side,
    }
}

// The side whose bit is the only one of two neighbours that is set, from side A's on.
fn side_at(value: u16, bit: u16) -> Option<Side>
    requires { 0 < bit }
    ensures { IsLoneSide value bit result }
{
    match (value / bit % 2, value / bit / 2 % 2) {
        (1, 0) => Some(Side::A),
        (0, 1) => Some(Side::B),
        _ => None,
    }
}

// The side of a router that did this with a word: the one that is locked behind a lock, or waits behind a wait.
fn side_of(step: WordStep, after: u16) -> Option<Side> {
    match step {
        WordStep::Lock => side_at(after, 16),
        WordStep::Wait => side_at(after, 4),
        _ => None,
    }
}

// Whether a message was handled before a line.
fn is_handled_before(message: &Message, line: usize) -> bool {
    match message.handled {
        Some(handled) => handled < line,
        None => false,
    }
}

// What is known of routers' ends, of who claimed a word, and of the routers that name a word's link.
#[derive(Drop)]
struct Known {
    ends: Vec<Option<End>>,
    claimers: Vec<Option<usize>>,
    holders: Vec<[Option<usize>; 2]>,
}

impl Known {
    fn set(&mut self, router: Option<usize>, end: Option<End>)
        ensures { vec_len self.new.ends ≡ vec_len self.old.ends }
    {
        if let (Some(router), Some(end)) = (router, end)
            && let Some(known) = self.ends.get_mut(router)
            && known.is_none()
        {
            *known = Some(end);
        }
    }

    fn end_of(&self, router: Option<usize>) -> Option<End> {
        *self.ends.get(router?)?
    }

    // The pair of a word's link.
    fn pair_of(&self, word: u16) -> Option<u16> {
        match self.claimers.get(usize::from(word)) {
            Some(Some(claimer)) => Some(self.end_of(Some(*claimer))?.pair),
            Some(None) => Some(word),
            None => None,
        }
    }

    fn note_claim(&mut self, word: u16, router: Option<usize>)
        ensures { vec_len self.new.ends ≡ vec_len self.old.ends }
    {
        if let Some(claimer) = self.claimers.get_mut(usize::from(word)) {
            *claimer = router;
        }
    }

    fn note_holder(&mut self, naming: &Naming)
        ensures { vec_len self.new.ends ≡ vec_len self.old.ends }
    {
        if let Link::Central(word) = naming.link
            && let Some(holders) = self.holders.get_mut(usize::from(word))
        {
            let router = Some(naming.router);
            if holders[0].is_none() {
                holders[0] = router;
            } else if holders[0] != router {
                holders[1] = router;
            }
        }
    }

    // The routers that name a word's link.
    fn holders_of(&self, word: usize) -> (Option<usize>, Option<usize>) {
        match self.holders.get(word) {
            Some(holders) => (holders[0], holders[1]),
            None => (None, None),
        }
    }

    // Gives the routers with one central link opposite ends.
    fn oppose(&mut self)
        ensures { vec_len self.new.ends ≡ vec_len self.old.ends }
    {
        for word in 0..WORDS {
            let (one, other) = self.holders_of(word);
            let end = self.end_of(one);
            self.set(other, end.map(|e| opposite(e)));
            let end = self.end_of(other);
            self.set(one, end.map(|e| opposite(e)));
        }
    }

    // Notes the ends of the routers that their nodes have had from the start.
    fn note_first(&mut self, nodes: Option<u8>, routers: &[Router])
        ensures { vec_len self.new.ends ≡ vec_len self.old.ends }
    {
        for (index, router) in routers.iter().enumerate() {
            let end = match nodes {
                Some(nodes) => first_end(nodes, router.node, router.serial),
                None => None,
            };
            self.set(Some(index), end);
        }
    }

    // Notes the ends of routers with a link that was made for an end that moved.
    fn note_moved(&mut self, namings: &[Naming], moves: &Moves)
        ensures { vec_len self.new.ends ≡ vec_len self.old.ends }
    {
        for naming in namings {
            let end = moves.of_link(naming.link).and_then(|m| m.end);
            self.set(Some(naming.router), end);
        }
    }

    // Notes the ends of routers of two nodes with the first link of a first pair, if a message was handled before a line;
    // side A is on the lower node.
    fn note_message(&mut self, message: &Message, line: usize)
        ensures { vec_len self.new.ends ≡ vec_len self.old.ends }
    {
        if let (Some(from), Some(Link::Central(word)), Some(Kind::Item(_) | Kind::Flush)) = (
            message.from,
            message.link,
            message.kind,
        )
            && let Some(None) = self.claimers.get(usize::from(word))
            && from != message.to
            && is_handled_before(message, line)
        {
            let side = if from < message.to { Side::A } else { Side::B };
            let end = End { pair: word, side };
            self.set(message.maker, Some(end));
            self.set(message.receiver, Some(opposite(end)));
        }
    }

    // Notes the end of a router that locked a word or waits for it.
    fn note_step(&mut self, router: Option<usize>, step: WordStep, word: u16, after: u16)
        ensures { vec_len self.new.ends ≡ vec_len self.old.ends }
    {
        if let (Some(pair), Some(side)) = (self.pair_of(word), side_of(step, after)) {
            self.set(router, Some(End { pair, side }));
        }
    }

    // Notes what a line says of a word.
    fn note_line(&mut self, line: &Line, routers: &[Router])
        ensures { vec_len self.new.ends ≡ vec_len self.old.ends }
    {
        if let Line::Turn {
            node,
            event: Event::Router { serial, event },
        } = line
        {
            match event {
                RouterEvent::Claim { word: Some(word) } => {
                    self.note_claim(*word, find(routers, *node, *serial))
                }
                RouterEvent::Word { step, word, after } => {
                    self.note_step(find(routers, *node, *serial), *step, *word, *after)
                }
                _ => (),
            }
        }
    }
}

/// The end that each router serves.
pub fn ends(
    alloc: Global,
    lines: &[ReadLine],
    messages: &[Message],
    routers: &[Router],
    moves: &Moves,
) -> Result<Vec<Option<End>>, AllocError>
    ensures { IfOk result (λ ends. vec_len ends ≡ length routers.now) }
{
    let namings = namings(alloc, lines, routers)?;
    let seen = &lines[..lines_in_sight(lines)];
    let mut known = Known {
        ends: vec![in alloc; None; routers.len()]?,
        claimers: vec![in alloc; None; WORDS]?,
        holders: vec![in alloc; [None; 2]; WORDS]?,
    };
    known.note_first(node_count(lines), routers);
    known.note_moved(&namings, moves);
    for naming in &namings {
        known.note_holder(naming);
    }
    for read in seen {
        known.note_line(&read.line, routers);
    }
    for message in messages {
        known.note_message(message, seen.len());
    }
    known.oppose();
    Ok(known.ends)
}
