//! Pairs are opened, moved and closed over four nodes until each link word is used, world after world. What is left of a pair whose both ends
//! are closed is its words.
//!
//! Nothing is promised of what stands here: a test's own proof would else work out the world at each call.

use super::calls::{is_closed, puts};
use super::{get, is_got, is_refused};
use ipcz_base::{End, Refusal, Side};
use ipcz_world::{Reply, Settled, Step, World};
use std::alloc::{AllocError, Global};

const NODES: u8 = 4;

const WORDS: u32 = 1024;

/// How many words a round takes at most.
const WORDS_OF_A_ROUND: u64 = 16;

const WORLDS: u64 = 3;

/// More acts than any settle takes here.
const ENOUGH: u64 = 1_000_000;

/// What a call gave was something else than the rules say.
#[derive(Clone, Copy, Debug, PartialEq, Eq)]
enum Wrong {
    Open,
    Put,
    Get,
    Close,
    Settle,
    Routers,
    Words,
    Memory,
}

impl From<AllocError> for Wrong {
    fn from(_error: AllocError) -> Wrong {
        Wrong::Memory
    }
}

/// An end, and the node whose callers hold it.
#[derive(Clone, Copy)]
struct Portal {
    node: u8,
    end: End,
}

/// How the two ends of a pair are closed, and what was put at the first and isn't got.
#[derive(Clone, Copy)]
enum Ending {
    AtOnce,
    InTurn,
    WithAParcel,
    WithAPortal,
}

/// A world with a pair that stays open, whose second portal goes from node to node.
#[derive(Drop)]
struct Soak {
    world: World,
    alloc: Global,
    /// How many portals were sent by each node to each other one: from node 1 to node 3 at 7.
    sent: [u64; 16],
}

fn agree(holds: bool, wrong: Wrong) -> Result<(), Wrong> {
    if holds { Ok(()) } else { Err(wrong) }
}

// The number of the first pair of two nodes.
fn first_pair(low: u8, high: u8) -> u64 {
    match (low, high) {
        (0, 1) => 0,
        (0, 2) => 1,
        (0, 3) => 2,
        (1, 2) => 3,
        (1, 3) => 4,
        _ => 5,
    }
}

// The portal of a node's first pair with another.
fn portal_to(node: u8, other: u8) -> Portal {
    let (pair, side) = if node < other {
        (first_pair(node, other), Side::A)
    } else {
        (first_pair(other, node), Side::B)
    };
    Portal {
        node,
        end: End { pair, side },
    }
}

// The node that comes so many behind another.
fn node_behind(node: u8, by: u8) -> u8 {
    node.wrapping_add(by) % NODES
}

// The node of a number.
fn node_of(number: u64) -> u8 {
    (number % 4) as u8
}

fn ending_of(number: u64) -> Ending {
    match number % 7 {
        0 | 4 => Ending::AtOnce,
        1 | 5 => Ending::InTurn,
        2 => Ending::WithAParcel,
        _ => Ending::WithAPortal,
    }
}

// The portals of the pair that was opened on a node; none if each word is claimed.
fn portals_of(reply: &Reply, node: u8) -> Result<Option<(Portal, Portal)>, Wrong> {
    match reply {
        Reply::Opened(first, second) => Ok(Some((
            Portal { node, end: *first },
            Portal { node, end: *second },
        ))),
        Reply::Refused(Refusal::NoWord) => Ok(None),
        _ => Err(Wrong::Open),
    }
}

impl Soak {
    fn new(alloc: Global) -> Result<Soak, Wrong> {
        match World::new(alloc, NODES, WORDS) {
            Ok(world) => Ok(Soak {
                world,
                alloc,
                sent: [0; 16],
            }),
            Err(_) => Err(Wrong::Memory),
        }
    }

    // Opens a pair on a node; none if each word is claimed.
    fn open(&mut self, node: u8) -> Result<Option<(Portal, Portal)>, Wrong> {
        let reply = self.world.step(&Step::Open(node));
        portals_of(&reply, node)
    }

    fn put(&mut self, at: Portal, data: &[u8], ends: &[End], number: u64) -> Result<(), Wrong> {
        let put = puts(
            &mut self.world,
            self.alloc,
            at.node,
            at.end,
            (data, ends),
            number,
        )?;
        agree(put, Wrong::Put)
    }

    fn get(&mut self, at: Portal, number: u64, data: &[u8], ends: &[End]) -> Result<(), Wrong> {
        let reply = self.world.step(&get(at.node, at.end));
        agree(is_got(&reply, number, data, ends), Wrong::Get)
    }

    // A get tells that the peer was closed.
    fn hear(&mut self, at: Portal) -> Result<(), Wrong> {
        let reply = self.world.step(&get(at.node, at.end));
        agree(is_refused(&reply, Refusal::PeerClosed), Wrong::Get)
    }

    // Closes an end, whose mark has this number.
    fn close(&mut self, at: Portal, number: u64) -> Result<(), Wrong> {
        let step = Step::Close {
            node: at.node,
            at: at.end,
        };
        let reply = self.world.step(&step);
        agree(is_closed(&reply, number), Wrong::Close)
    }

    fn settle(&mut self) -> Result<(), Wrong> {
        match self.world.settle(ENOUGH) {
            Ok(Settled::Settled { .. }) => Ok(()),
            _ => Err(Wrong::Settle),
        }
    }

    // The number of the next parcel from a node to another, which is sent.
    fn next_number(&mut self, from: u8, to: u8) -> u64 {
        let index = from as usize * 4 + to as usize;
        match self.sent.get_mut(index) {
            Some(count) => {
                let number = *count;
                *count = number.saturating_add(1);
                number
            }
            None => 0,
        }
    }

    // Sends a portal to another node, which gets it; one that is there stays.
    fn move_portal(&mut self, portal: Portal, to: u8) -> Result<Portal, Wrong> {
        if portal.node == to {
            return Ok(portal);
        }
        let number = self.next_number(portal.node, to);
        self.put(portal_to(portal.node, to), b"m", &[portal.end], number)?;
        self.settle()?;
        self.get(portal_to(to, portal.node), number, b"m", &[portal.end])?;
        Ok(Portal {
            node: to,
            end: portal.end,
        })
    }

    // Sends a parcel each way, under one number.
    fn exchange(&mut self, first: Portal, second: Portal, number: u64) -> Result<(), Wrong> {
        self.put(first, b"there", &[], number)?;
        self.put(second, b"back", &[], number)?;
        self.settle()?;
        self.get(second, number, b"there", &[])?;
        self.get(first, number, b"back", &[])
    }

    // Closes both ends of a pair at which two parcels each were put.
    fn end_at_once(&mut self, first: Portal, second: Portal) -> Result<(), Wrong> {
        self.close(first, 2)?;
        self.close(second, 2)?;
        self.settle()
    }

    // The same, if the second hears of it first.
    fn end_in_turn(&mut self, first: Portal, second: Portal) -> Result<(), Wrong> {
        self.close(first, 2)?;
        self.settle()?;
        self.hear(second)?;
        self.close(second, 2)?;
        self.settle()
    }

    // The same, if a parcel is on its way that nobody gets.
    fn end_with_a_parcel(&mut self, first: Portal, second: Portal) -> Result<(), Wrong> {
        self.put(first, b"late", &[], 2)?;
        self.close(second, 2)?;
        self.close(first, 3)?;
        self.settle()
    }

    // The same, if that parcel carries a portal, which is closed with it.
    fn end_with_a_portal(&mut self, first: Portal, second: Portal) -> Result<(), Wrong> {
        let Some((kept, carried)) = self.open(first.node)? else {
            return self.end_at_once(first, second);
        };
        self.put(first, b"late", &[carried.end], 2)?;
        self.close(second, 2)?;
        self.settle()?;
        self.hear(kept)?;
        self.close(kept, 0)?;
        self.close(first, 3)?;
        self.settle()
    }

    fn end(&mut self, ending: Ending, first: Portal, second: Portal) -> Result<(), Wrong> {
        match ending {
            Ending::AtOnce => self.end_at_once(first, second),
            Ending::InTurn => self.end_in_turn(first, second),
            Ending::WithAParcel => self.end_with_a_parcel(first, second),
            Ending::WithAPortal => self.end_with_a_portal(first, second),
        }
    }

    // Whether there are words for whatever a round does.
    fn has_words(&self) -> bool {
        self.world.claimed().saturating_add(WORDS_OF_A_ROUND) <= u64::from(WORDS)
    }

    // Opens a pair, moves its ends and closes them; whether there was a word for it. If few words are left, the first end stays: of two
    // proxies without a word none can leave.
    fn live(&mut self, round: u64) -> Result<bool, Wrong> {
        let Some((mut first, mut second)) = self.open(node_of(round))? else {
            return Ok(false);
        };
        second = self.move_portal(second, node_behind(second.node, 1))?;
        self.exchange(first, second, 0)?;
        if self.has_words() {
            first = self.move_portal(first, node_behind(first.node, 2))?;
            second = self.move_portal(second, node_of(round / 4))?;
        }
        self.exchange(first, second, 1)?;
        self.end(ending_of(round), first, second)?;
        Ok(true)
    }

    // Whether each node has the routers of three first pairs, and one for each of these portals that it holds.
    fn has_routers(&self, first: Portal, second: Portal) -> bool {
        for node in 0..NODES {
            let one = if first.node == node { 1 } else { 0 };
            let other = if second.node == node { 1 } else { 0 };
            if self.world.routers(node) != Some(3 + one + other) {
                return false;
            }
        }
        true
    }

    // Whether each node has so many routers.
    fn has_each(&self, count: usize) -> bool {
        for node in 0..NODES {
            if self.world.routers(node) != Some(count) {
                return false;
            }
        }
        true
    }

    // Rounds until no word is left, with a pair that stays open meanwhile: how many rounds there were, and where its portals are.
    fn use_words(&mut self) -> Result<(u64, Portal, Portal), Wrong> {
        let Some((first, mut second)) = self.open(0)? else {
            return Err(Wrong::Open);
        };
        for round in 0..u64::from(WORDS) {
            if !self.live(round)? {
                return Ok((round, first, second));
            }
            second = self.move_portal(second, node_of(round))?;
            self.exchange(first, second, round)?;
            if self.has_words() {
                agree(self.has_routers(first, second), Wrong::Routers)?;
            }
        }
        Err(Wrong::Words)
    }

    // Closes the first pairs, of which each end has put as many parcels as were sent.
    fn close_first_pairs(&mut self) -> Result<(), Wrong> {
        for node in 0..NODES {
            for other in 0..NODES {
                if node != other {
                    let number = self.next_number(node, other);
                    self.close(portal_to(node, other), number)?;
                }
            }
        }
        self.settle()
    }

    // Uses up the words. At the end no router is left.
    fn live_and_die(&mut self) -> Result<(), Wrong> {
        let (rounds, first, second) = self.use_words()?;
        agree(self.world.claimed() == u64::from(WORDS), Wrong::Words)?;
        agree(rounds > 100, Wrong::Words)?;
        self.close(first, rounds)?;
        self.close(second, rounds)?;
        self.settle()?;
        agree(self.has_each(3), Wrong::Routers)?;
        self.close_first_pairs()?;
        agree(self.has_each(0), Wrong::Routers)
    }
}

// The same, with a new world.
fn live_and_die(alloc: Global) -> Result<(), Wrong> {
    Soak::new(alloc)?.live_and_die()
}

#[test]
fn closed_pairs_leave_their_words_alone(rt: HostRuntime) {
    for _world in 0..WORLDS {
        assert_eq!(rt; live_and_die(rt.alloc()), Ok(()));
    }
}
