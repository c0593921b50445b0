//! A world and its twin, of which each takes what the other takes, the world first.
use crate::alike::{are_alike, are_same};
use crate::asking::{lists, step_of};
use crate::met::{Met, Wrong, answered};
use crate::moves::{Ask, Row};
use crate::subject::Subject;
use crate::trial::make_moves;
use ipcz_base::{End, Refusal};
use ipcz_node::Happened;
use ipcz_world::{Reply, Settled, Step, World};
use std::alloc::{AllocError, Global};

/// By which calls a row is run.
#[derive(Clone, Copy)]
pub enum Way {
    /// Each step by `World::step`, and a settle by turns.
    Steps,
    /// A put by `World::put`, each other step by `World::run`, and a settle by `World::settle`, an act at a time.
    Calls,
}

// Which of the two.
#[derive(Clone, Copy)]
enum Which {
    World,
    Twin,
}

// A world and its twin.
#[derive(Drop)]
struct Twins {
    world: World,
    twin: World,
    alloc: Global,
    way: Way,
    met: Met,
}

// The answer of a run of one step.
fn run_one(world: &mut World, alloc: Global, step: Step) -> Reply {
    match world.run(alloc, &[step]) {
        Ok(mut replies) => match replies.pop() {
            Some(reply) => reply,
            None => Reply::Refused(Refusal::Stranger),
        },
        Err(why) => Reply::Refused(why),
    }
}

// Asks once. No answer if there was no memory for what is asked.
fn ask_once(world: &mut World, alloc: Global, way: Way, ask: Ask) -> Result<Reply, AllocError> {
    match (way, ask) {
        (Way::Steps, _) => Ok(world.step(&step_of(alloc, ask)?)),
        (Way::Calls, Ask::Put(node, at, data, attached)) => {
            let (bytes, ends) = lists(alloc, data, attached)?;
            Ok(Reply::of_put(world.put(node, at, bytes, ends)))
        }
        (Way::Calls, _) => Ok(run_one(world, alloc, step_of(alloc, ask)?)),
    }
}

impl Twins {
    // Two worlds of so many nodes and words.
    fn new(alloc: Global, way: Way, nodes: u8, words: u32) -> Result<Twins, Wrong> {
        let mut met = Met::none();
        let world = new_world(alloc, nodes, words, &mut met)?;
        let twin = new_world(alloc, nodes, words, &mut met)?;
        Ok(Twins {
            world,
            twin,
            alloc,
            way,
            met,
        })
    }

    // Notes that a call of the world was refused memory: it has to be as its twin is, which hasn't made that call.
    fn note_refused(&mut self) -> Result<(), Wrong> {
        self.met.add_refused();
        self.compare(Wrong::Changed)
    }

    // Whether the two are alike.
    fn compare(&mut self, why: Wrong) -> Result<(), Wrong> {
        if are_alike(&mut self.world, &mut self.twin) {
            Ok(())
        } else {
            Err(why)
        }
    }

    // Asks the world; if memory is refused, it is as it was, and is asked again.
    fn ask_world(&mut self, ask: Ask) -> Result<Reply, Wrong> {
        match ask_once(&mut self.world, self.alloc, self.way, ask) {
            Ok(Reply::Refused(Refusal::OutOfMemory)) => self.note_refused()?,
            Ok(reply) => return Ok(reply),
            Err(AllocError) => self.met.add_beside(),
        }
        answered(ask_once(&mut self.world, self.alloc, self.way, ask))
    }

    // Asks the twin; if memory is refused, it is asked again.
    fn ask_twin(&mut self, ask: Ask) -> Result<Reply, Wrong> {
        match ask_once(&mut self.twin, self.alloc, self.way, ask) {
            Ok(Reply::Refused(Refusal::OutOfMemory)) | Err(AllocError) => self.met.add_beside(),
            Ok(reply) => return Ok(reply),
        }
        answered(ask_once(&mut self.twin, self.alloc, self.way, ask))
    }

    // Asks one of the two.
    fn ask(&mut self, which: Which, ask: Ask) -> Result<Reply, Wrong> {
        match which {
            Which::World => self.ask_world(ask),
            Which::Twin => self.ask_twin(ask),
        }
    }

    // Asks one of the two. A begin or a retire that finds no memory is a lock that is given back: the turn after it gets the lock again, and
    // the next begins or retires.
    fn ask_on(&mut self, which: Which, ask: Ask) -> Result<Reply, Wrong> {
        let reply = self.ask(which, ask)?;
        let Reply::Turned(Happened::Unlock(serial, link, _)) = reply else {
            return Ok(reply);
        };
        self.met.add_unlocked();
        match self.ask(which, ask)? {
            Reply::Turned(Happened::Lock(router, again, _)) if router == serial && again == link =>
                {}
            _ => return Err(Wrong::Apart),
        }
        if let Which::World = which {
            self.compare(Wrong::Changed)?;
        }
        self.ask(which, ask)
    }

    // One act of a settle of the world.
    fn settle_world(&mut self) -> Result<Settled, Wrong> {
        match self.world.settle(1) {
            Ok(settled) => return Ok(settled),
            Err(Refusal::OutOfMemory) => self.note_refused()?,
            Err(_) => return Err(Wrong::Answer),
        }
        self.world.settle(1).map_err(|_| Wrong::RefusedAgain)
    }

    // One act of a settle of the twin.
    fn settle_twin(&mut self) -> Result<Settled, Wrong> {
        match self.twin.settle(1) {
            Ok(settled) => return Ok(settled),
            Err(Refusal::OutOfMemory) => self.met.add_beside(),
            Err(_) => return Err(Wrong::Answer),
        }
        self.twin.settle(1).map_err(|_| Wrong::RefusedAgain)
    }

    // One act of a settle of both; how many acts it took.
    fn settle_both(&mut self) -> Result<u64, Wrong> {
        let settled = self.settle_world()?;
        if settled != self.settle_twin()? {
            return Err(Wrong::Apart);
        }
        self.compare(Wrong::Apart)?;
        match settled {
            Settled::Settled { after } => Ok(after),
            Settled::Unsettled => Ok(1),
        }
    }
}

impl Subject for Twins {
    // Both take it: they answer the same, and are alike after it.
    fn take(&mut self, ask: Ask) -> Result<Reply, Wrong> {
        let reply = self.ask_on(Which::World, ask)?;
        let twin = self.ask_on(Which::Twin, ask)?;
        if !are_same(&reply, &twin) {
            return Err(Wrong::Apart);
        }
        self.compare(Wrong::Apart)?;
        Ok(reply)
    }

    fn settle_once(&mut self) -> Result<Option<u64>, Wrong> {
        match self.way {
            Way::Steps => Ok(None),
            Way::Calls => Ok(Some(self.settle_both()?)),
        }
    }

    fn claimed(&mut self) -> u64 {
        self.world.claimed()
    }

    fn word(&mut self, i: u64) -> Option<u64> {
        self.world.word(i)
    }

    fn holder_of(&mut self, end: End) -> Option<u8> {
        self.world.holder_of(end)
    }
}

/// Runs a row on a world and its twin: how often memory was refused on the way, or at which move it goes wrong, counted from 1.
pub fn run_on_twins(alloc: Global, row: &Row, way: Way) -> Result<Met, (usize, Wrong)> {
    let mut twins = Twins::new(alloc, way, row.nodes, row.words).map_err(|why| (0, why))?;
    make_moves(&mut twins, row)?;
    Ok(twins.met)
}

// Makes a world of one or two nodes.
fn make_world(alloc: Global, nodes: u8, words: u32) -> Result<World, Refusal> {
    match (nodes, words) {
        (1, 1..=4096) => World::new(alloc, 1, words),
        (2, 1..=4096) => World::new(alloc, 2, words),
        _ => Err(Refusal::Stranger),
    }
}

// Makes a world, a second time if no memory was found.
fn new_world(alloc: Global, nodes: u8, words: u32, met: &mut Met) -> Result<World, Wrong> {
    match make_world(alloc, nodes, words) {
        Ok(world) => return Ok(world),
        Err(Refusal::OutOfMemory) => met.add_beside(),
        Err(_) => return Err(Wrong::Answer),
    }
    make_world(alloc, nodes, words).map_err(|_| Wrong::RefusedAgain)
}
