//! Cells of one table on one thread. What can be read of them without memory is read before each call, and must be the same if the call
//! was refused memory; then it is made again. At the end they are turned into a world.
ghost use Rattle.std.specs.Prelude.{◌≡◌};

use crate::asking::lists;
use crate::met::{Met, Wrong, answered};
use crate::moves::{Ask, Row};
use crate::subject::Subject;
use crate::trial::make_moves;
use ipcz_base::{End, Refusal, Side};
use ipcz_fabric::{Blank, Fabric, FabricName, NodeCell, finish, start};
use ipcz_node::{Act, Happened};
use ipcz_world::{Reply, World};
use std::alloc::{AllocError, Global};
use std::marker::Brand;

/// What can be read of a node's cell, and of the table from there.
#[derive(Clone, Copy, PartialEq)]
struct Reading {
    claimed: u64,
    words: [Option<u64>; 4],
    /// Which ends of the first four pairs callers of the node hold.
    holds: [[bool; 2]; 4],
    act: Act,
    quiet: bool,
}

/// The cells of a table, and how often memory was refused.
#[derive(Drop)]
struct Cells<F: FabricName> {
    fabric: Fabric<F>,
    cells: Vec<NodeCell<F>>,
    alloc: Global,
    met: Met,
}

// Which ends of a pair callers of the node hold.
fn holds_of<F: FabricName>(cell: &NodeCell<F>, pair: u64) -> [bool; 2] {
    let end = End {
        pair,
        side: Side::A,
    };
    [cell.holds(end), cell.holds(end.opposite())]
}

// What can be read of a cell.
fn read<F: FabricName>(fabric: &Fabric<F>, cell: &mut NodeCell<F>) -> Reading {
    Reading {
        claimed: cell.claimed(fabric),
        words: [
            cell.word(fabric, 0),
            cell.word(fabric, 1),
            cell.word(fabric, 2),
            cell.word(fabric, 3),
        ],
        holds: [
            holds_of(cell, 0),
            holds_of(cell, 1),
            holds_of(cell, 2),
            holds_of(cell, 3),
        ],
        act: cell.act(fabric),
        quiet: cell.quiet(fabric),
    }
}

// The answer of a put; a refused one hands its lists back.
fn put<F: FabricName>(
    fabric: &Fabric<F>,
    cell: &mut NodeCell<F>,
    alloc: Global,
    at: End,
    data: &[u8],
    attached: &[End],
) -> Result<Reply, AllocError> {
    let (bytes, ends) = lists(alloc, data, attached)?;
    match cell.put(fabric, at, bytes, ends) {
        Ok(number) => Ok(Reply::Put(number)),
        Err(refused) => {
            if refused.bytes.as_slice() == data && refused.ends.as_slice() == attached {
                Ok(Reply::Refused(refused.why))
            } else {
                Ok(Reply::Refused(Refusal::Stranger))
            }
        }
    }
}

// The answer of an open, a get, a close or a turn.
fn call<F: FabricName>(
    fabric: &Fabric<F>,
    cell: &mut NodeCell<F>,
    ask: Ask,
) -> Result<Reply, Refusal> {
    match ask {
        Ask::Open(_) => {
            let (first, second) = cell.open_pair(fabric)?;
            Ok(Reply::Opened(first, second))
        }
        Ask::Get(_, at) => {
            let (number, parcel) = cell.get(fabric, at)?;
            Ok(Reply::Got(number, parcel))
        }
        Ask::Close(_, at) => Ok(Reply::Closed(cell.close(fabric, at)?)),
        Ask::Turn(_) => Ok(Reply::Turned(cell.turn(fabric)?)),
        Ask::Put(..) => Err(Refusal::Stranger),
    }
}

// The node that is asked.
fn node_of(ask: Ask) -> usize {
    let node = match ask {
        Ask::Open(node) | Ask::Turn(node) => node,
        Ask::Put(node, ..) => node,
        Ask::Get(node, _) | Ask::Close(node, _) => node,
    };
    node as usize
}

// Asks a cell once. No answer if there was no memory for what is asked.
fn ask_once<F: FabricName>(
    fabric: &Fabric<F>,
    cell: &mut NodeCell<F>,
    alloc: Global,
    ask: Ask,
) -> Result<Reply, AllocError> {
    if let Ask::Put(_, at, data, attached) = ask {
        return put(fabric, cell, alloc, at, data, attached);
    }
    match call(fabric, cell, ask) {
        Ok(reply) => Ok(reply),
        Err(why) => Ok(Reply::Refused(why)),
    }
}

// Asks a cell; if memory is refused, all is as it was, and it is asked again.
fn ask<F: FabricName>(
    fabric: &Fabric<F>,
    cell: &mut NodeCell<F>,
    alloc: Global,
    ask: Ask,
    met: &mut Met,
) -> Result<Reply, Wrong> {
    let before = read(fabric, cell);
    match ask_once(fabric, cell, alloc, ask) {
        Ok(Reply::Refused(Refusal::OutOfMemory)) => met.add_refused(),
        Ok(reply) => return Ok(reply),
        Err(AllocError) => met.add_beside(),
    }
    if read(fabric, cell) != before {
        return Err(Wrong::Changed);
    }
    answered(ask_once(fabric, cell, alloc, ask))
}

impl<F: FabricName> Cells<F> {
    // Asks the cell of a node.
    fn ask(&mut self, what: Ask) -> Result<Reply, Wrong> {
        match self.cells.as_mut_slice().get_mut(node_of(what)) {
            Some(cell) => ask(&self.fabric, cell, self.alloc, what, &mut self.met),
            None => Err(Wrong::Answer),
        }
    }

    // What can be read of the cell of a node.
    fn reading(&mut self, node: usize) -> Option<Reading> {
        match self.cells.as_mut_slice().get_mut(node) {
            Some(cell) => Some(read(&self.fabric, cell)),
            None => None,
        }
    }
}

impl<F: FabricName> Subject for Cells<F> {
    // A begin or a retire that finds no memory is a lock that is given back: the turn after it gets the lock again, and the next begins or
    // retires.
    fn take(&mut self, what: Ask) -> Result<Reply, Wrong> {
        let before = self.reading(node_of(what));
        let reply = self.ask(what)?;
        let Reply::Turned(Happened::Unlock(serial, link, _)) = reply else {
            return Ok(reply);
        };
        self.met.add_unlocked();
        match self.ask(what)? {
            Reply::Turned(Happened::Lock(router, again, _)) if router == serial && again == link =>
                {}
            _ => return Err(Wrong::Answer),
        }
        if self.reading(node_of(what)) != before {
            return Err(Wrong::Changed);
        }
        self.ask(what)
    }

    fn settle_once(&mut self) -> Result<Option<u64>, Wrong> {
        Ok(None)
    }

    fn claimed(&mut self) -> u64 {
        match self.cells.as_mut_slice().first_mut() {
            Some(cell) => cell.claimed(&self.fabric),
            None => 0,
        }
    }

    fn word(&mut self, i: u64) -> Option<u64> {
        match self.cells.as_mut_slice().first_mut() {
            Some(cell) => cell.word(&self.fabric, i),
            None => None,
        }
    }

    fn holder_of(&mut self, end: End) -> Option<u8> {
        for (node, cell) in (0u8..).zip(self.cells.iter()) {
            if cell.holds(end) {
                return Some(node);
            }
        }
        None
    }
}

/// Names a table, a second time if no memory was found.
pub fn name<F: FabricName>(
    blank: Blank,
    met: &mut Met,
) -> Result<(Fabric<F>, Vec<NodeCell<F>>), Wrong>
    requires { blank ≡ F.table }
{
    match blank.name::<F>() {
        Ok(named) => Ok(named),
        Err((_, blank)) => {
            met.add_refused();
            match blank.name::<F>() {
                Ok(named) => Ok(named),
                Err(_) => Err(Wrong::RefusedAgain),
            }
        }
    }
}

/// Turns cells into a world, a second time if no memory was found.
pub fn finish_again<F: FabricName>(
    fabric: Fabric<F>,
    cells: Vec<NodeCell<F>>,
    met: &mut Met,
) -> Result<World, Wrong> {
    match finish(fabric, cells) {
        Ok(world) => Ok(world),
        Err((Refusal::OutOfMemory, fabric, cells)) => {
            met.add_refused();
            match finish(fabric, cells) {
                Ok(world) => Ok(world),
                Err(_) => Err(Wrong::RefusedAgain),
            }
        }
        Err(_) => Err(Wrong::Answer),
    }
}

// Runs a row on the cells of a table; and turns them into a world, which has the claimed words of the table.
fn run_on<F: FabricName>(
    alloc: Global,
    blank: Blank,
    row: &Row,
    met: Met,
) -> Result<Met, (usize, Wrong)>
    requires { blank ≡ F.table }
{
    let mut met = met;
    let (fabric, cells) = name::<F>(blank, &mut met).map_err(|why| (0, why))?;
    let mut subject = Cells {
        fabric,
        cells,
        alloc,
        met,
    };
    make_moves(&mut subject, row)?;
    let claimed = subject.claimed();
    let Cells {
        fabric,
        cells,
        alloc: _,
        met,
    } = subject;
    let mut met = met;
    match finish_again(fabric, cells, &mut met) {
        Ok(world) if world.claimed() == claimed => Ok(met),
        Ok(_) => Err((row.moves.len(), Wrong::Apart)),
        Err(why) => Err((row.moves.len(), why)),
    }
}

// Makes a table of one or two nodes.
fn make_table(alloc: Global, nodes: u8, words: u32) -> Result<Blank, Refusal> {
    match (nodes, words) {
        (1, 1..=4096) => start(alloc, 1, words),
        (2, 1..=4096) => start(alloc, 2, words),
        _ => Err(Refusal::Stranger),
    }
}

/// Makes a table, a second time if no memory was found.
pub fn make_again(alloc: Global, nodes: u8, words: u32, met: &mut Met) -> Result<Blank, Wrong> {
    match make_table(alloc, nodes, words) {
        Ok(blank) => return Ok(blank),
        Err(Refusal::OutOfMemory) => met.add_beside(),
        Err(_) => return Err(Wrong::Answer),
    }
    make_table(alloc, nodes, words).map_err(|_| Wrong::RefusedAgain)
}

/// Runs a row on cells: how often memory was refused on the way, or at which move it goes wrong, counted from 1.
pub fn run_on_cells(alloc: Global, row: &Row) -> Result<Met, (usize, Wrong)> {
    let mut met = Met::none();
    let blank = make_again(alloc, row.nodes, row.words, &mut met).map_err(|why| (0, why))?;
    run_on::<Brand>(alloc, blank, row, met)
}
