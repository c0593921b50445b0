//! A node's cell with its gate, as a thread has both for a round.
ghost use Rattle.std.specs.Prelude.{◌≡◌, IfOk};
ghost use Rattle.ipcz_cell.specs.Opens.{FindsQuiet, OpensPair};
ghost use Rattle.ipcz_node.specs.Node.{holds_end};
ghost use Rattle.ipcz_threads.specs.Rounds.{ends_round, finds_no_memory};
ghost use Rattle.ipcz_threads.specs.Shows.{TellsWords};
ghost use Rattle.ipcz_threads.specs.Workers.{CallsWorker, Puts, opened, put};

use crate::call::Call;
use ipcz_base::{Bytes, End, Ends, Refusal};
use ipcz_fabric::{Fabric, FabricName, Gate, NodeCell, Worker};
use ipcz_node::Happened;
use ipcz_world::Reply;
use std::alloc::{AllocError, Global};
use std::marker::Model;

/// A node's cell with what a worker needs that takes its turns: the table, and the gate that it asks before each.
#[derive(Drop)]
pub(crate) struct NodeWorker<'a, F: FabricName, G> {
    pub(crate) fabric: &'a Fabric<F>,
    pub(crate) cell: NodeCell<F>,
    pub(crate) gate: &'a mut G,
    /// Whether some turn in a round found no memory.
    pub(crate) starved: bool,
    /// How many acts it may still take in the round.
    pub(crate) left: u64,
}

impl<'a, F: FabricName, G> Model for NodeWorker<'a, F, G> {
    ghost use Rattle.std.specs.FinMap.{code};
    ghost use Rattle.std.specs.FinSet as sets;
    ghost use Rattle.std.specs.Coded.{codes};
    ghost use Rattle.ipcz_threads.specs.Workers.{WorkerState};

    ghost Value = { WorkerState };

    ghost coded = { Prim.hlevel (codes, code, sets.code) };

    ghost view = { λ w. record { cell = w.cell; starved = w.starved; left = w.left } };
}

// What is replied if an open answers this.
fn opened(answer: Result<(End, End), Refusal>) -> Reply
    ensures { result ≡ opened answer }
{
    match answer {
        Ok((a, b)) => Reply::Opened(a, b),
        Err(why) => Reply::Refused(why),
    }
}

// What is replied if a put answers this.
fn put(answer: Result<u64, Refusal>) -> Reply
    ensures { result ≡ put answer }
{
    match answer {
        Ok(number) => Reply::Put(number),
        Err(why) => Reply::Refused(why),
    }
}

impl<'a, F: FabricName, G> NodeWorker<'a, F, G> {
    /// Whether callers of the node hold the end.
    pub(crate) fn holds(&self, end: End) -> bool
        ensures { result ≡ holds_end self.now.cell.part.state end }
    {
        self.cell.holds(end)
    }

    /// Whether the node has nothing to do, as its cell finds it.
    pub(crate) fn quiet(&mut self) -> bool
        ensures quiet { FindsQuiet F.table self.old.cell result self.new.cell }
        ensures starved { self.new.starved ≡ self.old.starved }
        ensures left { self.new.left ≡ self.old.left }
    {
        self.cell.quiet(self.fabric)
    }

    // Opens a pair.
    fn open(&mut self) -> Result<(End, End), Refusal>
        ensures opens { OpensPair F.table self.old.cell self.new.cell result }
        ensures starved { self.new.starved ≡ self.old.starved }
        ensures left { self.new.left ≡ self.old.left }
    {
        self.cell.open_pair(self.fabric)
    }

    // Puts a parcel at an end.
    fn put(&mut self, at: End, bytes: Bytes, ends: Ends) -> Result<u64, Refusal>
        ensures puts { Puts at bytes ends self.old.cell result self.new.cell }
        ensures starved { self.new.starved ≡ self.old.starved }
        ensures left { self.new.left ≡ self.old.left }
    {
        match self.cell.put(self.fabric, at, bytes, ends) {
            Ok(number) => Ok(number),
            Err(refused) => Err(refused.why),
        }
    }

    /// The claimed link words, as the cell finds them: as many as the claim count that it looks at first, or fewer if one isn't there.
    pub(crate) fn words(&mut self, alloc: Global) -> Result<Vec<u64>, AllocError>
        ensures { IfOk result (λ words. TellsWords F.table self.old words.items self.new) }
    {
        let mut words = Vec::new(alloc);
        let claimed = self.cell.claimed(self.fabric);
        for i in 0..claimed {
            let Some(word) = self.cell.word(self.fabric, i) else {
                return Ok(words);
            };
            words.push(word)?;
        }
        Ok(words)
    }

    /// Makes a call on the cell.
    pub(crate) fn call(&mut self, call: Call) -> Reply
        ensures { CallsWorker F.table self.old call result self.new }
    {
        match call {
            Call::Open => opened(self.open()),
            Call::Put { at, bytes, ends } => put(self.put(at, bytes, ends)),
            Call::Get { at } => match self.cell.get(self.fabric, at) {
                Ok((number, parcel)) => Reply::Got(number, parcel),
                Err(why) => Reply::Refused(why),
            },
            Call::Close { at } => match self.cell.close(self.fabric, at) {
                Ok(number) => Reply::Closed(number),
                Err(why) => Reply::Refused(why),
            },
            Call::Turn => match self.cell.turn(self.fabric) {
                Ok(event) => Reply::Turned(event),
                Err(why) => Reply::Refused(why),
            },
        }
    }
}

// Whether a turn found no memory.
fn finds_no_memory(answer: &Result<Happened, Refusal>) -> bool
    ensures { result ≡ finds_no_memory answer.now }
{
    matches!(answer, Err(Refusal::OutOfMemory))
}

// Whether a round ends with a turn that is answered this.
fn ends_round(answer: &Result<Happened, Refusal>) -> bool
    ensures { result ≡ ends_round answer.now }
{
    matches!(
        answer,
        Ok(Happened::Idle) | Err(Refusal::OutOfMemory | Refusal::NumbersEnd)
    )
}

impl<'a, F: FabricName, G: Gate> Worker for NodeWorker<'a, F, G> {
    ghost use Rattle.ipcz_threads.specs.Rounds.{Asks, Takes, ends_round};

    ghost asks = { Asks G.answers };

    ghost takes = { Takes F.table };

    ghost ends = { ends_round };

    fn may_turn(&mut self, turns: u64) -> bool {
        let node = self.cell.node();
        self.gate.pass(node, turns)
    }

    fn turn(&mut self) -> Result<Happened, Refusal> {
        let answer = self.cell.turn(self.fabric);
        self.starved |= finds_no_memory(&answer);
        if !ends_round(&answer) {
            self.left = self.left.saturating_sub(1);
        }
        answer
    }

    fn is_last(&self, answer: &Result<Happened, Refusal>) -> bool {
        ends_round(answer)
    }
}
