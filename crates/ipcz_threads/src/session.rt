//! The workers of a script's nodes, with its names.
ghost use Rattle.std.specs.Prelude.{◌≡◌, false, IfOk};
ghost use Rattle.ipcz_threads.specs.Stages.{AreTurns, CallsHolder, CallsNamed, Opens, Puts, Runs, Settles, SettlesTo, Shows, TurnsTo};
ghost use Rattle.ipcz_threads.specs.Workers.{CallsAt};
ghost use Rattle.ipcz_script.specs.Sessions.{is_want};
ghost use Rattle.ipcz_threads.specs.declared.call.Call.TheVariants as calls;

use crate::call::Call;
use crate::worker::NodeWorker;
use crate::workers::{are_quiet, call_at, holder_from, is_some_starved, left_after, take_round};
use ipcz_base::{Bytes, End, Sequence};
use ipcz_fabric::{FabricName, Gate};
use ipcz_script::{Command, Labels, Said, Text, Titles, answer_to, is_idle, is_want};
use ipcz_world::Reply;
use std::alloc::{AllocError, Global};
use std::marker::Model;
use std::thread::Threads;

/// The workers of a script's nodes, with the ends that its names are bound to (docs/SCRIPTS.md, "The script").
#[derive(Drop)]
pub(crate) struct Session<'a, F: FabricName, G> {
    pub(crate) workers: Vec<NodeWorker<'a, F, G>>,
    pub(crate) labels: Labels,
    pub(crate) alloc: Global,
}

impl<'a, F: FabricName, G> Model for Session<'a, F, G> {
    ghost use Rattle.std.specs.FinMap.{code};
    ghost use Rattle.std.specs.FinSet as sets;
    ghost use Rattle.std.specs.Coded.{codes};
    ghost use Rattle.ipcz_threads.specs.Stages.{Stage};

    ghost Value = { Stage };

    ghost coded = { Prim.hlevel (codes, code, sets.code) };

    ghost view = { λ s. record { workers = s.workers.items; labels = s.labels } };
}

impl<'a, F: FabricName, G> Session<'a, F, G> {
    /// The names that ends have.
    pub(crate) fn titles(&self) -> &Titles
        ensures titles { result.now ≡ self.now.labels.titles }
    {
        self.labels.titles()
    }

    // A call at a node; want of memory is no reply.
    fn reply(&mut self, node: usize, call: Call) -> Result<Reply, AllocError>
        ensures reply { IfOk result (λ reply. CallsAt F.table self.old.workers node call reply self.new.workers × (is_want reply ≡ false)) }
        ensures labels { self.new.labels ≡ self.old.labels }
    {
        let reply = call_at(self.workers.as_mut_slice(), node, call);
        if is_want(&reply) {
            return Err(AllocError);
        }
        Ok(reply)
    }

    // Opens a pair on a node, and gives its ends their names.
    #[tactic(auto, unfolding(ipcz_script::specs::Sessions::answer_to, crate::specs::Stages::named))]
    fn open(&mut self, node: usize, first: &str, second: &str) -> Result<Said, AllocError>
        ensures { IfOk result (λ said. Opens F.table self.old node first.now second.now said self.new) }
    {
        let reply = self.reply(node, Call::Open)?;
        if let Reply::Opened(a, b) = reply {
            self.labels.bind(first, a)?;
            self.labels.bind(second, b)?;
            return Ok(Said::Opened);
        }
        answer_to(self.alloc, reply)
    }

    // A call at the node whose callers hold the end.
    fn call(&mut self, end: End, call: Call) -> Result<Said, AllocError>
        ensures { IfOk result (λ said. CallsHolder F.table self.old end call said self.new) }
    {
        let Some(node) = holder_from(self.workers.as_slice(), 0, end) else {
            return Ok(Said::Away);
        };
        let reply = self.reply(node, call)?;
        answer_to(self.alloc, reply)
    }

    fn put(&mut self, at: &str, text: &str, attached: &[Text]) -> Result<Said, AllocError>
        ensures { IfOk result (λ said. Puts F.table self.old at.now text.now attached.now said self.new) }
    {
        let Some(end) = self.labels.end_of(at) else {
            return Ok(Said::UnknownName);
        };
        let Some(ends) = self.labels.ends_of(attached)? else {
            return Ok(Said::UnknownName);
        };
        let bytes = Bytes::from_slice(self.alloc, text.as_bytes())?;
        self.call(
            end,
            Call::Put {
                at: end,
                bytes,
                ends,
            },
        )
    }

    fn get(&mut self, at: &str) -> Result<Said, AllocError>
        ensures { IfOk result (λ said. CallsNamed F.table self.old at.now calls.Get said self.new) }
    {
        let Some(end) = self.labels.end_of(at) else {
            return Ok(Said::UnknownName);
        };
        self.call(end, Call::Get { at: end })
    }

    fn close(&mut self, at: &str) -> Result<Said, AllocError>
        ensures { IfOk result (λ said. CallsNamed F.table self.old at.now calls.Close said self.new) }
    {
        let Some(end) = self.labels.end_of(at) else {
            return Ok(Said::UnknownName);
        };
        self.call(end, Call::Close { at: end })
    }

    // Lets a node take so many turns, ended at the first that is idle.
    fn turn(&mut self, node: usize, count: u32) -> Result<Said, AllocError>
        ensures turns { IfOk result (λ said. TurnsTo F.table count node self.old.workers said self.new.workers) }
        ensures labels { self.new.labels ≡ self.old.labels }
    {
        let turns = take_turns(self.alloc, self.workers.as_mut_slice(), node, count)?;
        Ok(Said::Turned(Sequence::from_vec(turns)))
    }

    // The claimed link words, as the first node's cell finds them.
    fn show(&mut self) -> Result<Said, AllocError>
        ensures { IfOk result (λ said. Shows F.table self.old said self.new) }
    {
        let Some(worker) = self.workers.first_mut() else {
            return Ok(Said::Words(Sequence::from_vec(Vec::new(self.alloc))));
        };
        let words = worker.words(self.alloc)?;
        Ok(Said::Words(Sequence::from_vec(words)))
    }
}

impl<'a, F: FabricName + Send + Sync, G: Gate + Send> Session<'a, F, G> {
    // Lets the nodes take rounds of turns until none has anything to do, or so many acts were taken.
    fn settle<R: Threads + Sync>(&mut self, rt: &R, limit: u32) -> Result<Said, AllocError>
        ensures settles { IfOk result (λ said. SettlesTo G.answers F.table limit self.old.workers said self.new.workers) }
        ensures labels { self.new.labels ≡ self.old.labels }
    {
        if settle(rt, self.workers.as_mut_slice(), limit)? {
            Ok(Said::Settled)
        } else {
            Ok(Said::Unsettled)
        }
    }

    /// Runs a command and gives its answer. If no memory is found, the run is over, and the session is of no more use.
    pub(crate) fn run<R: Threads + Sync>(
        &mut self,
        rt: &R,
        command: &Command,
    ) -> Result<Said, AllocError>
        ensures { IfOk result (λ said. Runs G.answers F.table self.old command.now said self.new) }
    {
        match command {
            Command::Open {
                node,
                first,
                second,
            } => self.open(*node as usize, first.as_str(), second.as_str()),
            Command::Put { at, data, ends } => {
                self.put(at.as_str(), data.as_str(), ends.as_slice())
            }
            Command::Get { at } => self.get(at.as_str()),
            Command::Close { at } => self.close(at.as_str()),
            Command::Turn { node, count } => self.turn(*node as usize, *count),
            Command::Settle { limit } => self.settle(rt, *limit),
            Command::Show => self.show(),
        }
    }
}

// Lets a node take so many turns, ended at the first that is idle, and gives the replies.
fn take_turns<'a, F: FabricName, G>(
    alloc: Global,
    workers: &mut [NodeWorker<'a, F, G>],
    node: usize,
    count: u32,
) -> Result<Vec<Reply>, AllocError>
    ensures { IfOk result (λ turns. AreTurns F.table count node workers.old turns.items workers.new) }
{
    let mut turns = Vec::new(alloc);
    let mut left = count;
    while left > 0 {
        let reply = call_at(workers, node, Call::Turn);
        if is_want(&reply) {
            return Err(AllocError);
        }
        let idle = is_idle(&reply);
        turns.push(reply)?;
        if idle {
            return Ok(turns);
        }
        left -= 1;
    }
    Ok(turns)
}

// Lets the nodes take rounds of turns until none has anything to do, or so many acts were taken. It says whether none has.
fn settle<'a, R: Threads + Sync, F: FabricName + Send + Sync, G: Gate + Send>(
    rt: &R,
    workers: &mut [NodeWorker<'a, F, G>],
    limit: u32,
) -> Result<bool, AllocError>
    ensures { IfOk result (λ quiet. Settles G.answers F.table limit workers.old quiet workers.new) }
{
    let count = workers.len();
    let mut left = u64::from(limit);
    while left > 0 {
        if are_quiet(workers, 0, count) {
            return Ok(true);
        }
        take_round(rt, workers, left);
        if is_some_starved(workers) {
            return Err(AllocError);
        }
        left = left_after(workers, left);
    }
    Ok(are_quiet(workers, 0, count))
}
