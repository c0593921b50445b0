//! Workers: what takes turns of a node and asks before each.
ghost use Rattle.std.specs.Prelude.{◌≡◌, ◌≤◌, ◌<◌, ◌+◌, ◌-◌, ◌^◌};
ghost use Rattle.ipcz_fabric.specs.Workers.{IsWork, IsWorkOf, Works, counted, turns_among};

use crate::caller::Caller;
use crate::hub::Hub;
use ipcz_base::Refusal;
use ipcz_cell::{FabricName, Ticket};
use ipcz_node::Happened;
use std::mem;
use std::sync::Wait;
use std::time::Duration;

/// Says whether a node is to take a turn.
pub trait Gate {
    ghost use Rattle.std.specs.Prelude.{ℕ, Bool};

    /// What it may answer when it is asked whether a node takes a turn more: the node's number, how many it has taken, and the answer. If an
    /// `impl` doesn't say, any.
    ghost answers: { ℕ → ℕ → Bool → Type 0 } = { λ node turns may. Unit {0} };

    /// Whether the node of this number may take a turn, after its worker has taken so many. It is asked without any lock.
    fn pass(&mut self, node: u8, turns: u64) -> bool
        ensures { answers node turns result };
}

/// What takes turns one by one, as `run_worker` lets it.
pub trait Worker {
    ghost use Rattle.std.specs.Prelude.{ℕ, Bool};
    ghost use Rattle.ipcz_fabric.specs.Workers.{Answer};

    /// What it may answer when it is asked whether it takes a turn more: its state, how many it has taken, the answer, and its state then.
    ghost asks: { Self → ℕ → Bool → Self → Type 0 };

    /// How a turn may be answered: its state, the answer, and its state then.
    ghost takes: { Self → Answer → Self → Type 0 };

    /// Which answers end the work.
    ghost ends: { Answer → Bool };

    /// Whether it takes a turn more, after it has taken so many.
    fn may_turn(&mut self, turns: u64) -> bool
        ensures { asks self.old turns result self.new };

    /// Takes a turn.
    fn turn(&mut self) -> Result<Happened, Refusal>
        ensures { takes self.old result self.new };

    /// Whether a turn that is answered this was the last.
    fn is_last(&self, answer: &Result<Happened, Refusal>) -> bool
        ensures { result ≡ ends answer.now };
}

// How many turns were taken, with one that was answered this.
fn counted(turns: u64, answer: &Result<Happened, Refusal>) -> u64
    requires { turns < 2 ^ 64 - 1 }
    ensures { result ≡ counted turns answer.now }
{
    match answer {
        Ok(_) => turns + 1,
        Err(_) => turns,
    }
}

/// Lets a worker take turns: before each it is asked whether it takes one. It ends when the worker takes none, at an answer that is its last,
/// and after `limit` turns, and gives how many were taken. A last turn that was refused isn't counted; each other one is.
pub fn run_worker<W: Worker>(worker: &mut W, limit: u64) -> u64
    ensures works { Works W.asks W.takes W.ends limit 0 worker.old result worker.new }
    ensures few { result ≤ limit }
{
    for turns in 0..limit {
        if !worker.may_turn(turns) {
            return turns;
        }
        let answer = worker.turn();
        if worker.is_last(&answer) {
            return counted(turns, &answer);
        }
    }
    limit
}

// What tells of a ring of a node's bell from now on, if that is wanted.
fn ticket<F: FabricName>(hub: &Hub<F>, node: u8, is_wanted: bool) -> Option<Ticket> {
    if is_wanted {
        Some(hub.fabric().bells().watch(node))
    } else {
        None
    }
}

// Sleeps until a node's bell is rung, if it is watched.
fn sleep<R: Wait, F: FabricName>(
    rt: &R,
    hub: &Hub<F>,
    node: u8,
    ticket: Option<Ticket>,
    limit: Option<Duration>,
) {
    if let Some(ticket) = ticket {
        if let Some(limit) = limit {
            hub.fabric().bells().sleep(rt, node, ticket, limit);
        }
    }
}

// A worker of one node of a hub, which asks a gate, and takes its turns as one caller. If it has a limit for a sleep, it watches the node's bell
// behind an idle turn, before it asks the gate again, and sleeps behind the next one that is idle: so neither a message nor a word to the gate is
// missed. In which states its turns find the node is known only under the lock.
#[derive(Drop)]
struct HubWorker<'a, R, F: FabricName, G> {
    rt: &'a R,
    hub: &'a Hub<F>,
    me: Caller<F>,
    node: u8,
    gate: &'a mut G,
    limit: Option<Duration>,
    idle: bool,
    ticket: Option<Ticket>,
}

impl<'a, R: Wait, F: FabricName, G: Gate> Worker for HubWorker<'a, R, F, G> {
    ghost use Rattle.std.specs.Prelude.{◌≡◌, ◌<◌};
    ghost use Rattle.ipcz_fabric.specs.Hubs.{ExtendsByTurn, IsTurnAnswer};
    ghost use Rattle.ipcz_fabric.specs.Workers.{ends_work};

    ghost asks = { λ s turns may t. G.answers s.node turns may × (t.node ≡ s.node) × (t.me ≡ s.me) };

    ghost takes = { λ s answer t. (s.node < F.table.count → IsTurnAnswer F.table s.node answer) ×
        (s.node < F.table.count → ExtendsByTurn F.table s.node answer s.me t.me) × (t.node ≡ s.node) };

    ghost ends = { ends_work };

    fn may_turn(&mut self, turns: u64) -> bool {
        self.ticket = ticket(self.hub, self.node, self.limit.is_some() && self.idle);
        self.gate.pass(self.node, turns)
    }

    fn turn(&mut self) -> Result<Happened, Refusal> {
        let (answer, asks_again) = self.me.turn_asking(self.rt, self.hub, self.node);
        self.idle = matches!(&answer, Ok(Happened::Idle)) && !asks_again;
        if self.idle {
            sleep(self.rt, self.hub, self.node, self.ticket, self.limit);
        }
        answer
    }

    fn is_last(&self, answer: &Result<Happened, Refusal>) -> bool {
        matches!(answer, Err(Refusal::OutOfMemory | Refusal::NumbersEnd))
    }
}

impl<F: FabricName> Caller<F> {
    // Takes turns of a node of a hub, as `work`, and sleeps after each idle one if it has a limit for that.
    fn take_turns<R: Wait, G: Gate>(
        &mut self,
        rt: &R,
        hub: &Hub<F>,
        node: u8,
        gate: &mut G,
        limit: u64,
        limit_of_sleep: Option<Duration>,
    ) -> u64
        ensures works { node < F.table.count → IsWork F.table node G.answers limit result }
        ensures few { result ≤ limit }
        ensures stranger { F.table.count ≤ node → result ≡ 0 }
        ensures extends { node < F.table.count → IsWorkOf F.table node G.answers limit self.old result self.new }
        ensures counts { turns_among self.new.mine ≡ turns_among self.old.mine + result }
        ensures none { F.table.count ≤ node → self.new ≡ self.old }
    {
        if node >= hub.nodes() {
            return 0;
        }
        let mut worker = HubWorker {
            rt,
            hub,
            me: mem::replace(self, hub.caller()),
            node,
            gate,
            limit: limit_of_sleep,
            idle: false,
            ticket: None,
        };
        let turns = run_worker(&mut worker, limit);
        *self = worker.me;
        turns
    }

    /// Takes turns of a node, one by one, as [`work`]. Each of them is a call, also one that is refused, and behind an idle one so is the
    /// [`Caller::retry`] that follows under the same hold of the lock. So the caller has just as many turns more among its own calls as the
    /// number says, but for a last one whose refusal ended the work.
    ///
    /// It is never refused. At a node that isn't there it gives 0 and calls nothing, and the caller stays as it was.
    ///
    /// So `me.work(rt, &hub, 0, &mut gate, 100)` takes a hundred turns of node 0 at most.
    pub fn work<R: Wait, G: Gate>(
        &mut self,
        rt: &R,
        hub: &Hub<F>,
        node: u8,
        gate: &mut G,
        limit: u64,
    ) -> u64
        ensures works { node < F.table.count → IsWork F.table node G.answers limit result }
        ensures few { result ≤ limit }
        ensures stranger { F.table.count ≤ node → result ≡ 0 }
        ensures extends { node < F.table.count → IsWorkOf F.table node G.answers limit self.old result self.new }
        ensures counts { turns_among self.new.mine ≡ turns_among self.old.mine + result }
        ensures none { F.table.count ≤ node → self.new ≡ self.old }
    {
        self.take_turns(rt, hub, node, gate, limit, None)
    }

    /// Takes turns of a node, and sleeps if two in a row are idle, for no longer than `limit_of_sleep`, as [`work_waiting`]. Which calls they are
    /// [`Caller::work`] says.
    ///
    /// It is never refused. At a node that isn't there it gives 0 and calls nothing, and the caller stays as it was.
    ///
    /// So `me.work_waiting(rt, &hub, 0, &mut gate, u64::MAX, Duration::MAX)` serves node 0 until the gate answers false.
    pub fn work_waiting<R: Wait, G: Gate>(
        &mut self,
        rt: &R,
        hub: &Hub<F>,
        node: u8,
        gate: &mut G,
        limit: u64,
        limit_of_sleep: Duration,
    ) -> u64
        ensures works { node < F.table.count → IsWork F.table node G.answers limit result }
        ensures few { result ≤ limit }
        ensures stranger { F.table.count ≤ node → result ≡ 0 }
        ensures extends { node < F.table.count → IsWorkOf F.table node G.answers limit self.old result self.new }
        ensures counts { turns_among self.new.mine ≡ turns_among self.old.mine + result }
        ensures none { F.table.count ≤ node → self.new ≡ self.old }
    {
        self.take_turns(rt, hub, node, gate, limit, Some(limit_of_sleep))
    }
}

/// Takes turns of a node of a hub, one by one, each under the node's lock, and gives how many were taken, idle ones included.
///
/// Before each turn it asks the gate, without any lock, and ends if that answers false; it ends after `limit` turns, and at a turn that
/// is refused `OutOfMemory` or `NumbersEnd`, which isn't counted. One that is refused `Raced` is counted, and it goes on. For a node that
/// isn't below the number of nodes it gives 0 and asks nothing. It is never refused itself. [`Caller::work`] says besides which calls of a
/// caller these turns are.
///
/// So `work(rt, &hub, 0, &mut gate, 100)` takes a hundred turns of node 0 at most.
pub fn work<R: Wait, F: FabricName, G: Gate>(
    rt: &R,
    hub: &Hub<F>,
    node: u8,
    gate: &mut G,
    limit: u64,
) -> u64
    ensures works { node < F.table.count → IsWork F.table node G.answers limit result }
    ensures few { result ≤ limit }
    ensures stranger { F.table.count ≤ node → result ≡ 0 }
{
    hub.caller().work(rt, hub, node, gate, limit)
}

/// Takes turns of a node of a hub, as `work`, and sleeps if two in a row are idle, as `Hub::turn_or_wait`, for no longer than
/// `limit_of_sleep`; `Duration::MAX` is without end. So the gate is asked at least that often, and `Hub::notify_all` has it asked again:
/// what the gate looks at is to be changed before that is called. It is never refused itself.
///
/// So `work_waiting(rt, &hub, 0, &mut gate, u64::MAX, Duration::MAX)` serves node 0 until the gate answers false.
pub fn work_waiting<R: Wait, F: FabricName, G: Gate>(
    rt: &R,
    hub: &Hub<F>,
    node: u8,
    gate: &mut G,
    limit: u64,
    limit_of_sleep: Duration,
) -> u64
    ensures works { node < F.table.count → IsWork F.table node G.answers limit result }
    ensures few { result ≤ limit }
    ensures stranger { F.table.count ≤ node → result ≡ 0 }
{
    hub.caller()
        .work_waiting(rt, hub, node, gate, limit, limit_of_sleep)
}
