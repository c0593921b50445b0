//! Hubs: cells that threads share, each behind a lock of its own. There is no other lock.
ghost use Rattle.std.specs.Prelude.{◌≡◌, ◌≤◌, ◌<◌, [], true, None, OnOk, IfOk, IfErr, Err, length, vec_len, vec_capacity};
ghost use Rattle.std.specs.Sync.Mutex.{mutex_guard_value};
ghost use Rattle.ipcz_cell.specs.Ending.{FinishRefuses, is_in_order};
ghost use Rattle.ipcz_fabric.specs.Places.{IsCellOf};
ghost use Rattle.ipcz_fabric.specs.Sorting.{AreSorted, standing};
ghost use Rattle.ipcz_fabric.specs.Hubs.{AddsFirst, AddsHeld, AreFirstPortals, ArePair};
ghost use Rattle.ipcz_fabric.specs.Hubs.{AreTurnAnswers, ExtendsByTurn, IsOpenAnswer, IsOpenRefusal, IsReadyAnswer, IsRetryAnswer, IsTurnAnswer, IsTurnRefusal, TurnsAsking, is_again, is_idle};

use crate::caller::Caller;
use crate::chair_bells::ChairBells;
use crate::desk::Desk;
use crate::portal::Portal;
use crate::sorting::{cells_at, empty_places, put_in_place};
use ipcz_base::{End, Refusal};
use ipcz_cell::{CallerSeat, Fabric, FabricName, NodeCell, Retry};
use ipcz_node::Happened;
use std::alloc::{AllocError, Global};
use std::collections::VecDeque;
use std::marker::Model;
use std::sync::{Mutex, MutexGuard, Wait};
use std::time::Duration;

/// The cells of a table's nodes, that threads share: one lock round each cell, and no other.
///
/// What a call under a lock did is what the call of the cell says; the lock adds nothing to it, and takes nothing away.
#[derive(Drop)]
pub struct Hub<F: FabricName> {
    fabric: Fabric<F>,
    cells: Vec<Mutex<Desk<F>>>,
    chairs: ChairBells,
    alloc: Global,
}

impl<F: FabricName> Model for Hub<F> {
    ghost use Rattle.std.specs.Prelude.{◌≡◌, ℕ, vec_len};

    ghost Value = { ℕ };

    ghost view = { λ h. vec_len h.cells };

    ghost invariant = { λ h. vec_len h.cells ≡ F.table.count };
}

// Puts each of these cells on a desk, and a lock round it.
fn lock_all<F: FabricName>(
    fabric: &Fabric<F>,
    cells: Vec<NodeCell<F>>,
    mut locked: Vec<Mutex<Desk<F>>>,
) -> Vec<Mutex<Desk<F>>>
    requires room { vec_len cells ≤ vec_capacity locked }
    requires empty { vec_len locked ≡ 0 }
    ensures { vec_len result ≡ vec_len cells }
{
    let count = cells.len();
    let mut cells = VecDeque::from_vec(cells);
    for _done in 0..count {
        let Some(cell) = cells.pop_front() else {
            unreachable!()
        };
        locked.push_reserved(Mutex::new(Desk::new(fabric, cell)));
    }
    locked
}

// Takes each cell out of its lock, and puts it at the place of its node.
fn unlock_all<F: FabricName>(
    fabric: &Fabric<F>,
    locked: Vec<Mutex<Desk<F>>>,
    mut places: Vec<Option<NodeCell<F>>>,
) -> Vec<Option<NodeCell<F>>>
    requires locked { vec_len locked ≡ F.table.count }
    requires many { vec_len places ≡ F.table.count }
    requires none { standing places.items ≡ [] }
    ensures many { vec_len result ≡ F.table.count }
    ensures sorted { AreSorted 0 result.items }
    ensures all { length (standing result.items) ≡ F.table.count }
{
    let count = locked.len();
    let mut locked = VecDeque::from_vec(locked);
    for _done in 0..count {
        let Some(lock) = locked.pop_front() else {
            unreachable!()
        };
        put_in_place(fabric, &mut places, lock.into_inner().into_cell());
    }
    places
}

// Adds a portal for each end that callers of a cell's node hold, by the serial of the end's terminal.
fn add_held<F: FabricName>(
    cell: &NodeCell<F>,
    portals: &mut Vec<Portal<F>>,
) -> Result<(), AllocError>
    ensures { OnOk result (AddsHeld cell.now.part.state cell.now.part.node portals.old.items portals.new.items) }
{
    let node = cell.node();
    let mut from = 0;
    loop {
        let Some((serial, end)) = cell.held_from(from) else {
            return Ok(());
        };
        portals.push(Portal::new(node, end))?;
        if serial == u64::MAX {
            return Ok(());
        }
        from = serial + 1;
    }
}

// Adds a portal for each end that callers of these cells' nodes hold, one cell after the other.
fn add_first<F: FabricName>(
    cells: &[NodeCell<F>],
    portals: &mut Vec<Portal<F>>,
) -> Result<(), AllocError>
    ensures { OnOk result (AddsFirst cells.now portals.old.items portals.new.items) }
{
    match cells {
        [] => Ok(()),
        [cell, rest @ ..] => {
            add_held(cell, portals)?;
            add_first(rest, portals)
        }
    }
}

// Whether a turn found nothing to do.
fn is_idle(answer: &Result<Happened, Refusal>) -> bool
    ensures { result ≡ is_idle answer.now }
{
    matches!(answer, Ok(Happened::Idle))
}

// Whether a proxy asks again.
fn is_again(found: Retry) -> bool
    ensures { result ≡ is_again found }
{
    matches!(found, Retry::Again(_))
}

// Takes one turn of a desk's node. Behind an idle one it lets a proxy that waits for a slot ask again, and tells whether one does.
pub(crate) fn turn_asking_here<F: FabricName>(
    desk: &mut Desk<F>,
    hub: &Hub<F>,
    me: &mut CallerSeat<F>,
) -> (Result<Happened, Refusal>, bool)
    requires { IsCellOf F.table desk.old.part.node desk.old }
    ensures did { TurnsAsking F.table me.old.id desk.old result.0 result.1 desk.new }
    ensures extends { ExtendsByTurn F.table desk.old.part.node result.0 me.old me.new }
{
    let fabric = hub.fabric();
    let answer = desk.turn(hub, me);
    if is_idle(&answer) {
        let _node = desk.node();
        let found = desk.retry(fabric, me);
        return (answer, is_again(found));
    }
    (answer, false)
}

impl<F: FabricName> Hub<F> {
    /// A hub of a table's cells, and a portal for each end that callers of their nodes hold: by node, and then by the serial of the end's
    /// terminal.
    ///
    /// Refused `Stranger` if the cells' nodes aren't 0, 1, and so on to the last, in order; else `OutOfMemory` if there is no memory for the
    /// locks and the portals. A refusal gives the fabric and the cells back, as they were.
    ///
    /// Of a table of two nodes at its start it gives two portals: that of side A of pair 0 at node 0, and that of side B at node 1.
    pub fn new(
        fabric: Fabric<F>,
        cells: Vec<NodeCell<F>>,
    ) -> Result<(Hub<F>, Vec<Portal<F>>), (Refusal, Fabric<F>, Vec<NodeCell<F>>)>
        ensures cells { IfOk result (λ r. r.0 ≡ vec_len cells) }
        ensures portals { IfOk result (λ r. AreFirstPortals cells.items r.1.items) }
        ensures why { IfErr result (λ e. FinishRefuses F.table.count cells.items e.0) }
        ensures back { IfErr result (λ e. e.2.items ≡ cells.items) }
    {
        if !fabric.are_all(cells.as_slice()) {
            return Err((Refusal::Stranger, fabric, cells));
        }
        let alloc = *cells.allocator();
        let Ok(room) = Vec::with_capacity(alloc, cells.len()) else {
            return Err((Refusal::OutOfMemory, fabric, cells));
        };
        let Ok(chairs) = ChairBells::new(alloc, cells.len()) else {
            return Err((Refusal::OutOfMemory, fabric, cells));
        };
        let mut portals = Vec::new(alloc);
        if add_first(cells.as_slice(), &mut portals).is_err() {
            return Err((Refusal::OutOfMemory, fabric, cells));
        }
        let cells = lock_all(&fabric, cells, room);
        let hub = Hub {
            fabric,
            cells,
            chairs,
            alloc,
        };
        Ok((hub, portals))
    }

    // Locks a node's cell. A type doesn't say at which place a cell stands, so the cell is asked; were it another node's, the lock would be
    // taken again.
    pub(crate) fn lock<R: Wait>(&self, rt: &R, node: u8) -> MutexGuard<'_, Desk<F>>
        requires { node < F.table.count }
        ensures { IsCellOf F.table node (mutex_guard_value result) }
    {
        for _try in rt.forever() {
            let desk = self.cells[node as usize].lock(rt);
            if desk.node() == node {
                return desk;
            }
        }
        unreachable!()
    }

    /// A caller of the hub's nodes that has called nothing yet. What a caller calls stands in the histories of the nodes as its own
    /// (docs/THREADS.md). It takes no memory, and is never refused.
    ///
    /// So `let mut me = hub.caller();` gives a thread the caller for `me.turn(rt, &hub, 0)`.
    pub fn caller(&self) -> Caller<F>
        ensures { (result.seen ≡ []) × (result.mine ≡ []) }
    {
        Caller::new(self.fabric.caller())
    }

    // The table.
    pub(crate) fn fabric(&self) -> &Fabric<F> {
        &self.fabric
    }

    // The chairs of gets that sleep, with their bells.
    pub(crate) fn chairs(&self) -> &ChairBells {
        &self.chairs
    }

    // Where its lists take memory.
    pub(crate) fn allocator(&self) -> Global {
        self.alloc
    }

    /// Opens a pair at a node, under that node's lock, and gives its portals, of side A and of side B. What else holds of it is what
    /// `NodeCell::open_pair` says, of the cell as the call found it: it has no name here, so `answer` says that there is such a cell.
    ///
    /// Refused by the first of these that holds: `Stranger` if there is no node of that number; `NoWord` if no open is under way there and each
    /// link word was claimed; `NumbersEnd` if too few serials are left at the node for two routers; `OutOfMemory` if there is no memory for
    /// them; `NoWord` if slots are used again and none is to be had; and `Raced` if another node has claimed a word meanwhile: call again.
    ///
    /// So `let (a, b) = hub.open_pair(rt, 0)?;` gives two portals of node 0, each other's peers.
    pub fn open_pair<R: Wait>(&self, rt: &R, node: u8) -> Result<(Portal<F>, Portal<F>), Refusal>
        ensures here { IfOk result (λ p. (p.0.node ≡ node) × (p.1.node ≡ node)) }
        ensures pair { IfOk result (ArePair F.table.size node) }
        ensures stranger { F.table.count ≤ node → result ≡ Err Refusal.Stranger }
        ensures why { node < F.table.count → IfErr result IsOpenRefusal }
        ensures answer { node < F.table.count → IsOpenAnswer F.table node result }
    {
        self.caller().open_pair(rt, self, node)
    }

    /// Takes one turn of a node, under that node's lock, and tells what it did. What else holds of it is what `NodeCell::turn` says, of the
    /// cell as the call found it: it has no name here, so `answer` says that there is such a cell.
    ///
    /// Refused `Stranger` if there is no node of that number; `NumbersEnd` if the act would make more routers than there are serials left;
    /// `OutOfMemory` if the act wants memory and finds none, but a begin and a retire give their lock back instead; and `Raced` if another
    /// thread came between the load of a word and its exchange: call again. A refused turn changes nothing.
    ///
    /// Where nothing waits, `hub.turn(rt, 0)` is `Ok(Happened::Idle)`.
    pub fn turn<R: Wait>(&self, rt: &R, node: u8) -> Result<Happened, Refusal>
        ensures stranger { F.table.count ≤ node → result ≡ Err Refusal.Stranger }
        ensures why { node < F.table.count → IfErr result IsTurnRefusal }
        ensures answer { node < F.table.count → IsTurnAnswer F.table node result }
    {
        self.caller().turn(rt, self, node)
    }

    /// Takes turns of a node one after the other, under one hold of that node's lock, until one is idle, but no more than `limit`, and answers
    /// how many it has taken before the idle one. Callers of the node wait meanwhile. What else holds of it is what `NodeCell::acts` says, of
    /// the cell as the call found it: it has no name here, so `answer` says that there is such a cell.
    ///
    /// Refused `Stranger` if there is no node of that number; else `NumbersEnd`, `OutOfMemory` or `Raced`, as the first turn that is refused
    /// ([`Hub::turn`] says when). What the turns before have done stays.
    ///
    /// Where nothing waits, `hub.acts(rt, 0, 100)` is `Ok(0)`.
    pub fn acts<R: Wait>(&self, rt: &R, node: u8, limit: u64) -> Result<u64, Refusal>
        ensures stranger { F.table.count ≤ node → result ≡ Err Refusal.Stranger }
        ensures few { IfOk result (λ n. n ≤ limit) }
        ensures why { node < F.table.count → IfErr result IsTurnRefusal }
        ensures answer { node < F.table.count → AreTurnAnswers F.table node limit result }
    {
        self.caller().acts(rt, self, node, limit)
    }

    /// Lets a proxy of a node ask again for the slot of its bypass, if it was told that there is none and one is to be had now, under that
    /// node's lock. What else holds of it is what `NodeCell::retry` says, of the cell as the call found it: it has no name here, so `answer`
    /// says that there is such a cell. Workers do this by themselves ([`crate::work`]).
    ///
    /// Refused `Stranger` if there is no node of that number, and nothing else.
    ///
    /// Where no router of node 0 was told that there is no slot, `hub.retry(rt, 0)` is `Ok(Retry::NoneWaits)`.
    pub fn retry<R: Wait>(&self, rt: &R, node: u8) -> Result<Retry, Refusal>
        ensures stranger { F.table.count ≤ node → result ≡ Err Refusal.Stranger }
        ensures answer { node < F.table.count → IsRetryAnswer F.table node result }
    {
        self.caller().retry(rt, self, node)
    }

    /// The first end, from a serial on, that a node's callers hold and where a get isn't `Empty`, under that node's lock: a parcel has come there, or
    /// the peer has closed and all that was put was got. With it stands the serial of the router at which it was found; ask from the serial behind
    /// that for the next one. Which portal it is tells [`Portal::end`]. Somebody else may get there meanwhile; it is no call in the node's history. None
    /// if there is no further one, or no node of that number. It walks over no router where nothing has come, is never refused, and takes no
    /// memory.
    ///
    /// Where a parcel has come at `portal` of node 1 alone, `hub.ready_from(rt, 1, 0)` is `Some((serial, portal.end()))`, and
    /// `hub.ready_from(rt, 1, serial + 1)` is none.
    pub fn ready_from<R: Wait>(&self, rt: &R, node: u8, serial: u64) -> Option<(u64, End)>
        ensures stranger { F.table.count ≤ node → result ≡ None }
        ensures answer { node < F.table.count → IsReadyAnswer F.table node serial result }
    {
        if node >= self.nodes() {
            return None;
        }
        let desk = self.lock(rt, node);
        desk.ready_from(serial)
    }

    /// Takes one turn of a node, as `turn`, and sleeps if it was idle: until a message is posted to the node, a message of it is handled,
    /// a portal of it puts or closes, `notify_all` is called for it, or `limit` has passed. A sleep may also end for no reason. `Idle` says
    /// that the last turn found nothing to do, so that another call may follow. Where a loop looks at something else besides, as a flag that
    /// ends it, call `work_waiting`, whose gate looks at it. `Duration::MAX` is without end.
    ///
    /// Refused as [`Hub::turn`], and then it doesn't sleep.
    ///
    /// So `hub.turn_or_wait(rt, 0, Duration::from_millis(10))` takes an act of node 0, or sleeps for ten milliseconds at most.
    pub fn turn_or_wait<R: Wait>(
        &self,
        rt: &R,
        node: u8,
        limit: Duration,
    ) -> Result<Happened, Refusal>
        ensures stranger { F.table.count ≤ node → result ≡ Err Refusal.Stranger }
        ensures why { node < F.table.count → IfErr result IsTurnRefusal }
        ensures answer { node < F.table.count → IsTurnAnswer F.table node result }
    {
        let first = self.turn(rt, node);
        if !matches!(&first, Ok(Happened::Idle)) {
            return first;
        }
        let bells = self.fabric.bells();
        let ticket = bells.watch(node);
        let last = self.turn(rt, node);
        if matches!(&last, Ok(Happened::Idle)) {
            bells.sleep(rt, node, ticket, limit);
        }
        last
    }

    /// Wakes all that sleep for a node: `turn_or_wait` and `work_waiting`, which then asks its gate again, and `Portal::get_timeout`, which
    /// looks again. Where none sleeps it costs five loads. It is never refused, and does nothing for a node that isn't there.
    ///
    /// So a thread that sets a flag calls `hub.notify_all(0)` behind it, for the workers of node 0 to look at it.
    pub fn notify_all(&self, node: u8) {
        self.fabric.notify_all(node);
        self.chairs.wake_all(node);
    }

    /// How many gets sleep at a node now, each on a bell of its own, 64 at most: `Portal::get_timeout` and `Caller::get_timeout`. Those beyond 64
    /// aren't counted, nor is `Hub::get_any`. One that is woken counts until it has looked. Of a node that isn't there it is 0.
    ///
    /// Where a thread sleeps in `portal.get_timeout(rt, &hub, limit)` at node 1, `hub.sleepers(1)` is 1.
    pub fn sleepers(&self, node: u8) -> u64 {
        self.chairs.taken(node)
    }

    /// How often a get that slept at a node on a bell of its own was woken since the hub was made, since something had come at its end or the node was
    /// stopped. One that wakes otherwise, by `notify_all`, at its time or for no reason, isn't counted. Of a node that isn't there it is 0.
    ///
    /// Where 57 gets have slept at node 1 and each was given a parcel, `hub.wakes(1)` is 57.
    pub fn wakes(&self, node: u8) -> u64 {
        self.chairs.wakes(node)
    }

    // How many nodes there are.
    pub(crate) fn nodes(&self) -> u8
        ensures { result ≡ F.table.count }
    {
        self.fabric.nodes()
    }

    /// Takes the cells out of their locks, and gives the table and the cells of all its nodes, in order. It waits for nothing.
    ///
    /// Refused `OutOfMemory` if there is no memory for two lists of them, and then it gives the hub back.
    ///
    /// So `finish(fabric, cells)` may follow on `hub.into_cells()`, to have all nodes as one world.
    pub fn into_cells(self) -> Result<(Fabric<F>, Vec<NodeCell<F>>), (Refusal, Hub<F>)>
        ensures all { IfOk result (λ r. is_in_order F.table.count 0 r.1.items ≡ true) }
        ensures many { IfOk result (λ r. vec_len r.1 ≡ self) }
        ensures why { IfErr result (λ e. e.0 ≡ Refusal.OutOfMemory) }
        ensures back { IfErr result (λ e. e.1 ≡ self) }
    {
        let count = self.cells.len();
        let (Ok(places), Ok(room)) = (
            Vec::with_capacity(self.alloc, count),
            Vec::with_capacity(self.alloc, count),
        ) else {
            return Err((Refusal::OutOfMemory, self));
        };
        let Hub {
            fabric,
            cells,
            chairs: _,
            alloc: _,
        } = self;
        let places = unlock_all(&fabric, cells, empty_places(count, places));
        Ok((fabric, cells_at(places, room)))
    }
}
