//! Hubs shared by threads.
ghost use Rattle.std.specs.Prelude.{◌≡◌};

use crate::hub_tables::{both, hub_of, routers_of, sends, world_of};
use ipcz_base::{Bytes, End, Side};
use ipcz_fabric::{Blank, FabricName, Gate, Got, Hub, Portal, start, work};
use ipcz_world::{Reply, Step, World};
use std::alloc::Global;
use std::marker::Brand;
use std::sync::Wait;
use std::sync::atomic::{AtomicU64, Ordering};
use std::test::Fail;
use std::thread::{Threads, join, yield_now};

const TRIES: u64 = 10_000_000;

const LOOKS: u64 = 100_000_000;

const PARCELS: u64 = 1000;

// When it is first asked it says so, and then looks whether the other was asked, too.
#[derive(Drop)]
struct Meeting<'a> {
    own: &'a AtomicU64,
    other: &'a AtomicU64,
    asked: bool,
    missed: u64,
}

impl<'a> Gate for Meeting<'a> {
    fn pass(&mut self, _node: u8, _turns: u64) -> bool {
        if self.asked {
            return true;
        }
        self.asked = true;
        self.own.store(1, Ordering::SeqCst);
        for _look in 0..LOOKS {
            if self.other.load(Ordering::SeqCst) == 1 {
                return true;
            }
        }
        self.missed = 1;
        true
    }
}

// When it is asked it takes a turn of its node itself, if it is told that node and as many turns as it has taken.
#[derive(Drop)]
struct Taking<'a, R, F: FabricName> {
    rt: &'a R,
    hub: &'a Hub<F>,
    node: u8,
    taken: u64,
}

impl<'a, R: Wait, F: FabricName> Gate for Taking<'a, R, F> {
    fn pass(&mut self, node: u8, turns: u64) -> bool {
        let told = node == self.node && turns == self.taken;
        if told && self.hub.turn(self.rt, node).is_ok() {
            self.taken = self.taken.saturating_add(1);
        }
        true
    }
}

// How many of ten turns a worker takes, and how many its gate, which calls the hub: the worker holds no lock while it asks.
fn takes_twice<F: FabricName, R: Wait>(rt: &R, hub: &Hub<F>) -> (u64, u64) {
    let mut gate = Taking {
        rt,
        hub,
        node: 1,
        taken: 0,
    };
    let turns = work(rt, hub, 1, &mut gate, 10);
    (turns, gate.taken)
}

// The same, on the hub of a table.
fn taken<F: FabricName, R: Wait>(rt: &R, blank: Blank) -> Option<(u64, u64)>
    requires { blank ≡ F.table }
{
    let (hub, _portals) = hub_of::<F>(blank)?;
    Some(takes_twice(rt, &hub))
}

#[test]
fn a_gate_may_call_the_hub(rt: HostRuntime) -> Result<(), Fail> {
    let blank = start(rt.alloc(), 2, 4)?;
    assert_eq!(rt; taken::<Brand, _>(&rt, blank), Some((10, 10)));
    Ok(())
}

// In which order two workers take turns.
#[derive(Clone, Copy, PartialEq, Eq)]
enum Order {
    AtOnce,
    FirstThenSecond,
    SecondThenFirst,
}

// Two workers run at once.
fn meet<F: FabricName + Send + Sync, R: Threads + Wait + Sync>(
    rt: &R,
    hub: &Hub<F>,
    first: &mut Meeting,
    second: &mut Meeting,
) {
    join(
        rt,
        || work(rt, hub, 0, first, 10),
        || work(rt, hub, 1, second, 10),
    );
}

// Two workers run in this order.
fn run<F: FabricName + Send + Sync, R: Threads + Wait + Sync>(
    rt: &R,
    hub: &Hub<F>,
    order: Order,
    first: &mut Meeting,
    second: &mut Meeting,
) {
    match order {
        Order::AtOnce => meet(rt, hub, first, second),
        Order::FirstThenSecond => {
            work(rt, hub, 0, first, 10);
            work(rt, hub, 1, second, 10);
        }
        Order::SecondThenFirst => {
            work(rt, hub, 1, second, 10);
            work(rt, hub, 0, first, 10);
        }
    }
}

// How many of two workers' gates miss the other.
fn missed<F: FabricName + Send + Sync, R: Threads + Wait + Sync>(
    rt: &R,
    hub: &Hub<F>,
    order: Order,
) -> u64 {
    let (one, two) = (AtomicU64::new(0), AtomicU64::new(0));
    let mut first = Meeting {
        own: &one,
        other: &two,
        asked: false,
        missed: 0,
    };
    let mut second = Meeting {
        own: &two,
        other: &one,
        asked: false,
        missed: 0,
    };
    run(rt, hub, order, &mut first, &mut second);
    first.missed.saturating_add(second.missed)
}

// The same, on the hub of a table.
fn missed_on<F: FabricName + Send + Sync, R: Threads + Wait + Sync>(
    rt: &R,
    blank: Blank,
    order: Order,
) -> Option<u64>
    requires { blank ≡ F.table }
{
    let (hub, _portals) = hub_of::<F>(blank)?;
    Some(missed(rt, &hub, order))
}

// The same, on the hub of a new table.
fn missed_in<R: Threads + Wait + Sync>(rt: &R, alloc: Global, order: Order) -> Option<u64> {
    let blank = start(alloc, 2, 4).ok()?;
    missed_on::<Brand, R>(rt, blank, order)
}

#[test]
fn two_workers_run_at_once(rt: HostRuntime) {
    for (order, misses) in [
        (Order::AtOnce, 0),
        (Order::FirstThenSecond, 1),
        (Order::SecondThenFirst, 1),
    ] {
        assert_eq!(rt; missed_in(&rt, rt.alloc(), order), Some(misses));
    }
}

// A gate that is open until it is told to shut.
#[derive(Drop)]
struct Until<'a> {
    done: &'a AtomicU64,
}

impl<'a> Gate for Until<'a> {
    fn pass(&mut self, _node: u8, _turns: u64) -> bool {
        yield_now();
        self.done.load(Ordering::SeqCst) == 0
    }
}

// A number, as text.
fn text_of(alloc: Global, n: u64) -> Option<Bytes> {
    let text = format!(in alloc; "{n}").ok()?;
    Bytes::from_slice(alloc, text.as_bytes()).ok()
}

// Puts a number, as text.
fn puts<F: FabricName, R: Wait>(
    rt: &R,
    hub: &Hub<F>,
    alloc: Global,
    at: &Portal<F>,
    n: u64,
) -> bool {
    match text_of(alloc, n) {
        Some(bytes) => at.put(rt, hub, bytes, Vec::new(alloc)).is_ok(),
        None => false,
    }
}

// Whether a number was got, as text.
fn is_number<F: FabricName>(alloc: Global, got: &Got<F>, n: u64) -> bool {
    match text_of(alloc, n) {
        Some(text) => got.n == n && got.bytes.as_slice() == text.as_slice(),
        None => false,
    }
}

// Whether a get gives a number, as text; none if nothing has come.
fn gets<F: FabricName, R: Wait>(
    rt: &R,
    hub: &Hub<F>,
    alloc: Global,
    at: &Portal<F>,
    n: u64,
) -> Option<bool> {
    match at.get(rt, hub) {
        Ok(got) => Some(is_number(alloc, &got, n)),
        Err(_) => None,
    }
}

// Whether the next get that gives something gives a number, as text.
fn gets_soon<F: FabricName, R: Wait>(
    rt: &R,
    hub: &Hub<F>,
    alloc: Global,
    at: &Portal<F>,
    n: u64,
) -> bool {
    for _try in 0..TRIES {
        if let Some(came) = gets(rt, hub, alloc, at, n) {
            return came;
        }
        yield_now();
    }
    false
}

// Puts the numbers in order, and gets as many in order.
fn exchange<F: FabricName, R: Wait>(rt: &R, hub: &Hub<F>, alloc: Global, at: &Portal<F>) -> bool {
    for n in 0..PARCELS {
        if !puts(rt, hub, alloc, at, n) || !gets_soon(rt, hub, alloc, at, n) {
            return false;
        }
    }
    true
}

// Two workers, one of each node, until they are told to stop.
fn both_work<F: FabricName + Send + Sync, R: Threads + Wait + Sync>(
    rt: &R,
    hub: &Hub<F>,
    done: &AtomicU64,
) {
    let mut first = Until { done };
    let mut second = Until { done };
    join(
        rt,
        || work(rt, hub, 0, &mut first, u64::MAX),
        || work(rt, hub, 1, &mut second, u64::MAX),
    );
}

// Gets ten parcels in order, the first with the number that is counted.
fn gets_ten<F: FabricName, R: Wait>(
    rt: &R,
    hub: &Hub<F>,
    alloc: Global,
    at: &Portal<F>,
    count: &AtomicU64,
) -> bool {
    for _parcel in 0..10u64 {
        let n = count.load(Ordering::SeqCst);
        if !gets_soon(rt, hub, alloc, at, n) {
            return false;
        }
        count.store(n.saturating_add(1), Ordering::SeqCst);
    }
    true
}

// Waits for a portal to come; none if each parcel was got meanwhile.
fn awaits<F: FabricName, R: Wait>(
    rt: &R,
    hub: &Hub<F>,
    at: &Portal<F>,
    count: &AtomicU64,
) -> Option<Portal<F>> {
    for _try in 0..TRIES {
        if count.load(Ordering::SeqCst) >= PARCELS {
            return None;
        }
        if let Ok(mut got) = at.get(rt, hub) {
            return got.portals.pop();
        }
        yield_now();
    }
    None
}

// Gets ten parcels of each portal that comes, and sends it back, until each parcel was got.
fn relay<F: FabricName, R: Wait>(
    rt: &R,
    hub: &Hub<F>,
    alloc: Global,
    at: &Portal<F>,
    count: &AtomicU64,
) -> bool {
    for _leg in 0..PARCELS {
        let Some(moved) = awaits(rt, hub, at, count) else {
            return count.load(Ordering::SeqCst) == PARCELS;
        };
        if !gets_ten(rt, hub, alloc, &moved, count) {
            return false;
        }
        if count.load(Ordering::SeqCst) < PARCELS && !sends(rt, hub, alloc, at, moved) {
            return false;
        }
    }
    false
}

// Puts the numbers in order.
fn puts_all<F: FabricName, R: Wait>(rt: &R, hub: &Hub<F>, alloc: Global, at: &Portal<F>) -> bool {
    for n in 0..PARCELS {
        if !puts(rt, hub, alloc, at, n) {
            return false;
        }
    }
    true
}

// Puts the numbers into one portal of a pair and sends the other on, and then gets as the other relay does.
fn start_relay<F: FabricName, R: Wait>(
    rt: &R,
    hub: &Hub<F>,
    alloc: Global,
    at: &Portal<F>,
    pair: &mut Vec<Portal<F>>,
    count: &AtomicU64,
) -> bool {
    let Some(moved) = pair.pop() else {
        return false;
    };
    let Some(kept) = pair.as_slice().first() else {
        return false;
    };
    puts_all(rt, hub, alloc, kept)
        && sends(rt, hub, alloc, at, moved)
        && relay(rt, hub, alloc, at, count)
}

// The portals that the callers hold.
#[derive(Drop)]
struct Held<F: FabricName> {
    here: Portal<F>,
    there: Portal<F>,
    a0: Portal<F>,
    a1: Portal<F>,
    b: Vec<Portal<F>>,
}

// Two callers, one at each end of a pair.
fn both_exchange<F: FabricName + Send + Sync, R: Threads + Wait + Sync>(
    rt: &R,
    hub: &Hub<F>,
    alloc: Global,
    a0: &Portal<F>,
    a1: &Portal<F>,
) -> bool {
    let (left, right) = join(
        rt,
        || exchange(rt, hub, alloc, a0),
        || exchange(rt, hub, alloc, a1),
    );
    left && right
}

// Two callers, between whom a portal goes to and fro.
fn both_relay<F: FabricName + Send + Sync, R: Threads + Wait + Sync>(
    rt: &R,
    hub: &Hub<F>,
    alloc: Global,
    here: &Portal<F>,
    there: &Portal<F>,
    pair: &mut Vec<Portal<F>>,
) -> bool {
    let count = AtomicU64::new(0);
    let (left, right) = join(
        rt,
        || start_relay(rt, hub, alloc, here, pair, &count),
        || relay(rt, hub, alloc, there, &count),
    );
    left && right
}

// All four callers; then the workers are told to stop.
fn all_call<F: FabricName + Send + Sync, R: Threads + Wait + Sync>(
    rt: &R,
    hub: &Hub<F>,
    alloc: Global,
    held: &mut Held<F>,
    done: &AtomicU64,
) -> bool {
    let Held {
        here,
        there,
        a0,
        a1,
        b,
    } = held;
    let (left, right) = join(
        rt,
        || both_exchange(rt, hub, alloc, a0, a1),
        || both_relay(rt, hub, alloc, here, there, b),
    );
    done.store(1, Ordering::SeqCst);
    left && right
}

// Takes ten turns of each node.
fn act<F: FabricName, R: Wait>(rt: &R, hub: &Hub<F>) {
    for _turn in 0..10u64 {
        let _ = hub.turn(rt, 0);
        let _ = hub.turn(rt, 1);
    }
}

// Sends a portal from one node to the other, and gets it there.
fn moves<F: FabricName, R: Wait>(
    rt: &R,
    hub: &Hub<F>,
    alloc: Global,
    here: &Portal<F>,
    there: &Portal<F>,
    moved: Portal<F>,
) -> Option<Portal<F>> {
    if !sends(rt, hub, alloc, here, moved) {
        return None;
    }
    act(rt, hub);
    match there.get(rt, hub) {
        Ok(mut got) => got.portals.pop(),
        Err(_) => None,
    }
}

// Opens a pair on node 0, as a list.
fn pair<F: FabricName, R: Wait>(rt: &R, hub: &Hub<F>, alloc: Global) -> Option<Vec<Portal<F>>> {
    let (a, b) = hub.open_pair(rt, 0).ok()?;
    let mut pair = Vec::new(alloc);
    if pair.push(a).is_ok() && pair.push(b).is_ok() {
        Some(pair)
    } else {
        None
    }
}

// Opens both pairs on node 0, and moves the second portal of the first pair to node 1.
fn holds<F: FabricName, R: Wait>(
    rt: &R,
    hub: &Hub<F>,
    alloc: Global,
    here: Portal<F>,
    there: Portal<F>,
) -> Option<Held<F>> {
    let (a0, moved) = hub.open_pair(rt, 0).ok()?;
    let a1 = moves(rt, hub, alloc, &here, &there, moved)?;
    let b = pair(rt, hub, alloc)?;
    Some(Held {
        here,
        there,
        a0,
        a1,
        b,
    })
}

// Whether it is the last parcel of a thousand and one.
fn is_last(reply: &Reply) -> bool {
    match reply {
        Reply::Got(n, parcel) => *n == PARCELS && parcel.bytes.as_slice() == b"last".as_slice(),
        _ => false,
    }
}

// Whether a world gives the last parcel at the end 1B of node 1, once it has settled.
fn gives_last(world: &mut World) -> bool {
    if world.settle(1_000_000).is_err() {
        return false;
    }
    let at = End {
        pair: 1,
        side: Side::B,
    };
    is_last(&world.step(&Step::Get { node: 1, at }))
}

// Two workers, and four callers.
fn all_work<F: FabricName + Send + Sync, R: Threads + Wait + Sync>(
    rt: &R,
    hub: &Hub<F>,
    alloc: Global,
    held: &mut Held<F>,
) -> bool {
    let done = AtomicU64::new(0);
    let (_turns, went) = join(
        rt,
        || both_work(rt, hub, &done),
        || all_call(rt, hub, alloc, held, &done),
    );
    went
}

// Whether a last parcel is put, and the portal is closed.
fn puts_last<F: FabricName, R: Wait>(
    rt: &R,
    hub: &Hub<F>,
    alloc: Global,
    a0: Portal<F>,
) -> Option<bool> {
    let last = Bytes::from_slice(alloc, b"last").ok()?;
    let put = a0.put(rt, hub, last, Vec::new(alloc));
    let is_put = matches!(put, Ok(1000));
    Some(is_put && matches!(a0.close(rt, hub), Ok(1001)))
}

// Whether four callers on a hub with two workers get what they should, and put the last parcel.
fn four_callers<F: FabricName + Send + Sync, R: Threads + Wait + Sync>(
    rt: &R,
    hub: &Hub<F>,
    alloc: Global,
    portals: Vec<Portal<F>>,
) -> Option<bool> {
    let (here, there) = both(portals)?;
    let mut held = holds(rt, hub, alloc, here, there)?;
    let went = all_work(rt, hub, alloc, &mut held);
    let Held { a0, .. } = held;
    Some(puts_last(rt, hub, alloc, a0) == Some(true) && went)
}

// Two workers and four callers: the parcels of each pair come in order, those of the second while one of its portals goes to and fro, and
// what is put last is in the world that the hub's cells show.
fn come_in_order<F: FabricName + Send + Sync, R: Threads + Wait + Sync>(
    rt: &R,
    alloc: Global,
    blank: Blank,
) -> Option<bool>
    requires { blank ≡ F.table }
{
    let (hub, portals) = hub_of::<F>(blank)?;
    let called = four_callers(rt, &hub, alloc, portals);
    let mut world = world_of(hub)?;
    Some(gives_last(&mut world) && called == Some(true))
}

#[test]
fn callers_and_workers_share_a_hub(rt: HostRuntime) -> Result<(), Fail> {
    let blank = start(rt.alloc(), 2, 4096)?;
    assert!(rt; come_in_order::<Brand, _>(&rt, rt.alloc(), blank) == Some(true));
    Ok(())
}

// Lets both nodes act, and closes a portal.
fn acts_and_closes<F: FabricName, R: Wait>(rt: &R, hub: &Hub<F>, portal: Portal<F>) -> Option<u64> {
    act(rt, hub);
    portal.close(rt, hub).ok()
}

// The numbers of the marks when both portals of a pair are closed.
fn closes_both<F: FabricName, R: Wait>(
    rt: &R,
    hub: &Hub<F>,
    moved: Portal<F>,
    kept: Portal<F>,
) -> Option<(u64, u64)> {
    let first = acts_and_closes(rt, hub, moved);
    let second = acts_and_closes(rt, hub, kept);
    act(rt, hub);
    Some((first?, second?))
}

/// The numbers of the marks when a portal of a pair is moved to node 1, and both are closed.
pub(crate) fn moves_and_closes<F: FabricName, R: Wait>(
    rt: &R,
    hub: &Hub<F>,
    alloc: Global,
    here: &Portal<F>,
    there: &Portal<F>,
) -> Option<(u64, u64)> {
    let (kept, sent) = hub.open_pair(rt, 0).ok()?;
    match moves(rt, hub, alloc, here, there, sent) {
        Some(moved) => closes_both(rt, hub, moved, kept),
        None => None,
    }
}

// The same, with the first portals of a hub.
fn marks_of<F: FabricName, R: Wait>(
    rt: &R,
    hub: &Hub<F>,
    alloc: Global,
    portals: Vec<Portal<F>>,
) -> Option<(u64, u64)> {
    match portals.as_slice() {
        [here, there] => moves_and_closes(rt, hub, alloc, here, there),
        _ => None,
    }
}

// The same, and how many routers the two nodes have in the world that the hub's cells show.
fn left_over<F: FabricName, R: Wait>(
    rt: &R,
    alloc: Global,
    blank: Blank,
) -> Option<((u64, u64), [Option<usize>; 2])>
    requires { blank ≡ F.table }
{
    let (hub, portals) = hub_of::<F>(blank)?;
    let marks = marks_of(rt, &hub, alloc, portals);
    let routers = routers_of(hub)?;
    Some((marks?, routers))
}

#[test]
fn a_pair_that_is_closed_by_its_portals_is_gone(rt: HostRuntime) -> Result<(), Fail> {
    let blank = start(rt.alloc(), 2, 4)?;
    let left = left_over::<Brand, _>(&rt, rt.alloc(), blank);
    assert_eq!(rt; left, Some(((0, 0), [Some(1), Some(1)])));
    Ok(())
}
