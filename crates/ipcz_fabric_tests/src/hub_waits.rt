//! Waits: each sleeps for so long if no wake comes that a wake that is lost fails the test.
ghost use Rattle.std.specs.Prelude.{◌≡◌};

use crate::hub_tables::{both, hub_of, well};
use ipcz_base::{Bytes, Refusal};
use ipcz_fabric::{Blank, FabricName, Gate, Hub, Missed, Portal, start, work_waiting};
use std::alloc::Global;
use std::marker::Brand;
use std::sync::Wait;
use std::sync::atomic::{AtomicU64, Ordering};
use std::thread::{Threads, join, sleep};
use std::time::{Clock, Duration, Instant};

const TURNS: u64 = 10_000_000;

const ROUNDS: u64 = 1000;

// How long a sleep is that no wake ends. All that a test does takes far less.
fn long() -> Duration {
    Duration::from_secs(20)
}

// So long that the other threads have most likely begun to sleep.
fn short() -> Duration {
    Duration::from_millis(50)
}

// Whether no sleep has come to its end since.
pub(crate) fn is_soon<R: Clock>(rt: &R, begin: Instant) -> bool {
    match begin.elapsed(rt) {
        Ok(spent) => spent < long(),
        Err(_) => false,
    }
}

// Lets turns be taken until it is told to end.
#[derive(Drop)]
struct Until<'a> {
    done: &'a AtomicU64,
}

impl<'a> Gate for Until<'a> {
    fn pass(&mut self, _node: u8, _turns: u64) -> bool {
        self.done.load(Ordering::SeqCst) == 0
    }
}

// Takes turns of a node, and sleeps if there is nothing to do.
fn works<F: FabricName, R: Wait>(rt: &R, hub: &Hub<F>, node: u8, done: &AtomicU64) -> u64 {
    let mut gate = Until { done };
    work_waiting(rt, hub, node, &mut gate, TURNS, long())
}

// Ends the workers of both nodes.
fn ends<F: FabricName>(hub: &Hub<F>, done: &AtomicU64) {
    done.store(1, Ordering::SeqCst);
    hub.notify_all(0);
    hub.notify_all(1);
}

// What is tried with two portals that wait.
#[derive(Clone, Copy)]
enum Case {
    Talk,
    Threes,
    Driven,
    Close,
    Nothing,
}

// Puts a parcel of no bytes at a portal.
fn portal_puts<F: FabricName, R: Wait>(
    rt: &R,
    hub: &Hub<F>,
    alloc: Global,
    portal: &Portal<F>,
) -> bool {
    portal.put(rt, hub, Bytes::new(), Vec::new(alloc)).is_ok()
}

fn portal_gets<F: FabricName, R: Wait + Clock>(rt: &R, hub: &Hub<F>, portal: &Portal<F>) -> bool {
    portal.get_timeout(rt, hub, long()).is_ok()
}

// Puts parcels, and gets an answer to each.
fn portal_asks<F: FabricName, R: Wait + Clock>(
    rt: &R,
    alloc: Global,
    hub: &Hub<F>,
    portal: &Portal<F>,
) -> bool {
    for _round in 0..ROUNDS {
        if !portal_puts(rt, hub, alloc, portal) || !portal_gets(rt, hub, portal) {
            return false;
        }
    }
    true
}

// Gets parcels, and puts an answer to each.
fn portal_answers<F: FabricName, R: Wait + Clock>(
    rt: &R,
    alloc: Global,
    hub: &Hub<F>,
    portal: &Portal<F>,
) -> bool {
    for _round in 0..ROUNDS {
        if !portal_gets(rt, hub, portal) || !portal_puts(rt, hub, alloc, portal) {
            return false;
        }
    }
    true
}

fn portal_puts_three<F: FabricName, R: Wait>(
    rt: &R,
    hub: &Hub<F>,
    alloc: Global,
    portal: &Portal<F>,
) -> bool {
    for _parcel in 0..3 {
        if !portal_puts(rt, hub, alloc, portal) {
            return false;
        }
    }
    true
}

fn portal_gets_three<F: FabricName, R: Wait + Clock>(
    rt: &R,
    hub: &Hub<F>,
    portal: &Portal<F>,
) -> bool {
    for _parcel in 0..3 {
        if !portal_gets(rt, hub, portal) {
            return false;
        }
    }
    true
}

// Puts three parcels in a row, and gets an answer to the last. A mailbox has one message, so the worker of the sender sleeps with the second, and
// has to be woken when the first is taken.
fn portal_asks_in_threes<F: FabricName, R: Wait + Clock>(
    rt: &R,
    alloc: Global,
    hub: &Hub<F>,
    portal: &Portal<F>,
) -> bool {
    for _round in 0..ROUNDS {
        if !portal_puts_three(rt, hub, alloc, portal) || !portal_gets(rt, hub, portal) {
            return false;
        }
    }
    true
}

// Gets three parcels, and puts an answer to the last.
fn portal_answers_threes<F: FabricName, R: Wait + Clock>(
    rt: &R,
    alloc: Global,
    hub: &Hub<F>,
    portal: &Portal<F>,
) -> bool {
    for _round in 0..ROUNDS {
        if !portal_gets_three(rt, hub, portal) || !portal_puts(rt, hub, alloc, portal) {
            return false;
        }
    }
    true
}

// Puts three parcels, and brings each to the other node itself: by many turns under one hold of a lock, where no worker takes any.
fn portal_drives<F: FabricName, R: Wait + Clock>(
    rt: &R,
    alloc: Global,
    hub: &Hub<F>,
    portal: &Portal<F>,
) -> bool {
    for _parcel in 0..3 {
        sleep(rt, short());
        let put = portal_puts(rt, hub, alloc, portal);
        if !put || hub.acts(rt, 0, TURNS).is_err() || hub.acts(rt, 1, TURNS).is_err() {
            return false;
        }
    }
    true
}

// What the thread of the left portal does, and whether that went well.
fn left_does<F: FabricName, R: Wait + Clock>(
    rt: &R,
    alloc: Global,
    hub: &Hub<F>,
    portal: Portal<F>,
    case: Case,
) -> bool {
    match case {
        Case::Talk => portal_asks(rt, alloc, hub, &portal),
        Case::Threes => portal_asks_in_threes(rt, alloc, hub, &portal),
        Case::Driven => portal_drives(rt, alloc, hub, &portal),
        Case::Close => {
            sleep(rt, short());
            portal.close(rt, hub).is_ok()
        }
        Case::Nothing => {
            sleep(rt, short());
            true
        }
    }
}

// What the thread of the right portal does, and whether that went well.
fn right_does<F: FabricName, R: Wait + Clock>(
    rt: &R,
    alloc: Global,
    hub: &Hub<F>,
    portal: &Portal<F>,
    case: Case,
) -> bool {
    match case {
        Case::Talk => portal_answers(rt, alloc, hub, portal),
        Case::Threes => portal_answers_threes(rt, alloc, hub, portal),
        Case::Driven => portal_gets_three(rt, hub, portal),
        Case::Close => {
            let got = portal.get_timeout(rt, hub, long());
            matches!(got, Err(Missed::Refused(Refusal::PeerClosed)))
        }
        Case::Nothing => {
            let got = portal.get_timeout(rt, hub, short());
            matches!(got, Err(Missed::Refused(Refusal::Empty)))
        }
    }
}

// Both, and then the workers are ended.
fn both_do<F: FabricName + Send + Sync, R: Threads + Wait + Clock + Sync>(
    rt: &R,
    alloc: Global,
    hub: &Hub<F>,
    left: Portal<F>,
    right: &Portal<F>,
    done: &AtomicU64,
    case: Case,
) -> bool {
    let (asked, answered) = join(
        rt,
        move || left_does(rt, alloc, hub, left, case),
        || right_does(rt, alloc, hub, right, case),
    );
    ends(hub, done);
    asked && answered
}

// The same, with a worker for each node, if the left one doesn't take the turns itself.
fn does<F: FabricName + Send + Sync, R: Threads + Wait + Clock + Sync>(
    rt: &R,
    alloc: Global,
    hub: &Hub<F>,
    left: Portal<F>,
    right: &Portal<F>,
    case: Case,
) -> bool {
    let done = AtomicU64::new(0);
    if matches!(case, Case::Driven) {
        return both_do(rt, alloc, hub, left, right, &done, case);
    }
    let (went, _turns) = join(
        rt,
        || both_do(rt, alloc, hub, left, right, &done, case),
        || join(rt, || works(rt, hub, 0, &done), || works(rt, hub, 1, &done)),
    );
    went
}

// The same, with the first portals of a hub.
fn both_go<F: FabricName + Send + Sync, R: Threads + Wait + Clock + Sync>(
    rt: &R,
    alloc: Global,
    hub: &Hub<F>,
    portals: Vec<Portal<F>>,
    case: Case,
) -> Option<bool> {
    let (left, right) = both(portals)?;
    Some(does(rt, alloc, hub, left, &right, case))
}

// The same, on the hub of a table.
fn goes_well<F: FabricName + Send + Sync, R: Threads + Wait + Clock + Sync>(
    rt: &R,
    alloc: Global,
    blank: Blank,
    case: Case,
) -> Option<bool>
    requires { blank ≡ F.table }
{
    let (hub, portals) = hub_of::<F>(blank)?;
    both_go(rt, alloc, &hub, portals, case)
}

// Whether a case goes well on the hub of a new table, and no sleep comes to its end but that of a get that is to give up.
fn goes<R: Threads + Wait + Clock + Sync>(rt: &R, alloc: Global, case: Case) -> Option<bool> {
    let begin = Instant::now(rt).ok()?;
    let blank = start(alloc, 2, 4).ok()?;
    let went = goes_well::<Brand, R>(rt, alloc, blank, case);
    Some(went == Some(true) && is_soon(rt, begin))
}

#[test]
fn two_portals_wait_for_each_other(rt: HostRuntime) {
    well(&rt, goes(&rt, rt.alloc(), Case::Talk));
}

#[test]
fn three_parcels_in_a_row_come_where_both_workers_sleep(rt: HostRuntime) {
    well(&rt, goes(&rt, rt.alloc(), Case::Threes));
}

#[test]
fn a_get_is_woken_where_another_thread_takes_the_turns(rt: HostRuntime) {
    well(&rt, goes(&rt, rt.alloc(), Case::Driven));
}

#[test]
fn a_close_wakes_a_get_of_its_peer(rt: HostRuntime) {
    well(&rt, goes(&rt, rt.alloc(), Case::Close));
}

// The workers' gates are asked again, too: they sleep from their first turn on.
#[test]
fn a_get_gives_up_at_its_time(rt: HostRuntime) {
    well(&rt, goes(&rt, rt.alloc(), Case::Nothing));
}
