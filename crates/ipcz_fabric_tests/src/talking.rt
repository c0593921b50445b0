//! Callers: each method of one, on one thread, and two that talk on two threads.
ghost use Rattle.std.specs.Prelude.{◌≡◌};

use crate::hub_tables::{both, hub_of, well};
use crate::selecting::list_of;
use ipcz_base::{Bytes, Profile, Refusal};
use ipcz_fabric::{Blank, Caller, FabricName, Gate, Hub, Missed, Portal, Retry, start};
use ipcz_node::Happened;
use std::alloc::Global;
use std::marker::Brand;
use std::sync::Wait;
use std::sync::atomic::{AtomicU64, Ordering};
use std::thread::{Threads, join, yield_now};
use std::time::{Clock, Duration};

// So many parcels are put by each, and so many tries are made at most.
const PARCELS: u64 = 100;

const TRIES: u64 = 10_000_000;

// What is looked at.
#[derive(Clone, Copy)]
enum Case {
    Puts,
    Gets,
    Waits,
    Selects,
    Closes,
    Works,
    Strangers,
    Talk,
}

/// A caller of a hub, and the portals of a pair that it has opened at node 0.
#[derive(Drop)]
struct Talk<F: FabricName> {
    caller: Caller<F>,
    a: Portal<F>,
    b: Portal<F>,
}

// Puts a parcel of no bytes at the pair's first portal.
fn puts<F: FabricName, R: Wait>(rt: &R, hub: &Hub<F>, alloc: Global, it: &mut Talk<F>) -> bool {
    let put = it.caller.put(rt, hub, &it.a, Bytes::new(), Vec::new(alloc));
    put.is_ok()
}

// The number of the next parcel at the second portal, if it brings no portals; or why there is none.
fn gets<F: FabricName, R: Wait>(rt: &R, hub: &Hub<F>, it: &mut Talk<F>) -> Result<u64, Refusal> {
    let got = it.caller.get(rt, hub, &it.b)?;
    if got.portals.is_empty() {
        Ok(got.n)
    } else {
        Err(Refusal::Stranger)
    }
}

// The same, of a get that waits for no time.
fn gets_at_once<F: FabricName, R: Wait + Clock>(
    rt: &R,
    hub: &Hub<F>,
    it: &mut Talk<F>,
) -> Result<u64, Missed> {
    let got = it.caller.get_timeout(rt, hub, &it.b, Duration::ZERO)?;
    if got.portals.is_empty() {
        Ok(got.n)
    } else {
        Err(Missed::Refused(Refusal::Stranger))
    }
}

// Whether puts at a portal of a new pair are numbered from 0 on, whichever they are.
fn puts_in_order<F: FabricName, R: Wait>(
    rt: &R,
    hub: &Hub<F>,
    alloc: Global,
    it: &mut Talk<F>,
) -> bool {
    let Talk { caller, a, .. } = it;
    let wide = caller.put_wide(rt, hub, a, Bytes::new(), Vec::new(alloc));
    let printed = caller.put(rt, hub, a, Bytes::new(), Vec::new(alloc));
    let of_profile = caller.put_as(rt, hub, a, Profile::Wide, Bytes::new(), Vec::new(alloc));
    matches!(wide, Ok(0)) && matches!(printed, Ok(1)) && matches!(of_profile, Ok(2))
}

// Whether a parcel that was put comes to the peer with its number, and nothing behind it.
fn gets_what_was_put<F: FabricName, R: Wait>(
    rt: &R,
    hub: &Hub<F>,
    alloc: Global,
    it: &mut Talk<F>,
) -> bool {
    let early = gets(rt, hub, it);
    let put = puts(rt, hub, alloc, it);
    let taken = it.caller.acts(rt, hub, 0, 100).unwrap_or(0);
    let idle = matches!(it.caller.turn(rt, hub, 0), Ok(Happened::Idle));
    let got = gets(rt, hub, it);
    let late = gets(rt, hub, it);
    early == Err(Refusal::Empty)
        && put
        && taken > 0
        && idle
        && got == Ok(0)
        && late == Err(Refusal::Empty)
}

// Whether a get that waits for no time gives a parcel that is there, and else nothing.
fn waits_for_it<F: FabricName, R: Wait + Clock>(
    rt: &R,
    hub: &Hub<F>,
    alloc: Global,
    it: &mut Talk<F>,
) -> bool {
    let early = gets_at_once(rt, hub, it);
    let put = puts(rt, hub, alloc, it);
    let acted = it.caller.acts(rt, hub, 0, 100).is_ok();
    let got = gets_at_once(rt, hub, it);
    early == Err(Missed::Refused(Refusal::Empty)) && put && acted && got == Ok(0)
}

// Whether a get finds nothing at portals.
fn finds_nothing<F: FabricName, R: Wait + Clock>(
    rt: &R,
    hub: &Hub<F>,
    caller: &mut Caller<F>,
    list: &[Portal<F>],
) -> bool {
    match caller.get_any(rt, hub, list, Duration::ZERO) {
        Ok(_) => false,
        Err(none) => none.place.is_none() && none.why == Missed::Refused(Refusal::Empty),
    }
}

// Whether a get finds the first parcel at the second of some portals.
fn finds_first<F: FabricName, R: Wait + Clock>(
    rt: &R,
    hub: &Hub<F>,
    caller: &mut Caller<F>,
    list: &[Portal<F>],
) -> bool {
    match caller.get_any(rt, hub, list, Duration::ZERO) {
        Ok((place, arrival)) => place == 1 && arrival.n == 0,
        Err(_) => false,
    }
}

// Whether a get at two portals gives the parcel that comes to the second from this one of node 1, with its place, and nothing before and behind it.
fn finds_it<F: FabricName, R: Wait + Clock>(
    rt: &R,
    hub: &Hub<F>,
    alloc: Global,
    caller: &mut Caller<F>,
    from: &Portal<F>,
    list: &[Portal<F>],
) -> bool {
    let early = finds_nothing(rt, hub, caller, list);
    let put = caller
        .put(rt, hub, from, Bytes::new(), Vec::new(alloc))
        .is_ok();
    let acted = caller.acts(rt, hub, 1, 100).is_ok();
    let got = finds_first(rt, hub, caller, list);
    early && put && acted && got && finds_nothing(rt, hub, caller, list)
}

// The same, at the second portal of the pair and at one of a pair of node 1.
fn selects_it<F: FabricName, R: Wait + Clock>(
    rt: &R,
    hub: &Hub<F>,
    alloc: Global,
    it: Talk<F>,
) -> Option<bool> {
    let Talk { mut caller, b, .. } = it;
    let (c, d) = caller.open_pair(rt, hub, 1).ok()?;
    let list = list_of(alloc, b, d)?;
    Some(finds_it(rt, hub, alloc, &mut caller, &c, &list))
}

// Whether a parcel is put and a close behind it answers 1, and its node acts.
fn puts_and_closes<F: FabricName, R: Wait>(
    rt: &R,
    hub: &Hub<F>,
    alloc: Global,
    caller: &mut Caller<F>,
    a: Portal<F>,
) -> bool {
    let put = caller
        .put(rt, hub, &a, Bytes::new(), Vec::new(alloc))
        .is_ok();
    let closed = matches!(caller.close(rt, hub, a), Ok(1));
    put && closed && caller.acts(rt, hub, 0, 100).is_ok()
}

// Whether a close behind one parcel answers 1, and the peer gets the parcel and then that it is closed.
fn closes_behind_one<F: FabricName, R: Wait>(
    rt: &R,
    hub: &Hub<F>,
    alloc: Global,
    it: Talk<F>,
) -> bool {
    let Talk { mut caller, a, b } = it;
    let closed = puts_and_closes(rt, hub, alloc, &mut caller, a);
    let got = caller.get(rt, hub, &b).is_ok();
    let end = matches!(caller.get(rt, hub, &b), Err(Refusal::PeerClosed));
    closed && got && end
}

// A gate that is open for so many turns of a worker.
#[derive(Drop)]
struct OpenFor {
    turns: u64,
}

impl Gate for OpenFor {
    fn pass(&mut self, _node: u8, turns: u64) -> bool {
        turns < self.turns
    }
}

// Whether a caller's work takes as many turns as its gate and its limit allow, and none of a node that isn't there, and a parcel comes by it.
fn works_for_it<F: FabricName, R: Wait>(
    rt: &R,
    hub: &Hub<F>,
    alloc: Global,
    it: &mut Talk<F>,
) -> bool {
    let put = puts(rt, hub, alloc, it);
    let mut gate = OpenFor { turns: 50 };
    let caller = &mut it.caller;
    let as_gated = caller.work(rt, hub, 0, &mut gate, 100);
    let as_limited = caller.work_waiting(rt, hub, 0, &mut gate, 3, Duration::ZERO);
    let of_none = caller.work(rt, hub, 2, &mut gate, 100);
    let got = gets(rt, hub, it);
    put && as_gated == 50 && as_limited == 3 && of_none == 0 && got == Ok(0)
}

// Whether a node that isn't there is a stranger, and no proxy waits at one that is.
fn are_strangers<F: FabricName, R: Wait>(rt: &R, hub: &Hub<F>) -> bool {
    let mut caller = hub.caller();
    matches!(caller.turn(rt, hub, 2), Err(Refusal::Stranger))
        && matches!(caller.acts(rt, hub, 2, 1), Err(Refusal::Stranger))
        && matches!(caller.retry(rt, hub, 2), Err(Refusal::Stranger))
        && matches!(caller.open_pair(rt, hub, 2), Err(Refusal::Stranger))
        && matches!(caller.retry(rt, hub, 0), Ok(Retry::NoneWaits))
}

// Gets the parcel of a number, and takes turns of the portal's node until it is there.
fn gets_next<F: FabricName, R: Wait>(
    rt: &R,
    hub: &Hub<F>,
    caller: &mut Caller<F>,
    at: &Portal<F>,
    number: u64,
) -> bool {
    for _try in 0..TRIES {
        let _ = caller.acts(rt, hub, at.node(), 100);
        match caller.get(rt, hub, at) {
            Ok(got) => return got.n == number,
            Err(Refusal::Empty) => yield_now(),
            Err(_) => return false,
        }
    }
    false
}

// Puts parcels, and gets one of the other thread behind each. Then it takes turns until the other is done, too.
fn talks<F: FabricName, R: Wait>(
    rt: &R,
    hub: &Hub<F>,
    alloc: Global,
    at: &Portal<F>,
    done: &AtomicU64,
) -> bool {
    let mut caller = hub.caller();
    let mut good = true;
    for number in 0..PARCELS {
        let put = caller.put(rt, hub, at, Bytes::new(), Vec::new(alloc));
        good = good
            && matches!(put, Ok(n) if n == number)
            && gets_next(rt, hub, &mut caller, at, number);
    }
    done.fetch_add(1, Ordering::SeqCst);
    serves(rt, hub, &mut caller, at.node(), done);
    good
}

// Takes turns of a node until both threads are done.
fn serves<F: FabricName, R: Wait>(
    rt: &R,
    hub: &Hub<F>,
    caller: &mut Caller<F>,
    node: u8,
    done: &AtomicU64,
) {
    for _try in 0..TRIES {
        if done.load(Ordering::SeqCst) == 2 {
            return;
        }
        let _ = caller.acts(rt, hub, node, 100);
        yield_now();
    }
}

// Two callers on two threads.
fn both_talk<F: FabricName + Send + Sync, R: Threads + Wait + Sync>(
    rt: &R,
    hub: &Hub<F>,
    alloc: Global,
    here: &Portal<F>,
    there: &Portal<F>,
) -> bool {
    let done = AtomicU64::new(0);
    let (left, right) = join(
        rt,
        || talks(rt, hub, alloc, here, &done),
        || talks(rt, hub, alloc, there, &done),
    );
    left && right
}

// Whether a case goes well that a caller with a pair looks at, and leaves the pair as it is.
fn stays<F: FabricName, R: Wait + Clock>(
    rt: &R,
    hub: &Hub<F>,
    alloc: Global,
    it: &mut Talk<F>,
    case: Case,
) -> bool {
    match case {
        Case::Puts => puts_in_order(rt, hub, alloc, it),
        Case::Gets => gets_what_was_put(rt, hub, alloc, it),
        Case::Waits => waits_for_it(rt, hub, alloc, it),
        _ => works_for_it(rt, hub, alloc, it),
    }
}

// Whether a case goes well that a caller with a pair looks at.
fn talk_goes<F: FabricName, R: Wait + Clock>(
    rt: &R,
    hub: &Hub<F>,
    alloc: Global,
    mut it: Talk<F>,
    case: Case,
) -> Option<bool> {
    match case {
        Case::Selects => selects_it(rt, hub, alloc, it),
        Case::Closes => Some(closes_behind_one(rt, hub, alloc, it)),
        _ => Some(stays(rt, hub, alloc, &mut it, case)),
    }
}

// The same, of a caller that opens a pair.
fn pair_goes<F: FabricName, R: Wait + Clock>(
    rt: &R,
    hub: &Hub<F>,
    alloc: Global,
    case: Case,
) -> Option<bool> {
    let mut caller = hub.caller();
    let (a, b) = caller.open_pair(rt, hub, 0).ok()?;
    talk_goes(rt, hub, alloc, Talk { caller, a, b }, case)
}

// Whether two callers talk by the first pair.
fn firsts_talk<F: FabricName + Send + Sync, R: Threads + Wait + Sync>(
    rt: &R,
    hub: &Hub<F>,
    alloc: Global,
    firsts: Vec<Portal<F>>,
) -> Option<bool> {
    let (here, there) = both(firsts)?;
    Some(both_talk(rt, hub, alloc, &here, &there))
}

// Whether a case goes well, with the first portals of a hub.
fn looks<F: FabricName + Send + Sync, R: Threads + Wait + Clock + Sync>(
    rt: &R,
    hub: &Hub<F>,
    alloc: Global,
    firsts: Vec<Portal<F>>,
    case: Case,
) -> Option<bool> {
    match case {
        Case::Strangers => Some(are_strangers(rt, hub)),
        Case::Talk => firsts_talk(rt, hub, alloc, firsts),
        _ => pair_goes(rt, hub, alloc, case),
    }
}

// Whether a case goes well in a hub of two nodes.
fn goes_well<F: FabricName + Send + Sync, R: Threads + Wait + Clock + Sync>(
    rt: &R,
    alloc: Global,
    blank: Blank,
    case: Case,
) -> Option<bool>
    requires { blank ≡ F.table }
{
    let (hub, firsts) = hub_of::<F>(blank)?;
    looks(rt, &hub, alloc, firsts, case)
}

fn goes<R: Threads + Wait + Clock + Sync>(rt: &R, alloc: Global, case: Case) -> Option<bool> {
    let blank = start(alloc, 2, 16).ok()?;
    goes_well::<Brand, R>(rt, alloc, blank, case)
}

#[test]
fn a_callers_puts_are_numbered_in_order(rt: HostRuntime) {
    well(&rt, goes(&rt, rt.alloc(), Case::Puts));
}

#[test]
fn a_caller_gets_what_was_put(rt: HostRuntime) {
    well(&rt, goes(&rt, rt.alloc(), Case::Gets));
}

#[test]
fn a_caller_that_waits_gets_what_is_there(rt: HostRuntime) {
    well(&rt, goes(&rt, rt.alloc(), Case::Waits));
}

#[test]
fn a_caller_gets_at_several_portals(rt: HostRuntime) {
    well(&rt, goes(&rt, rt.alloc(), Case::Selects));
}

#[test]
fn a_callers_close_comes_behind_its_parcels(rt: HostRuntime) {
    well(&rt, goes(&rt, rt.alloc(), Case::Closes));
}

#[test]
fn a_callers_work_is_as_long_as_it_may_be(rt: HostRuntime) {
    well(&rt, goes(&rt, rt.alloc(), Case::Works));
}

#[test]
fn a_node_that_is_not_there_is_a_stranger_to_a_caller(rt: HostRuntime) {
    well(&rt, goes(&rt, rt.alloc(), Case::Strangers));
}

#[test]
fn two_callers_talk_on_two_threads(rt: HostRuntime) {
    well(&rt, goes(&rt, rt.alloc(), Case::Talk));
}
