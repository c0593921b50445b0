//! A get at several portals of a hub, without sleep and with it.
ghost use Rattle.std.specs.Prelude.{◌≡◌};

use crate::hub_tables::{both, hub_of, well};
use crate::hub_waits::is_soon;
use ipcz_base::{Bytes, Refusal};
use ipcz_fabric::{Blank, FabricName, Hub, Missed, Portal, start};
use std::alloc::Global;
use std::marker::Brand;
use std::sync::Wait;
use std::thread::{Threads, join, sleep};
use std::time::{Clock, Duration, Instant};

// How long a sleep is that no wake ends. All that a test does takes far less.
pub(crate) fn long() -> Duration {
    Duration::from_secs(20)
}

// A list of two portals.
pub(crate) fn list_of<F: FabricName>(
    alloc: Global,
    first: Portal<F>,
    second: Portal<F>,
) -> Option<Vec<Portal<F>>> {
    let mut list = Vec::with_capacity(alloc, 2).ok()?;
    list.push(first).ok()?;
    list.push(second).ok()?;
    Some(list)
}

// At which place a get at these portals gives a parcel, or is refused, and why.
fn told<F: FabricName, R: Wait + Clock>(
    rt: &R,
    hub: &Hub<F>,
    portals: &[Portal<F>],
    limit: Duration,
) -> (Option<usize>, Option<Missed>) {
    match hub.get_any(rt, portals, limit) {
        Ok((place, _)) => (Some(place), None),
        Err(none) => (none.place, Some(none.why)),
    }
}

// Puts a parcel of no bytes, and takes the turns of its node.
pub(crate) fn sends<F: FabricName, R: Wait>(
    rt: &R,
    hub: &Hub<F>,
    alloc: Global,
    at: &Portal<F>,
    node: u8,
) -> bool {
    let put = at.put(rt, hub, Bytes::new(), Vec::new(alloc)).is_ok();
    put && hub.acts(rt, node, 100).is_ok()
}

// A list of a portal of the first pair and of one of a pair of node 0, with the peer of each.
#[derive(Drop)]
struct Listed<F: FabricName> {
    list: Vec<Portal<F>>,
    other: Portal<F>,
    near: Portal<F>,
}

// Opens a pair, and lists one of its portals behind one of the first pair.
fn open_listed<F: FabricName, R: Wait>(
    rt: &R,
    alloc: Global,
    hub: &Hub<F>,
    first: Portal<F>,
    other: Portal<F>,
) -> Option<Listed<F>> {
    let (near, far) = hub.open_pair(rt, 0).ok()?;
    let list = list_of(alloc, first, far)?;
    Some(Listed { list, other, near })
}

// What a get answers at no portals.
fn told_of_none<F: FabricName, R: Wait + Clock>(
    rt: &R,
    alloc: Global,
    hub: &Hub<F>,
) -> (Option<usize>, Option<Missed>) {
    let none: Vec<Portal<F>> = Vec::new(alloc);
    told(rt, hub, &none, Duration::ZERO)
}

// Whether a portal of node 1 is closed, and both nodes act.
fn closes<F: FabricName, R: Wait>(rt: &R, hub: &Hub<F>, right: Portal<F>) -> bool {
    right.close(rt, hub).is_ok() && hub.acts(rt, 1, 100).is_ok() && hub.acts(rt, 0, 100).is_ok()
}

// What a get answers at a first portal of node 0 and at one of a pair of this node: before anything was sent, behind a parcel to the second, and
// behind a close of the peer of the first; and what it answers at none.
fn answers<F: FabricName, R: Wait + Clock>(
    rt: &R,
    alloc: Global,
    hub: &Hub<F>,
    it: Listed<F>,
) -> Option<[(Option<usize>, Option<Missed>); 4]> {
    let Listed { list, other, near } = it;
    let before = told(rt, hub, &list, Duration::ZERO);
    let sent = sends(rt, hub, alloc, &near, 0);
    let parcel = told(rt, hub, &list, Duration::ZERO);
    let over = closes(rt, hub, other);
    let closed = told(rt, hub, &list, Duration::ZERO);
    let nothing = told_of_none(rt, alloc, hub);
    (sent && over).then_some([before, parcel, closed, nothing])
}

// Whether it answers these places, and why there is nothing.
fn tells<F: FabricName, R: Wait + Clock>(
    rt: &R,
    alloc: Global,
    hub: &Hub<F>,
    it: Listed<F>,
) -> bool {
    let empty = (None, Some(Missed::Refused(Refusal::Empty)));
    let closed = (Some(0), Some(Missed::Refused(Refusal::PeerClosed)));
    answers(rt, alloc, hub, it) == Some([empty, (Some(1), None), closed, empty])
}

#[test]
fn a_get_at_several_portals_tells_which(rt: HostRuntime) {
    well(&rt, goes(&rt, rt.alloc(), Case::Tells));
}

// Whether a get at portals of two nodes, which most likely sleeps by then, is woken by a parcel to the second.
fn is_woken<F: FabricName + Send + Sync, R: Threads + Wait + Clock + Sync>(
    rt: &R,
    alloc: Global,
    hub: &Hub<F>,
    it: &Listed<F>,
) -> bool {
    let (sent, got) = join(
        rt,
        || {
            sleep(rt, Duration::from_millis(50));
            sends(rt, hub, alloc, &it.near, 0)
        },
        || told(rt, hub, &it.list, long()),
    );
    sent && got == (Some(1), None)
}

#[test]
fn a_get_at_portals_of_two_nodes_is_woken(rt: HostRuntime) {
    well(&rt, goes(&rt, rt.alloc(), Case::Wakes));
}

// What is looked at.
#[derive(Clone, Copy)]
enum Case {
    Tells,
    Wakes,
}

// Whether a case goes well, with the first portals of a hub.
fn looks<F: FabricName + Send + Sync, R: Threads + Wait + Clock + Sync>(
    rt: &R,
    alloc: Global,
    hub: &Hub<F>,
    firsts: Vec<Portal<F>>,
    case: Case,
) -> Option<bool> {
    let (left, right) = both(firsts)?;
    match case {
        Case::Tells => Some(tells(rt, alloc, hub, open_listed(rt, alloc, hub, left, right)?)),
        Case::Wakes => {
            let it = open_listed(rt, alloc, hub, right, left)?;
            Some(is_woken(rt, alloc, hub, &it) && it.other.node() == 0)
        }
    }
}

// Whether a case goes well on the hub of a table.
fn goes_well<F: FabricName + Send + Sync, R: Threads + Wait + Clock + Sync>(
    rt: &R,
    alloc: Global,
    blank: Blank,
    case: Case,
) -> Option<bool>
    requires { blank ≡ F.table }
{
    let (hub, firsts) = hub_of::<F>(blank)?;
    looks(rt, alloc, &hub, firsts, case)
}

// The same, on the hub of a new table, and whether no sleep comes to its end.
fn goes<R: Threads + Wait + Clock + Sync>(rt: &R, alloc: Global, case: Case) -> Option<bool> {
    let begin = Instant::now(rt).ok()?;
    let blank = start(alloc, 2, 4).ok()?;
    let went = goes_well::<Brand, R>(rt, alloc, blank, case);
    Some(went == Some(true) && is_soon(rt, begin))
}
