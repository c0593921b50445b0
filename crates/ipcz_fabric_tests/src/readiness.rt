//! A wait at several portals of a hub, without sleep and with it, and whom it wakes.
ghost use Rattle.std.specs.Prelude.{◌≡◌};

use crate::hub_tables::{both, hub_of, well};
use crate::hub_waits::is_soon;
use crate::selecting::{long, sends};
use ipcz_base::Refusal;
use ipcz_fabric::{Blank, FabricName, Hub, Missed, Portal, PortalSet, start};
use std::alloc::Global;
use std::marker::Brand;
use std::sync::Wait;
use std::thread::{Threads, join, sleep};
use std::time::{Clock, Duration, Instant};

// What is looked at.
#[derive(Clone, Copy)]
enum Case {
    Tells,
    Wakes,
    Changes,
    Rounds,
}

/// The portals of the first pair, of nodes 0 and 1, and those of a pair of node 0.
#[derive(Drop)]
struct Four<F: FabricName> {
    left: Portal<F>,
    right: Portal<F>,
    near: Portal<F>,
    far: Portal<F>,
}

// The first pair of a hub, and a pair that is opened.
fn open_four<F: FabricName, R: Wait>(
    rt: &R,
    hub: &Hub<F>,
    firsts: Vec<Portal<F>>,
) -> Option<Four<F>> {
    let (left, right) = both(firsts)?;
    let (near, far) = hub.open_pair(rt, 0).ok()?;
    Some(Four {
        left,
        right,
        near,
        far,
    })
}

// A set of two portals.
fn set_of<F: FabricName>(
    alloc: Global,
    first: &Portal<F>,
    second: &Portal<F>,
) -> Option<PortalSet<F>> {
    let mut set = PortalSet::new(alloc);
    set.add(first).ok()?;
    set.add(second).ok()?;
    Some(set)
}

// At which place something has come, in a round that begins at this one, or why there is nothing.
fn told<F: FabricName, R: Wait + Clock>(
    rt: &R,
    hub: &Hub<F>,
    portals: &PortalSet<F>,
    from: usize,
    limit: Duration,
) -> (Option<usize>, Option<Missed>) {
    match hub.wait_any(rt, portals, from, limit) {
        Ok(place) => (Some(place), None),
        Err(none) => (none.place, Some(none.why)),
    }
}

// What a wait without sleep answers at no portals.
fn told_of_none<F: FabricName, R: Wait + Clock>(
    rt: &R,
    alloc: Global,
    hub: &Hub<F>,
) -> (Option<usize>, Option<Missed>) {
    told(rt, hub, &PortalSet::new(alloc), 0, Duration::ZERO)
}

// Whether a portal of node 1 is closed, and both nodes act.
fn closes<F: FabricName, R: Wait>(rt: &R, hub: &Hub<F>, right: Portal<F>) -> bool {
    right.close(rt, hub).is_ok() && hub.acts(rt, 1, 100).is_ok() && hub.acts(rt, 0, 100).is_ok()
}

// What a wait without sleep answers at a first portal of node 0 and at one of a pair of this node: before anything was sent, behind a parcel to the
// second, once that was got, and behind a close of the peer of the first; and what it answers at none.
fn answers<F: FabricName, R: Wait + Clock>(
    rt: &R,
    alloc: Global,
    hub: &Hub<F>,
    set: &PortalSet<F>,
    (near, far): (&Portal<F>, &Portal<F>),
    right: Portal<F>,
) -> Option<[(Option<usize>, Option<Missed>); 5]> {
    let before = told(rt, hub, set, 0, Duration::ZERO);
    let sent = sends(rt, hub, alloc, near, 0);
    let parcel = told(rt, hub, set, 0, Duration::ZERO);
    let taken = far.get(rt, hub).is_ok();
    let got = told(rt, hub, set, 0, Duration::ZERO);
    let over = closes(rt, hub, right);
    let closed = told(rt, hub, set, 0, Duration::ZERO);
    let nothing = told_of_none(rt, alloc, hub);
    (sent && taken && over).then_some([before, parcel, got, closed, nothing])
}

// Whether it answers these places, and else that nothing has come.
fn tells<F: FabricName, R: Wait + Clock>(
    rt: &R,
    alloc: Global,
    hub: &Hub<F>,
    four: Four<F>,
) -> Option<bool> {
    let Four {
        left,
        right,
        near,
        far,
    } = four;
    let set = set_of(alloc, &left, &far)?;
    let empty = (None, Some(Missed::Refused(Refusal::Empty)));
    let want = [empty, (Some(1), None), empty, (Some(0), None), empty];
    Some(answers(rt, alloc, hub, &set, (&near, &far), right)? == want)
}

#[test]
fn a_wait_at_several_portals_tells_which(rt: HostRuntime) {
    well(&rt, goes(&rt, rt.alloc(), Case::Tells));
}

// Whether a wait, which most likely sleeps by then, is woken by a parcel to the second of two portals.
fn is_woken<F: FabricName + Send + Sync, R: Threads + Wait + Clock + Sync>(
    rt: &R,
    alloc: Global,
    hub: &Hub<F>,
    set: &PortalSet<F>,
    near: &Portal<F>,
) -> bool {
    let (sent, found) = join(
        rt,
        || {
            sleep(rt, Duration::from_millis(50));
            sends(rt, hub, alloc, near, 0)
        },
        || told(rt, hub, set, 0, long()),
    );
    sent && found == (Some(1), None)
}

// Whether a wait at portals of two nodes is.
fn wakes<F: FabricName + Send + Sync, R: Threads + Wait + Clock + Sync>(
    rt: &R,
    alloc: Global,
    hub: &Hub<F>,
    four: &Four<F>,
) -> Option<bool> {
    let begin = Instant::now(rt).ok()?;
    let set = set_of(alloc, &four.right, &four.far)?;
    let woken = is_woken(rt, alloc, hub, &set, &four.near);
    Some(woken && is_soon(rt, begin) && four.left.node() == 0)
}

#[test]
fn a_wait_at_portals_of_two_nodes_is_woken(rt: HostRuntime) {
    well(&rt, goes(&rt, rt.alloc(), Case::Wakes));
}

// The places that a set tells of a first portal, of a second, of the first again and of the second again, and how many it has then.
fn places<F: FabricName>(
    set: &mut PortalSet<F>,
    first: &Portal<F>,
    second: &Portal<F>,
) -> Option<[usize; 5]> {
    Some([
        set.add(first).ok()?,
        set.add(second).ok()?,
        set.add(first).ok()?,
        set.place(second)?,
        set.len(),
    ])
}

// Whether a set of two has a portal at 2, and one at 0 twice, and is empty then; and the place where a wait finds a parcel of the second portal, before
// the first was removed and behind that, and once both were.
fn removals<F: FabricName, R: Wait + Clock>(
    rt: &R,
    hub: &Hub<F>,
    set: &mut PortalSet<F>,
) -> ([bool; 4], [Option<usize>; 3]) {
    let before = told(rt, hub, set, 0, Duration::ZERO).0;
    let none = set.remove(2);
    let first = set.remove(0);
    let behind = told(rt, hub, set, 0, Duration::ZERO).0;
    let last = set.remove(0);
    let nothing = told(rt, hub, set, 0, Duration::ZERO).0;
    (
        [none, first, last, set.is_empty()],
        [before, behind, nothing],
    )
}

// Whether a set that changes tells these places, and these removals.
fn changes<F: FabricName, R: Wait + Clock>(
    rt: &R,
    alloc: Global,
    hub: &Hub<F>,
    four: &Four<F>,
) -> Option<bool> {
    let mut set = PortalSet::new(alloc);
    let places = places(&mut set, &four.right, &four.far);
    let sent = sends(rt, hub, alloc, &four.near, 0);
    let (removed, found) = removals(rt, hub, &mut set);
    Some(
        places == Some([0, 1, 0, 1, 2])
            && sent
            && four.left.node() == 0
            && removed == [false, true, true, true]
            && found == [Some(1), Some(0), None],
    )
}

#[test]
fn a_set_has_each_portal_once_and_the_last_one_takes_the_place_of_a_removed_one(rt: HostRuntime) {
    well(&rt, goes(&rt, rt.alloc(), Case::Changes));
}

// The places that waits tell which begin at 0, 1, 2 and 3, at three portals of which the second and the third have a parcel; and those of waits that
// begin at 0 and at 2, once the third's was got.
fn rounds<F: FabricName, R: Wait + Clock>(
    rt: &R,
    hub: &Hub<F>,
    set: &PortalSet<F>,
    back: &Portal<F>,
) -> Option<[Option<usize>; 6]> {
    let first = told(rt, hub, set, 0, Duration::ZERO).0;
    let second = told(rt, hub, set, 1, Duration::ZERO).0;
    let third = told(rt, hub, set, 2, Duration::ZERO).0;
    let behind = told(rt, hub, set, 3, Duration::ZERO).0;
    let taken = back.get(rt, hub).is_ok();
    let left_first = told(rt, hub, set, 0, Duration::ZERO).0;
    let left_third = told(rt, hub, set, 2, Duration::ZERO).0;
    taken.then_some([first, second, third, behind, left_first, left_third])
}

// Whether these places are told, once the parcels were sent.
fn come_round<F: FabricName, R: Wait + Clock>(
    rt: &R,
    alloc: Global,
    hub: &Hub<F>,
    four: &Four<F>,
    (front, back): (&Portal<F>, &Portal<F>),
) -> Option<bool> {
    let mut set = set_of(alloc, &four.left, &four.far)?;
    let added = set.add(back).is_ok();
    let sent = sends(rt, hub, alloc, &four.near, 0) && sends(rt, hub, alloc, front, 0);
    let found = rounds(rt, hub, &set, back);
    let want = [Some(1), Some(1), Some(2), Some(1), Some(1), Some(1)];
    Some(added && sent && four.right.node() == 1 && found == Some(want))
}

// The same, with one more pair of node 0.
fn comes_round<F: FabricName, R: Wait + Clock>(
    rt: &R,
    alloc: Global,
    hub: &Hub<F>,
    four: &Four<F>,
) -> Option<bool> {
    let (front, back) = hub.open_pair(rt, 0).ok()?;
    come_round(rt, alloc, hub, four, (&front, &back))
}

#[test]
fn a_wait_begins_where_it_is_to_begin_and_comes_round(rt: HostRuntime) {
    well(&rt, goes(&rt, rt.alloc(), Case::Rounds));
}

// Whether a case goes well that closes none of the four portals.
fn stay<F: FabricName + Send + Sync, R: Threads + Wait + Clock + Sync>(
    rt: &R,
    alloc: Global,
    hub: &Hub<F>,
    four: &Four<F>,
    case: Case,
) -> Option<bool> {
    match case {
        Case::Wakes => wakes(rt, alloc, hub, four),
        Case::Changes => changes(rt, alloc, hub, four),
        _ => comes_round(rt, alloc, hub, four),
    }
}

// Whether a case goes well, with the first portals of a hub.
fn looks<F: FabricName + Send + Sync, R: Threads + Wait + Clock + Sync>(
    rt: &R,
    alloc: Global,
    hub: &Hub<F>,
    firsts: Vec<Portal<F>>,
    case: Case,
) -> Option<bool> {
    let four = open_four(rt, hub, firsts)?;
    match case {
        Case::Tells => tells(rt, alloc, hub, four),
        _ => stay(rt, alloc, hub, &four, case),
    }
}

// Whether a case goes well, on the hub of a table.
fn goes_well<F: FabricName + Send + Sync, R: Threads + Wait + Clock + Sync>(
    rt: &R,
    alloc: Global,
    blank: Blank,
    case: Case,
) -> Option<bool>
    requires { blank ≡ F.table }
{
    let (hub, firsts) = hub_of::<F>(blank)?;
    looks(rt, alloc, &hub, firsts, case)
}

// The same, on the hub of a new table.
fn goes<R: Threads + Wait + Clock + Sync>(rt: &R, alloc: Global, case: Case) -> Option<bool> {
    let blank = start(alloc, 2, 4).ok()?;
    goes_well::<Brand, R>(rt, alloc, blank, case)
}
