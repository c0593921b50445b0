//! What portals, hubs and workers answer on one thread, each in a hub of two nodes.
ghost use Rattle.std.specs.Prelude.{◌≡◌};

use crate::hub_tables::{hub_of, sends, well};
use ipcz_base::{Bytes, End, Refusal};
use ipcz_fabric::{Blank, FabricName, Gate, Hub, Missed, Portal, start, work};
use std::alloc::Global;
use std::marker::Brand;
use std::sync::Wait;
use std::time::{Clock, Duration};

// What is looked at.
#[derive(Clone, Copy)]
enum Case {
    PeerClosed,
    Stranger,
    PeerAttach,
    OpenAtOne,
    Seen,
    Arrived,
    EarlyEnd,
    DroppedPortal,
    ScopedPortal,
    Ready,
    Arrival,
    Wide,
}

// A gate that is open for two turns.
#[derive(Drop)]
struct Twice;

impl Gate for Twice {
    fn pass(&mut self, _node: u8, turns: u64) -> bool {
        turns < 2
    }
}

// Takes turns of a node.
fn act<F: FabricName, R: Wait>(rt: &R, hub: &Hub<F>, node: u8, turns: u64) {
    for _turn in 0..turns {
        let _ = hub.turn(rt, node);
    }
}

// Why a portal can't be sent on; none if it can, or if it doesn't come back.
fn why_not<F: FabricName, R: Wait>(
    rt: &R,
    hub: &Hub<F>,
    alloc: Global,
    at: &Portal<F>,
    moved: Portal<F>,
) -> Option<Refusal> {
    let mut portals = Vec::new(alloc);
    portals.push(moved).ok()?;
    match at.put(rt, hub, Bytes::new(), portals) {
        Err(refused) if refused.portals.len() == 1 => Some(refused.why),
        _ => None,
    }
}

// Whether a portal whose peer is closed gives nothing any more.
fn is_closed<F: FabricName, R: Wait>(rt: &R, hub: &Hub<F>) -> Option<bool> {
    let (a, b) = hub.open_pair(rt, 0).ok()?;
    b.close(rt, hub).ok()?;
    act(rt, hub, 0, 10);
    Some(matches!(a.get(rt, hub), Err(Refusal::PeerClosed)))
}

// Whether a portal of the other node is a stranger.
fn is_stranger<F: FabricName, R: Wait>(rt: &R, hub: &Hub<F>, alloc: Global) -> Option<bool> {
    let (a, _) = hub.open_pair(rt, 0).ok()?;
    let (other, _) = hub.open_pair(rt, 1).ok()?;
    Some(why_not(rt, hub, alloc, &a, other) == Some(Refusal::Stranger))
}

// Whether a portal doesn't take its peer along.
fn is_attached<F: FabricName, R: Wait>(rt: &R, hub: &Hub<F>, alloc: Global) -> Option<bool> {
    let (a, b) = hub.open_pair(rt, 0).ok()?;
    Some(why_not(rt, hub, alloc, &a, b) == Some(Refusal::PeerAttach))
}

// Whether a pair that is opened at node 1 is there: what is put at one portal is sent, posted, looked at and handled, and so comes to the
// other with the fourth turn.
fn is_at_one<F: FabricName, R: Wait>(rt: &R, hub: &Hub<F>, alloc: Global) -> Option<bool> {
    let (a, b) = hub.open_pair(rt, 1).ok()?;
    let put = a.put(rt, hub, Bytes::new(), Vec::new(alloc));
    act(rt, hub, 1, 3);
    let early = b.get(rt, hub).is_ok();
    act(rt, hub, 1, 1);
    let got = b.get(rt, hub).ok()?;
    Some(a.node() == 1 && matches!(put, Ok(0)) && !early && got.n == 0)
}

// Whether a look tells of a parcel once it has come, and of the peer's close behind it, and takes nothing.
fn is_seen<F: FabricName, R: Wait>(rt: &R, hub: &Hub<F>, alloc: Global) -> Option<bool> {
    let (a, b) = hub.open_pair(rt, 0).ok()?;
    let early = b.look(rt, hub)?;
    let _ = a.put(rt, hub, Bytes::new(), Vec::new(alloc));
    let _ = a.close(rt, hub);
    act(rt, hub, 0, 20);
    let late = b.look(rt, hub)?;
    let got = b.get(rt, hub).ok()?;
    let over = b.look(rt, hub)?;
    Some(
        early.waiting == 0
            && !early.peer_closed
            && late.waiting == 1
            && late.peer_closed
            && got.n == late.next
            && over.next == 1
            && over.sizes.is_none(),
    )
}

// Whether both portals of a pair have arrived where it was opened.
fn are_at_home<F: FabricName, R: Wait>(rt: &R, hub: &Hub<F>) -> Option<bool> {
    let (a, b) = hub.open_pair(rt, 1).ok()?;
    Some(a.has_arrived(rt, hub)? && b.has_arrived(rt, hub)?)
}

// Whether a portal whose peer was dropped unclosed waits on.
fn is_open<F: FabricName, R: Wait>(rt: &R, hub: &Hub<F>) -> Option<bool> {
    let (a, b) = hub.open_pair(rt, 0).ok()?;
    drop(b);
    act(rt, hub, 0, 10);
    Some(matches!(a.get(rt, hub), Err(Refusal::Empty)))
}

// Whether a portal is closed at the end of its scope, and one that was taken out before isn't.
fn is_closed_behind<F: FabricName, R: Wait>(rt: &R, hub: &Hub<F>) -> Option<bool> {
    let (a, b) = hub.open_pair(rt, 0).ok()?;
    let (c, d) = hub.open_pair(rt, 0).ok()?;
    drop(a.scoped(rt, hub));
    drop(c.scoped(rt, hub).into_portal());
    act(rt, hub, 0, 20);
    let is_closed = matches!(b.get(rt, hub), Err(Refusal::PeerClosed));
    Some(is_closed && matches!(d.get(rt, hub), Err(Refusal::Empty)))
}

// Whether the portal where a parcel has come is told, and no other.
fn is_told<F: FabricName, R: Wait>(rt: &R, hub: &Hub<F>, alloc: Global) -> Option<bool> {
    let (a, b) = hub.open_pair(rt, 0).ok()?;
    let early = hub.ready_from(rt, 0, 0);
    let _ = a.put(rt, hub, Bytes::new(), Vec::new(alloc));
    act(rt, hub, 0, 20);
    let (serial, end) = hub.ready_from(rt, 0, 0)?;
    let behind = hub.ready_from(rt, 0, serial.saturating_add(1));
    let nowhere = hub.ready_from(rt, 2, 0);
    Some(early.is_none() && end == b.end() && behind.is_none() && nowhere.is_none())
}

// Puts a portal at another, in a parcel, and takes the turns of node 0 that are there.
fn sends_and_acts<F: FabricName, R: Wait>(
    rt: &R,
    hub: &Hub<F>,
    alloc: Global,
    at: &Portal<F>,
    moved: Portal<F>,
) -> Option<u64> {
    if !sends(rt, hub, alloc, at, moved) {
        return None;
    }
    hub.acts(rt, 0, 100).ok()
}

// The only portal of what is got.
fn takes<F: FabricName, R: Wait + Clock>(
    rt: &R,
    hub: &Hub<F>,
    at: &Portal<F>,
) -> Option<Portal<F>> {
    let mut got = at.get_timeout(rt, hub, Duration::ZERO).ok()?;
    if got.portals.len() != 1 {
        return None;
    }
    let taken = got.portals.pop();
    if got.portals.is_empty() { taken } else { None }
}

// The end of the only portal of what is got, in a list.
fn listed<F: FabricName, R: Wait + Clock>(
    rt: &R,
    hub: &Hub<F>,
    alloc: Global,
    at: &Portal<F>,
) -> Option<End> {
    let got = at.get_timeout(rt, hub, Duration::ZERO).ok()?;
    let list = got.portals.into_vec(alloc).ok()?;
    match list.as_slice() {
        [only] => Some(only.end()),
        _ => None,
    }
}

// Whether so many bytes that don't print are put, and got once the node has acted.
fn goes_wide<F: FabricName, R: Wait>(
    rt: &R,
    hub: &Hub<F>,
    alloc: Global,
    at: &Portal<F>,
    peer: &Portal<F>,
    count: usize,
) -> Option<bool> {
    let bytes = vec![in alloc; 7u8; count].ok()?;
    let put = at.put_wide(rt, hub, Bytes::from_vec(bytes), Vec::new(alloc));
    hub.acts(rt, 0, 100).ok()?;
    let got = peer.get(rt, hub).ok()?;
    let same = got.bytes.len() == count && got.bytes.as_slice().iter().all(|byte| *byte == 7);
    Some(matches!(put, Ok(n) if n == got.n) && same)
}

// Why a put of so many bytes that don't print is refused; none if it isn't.
fn why_not_wide<F: FabricName, R: Wait>(
    rt: &R,
    hub: &Hub<F>,
    alloc: Global,
    at: &Portal<F>,
    count: usize,
) -> Option<Refusal> {
    let bytes = vec![in alloc; 7u8; count].ok()?;
    match at.put_wide(rt, hub, Bytes::from_vec(bytes), Vec::new(alloc)) {
        Ok(_) => None,
        Err(refused) => Some(refused.why),
    }
}

// Whether a parcel of none, one and the most bytes goes through, and one of a byte more is too much.
fn is_wide<F: FabricName, R: Wait>(rt: &R, hub: &Hub<F>, alloc: Global) -> Option<bool> {
    let (a, b) = hub.open_pair(rt, 0).ok()?;
    let none = goes_wide(rt, hub, alloc, &a, &b, 0)?;
    let one = goes_wide(rt, hub, alloc, &a, &b, 1)?;
    let most = goes_wide(rt, hub, alloc, &a, &b, 65_536)?;
    let more = why_not_wide(rt, hub, alloc, &a, 65_537)?;
    Some(none && one && most && more == Refusal::TooMany)
}

// Sends a portal, takes it out of what is got, and sends it again; the end of what is got then.
fn goes_twice<F: FabricName, R: Wait + Clock>(
    rt: &R,
    hub: &Hub<F>,
    alloc: Global,
    a: &Portal<F>,
    b: &Portal<F>,
    moved: Portal<F>,
) -> Option<End> {
    sends_and_acts(rt, hub, alloc, a, moved)?;
    let taken = takes(rt, hub, b)?;
    sends_and_acts(rt, hub, alloc, a, taken)?;
    listed(rt, hub, alloc, b)
}

// Whether a get that doesn't wait long finds nothing, and then what was sent: a portal, which is taken out, sent again, and got in a list.
fn arrives<F: FabricName, R: Wait + Clock>(rt: &R, hub: &Hub<F>, alloc: Global) -> Option<bool> {
    let (a, b) = hub.open_pair(rt, 0).ok()?;
    let (moved, peer) = hub.open_pair(rt, 0).ok()?;
    let early = b.get_timeout(rt, hub, Duration::ZERO);
    let is_early = matches!(early, Err(Missed::Refused(Refusal::Empty)));
    let end = goes_twice(rt, hub, alloc, &a, &b, moved)?;
    Some(is_early && end == peer.end().opposite())
}

// Whether a case is as it should be.
fn looks<F: FabricName, R: Wait + Clock>(
    rt: &R,
    hub: &Hub<F>,
    alloc: Global,
    case: Case,
) -> Option<bool> {
    match case {
        Case::PeerClosed => is_closed(rt, hub),
        Case::Stranger => is_stranger(rt, hub, alloc),
        Case::PeerAttach => is_attached(rt, hub, alloc),
        Case::OpenAtOne => is_at_one(rt, hub, alloc),
        Case::Seen => is_seen(rt, hub, alloc),
        Case::Arrived => are_at_home(rt, hub),
        Case::EarlyEnd => Some(work(rt, hub, 0, &mut Twice, 10) == 2),
        Case::DroppedPortal => is_open(rt, hub),
        Case::ScopedPortal => is_closed_behind(rt, hub),
        Case::Ready => is_told(rt, hub, alloc),
        Case::Arrival => arrives(rt, hub, alloc),
        Case::Wide => is_wide(rt, hub, alloc),
    }
}

// Whether a case is as it should be, on the hub of a table.
fn looks_on<F: FabricName, R: Wait + Clock>(
    rt: &R,
    alloc: Global,
    blank: Blank,
    case: Case,
) -> Option<bool>
    requires { blank ≡ F.table }
{
    let (hub, _portals) = hub_of::<F>(blank)?;
    looks(rt, &hub, alloc, case)
}

// Whether a case is as it should be, on the hub of a new table.
fn holds<R: Wait + Clock>(rt: &R, alloc: Global, case: Case) -> Option<bool> {
    let blank = start(alloc, 2, 4).ok()?;
    looks_on::<Brand, R>(rt, alloc, blank, case)
}

#[test]
fn a_portal_whose_peer_is_closed_gives_nothing(rt: HostRuntime) {
    well(&rt, holds(&rt, rt.alloc(), Case::PeerClosed));
}

#[test]
fn a_portal_of_another_node_is_a_stranger(rt: HostRuntime) {
    well(&rt, holds(&rt, rt.alloc(), Case::Stranger));
}

#[test]
fn a_portal_does_not_take_its_peer_along(rt: HostRuntime) {
    well(&rt, holds(&rt, rt.alloc(), Case::PeerAttach));
}

#[test]
fn a_pair_is_opened_at_the_node_that_was_asked(rt: HostRuntime) {
    well(&rt, holds(&rt, rt.alloc(), Case::OpenAtOne));
}

#[test]
fn a_look_at_a_portal_takes_nothing(rt: HostRuntime) {
    well(&rt, holds(&rt, rt.alloc(), Case::Seen));
}

#[test]
fn a_portal_has_arrived_where_it_was_opened(rt: HostRuntime) {
    well(&rt, holds(&rt, rt.alloc(), Case::Arrived));
}

#[test]
fn work_that_ends_early_tells_the_turns_taken(rt: HostRuntime) {
    well(&rt, holds(&rt, rt.alloc(), Case::EarlyEnd));
}

#[test]
fn a_portal_that_is_dropped_leaves_its_end_open(rt: HostRuntime) {
    well(&rt, holds(&rt, rt.alloc(), Case::DroppedPortal));
}

#[test]
fn a_scoped_portal_is_closed_when_it_is_let_go(rt: HostRuntime) {
    well(&rt, holds(&rt, rt.alloc(), Case::ScopedPortal));
}

#[test]
fn the_portal_where_something_has_come_is_told(rt: HostRuntime) {
    well(&rt, holds(&rt, rt.alloc(), Case::Ready));
}

#[test]
fn a_portal_takes_up_to_65536_bytes_of_any_value(rt: HostRuntime) {
    well(&rt, holds(&rt, rt.alloc(), Case::Wide));
}

#[test]
fn a_portal_arrives_with_a_parcel_that_is_waited_for(rt: HostRuntime) {
    well(&rt, holds(&rt, rt.alloc(), Case::Arrival));
}
