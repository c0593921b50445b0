//! At which of several portals something has come.
ghost use Rattle.std.specs.Prelude.{◌≡◌, ◌<◌, ◌≤◌, true, false, None, IfOk, IfErr, IfSome, length};
ghost use Rattle.ipcz_fabric.specs.PortalSets.{in_round};
ghost use Rattle.ipcz_fabric.specs.Readiness.{EachBefore, Finds, IsFirstFrom, IsNoneReady, IsThere};
ghost use Rattle.ipcz_fabric.specs.Stopping.{IsStop};

use crate::deadline::{Deadline, Patience};
use crate::hub::Hub;
use crate::missed::Missed;
use crate::portal_set::PortalSet;
use crate::selecting::{NoneGot, are_empty};
use ipcz_base::Refusal;
use ipcz_cell::{Bells, FabricName, Ticket};
use std::sync::Wait;
use std::time::{Clock, Duration};

// What is told where a get at each portal finds nothing: the node of that at a place is stopped, or nothing has come.
fn none_of(stopped: Option<(usize, Refusal)>) -> NoneGot
    ensures none { stopped ≡ None → (result.place ≡ None) × (result.why ≡ Missed.Refused Refusal.Empty) }
    ensures stopped { IfSome stopped (λ s. (result.place ≡ Some s.0) × (result.why ≡ Missed.Stopped s.1)) }
{
    match stopped {
        Some((place, why)) => NoneGot {
            place: Some(place),
            why: Missed::Stopped(why),
        },
        None => NoneGot {
            place: None,
            why: Missed::Refused(Refusal::Empty),
        },
    }
}

/// Watches the bell of a node, or of all.
pub(crate) fn watch(bells: &Bells, node: Option<u8>) -> Ticket {
    match node {
        Some(node) => bells.watch(node),
        None => bells.watch_any(),
    }
}

/// Sleeps on that bell.
pub(crate) fn sleep<R: Wait>(
    rt: &R,
    bells: &Bells,
    node: Option<u8>,
    ticket: Ticket,
    limit: Duration,
) {
    match node {
        Some(node) => bells.sleep(rt, node, ticket, limit),
        None => bells.sleep_any(rt, ticket, limit),
    }
}

impl<F: FabricName> Hub<F> {
    // Counted in a round that begins at a place: the number of the first portal of a node where a get finds something, if it is below a limit, by one look
    // under that node's lock; the limit if there is none. And why the node is stopped, if it is.
    fn look_at<R: Wait>(
        &self,
        rt: &R,
        node: u8,
        portals: &PortalSet<F>,
        from: usize,
        limit: usize,
    ) -> (usize, Option<Refusal>)
        requires inside { node < F.table.count }
        requires from { from ≤ length portals.now }
        ensures most { result.0 ≤ limit }
        ensures found { result.0 < limit → IsThere (in_round portals.now from) result.0 (Finds F.table true) }
        ensures none { EachBefore (in_round portals.now from) result.0 (λ p. p.node ≡ node → Finds F.table false p) }
        ensures stop { IfSome result.1 IsStop }
    {
        let desk = self.lock(rt, node);
        (desk.first_ready(portals, from, limit), desk.stop())
    }

    // The first of some portals where a get finds something, in a round that begins at a place. Each of their nodes is looked at once.
    fn first_ready<R: Wait>(
        &self,
        rt: &R,
        portals: &PortalSet<F>,
        from: usize,
    ) -> Result<usize, NoneGot>
        requires { from ≤ length portals.now }
        ensures ready { IfOk result (IsFirstFrom F.table portals.now from) }
        ensures none { IfErr result (λ e. IsNoneReady F.table portals.now e.place e.why) }
    {
        let nodes = portals.nodes();
        let mut first = portals.len();
        let mut stopped = None;
        let mut looked = 0;
        while looked < nodes.len() && first > 0 {
            let node = nodes[looked];
            let (found, stop) = self.look_at(rt, node, portals, from, first);
            first = found;
            stopped = stopped_at(stopped, node, stop);
            looked += 1;
        }
        if first < portals.len() {
            return Ok(portals.place_of_nth(from, first));
        }
        Err(none_of(place_stopped(portals, stopped)))
    }

    // The same, asleep while there is none, as long as there is patience.
    fn wait_patiently<R: Wait, P: Patience>(
        &self,
        rt: &R,
        portals: &PortalSet<F>,
        from: usize,
        patience: &P,
    ) -> Result<usize, NoneGot>
        requires { from ≤ length portals.now }
        ensures ready { IfOk result (IsFirstFrom F.table portals.now from) }
        ensures none { IfErr result (λ e. IsNoneReady F.table portals.now e.place e.why) }
        ensures over { IfErr result (λ e. e.place ≡ None → P.over) }
    {
        let news = self.fabric().news();
        let node = portals.only_node();
        for _try in rt.forever() {
            let left = patience.left();
            let ticket = watch(news, node);
            let ready = self.first_ready(rt, portals, from);
            if left.is_zero() || !are_empty(&ready) {
                return ready;
            }
            sleep(rt, news, node, ticket, left);
        }
        unreachable!()
    }

    /// Sleeps until something has come at one of the portals of a set, a parcel or the close of its peer, and tells which: the place in the set of the
    /// first of them where a get finds something. Nothing is taken, so that somebody else may get there first. It sleeps no longer than `limit` in all:
    /// `Duration::MAX` is without end, and `Duration::ZERO` doesn't sleep. The portals may be of several nodes, whose turns workers have to take meanwhile.
    ///
    /// Each look begins at the place `from`, and those before it come behind the last one. Who always begins at 0 hears of the first portals first, and one
    /// where something comes all the time keeps those behind it waiting. Who begins one behind the place that was told last gives each portal its turn.
    /// A place behind the last counts as 0.
    ///
    /// Each look takes the lock of each of the portals' nodes at most once, and searches what has come there; each end where something has is looked up in the
    /// set. So it costs the same in a set of one portal and in one of thousands. If all are of one node, a message that is handled there ends the sleep
    /// for one look; else one that is handled at any node does. It takes no memory, and is no call in the nodes' histories.
    ///
    /// Refused with `place` if nothing has come at any of the portals and the last turn of the node of that one was refused, so that its workers have ended
    /// ([`Missed::Stopped`]). Without a place nothing has come in the time. So of an empty set. At a portal whose end the node's callers don't hold
    /// nothing ever comes. A clock that can't be read ends the wait.
    ///
    /// So `hub.wait_any(rt, &set, 0, Duration::from_secs(1))` is `Ok(1)` where the first parcel comes at the portal that was added as the second one. A get
    /// follows there, and then `hub.wait_any(rt, &set, 2, limit)`.
    pub fn wait_any<R: Wait + Clock>(
        &self,
        rt: &R,
        portals: &PortalSet<F>,
        from: usize,
        limit: Duration,
    ) -> Result<usize, NoneGot>
        ensures ready { IfOk result (IsFirstFrom F.table portals.now from) }
        ensures none { IfErr result (λ e. IsNoneReady F.table portals.now e.place e.why) }
    {
        let begin = portals.beginning(from);
        let first = self.first_ready(rt, portals, begin);
        if !are_empty(&first) {
            return first;
        }
        self.wait_patiently(rt, portals, begin, &Deadline::new(rt, limit))
    }
}

// Which node is stopped, and why: that which was known before, or else this one, if it is.
fn stopped_at(
    before: Option<(u8, Refusal)>,
    node: u8,
    stop: Option<Refusal>,
) -> Option<(u8, Refusal)>
    ensures before { IfSome before (λ s. result ≡ Some s) }
    ensures none { before ≡ None → stop ≡ None → result ≡ None }
    ensures now { before ≡ None → IfSome stop (λ why. result ≡ Some (node, why)) }
{
    match (before, stop) {
        (Some(before), _) => Some(before),
        (None, Some(why)) => Some((node, why)),
        (None, None) => None,
    }
}

// The first portal of a node that is stopped, and why it is.
fn place_stopped<F: FabricName>(
    portals: &PortalSet<F>,
    stopped: Option<(u8, Refusal)>,
) -> Option<(usize, Refusal)>
    ensures place { IfSome result (λ s. IfSome stopped (λ known. IsThere portals.now s.0 (λ p. p.node ≡ known.0))) }
    ensures why { IfSome result (λ s. IfSome stopped (λ known. s.1 ≡ known.1)) }
    ensures some { stopped ≡ None → result ≡ None }
{
    let (node, why) = stopped?;
    let place = portals.place_of_node(node)?;
    Some((place, why))
}
