//! A get at several portals at once.
ghost use Rattle.std.specs.Prelude.{◌≡◌, ◌≢◌, false, None, IfOk, IfErr, MatchBool, MatchResult};
ghost use Rattle.ipcz_fabric.specs.Portals.{IsGot};
ghost use Rattle.ipcz_fabric.specs.Selecting.{GivesParcel, IsFirst, IsNoneGot, LooksInVain, LooksOnce, LooksOnceInVain, LooksUntil};

use crate::caller::Caller;
use crate::deadline::{Deadline, Patience};
use crate::hub::Hub;
use crate::missed::Missed;
use crate::portal::Portal;
use crate::portals::{Arrival, arrival_of};
use crate::readiness::{sleep, watch};
use ipcz_base::Refusal;
use ipcz_cell::FabricName;
use std::sync::Wait;
use std::time::{Clock, Duration};

/// Why a get at several portals has given no parcel.
#[derive(Clone, Copy, Debug, PartialEq, Eq)]
pub struct NoneGot {
    /// The place in the list of the portal that refuses the get, or whose node is stopped; none if each of them is `Empty`.
    pub place: Option<usize>,
    pub why: Missed,
}

// Whether nothing has come at a portal, and none of its node's turns says that nothing will.
fn is_empty(why: Missed) -> bool
    ensures { MatchBool result (why ≡ Missed.Refused Refusal.Empty) (why ≢ Missed.Refused Refusal.Empty) }
{
    matches!(why, Missed::Refused(Refusal::Empty))
}

// Whether each portal was empty.
pub(crate) fn are_empty<T>(taken: &Result<T, NoneGot>) -> bool
    ensures { MatchResult taken.now (λ _. result ≡ false) (λ e. MatchBool result (e.place ≡ None) (e.place ≢ None)) }
{
    matches!(taken, Err(NoneGot { place: None, .. }))
}

// The node of all of these portals, if they are of one.
fn only_node<F: FabricName>(portals: &[Portal<F>]) -> Option<u8> {
    let node = portals.first()?.node();
    for portal in portals {
        if portal.node() != node {
            return None;
        }
    }
    Some(node)
}

impl<F: FabricName> Caller<F> {
    // Takes the next parcel at the first of some portals that has something.
    fn take_first<R: Wait>(
        &mut self,
        rt: &R,
        hub: &Hub<F>,
        portals: &[Portal<F>],
    ) -> Result<(usize, Arrival<F>), NoneGot>
        ensures got { IfOk result
            (λ a. IsFirst F.table portals.now a.0 (λ p. IsGot F.table p.node p.end a.1.n a.1.bytes a.1.portals)) }
        ensures refused { IfErr result (λ e. IsNoneGot F.table portals.now e.place e.why) }
        ensures extends { MatchResult result
            (λ a. LooksOnce F.table portals.now a.0 (GivesParcel a.1.n a.1.bytes a.1.portals) self.old self.new)
            (λ e. LooksOnceInVain F.table portals.now e.place e.why self.old self.new) }
    {
        for (place, portal) in portals.iter().enumerate() {
            match self.take(rt, hub, portal) {
                Ok((n, parcel)) => return Ok((place, arrival_of(portal.node(), n, parcel))),
                Err(why) => {
                    if !is_empty(why) {
                        return Err(NoneGot {
                            place: Some(place),
                            why,
                        });
                    }
                }
            }
        }
        Err(NoneGot {
            place: None,
            why: Missed::Refused(Refusal::Empty),
        })
    }

    // Takes the next parcel at the first of some portals that has something, and sleeps while none has, as long as there is patience.
    fn take_any_patiently<R: Wait, P: Patience>(
        &mut self,
        rt: &R,
        hub: &Hub<F>,
        portals: &[Portal<F>],
        patience: &P,
    ) -> Result<(usize, Arrival<F>), NoneGot>
        ensures got { IfOk result
            (λ a. IsFirst F.table portals.now a.0 (λ p. IsGot F.table p.node p.end a.1.n a.1.bytes a.1.portals)) }
        ensures refused { IfErr result (λ e. IsNoneGot F.table portals.now e.place e.why) }
        ensures over { IfErr result (λ e. e.place ≡ None → P.over) }
        ensures extends { MatchResult result
            (λ a. LooksUntil F.table portals.now a.0 (GivesParcel a.1.n a.1.bytes a.1.portals) self.old self.new)
            (λ e. LooksInVain F.table portals.now e.place e.why self.old self.new) }
    {
        let news = hub.fabric().news();
        let node = only_node(portals);
        for _try in rt.forever() {
            let left = patience.left();
            let ticket = watch(news, node);
            let taken = self.take_first(rt, hub, portals);
            if left.is_zero() || !are_empty(&taken) {
                return taken;
            }
            sleep(rt, news, node, ticket, left);
        }
        unreachable!()
    }

    /// Takes the next parcel at the first of some portals that has something, and sleeps while none has, as [`Hub::get_any`]. Each look at a portal is a
    /// call at its node.
    ///
    /// Refused as that.
    ///
    /// So `me.get_any(rt, &hub, &portals, Duration::from_secs(1))` is `Ok((1, arrival))` where the first parcel comes at `portals[1]`.
    pub fn get_any<R: Wait + Clock>(
        &mut self,
        rt: &R,
        hub: &Hub<F>,
        portals: &[Portal<F>],
        limit: Duration,
    ) -> Result<(usize, Arrival<F>), NoneGot>
        ensures got { IfOk result
            (λ a. IsFirst F.table portals.now a.0 (λ p. IsGot F.table p.node p.end a.1.n a.1.bytes a.1.portals)) }
        ensures refused { IfErr result (λ e. IsNoneGot F.table portals.now e.place e.why) }
        ensures extends { MatchResult result
            (λ a. LooksUntil F.table portals.now a.0 (GivesParcel a.1.n a.1.bytes a.1.portals) self.old self.new)
            (λ e. LooksInVain F.table portals.now e.place e.why self.old self.new) }
    {
        let first = self.take_first(rt, hub, portals);
        if !are_empty(&first) {
            return first;
        }
        self.take_any_patiently(rt, hub, portals, &Deadline::new(rt, limit))
    }
}

impl<F: FabricName> Hub<F> {
    /// Takes the next parcel at the first of some portals that has something, with its place in the list, and sleeps while none has, for no
    /// longer than `limit` in all: `Duration::MAX` is without end, and `Duration::ZERO` doesn't sleep. The portals may be of several nodes.
    /// Workers have to take the turns of the nodes meanwhile.
    ///
    /// Each look asks the portals in their order, each under its node's lock. If all are of one node, each message that is handled there ends the sleep
    /// for one look; else each that is handled at any node. Who wants all to have their turn puts the one that was served last at the end of the list.
    /// For many portals see [`Hub::wait_any`].
    ///
    /// It takes no memory. `place` tells the portal that refuses the get: `Stranger` if the node's callers don't hold its end, `PeerClosed` if its peer is
    /// closed and all that was put there was got; take it out of the list then. Or nothing has come there and the last turn of its node was refused, so
    /// that its workers have ended ([`Missed::Stopped`]). Without a place all were `Empty` in a last look, at the end of the time. So is an empty list.
    /// A clock that can't be read ends the wait.
    ///
    /// So `hub.get_any(rt, &portals, Duration::from_secs(1))` is `Ok((1, arrival))` where the first parcel comes at `portals[1]`.
    pub fn get_any<R: Wait + Clock>(
        &self,
        rt: &R,
        portals: &[Portal<F>],
        limit: Duration,
    ) -> Result<(usize, Arrival<F>), NoneGot>
        ensures got { IfOk result
            (λ a. IsFirst F.table portals.now a.0 (λ p. IsGot F.table p.node p.end a.1.n a.1.bytes a.1.portals)) }
        ensures refused { IfErr result (λ e. IsNoneGot F.table portals.now e.place e.why) }
    {
        self.caller().get_any(rt, self, portals, limit)
    }
}
